//! Writes the line of an act.
ghost use Rattle.std.specs.Prelude.{◌≡◌, ◌+◌, ◌≤◌, [], ◌++◌, codes, length, OnOk, OnErr};
ghost use Rattle.std.specs.Fmt.{decimal};
ghost use Rattle.plan_printer_spec.specs.Literals.{int_text};
ghost use Rattle.plan_printer_spec.specs.Printed.{value_text};
ghost use Rattle.packet_frame.specs.Reasons.{reason_text};
ghost use Rattle.node_core_spec.specs.Texts as spec;
ghost use Rattle.trace_text.specs.Lines.{line_of, front_of};

use crate::short::ShortText;
use itoa::Buffer;
use node_core_spec::{Act, Reason, Took, What};
use packet_frame::FrameFault;
use packet_frame_text::put_reason;
use plan_base::{Bytes, Dev, Family, Host, NoMemory, Value};
use plan_meaning::Outcome;
use plan_printer::print_value;
use service_api::Note;
use std::alloc::Global;

/// Appends a number in decimal. Where an allocation fails, `out` stays.
#[tactic(auto, using(std::proofs::lemmas::Fmt::decimal_digit))]
pub fn put_number(out: &mut Bytes, n: u64) -> Result<(), NoMemory>
    ensures whole { OnOk result (out.new ≡ out.old ++ decimal n) }
    ensures stays { OnErr result (out.new ≡ out.old) }
{
    // (most numbers of a trace have one digit)
    if n < 10 {
        out.add(b'0' + n as u8)?;
        return Ok(());
    }
    let mut digits = Buffer::new();
    out.add_all(digits.format(n).as_bytes())?;
    Ok(())
}

/// Appends a family: its source and its serial number. Where an allocation fails, a part of it may stand behind `out`.
pub fn put_family(out: &mut Bytes, f: Family) -> Result<(), NoMemory>
    ensures { OnOk result (out.new ≡ out.old ++ spec.family_text f) }
{
    let mut text = ShortText::new();
    text.family(f);
    text.put(out)
}

/// A number at the end of a line.
fn put_last(out: &mut Bytes, word: &[u8], n: u32) -> Result<(), NoMemory>
    requires { length word.now ≤ 100 }
    ensures { OnOk result (out.new ≡ out.old ++ (word.now ++ (decimal n ++ codes "\n"))) }
{
    let mut text = ShortText::new();
    text.word(word);
    text.number(u64::from(n));
    text.byte(b'\n');
    text.put(out)
}

/// What a visit left, and the end of its line.
fn write_rest(text: &mut ShortText, evals: u32, left: u32)
    requires { length text.old + 54 ≤ 192 }
    ensures { text.new ≡ text.old ++ (spec.rest_text evals left ++ codes "\n") }
{
    text.word(b" evals ");
    text.number(u64::from(evals));
    text.word(b" left ");
    text.number(u64::from(left));
    text.byte(b'\n');
}

/// What a visit left, at the end of its line.
fn put_rest(out: &mut Bytes, evals: u32, left: u32) -> Result<(), NoMemory>
    ensures { OnOk result (out.new ≡ out.old ++ (spec.rest_text evals left ++ codes "\n")) }
{
    let mut text = ShortText::new();
    write_rest(&mut text, evals, left);
    text.put(out)
}

/// The front of a line: its event, its head and a family.
fn put_front(
    out: &mut Bytes,
    event: u64,
    word: &[u8],
    host: Host,
    f: Family,
) -> Result<(), NoMemory>
    requires { length word.now ≤ 100 }
    ensures { OnOk result (out.new ≡ out.old ++ front_of event word.now host f) }
{
    let mut text = ShortText::new();
    text.head(event, word, host);
    text.byte(b' ');
    text.family(f);
    text.byte(b' ');
    text.put(out)
}

/// A note.
fn put_note(
    alloc: Global,
    out: &mut Bytes,
    event: u64,
    host: Host,
    note: &Note,
) -> Result<(), NoMemory>
    ensures { OnOk result (out.new ≡ out.old ++ line_of event (spec.note_text host note.now)) }
{
    match note {
        Note::Print(value) => put_print(alloc, out, event, host, value),
        Note::Port(port, value) => put_port(alloc, out, event, host, *port, value),
    }
}

fn put_print(
    alloc: Global,
    out: &mut Bytes,
    event: u64,
    host: Host,
    value: &Value,
) -> Result<(), NoMemory>
    ensures { OnOk result (out.new ≡ out.old ++ line_of event
        (spec.head_text (codes "print") host ++ (codes " " ++ value_text value.now))) }
{
    let mut text = ShortText::new();
    text.head(event, b"print", host);
    text.byte(b' ');
    text.put(out)?;
    print_value(alloc, value, out)?;
    out.add(b'\n')?;
    Ok(())
}

fn put_port(
    alloc: Global,
    out: &mut Bytes,
    event: u64,
    host: Host,
    port: u16,
    value: &Value,
) -> Result<(), NoMemory>
    ensures { OnOk result (out.new ≡ out.old ++ line_of event
        (spec.head_text (codes "port") host ++ (codes " " ++
        (decimal port ++ (codes " " ++ value_text value.now))))) }
{
    let mut text = ShortText::new();
    text.head(event, b"port", host);
    text.byte(b' ');
    text.number(u64::from(port));
    text.byte(b' ');
    text.put(out)?;
    print_value(alloc, value, out)?;
    out.add(b'\n')?;
    Ok(())
}

/// The end of a visit.
fn put_end(
    alloc: Global,
    out: &mut Bytes,
    event: u64,
    host: Host,
    f: Family,
    outcome: &Outcome,
    evals: u32,
    left: u32,
) -> Result<(), NoMemory>
    ensures { OnOk result (out.new ≡ out.old ++ line_of event
        (spec.end_text host f outcome.now evals left)) }
{
    match outcome {
        Outcome::Value(value) => put_ended(alloc, out, event, host, f, value, evals, left),
        Outcome::Raised(x) => put_raised(out, event, host, f, x.0.as_slice(), evals, left),
        Outcome::WorkSpent => put_spent(out, event, host, f, left),
    }
}

/// The line of a visit that ended with a value.
#[tactic(auto, using(plan_printer::proofs::ValueLaws::value_text_out, plan_base::specs::Trees::trees))]
fn put_ended(
    alloc: Global,
    out: &mut Bytes,
    event: u64,
    host: Host,
    f: Family,
    value: &Value,
    evals: u32,
    left: u32,
) -> Result<(), NoMemory>
    ensures { OnOk result (out.new ≡ out.old ++ line_of event
        (spec.head_text (codes "value") host ++ (codes " " ++
        (spec.family_text f ++ (codes " " ++ (value_text value.now ++ spec.rest_text
        evals left)))))) }
{
    match value {
        Value::Unit => put_done(out, event, host, f, evals, left),
        Value::Int(n) => put_integer(out, event, host, f, *n, evals, left),
        _ => put_given(alloc, out, event, host, f, value, evals, left),
    }
}

/// The line of a visit without a value. (So end most, so its line is written in one piece.)
fn put_done(
    out: &mut Bytes,
    event: u64,
    host: Host,
    f: Family,
    evals: u32,
    left: u32,
) -> Result<(), NoMemory>
    ensures { OnOk result (out.new ≡ out.old ++ line_of event
        (spec.head_text (codes "value") host ++ (codes " " ++
        (spec.family_text f ++ (codes " " ++ (codes "()" ++ spec.rest_text evals left)))))) }
{
    let mut text = ShortText::new();
    text.head(event, b"value", host);
    text.byte(b' ');
    text.family(f);
    text.word(b" ()");
    write_rest(&mut text, evals, left);
    text.put(out)
}

/// The line of a visit that ended with a number, which is written in one piece too.
fn put_integer(
    out: &mut Bytes,
    event: u64,
    host: Host,
    f: Family,
    n: i64,
    evals: u32,
    left: u32,
) -> Result<(), NoMemory>
    ensures { OnOk result (out.new ≡ out.old ++ line_of event
        (spec.head_text (codes "value") host ++ (codes " " ++
        (spec.family_text f ++ (codes " " ++ (int_text n ++ spec.rest_text evals left)))))) }
{
    let mut text = ShortText::new();
    text.head(event, b"value", host);
    text.byte(b' ');
    text.family(f);
    text.byte(b' ');
    text.integer(n);
    write_rest(&mut text, evals, left);
    text.put(out)
}

fn put_given(
    alloc: Global,
    out: &mut Bytes,
    event: u64,
    host: Host,
    f: Family,
    value: &Value,
    evals: u32,
    left: u32,
) -> Result<(), NoMemory>
    ensures { OnOk result (out.new ≡ out.old ++ line_of event
        (spec.head_text (codes "value") host ++ (codes " " ++
        (spec.family_text f ++ (codes " " ++ (value_text value.now ++ spec.rest_text
        evals left)))))) }
{
    put_front(out, event, b"value", host, f)?;
    print_value(alloc, value, out)?;
    put_rest(out, evals, left)
}

fn put_raised(
    out: &mut Bytes,
    event: u64,
    host: Host,
    f: Family,
    name: &[u8],
    evals: u32,
    left: u32,
) -> Result<(), NoMemory>
    ensures { OnOk result (out.new ≡ out.old ++ line_of event
        (spec.head_text (codes "raised") host ++ (codes " " ++
        (spec.family_text f ++ (codes " " ++ (name.now ++ spec.rest_text evals left)))))) }
{
    put_front(out, event, b"raised", host, f)?;
    out.add_all(name)?;
    put_rest(out, evals, left)
}

fn put_spent(out: &mut Bytes, event: u64, host: Host, f: Family, left: u32) -> Result<(), NoMemory>
    ensures { OnOk result (out.new ≡ out.old ++ line_of event
        (spec.head_text (codes "spent") host ++ (codes " " ++
        (spec.family_text f ++ (codes " left " ++ decimal left))))) }
{
    let mut text = ShortText::new();
    text.head(event, b"spent", host);
    text.byte(b' ');
    text.family(f);
    text.word(b" left ");
    text.number(u64::from(left));
    text.byte(b'\n');
    text.put(out)
}

/// A handler that is called, with the bound that it has.
fn put_handled(
    out: &mut Bytes,
    event: u64,
    host: Host,
    f: Family,
    name: &[u8],
    bound: u32,
) -> Result<(), NoMemory>
    ensures { OnOk result (out.new ≡ out.old ++ line_of event
        (spec.head_text (codes "handler") host ++ (codes " " ++
        (spec.family_text f ++ (codes " " ++ (name.now ++ (codes " bound " ++ decimal bound))))))) }
{
    put_front(out, event, b"handler", host, f)?;
    out.add_all(name)?;
    put_last(out, b" bound ", bound)
}

/// The word of a reason.
fn reason_word(reason: Reason) -> &'static [u8]
    ensures word { result.now ≡ spec.reason_text reason }
    ensures short { length result.now ≤ 10 }
{
    match reason {
        Reason::NoBound => b"NoBound",
        Reason::NoService => b"NoService",
        Reason::NoRoute => b"NoRoute",
        Reason::QueueFull => b"QueueFull",
        Reason::LinkSpent => b"LinkSpent",
    }
}

fn put_injected(
    out: &mut Bytes,
    event: u64,
    host: Host,
    f: Family,
    bound: u32,
) -> Result<(), NoMemory>
    ensures { OnOk result (out.new ≡ out.old ++ line_of event
        (spec.head_text (codes "inject") host ++ spec.bound_text f bound)) }
{
    let mut text = ShortText::new();
    text.head(event, b"inject", host);
    text.bound(f, bound);
    text.byte(b'\n');
    text.put(out)
}

/// A word, the host and a device.
#[inline(always)]
fn put_on_device(
    out: &mut Bytes,
    event: u64,
    word: &[u8],
    host: Host,
    dev: Dev,
) -> Result<(), NoMemory>
    requires { length word.now ≤ 10 }
    ensures { OnOk result (out.new ≡ out.old ++ line_of event
        (spec.head_text word.now host ++ spec.device_text dev)) }
{
    let mut text = ShortText::new();
    text.head(event, word, host);
    text.device(dev);
    text.byte(b'\n');
    text.put(out)
}

/// A word, the host and an end.
fn put_plain(
    out: &mut Bytes,
    event: u64,
    word: &[u8],
    host: Host,
    end: &[u8],
) -> Result<(), NoMemory>
    requires { length word.now + length end.now ≤ 100 }
    ensures { OnOk result (out.new ≡ out.old ++ line_of event
        (spec.head_text word.now host ++ end.now)) }
{
    let mut text = ShortText::new();
    text.head(event, word, host);
    text.word(end);
    text.byte(b'\n');
    text.put(out)
}

/// Why bytes are no frame.
fn put_bad(
    alloc: Global,
    out: &mut Bytes,
    event: u64,
    host: Host,
    refusal: &FrameFault,
) -> Result<(), NoMemory>
    ensures { OnOk result (out.new ≡ out.old ++ line_of event
        (spec.head_text (codes "drop") host ++ (codes " BadFrame " ++ reason_text refusal.now))) }
{
    let mut text = ShortText::new();
    text.head(event, b"drop", host);
    text.word(b" BadFrame ");
    text.put(out)?;
    put_reason(alloc, refusal, out)?;
    out.add(b'\n')?;
    Ok(())
}

fn put_ticked(out: &mut Bytes, event: u64, host: Host, now: u64) -> Result<(), NoMemory>
    ensures { OnOk result (out.new ≡ out.old ++ line_of event
        (spec.head_text (codes "tick") host ++ (codes " now " ++ decimal now))) }
{
    let mut text = ShortText::new();
    text.head(event, b"tick", host);
    text.word(b" now ");
    text.number(now);
    text.byte(b'\n');
    text.put(out)
}

/// What was sent: the family of a packet, or that it is an advert.
fn write_sent(text: &mut ShortText, what: What)
    requires { length text.old + 41 ≤ 192 }
    ensures text { text.new ≡ text.old ++ spec.sent_text what }
    ensures room { length text.new ≤ length text.old + 41 }
{
    match what {
        What::Packet(f, _) => text.family(f),
        What::Advert => text.word(b"advert"),
    }
}

fn put_queued(
    out: &mut Bytes,
    event: u64,
    host: Host,
    dev: Dev,
    f: Family,
    bound: u32,
) -> Result<(), NoMemory>
    ensures { OnOk result (out.new ≡ out.old ++ line_of event
        (spec.head_text (codes "queue") host ++ (spec.device_text dev ++
        spec.bound_text f bound))) }
{
    let mut text = ShortText::new();
    text.head(event, b"queue", host);
    text.device(dev);
    text.bound(f, bound);
    text.byte(b'\n');
    text.put(out)
}

fn put_dropped(
    out: &mut Bytes,
    event: u64,
    host: Host,
    reason: Reason,
    f: Family,
    bound: u32,
) -> Result<(), NoMemory>
    ensures { OnOk result (out.new ≡ out.old ++ line_of event
        (spec.head_text (codes "drop") host ++ (codes " " ++
        (spec.reason_text reason ++ spec.bound_text f bound)))) }
{
    let mut text = ShortText::new();
    text.head(event, b"drop", host);
    text.byte(b' ');
    text.word(reason_word(reason));
    text.bound(f, bound);
    text.byte(b'\n');
    text.put(out)
}

/// The word of what a stamp was taken as.
fn took_word(took: Took) -> &'static [u8]
    ensures word { result.now ≡ spec.took_text took }
    ensures short { length result.now ≤ 10 }
{
    match took {
        Took::Fresh => b"Fresh",
        Took::Repeated => b"Repeated",
        Took::TooOld => b"TooOld",
    }
}

/// What a stale frame held: the family of a packet with its bound, or that it is an advert.
fn write_held(text: &mut ShortText, what: What)
    requires { length text.old + 69 ≤ 192 }
    ensures text { text.new ≡ text.old ++ spec.stale_text what }
    ensures room { length text.new ≤ length text.old + 69 }
{
    match what {
        What::Packet(f, bound) => text.bound(f, bound),
        What::Advert => text.word(b" advert"),
    }
}

fn put_stale(
    out: &mut Bytes,
    event: u64,
    host: Host,
    took: Took,
    what: What,
) -> Result<(), NoMemory>
    ensures { OnOk result (out.new ≡ out.old ++ line_of event
        (spec.head_text (codes "drop") host ++ (codes " " ++
        (spec.took_text took ++ spec.stale_text what)))) }
{
    let mut text = ShortText::new();
    text.head(event, b"drop", host);
    text.byte(b' ');
    text.word(took_word(took));
    write_held(&mut text, what);
    text.byte(b'\n');
    text.put(out)
}

fn put_taken(out: &mut Bytes, event: u64, host: Host, dev: Dev, what: What) -> Result<(), NoMemory>
    ensures { OnOk result (out.new ≡ out.old ++ line_of event
        (spec.head_text (codes "send") host ++ (spec.device_text dev ++
        (codes " " ++ spec.sent_text what)))) }
{
    let mut text = ShortText::new();
    text.head(event, b"send", host);
    text.device(dev);
    text.byte(b' ');
    write_sent(&mut text, what);
    text.byte(b'\n');
    text.put(out)
}

/// Appends the line of an act at a host, with the number of its event. Where an allocation fails, a part of it may stand behind
/// `out`.
#[tactic(auto, unfolding(node_core_spec::specs::Texts::act_text, node_core_spec::specs::Texts::act_line))]
pub fn put_act_line(
    alloc: Global,
    event: u64,
    here: Host,
    act: &Act,
    out: &mut Bytes,
) -> Result<(), NoMemory>
    ensures { OnOk result (out.new ≡ out.old ++ spec.act_line event here act.now) }
{
    match act {
        Act::Injected(f, bound) => put_injected(out, event, here, *f, *bound),
        Act::Arrived(dev) => put_on_device(out, event, b"arrive", here, *dev),
        Act::Noted(note) => put_note(alloc, out, event, here, note),
        Act::Ended(f, outcome, evals, left) => put_end(
            alloc, out, event, here, *f, outcome, *evals, *left,
        ),
        Act::Handled(f, name, bound) => put_handled(out, event, here, *f, name.as_slice(), *bound),
        Act::Queued(dev, f, bound) => put_queued(out, event, here, *dev, *f, *bound),
        Act::Dropped(reason, f, bound) => put_dropped(out, event, here, *reason, *f, *bound),
        Act::Bad(refusal) => put_bad(alloc, out, event, here, refusal),
        Act::Taken(dev, what) => put_taken(out, event, here, *dev, *what),
        Act::Ticked(now) => put_ticked(out, event, here, *now),
        Act::AdvertQueued(dev) => put_on_device(out, event, b"advert", here, *dev),
        Act::Heard(dev) => put_on_device(out, event, b"heard", here, *dev),
        Act::Asked => put_plain(out, event, b"arrive", here, b" control"),
        Act::Misplaced => put_plain(out, event, b"drop", here, b" BadFrame Misplaced"),
        Act::AdvertDropped(_) => put_plain(out, event, b"drop", here, b" QueueFull advert"),
        Act::AdvertSpent(_) => put_plain(out, event, b"drop", here, b" LinkSpent advert"),
        Act::Stale(took, what) => put_stale(out, event, here, *took, *what),
        Act::SerialsSpent => put_plain(out, event, b"drop", here, b" SerialsSpent"),
        Act::NoMemory => put_plain(out, event, b"drop", here, b" NoMemory"),
    }
}

/// Appends the line of an act at a host, with the number of its event. Where an allocation fails, `out` stays.
pub fn put_act(
    alloc: Global,
    event: u64,
    here: Host,
    act: &Act,
    out: &mut Bytes,
) -> Result<(), NoMemory>
    ensures whole { OnOk result (out.new ≡ out.old ++ spec.act_line event here act.now) }
    ensures stays { OnErr result (out.new ≡ out.old) }
{
    let mut line = Bytes::new(alloc);
    put_act_line(alloc, event, here, act, &mut line)?;
    out.add_all(line.as_slice())?;
    Ok(())
}
