//! Writes a line of a trace again.
ghost use Rattle.std.specs.Prelude.{◌≡◌, ◌++◌, codes, OnOk};
ghost use Rattle.std.specs.Fmt.{decimal};
ghost use Rattle.trace_chart_picture.specs.Lines as spec;
ghost use Rattle.trace_chart_picture.specs.Traces as whole;

use crate::line::{Entry, Line, Reason, Row, What};
use crate::number::put_number;
use plan_base::{Bytes, Dev, Family, Host, NoMemory};
use std::alloc::Global;

/// A number behind its name.
fn put_named(alloc: Global, out: &mut Bytes, name: &[u8], n: u64) -> Result<(), NoMemory>
    ensures { OnOk result (out.new ≡ out.old ++ whole.named_text name.now n) }
{
    out.add_all(name)?;
    put_number(alloc, out, n)
}

/// Appends a family, as `1.1`.
pub fn put_family(alloc: Global, out: &mut Bytes, f: Family) -> Result<(), NoMemory>
    ensures { OnOk result (out.new ≡ out.old ++ spec.family_text f) }
{
    put_number(alloc, out, u64::from(f.source.0))?;
    put_named(alloc, out, b".", f.serial)
}

/// A family, a blank in front of it.
fn put_of(alloc: Global, out: &mut Bytes, f: Family) -> Result<(), NoMemory>
    ensures { OnOk result (out.new ≡ out.old ++ (codes " " ++ spec.family_text f)) }
{
    out.add_all(b" ")?;
    put_family(alloc, out, f)
}

/// A word, a blank in front of it.
fn put_word(out: &mut Bytes, word: &[u8]) -> Result<(), NoMemory>
    ensures { OnOk result (out.new ≡ out.old ++ (codes " " ++ word.now)) }
{
    out.add_all(b" ")?;
    out.add_all(word)?;
    Ok(())
}

/// A device.
fn put_device(alloc: Global, out: &mut Bytes, dev: Dev) -> Result<(), NoMemory>
    ensures { OnOk result (out.new ≡ out.old ++ spec.device_text dev) }
{
    put_named(alloc, out, b" %", u64::from(dev.0))
}

/// A family with its bound.
fn put_bound(alloc: Global, out: &mut Bytes, f: Family, bound: u32) -> Result<(), NoMemory>
    ensures { OnOk result (out.new ≡ out.old ++ spec.bound_text f bound) }
{
    put_of(alloc, out, f)?;
    put_named(alloc, out, b" bound ", u64::from(bound))
}

/// What a visit paid and left.
fn put_paid(alloc: Global, out: &mut Bytes, evals: u32, left: u32) -> Result<(), NoMemory>
    ensures { OnOk result (out.new ≡ out.old ++ spec.paid_text evals left) }
{
    put_named(alloc, out, b" evals ", u64::from(evals))?;
    put_named(alloc, out, b" left ", u64::from(left))
}

/// How a visit ended, with what it paid and left.
fn put_end(
    alloc: Global,
    out: &mut Bytes,
    f: Family,
    how: &[u8],
    evals: u32,
    left: u32,
) -> Result<(), NoMemory>
    ensures { OnOk result (out.new ≡ out.old ++ spec.end_text f how.now evals left) }
{
    put_of(alloc, out, f)?;
    put_word(out, how)?;
    put_paid(alloc, out, evals, left)
}

/// A visit that passed its allowance, with what is left.
fn put_spent(alloc: Global, out: &mut Bytes, f: Family, left: u32) -> Result<(), NoMemory>
    ensures { OnOk result (out.new ≡ out.old ++ (codes " " ++
        (spec.family_text f ++ (codes " left " ++ decimal left)))) }
{
    put_of(alloc, out, f)?;
    put_named(alloc, out, b" left ", u64::from(left))
}

/// A handler that is called, with the bound that it has.
fn put_called(
    alloc: Global,
    out: &mut Bytes,
    f: Family,
    name: &[u8],
    bound: u32,
) -> Result<(), NoMemory>
    ensures { OnOk result (out.new ≡ out.old ++ spec.called_text f name.now bound) }
{
    put_of(alloc, out, f)?;
    put_word(out, name)?;
    put_named(alloc, out, b" bound ", u64::from(bound))
}

/// The word of a reason.
pub(crate) fn reason_word(reason: Reason) -> &'static [u8]
    ensures { result.now ≡ spec.reason_text reason }
{
    match reason {
        Reason::NoBound => b"NoBound",
        Reason::NoService => b"NoService",
        Reason::NoRoute => b"NoRoute",
        Reason::QueueFull => b"QueueFull",
        Reason::LinkSpent => b"LinkSpent",
        Reason::Repeated => b"Repeated",
        Reason::TooOld => b"TooOld",
    }
}

/// Why a packet was dropped, with its family and bound.
fn put_dropped(
    alloc: Global,
    out: &mut Bytes,
    reason: Reason,
    f: Family,
    bound: u32,
) -> Result<(), NoMemory>
    ensures { OnOk result (out.new ≡ out.old ++ (codes " " ++
        (spec.reason_text reason ++ spec.bound_text f bound))) }
{
    put_word(out, reason_word(reason))?;
    put_bound(alloc, out, f, bound)
}

/// The device and the packet that is queued there.
fn put_queued(
    alloc: Global,
    out: &mut Bytes,
    dev: Dev,
    f: Family,
    bound: u32,
) -> Result<(), NoMemory>
    ensures { OnOk result (out.new ≡ out.old ++ (spec.device_text dev ++ spec.bound_text f bound)) }
{
    put_device(alloc, out, dev)?;
    put_bound(alloc, out, f, bound)
}

/// What a device gave.
fn put_what(alloc: Global, out: &mut Bytes, what: What) -> Result<(), NoMemory>
    ensures { OnOk result (out.new ≡ out.old ++ spec.what_text what) }
{
    match what {
        What::Packet(f) => put_family(alloc, out, f),
        What::Advert => {
            out.add_all(b"advert")?;
            Ok(())
        }
    }
}

/// The device and what it gave.
fn put_sent(alloc: Global, out: &mut Bytes, dev: Dev, what: What) -> Result<(), NoMemory>
    ensures { OnOk result (out.new ≡ out.old ++ (spec.device_text dev ++
        (codes " " ++ spec.what_text what))) }
{
    put_device(alloc, out, dev)?;
    out.add_all(b" ")?;
    put_what(alloc, out, what)
}

/// A number and a text, a blank in front of each.
fn put_pair(alloc: Global, out: &mut Bytes, n: u64, text: &[u8]) -> Result<(), NoMemory>
    ensures { OnOk result (out.new ≡ out.old ++ (codes " " ++
        (decimal n ++ (codes " " ++ text.now)))) }
{
    put_named(alloc, out, b" ", n)?;
    put_word(out, text)
}

/// Appends what stands behind the word and the host of a line.
#[tactic(auto, unfolding(crate::specs::Lines::rest_text))]
pub fn put_rest(alloc: Global, out: &mut Bytes, line: &Line) -> Result<(), NoMemory>
    ensures { OnOk result (out.new ≡ out.old ++ spec.rest_text line.now) }
{
    match line {
        Line::Injected(_, f, bound) | Line::Forged(_, f, bound) | Line::Lost(f, bound) => {
            put_bound(alloc, out, *f, *bound)
        }
        Line::Arrived(_, d) | Line::Advert(_, d) | Line::Heard(_, d) => put_device(alloc, out, *d),
        Line::Asked(_) => put_word(out, b"control"),
        Line::Printed(_, text) | Line::Refused(_, text) => put_word(out, text.as_slice()),
        Line::Delivered(_, port, text) => {
            put_pair(alloc, out, u64::from(*port), text.as_slice())
        }
        Line::Gave(_, f, how, evals, left) | Line::Raised(_, f, how, evals, left) => {
            put_end(alloc, out, *f, how.as_slice(), *evals, *left)
        }
        Line::Spent(_, f, left) => put_spent(alloc, out, *f, *left),
        Line::Handled(_, f, name, bound) => put_called(alloc, out, *f, name.as_slice(), *bound),
        Line::Queued(_, d, f, bound) => put_queued(alloc, out, *d, *f, *bound),
        Line::Dropped(_, reason, f, bound) => put_dropped(alloc, out, *reason, *f, *bound),
        Line::Ticked(_, now) => put_named(alloc, out, b" now ", *now),
        Line::Sent(_, d, what) => put_sent(alloc, out, *d, *what),
        Line::Wire(number) | Line::Off(number) | Line::Again(number) => {
            put_named(alloc, out, b" ", u64::from(*number))
        }
        Line::WireShown(number, hex) => { put_pair(alloc, out, u64::from(*number), hex.as_slice()) }
        Line::LostAdvert => put_word(out, b"advert"),
        Line::Nothing => Ok(()),
    }
}

/// The host of a line, where it names one.
fn put_host(alloc: Global, out: &mut Bytes, host: Option<Host>) -> Result<(), NoMemory>
    ensures { OnOk result (out.new ≡ out.old ++ spec.host_text host) }
{
    match host {
        Some(h) => put_named(alloc, out, b" @", u64::from(h.0)),
        None => Ok(()),
    }
}

/// A line without the number of its event.
#[tactic(auto, unfolding(crate::specs::Lines::line_text))]
fn put_line(alloc: Global, out: &mut Bytes, line: &Line) -> Result<(), NoMemory>
    ensures { OnOk result (out.new ≡ out.old ++ spec.line_text line.now) }
{
    out.add_all(line.word())?;
    put_host(alloc, out, line.host())?;
    put_rest(alloc, out, line)
}

/// Appends a line with its number, without a line feed.
#[tactic(auto, unfolding(crate::specs::Lines::entry_text))]
pub(crate) fn put_entry(alloc: Global, out: &mut Bytes, entry: &Entry) -> Result<(), NoMemory>
    ensures { OnOk result (out.new ≡ out.old ++ spec.entry_text entry.now) }
{
    put_number(alloc, out, entry.event)?;
    out.add_all(b" ")?;
    put_line(alloc, out, &entry.line)
}

/// The end of a row: evals, what is under way and what is left.
fn put_row_end(alloc: Global, out: &mut Bytes, row: Row) -> Result<(), NoMemory>
    ensures { OnOk result (out.new ≡ out.old ++ (whole.named_text (codes " evals ") row.evals ++
        (whole.named_text (codes " live ") row.live ++ whole.named_text
        (codes " left ") row.left))) }
{
    put_named(alloc, out, b" evals ", row.evals)?;
    put_named(alloc, out, b" live ", row.live)?;
    put_named(alloc, out, b" left ", row.left)
}

/// Appends a row of a ledger, without a line feed.
#[tactic(auto, unfolding(crate::specs::Traces::row_text))]
pub(crate) fn put_row(alloc: Global, out: &mut Bytes, row: Row) -> Result<(), NoMemory>
    ensures { OnOk result (out.new ≡ out.old ++ whole.row_text row) }
{
    put_family(alloc, out, row.family)?;
    put_named(alloc, out, b" granted ", row.granted)?;
    put_named(alloc, out, b" hops ", row.hops)?;
    put_row_end(alloc, out, row)
}
