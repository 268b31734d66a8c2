//! Writes the lines of a network's events.
ghost use Rattle.std.specs.Prelude.{◌≡◌, ◌+◌, ◌≤◌, [], ◌++◌, codes, length, map, OnOk};
ghost use Rattle.std.specs.Fmt.{decimal};
ghost use Rattle.node_core_spec.specs.Texts.{head_text, bound_text};
ghost use Rattle.trace_text.specs.Lines.{line_of};
ghost use Rattle.net_world_spec.specs.World.{entry_at};
ghost use Rattle.net_world_spec.specs.Texts as spec;

use crate::act_lines::put_act_line;
use crate::short::ShortText;
use hex::encode;
use net_world_spec::Line;
use node_core_spec::What;
use packet_frame::FrameBytes;
use plan_base::{Bytes, Family, Host, NoMemory};
use std::alloc::Global;

/// The front of a line: the number of its event, a word and a number.
fn write_numbered(text: &mut ShortText, event: u32, word: &[u8], number: u32)
    requires none { text.old ≡ [] }
    requires word { length word.now ≤ 10 }
    ensures text { text.new ≡ decimal event ++ (codes " " ++ (word.now ++ decimal number)) }
    ensures room { length text.new ≤ 51 }
{
    text.number(u64::from(event));
    text.byte(b' ');
    text.word(word);
    text.number(u64::from(number));
}

/// A line of a word and a number.
fn put_numbered(out: &mut Bytes, event: u32, word: &[u8], number: u32) -> Result<(), NoMemory>
    requires { length word.now ≤ 10 }
    ensures { OnOk result (out.new ≡ out.old ++ line_of event (word.now ++ decimal number)) }
{
    let mut text = ShortText::new();
    write_numbered(&mut text, event, word, number);
    text.byte(b'\n');
    text.put(out)?;
    Ok(())
}

/// A frame in hex, where frames are shown.
fn put_shown(
    alloc: Global,
    out: &mut Bytes,
    frames: bool,
    frame: &FrameBytes,
) -> Result<(), NoMemory>
    ensures { OnOk result (out.new ≡ out.old ++ spec.shown_text frames frame.now) }
{
    if frames {
        let bytes = frame.spell(alloc)?;
        out.add(b' ')?;
        out.add_all(encode(alloc, bytes.as_slice())?.as_bytes())?;
    }
    Ok(())
}

fn put_wired(
    alloc: Global,
    out: &mut Bytes,
    frames: bool,
    event: u32,
    number: u32,
    frame: &FrameBytes,
) -> Result<(), NoMemory>
    ensures { OnOk result (out.new ≡ out.old ++ line_of event
        (codes "wire " ++ (decimal number ++ spec.shown_text frames frame.now))) }
{
    let mut text = ShortText::new();
    write_numbered(&mut text, event, b"wire ", number);
    text.put(out)?;
    put_shown(alloc, out, frames, frame)?;
    out.add(b'\n')?;
    Ok(())
}

fn put_forged(
    out: &mut Bytes,
    event: u32,
    host: Host,
    f: Family,
    bound: u32,
) -> Result<(), NoMemory>
    ensures { OnOk result (out.new ≡ out.old ++ line_of event
        (head_text (codes "forged") host ++ bound_text f bound)) }
{
    let mut text = ShortText::new();
    text.head(u64::from(event), b"forged", host);
    text.bound(f, bound);
    text.byte(b'\n');
    text.put(out)?;
    Ok(())
}

/// What was lost.
fn write_lost(text: &mut ShortText, what: What)
    requires { length text.old + 69 ≤ 192 }
    ensures text { text.new ≡ text.old ++ spec.lost_text what }
    ensures room { length text.new ≤ length text.old + 69 }
{
    match what {
        What::Packet(f, bound) => text.bound(f, bound),
        What::Advert => text.word(b" advert"),
    }
}

fn put_lost(out: &mut Bytes, event: u32, what: What) -> Result<(), NoMemory>
    ensures { OnOk result (out.new ≡ out.old ++ line_of event
        (codes "lost" ++ spec.lost_text what)) }
{
    let mut text = ShortText::new();
    text.number(u64::from(event));
    text.word(b" lost");
    write_lost(&mut text, what);
    text.byte(b'\n');
    text.put(out)?;
    Ok(())
}

fn put_nothing(out: &mut Bytes, event: u32) -> Result<(), NoMemory>
    ensures { OnOk result (out.new ≡ out.old ++ line_of event (codes "nothing")) }
{
    let mut text = ShortText::new();
    text.number(u64::from(event));
    text.word(b" nothing\n");
    text.put(out)?;
    Ok(())
}

/// A whole line of a trace: the number of its event, what it says, with frames in hex where they
/// are to be shown, and its end.
#[tactic(auto, unfolding(net_world_spec::specs::Texts::entry_text, net_world_spec::specs::Texts::line_text, node_core_spec::specs::Texts::act_line))]
fn put_line(
    alloc: Global,
    out: &mut Bytes,
    frames: bool,
    event: u32,
    line: &Line,
) -> Result<(), NoMemory>
    ensures { OnOk result (out.new ≡ out.old ++ spec.entry_text frames (entry_at event line.now)) }
{
    match line {
        Line::At(host, act) => put_act_line(alloc, u64::from(event), *host, act, out)?,
        Line::Forged(host, f, bound) => put_forged(out, event, *host, *f, *bound)?,
        Line::Wire(number, frame) => put_wired(alloc, out, frames, event, *number, frame)?,
        Line::Off(number) => put_numbered(out, event, b"off ", *number)?,
        Line::Again(number) => put_numbered(out, event, b"again ", *number)?,
        Line::Lost(what) => put_lost(out, event, *what)?,
        Line::Nothing => put_nothing(out, event)?,
    }
    Ok(())
}

/// Appends the lines of an event, each with the event's number. Where an allocation fails, a part of them may stand behind
/// `out`.
pub fn put_all_lines(
    alloc: Global,
    out: &mut Bytes,
    frames: bool,
    event: u32,
    lines: &[Line],
) -> Result<(), NoMemory>
    ensures { OnOk result (out.new ≡ out.old ++ spec.entries_text frames
        (map (entry_at event) lines.now)) }
{
    for line in lines {
        put_line(alloc, out, frames, event, line)?;
    }
    Ok(())
}
