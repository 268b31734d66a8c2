//! Writes the line of an event.
ghost use Rattle.std.specs.Prelude.{◌≡◌, ◌++◌, OnOk, OnErr};
ghost use Rattle.reliable_ports_world.specs.Told as spec;

use plan_base::{Bytes, NoMemory};
use std::alloc::Global;
use trace_text::put_number;

/// What an event is reported to have met.
#[derive(Clone, Copy, PartialEq, Eq)]
pub enum PortLine {
    /// 64 messages are offered and not acknowledged.
    Full,
    /// The event changed nothing.
    Nothing,
    /// A purse holds less than 4.
    NoBound,
}

/// The word of a line.
fn word_of(line: PortLine) -> &'static [u8]
    ensures { result.now ≡ spec.word_of line }
{
    match line {
        PortLine::Full => b"full",
        PortLine::Nothing => b"nothing",
        PortLine::NoBound => b"NoBound",
    }
}

/// The line of an event, with the event's number.
#[tactic(auto, unfolding(crate::specs::Told::told_line))]
fn put_told_line(out: &mut Bytes, number: u64, line: PortLine) -> Result<(), NoMemory>
    ensures { OnOk result (out.new ≡ out.old ++ spec.told_line number line) }
{
    put_number(out, number)?;
    out.add_all(b" ")?;
    out.add_all(word_of(line))?;
    out.add_all(b"\n")?;
    Ok(())
}

/// Appends the line of an event, with the event's number. Where an allocation fails, `out` stays.
pub fn put_told(alloc: Global, out: &mut Bytes, number: u64, line: PortLine) -> Result<(), NoMemory>
    ensures whole { OnOk result (out.new ≡ out.old ++ spec.told_line number line) }
    ensures stays { OnErr result (out.new ≡ out.old) }
{
    let mut text = Bytes::new(alloc);
    put_told_line(&mut text, number, line)?;
    out.add_all(text.as_slice())?;
    Ok(())
}
