//! Reads the events of two ends.
ghost use Rattle.std.specs.Prelude.{◌≡◌};
ghost use Rattle.line_reader.specs.Reads.{Reads, Leaves};
ghost use Rattle.command_files.specs.PortFiles as spec;

use crate::port::{PortEvent, PortReading, PortWord};
use line_reader::{LineError, LineReason, Words, allow, hex_bytes, number, wide_number};
use plan_base::{Dev, Host};
use std::alloc::Global;

/// The most bytes of a body.
const MOST_BODY_BYTES: usize = 4_096;

/// The most events.
const MOST_EVENTS: usize = 50_000;

/// Whether a number is that of an end's host.
fn is_end(n: u32) -> bool
    ensures { result ≡ spec.is_end n }
{
    n == 1 || n == 2
}

/// The next word as the host of an end. Reasons: `BadWord`, `BadNumber`, `UnknownHost`.
#[tactic(auto, unfolding(crate::specs::PortFiles::end_host))]
fn end_host(words: &mut Words<'_>) -> Result<Host, LineReason>
    ensures { Reads (λ h. h) result words.new (spec.end_host words.old) }
{
    let n = number(words, 0, u32::MAX)?;
    allow(is_end(n), LineReason::UnknownHost)?;
    Ok(Host(n))
}

/// The number of a frame, alone. Reasons: `BadWord`, `BadNumber`.
#[tactic(auto, unfolding(crate::specs::PortFiles::frame_at))]
fn frame(words: &mut Words<'_>) -> Result<u32, LineReason>
    ensures { result ≡ spec.frame_at words.old }
{
    let k = number(words, 0, u32::MAX)?;
    words.end()?;
    Ok(k)
}

/// `offer HEX` behind its first word. Reasons: `BadWord`, `BadArgument`.
#[tactic(auto, unfolding(crate::specs::PortFiles::offer_line))]
fn offer(alloc: Global, reading: &mut PortReading, words: &mut Words<'_>) -> Result<(), LineError>
    ensures { Leaves result reading.new (spec.offer_line words.old reading.old) }
{
    let body = hex_bytes(alloc, words, 1, MOST_BODY_BYTES)?;
    words.end()?;
    reading.events.add(PortEvent::Offer(body))?;
    Ok(())
}

/// `transmit I` behind its first word. Reasons: `BadWord`, `BadNumber`.
#[tactic(auto, unfolding(crate::specs::PortFiles::transmit_line))]
fn transmit(reading: &mut PortReading, words: &mut Words<'_>) -> Result<(), LineError>
    ensures { Leaves result reading.new (spec.transmit_line words.old reading.old) }
{
    let seq = wide_number(words)?;
    words.end()?;
    reading.events.add(PortEvent::Transmit(seq))?;
    Ok(())
}

/// `send N D` behind its first word. Reasons: `BadWord`, `BadNumber`, `UnknownHost`.
#[tactic(auto, unfolding(crate::specs::PortFiles::send_line))]
fn send(reading: &mut PortReading, words: &mut Words<'_>) -> Result<(), LineError>
    ensures { Leaves result reading.new (spec.send_line words.old reading.old) }
{
    let host = end_host(words)?;
    let d = number(words, 0, 8)?;
    words.end()?;
    reading.events.add(PortEvent::Send(host, Dev(d)))?;
    Ok(())
}

/// `deliver K` behind its first word.
#[tactic(auto, unfolding(crate::specs::PortFiles::deliver_line))]
fn deliver(reading: &mut PortReading, words: &mut Words<'_>) -> Result<(), LineError>
    ensures { Leaves result reading.new (spec.deliver_line words.old reading.old) }
{
    let k = frame(words)?;
    reading.events.add(PortEvent::Deliver(k))?;
    Ok(())
}

/// `lose K` behind its first word.
#[tactic(auto, unfolding(crate::specs::PortFiles::lose_line))]
fn lose(reading: &mut PortReading, words: &mut Words<'_>) -> Result<(), LineError>
    ensures { Leaves result reading.new (spec.lose_line words.old reading.old) }
{
    let k = frame(words)?;
    reading.events.add(PortEvent::Lose(k))?;
    Ok(())
}

/// `repeat K` behind its first word.
#[tactic(auto, unfolding(crate::specs::PortFiles::repeat_line))]
fn repeat(reading: &mut PortReading, words: &mut Words<'_>) -> Result<(), LineError>
    ensures { Leaves result reading.new (spec.repeat_line words.old reading.old) }
{
    let k = frame(words)?;
    reading.events.add(PortEvent::Repeat(k))?;
    Ok(())
}

/// An event behind its first word.
#[tactic(auto, unfolding(crate::specs::PortFiles::event_rest))]
fn read_rest(
    alloc: Global,
    word: PortWord,
    reading: &mut PortReading,
    words: &mut Words<'_>,
) -> Result<(), LineError>
    ensures { Leaves result reading.new (spec.event_rest word words.old reading.old) }
{
    match word {
        PortWord::Offer => offer(alloc, reading, words),
        PortWord::Transmit => transmit(reading, words),
        PortWord::Send => send(reading, words),
        PortWord::Deliver => deliver(reading, words),
        PortWord::Lose => lose(reading, words),
        PortWord::Repeat => repeat(reading, words),
    }
}

/// An event. Reasons: `BadWord`, `TooMany`, and those of its kind.
#[tactic(auto, unfolding(crate::specs::PortFiles::event_line))]
pub fn read_event(
    alloc: Global,
    reading: &mut PortReading,
    words: &mut Words<'_>,
) -> Result<(), LineError>
    ensures { Leaves result reading.new (spec.event_line words.old reading.old) }
{
    let word = words.next()?;
    let kind = PortWord::of(word).ok_or(LineReason::BadWord)?;
    allow(reading.events.len() < MOST_EVENTS, LineReason::TooMany)?;
    read_rest(alloc, kind, reading, words)
}
