//! Reads the events of a schedule.
ghost use Rattle.std.specs.Prelude.{◌≡◌};
ghost use Rattle.line_reader.specs.Reads.{Leaves, Gives};
ghost use Rattle.schedule_text.specs.Schedules.{injected_at, inject_line, send_line, frame_at, deliver_line, repeat_line, lose_line, tick_line, raw_line, event_rest, event_line};

use crate::keyword::EventWord;
use crate::parts::{device, known_host, known_program};
use crate::reading::Reading;
use checked_chunks::CheckedChunk;
use line_reader::{LineError, LineReason, Words, add_weight, allow, hex_bytes, injection, number};
use network_config::WorldEvent;
use plan_base::{Host, Name};
use std::alloc::Global;

/// `inject N PROGRAM ENTRY BOUND ARGS` behind the first word, under version 2 with `handler NAME` in front of ARGS or
/// without: where, what, with which bound and with which handler.
/// Reasons: `BadWord`, `BadNumber`, `UnknownHost`, `UnknownProgram`, `BadArgument`.
#[tactic(auto, unfolding(crate::specs::Schedules::injected_at))]
fn read_injection(
    alloc: Global,
    reading: &Reading,
    words: &mut Words<'_>,
) -> Result<(Host, CheckedChunk, u32, Option<Name>), LineError>
    ensures { Gives (λ i. i) result (injected_at reading.now words.old) }
{
    let host = known_host(reading.hosts.as_slice(), words)?;
    let named = known_program(reading.programs.as_slice(), words)?;
    let (chunk, bound, handler) = injection(alloc, reading.version, &named.program, words)?;
    Ok((host, chunk, bound, handler))
}

/// An injection behind its first word. Reasons: those of [`read_injection`], and `TooMany`.
#[tactic(auto, unfolding(crate::specs::Schedules::inject_line))]
fn inject(alloc: Global, reading: &mut Reading, words: &mut Words<'_>) -> Result<(), LineError>
    ensures { Leaves result reading.new (inject_line words.old reading.old) }
{
    let (host, chunk, bound, handler) = read_injection(alloc, reading, words)?;
    match add_weight(reading.weight, &chunk) {
        Ok(weight) => {
            reading
                .events
                .add(WorldEvent::Inject(host, chunk, bound, handler))?;
            reading.weight = weight;
            Ok(())
        }
        Err(reason) => {
            drop(chunk);
            drop(handler);
            Err(LineError::Reason(reason))
        }
    }
}

/// `send N D` behind its first word. Reasons: `BadWord`, `BadNumber`, `UnknownHost`.
#[tactic(auto, unfolding(crate::specs::Schedules::send_line))]
fn send(reading: &mut Reading, words: &mut Words<'_>) -> Result<(), LineError>
    ensures { Leaves result reading.new (send_line words.old reading.old) }
{
    let host = known_host(reading.hosts.as_slice(), words)?;
    let dev = device(words)?;
    words.end()?;
    reading.events.add(WorldEvent::Send(host, dev))?;
    Ok(())
}

/// The number of a frame, alone. Reasons: `BadWord`, `BadNumber`.
#[tactic(auto, unfolding(crate::specs::Schedules::frame_at))]
fn frame(words: &mut Words<'_>) -> Result<u32, LineReason>
    ensures { result ≡ frame_at words.old }
{
    let k = number(words, 0, u32::MAX)?;
    words.end()?;
    Ok(k)
}

/// `deliver K` behind its first word.
#[tactic(auto, unfolding(crate::specs::Schedules::deliver_line))]
fn deliver(reading: &mut Reading, words: &mut Words<'_>) -> Result<(), LineError>
    ensures { Leaves result reading.new (deliver_line words.old reading.old) }
{
    let k = frame(words)?;
    reading.events.add(WorldEvent::Deliver(k))?;
    Ok(())
}

/// `repeat K` behind its first word.
#[tactic(auto, unfolding(crate::specs::Schedules::repeat_line))]
fn repeat(reading: &mut Reading, words: &mut Words<'_>) -> Result<(), LineError>
    ensures { Leaves result reading.new (repeat_line words.old reading.old) }
{
    let k = frame(words)?;
    reading.events.add(WorldEvent::Repeat(k))?;
    Ok(())
}

/// `lose K` behind its first word.
#[tactic(auto, unfolding(crate::specs::Schedules::lose_line))]
fn lose(reading: &mut Reading, words: &mut Words<'_>) -> Result<(), LineError>
    ensures { Leaves result reading.new (lose_line words.old reading.old) }
{
    let k = frame(words)?;
    reading.events.add(WorldEvent::Lose(k))?;
    Ok(())
}

/// `tick N` behind its first word. Reasons: `BadWord`, `BadNumber`, `UnknownHost`.
#[tactic(auto, unfolding(crate::specs::Schedules::tick_line))]
fn tick(reading: &mut Reading, words: &mut Words<'_>) -> Result<(), LineError>
    ensures { Leaves result reading.new (tick_line words.old reading.old) }
{
    let host = known_host(reading.hosts.as_slice(), words)?;
    words.end()?;
    reading.events.add(WorldEvent::Tick(host))?;
    Ok(())
}

/// `raw N D HEX` behind its first word, of 1 to 16,513 bytes. Reasons: `BadWord`, `BadNumber`, `UnknownHost`,
/// `BadArgument`.
#[tactic(auto, unfolding(crate::specs::Schedules::raw_line))]
fn raw(alloc: Global, reading: &mut Reading, words: &mut Words<'_>) -> Result<(), LineError>
    ensures { Leaves result reading.new (raw_line words.old reading.old) }
{
    let host = known_host(reading.hosts.as_slice(), words)?;
    let dev = device(words)?;
    let bytes = hex_bytes(alloc, words, 1, 16_513)?;
    words.end()?;
    reading.events.add(WorldEvent::Raw(host, dev, bytes))?;
    Ok(())
}

/// An event behind its first word.
#[tactic(auto, unfolding(crate::specs::Schedules::event_rest))]
fn read_rest(
    alloc: Global,
    kind: EventWord,
    reading: &mut Reading,
    words: &mut Words<'_>,
) -> Result<(), LineError>
    ensures { Leaves result reading.new (event_rest kind words.old reading.old) }
{
    match kind {
        EventWord::Inject => inject(alloc, reading, words),
        EventWord::Send => send(reading, words),
        EventWord::Deliver => deliver(reading, words),
        EventWord::Repeat => repeat(reading, words),
        EventWord::Lose => lose(reading, words),
        EventWord::Tick => tick(reading, words),
        EventWord::Raw => raw(alloc, reading, words),
    }
}

/// An event.
#[tactic(auto, unfolding(crate::specs::Schedules::event_line))]
pub fn read_event(
    alloc: Global,
    reading: &mut Reading,
    words: &mut Words<'_>,
) -> Result<(), LineError>
    ensures { Leaves result reading.new (event_line words.old reading.old) }
{
    let word = words.next()?;
    let kind = EventWord::of(reading.version, word).ok_or(LineReason::BadWord)?;
    allow(reading.events.len() < 50_000, LineReason::TooMany)?;
    read_rest(alloc, kind, reading, words)
}
