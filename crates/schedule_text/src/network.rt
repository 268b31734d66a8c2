//! Reads the network of a schedule.
ghost use Rattle.std.specs.Prelude.{◌≡◌};
ghost use Rattle.line_reader.specs.Reads.{Leaves, Gives};
ghost use Rattle.schedule_text.specs.Schedules.{is_first, frames_line, host_line, link_line, program_line, close_program, network_rest, network_line};
ghost use Rattle.schedule_text.specs.Leaving.{LeavesStage};

use crate::keyword::NetworkWord;
use crate::parts::{free_device, is_known_program, known_host};
use crate::reading::{BegunProgram, NamedProgram, Reading, Stage};
use line_reader::{
    LineError, LineReason, OpenProgram, Words, allow, name_of, number, packages, program,
};
use network_config::{HostSpec, Link, has_host};
use plan_base::Host;
use std::alloc::Global;

/// Whether no line of the network was read.
fn is_first(reading: &Reading) -> bool
    ensures { result ≡ is_first reading.now }
{
    !reading.frames && reading.hosts.is_empty() && reading.programs.is_empty()
}

/// `frames` behind the first word. Reason: `BadWord`.
#[tactic(auto, unfolding(crate::specs::Schedules::frames_line))]
fn read_frames(reading: &mut Reading, words: &mut Words<'_>) -> Result<(), LineError>
    ensures { Leaves result reading.new (frames_line words.old reading.old) }
{
    allow(is_first(reading), LineReason::BadWord)?;
    words.end()?;
    reading.frames = true;
    Ok(())
}

/// `host N` and the packages that it lacks, behind the first word. Reasons: `TooMany`, `BadWord`,
/// `BadNumber`, `TwiceNamed`.
#[tactic(auto, unfolding(crate::specs::Schedules::host_line))]
fn read_host(alloc: Global, reading: &mut Reading, words: &mut Words<'_>) -> Result<(), LineError>
    ensures { Leaves result reading.new (host_line words.old reading.old) }
{
    allow(reading.hosts.len() < 32, LineReason::TooMany)?;
    let n = number(words, 0, u32::MAX)?;
    let host = Host(n);
    allow(
        !has_host(reading.hosts.as_slice(), host),
        LineReason::TwiceNamed,
    )?;
    let missing = packages(alloc, words)?;
    reading.hosts.add(HostSpec { host, missing })?;
    Ok(())
}

/// `link N D M E` behind the first word. Reasons: `BadWord`, `BadNumber`, `UnknownHost`, `TwiceNamed`,
/// `BadArgument`.
#[tactic(auto, unfolding(crate::specs::Schedules::link_line))]
fn read_link(reading: &mut Reading, words: &mut Words<'_>) -> Result<(), LineError>
    ensures { Leaves result reading.new (link_line words.old reading.old) }
{
    let n = known_host(reading.hosts.as_slice(), words)?;
    let d = free_device(reading.links.as_slice(), n, words)?;
    let m = known_host(reading.hosts.as_slice(), words)?;
    allow(m.0 != n.0, LineReason::BadArgument)?;
    let e = free_device(reading.links.as_slice(), m, words)?;
    words.end()?;
    reading.links.add(Link {
        from: n,
        from_dev: d,
        to: m,
        to_dev: e,
    })?;
    Ok(())
}

/// `program NAME` behind the first word. Reasons: `TooMany`, `BadWord`, `TwiceNamed`.
#[tactic(auto, unfolding(crate::specs::Schedules::program_line))]
fn begin_program(
    alloc: Global,
    line: u32,
    reading: &Reading,
    words: &mut Words<'_>,
) -> Result<BegunProgram, LineError>
    ensures { Gives (λ b. b) result (program_line line words.old reading.now) }
{
    allow(reading.programs.len() < 64, LineReason::TooMany)?;
    let word = words.next()?;
    let name = name_of(alloc, word, LineReason::BadWord)?;
    allow(
        !is_known_program(reading.programs.as_slice(), word),
        LineReason::TwiceNamed,
    )?;
    words.end()?;
    let source = OpenProgram::begin_at(alloc, line);
    Ok(BegunProgram { name, source })
}

/// The end of a program's text. Reasons: `TooMany`, `ProgramRefused`.
#[tactic(auto, unfolding(crate::specs::Schedules::close_program))]
pub fn end_program(
    alloc: Global,
    reading: &mut Reading,
    begun: BegunProgram,
) -> Result<(), LineError>
    ensures { Leaves result reading.new (close_program begun reading.old) }
{
    let BegunProgram { name, source } = begun;
    let read = program(alloc, source.text.as_slice());
    drop(source);
    match read {
        Ok(program) => {
            reading.programs.add(NamedProgram { name, program })?;
            Ok(())
        }
        Err(stop) => {
            drop(name);
            Err(stop)
        }
    }
}

/// A line of the network behind its first word.
#[tactic(auto, unfolding(crate::specs::Schedules::network_rest))]
fn read_rest(
    alloc: Global,
    kind: NetworkWord,
    line: u32,
    reading: &mut Reading,
    words: &mut Words<'_>,
) -> Result<Stage, LineError>
    ensures { LeavesStage result reading.new (network_rest kind line words.old reading.old) }
{
    match kind {
        NetworkWord::Frames => {
            read_frames(reading, words)?;
            Ok(Stage::Network)
        }
        NetworkWord::Host => {
            read_host(alloc, reading, words)?;
            Ok(Stage::Network)
        }
        NetworkWord::Link => {
            read_link(reading, words)?;
            Ok(Stage::Network)
        }
        NetworkWord::Program => {
            let begun = begin_program(alloc, line, reading, words)?;
            Ok(Stage::Inside(begun))
        }
        NetworkWord::Events => {
            words.end()?;
            Ok(Stage::Events)
        }
    }
}

/// A line of the network, and what may come next.
#[tactic(auto, unfolding(crate::specs::Schedules::network_line))]
pub fn read_network(
    alloc: Global,
    line: u32,
    reading: &mut Reading,
    words: &mut Words<'_>,
) -> Result<Stage, LineError>
    ensures { LeavesStage result reading.new (network_line line words.old reading.old) }
{
    let word = words.next()?;
    let kind = NetworkWord::of(word).ok_or(LineReason::BadWord)?;
    read_rest(alloc, kind, line, reading, words)
}
