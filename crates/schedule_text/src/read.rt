//! The public call: reads a schedule line by line.
ghost use Rattle.std.specs.Prelude.{◌≡◌, ◌≤◌, ◌⊎◌, length, Ok, Err, IfOk, IfErr, MatchResult};
ghost use Rattle.line_reader.specs.declared.fault.LineFault.TheVariants.{NoMemory};
ghost use Rattle.network_config.specs.declared.schedule.Schedule.{Schedule};
ghost use Rattle.network_config.specs.Rules.{KeepsRules};
ghost use Rattle.line_reader.specs.Reads.{FileLeaves};
ghost use Rattle.schedule_text.specs.Leaving.{LeavesStep};
ghost use Rattle.schedule_text.specs.Schedules.{header_step, network_step, program_step, event_step, step, finish, schedule_of, nothing_read};

use crate::events::read_event;
use crate::network::{end_program, read_network};
use crate::reading::{BegunProgram, Reading, ScheduleFile, Stage};
use containers::Items;
use line_reader::{
    LineFault, LineFile, LineReason, Words, is, read_file, says_nothing, stopped_at, version_of,
};
use network_config::Schedule;
use plan_base::Version;
use std::alloc::Global;
use std::mem;

/// The header, which gives the version.
fn read_header(number: u32, line: &[u8], reading: &mut Reading) -> Result<Stage, LineFault>
    ensures { LeavesStep result reading.new (header_step number line.now reading.old) }
{
    match version_of(line, b"planet schedule 1", b"planet schedule 2") {
        None => Err(LineFault::Line(number, LineReason::BadHeader)),
        Some(version) => {
            reading.version = version;
            Ok(Stage::Network)
        }
    }
}

/// A line of the network.
fn network_step(
    alloc: Global,
    number: u32,
    line: &[u8],
    reading: &mut Reading,
) -> Result<Stage, LineFault>
    ensures { LeavesStep result reading.new (network_step number line.now reading.old) }
{
    if says_nothing(line) {
        return Ok(Stage::Network);
    }
    let mut words = Words::of(line);
    match read_network(alloc, number, reading, &mut words) {
        Ok(stage) => Ok(stage),
        Err(stop) => Err(stopped_at(number, stop)),
    }
}

/// A line of a program, or the line that ends it.
fn program_step(
    alloc: Global,
    line: &[u8],
    begun: BegunProgram,
    reading: &mut Reading,
) -> Result<Stage, LineFault>
    ensures { LeavesStep result reading.new (program_step line.now begun reading.old) }
{
    if !is(line, b"end program") {
        let mut begun = begun;
        begun.source.add_line(line)?;
        return Ok(Stage::Inside(begun));
    }
    let number = begun.source.line;
    match end_program(alloc, reading, begun) {
        Ok(()) => Ok(Stage::Network),
        Err(stop) => Err(stopped_at(number, stop)),
    }
}

/// An event, behind which the stage stays.
fn event_line(
    alloc: Global,
    number: u32,
    line: &[u8],
    reading: &mut Reading,
) -> Result<(), LineFault>
    ensures { FileLeaves result (Stage.Events, reading.new)
        (event_step number line.now reading.old) }
{
    if says_nothing(line) {
        return Ok(());
    }
    let mut words = Words::of(line);
    match read_event(alloc, reading, &mut words) {
        Ok(()) => Ok(()),
        Err(stop) => Err(stopped_at(number, stop)),
    }
}

/// One line.
#[tactic(auto, unfolding(crate::specs::Schedules::step))]
fn read_line(
    alloc: Global,
    number: u32,
    line: &[u8],
    stage: Stage,
    reading: &mut Reading,
) -> Result<Stage, LineFault>
    ensures { LeavesStep result reading.new (step number line.now stage reading.old) }
{
    match stage {
        Stage::Header => read_header(number, line, reading),
        Stage::Network => network_step(alloc, number, line, reading),
        Stage::Inside(begun) => program_step(alloc, line, begun, reading),
        Stage::Events => {
            event_line(alloc, number, line, reading)?;
            Ok(Stage::Events)
        }
    }
}

/// The end of the file in front of the line `number`.
fn end_file(number: u32, stage: Stage, reading: Reading) -> Result<Schedule, LineFault>
    ensures { result ≡ finish number stage reading }
{
    match stage {
        Stage::Header => Err(LineFault::Line(number, LineReason::BadHeader)),
        Stage::Network => Err(LineFault::Line(number, LineReason::BadWord)),
        Stage::Inside(begun) => {
            drop(begun);
            Err(LineFault::Line(number, LineReason::BadWord))
        }
        Stage::Events => Ok(reading.into_schedule()),
    }
}

impl LineFile for ScheduleFile {
    ghost use Rattle.schedule_text.specs.Schedules.{schedule_format};

    type Said = Schedule;

    ghost format = { schedule_format };

    // (most lines are events, which leave the stage in its place)
    #[tactic(auto, unfolding(crate::specs::Schedules::step))]
    fn line(&mut self, alloc: Global, number: u32, line: &[u8]) -> Result<(), LineFault> {
        if let Stage::Events = &self.stage {
            return event_line(alloc, number, line, &mut self.reading);
        }
        let stage = mem::replace(&mut self.stage, Stage::Header);
        match read_line(alloc, number, line, stage, &mut self.reading) {
            Ok(next) => {
                drop(mem::replace(&mut self.stage, next));
                Ok(())
            }
            Err(fault) => Err(fault),
        }
    }

    #[tactic(auto, using(crate::proofs::FormatLaws::gives_same))]
    fn end(self, _alloc: Global, number: u32) -> Result<Schedule, LineFault> {
        let ScheduleFile { stage, reading } = self;
        end_file(number, stage, reading)
    }
}

/// Nothing read yet.
fn start(alloc: Global) -> ScheduleFile
    ensures { result ≡ nothing_read }
{
    ScheduleFile {
        stage: Stage::Header,
        reading: Reading {
            version: Version::One,
            frames: false,
            hosts: Items::new(alloc),
            links: Items::new(alloc),
            programs: Items::new(alloc),
            events: Items::new(alloc),
            weight: 0,
        },
    }
}

#[tactic(auto, using(line_reader::proofs::FileLaws::is_found, line_reader::proofs::FileLaws::is_only, line_reader::proofs::FileLaws::is_fault, crate::proofs::RuleLaws::is_keeping), unfolding(crate::specs::Schedules::schedule_of))]
/// The schedule that a file is. Condition: at most 4,194,304 bytes.
///
/// The fault is the first line outside the format with its reason, or `NoMemory`.
pub fn read_schedule(alloc: Global, bytes: &[u8]) -> Result<Schedule, LineFault>
    requires { length bytes.now ≤ 4194304 }
    // What is answered is what the file says.
    ensures found { IfOk result (λ s. schedule_of bytes.now ≡ Ok s) }
    // A file that says a schedule is answered so, unless an allocation fails.
    ensures only { (s : Schedule) → schedule_of bytes.now ≡ Ok s → MatchResult result (λ t. t ≡ s)
        (λ e. e ≡ NoMemory) }
    // A refusal is the file's first one, unless an allocation fails.
    ensures fault { IfErr result (λ e. (e ≡ NoMemory) ⊎ (schedule_of bytes.now ≡ Err e)) }
    // A schedule keeps the rules.
    ensures rules { IfOk result KeepsRules }
{
    read_file(alloc, start(alloc), bytes)
}
