//! What the lines of two ends have said so far: their header, purses and first event.
ghost use Rattle.std.specs.Prelude.{◌≡◌, ◌≤◌, ◌⊎◌, length, Ok, IfOk, IfErr, Err, MatchResult};
ghost use Rattle.line_reader.specs.Reads.{ReadsOn, Leaves, FileLeaves};
ghost use Rattle.node_files.specs.Parts.{behind_word};
ghost use Rattle.command_files.specs.declared.port.PortFile.{PortFile as Said};
ghost use Rattle.command_files.specs.PortRules.{KeepsPort};
ghost use Rattle.command_files.specs.PortFiles as spec;
ghost use Rattle.command_files.specs.PortFiles.{port_of};

use crate::port::{PortFile, PortReading, PortStage};
use crate::port_events::read_event;
use line_reader::{
    LineError, LineFault, LineFile, LineReason, Words, allow, is, number, read_file, says_nothing,
    stopped_at,
};
use std::alloc::Global;

/// Goes behind a word that must come next. Reason: `BadWord`.
#[tactic(auto, unfolding(node_files::specs::Parts::behind_word))]
fn begin(word: &[u8], words: &mut Words<'_>) -> Result<(), LineReason>
    ensures { ReadsOn result words.new (behind_word word.now words.old) }
{
    let next = words.next()?;
    allow(is(next, word), LineReason::BadWord)?;
    Ok(())
}

impl PortReading {
    /// `bound B C`: the purses. Reasons: `BadWord`, `BadNumber`.
    #[tactic(auto, unfolding(crate::specs::PortFiles::purses_line))]
    fn purses(&mut self, words: &mut Words<'_>) -> Result<(), LineError>
        ensures { Leaves result self.new (spec.purses_line words.old self.old) }
    {
        begin(b"bound", words)?;
        let first = number(words, 0, 65_535)?;
        let second = number(words, 0, 65_535)?;
        words.end()?;
        self.first = first;
        self.second = second;
        self.stage = PortStage::Begin;
        Ok(())
    }

    /// `events`. Reason: `BadWord`.
    #[tactic(auto, unfolding(crate::specs::PortFiles::begin_line))]
    fn begins(&mut self, words: &mut Words<'_>) -> Result<(), LineError>
        ensures { Leaves result self.new (spec.begin_line words.old self.old) }
    {
        begin(b"events", words)?;
        words.end()?;
        self.stage = PortStage::Events;
        Ok(())
    }

    /// The header.
    #[tactic(auto, unfolding(crate::specs::PortFiles::port_step_at))]
    fn header(&mut self, number: u32, line: &[u8]) -> Result<(), LineFault>
        ensures { FileLeaves result self.new
            (spec.port_step_at PortStage.Header number line.now self.old) }
    {
        if !is(line, b"planet port 1") {
            return Err(LineFault::Line(number, LineReason::BadHeader));
        }
        self.stage = PortStage::Purses;
        Ok(())
    }

    /// The line of the purses, or one that says nothing.
    #[tactic(auto, unfolding(crate::specs::PortFiles::port_step_at))]
    fn purses_step(&mut self, number: u32, line: &[u8]) -> Result<(), LineFault>
        ensures { FileLeaves result self.new
            (spec.port_step_at PortStage.Purses number line.now self.old) }
    {
        if says_nothing(line) {
            return Ok(());
        }
        let mut words = Words::of(line);
        match self.purses(&mut words) {
            Ok(()) => Ok(()),
            Err(stop) => Err(stopped_at(number, stop)),
        }
    }

    /// The line `events`, or one that says nothing.
    #[tactic(auto, unfolding(crate::specs::PortFiles::port_step_at))]
    fn begin_step(&mut self, number: u32, line: &[u8]) -> Result<(), LineFault>
        ensures { FileLeaves result self.new
            (spec.port_step_at PortStage.Begin number line.now self.old) }
    {
        if says_nothing(line) {
            return Ok(());
        }
        let mut words = Words::of(line);
        match self.begins(&mut words) {
            Ok(()) => Ok(()),
            Err(stop) => Err(stopped_at(number, stop)),
        }
    }

    /// An event, or a line that says nothing.
    #[tactic(auto, unfolding(crate::specs::PortFiles::port_step_at))]
    fn event_step(&mut self, alloc: Global, number: u32, line: &[u8]) -> Result<(), LineFault>
        ensures { FileLeaves result self.new
            (spec.port_step_at PortStage.Events number line.now self.old) }
    {
        if says_nothing(line) {
            return Ok(());
        }
        let mut words = Words::of(line);
        match read_event(alloc, self, &mut words) {
            Ok(()) => Ok(()),
            Err(stop) => Err(stopped_at(number, stop)),
        }
    }
}

impl LineFile for PortReading {
    ghost use Rattle.command_files.specs.PortFiles.{port_format};

    type Said = PortFile;

    ghost format = { port_format };

    #[tactic(auto, unfolding(crate::specs::PortFiles::port_step_at))]
    fn line(&mut self, alloc: Global, number: u32, line: &[u8]) -> Result<(), LineFault> {
        match self.stage {
            PortStage::Header => self.header(number, line),
            PortStage::Purses => self.purses_step(number, line),
            PortStage::Begin => self.begin_step(number, line),
            PortStage::Events => self.event_step(alloc, number, line),
        }
    }

    fn end(self, alloc: Global, number: u32) -> Result<PortFile, LineFault> {
        let _unused = alloc;
        let PortReading {
            stage,
            first,
            second,
            events,
        } = self;
        match stage {
            PortStage::Header => Err(LineFault::Line(number, LineReason::BadHeader)),
            PortStage::Purses => Err(LineFault::Line(number, LineReason::BadWord)),
            PortStage::Begin => Err(LineFault::Line(number, LineReason::BadWord)),
            PortStage::Events => Ok(PortFile {
                first,
                second,
                events,
            }),
        }
    }
}

/// What two ends do, as a file says it. Condition: at most 4,194,304 bytes.
///
/// The fault is the first line outside the format with its reason, or `NoMemory`; see `docs/use/ports.md`.
#[tactic(auto, using(line_reader::proofs::FileLaws::is_found, line_reader::proofs::FileLaws::is_only, line_reader::proofs::FileLaws::is_fault))]
pub fn read_port(alloc: Global, bytes: &[u8]) -> Result<PortFile, LineFault>
    requires { length bytes.now ≤ 4194304 }
    // What is answered is what the file says.
    ensures found { IfOk result (λ p. port_of bytes.now ≡ Ok p) }
    // A file that says what two ends do is answered so, unless an allocation fails.
    ensures only { (p : Said) → port_of bytes.now ≡ Ok p
        → MatchResult result (λ q. q ≡ p) (λ e. e ≡ LineFault.NoMemory) }
    // A refusal is the file's first one, unless an allocation fails.
    ensures fault { IfErr result (λ e. (e ≡ LineFault.NoMemory) ⊎ (port_of bytes.now ≡ Err e)) }
    // What is answered keeps the rules.
    ensures rules { IfOk result KeepsPort }
{
    read_file(alloc, PortReading::nothing(alloc), bytes)
}
