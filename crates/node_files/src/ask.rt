//! Reads the file of a request.
ghost use Rattle.std.specs.Prelude.{◌≡◌, ◌≤◌, ◌⊎◌, length, Ok, Err, IfOk, IfErr, MatchResult};
ghost use Rattle.line_reader.specs.Files.{file_of};
ghost use Rattle.line_reader.specs.Reads.{Leaves, Gives, FileLeaves, FileGives};
ghost use Rattle.network_config.specs.NodeRules.{KeepsAsk};
ghost use Rattle.network_config.specs.declared.fleet.AskFile.{AskFile as Request};
ghost use Rattle.node_files.specs.Asks as spec;
ghost use Rattle.node_files.specs.Asks.{to_line, from_line, bound_line, wanted_line, inside_line, ask_step_at, request_of, ask_end, ask_format, nothing_asked, ask_of};

use crate::parts::{expect, last_number};
use checked_chunks::Checked;
use line_reader::{
    LineError, LineFault, LineFile, LineReason, OpenProgram, Words, call, is, program, read_file,
    says_nothing, stopped_at,
};
use network_config::AskFile;
use plan_base::Bytes;
use std::alloc::Global;

/// The first word of a line of a request.
#[derive(Clone, Copy, PartialEq, Eq)]
pub enum AskWord {
    /// `to`
    To,
    /// `from`
    From,
    /// `bound`
    Bound,
    /// `entry`
    Entry,
    /// `program`
    Program,
}

/// Which line of a request comes next.
#[derive(Clone, Copy, PartialEq, Eq)]
pub enum AskStage {
    /// The header.
    Header,
    /// The line with this word.
    Wants(AskWord),
    /// A line of the program.
    Inside,
    /// None that says anything.
    Behind,
}

/// What the lines of a request have said so far.
pub struct AskReading {
    /// Which line comes next.
    pub stage: AskStage,
    /// The port to which it is sent, 1 until its line is read.
    pub to: u16,
    /// The port from which it is sent, 1 until its line is read.
    pub from: u16,
    /// The bound.
    pub bound: u32,
    /// The entry and the arguments, as they are written.
    pub entry: Bytes,
    /// The number of their line.
    pub entry_line: u32,
    /// The program while its lines are read.
    pub program: OpenProgram,
    /// The program once they are read.
    pub checked: Option<Checked>,
}

impl Drop for AskReading {
    fn drop(self) {
        let AskReading {
            stage: _stage,
            to: _to,
            from: _from,
            bound: _bound,
            entry: _entry,
            entry_line: _entry_line,
            program: _program,
            checked: _checked,
        } = self;
    }
}

impl AskReading {
    /// Nothing read yet. Takes no memory.
    fn nothing(alloc: Global) -> AskReading
        ensures { result ≡ nothing_asked }
    {
        AskReading {
            stage: AskStage::Header,
            to: 1,
            from: 1,
            bound: 0,
            entry: Bytes::new(alloc),
            entry_line: 1,
            program: OpenProgram::begin_at(alloc, 1),
            checked: None,
        }
    }

    /// `to P`. Reasons: `BadWord`, `BadNumber`.
    #[tactic(auto, unfolding(crate::specs::Asks::to_line))]
    fn to(&mut self, words: &mut Words<'_>) -> Result<(), LineError>
        ensures { Leaves result self.new (to_line words.old self.old) }
    {
        expect(words, b"to")?;
        let port = last_number(words, 1, 65_535)?;
        self.to = port as u16;
        self.stage = AskStage::Wants(AskWord::From);
        Ok(())
    }

    /// `from P`. Reasons: `BadWord`, `BadNumber`.
    #[tactic(auto, unfolding(crate::specs::Asks::from_line))]
    fn from(&mut self, words: &mut Words<'_>) -> Result<(), LineError>
        ensures { Leaves result self.new (from_line words.old self.old) }
    {
        expect(words, b"from")?;
        let port = last_number(words, 1, 65_535)?;
        self.from = port as u16;
        self.stage = AskStage::Wants(AskWord::Bound);
        Ok(())
    }

    /// `bound N`. Reasons: `BadWord`, `BadNumber`.
    #[tactic(auto, unfolding(crate::specs::Asks::bound_line))]
    fn bound(&mut self, words: &mut Words<'_>) -> Result<(), LineError>
        ensures { Leaves result self.new (bound_line words.old self.old) }
    {
        expect(words, b"bound")?;
        self.bound = last_number(words, 0, 65_535)?;
        self.stage = AskStage::Wants(AskWord::Entry);
        Ok(())
    }

    /// `entry ENTRY ARGS`. Reason: `BadWord`.
    #[tactic(auto, unfolding(crate::specs::Asks::entry_line))]
    fn entry(&mut self, alloc: Global, number: u32, words: &mut Words<'_>) -> Result<(), LineError>
        ensures { Leaves result self.new (spec.entry_line number words.old self.old) }
    {
        expect(words, b"entry")?;
        let text = words.rest()?;
        words.next()?;
        words.rest()?;
        self.entry = Bytes::of(Vec::from_slice(alloc, text)?);
        self.entry_line = number;
        self.stage = AskStage::Wants(AskWord::Program);
        Ok(())
    }

    /// `program`. Reason: `BadWord`.
    #[tactic(auto, unfolding(crate::specs::Asks::program_line))]
    fn program(
        &mut self,
        alloc: Global,
        number: u32,
        words: &mut Words<'_>,
    ) -> Result<(), LineError>
        ensures { Leaves result self.new (spec.program_line number words.old self.old) }
    {
        expect(words, b"program")?;
        words.end()?;
        self.program = OpenProgram::begin_at(alloc, number);
        self.stage = AskStage::Inside;
        Ok(())
    }

    /// The line with a word. Reasons: `BadWord`, `BadNumber`.
    #[tactic(auto, unfolding(crate::specs::Asks::wanted_line))]
    fn line_of_word(
        &mut self,
        alloc: Global,
        word: AskWord,
        number: u32,
        words: &mut Words<'_>,
    ) -> Result<(), LineError>
        ensures { Leaves result self.new (wanted_line word number words.old self.old) }
    {
        match word {
            AskWord::To => self.to(words),
            AskWord::From => self.from(words),
            AskWord::Bound => self.bound(words),
            AskWord::Entry => self.entry(alloc, number, words),
            AskWord::Program => self.program(alloc, number, words),
        }
    }

    /// The header.
    #[tactic(auto, unfolding(crate::specs::Asks::ask_step_at))]
    fn header(&mut self, number: u32, line: &[u8]) -> Result<(), LineFault>
        ensures { FileLeaves result self.new (ask_step_at AskStage.Header number
            line.now self.old) }
    {
        if !is(line, b"planet inject 1") {
            return Err(LineFault::Line(number, LineReason::BadHeader));
        }
        self.stage = AskStage::Wants(AskWord::To);
        Ok(())
    }

    /// A line behind the header and in front of the program.
    #[tactic(auto, unfolding(crate::specs::Asks::ask_step_at))]
    fn usual(
        &mut self,
        alloc: Global,
        word: AskWord,
        number: u32,
        line: &[u8],
    ) -> Result<(), LineFault>
        ensures { FileLeaves result self.new (ask_step_at (AskStage.Wants word) number
            line.now self.old) }
    {
        if says_nothing(line) {
            return Ok(());
        }
        let mut words = Words::of(line);
        match self.line_of_word(alloc, word, number, &mut words) {
            Ok(()) => Ok(()),
            Err(stop) => Err(stopped_at(number, stop)),
        }
    }

    /// The end of the program's text. Reasons: `TooMany`, `ProgramRefused`.
    #[tactic(auto, unfolding(crate::specs::Asks::close_program))]
    fn close(&mut self, alloc: Global) -> Result<(), LineError>
        ensures { Leaves result self.new (spec.close_program self.old) }
    {
        let checked = program(alloc, self.program.text.as_slice())?;
        self.checked = Some(checked);
        self.stage = AskStage::Behind;
        Ok(())
    }

    /// A line of the program, or the line that ends it.
    fn inside(&mut self, alloc: Global, line: &[u8]) -> Result<(), LineFault>
        ensures { FileLeaves result self.new (inside_line line.now self.old) }
    {
        if !is(line, b"end program") {
            self.program.add_line(line)?;
            return Ok(());
        }
        let number = self.program.line;
        match self.close(alloc) {
            Ok(()) => Ok(()),
            Err(stop) => Err(stopped_at(number, stop)),
        }
    }

    /// A line behind the program.
    #[tactic(auto, unfolding(crate::specs::Asks::ask_step_at))]
    fn behind(&mut self, number: u32, line: &[u8]) -> Result<(), LineFault>
        ensures { FileLeaves result self.new (ask_step_at AskStage.Behind number
            line.now self.old) }
    {
        if says_nothing(line) {
            return Ok(());
        }
        Err(LineFault::Line(number, LineReason::BadWord))
    }

    /// The request, with this program. Reason: `BadArgument`, `BadWord`.
    #[tactic(auto, unfolding(crate::specs::Asks::request_of))]
    fn request(&self, alloc: Global, program: &Checked) -> Result<AskFile, LineError>
        ensures { Gives (λ a. a) result (request_of program.now self.now) }
    {
        let mut words = Words::of(self.entry.as_slice());
        let chunk = call(alloc, program, &mut words)?;
        Ok(AskFile {
            to: self.to,
            from: self.from,
            bound: self.bound,
            chunk,
        })
    }
}

/// What a file says that ends too early.
fn early(stage: AskStage) -> LineReason
    ensures { result ≡ spec.early stage }
{
    match stage {
        AskStage::Header => LineReason::BadHeader,
        _ => LineReason::BadWord,
    }
}

impl LineFile for AskReading {
    ghost use Rattle.node_files.specs.Asks.{ask_step_at, ask_end, ask_format};

    type Said = AskFile;

    ghost format = { ask_format };

    #[tactic(auto, unfolding(crate::specs::Asks::ask_step_at))]
    fn line(&mut self, alloc: Global, number: u32, line: &[u8]) -> Result<(), LineFault> {
        match self.stage {
            AskStage::Header => self.header(number, line),
            AskStage::Wants(word) => self.usual(alloc, word, number, line),
            AskStage::Inside => self.inside(alloc, line),
            AskStage::Behind => self.behind(number, line),
        }
    }

    fn end(self, alloc: Global, number: u32) -> Result<AskFile, LineFault> {
        let Some(program) = &self.checked else {
            return Err(LineFault::Line(number, early(self.stage)));
        };
        match self.request(alloc, program) {
            Ok(request) => Ok(request),
            Err(stop) => Err(stopped_at(self.entry_line, stop)),
        }
    }
}

#[tactic(auto, using(line_reader::proofs::FileLaws::is_found, line_reader::proofs::FileLaws::is_only, line_reader::proofs::FileLaws::is_fault))]
/// The request that a file is. Condition: at most 4,194,304 bytes.
///
/// The fault is the first line outside the format with its reason, or `NoMemory`. What is wrong with the entry or its
/// arguments comes behind every other refusal.
pub fn read_ask(alloc: Global, bytes: &[u8]) -> Result<AskFile, LineFault>
    requires { length bytes.now ≤ 4194304 }
    // What is answered is what the file says.
    ensures found { IfOk result (λ a. ask_of bytes.now ≡ Ok a) }
    // A file that says a request is answered so, unless an allocation fails.
    ensures only { (a : Request) → ask_of bytes.now ≡ Ok a → MatchResult result (λ b. b ≡ a)
        (λ e. e ≡ LineFault.NoMemory) }
    // A refusal is the file's first one, unless an allocation fails.
    ensures fault { IfErr result (λ e. (e ≡ LineFault.NoMemory) ⊎ (ask_of bytes.now ≡ Err e)) }
    // A request keeps the rules.
    ensures rules { IfOk result KeepsAsk }
{
    read_file(alloc, AskReading::nothing(alloc), bytes)
}
