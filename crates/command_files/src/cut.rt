//! Reads the file of a message to be cut.
ghost use Rattle.std.specs.Prelude.{◌≡◌, ◌≤◌, ◌⊎◌, ℕ, List, length, Ok, Err, IfOk, IfErr, MatchResult};
ghost use Rattle.line_reader.specs.Reads.{ReadsOn, Leaves, FileLeaves};
ghost use Rattle.node_files.specs.Answers.{Accepted, Refused};
ghost use Rattle.node_files.specs.Parts.{behind_word};
ghost use Rattle.command_files.specs.declared.cut.CutFile.{CutFile as Message};
ghost use Rattle.command_files.specs.Cuts as spec;
ghost use Rattle.command_files.specs.Cuts.{cut_of, KeepsCut};

use crate::keys::key;
use line_reader::{
    LineError, LineFault, LineFile, LineReason, Words, allow, hex_bytes, is, number, read_file,
    says_nothing, stopped_at,
};
use plan_base::{Bytes, Host};
use std::alloc::Global;

/// The most bytes of a message.
const MOST_BYTES: usize = 262_144;

/// A message to be cut.
pub struct CutFile {
    /// The host that gathers its parts.
    pub dest: Host,
    /// Its port.
    pub port: u16,
    /// The key of the message, below 2^63.
    pub key: u64,
    /// The bound that its parts share, from 1 to 65,535.
    pub bound: u32,
    /// The message, from 1 to 262,144 bytes.
    pub bytes: Bytes,
}

impl Drop for CutFile {
    fn drop(self) {
        let CutFile {
            dest: _dest,
            port: _port,
            key: _key,
            bound: _bound,
            bytes: _bytes,
        } = self;
    }
}

/// The first word of a line.
#[derive(Clone, Copy)]
pub enum CutWord {
    /// `dest`
    Dest,
    /// `port`
    Port,
    /// `key`
    Key,
    /// `bound`
    Bound,
    /// `data`
    Data,
}

/// Which line comes next.
#[derive(Clone, Copy)]
pub enum CutStage {
    /// The header.
    Header,
    /// The line with this word.
    Wants(CutWord),
    /// None that says anything.
    Behind,
}

/// What the lines have said so far.
#[derive(Drop)]
pub struct CutReading {
    /// Which line comes next.
    pub stage: CutStage,
    /// The host that gathers the parts, 0 until its line is read.
    pub dest: Host,
    /// The port.
    pub port: u16,
    /// The key.
    pub key: u64,
    /// The bound, 1 until its line is read.
    pub bound: u32,
    /// The message.
    pub bytes: Bytes,
}

fn first_word(word: CutWord) -> &'static [u8]
    ensures { result.now ≡ spec.first_word word }
{
    match word {
        CutWord::Dest => b"dest",
        CutWord::Port => b"port",
        CutWord::Key => b"key",
        CutWord::Bound => b"bound",
        CutWord::Data => b"data",
    }
}

// Goes behind the first word of a line. Reason: `BadWord`.
#[tactic(auto, unfolding(node_files::specs::Parts::behind_word))]
fn begin(word: CutWord, words: &mut Words<'_>) -> Result<(), LineReason>
    ensures { ReadsOn result words.new (behind_word (spec.first_word word) words.old) }
{
    let next = words.next()?;
    allow(is(next, first_word(word)), LineReason::BadWord)?;
    Ok(())
}

impl CutReading {
    /// Nothing read yet. Takes no memory.
    fn nothing(alloc: Global) -> CutReading
        ensures { result ≡ spec.nothing_read }
    {
        CutReading {
            stage: CutStage::Header,
            dest: Host(0),
            port: 0,
            key: 0,
            bound: 1,
            bytes: Bytes::new(alloc),
        }
    }

    /// The host. Reasons: `BadWord`, `BadNumber`.
    #[tactic(auto, unfolding(crate::specs::Cuts::dest_line))]
    fn dest(&mut self, words: &mut Words<'_>) -> Result<(), LineError>
        ensures { Leaves result self.new (spec.dest_line words.old self.old) }
    {
        let host = number(words, 0, u32::MAX)?;
        words.end()?;
        self.dest = Host(host);
        self.stage = CutStage::Wants(CutWord::Port);
        Ok(())
    }

    /// The port. Reasons: `BadWord`, `BadNumber`.
    #[tactic(auto, unfolding(crate::specs::Cuts::port_line))]
    fn port(&mut self, words: &mut Words<'_>) -> Result<(), LineError>
        ensures { Leaves result self.new (spec.port_line words.old self.old) }
    {
        let port = number(words, 0, 65_535)?;
        words.end()?;
        self.port = port as u16;
        self.stage = CutStage::Wants(CutWord::Key);
        Ok(())
    }

    /// The key. Reasons: `BadWord`, `BadNumber`.
    #[tactic(auto, unfolding(crate::specs::Cuts::key_line))]
    fn key(&mut self, words: &mut Words<'_>) -> Result<(), LineError>
        ensures { Leaves result self.new (spec.key_line words.old self.old) }
    {
        let key = key(words)?;
        words.end()?;
        self.key = key;
        self.stage = CutStage::Wants(CutWord::Bound);
        Ok(())
    }

    /// The bound. Reasons: `BadWord`, `BadNumber`.
    #[tactic(auto, unfolding(crate::specs::Cuts::bound_line))]
    fn bound(&mut self, words: &mut Words<'_>) -> Result<(), LineError>
        ensures { Leaves result self.new (spec.bound_line words.old self.old) }
    {
        let bound = number(words, 1, 65_535)?;
        words.end()?;
        self.bound = bound;
        self.stage = CutStage::Wants(CutWord::Data);
        Ok(())
    }

    /// The message in hex. Reasons: `BadWord`, `BadArgument`.
    #[tactic(auto, unfolding(crate::specs::Cuts::data_line))]
    fn data(&mut self, alloc: Global, words: &mut Words<'_>) -> Result<(), LineError>
        ensures { Leaves result self.new (spec.data_line words.old self.old) }
    {
        let bytes = hex_bytes(alloc, words, 1, MOST_BYTES)?;
        words.end()?;
        self.bytes = bytes;
        self.stage = CutStage::Behind;
        Ok(())
    }

    /// What stands behind the first word of a line.
    fn value(
        &mut self,
        alloc: Global,
        word: CutWord,
        words: &mut Words<'_>,
    ) -> Result<(), LineError>
        ensures { Leaves result self.new (spec.value_line word words.old self.old) }
    {
        match word {
            CutWord::Dest => self.dest(words),
            CutWord::Port => self.port(words),
            CutWord::Key => self.key(words),
            CutWord::Bound => self.bound(words),
            CutWord::Data => self.data(alloc, words),
        }
    }

    /// The line with a word. Reasons: `BadWord`, `BadNumber`, `BadArgument`.
    #[tactic(auto, unfolding(crate::specs::Cuts::wanted_line))]
    fn line_of_word(
        &mut self,
        alloc: Global,
        word: CutWord,
        words: &mut Words<'_>,
    ) -> Result<(), LineError>
        ensures { Leaves result self.new (spec.wanted_line word words.old self.old) }
    {
        begin(word, words)?;
        self.value(alloc, word, words)
    }

    /// The header.
    #[tactic(auto, unfolding(crate::specs::Cuts::cut_step_at))]
    fn header(&mut self, number: u32, line: &[u8]) -> Result<(), LineFault>
        ensures { FileLeaves result self.new
            (spec.cut_step_at CutStage.Header number line.now self.old) }
    {
        if !is(line, b"planet cut 1") {
            return Err(LineFault::Line(number, LineReason::BadHeader));
        }
        self.stage = CutStage::Wants(CutWord::Dest);
        Ok(())
    }

    /// A line behind the header and in front of the message's end.
    #[tactic(auto, unfolding(crate::specs::Cuts::cut_step_at))]
    fn usual(
        &mut self,
        alloc: Global,
        word: CutWord,
        number: u32,
        line: &[u8],
    ) -> Result<(), LineFault>
        ensures { FileLeaves result self.new
            (spec.cut_step_at (CutStage.Wants word) number line.now self.old) }
    {
        if says_nothing(line) {
            return Ok(());
        }
        let mut words = Words::of(line);
        match self.line_of_word(alloc, word, &mut words) {
            Ok(()) => Ok(()),
            Err(stop) => Err(stopped_at(number, stop)),
        }
    }

    /// A line behind the message.
    #[tactic(auto, unfolding(crate::specs::Cuts::cut_step_at))]
    fn behind(&mut self, number: u32, line: &[u8]) -> Result<(), LineFault>
        ensures { FileLeaves result self.new
            (spec.cut_step_at CutStage.Behind number line.now self.old) }
    {
        if says_nothing(line) {
            return Ok(());
        }
        Err(LineFault::Line(number, LineReason::BadWord))
    }
}

impl LineFile for CutReading {
    ghost use Rattle.command_files.specs.Cuts.{cut_format};

    type Said = CutFile;

    ghost format = { cut_format };

    #[tactic(auto, unfolding(crate::specs::Cuts::cut_step_at))]
    fn line(&mut self, alloc: Global, number: u32, line: &[u8]) -> Result<(), LineFault> {
        match self.stage {
            CutStage::Header => self.header(number, line),
            CutStage::Wants(word) => self.usual(alloc, word, number, line),
            CutStage::Behind => self.behind(number, line),
        }
    }

    fn end(self, alloc: Global, number: u32) -> Result<CutFile, LineFault> {
        let _unused = alloc;
        let CutReading {
            stage,
            dest,
            port,
            key,
            bound,
            bytes,
        } = self;
        match stage {
            CutStage::Header => Err(LineFault::Line(number, LineReason::BadHeader)),
            CutStage::Wants(_) => Err(LineFault::Line(number, LineReason::BadWord)),
            CutStage::Behind => Ok(CutFile {
                dest,
                port,
                key,
                bound,
                bytes,
            }),
        }
    }
}

/// The message that a file names. Condition: at most 4,194,304 bytes.
///
/// The fault is the first line outside the format with its reason, or `NoMemory`.
#[tactic(auto, using(line_reader::proofs::FileLaws::is_found, line_reader::proofs::FileLaws::is_only, line_reader::proofs::FileLaws::is_fault))]
pub fn read_cut(alloc: Global, bytes: &[u8]) -> Result<CutFile, LineFault>
    requires { length bytes.now ≤ 4194304 }
    // What is answered is what the file says.
    ensures found { IfOk result (λ m. cut_of bytes.now ≡ Ok m) }
    // A file that names a message is answered so, unless an allocation fails.
    ensures only { (m : Message) → cut_of bytes.now ≡ Ok m
        → MatchResult result (λ n. n ≡ m) (λ e. e ≡ LineFault.NoMemory) }
    // A refusal is the file's first one, unless an allocation fails.
    ensures fault { IfErr result (λ e. (e ≡ LineFault.NoMemory) ⊎ (cut_of bytes.now ≡ Err e)) }
    // A message keeps the rules.
    ensures rules { IfOk result KeepsCut }
{
    read_file(alloc, CutReading::nothing(alloc), bytes)
}

/// Each file names a message or has a first line outside its format, which is one of its lines or the one behind its
/// last.
#[tactic(auto, using(crate::proofs::CutLaws::cut_answered))]
pub fn one_cut()
    ensures { (bytes : List ℕ) → Accepted cut_of bytes ⊎ Refused cut_of bytes }
{}
