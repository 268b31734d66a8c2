//! The programs of a file of lines, and the chunks that are injected.

ghost use Rattle.std.specs.Prelude.{◌≡◌, ◌≤◌, length, IfOk, IsTrue, OnOk};
ghost use Rattle.std.specs.List.{list_all, find};
ghost use Rattle.std.specs.Option.{option_copied};
ghost use Rattle.plan_base.specs.WellFormed.{well_formed_value, value_has_types};
ghost use Rattle.program_text.specs.Texts.{program_of};
ghost use Rattle.line_reader.specs.Programs as spec;
ghost use Rattle.line_reader.specs.Programs.{opened_program, with_line, accepted_program, program_in, named_word, has_name, entry_at, args_at, chunk_with, call_at, weighed_sum};
ghost use Rattle.line_reader.specs.Injections.{injection_at};
ghost use Rattle.line_reader.specs.Reads.{Reads, Gives, Tells};

use crate::fault::{LineError, LineReason};
use crate::handlers::handler;
use crate::numbers::number;
use crate::words::{Words, allow, is};
use checked_chunks::{Checked, CheckedChunk};
use containers::Boxed;
use plan_base::{Bytes, Fun, Name, NameFault, Values, Version};
use plan_types_chunks::{ChunkFault, chunk_of};
use program_text::{TextFault, read_args, read_program};
use std::alloc::{AllocError, Global};

/// A program whose lines are being read.
#[derive(Drop)]
pub struct OpenProgram {
    /// The number of the line that begins it.
    pub line: u32,
    /// Its text so far.
    pub text: Bytes,
}

impl OpenProgram {
    /// A program without text, begun at a line. Takes no memory.
    pub fn begin_at(alloc: Global, line: u32) -> OpenProgram
        ensures { result ≡ opened_program line }
    {
        OpenProgram {
            line,
            text: Bytes::new(alloc),
        }
    }

    /// One more line of its text.
    pub fn add_line(&mut self, line: &[u8]) -> Result<(), AllocError>
        ensures { OnOk result (self.new ≡ with_line self.old line.now) }
    {
        self.text.add_all(line)?;
        self.text.add(b'\n')?;
        Ok(())
    }
}

/// The typed program of a text. Reason: `ProgramRefused`.
fn accept(alloc: Global, text: &[u8]) -> Result<Checked, LineError>
    requires { length text.now ≤ 65536 }
    ensures { Gives (λ p. p) result (accepted_program (program_of text.now)) }
{
    match read_program(alloc, text) {
        Ok(program) => Ok(program),
        Err(TextFault::NoMemory) => Err(LineError::NoMemory),
        Err(why) => {
            let why = Boxed::new(alloc, why)?;
            Err(LineError::Reason(LineReason::ProgramRefused(why)))
        }
    }
}

/// The typed program of a text of at most 65,536 bytes. Reasons: `TooMany`, `ProgramRefused`.
#[tactic(auto, unfolding(crate::specs::Programs::program_in))]
pub fn program(alloc: Global, text: &[u8]) -> Result<Checked, LineError>
    ensures { Gives (λ p. p) result (program_in text.now) }
{
    allow(text.len() <= 65_536, LineReason::TooMany)?;
    accept(alloc, text)
}

/// A word as a name, or else a reason.
pub fn name_of(alloc: Global, word: &[u8], reason: LineReason) -> Result<Name, LineError>
    ensures { Gives (λ n. n) result (named_word word.now reason) }
{
    match Name::read(alloc, word) {
        Ok(name) => Ok(name),
        Err(NameFault::BadName) => Err(LineError::Reason(reason)),
        Err(NameFault::NoMemory) => Err(LineError::NoMemory),
    }
}

fn find_fun<'a>(funs: &'a [Fun], name: &[u8]) -> Option<&'a Fun>
    ensures { option_copied result ≡ find (has_name name.now) funs.now }
{
    funs.iter().find(|f| is(f.name.as_slice(), name))
}

/// The next word as the name of a function. Reasons: `BadWord`, `BadArgument`.
#[tactic(auto, unfolding(crate::specs::Programs::entry_at))]
fn known_entry<'a>(funs: &'a [Fun], words: &mut Words<'_>) -> Result<&'a Fun, LineReason>
    ensures { Reads (λ f. f.now) result words.new (entry_at funs.now words.old) }
{
    let name = words.next()?;
    match find_fun(funs, name) {
        Some(fun) => Ok(fun),
        None => Err(LineReason::BadArgument),
    }
}

/// The rest of the line as arguments, in at most 65,536 bytes. Reasons: `BadWord` where the line has ended,
/// else `BadArgument`.
#[tactic(auto, unfolding(crate::specs::Programs::args_at), using(crate::proofs::TextLaws::args_formed, crate::proofs::TextLaws::args_full))]
fn arguments(alloc: Global, words: &Words<'_>) -> Result<Values, LineError>
    ensures read { Gives (λ vs. vs) result (args_at words.now) }
    ensures formed { IfOk result (λ vs. IsTrue (list_all well_formed_value vs)) }
    ensures full { IfOk result (λ vs. IsTrue (list_all value_has_types vs)) }
{
    let text = words.rest()?;
    allow(text.len() <= 65_536, LineReason::BadArgument)?;
    match read_args(alloc, text)? {
        Some(args) => Ok(args),
        None => Err(LineError::Reason(LineReason::BadArgument)),
    }
}

/// A function of a program with arguments as a typed chunk. Reason: `BadArgument`.
#[tactic(auto, unfolding(crate::specs::Programs::typed_chunk), using(crate::proofs::TextLaws::not_refused))]
fn typed_chunk(
    alloc: Global,
    program: &Checked,
    entry: &Name,
    args: Values,
) -> Result<CheckedChunk, LineError>
    requires formed { IsTrue (list_all well_formed_value args) }
    requires full { IsTrue (list_all value_has_types args) }
    ensures { Gives (λ k. k) result (spec.typed_chunk (chunk_with program.now entry.now args)) }
{
    match chunk_of(alloc, program, entry, args) {
        Ok(chunk) => Ok(chunk),
        Err(ChunkFault::NoMemory) => Err(LineError::NoMemory),
        Err(fault) => {
            drop(fault);
            Err(LineError::Reason(LineReason::BadArgument))
        }
    }
}

/// `ENTRY BOUND ARGS` of a program, or under version 2 `ENTRY BOUND handler NAME ARGS`: a typed chunk, its bound and its
/// handler. Reasons: `BadWord`, `BadNumber`, `BadArgument`.
#[tactic(auto, unfolding(crate::specs::Injections::injection_at))]
pub fn injection(
    alloc: Global,
    version: Version,
    program: &Checked,
    words: &mut Words<'_>,
) -> Result<(CheckedChunk, u32, Option<Name>), LineError>
    ensures { Gives (λ i. i) result (injection_at version program.now words.old) }
{
    let fun = known_entry(program.program().funs.as_slice(), words)?;
    let bound = number(words, 0, 65_535)?;
    let handler = handler(alloc, version, program.program(), words)?;
    let args = arguments(alloc, words)?;
    let chunk = typed_chunk(alloc, program, &fun.name, args)?;
    Ok((chunk, bound, handler))
}

/// `ENTRY ARGS` of a program as a typed chunk. Reasons: `BadWord`, `BadArgument`.
#[tactic(auto, unfolding(crate::specs::Programs::call_at))]
pub fn call(
    alloc: Global,
    program: &Checked,
    words: &mut Words<'_>,
) -> Result<CheckedChunk, LineError>
    ensures { Gives (λ k. k) result (call_at program.now words.old) }
{
    let fun = known_entry(program.program().funs.as_slice(), words)?;
    let args = arguments(alloc, words)?;
    typed_chunk(alloc, program, &fun.name, args)
}

/// The sum of the weights of all injected chunks with one chunk more. Reason: `TooMany` where it passes 16,777,216.
#[tactic(auto, unfolding(crate::specs::Programs::weighed_sum))]
pub fn add_weight(sum: u64, chunk: &CheckedChunk) -> Result<u64, LineReason>
    ensures { Tells (λ n. n) result (spec.weighed_sum sum chunk.now) }
{
    let weight = chunk.weight().saturating_add(1).saturating_add(sum);
    allow(weight <= 16_777_216, LineReason::TooMany)?;
    Ok(weight)
}
