//! The public readings: a name, a type, a value or a chunk from a cursor on.
ghost use Rattle.std.specs.Prelude.{◌≡◌, ◌⊎◌, List, ℕ, IfOk, IfErr, OnErr, MatchResult};
ghost use Rattle.wire_bytes.specs.Fields.{Front};
ghost use Rattle.plan_base.specs.declared.tree.Ty.{Ty};
ghost use Rattle.plan_base.specs.declared.tree.Value.{Value};
ghost use Rattle.plan_base.specs.declared.tree.Chunk.{Chunk};
ghost use Rattle.plan_base.specs.declared.tree.Program.{Program};
ghost use Rattle.chunk_codec_spec.specs.Items.{a_name, a_type, a_value, a_chunk, a_program};
ghost use Rattle.chunk_codec_spec.specs.Fields.{name_part};
ghost use Rattle.chunk_codec_spec.specs.Programs.{program_part};
ghost use Rattle.chunk_codec_spec.specs.Spelling.{SpelledAt, FirstFaultAt, a_whole_type, a_whole_value, a_whole_chunk};

use crate::programs::program_of;
use crate::source::Source;
use crate::types::type_of;
use crate::values::{chunk_of, value_of};
use chunk_codec_spec::SpellFault;
use plan_base::{Chunk, Name, Program, Ty, Value};
use std::alloc::Global;
use wire_bytes::Cursor;

/// Reads a name, behind its length.
///
/// Ok exactly where a prefix of what is left is its spelling; the cursor is then behind it. Otherwise the
/// answer is the first fault, with its place, and the cursor stays.
pub fn get_name(alloc: Global, c: &mut Cursor<'_>) -> Result<Name, SpellFault>
    ensures found { IfOk result (λ x. SpelledAt name_part c.old x c.new) }
    ensures only { (x : List ℕ) (g : Front) → SpelledAt name_part c.old x g
        → MatchResult result (λ y. (y ≡ x) × (c.new ≡ g)) (λ e. e ≡ SpellFault.NoMemory) }
    ensures fault { IfErr result (λ e. (e ≡ SpellFault.NoMemory) ⊎ FirstFaultAt e a_name c.old) }
    ensures stays { OnErr result (c.new ≡ c.old) }
{
    let mut s = Source::at(c.fork());
    let read = s.name(alloc)?;
    *c = s.into_cursor();
    Ok(read)
}

/// Reads a type of depth at most 8.
///
/// Ok exactly where a prefix of what is left is its spelling; the cursor is then behind it. Otherwise the
/// answer is the first fault, with its place, and the cursor stays.
pub fn get_type(alloc: Global, c: &mut Cursor<'_>) -> Result<Ty, SpellFault>
    ensures found { IfOk result (λ x. SpelledAt a_whole_type c.old x c.new) }
    ensures only { (x : Ty) (g : Front) → SpelledAt a_whole_type c.old x g
        → MatchResult result (λ y. (y ≡ x) × (c.new ≡ g)) (λ e. e ≡ SpellFault.NoMemory) }
    ensures fault { IfErr result (λ e. (e ≡ SpellFault.NoMemory) ⊎ FirstFaultAt e
        (a_type 8) c.old) }
    ensures stays { OnErr result (c.new ≡ c.old) }
{
    let mut s = Source::at(c.fork());
    let read = type_of(alloc, &mut s, 8)?;
    *c = s.into_cursor();
    Ok(read)
}

/// Reads a value, with at most four chunks inside each other and lists and tuples to depth 8.
///
/// Ok exactly where a prefix of what is left is its spelling; the cursor is then behind it. Otherwise the
/// answer is the first fault, with its place, and the cursor stays.
pub fn get_value(alloc: Global, c: &mut Cursor<'_>) -> Result<Value, SpellFault>
    ensures found { IfOk result (λ x. SpelledAt a_whole_value c.old x c.new) }
    ensures only { (x : Value) (g : Front) → SpelledAt a_whole_value c.old x g
        → MatchResult result (λ y. (y ≡ x) × (c.new ≡ g)) (λ e. e ≡ SpellFault.NoMemory) }
    ensures fault { IfErr result (λ e. (e ≡ SpellFault.NoMemory) ⊎ FirstFaultAt e
        (a_value 4 8) c.old) }
    ensures stays { OnErr result (c.new ≡ c.old) }
{
    let mut s = Source::at(c.fork());
    let read = value_of(alloc, &mut s, 4, 8)?;
    *c = s.into_cursor();
    Ok(read)
}

/// Reads a chunk, with at most three more inside each other in its arguments. With a tag it weighs at most 16,384 bytes.
///
/// Ok exactly where a prefix of what is left is its spelling; the cursor is then behind it. Otherwise the
/// answer is the first fault, with its place, and the cursor stays.
pub fn get_chunk(alloc: Global, c: &mut Cursor<'_>) -> Result<Chunk, SpellFault>
    ensures found { IfOk result (λ x. SpelledAt a_whole_chunk c.old x c.new) }
    ensures only { (x : Chunk) (g : Front) → SpelledAt a_whole_chunk c.old x g
        → MatchResult result (λ y. (y ≡ x) × (c.new ≡ g)) (λ e. e ≡ SpellFault.NoMemory) }
    ensures fault { IfErr result (λ e. (e ≡ SpellFault.NoMemory) ⊎ FirstFaultAt e
        (a_chunk 3) c.old) }
    ensures stays { OnErr result (c.new ≡ c.old) }
{
    let mut s = Source::at(c.fork());
    let read = chunk_of(alloc, &mut s, 3)?;
    *c = s.into_cursor();
    Ok(read)
}

/// Reads a program of at most 4,096 expressions and 16,000 bytes.
///
/// Ok exactly where a prefix of what is left is its spelling; the cursor is then behind it. Otherwise the
/// answer is the first fault, with its place, and the cursor stays.
pub fn get_program(alloc: Global, c: &mut Cursor<'_>) -> Result<Program, SpellFault>
    ensures found { IfOk result (λ x. SpelledAt program_part c.old x c.new) }
    ensures only { (x : Program) (g : Front) → SpelledAt program_part c.old x g
        → MatchResult result (λ y. (y ≡ x) × (c.new ≡ g)) (λ e. e ≡ SpellFault.NoMemory) }
    ensures fault { IfErr result (λ e. (e ≡ SpellFault.NoMemory) ⊎ FirstFaultAt e
        (a_program) c.old) }
    ensures stays { OnErr result (c.new ≡ c.old) }
{
    let mut s = Source::at(c.fork());
    let read = program_of(alloc, &mut s)?;
    *c = s.into_cursor();
    Ok(read)
}
