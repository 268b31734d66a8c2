//! The checking of whole chunks.

ghost use Rattle.std.specs.Prelude.{◌≡◌, ◌≢◌, ◌+◌, ◌≤◌, IsTrue, IfOk, IfErr, Some, MatchResult};
ghost use Rattle.std.specs.List.{list_all};
ghost use Rattle.plan_base.specs.Sizes.{chunk_weight};
ghost use Rattle.plan_base.specs.WellFormed.{IsWellFormedChunk, ChunkHasTypes, well_formed_value, value_has_types};
ghost use Rattle.plan_types_spec.specs.Typing.{IsTypedChunk};
ghost use Rattle.checked_chunks.specs.Kept.{IsCheckedChunk};
ghost use Rattle.plan_types_chunks.specs.Chunks as spec;

use crate::fault::ChunkFault;
use crate::ill::{ill_call, illness_by};
use checked_chunks::{Checked, CheckedChunk, is_small_with};
use plan_base::{Chunk, Name, Values};
use std::alloc::Global;

/// Checks a chunk that is within the limits of size: its code, its entry, the number of its arguments and
/// each of them. Else what comes first that is wrong. Code that is the same as a `known` program isn't checked again.
#[tactic(auto, using(crate::proofs::Values::chunk_found, crate::proofs::Values::chunk_only))]
pub fn check_chunk(
    alloc: Global,
    chunk: Chunk,
    known: Option<&Checked>,
) -> Result<CheckedChunk, ChunkFault>
    requires formed { IsWellFormedChunk chunk }
    requires full { ChunkHasTypes chunk }
    requires small { 1 + chunk_weight chunk ≤ 16384 }
    ensures found { IfOk result (λ k. (k ≡ chunk) × IsCheckedChunk k) }
    ensures only { IsTypedChunk chunk → MatchResult result (λ k. k ≡ chunk)
        (λ f. f ≡ ChunkFault.NoMemory) }
    ensures fault { IfErr result (λ f. f ≢ ChunkFault.NoMemory → spec.as_fault
        (spec.illness chunk) ≡ Some f) }
{
    if let Some(ill) = illness_by(alloc, &chunk, known)? {
        return Err(ChunkFault::Ill(ill));
    }
    Ok(CheckedChunk::of(chunk))
}

/// The chunk of a typed program with that entry and those arguments. Else what comes first that is wrong:
/// the entry, the number of arguments, each of them (a chunk over the limits of size has no type), and then the size of the
/// whole.
#[tactic(auto, using(crate::proofs::Values::call_found, crate::proofs::Values::call_only))]
pub fn chunk_of(
    alloc: Global,
    program: &Checked,
    entry: &Name,
    args: Values,
) -> Result<CheckedChunk, ChunkFault>
    requires formed { IsTrue (list_all well_formed_value args) }
    requires full { IsTrue (list_all value_has_types args) }
    ensures found { IfOk result (λ k. (k ≡ record {
      code = program.now;
      entry = entry.now;
      args =
          args;
    }) × IsCheckedChunk k) }
    ensures only { IsTypedChunk (record { code = program.now; entry = entry.now; args = args }) →
        MatchResult result (λ k. k ≡ record { code = program.now; entry = entry.now; args = args })
        (λ f. f ≡ ChunkFault.NoMemory) }
    ensures fault { IfErr result (λ f. f ≢ ChunkFault.NoMemory → spec.refusal_of
        (record { code = program.now; entry = entry.now; args = args }) ≡ Some f) }
{
    if let Some(ill) = ill_call(alloc, program.program(), entry, args.as_slice())? {
        return Err(ChunkFault::Ill(ill));
    }
    let chunk = Chunk {
        code: program.share_program()?,
        entry: entry.copy(alloc)?,
        args,
    };
    let size = program.size();
    if !is_small_with(size, &chunk) {
        return Err(ChunkFault::TooLarge);
    }
    Ok(CheckedChunk::of_size(chunk, size))
}
