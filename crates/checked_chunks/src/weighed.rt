//! What a chunk weighs, where the size of its program is known.

ghost use Rattle.std.specs.Prelude.{◌≡◌, min};
ghost use Rattle.plan_base.specs.Sizes.{chunk_weight, code_size};
ghost use Rattle.checked_chunks.specs.Kept as spec;

use plan_base::Chunk;
use plan_base_size::{chunk_nesting, values_weight};

/// The bytes of a chunk's marshalled form, or 2^64 - 1 where there are more. Condition: its program has this size. Takes no
/// memory.
#[tactic(auto, using(plan_base::proofs::SizeLaws::chunk_weight_is))]
pub fn weight_with(size: u64, chunk: &Chunk) -> u64
    requires { size ≡ min (code_size chunk.now.code) 18446744073709551615 }
    ensures { result ≡ min (chunk_weight chunk.now) 18446744073709551615 }
{
    let name = chunk.entry.as_slice().len() as u64;
    size.saturating_add(name)
        .saturating_add(values_weight(chunk.args.as_slice()))
        .saturating_add(2)
}

/// Whether a chunk is within the limits of size. Condition: its program has this size. Takes no memory.
pub fn is_small_with(size: u64, chunk: &Chunk) -> bool
    requires { size ≡ min (code_size chunk.now.code) 18446744073709551615 }
    ensures { result ≡ spec.is_small_chunk chunk.now }
{
    weight_with(size, chunk) < 16384 && chunk_nesting(chunk) <= 4
}
