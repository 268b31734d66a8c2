//! Chunks that are typed.

ghost use Rattle.std.specs.Prelude.{◌≡◌, min, IfOk};
ghost use Rattle.plan_base.specs.Sizes.{chunk_weight, code_size};
ghost use Rattle.checked_chunks.specs.Kept.{IsCheckedChunk};

use crate::checked::Checked;
use crate::weighed::weight_with;
use plan_base::{Chunk, NoMemory};
use plan_base_copy::TryClone;
use plan_base_size::code_size;
use std::alloc::Global;
use std::marker::Model;

/// A chunk that is typed, which contracts see as that chunk. The size of its program is cached with it, so that it is measured
/// once.
pub struct CheckedChunk {
    chunk: Chunk,
    size: u64,
}

// (with its own `Drop`, so that what drops a chunk need not prove again how its values are dropped)
impl Drop for CheckedChunk {
    fn drop(self) {
        let CheckedChunk {
            chunk: _chunk,
            size: _size,
        } = self;
    }
}

impl Model for CheckedChunk {
    ghost use Rattle.plan_base.specs.declared.tree.Chunk.{Chunk};
    ghost use Rattle.plan_base.specs.contracts.tree.Chunk as whole;
    ghost use Rattle.checked_chunks.specs.Kept.{IsCheckedChunk};
    ghost use Rattle.std.specs.Prelude.{◌≡◌, min};
    ghost use Rattle.plan_base.specs.Sizes.{code_size};

    ghost Value = { Chunk };

    ghost coded = { whole.the_row.coded };

    ghost view = { λ k. k.chunk };

    ghost invariant = { λ k. IsCheckedChunk k.chunk
        × (k.size ≡ min (code_size k.chunk.code) 18446744073709551615) };
}

impl CheckedChunk {
    /// A chunk that is known to be typed, so that nothing is tested again. Condition: it is typed, well formed and within
    /// the limits of size. Takes no memory.
    pub fn of(chunk: Chunk) -> CheckedChunk
        requires { IsCheckedChunk chunk }
        ensures { result ≡ chunk }
    {
        let size = code_size(chunk.code.get());
        CheckedChunk { chunk, size }
    }

    /// The same, where the size of its program is known. Takes no memory.
    pub fn of_size(chunk: Chunk, size: u64) -> CheckedChunk
        requires checked { IsCheckedChunk chunk }
        requires size { size ≡ min (code_size chunk.code) 18446744073709551615 }
        ensures { result ≡ chunk }
    {
        CheckedChunk { chunk, size }
    }

    /// The bytes of its program's marshalled form, or 2^64 - 1 where there are more. Takes no memory.
    pub fn program_size(&self) -> u64
        ensures { result ≡ min (code_size self.now.code) 18446744073709551615 }
    {
        self.size
    }

    /// The bytes of its marshalled form, or 2^64 - 1 where there are more. Takes no memory.
    pub fn weight(&self) -> u64
        ensures { result ≡ min (chunk_weight self.now) 18446744073709551615 }
    {
        weight_with(self.size, &self.chunk)
    }

    /// The chunk. Takes no memory.
    pub fn chunk(&self) -> &Chunk
        ensures value { result.now ≡ self.now }
        ensures kept { IsCheckedChunk self.now }
    {
        &self.chunk
    }

    /// The program of the chunk, for one more owner. Takes no memory, and fails only where the count of owners is full.
    #[tactic(auto, using(crate::proofs::CodeKept::code_checked))]
    pub fn code(&self) -> Result<Checked, NoMemory>
        ensures { IfOk result (λ k. k ≡ self.now.code) }
    {
        let code = self.chunk.code.share()?;
        Ok(Checked::of_size(code, self.size))
    }

    /// The chunk itself. Takes no memory.
    pub fn into_chunk(self) -> Chunk
        ensures value { result ≡ self }
        ensures kept { IsCheckedChunk self }
    {
        let CheckedChunk { chunk, size: _size } = self;
        chunk
    }

    /// The same chunk.
    pub fn copy(&self, alloc: Global) -> Result<CheckedChunk, NoMemory>
        ensures { IfOk result (λ k. k ≡ self.now) }
    {
        let chunk = self.chunk.copy(alloc)?;
        Ok(CheckedChunk {
            chunk,
            size: self.size,
        })
    }
}
