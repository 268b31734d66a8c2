//! Why there is no typed chunk.

use plan_base::NoMemory;
use plan_types_spec::TypeFault;
use std::alloc::AllocError;

/// Why a chunk isn't typed: the first refusal in the order of checking.
#[derive(Drop)]
pub enum Ill {
    /// Its code isn't typed: the first refusal there.
    Code(TypeFault),
    /// No function of its code has the entry's name.
    Entry,
    /// The entry takes another number of arguments.
    Count,
    /// The first argument, from 0, that hasn't the entry's type or that holds an ill-typed chunk.
    /// Numbers stop at 255.
    Argument(u8),
}

/// Why there is no typed chunk.
#[derive(Drop)]
pub enum ChunkFault {
    /// The chunk isn't typed.
    Ill(Ill),
    /// It weighs more than 16,384 bytes or nests more than 4 deep.
    TooLarge,
    /// An allocation failed.
    NoMemory,
}

impl From<AllocError> for ChunkFault {
    ghost use Rattle.std.specs.Prelude.{◌≡◌};
    ghost use Rattle.plan_types_chunks.specs.declared.fault.ChunkFault.TheVariants.{NoMemory};

    ghost from_gives = { λ e r. r ≡ NoMemory };

    fn from(_refused: AllocError) -> ChunkFault {
        ChunkFault::NoMemory
    }
}

impl From<NoMemory> for ChunkFault {
    ghost use Rattle.std.specs.Prelude.{◌≡◌};
    ghost use Rattle.plan_types_chunks.specs.declared.fault.ChunkFault.TheVariants.{NoMemory};

    ghost from_gives = { λ e r. r ≡ NoMemory };

    fn from(_refused: NoMemory) -> ChunkFault {
        ChunkFault::NoMemory
    }
}
