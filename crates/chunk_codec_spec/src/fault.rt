//! Why bytes spell no name, type, value or chunk.
ghost use Rattle.std.specs.Prelude.{◌≡◌};
ghost use Rattle.chunk_codec_spec.specs.declared.fault.SpellFault.TheVariants.{Truncated, NoMemory};

use plan_base::Limit;
use std::alloc::AllocError;
use wire_bytes::Truncated;

/// Why bytes were refused; a place is a byte number from 0.
#[derive(Clone, Copy, PartialEq, Eq)]
pub enum SpellFault {
    /// The field at this place isn't whole.
    Truncated(u32),
    /// The byte at this place is no tag, operator, truth value, part number or count that may stand there.
    BadTag(u32),
    /// The length at this place is followed by no name.
    BadName(u32),
    /// The bytes at this place are no UTF-8, or the number there is no Unicode scalar.
    BadUtf8(u32),
    /// A limit is passed at this place.
    OverLimit(Limit, u32),
    /// Memory was refused.
    NoMemory,
}

impl From<Truncated> for SpellFault {
    ghost from_gives = { λ t e. e ≡ Truncated t.0 };

    fn from(cut: Truncated) -> SpellFault {
        SpellFault::Truncated(cut.0)
    }
}

impl From<AllocError> for SpellFault {
    ghost from_gives = { λ a e. e ≡ NoMemory };

    fn from(_refused: AllocError) -> SpellFault {
        SpellFault::NoMemory
    }
}
