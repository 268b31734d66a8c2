//! Why bytes are no frame whose chunk is typed.
ghost use Rattle.std.specs.Prelude.{◌≡◌};
ghost use Rattle.packet_frame.specs.Faults.{of_spelling};
ghost use Rattle.packet_frame.specs.declared.fault.FrameFault.TheVariants.{Truncated as CutOff, NoMemory};

use chunk_codec_spec::SpellFault;
use plan_types_chunks::Ill;
use std::alloc::AllocError;
use wire_bytes::Truncated;

/// Why bytes are no frame whose chunk is typed; a place is a byte number from 0.
#[derive(Drop)]
pub enum FrameFault {
    /// They are more than 16,512.
    TooLong,
    /// The magic or a number of the frame's own isn't whole at this place.
    Truncated(u32),
    /// They don't begin with `PLAN`.
    BadMagic,
    /// The version isn't 1.
    BadVersion,
    /// The kind isn't 1, 2 or 3.
    BadKind,
    /// A name, the chunk or a limit of an advert is refused.
    Spell(SpellFault),
    /// The bound is over 65,535.
    BoundTooLarge,
    /// The host at this place isn't above the one before.
    BadOrder(u32),
    /// Bytes are left over from this place on.
    Trailing(u32),
    /// The bytes spell a frame, and the chunk that it carries isn't typed.
    IllTyped(Ill),
    /// The bytes spell a packet whose chunk is typed, and its handler is no function of that chunk's code that may handle.
    IllHandler,
    /// Memory was refused.
    NoMemory,
}

impl From<Truncated> for FrameFault {
    ghost from_gives = { λ t e. e ≡ CutOff t.0 };

    fn from(cut: Truncated) -> FrameFault {
        FrameFault::Truncated(cut.0)
    }
}

impl From<SpellFault> for FrameFault {
    ghost from_gives = { λ s e. e ≡ of_spelling s };

    fn from(fault: SpellFault) -> FrameFault {
        match fault {
            SpellFault::NoMemory => FrameFault::NoMemory,
            other => FrameFault::Spell(other),
        }
    }
}

impl From<AllocError> for FrameFault {
    ghost from_gives = { λ a e. e ≡ NoMemory };

    fn from(_refused: AllocError) -> FrameFault {
        FrameFault::NoMemory
    }
}
