//! Why a text has no list of tokens.
use plan_base::NoMemory;
use std::alloc::AllocError;
use thiserror::Error;

/// Why a text has no list of tokens. Each number is a place in the text, a byte number from 0.
#[derive(Debug, Clone, Copy, PartialEq, Eq, Error)]
pub enum LexFault {
    /// A byte that begins no token, or no item of the string, char or blob around it.
    #[error("a wrong byte at {0}")]
    BadChar(u32),
    /// The start of a string or blob that doesn't end on its line.
    #[error("an open string at {0}")]
    OpenString(u32),
    /// The start of the outermost comment that doesn't end.
    #[error("an open comment at {0}")]
    OpenComment(u32),
    /// The start of a number outside its range.
    #[error("a number out of range at {0}")]
    NumberTooLarge(u32),
    /// The start of a word of more than 32 bytes.
    #[error("a long name at {0}")]
    LongName(u32),
    /// Memory was refused.
    #[error("no memory")]
    NoMemory,
}

impl From<AllocError> for LexFault {
    ghost use Rattle.std.specs.Prelude.{◌≡◌};
    ghost use Rattle.plan_lexer.specs.declared.fault.LexFault.TheVariants.{NoMemory};

    ghost from_gives = { λ _ e. e ≡ NoMemory };

    fn from(_refused: AllocError) -> LexFault {
        LexFault::NoMemory
    }
}

impl From<NoMemory> for LexFault {
    ghost use Rattle.std.specs.Prelude.{◌≡◌};
    ghost use Rattle.plan_lexer.specs.declared.fault.LexFault.TheVariants.{NoMemory};

    ghost from_gives = { λ _ e. e ≡ NoMemory };

    fn from(_refused: NoMemory) -> LexFault {
        LexFault::NoMemory
    }
}
