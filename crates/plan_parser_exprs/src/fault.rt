//! Why tokens are no program or no value.
ghost use Rattle.std.specs.Prelude.{◌≡◌};
ghost use Rattle.plan_parser_exprs.specs.Wants.{wanted_text};

use plan_base::{Limit, NoMemory};
use plan_lexer::{Key, Symbol};
use std::alloc::AllocError;

/// What must stand at a place.
#[derive(Clone, Copy, PartialEq, Eq)]
pub enum Wanted {
    /// A reserved word.
    Key(Key),
    /// A symbol.
    Symbol(Symbol),
    /// A name; it prints as `name`.
    AName,
    /// A type; it prints as `type`.
    AType,
    /// An expression; it prints as `expression`.
    AnExpr,
    /// A declaration; it prints as `declaration`.
    ADecl,
    /// A value; it prints as `value`.
    AValue,
}

impl Wanted {
    /// The token's spelling, or `name`, `type`, `expression`, `declaration` or `value`. Takes no memory.
    pub fn text(self) -> &'static [u8]
        ensures { result.now ≡ wanted_text self }
    {
        match self {
            Wanted::Key(key) => key.text(),
            Wanted::Symbol(symbol) => symbol.text(),
            Wanted::AName => b"name",
            Wanted::AType => b"type",
            Wanted::AnExpr => b"expression",
            Wanted::ADecl => b"declaration",
            Wanted::AValue => b"value",
        }
    }
}

/// Why tokens are no program or no value. Each number is a place in the text, a byte number from 0.
#[derive(Clone, Copy, PartialEq, Eq)]
pub enum ParseFault {
    /// What must stand at this place and doesn't.
    Expected(Wanted, u32),
    /// The 161st open construct begins here, or a type or function that is too deep.
    TooDeep(u32),
    /// The item past a limit begins here.
    TooMany(Limit, u32),
    /// Memory was refused.
    NoMemory,
}

impl From<AllocError> for ParseFault {
    ghost use Rattle.std.specs.Prelude.{◌≡◌};
    ghost use Rattle.plan_parser_exprs.specs.declared.fault.ParseFault.TheVariants as faults;

    ghost from_gives = { λ _ e. e ≡ faults.NoMemory };

    fn from(_refused: AllocError) -> ParseFault {
        ParseFault::NoMemory
    }
}

impl From<NoMemory> for ParseFault {
    ghost use Rattle.std.specs.Prelude.{◌≡◌};
    ghost use Rattle.plan_parser_exprs.specs.declared.fault.ParseFault.TheVariants as faults;

    ghost from_gives = { λ _ e. e ≡ faults.NoMemory };

    fn from(_refused: NoMemory) -> ParseFault {
        ParseFault::NoMemory
    }
}
