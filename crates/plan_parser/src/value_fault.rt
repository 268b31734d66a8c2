//! Why a text is no value.
use plan_base::NoMemory;
use plan_lexer::LexFault;
use plan_parser_exprs::ParseFault;
use std::alloc::AllocError;

/// Why a text is no value or no arguments.
#[derive(Clone, Copy, PartialEq, Eq)]
pub enum ValueFault {
    /// It has no list of tokens.
    Lex(LexFault),
    /// Its tokens are no value.
    Parse(ParseFault),
    /// Memory was refused.
    NoMemory,
}

impl From<AllocError> for ValueFault {
    ghost use Rattle.std.specs.Prelude.{◌≡◌};
    ghost use Rattle.plan_parser.specs.declared.value_fault.ValueFault.TheVariants as faults;

    ghost from_gives = { λ _ e. e ≡ faults.NoMemory };

    fn from(_refused: AllocError) -> ValueFault {
        ValueFault::NoMemory
    }
}

impl From<NoMemory> for ValueFault {
    ghost use Rattle.std.specs.Prelude.{◌≡◌};
    ghost use Rattle.plan_parser.specs.declared.value_fault.ValueFault.TheVariants as faults;

    ghost from_gives = { λ _ e. e ≡ faults.NoMemory };

    fn from(_refused: NoMemory) -> ValueFault {
        ValueFault::NoMemory
    }
}

impl From<LexFault> for ValueFault {
    ghost use Rattle.std.specs.Prelude.{◌≡◌};
    ghost use Rattle.plan_parser.specs.ReadTexts.{by_tokens};

    ghost from_gives = { λ why e. e ≡ by_tokens why };

    fn from(why: LexFault) -> ValueFault {
        match why {
            LexFault::NoMemory => ValueFault::NoMemory,
            other => ValueFault::Lex(other),
        }
    }
}

impl From<ParseFault> for ValueFault {
    ghost use Rattle.std.specs.Prelude.{◌≡◌};
    ghost use Rattle.plan_parser.specs.ReadTexts.{by_reading};

    ghost from_gives = { λ why e. e ≡ by_reading why };

    fn from(why: ParseFault) -> ValueFault {
        match why {
            ParseFault::NoMemory => ValueFault::NoMemory,
            other => ValueFault::Parse(other),
        }
    }
}
