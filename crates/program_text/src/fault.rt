//! Why a text is no typed program.
use plan_base::NoMemory;
use plan_lexer::LexFault;
use plan_parser_exprs::ParseFault;
use plan_types_spec::TypeFault;
use std::alloc::AllocError;

/// Why a text is no typed program: the first refusal.
#[derive(Drop)]
pub enum TextFault {
    /// It has no list of tokens.
    Lex(LexFault),
    /// Its tokens are no program.
    Parse(ParseFault),
    /// The program isn't typed; the byte at which the refused declaration or expression begins, 0 where there is none.
    Ty(TypeFault, u32),
    /// Memory was refused.
    NoMemory,
}

impl From<AllocError> for TextFault {
    ghost use Rattle.std.specs.Prelude.{◌≡◌};
    ghost use Rattle.program_text.specs.declared.fault.TextFault.TheVariants as faults;

    ghost from_gives = { λ _ e. e ≡ faults.NoMemory };

    fn from(_refused: AllocError) -> TextFault {
        TextFault::NoMemory
    }
}

impl From<NoMemory> for TextFault {
    ghost use Rattle.std.specs.Prelude.{◌≡◌};
    ghost use Rattle.program_text.specs.declared.fault.TextFault.TheVariants as faults;

    ghost from_gives = { λ _ e. e ≡ faults.NoMemory };

    fn from(_refused: NoMemory) -> TextFault {
        TextFault::NoMemory
    }
}
