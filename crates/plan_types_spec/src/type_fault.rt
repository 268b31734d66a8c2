//! Why a program isn't typed.
ghost use Rattle.std.specs.Prelude.{◌≡◌};

use plan_base::{NoMemory, Place, Ty};
use std::alloc::AllocError;

/// Why a program isn't typed: the first refusal in the order of checking, with its place.
#[derive(Drop)]
pub enum TypeFault {
    /// A name that nothing has which may stand there.
    UnknownName(Place),
    /// A function that calls or folds with itself or a later function.
    NotEarlier(Place),
    /// A type other than the wanted one: the wanted one, then the one that stands there.
    Mismatch(Place, Ty, Ty),
    /// A wrong number of arguments.
    Arity(Place),
    /// A `[]` or a `raise` whose type nothing gives.
    NeedsType(Place),
    /// An operand, a tuple or a folding function of the wrong kind.
    WrongShape(Place),
    /// A declaration with a name that is taken, or with two parameters of one name.
    TwiceNamed(Place),
    /// A type of a depth over 8.
    TypeTooDeep(Place),
    /// Marshalled code of more than 16,000 bytes.
    CodeTooLarge,
    /// An allocation failed.
    NoMemory,
}

impl From<AllocError> for TypeFault {
    ghost use Rattle.plan_types_spec.specs.declared.type_fault.TypeFault.TheVariants.{NoMemory};

    ghost from_gives = { λ e r. r ≡ NoMemory };

    fn from(_refused: AllocError) -> TypeFault {
        TypeFault::NoMemory
    }
}

impl From<NoMemory> for TypeFault {
    ghost use Rattle.plan_types_spec.specs.declared.type_fault.TypeFault.TheVariants.{NoMemory};

    ghost from_gives = { λ e r. r ≡ NoMemory };

    fn from(_refused: NoMemory) -> TypeFault {
        TypeFault::NoMemory
    }
}
