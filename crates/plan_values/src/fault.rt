//! Why an operator, a primitive or a part gave no value.
use plan_base::{Exn, NoMemory};
use std::alloc::AllocError;

/// Why an operator, a primitive or a part gave no value.
#[derive(Drop)]
pub enum PrimFault {
    /// It raises that exception.
    Raises(Exn),
    /// The operands have other types than it takes. Typed code never meets it.
    Unfit,
    /// Memory was refused.
    NoMemory,
}

impl From<AllocError> for PrimFault {
    ghost use Rattle.std.specs.Prelude.{◌≡◌};
    ghost use Rattle.plan_values.specs.declared.fault.PrimFault.TheVariants.{NoMemory};

    ghost from_gives = { λ _ e. e ≡ NoMemory };

    fn from(_refused: AllocError) -> PrimFault {
        PrimFault::NoMemory
    }
}

impl From<NoMemory> for PrimFault {
    ghost use Rattle.std.specs.Prelude.{◌≡◌};
    ghost use Rattle.plan_values.specs.declared.fault.PrimFault.TheVariants as fault;

    ghost from_gives = { λ _ e. e ≡ fault.NoMemory };

    fn from(_refused: NoMemory) -> PrimFault {
        PrimFault::NoMemory
    }
}
