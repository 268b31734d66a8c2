//! Why an evaluation gave no value.
ghost use Rattle.std.specs.Prelude.{◌≡◌};
ghost use Rattle.plan_meaning.specs.declared.stop.EvalStop.TheVariants as stop;

use plan_base::{Exn, NoMemory};
use std::alloc::AllocError;

/// Why an evaluation gave no value.
#[derive(Drop)]
pub enum EvalStop {
    /// An exception.
    Raised(Exn),
    /// The work would pass what the visit is allowed.
    WorkSpent,
    /// No case of the meaning applies. A typed chunk never comes here.
    Wrong,
    /// An allocation failed. The meaning never gives it.
    NoMemory,
}

impl From<AllocError> for EvalStop {
    ghost from_gives = { λ _ r. r ≡ stop.NoMemory };

    fn from(_refused: AllocError) -> EvalStop {
        EvalStop::NoMemory
    }
}

impl From<NoMemory> for EvalStop {
    ghost from_gives = { λ _ r. r ≡ stop.NoMemory };

    fn from(_refused: NoMemory) -> EvalStop {
        EvalStop::NoMemory
    }
}
