//! Why a chunk isn't sent.
ghost use Rattle.std.specs.Prelude.{◌≡◌};
ghost use Rattle.remote_calls.specs.declared.fault.SendFault.{SendFault as Fault};

use plan_base::NoMemory;

/// The refusal of a bound that a purse doesn't pay.
#[derive(Clone, Copy, PartialEq, Eq)]
pub struct NoBound;

/// Why a chunk isn't sent: what comes first, in this order.
#[derive(Clone, Copy, PartialEq, Eq)]
pub enum SendFault {
    /// The bound is below 1 or more than the purse holds.
    NoBound,
    /// The node offers no routing function of that name.
    NoService,
    /// The node knows no route to the host.
    NoRoute,
    /// The host isn't next over the device.
    NotNeighbor,
    /// An allocation failed.
    NoMemory,
}

impl From<NoMemory> for SendFault {
    ghost from_gives = { λ _ r. r ≡ Fault.NoMemory };

    fn from(_refused: NoMemory) -> SendFault {
        SendFault::NoMemory
    }
}
