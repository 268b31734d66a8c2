//! Finds the first frame that was accepted more often than it was sent.
ghost use Rattle.std.specs.Prelude.{◌≡◌, List, [], IfOk};
ghost use Rattle.ledger_audit.specs.Crossings.{Crossing, first_over};
ghost use Rattle.ledger_audit.specs.Tallies.{AreFew, Tallied};
ghost use Rattle.ledger_audit.specs.Pasts.{arrivals_of};
ghost use Rattle.ledger_audit.specs.Ledgers.{over_in};

use crate::reckoning::Arrived;
use crate::tally::Tallies;
use plan_base::NoMemory;
use std::alloc::Global;

/// A frame that was accepted more often than it was sent.
#[derive(Clone, Copy, PartialEq, Eq)]
pub struct Over {
    /// The number of its log, from 1.
    pub log: u32,
    /// The number of its entry, from 1.
    pub event: u32,
    /// How often it was accepted up to there.
    pub accepted: u32,
    /// How often it was sent.
    pub sent: u32,
}

/// The first accepted frame that, with those before it, stands more often than it was sent. All that was sent must be
/// counted.
pub fn first_over_of(
    alloc: Global,
    tallies: &mut Tallies,
    arrived: &[Arrived],
) -> Result<Option<Over>, NoMemory>
    ensures { (sent : List Crossing) → AreFew sent (arrivals_of arrived.now)
        → Tallied sent [] tallies.old
        → IfOk result (λ over. over_in over ≡ first_over sent [] (arrivals_of arrived.now)) }
{
    for arrival in arrived {
        let key = arrival.key.copy(alloc)?;
        let tally = tallies.accept(key)?;
        if tally.sent < tally.accepted {
            return Ok(Some(Over {
                log: arrival.log,
                event: arrival.event,
                accepted: tally.accepted,
                sent: tally.sent,
            }));
        }
    }
    Ok(None)
}
