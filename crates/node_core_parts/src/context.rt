//! The context of a visit, and the node's time.
ghost use Rattle.std.specs.Prelude.{◌≡◌, ◌≤◌, length};
ghost use Rattle.node_core_spec.specs.Node as spec;
ghost use Rattle.node_core_parts.specs.Visiting.{around_at};

use checked_chunks::CheckedPacket;
use plan_base::Host;
use service_api::{Ctx, Neighbours, Router};

/// The context of the visit of a packet, with the neighbours and the routes of its node. Condition: at most 8 neighbours.
pub fn around(
    here: Host,
    now: u64,
    packet: &CheckedPacket,
    neighbours: Neighbours,
    router: Router,
) -> Ctx
    requires { length neighbours ≤ 8 }
    ensures ctx { result ≡ around_at here now packet.now neighbours router }
    ensures near { length result.neighbours ≤ 8 }
    ensures purse { result.purse ≡ packet.now.bound }
    ensures source { result.source ≡ packet.now.family.source }
{
    Ctx {
        here,
        source: packet.family().source,
        purse: packet.bound(),
        now,
        neighbours,
        router,
    }
}

/// The next tick, which stands still at the last number.
pub fn next_tick(now: u64) -> u64
    ensures { result ≡ spec.next_tick now }
{
    if now == u64::MAX { now } else { now + 1 }
}
