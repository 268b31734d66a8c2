//! A visit of a packet at a node that has no links.
ghost use Rattle.std.specs.Prelude.{◌≡◌, ◌≤◌, ◌+◌, length, IfOk, OnOk, OnErr, IsTrue};
ghost use Rattle.plan_meaning.specs.Visit.{bounds};
ghost use Rattle.node_core_parts.specs.Turns.{IsResting};
ghost use Rattle.node_core_parts.specs.Visiting.{IsAround, IsOpened, StaysOpen};
ghost use Rattle.example_services.specs.Visits.{IsMade, IsVisited};

use checked_chunks::CheckedPacket;
use node_core_parts::{close, is_spent};
use plan_base::NoMemory;
use plan_eval::visit;
use plan_meaning::Visit;
use service_api::{Ctx, Services};
use std::alloc::Global;

/// Visits a packet, and takes the room that its changes need.
#[tactic(auto, using(crate::proofs::Turns::visit_is_made))]
fn make<S: Services>(
    alloc: Global,
    services: &mut S,
    ctx: &Ctx,
    packet: &CheckedPacket,
) -> Result<Visit, NoMemory>
    requires own { IsAround ctx.now packet.now }
    requires open { IsOpened (S.stands services.old) }
    ensures made { IfOk result (λ r. IsMade packet.now ctx.entry.now (S.stands services.old) r
        (S.stands services.new)) }
    ensures balance { IfOk result (λ r. r.evals + r.left + bounds r.outbox ≡ packet.now.bound) }
    ensures ready { OnOk result (IsTrue (S.stands services.new).ready) }
    ensures stays { StaysOpen (S.stands services.old) (S.stands services.new) }
{
    let made = visit(alloc, packet, services, ctx)?;
    services.ready(alloc)?;
    Ok(made)
}

/// Visits a packet with these services, whichever they are. What the visit changed stands then, unless its work was spent.
///
/// Conditions: the purse of the surroundings is the packet's bound and their source the family's host, there are at most 8
/// neighbours, and no `begin` is open. Where an allocation fails the services stay.
#[tactic(auto, using(crate::proofs::Turns::packet_is_visited, node_core_parts::proofs::TurnLaws::undone, node_core_parts::proofs::TurnLaws::rests_closed, node_core_parts::proofs::TurnLaws::rests_abandoned))]
pub fn visit_once<S: Services>(
    alloc: Global,
    services: &mut S,
    ctx: &Ctx,
    packet: &CheckedPacket,
) -> Result<Visit, NoMemory>
    requires bound { ctx.now.purse ≡ packet.now.bound }
    requires source { ctx.now.source ≡ packet.now.family.source }
    requires near { length ctx.now.neighbours ≤ 8 }
    requires rests { IsResting (S.stands services.old) }
    ensures visits { IfOk result (λ r. IsVisited packet.now ctx.entry.now (S.stands services.old) r
        (S.stands services.new)) }
    ensures balance { IfOk result (λ r. r.evals + r.left + bounds r.outbox ≡ packet.now.bound) }
    ensures undone { OnErr result (S.stands services.new ≡ S.stands services.old) }
    ensures rests { IsResting (S.stands services.new) }
{
    services.begin(alloc)?;
    match make(alloc, services, ctx, packet) {
        Ok(made) => {
            close(services, is_spent(&made.outcome));
            Ok(made)
        }
        Err(refused) => {
            services.abandon();
            Err(refused)
        }
    }
}
