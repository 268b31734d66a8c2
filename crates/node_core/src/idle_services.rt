//! The services of a node between its visits, and the visits that they answer.
ghost use Rattle.std.specs.Prelude.{◌≡◌, IfOk};
ghost use Rattle.service_api.specs.Services.{unexpired_services};
ghost use Rattle.node_core_parts.specs.Turns.{IsResting};
ghost use Rattle.node_core_parts.specs.Visiting.{IsAround, IsOpened, StaysOpen};
ghost use Rattle.node_core.specs.Turning.{MayVisit, IsSettled, IsTurn, TurnsPacket};

use checked_chunks::CheckedPacket;
use node_core_parts::{Turn, close, is_spent, turn_of};
use node_core_spec::{ActList, TxQueue};
use plan_base::{NoMemory, Stamp};
use plan_eval::visit;
use plan_eval_settle::{Settled, settle};
use service_api::{Ctx, Services};
use std::alloc::Global;
use std::marker::Model;

/// The services of a node between its visits, which contracts see as those services: no `begin` is open.
pub struct QuiescentServices<S: Services> {
    services: S,
}

impl<S: Services + Drop> Drop for QuiescentServices<S> {
    fn drop(self) {
        let QuiescentServices {
            services: _services,
        } = self;
    }
}

impl<S: Services> Model for QuiescentServices<S> {
    ghost use Rattle.node_core_parts.specs.Turns.{IsResting};

    ghost Value = { S };

    ghost coded = { S.code };

    ghost view = { λ r. r.services };

    ghost invariant = { λ r. IsResting (S.stands r.services) };
}

/// Visits a packet and settles the visit, of which nothing stands yet: gives it with what was left before and with whether its
/// work was spent.
#[tactic(auto, using(plan_eval_settle::proofs::Sends::sent_plain))]
fn settled_of<S: Services>(
    alloc: Global,
    services: &mut S,
    ctx: &Ctx,
    packet: &CheckedPacket,
) -> Result<(Settled, u32, bool), NoMemory>
    requires own { IsAround ctx.now packet.now }
    requires open { IsOpened (S.stands services.old) }
    ensures made { IfOk result (IsSettled ctx.entry.now packet.now
        (S.stands services.old) (S.stands services.new)) }
    ensures stays { StaysOpen (S.stands services.old) (S.stands services.new) }
{
    let made = visit(alloc, packet, services, ctx)?;
    let is_spent = is_spent(&made.outcome);
    let left = made.left;
    let _bound = packet.bound();
    let settled = settle(alloc, packet, made, ctx)?;
    Ok((settled, left, is_spent))
}

/// Visits a packet, settles the visit, and takes all the room that its end needs. Condition: without a mark the packet has no
/// handler.
#[tactic(auto, using(node_core_parts::proofs::TurnLaws::settled_carries))]
fn open_turn<S: Services>(
    alloc: Global,
    services: &mut S,
    ctx: &Ctx,
    mark: Option<Stamp>,
    packet: &CheckedPacket,
    before: ActList,
) -> Result<Turn, NoMemory>
    requires visit { MayVisit mark ctx.now packet.now }
    requires open { IsOpened (S.stands services.old) }
    ensures turn { IfOk result (IsTurn mark ctx.entry.now packet.now before
        (S.stands services.old) (S.stands services.new)) }
    ensures stays { StaysOpen (S.stands services.old) (S.stands services.new) }
{
    let (settled, left, is_spent) = settled_of(alloc, services, ctx, packet)?;
    let (acts, sends) = turn_of(alloc, mark, packet.family(), left, settled, before)?;
    services.ready(alloc)?;
    Ok(Turn {
        acts,
        sends,
        is_spent,
    })
}

impl<S: Services> QuiescentServices<S> {
    /// These services. Condition: no `begin` is open.
    pub fn of(services: S) -> QuiescentServices<S>
        requires { IsResting (S.stands services) }
        ensures { result ≡ services }
    {
        QuiescentServices { services }
    }

    /// The visit of a packet, after some acts: its acts, with its sends queued. Where an allocation fails, the
    /// lanes and the services stay.
    #[tactic(auto, unfolding(node_core_spec::specs::Node::visit_acts), using(node_core_parts::proofs::TurnLaws::undone, node_core_parts::proofs::TurnLaws::rests_closed, node_core_parts::proofs::TurnLaws::rests_abandoned))]
    pub fn turn(
        &mut self,
        alloc: Global,
        ctx: &Ctx,
        mark: Option<Stamp>,
        lanes: &mut [TxQueue],
        before: ActList,
        packet: &CheckedPacket,
    ) -> Result<ActList, NoMemory>
        requires { MayVisit mark ctx.now packet.now }
        ensures { TurnsPacket mark ctx.entry.now packet.now before
            (S.stands self.old) (S.stands self.new) lanes.old lanes.new result }
    {
        self.services.begin(alloc)?;
        match open_turn(alloc, &mut self.services, ctx, mark, packet, before) {
            Ok(turn) => {
                close(&mut self.services, turn.is_spent);
                Ok(turn.end(lanes))
            }
            Err(refused) => {
                self.services.abandon();
                Err(refused)
            }
        }
    }

    /// Takes the rows away that have expired at `now`. Takes no memory.
    pub fn expire(&mut self, now: u64)
        ensures { S.stands self.new ≡ unexpired_services now (S.stands self.old) }
    {
        self.services.expire(now);
    }
}
