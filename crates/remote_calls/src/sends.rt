//! The two sends.
ghost use Rattle.std.specs.Prelude.{◌≡◌, ◌↔◌, ◌+◌, ◌++◌, ◌∷◌, [], ◌≤◌, IsTrue, false, Err, OnOk, OnErr, IfOk, IsOkUnless};
ghost use Rattle.plan_base.specs.declared.ids.Host.{Host as AHost};
ghost use Rattle.plan_base.specs.declared.ids.Dev.{Dev as ADev};
ghost use Rattle.service_api.specs.Routes.{hop, default_route};
ghost use Rattle.plan_meaning.specs.Meaning.{is_paid, bound_of};
ghost use Rattle.remote_calls.specs.Sends.{leads, packet_of, IsSent, IsKept};

use crate::fault::SendFault;
use crate::purse::Purse;
use crate::way::{neighbour_way, remote_way};
use checked_chunks::{CheckedChunk, CheckedPacket};
use plan_base::{Dev, Family, Host, Name, NoMemory};
use plan_meaning::{Outbox, Sent};
use service_api::{Ctx, Hop};
use std::alloc::Global;

/// Pays a packet's bound and puts the packet behind those that are to be sent. Condition: the purse holds its bound. After
/// `NoMemory` purse and outbox are as before.
pub fn send(
    purse: &mut Purse,
    outbox: &mut Outbox,
    dev: Dev,
    packet: CheckedPacket,
) -> Result<(), NoMemory>
    requires { packet.bound ≤ purse.old }
    ensures sent { OnOk result (IsSent dev packet purse.old outbox.old purse.new outbox.new) }
    ensures kept { OnErr result (IsKept purse.old outbox.old purse.new outbox.new) }
{
    let bound = packet.bound();
    outbox.add(Sent { dev, packet })?;
    purse.take(bound);
    Ok(())
}

/// Sends a chunk to a host by a routing function: pays `n`, and appends one packet with that bound over the device of the
/// next hop.
///
/// Refused in this order: `NoBound` where `n` is below 1 or more than the purse holds, `NoService` where no routing function
/// of that name is offered, `NoRoute` where no route to the host is known, and `NoMemory`. After a refusal purse and outbox
/// are as before.
#[tactic(auto, using(crate::proofs::Paying::is_within))]
pub fn on_remote(
    purse: &mut Purse,
    outbox: &mut Outbox,
    ctx: &Ctx,
    family: Family,
    chunk: CheckedChunk,
    host: Host,
    n: i64,
    route: Name,
) -> Result<(), SendFault>
    ensures sent { OnOk result (IsTrue (is_paid n purse.old) ×
        ((via : AHost) × (dev : ADev) × (hop ctx.entry.now.router route ctx.entry.now.here host ≡
        Hop.To via dev)
        × IsSent dev (packet_of family host (bound_of n) route chunk) purse.old outbox.old purse.new
        outbox.new)) }
    ensures only { (via : AHost) (dev : ADev) → IsTrue (is_paid n purse.old) → hop
        ctx.entry.now.router route ctx.entry.now.here host ≡ Hop.To via dev → IsOkUnless result
        SendFault.NoMemory }
    ensures no_bound { (result ≡ Err SendFault.NoBound) ↔ (is_paid n purse.old ≡ false) }
    ensures no_service { (result ≡ Err SendFault.NoService) ↔
        (IsTrue (is_paid n purse.old) × (hop ctx.entry.now.router route ctx.entry.now.here host ≡
        Hop.NoService)) }
    ensures no_route { (result ≡ Err SendFault.NoRoute) ↔
        (IsTrue (is_paid n purse.old) × (hop ctx.entry.now.router route ctx.entry.now.here host ≡
        Hop.NoRoute)) }
    ensures kept { OnErr result (IsKept purse.old outbox.old purse.new outbox.new) }
{
    let way = remote_way(purse, ctx, host, n, &route)?;
    let packet = CheckedPacket::of(family, host, way.bound, route, chunk);
    send(purse, outbox, way.dev, packet)?;
    Ok(())
}

/// The name of the one routing function that there is.
#[tactic(auto, unfolding(plan_base::specs::Words::is_name, plan_base::specs::Words::is_word, plan_base::specs::Words::is_reserved))]
pub fn default_route(alloc: Global) -> Result<Name, NoMemory>
    ensures { IfOk result (λ n. n ≡ default_route) }
{
    Name::of(alloc, b"defaultRoute")
}

/// Sends a chunk to a neighbour over a device, or over device 0 to the node itself: pays `n`, and appends one packet with
/// that bound and the route `defaultRoute`.
///
/// Refused in this order: `NoBound` where `n` is below 1 or more than the purse holds, `NotNeighbor` where neither the device
/// is 0 and the host the node's own, nor the host the neighbour on the device, and `NoMemory`. After a refusal purse and
/// outbox are as before.
#[tactic(auto, using(crate::proofs::Paying::is_within))]
pub fn on_neighbor(
    alloc: Global,
    purse: &mut Purse,
    outbox: &mut Outbox,
    ctx: &Ctx,
    family: Family,
    chunk: CheckedChunk,
    host: Host,
    n: i64,
    dev: Dev,
) -> Result<(), SendFault>
    ensures sent { OnOk result (IsTrue (is_paid n purse.old) × IsTrue (leads ctx.entry.now dev host)
        × IsSent dev (packet_of family host (bound_of n) default_route chunk) purse.old outbox.old
        purse.new outbox.new) }
    ensures only { IsTrue (is_paid n purse.old) → IsTrue (leads ctx.entry.now dev host) → IsOkUnless
        result SendFault.NoMemory }
    ensures no_bound { (result ≡ Err SendFault.NoBound) ↔ (is_paid n purse.old ≡ false) }
    ensures not_neighbour { (result ≡ Err SendFault.NotNeighbor) ↔
        (IsTrue (is_paid n purse.old) × (leads ctx.entry.now dev host ≡ false)) }
    ensures kept { OnErr result (IsKept purse.old outbox.old purse.new outbox.new) }
{
    let way = neighbour_way(purse, ctx, host, n, dev)?;
    let packet = CheckedPacket::of(family, host, way.bound, default_route(alloc)?, chunk);
    send(purse, outbox, way.dev, packet)?;
    Ok(())
}
