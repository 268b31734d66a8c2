//! Whether a send is paid, and where it leads.
ghost use Rattle.std.specs.Prelude.{◌≡◌, ◌↔◌, ◌≤◌, IsTrue, false, Err, IfOk, IsOk};
ghost use Rattle.plan_base.specs.declared.ids.Host.{Host as AHost};
ghost use Rattle.plan_base.specs.declared.ids.Dev.{Dev as ADev};
ghost use Rattle.service_api.specs.Routes.{hop};
ghost use Rattle.plan_meaning.specs.Meaning as spec;
ghost use Rattle.plan_meaning.specs.Meaning.{is_paid, bound_of};
ghost use Rattle.remote_calls.specs.Sends.{leads};

use crate::fault::SendFault;
use crate::purse::Purse;
use plan_base::{Dev, Host, Name};
use service_api::{Ctx, Hop};

/// What a send pays, and the device that its packet leaves by.
#[derive(Clone, Copy)]
pub struct SendWay {
    /// The device.
    pub dev: Dev,
    /// The packet's bound, at least 1 and at most what the purse holds, which is at most 65,535.
    pub bound: u32,
}

/// The way to a host by a routing function. Refused in this order: `NoBound` where the purse doesn't pay `n`, `NoService`
/// where no routing function of that name is offered, `NoRoute` where it knows no route. Takes no memory.
pub fn remote_way(
    purse: &Purse,
    ctx: &Ctx,
    host: Host,
    n: i64,
    route: &Name,
) -> Result<SendWay, SendFault>
    ensures found { IfOk result (λ w. IsTrue (is_paid n purse.now) × (w.bound ≡ bound_of n) ×
        ((via : AHost) × (hop ctx.entry.now.router route.now ctx.entry.now.here host ≡ Hop.To
        via w.dev))) }
    ensures small { IfOk result (λ w. w.bound ≤ 65535) }
    ensures only { (via : AHost) (dev : ADev) → IsTrue (is_paid n purse.now) → hop
        ctx.entry.now.router route.now ctx.entry.now.here host ≡ Hop.To via dev → IsOk result }
    ensures no_bound { (result ≡ Err SendFault.NoBound) ↔ (is_paid n purse.now ≡ false) }
    ensures no_service { (result ≡ Err SendFault.NoService) ↔
        (IsTrue (is_paid n purse.now) × (hop ctx.entry.now.router route.now ctx.entry.now.here host
        ≡ Hop.NoService)) }
    ensures no_route { (result ≡ Err SendFault.NoRoute) ↔
        (IsTrue (is_paid n purse.now) × (hop ctx.entry.now.router route.now ctx.entry.now.here host
        ≡ Hop.NoRoute)) }
{
    let Some(bound) = purse.bound_for(n) else {
        return Err(SendFault::NoBound);
    };
    match ctx.router.next(route, ctx.here, host) {
        Hop::To(_, dev) => Ok(SendWay { dev, bound }),
        Hop::NoService => Err(SendFault::NoService),
        Hop::NoRoute => Err(SendFault::NoRoute),
    }
}

/// Whether the host is the first neighbour on the device.
fn leads_to(neighbours: &[(Host, Dev)], dev: Dev, host: Host) -> bool
    ensures { result ≡ spec.leads_to neighbours.now dev host }
{
    let mut rest = neighbours;
    while let [(h, d), more @ ..] = rest {
        if d.0 == dev.0 {
            return h.0 == host.0;
        }
        rest = more;
    }
    false
}

/// Whether the host is next over the device; device 0 leads to the node itself.
#[tactic(auto, unfolding(crate::specs::Sends::leads))]
fn is_next(ctx: &Ctx, dev: Dev, host: Host) -> bool
    ensures { result ≡ leads ctx.entry.now dev host }
{
    if dev.0 == 0 {
        return ctx.here.0 == host.0;
    }
    leads_to(ctx.neighbours.as_slice(), dev, host)
}

/// The way to a neighbour. Refused in this order: `NoBound` where the purse doesn't pay `n`, `NotNeighbor` where the host
/// isn't next over the device. Takes no memory.
pub fn neighbour_way(
    purse: &Purse,
    ctx: &Ctx,
    host: Host,
    n: i64,
    dev: Dev,
) -> Result<SendWay, SendFault>
    ensures found { IfOk result (λ w. IsTrue (is_paid n purse.now) × (w.bound ≡ bound_of n) ×
        (w.dev ≡ dev) × IsTrue (leads ctx.entry.now dev host)) }
    ensures small { IfOk result (λ w. w.bound ≤ 65535) }
    ensures only { IsTrue (is_paid n purse.now) → IsTrue (leads ctx.entry.now dev host)
        → IsOk result }
    ensures no_bound { (result ≡ Err SendFault.NoBound) ↔ (is_paid n purse.now ≡ false) }
    ensures not_neighbour { (result ≡ Err SendFault.NotNeighbor) ↔
        (IsTrue (is_paid n purse.now) × (leads ctx.entry.now dev host ≡ false)) }
{
    let Some(bound) = purse.bound_for(n) else {
        return Err(SendFault::NoBound);
    };
    if is_next(ctx, dev, host) {
        Ok(SendWay { dev, bound })
    } else {
        Err(SendFault::NotNeighbor)
    }
}
