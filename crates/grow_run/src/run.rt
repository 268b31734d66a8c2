//! Grows a network from a seed, and writes its summary.
ghost use Rattle.std.specs.Prelude.{◌≡◌, ◌≤◌, map, IfOk};
ghost use Rattle.net_world_spec.specs.World.{opening_services};
ghost use Rattle.grow_run.specs.Grow.{ring};
ghost use Rattle.grow_run.specs.Pings.{OfGrown, Grows};

use crate::growth::GrowingNetwork;
use crate::pings::ping_program;
use containers::Items;
use net_world::RunFault;
use node_io::{Sink, put_all};
use plan_base::{Bytes, NoMemory};
use service_api::Services;
use std::alloc::Global;

/// The summary of the network of a seed after this many events.
fn grown_bytes<S: Services + Drop>(
    alloc: Global,
    seed: u64,
    events: u32,
    services: Items<S>,
) -> Result<Bytes, NoMemory>
    requires few { events ≤ 50000 }
    requires services { map S.stands services ≡ map opening_services ring.hosts }
    ensures { IfOk result (λ text. OfGrown seed events (λ whole. text ≡ whole)) }
{
    let code = ping_program(alloc)?;
    let mut growth = GrowingNetwork::begin(alloc, seed, services)?;
    growth.grow(alloc, &code, events)?;
    growth.text(alloc, seed, events)
}

#[tactic(auto, using(crate::proofs::Growing::grown_written, crate::proofs::Growing::grown_cut))]
/// Writes the summary of the network of a seed after this many events to `out`. Neither its events nor its lines are
/// kept. `services`: one for each host, in the order of hosts. Condition: the events are at most 50,000.
pub fn grow<S: Services + Drop, K: Sink>(
    alloc: Global,
    seed: u64,
    events: u32,
    services: Items<S>,
    out: &mut K,
) -> Result<(), RunFault>
    requires few { events ≤ 50000 }
    requires services { map S.stands services ≡ map opening_services ring.hosts }
    ensures { Grows seed events (K.state out.old) (K.state out.new) result }
{
    let Ok(text) = grown_bytes(alloc, seed, events, services) else {
        return Err(RunFault::NoMemory);
    };
    match put_all(out, text.as_slice()) {
        Ok(()) => Ok(()),
        Err(_) => Err(RunFault::WriteFault),
    }
}
