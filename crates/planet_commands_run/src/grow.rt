//! The command `grow`.
ghost use Rattle.std.specs.Prelude.{◌≤◌};
ghost use Rattle.planet_commands_run.specs.Grown.{GrowsAs};

use grow_run::{grow, ring};
use net_world::RunFault;
use node_io::Sink;
use planet_commands::{Cause, services_of};
use std::alloc::Global;

/// `grow SEED N`: the summary of a network that grows by itself.
pub fn on_seed<K: Sink>(alloc: Global, seed: u64, events: u32, out: &mut K) -> Cause
    requires { events ≤ 50000 }
    ensures { GrowsAs seed events result (K.state out.old) (K.state out.new) }
{
    let Ok(topology) = ring(alloc) else {
        return Cause::NoMemory;
    };
    let services = services_of(alloc, topology.hosts.as_slice());
    drop(topology);
    let Ok(services) = services else {
        return Cause::NoMemory;
    };
    match grow(alloc, seed, events, services, out) {
        Ok(()) => Cause::Done,
        Err(RunFault::WriteFault) => Cause::WriteFault,
        Err(RunFault::NoMemory) => Cause::NoMemory,
    }
}
