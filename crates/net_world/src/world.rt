//! A network of nodes, with each event as a public call.
ghost use Rattle.std.specs.Prelude.{◌≡◌, ◌-◌, ◌<◌, ◌^◌, map, IfOk};
ghost use Rattle.network_config.specs.Rules.{KeepsNetwork};
ghost use Rattle.net_world_spec.specs.World as spec;
ghost use Rattle.net_world_spec.specs.Counts.{late_in};
ghost use Rattle.net_world_spec.specs.Sound.{event_within, event_typed};
ghost use Rattle.net_world_spec.specs.Numbers as numbers;
ghost use Rattle.net_world.specs.Stands.{WorldStands};
ghost use Rattle.net_world.specs.Happening.{Happens};

use crate::network::Network;
use containers::Items;
use net_world_spec::Lines;
use network_config::{Topology, WorldEvent};
use node_core_parts::are_bytes;
use plan_base::NoMemory;
use service_api::Services;
use std::alloc::Global;
use std::marker::Model;

/// A network of nodes of one version, which contracts see as its nodes, its links, the frames on the wire, the
/// number of the next frame, the number of events so far and its version. An event sends one frame at most.
#[derive(Drop)]
pub struct World<S: Services> {
    network: Network<S>,
}

impl<S: Services> Model for World<S> {
    ghost use Rattle.std.specs.Prelude.{◌≤◌, ◌+◌};
    ghost use Rattle.std.specs.Coded.{codes};
    ghost use Rattle.packet_frame.specs.contracts.frame.PlainFrame as frame;
    ghost use Rattle.plan_base.specs.contracts.tree.Program as program;
    ghost use Rattle.net_world.specs.declared.network.Network.{Network};

    ghost Value = { Network S };

    ghost coded = { Prim.hlevel (codes, frame.the_row.coded, program.the_row.coded) };

    ghost view = { λ w. w.network };

    ghost invariant = { λ w. w.network.«next» ≤ w.network.made + 1 };
}

/// Shows that an injected chunk is typed, and that bytes are below 256, and changes nothing. Takes no memory.
fn keep_types(event: &WorldEvent)
    ensures { event_typed event.now }
{
    match event {
        WorldEvent::Inject(_, chunk, _, _) => {
            let _typed = chunk.chunk();
        }
        WorldEvent::Raw(_, _, bytes) => are_bytes(bytes.as_slice()),
        _ => {}
    }
}

impl<S: Services + Drop> World<S> {
    /// The network of a topology: every node has serial 1, no rows and nothing queued, nothing is on the wire, and
    /// under version 2 every node began at moment 1 and numbers its frames from 1. `services`: one for each host, in
    /// the order of hosts. Condition: the topology keeps its rules.
    pub fn new(alloc: Global, topology: &Topology, services: Items<S>) -> Result<World<S>, NoMemory>
        requires rules { KeepsNetwork topology.now }
        requires services { map S.stands services ≡ map spec.opening_services topology.now.hosts }
        ensures { IfOk result (λ w. WorldStands S.stands w (spec.opening topology.now)) }
    {
        let network = Network::open(alloc, topology, services)?;
        Ok(World { network })
    }
}

impl<S: Services> World<S> {
    /// The number of events so far. Takes no memory.
    pub fn event_count(&self) -> u32
        ensures { result ≡ self.now.made }
    {
        self.network.event_count()
    }

    /// Whether an event would hand or lose a frame that was handed before. Takes no memory.
    pub fn is_late(&self, event: &WorldEvent) -> bool
        ensures { result ≡ late_in self.now.wire event.now }
    {
        self.network.is_late(event)
    }

    /// The lowest number of a frame on the wire, or `None` where it is empty. Takes no memory.
    pub fn lowest(&self) -> Option<u32>
        ensures { result ≡ numbers.lowest self.now.wire }
    {
        self.network.lowest()
    }

    /// The highest number of a frame on the wire, or `None` where it is empty. Takes no memory.
    pub fn highest(&self) -> Option<u32>
        ensures { result ≡ numbers.highest self.now.wire }
    {
        self.network.highest()
    }

    /// One event, as the definition has it for each state for which the network stands, and its lines: in balance
    /// for each family, and keeping what every network keeps, where no visit is without a case and each would end
    /// by itself; and, in a run without packets and adverts from outside, keeping the law of routes. After `NoMemory` the network
    /// isn't used again. Conditions: an injected bound is at most 65,535, and an injection has a handler under
    /// version 2 alone, one that may handle; a device is at most 8; a frame is repeated under version 2 alone; and
    /// fewer than 2^32 - 2 events were made.
    pub fn step(&mut self, alloc: Global, event: WorldEvent) -> Result<Lines, NoMemory>
        requires fits { event_within self.old.version event }
        requires few { self.old.made < 2 ^ 32 - 2 }
        ensures { Happens S.stands event self.old result self.new }
    {
        keep_types(&event);
        let lines = self.network.act(alloc, event)?;
        self.network.count();
        Ok(lines)
    }
}
