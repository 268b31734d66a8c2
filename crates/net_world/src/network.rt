//! The parts of a network, and what each event does to them.
ghost use Rattle.std.specs.Prelude.{◌≡◌, ◌≤◌, ◌<◌, ◌+◌, ◌-◌, ◌^◌, ◌∷◌, [], map, IfOk, OnErr};
ghost use Rattle.network_config.specs.Rules.{KeepsNetwork, MayName};
ghost use Rattle.net_world_spec.specs.World as spec;
ghost use Rattle.net_world_spec.specs.World.{WorldState};
ghost use Rattle.net_world_spec.specs.Sound.{event_fits};
ghost use Rattle.net_world_spec.specs.Counts.{late_in};
ghost use Rattle.net_world_spec.specs.declared.lines.Line.TheVariants as line;
ghost use Rattle.net_world_spec.specs.Numbers as numbers;
ghost use Rattle.net_world.specs.Stands.{NetworkStands, WorldStands, IsActed};

use crate::ends::{hand_off, was_handed, wire_place};
use crate::lines::{forged_lines, hand_line, no_lines, one_line, sent_lines, with_acts};
use crate::nodes::{arrive_at, hand_to, inject_at, node_place, take_at, tick_at, version_at};
use crate::opening::open_nodes;
use checked_chunks::CheckedChunk;
use containers::Items;
use net_world_spec::{Delivery, FrameOnWire, Line, Lines, LinkEnd, Wire, far_end, highest, lowest};
use network_config::{Links, Topology, WorldEvent};
use node_core::{Node, Version};
use node_core_spec::Acts;
use packet_frame::EncodedFrame;
use plan_base::{Dev, Host, Name, NoMemory};
use service_api::Services;
use std::alloc::Global;

/// The number of frames that the wire holds.
const MOST_ON_WIRE: usize = 4096;

/// The parts of a network: its nodes, its links, the frames on the wire, the number of the next frame, the
/// number of events so far and its version.
#[derive(Drop)]
pub struct Network<S: Services> {
    nodes: Vec<Node<S>>,
    links: Links,
    wire: Wire,
    next: u32,
    made: u32,
    version: Version,
}

/// The line of an event that changes nothing.
fn nothing(alloc: Global) -> Result<Lines, NoMemory>
    ensures { IfOk result (λ lines. lines ≡ line.Nothing ∷ []) }
{
    one_line(alloc, Line::Nothing)
}

impl<S: Services + Drop> Network<S> {
    /// The network of a topology, in which nothing has happened. `services`: one for each host, in the
    /// order of hosts.
    #[tactic(auto, unfolding(net_world_spec::specs::World::opening))]
    pub fn open(
        alloc: Global,
        topology: &Topology,
        services: Items<S>,
    ) -> Result<Network<S>, NoMemory>
        requires rules { KeepsNetwork topology.now }
        requires services { map S.stands services ≡ map spec.opening_services topology.now.hosts }
        ensures stands { IfOk result (λ n. NetworkStands S.stands n (spec.opening topology.now)) }
        ensures next { IfOk result (λ n. n.«next» ≤ n.made + 1) }
    {
        let links = Items::from_slice(alloc, topology.links.as_slice())?;
        let nodes = open_nodes(alloc, topology, services)?;
        Ok(Network {
            nodes,
            links,
            wire: Items::new(alloc),
            next: 1,
            made: 0,
            version: topology.version,
        })
    }
}

impl<S: Services> Network<S> {
    fn inject(
        &mut self,
        alloc: Global,
        host: Host,
        chunk: CheckedChunk,
        bound: u32,
        handler: Option<Name>,
    ) -> Result<Lines, NoMemory>
        requires small { bound ≤ 65535 }
        requires handler { MayName self.old.version chunk handler }
        ensures ok { (w : WorldState) → WorldStands S.stands self.old w → IfOk result (λ lines.
            IsActed S.stands (spec.injects w host chunk bound handler) lines self.new) }
        ensures next { self.new.next ≡ self.old.next }
        ensures made { self.new.made ≡ self.old.made }
    {
        let Some(at) = node_place(self.nodes.as_slice(), host) else {
            return nothing(alloc);
        };
        let acts = inject_at(alloc, &mut self.nodes, at, chunk, bound, handler)?;
        with_acts(no_lines(alloc), host, acts.list)
    }

    fn tick(&mut self, alloc: Global, host: Host) -> Result<Lines, NoMemory>
        ensures ok { (w : WorldState) → WorldStands S.stands self.old w
            → IfOk result (λ lines. IsActed S.stands (spec.ticks w host) lines self.new) }
        ensures next { self.new.next ≡ self.old.next }
        ensures made { self.new.made ≡ self.old.made }
    {
        let Some(at) = node_place(self.nodes.as_slice(), host) else {
            return nothing(alloc);
        };
        let acts = tick_at(alloc, &mut self.nodes, at)?;
        with_acts(no_lines(alloc), host, acts.list)
    }

    fn raw(&mut self, alloc: Global, host: Host, dev: Dev, bytes: &[u8]) -> Result<Lines, NoMemory>
        ensures ok { (w : WorldState) → WorldStands S.stands self.old w
            → IfOk result
            (λ lines. IsActed S.stands (spec.raws w host dev bytes.now) lines self.new) }
        ensures next { self.new.next ≡ self.old.next }
        ensures made { self.new.made ≡ self.old.made }
    {
        let Some(at) = node_place(self.nodes.as_slice(), host) else {
            return nothing(alloc);
        };
        let version = version_at(self.nodes.as_slice(), at);
        let before = forged_lines(alloc, host, version, bytes)?;
        let acts = arrive_at(alloc, &mut self.nodes, at, dev, bytes)?;
        with_acts(before, host, acts.list)
    }

    fn send(&mut self, alloc: Global, host: Host, dev: Dev) -> Result<Lines, NoMemory>
        requires few { self.old.next < 2 ^ 32 - 1 }
        ensures ok { (w : WorldState) → WorldStands S.stands self.old w
            → IfOk result (λ lines. IsActed S.stands (spec.sends w host dev) lines self.new) }
        ensures next { self.new.next ≤ self.old.next + 1 }
        ensures still { OnErr result (self.new.next ≡ self.old.next) }
        ensures made { self.new.made ≡ self.old.made }
    {
        let Some(at) = node_place(self.nodes.as_slice(), host) else {
            return nothing(alloc);
        };
        let Some(to) = far_end(self.links.as_slice(), host, dev) else {
            return nothing(alloc);
        };
        if self.wire.len() >= MOST_ON_WIRE {
            return nothing(alloc);
        }
        let Acts { list, frame } = take_at(alloc, &mut self.nodes, at, dev)?;
        let Some(frame) = frame else {
            return nothing(alloc);
        };
        let number = self.next;
        let lines = sent_lines(alloc, host, list, number, &frame)?;
        let from = LinkEnd { host, dev };
        self.wire.add(FrameOnWire {
            number,
            from,
            to,
            frame,
            handed: false,
        })?;
        self.next += 1;
        Ok(lines)
    }

    fn hand(&mut self, alloc: Global, how: Delivery, number: u32) -> Result<Lines, NoMemory>
        ensures ok { (w : WorldState) → WorldStands S.stands self.old w
            → IfOk result (λ lines. IsActed S.stands (spec.hands w how number) lines self.new) }
        ensures next { self.new.next ≡ self.old.next }
        ensures made { self.new.made ≡ self.old.made }
    {
        let Some(place) = wire_place(self.wire.as_slice(), number) else {
            return nothing(alloc);
        };
        let x = self.wire.at(place);
        let to = x.to;
        let Some(at) = node_place(self.nodes.as_slice(), to.host) else {
            return nothing(alloc);
        };
        let before = one_line(alloc, hand_line(how, x.number))?;
        let acts = hand_to(alloc, &mut self.nodes, at, to.dev, &x.frame)?;
        hand_off(alloc, &mut self.wire, how, place);
        with_acts(before, to.host, acts.list)
    }

    fn lose(&mut self, alloc: Global, number: u32) -> Result<Lines, NoMemory>
        ensures ok { (w : WorldState) → WorldStands S.stands self.old w
            → IfOk result (λ lines. IsActed S.stands (spec.loses w number) lines self.new) }
        ensures next { self.new.next ≡ self.old.next }
        ensures made { self.new.made ≡ self.old.made }
    {
        let Some(place) = wire_place(self.wire.as_slice(), number) else {
            return nothing(alloc);
        };
        let lost = self.wire.remove(place);
        let mut lines = one_line(alloc, Line::Off(lost.number))?;
        lines.add(Line::Lost(lost.frame.what()))?;
        Ok(lines)
    }

    /// An event, which isn't counted yet, and its lines.
    pub fn act(&mut self, alloc: Global, event: WorldEvent) -> Result<Lines, NoMemory>
        requires fits { event_fits self.old.version event }
        requires few { self.old.next < 2 ^ 32 - 1 }
        ensures ok { (w : WorldState) → WorldStands S.stands self.old w
            → IfOk result (λ lines. IsActed S.stands (spec.acted_event w event) lines
            self.new) }
        ensures next { self.new.next ≤ self.old.next + 1 }
        ensures still { OnErr result (self.new.next ≡ self.old.next) }
        ensures made { self.new.made ≡ self.old.made }
    {
        match event {
            WorldEvent::Inject(host, chunk, bound, handler) => {
                self.inject(alloc, host, chunk, bound, handler)
            }
            WorldEvent::Send(host, dev) => self.send(alloc, host, dev),
            WorldEvent::Deliver(number) => self.hand(alloc, Delivery::Taking, number),
            WorldEvent::Repeat(number) => self.hand(alloc, Delivery::Leaving, number),
            WorldEvent::Lose(number) => self.lose(alloc, number),
            WorldEvent::Tick(host) => self.tick(alloc, host),
            WorldEvent::Raw(host, dev, bytes) => self.raw(alloc, host, dev, bytes.as_slice()),
        }
    }

    /// Counts an event. Condition: fewer than 2^32 - 1 were counted.
    pub fn count(&mut self)
        requires { self.old.made < 2 ^ 32 - 1 }
        ensures made { self.new.made ≡ self.old.made + 1 }
        ensures next { self.new.next ≡ self.old.next }
        ensures stands { (w : WorldState) → NetworkStands S.stands self.old w
            → NetworkStands S.stands self.new (spec.counted_event w) }
    {
        self.made += 1;
    }

    /// Whether an event hands or loses a frame that was handed before.
    pub fn is_late(&self, event: &WorldEvent) -> bool
        ensures { result ≡ late_in self.now.wire event.now }
    {
        match event {
            WorldEvent::Deliver(number) => was_handed(self.wire.as_slice(), *number),
            WorldEvent::Repeat(number) => was_handed(self.wire.as_slice(), *number),
            WorldEvent::Lose(number) => was_handed(self.wire.as_slice(), *number),
            _ => false,
        }
    }

    /// The number of events so far.
    pub fn event_count(&self) -> u32
        ensures { result ≡ self.now.made }
    {
        self.made
    }

    /// The lowest number on the wire.
    pub fn lowest(&self) -> Option<u32>
        ensures { result ≡ numbers.lowest self.now.wire }
    {
        lowest(self.wire.as_slice())
    }

    /// The highest number on the wire.
    pub fn highest(&self) -> Option<u32>
        ensures { result ≡ numbers.highest self.now.wire }
    {
        highest(self.wire.as_slice())
    }
}
