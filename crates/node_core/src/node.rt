//! The node: what each event does to its routes, tables, queues and windows.
ghost use Rattle.std.specs.Prelude.{◌≡◌, ◌≤◌, ◌<◌, IfOk, [], ◌∷◌, slice_get, None};
ghost use Rattle.node_core_spec.specs.State.{NodeState, new_node, leads_to, routing_of};
ghost use Rattle.node_core_spec.specs.declared.acts.Act.TheVariants as act;
ghost use Rattle.node_core_spec.specs.Node as spec;
ghost use Rattle.plan_base.specs.declared.ids.Family.{Family as FamilyOf};
ghost use Rattle.replay_window.specs.declared.window.Took.TheVariants.{Fresh as FreshOne};
ghost use Rattle.network_config.specs.Rules.{MayName};
ghost use Rattle.packet_frame.specs.Spelled as spelled;
ghost use Rattle.packet_frame.specs.Spelled.{MayCarry};
ghost use Rattle.node_core_spec.specs.Counts.{came, stale, StepBalances};
ghost use Rattle.node_core_spec.specs.Fits.{ConfigFits, NodeFits, IsMarked, comes_fit, comes_within};
ghost use Rattle.node_core_parts.specs.Queued.{queued_at};
ghost use Rattle.packet_frame.specs.Typed.{plain_of};
ghost use Rattle.dv_routing.specs.Routing.{all_routes};
ghost use Rattle.service_api.specs.Routes.{hop};
ghost use Rattle.node_core_parts.specs.Turns.{IsResting};
ghost use Rattle.node_core.specs.Stands.{NodeStands, Steps, StepsWhere, version_of, mark_on, with_stamp};
ghost use Rattle.node_core_parts.specs.Carried.{MayBear, MayGoOn, asks_within};

use crate::idle_services::QuiescentServices;
use checked_chunks::{Checked, CheckedChunk, CheckedPacket};
use containers::Items;
use network_config::{Event, NodeConfig};
use node_core_parts::{
    Leavings, NeighbourList, Routes, acts_room, advert_sendings, around, code_of, count_frames,
    has_frame, judge, leads_to, next_tick, none_taken, note, one_act, only_acts, open_parts,
    own_family, own_packet, packet_sending, read_as, refusal_of, send_all, send_one, take_first,
    taken, ticked, two_room, what_of, with_act,
};
use node_core_spec::{Act, ActList, Acts, Reason, TxQueue};
use packet_frame::{EncodedFrame, Frame, Stamped};
use plan_base::{Dev, Host, Name, NoMemory, Stamp, Version};
use plan_base_copy::copy_handler;
use replay_window::{Took, Window};
use service_api::{Advert, Ctx, Hop, Services};
use std::alloc::Global;

/// A node: its host, its version, the moment at which it began, its neighbours by device, its routes, its services, for each
/// device from 0 to 8 its queue with the number of its next frame and, under version 2, its window, the serial number of its next
/// injection, its time in ticks, and the program of the last chunk that arrived, so that the same program isn't checked again.
pub struct Node<S: Services> {
    here: Host,
    version: Version,
    boot: u64,
    neighbours: NeighbourList<(Host, Dev)>,
    routes: Routes,
    services: QuiescentServices<S>,
    lanes: Vec<TxQueue>,
    windows: Vec<Window>,
    serial: u64,
    time: u64,
    known: Option<Checked>,
}

impl<S: Services + Drop> Drop for Node<S> {
    fn drop(self) {
        let Node {
            here: _here,
            version: _version,
            boot: _boot,
            neighbours: _neighbours,
            routes: _routes,
            services: _services,
            lanes: _lanes,
            windows: _windows,
            serial: _serial,
            time: _time,
            known: _known,
        } = self;
    }
}

/// The step of a stale frame, which does nothing.
fn stale_step(alloc: Global, dev: Dev, took: Took, frame: &Frame) -> Result<Acts, NoMemory>
    ensures list { IfOk result (λ acts. acts.list ≡ act.Arrived dev ∷ act.Stale took
        (spelled.what_of (plain_of frame.now)) ∷ []) }
    ensures frame { IfOk result (λ acts. acts.frame ≡ None) }
{
    let room = two_room(alloc)?;
    let stale = Act::Stale(took, what_of(frame));
    Ok(only_acts(room, Act::Arrived(dev), stale))
}

impl<S: Services + Drop> Node<S> {
    /// A node at its beginning: it has heard nothing, nothing is queued, nothing was taken, and its time is 0. Conditions: at
    /// most 32 hosts, none twice; neighbours on devices from 1 to 8, each once, in order; no `begin` of the services is open.
    #[tactic(auto, unfolding(node_core_spec::specs::State::new_node), using(node_core_spec::proofs::Contexts::near_by_devices))]
    pub fn new(alloc: Global, config: NodeConfig, services: S) -> Result<Node<S>, NoMemory>
        requires config { ConfigFits config }
        requires services { IsResting (S.stands services) }
        ensures stands { IfOk result (λ node. NodeStands S.stands node
            (new_node config (S.stands services))) }
        ensures version { IfOk result (λ node. version_of node ≡ config.version) }
    {
        let (routes, devices) = open_parts(alloc, &config)?;
        let (lanes, windows) = devices.into_parts();
        let NodeConfig {
            here,
            hosts: _hosts,
            neighbours,
            serial,
            version,
            boot,
            link: _link,
        } = config;
        Ok(Node {
            here,
            version,
            boot,
            neighbours: NeighbourList::of(neighbours),
            routes,
            services: QuiescentServices::of(services),
            lanes,
            windows,
            serial,
            time: 0,
            known: None,
        })
    }
}

impl<S: Services> Node<S> {
    /// The node's host. Takes no memory.
    pub fn here(&self) -> Host
        ensures { result ≡ self.now.here }
    {
        self.here
    }

    /// The node's version. Takes no memory.
    pub fn version(&self) -> Version
        ensures { result ≡ version_of self.now }
    {
        self.version
    }

    /// The number of frames that are queued on a device, 0 for one that isn't there. Takes no memory.
    pub fn queued(&self, dev: Dev) -> u32
        ensures { (s : NodeState) → NodeStands S.stands self.now s → result ≡ queued_at
            (slice_get s.queues dev.0) }
    {
        count_frames(&self.lanes, dev.0 as usize)
    }

    /// What its frames bear: a stamp under version 2, with the number 0 until they are queued.
    #[tactic(auto, using(crate::proofs::StepLaws::mark_stands))]
    fn mark(&self) -> Option<Stamp>
        ensures value { result ≡ mark_on self.now }
        ensures stands { (s : NodeState) → NodeStands S.stands self.now s → result ≡ spec.mark s }
    {
        match self.version {
            Version::One => None,
            Version::Two => Some(Stamp {
                boot: self.boot,
                link: 0,
            }),
        }
    }

    /// The settled visit of a packet, after some acts: the routes and the neighbours are handed out for it, and given back.
    /// Condition: under version 1 the packet has no handler.
    #[tactic(auto, unfolding(node_core_spec::specs::Node::visit_step))]
    fn visit(
        &mut self,
        alloc: Global,
        before: ActList,
        packet: &CheckedPacket,
    ) -> Result<Acts, NoMemory>
        requires carried { MayCarry (mark_on self.old) packet.now.handler }
        ensures steps { Steps S.stands (λ s. spec.visit_step before s packet.now)
            self.old result self.new }
        ensures serial { self.new.serial ≡ self.old.serial }
    {
        let rows = self.routes.take_router(alloc)?;
        let mark = self.mark();
        let links = self.neighbours.take(alloc);
        let ctx = around(self.here, self.time, packet, links, rows);
        let turned = self
            .services
            .turn(alloc, &ctx, mark, &mut self.lanes, before, packet);
        let Ctx {
            neighbours,
            router,
            ..
        } = ctx;
        self.neighbours.put(neighbours);
        self.routes.keep_router(router);
        match turned {
            Ok(list) => Ok(Acts { list, frame: None }),
            Err(refused) => Err(refused),
        }
    }

    /// The visit of an injected packet, after some acts; the next injection gets the next serial number. Conditions: a serial
    /// number is left, and under version 1 the packet has no handler.
    fn visit_own(
        &mut self,
        alloc: Global,
        before: ActList,
        packet: &CheckedPacket,
    ) -> Result<Acts, NoMemory>
        requires left { self.old.serial < 18446744073709551615 }
        requires carried { MayCarry (mark_on self.old) packet.now.handler }
        ensures { Steps S.stands (λ s. spec.visit_step before (spec.next_serial s) packet.now)
            self.old result self.new }
    {
        let acts = self.visit(alloc, before, packet)?;
        self.serial += 1;
        Ok(acts)
    }

    /// An injection after some acts, where a serial number is left. Conditions: the bound is at most 65,535; the handler is none
    /// under version 1, and one that may handle or none under version 2.
    #[tactic(auto, using(crate::proofs::StepLaws::named_handles, crate::proofs::StepLaws::named_carries))]
    fn admit_next(
        &mut self,
        alloc: Global,
        before: ActList,
        chunk: CheckedChunk,
        bound: u32,
        handler: Option<Name>,
    ) -> Result<Acts, NoMemory>
        requires left { self.old.serial < 18446744073709551615 }
        requires small { bound ≤ 65535 }
        requires handler { MayName (version_of self.old) chunk handler }
        ensures { Steps S.stands (λ s. spec.inject_step before s chunk bound handler)
            self.old result self.new }
    {
        let packet = own_packet(alloc, self.here, self.serial, chunk, bound, handler)?;
        let injected = Act::Injected(own_family(self.here, self.serial), bound);
        let list = with_act(before, injected)?;
        self.visit_own(alloc, list, &packet)
    }

    /// An injection after some acts. Conditions: the bound is at most 65,535; the handler is none under version 1, and one that may
    /// handle or none under version 2.
    fn admit(
        &mut self,
        alloc: Global,
        before: ActList,
        chunk: CheckedChunk,
        bound: u32,
        handler: Option<Name>,
    ) -> Result<Acts, NoMemory>
        requires small { bound ≤ 65535 }
        requires handler { MayName (version_of self.old) chunk handler }
        ensures { Steps S.stands (λ s. spec.inject_step before s chunk bound handler)
            self.old result self.new }
    {
        if self.serial == u64::MAX {
            let list = with_act(before, Act::SerialsSpent)?;
            return Ok(Acts { list, frame: None });
        }
        self.admit_next(alloc, before, chunk, bound, handler)
    }

    /// The step of an injection. Conditions: the bound is at most 65,535; the handler is none under version 1, and one that may
    /// handle or none under version 2.
    pub fn inject(
        &mut self,
        alloc: Global,
        chunk: CheckedChunk,
        bound: u32,
        handler: Option<Name>,
    ) -> Result<Acts, NoMemory>
        requires small { bound ≤ 65535 }
        requires handler { MayName (version_of self.old) chunk handler }
        ensures { Steps S.stands (λ s. spec.inject_step [] s chunk bound handler)
            self.old result self.new }
    {
        let before = Items::from_vec(acts_room(alloc)?);
        self.admit(alloc, before, chunk, bound, handler)
    }

    /// A packet that goes on over a device. Condition: under version 1 it has no handler.
    fn send_on(
        &mut self,
        alloc: Global,
        dev: Dev,
        packet: &CheckedPacket,
        over: Dev,
    ) -> Result<Acts, NoMemory>
        requires carried { MayCarry (mark_on self.old) packet.now.handler }
        ensures { Steps S.stands (λ s. spec.onward s dev
            (spec.packet_sending (spec.mark s) (record { dev = over; packet = packet.now })))
            self.old result self.new }
    {
        let mut list = Vec::with_capacity(alloc, 2)?;
        let mark = self.mark();
        let sending = packet_sending(alloc, mark, over, packet)?;
        let act = send_one(&mut self.lanes, sending);
        list.push_reserved(Act::Arrived(dev));
        list.push_reserved(act);
        Ok(Acts {
            list: Items::from_vec(list),
            frame: None,
        })
    }

    /// A packet that goes on by a hop. Condition: under version 1 it has no handler.
    #[tactic(auto, unfolding(node_core_spec::specs::Node::forward_by))]
    fn forward_by(
        &mut self,
        alloc: Global,
        dev: Dev,
        packet: &CheckedPacket,
        hop: Hop,
    ) -> Result<Acts, NoMemory>
        requires carried { MayCarry (mark_on self.old) packet.now.handler }
        ensures { Steps S.stands (λ s. spec.forward_by s dev packet.now hop)
            self.old result self.new }
    {
        let reason = match hop {
            Hop::To(_, over) => return self.send_on(alloc, dev, packet, over),
            Hop::NoService => Reason::NoService,
            Hop::NoRoute => Reason::NoRoute,
        };
        let room = two_room(alloc)?;
        let dropped = Act::Dropped(reason, packet.family(), packet.bound());
        Ok(only_acts(room, Act::Arrived(dev), dropped))
    }

    /// Where a packet for another host goes next.
    fn hop(&self, alloc: Global, packet: &CheckedPacket) -> Result<Hop, NoMemory>
        ensures { (s : NodeState) → NodeStands S.stands self.now s → IfOk result
            (λ to. to ≡ hop (all_routes (routing_of s)) packet.now.route s.here packet.now.dest) }
    {
        let dest = packet.dest();
        let router = self.routes.router_to(alloc, dest)?;
        Ok(router.next(packet.route(), self.here, dest))
    }

    /// A packet for another host. Condition: under version 1 it has no handler.
    #[tactic(auto, unfolding(node_core_spec::specs::Node::forward_step))]
    fn forward(&mut self, alloc: Global, dev: Dev, packet: &CheckedPacket) -> Result<Acts, NoMemory>
        requires carried { MayCarry (mark_on self.old) packet.now.handler }
        ensures { Steps S.stands (λ s. spec.forward_step s dev packet.now)
            self.old result self.new }
    {
        if packet.bound() == 0 {
            let room = two_room(alloc)?;
            let dropped = Act::Dropped(Reason::NoBound, packet.family(), 0);
            return Ok(only_acts(room, Act::Arrived(dev), dropped));
        }
        let hop = self.hop(alloc, packet)?;
        self.forward_by(alloc, dev, packet, hop)
    }

    /// A packet arrives: one for this host is visited. Condition: under version 1 it has no handler.
    #[tactic(auto, unfolding(node_core_spec::specs::Node::packet_step))]
    fn take_in(&mut self, alloc: Global, dev: Dev, packet: &CheckedPacket) -> Result<Acts, NoMemory>
        requires carried { MayCarry (mark_on self.old) packet.now.handler }
        ensures { Steps S.stands (λ s. spec.packet_step s dev packet.now)
            self.old result self.new }
    {
        if packet.dest().0 != self.here.0 {
            return self.forward(alloc, dev, packet);
        }
        let before = one_act(acts_room(alloc)?, Act::Arrived(dev));
        self.visit(alloc, before, packet)
    }

    /// Whether a device leads to this neighbour.
    fn knows(&self, dev: Dev, host: Host) -> bool
        ensures { (s : NodeState) → NodeStands S.stands self.now s → result ≡ leads_to
            s.neighbours dev host }
    {
        leads_to(self.neighbours.as_slice(), dev, host)
    }

    /// Hears an advert on a device. Takes no memory.
    fn learn(&mut self, dev: Dev, advert: &Advert)
        ensures stands { (s : NodeState) → NodeStands S.stands self.old s → NodeStands S.stands
            self.new (spec.hearing s dev advert.now) }
        ensures same { version_of self.new ≡ version_of self.old }
    {
        self.routes.hear(dev, advert);
    }

    /// An advert arrives: it is heard where it comes from the neighbour on its device.
    #[tactic(auto, unfolding(node_core_spec::specs::Node::advert_step))]
    fn hear(&mut self, alloc: Global, dev: Dev, advert: &Advert) -> Result<Acts, NoMemory>
        ensures { Steps S.stands (λ s. spec.advert_step s dev advert.now)
            self.old result self.new }
    {
        let room = two_room(alloc)?;
        if !self.knows(dev, advert.host) {
            return Ok(only_acts(room, Act::Arrived(dev), Act::Misplaced));
        }
        self.learn(dev, advert);
        Ok(only_acts(room, Act::Arrived(dev), Act::Heard(dev)))
    }

    /// A frame arrives. Condition: under version 1 a packet has no handler.
    fn arrive_frame(&mut self, alloc: Global, dev: Dev, frame: &Frame) -> Result<Acts, NoMemory>
        requires { MayGoOn (mark_on self.old) (plain_of frame.now) }
        ensures { Steps S.stands (λ s. spec.frame_step s dev (plain_of frame.now))
            self.old result self.new }
    {
        match frame {
            Frame::Packet(packet) => self.take_in(alloc, dev, packet),
            Frame::Advert(advert) => self.hear(alloc, dev, advert),
            Frame::Ask(_, _) => {
                let room = two_room(alloc)?;
                Ok(only_acts(room, Act::Arrived(dev), Act::Misplaced))
            }
        }
    }

    /// What a device takes a frame with this stamp as. Condition: under version 1 it has none. Takes no memory.
    #[tactic(auto, unfolding(node_core_spec::specs::Node::takes_as), using(crate::proofs::StepLaws::stamp_seen))]
    fn judge(&self, dev: Dev, stamp: Option<Stamp>) -> Took
        requires { MayBear (version_of self.now) stamp }
        ensures { (s : NodeState) → NodeStands S.stands self.now s → result ≡ spec.takes_as
            s.seen dev stamp }
    {
        match stamp {
            None => Took::Fresh,
            Some(stamp) => judge(&self.windows, dev, stamp),
        }
    }

    /// Takes a fresh stamp on a device. Condition: under version 1 there is none. Takes no memory.
    #[tactic(auto, unfolding(node_core_spec::specs::Node::takes_as, node_core_spec::specs::Node::seen_then), using(crate::proofs::StepLaws::stamp_seen, crate::proofs::StepLaws::stamp_noted))]
    fn note(&mut self, dev: Dev, stamp: Option<Stamp>)
        requires { MayBear (version_of self.old) stamp }
        ensures stands { (s : NodeState) → NodeStands S.stands self.old s → spec.takes_as s.seen dev
            stamp ≡ FreshOne → NodeStands S.stands self.new
            (spec.with_seen (spec.seen_then s.seen dev stamp) s) }
        ensures same { version_of self.new ≡ version_of self.old }
    {
        let Some(stamp) = stamp else {
            return;
        };
        note(&mut self.windows, dev, stamp);
    }

    /// A frame with its stamp arrives: it is stale where its stamp isn't fresh on its device, and else its stamp is taken.
    /// Conditions: under version 1 it has none, and a packet has no handler.
    #[tactic(auto, unfolding(node_core_spec::specs::Node::stamped_step))]
    fn arrive_stamped(
        &mut self,
        alloc: Global,
        dev: Dev,
        stamp: Option<Stamp>,
        frame: &Frame,
    ) -> Result<Acts, NoMemory>
        requires borne { MayBear (version_of self.old) stamp }
        requires carried { MayGoOn (mark_on self.old) (plain_of frame.now) }
        ensures { Steps S.stands
            (λ s. spec.stamped_step s dev (with_stamp stamp (plain_of frame.now)))
            self.old result self.new }
    {
        match self.judge(dev, stamp) {
            Took::Fresh => {
                let acts = self.arrive_frame(alloc, dev, frame)?;
                self.note(dev, stamp);
                Ok(acts)
            }
            Took::Repeated => stale_step(alloc, dev, Took::Repeated, frame),
            Took::TooOld => stale_step(alloc, dev, Took::TooOld, frame),
        }
    }

    /// Keeps the program of a frame's chunk, where it has one. Takes no memory.
    fn remember(&mut self, frame: &Frame)
        ensures stands { (s : NodeState) → NodeStands S.stands self.old s → NodeStands
            S.stands self.new s }
        ensures same { version_of self.new ≡ version_of self.old }
        ensures mark { mark_on self.new ≡ mark_on self.old }
    {
        if let Some(program) = code_of(frame) {
            self.known = Some(program);
        }
    }

    /// The step of bytes that arrive over a device. The program of a frame that is read is kept.
    #[tactic(auto, unfolding(node_core_spec::specs::Node::arrive_step))]
    pub fn arrive(&mut self, alloc: Global, dev: Dev, bytes: &[u8]) -> Result<Acts, NoMemory>
        ensures { Steps S.stands (λ s. spec.arrive_step s dev bytes.now)
            self.old result self.new }
    {
        match read_as(alloc, bytes, self.version, self.known.as_ref()) {
            Ok(stamped) => {
                self.remember(&stamped.frame);
                self.arrive_stamped(alloc, dev, stamped.stamp, &stamped.frame)
            }
            Err(fault) => {
                let refusal = refusal_of(fault)?;
                let room = two_room(alloc)?;
                Ok(only_acts(room, Act::Arrived(dev), Act::Bad(refusal)))
            }
        }
    }

    /// The step of a frame that arrives over a device from a node of the same version. It isn't spelled, but for a node of
    /// another version.
    pub fn arrive_spelled(
        &mut self,
        alloc: Global,
        dev: Dev,
        frame: &EncodedFrame,
    ) -> Result<Acts, NoMemory>
        ensures { StepsWhere S.stands (λ s. IsMarked s.version frame.now.stamp)
            (λ s. spec.stamped_step s dev frame.now) self.old result self.new }
    {
        let stamp = frame.stamp();
        match frame.frame(self.version) {
            Some(own) => self.arrive_stamped(alloc, dev, stamp, own),
            None => {
                let bytes = frame.to_bytes(alloc)?;
                self.arrive(alloc, dev, bytes.as_slice())
            }
        }
    }

    /// What the owner asked.
    #[tactic(auto, using(crate::proofs::StepLaws::none_named))]
    fn ask_frame(&mut self, alloc: Global, frame: Frame) -> Result<Acts, NoMemory>
        requires { asks_within (plain_of frame) }
        ensures { Steps S.stands (λ s. spec.asked_plain s (plain_of frame))
            self.old result self.new }
    {
        match frame {
            Frame::Ask(bound, chunk) => {
                let before = one_act(acts_room(alloc)?, Act::Asked);
                self.admit(alloc, before, chunk, bound, None)
            }
            _ => {
                let room = two_room(alloc)?;
                Ok(only_acts(room, Act::Asked, Act::Misplaced))
            }
        }
    }

    /// What the owner asked was read, and its program is kept.
    fn ask_read(&mut self, alloc: Global, stamped: Stamped) -> Result<Acts, NoMemory>
        requires { asks_within (plain_of stamped.frame) }
        ensures { Steps S.stands (λ s. spec.asked_plain s (plain_of stamped.frame))
            self.old result self.new }
    {
        self.remember(&stamped.frame);
        self.ask_frame(alloc, stamped.frame)
    }

    /// Bytes arrive from the owner: an ask is an injection.
    #[tactic(auto, unfolding(node_core_spec::specs::Node::control_step))]
    fn control(&mut self, alloc: Global, bytes: &[u8]) -> Result<Acts, NoMemory>
        ensures { Steps S.stands (λ s. spec.control_step s bytes.now)
            self.old result self.new }
    {
        match read_as(alloc, bytes, self.version, self.known.as_ref()) {
            Ok(stamped) => self.ask_read(alloc, stamped),
            Err(fault) => {
                let refusal = refusal_of(fault)?;
                let room = two_room(alloc)?;
                Ok(only_acts(room, Act::Asked, Act::Bad(refusal)))
            }
        }
    }

    /// The advert for each neighbour.
    #[tactic(auto, unfolding(node_core_spec::specs::Node::tick_sends))]
    fn adverts(&self, alloc: Global) -> Result<Leavings, NoMemory>
        ensures { (s : NodeState) → NodeStands S.stands self.now s → IfOk result
            (λ sends. sends ≡ spec.tick_sends s) }
    {
        let advert = self.routes.advert(alloc)?;
        let sends = advert_sendings(alloc, self.mark(), advert, self.neighbours.as_slice())?;
        Ok(sends)
    }

    /// The step of a tick: rows that have expired go, and the advert is queued for each neighbour.
    #[tactic(auto, unfolding(node_core_spec::specs::Node::tick_step))]
    pub fn tick(&mut self, alloc: Global) -> Result<Acts, NoMemory>
        ensures { Steps S.stands spec.tick_step self.old result self.new }
    {
        let now = next_tick(self.time);
        let sends = self.adverts(alloc)?;
        let mut acts = ticked(alloc, now, sends.len())?;
        self.services.expire(now);
        self.time = now;
        send_all(&mut acts, &mut self.lanes, sends);
        Ok(Acts {
            list: Items::from_vec(acts),
            frame: None,
        })
    }

    /// The step that takes the first frame of a device.
    #[tactic(auto, unfolding(node_core_spec::specs::Node::take_step))]
    pub fn take(&mut self, alloc: Global, dev: Dev) -> Result<Acts, NoMemory>
        ensures { Steps S.stands (λ s. spec.take_step s dev)
            self.old result self.new }
    {
        let room = Vec::with_capacity(alloc, 1)?;
        let at = dev.0 as usize;
        if has_frame(&self.lanes, at) {
            let frame = take_first(&mut self.lanes, at);
            Ok(taken(room, dev, frame))
        } else {
            Ok(none_taken(room))
        }
    }

    /// The step of an injection whose chunk and handler are lent. Conditions: as of `inject`.
    fn inject_again(
        &mut self,
        alloc: Global,
        chunk: &CheckedChunk,
        bound: u32,
        handler: &Option<Name>,
    ) -> Result<Acts, NoMemory>
        requires small { bound ≤ 65535 }
        requires handler { MayName (version_of self.old) chunk.now handler.now }
        ensures { Steps S.stands (λ s. spec.inject_step [] s chunk.now bound handler.now)
            self.old result self.new }
    {
        let handler = copy_handler(alloc, handler)?;
        let chunk = chunk.copy(alloc)?;
        self.inject(alloc, chunk, bound, handler)
    }

    /// One step, as the definition has it for each state that the node stands for: in balance for each family, and
    /// keeping what every node keeps. Where an allocation fails, the node stays. Conditions: an injected bound is at most 65,535 and
    /// its handler none under version 1, and one that may handle or none under version 2; a device is at most 8.
    pub fn step(&mut self, alloc: Global, event: &Event) -> Result<Acts, NoMemory>
        requires { comes_within (version_of self.old) event.now }
        ensures steps { Steps S.stands (λ s. spec.node_step s event.now)
            self.old result self.new }
        ensures balance { (f : FamilyOf) (s : NodeState) → StepBalances f (came f s event.now)
            (stale f s event.now) s (spec.node_step s event.now) }
        ensures keeps { (s : NodeState) → comes_fit s.version event.now → NodeFits s → NodeFits
            (spec.node_step s event.now).node }
    {
        match event {
            Event::Inject(chunk, bound, handler) => {
                self.inject_again(alloc, chunk, *bound, handler)
            }
            Event::Frame(dev, bytes) => self.arrive(alloc, *dev, bytes.as_slice()),
            Event::Control(bytes) => self.control(alloc, bytes.as_slice()),
            Event::Tick => self.tick(alloc),
            Event::Take(dev) => self.take(alloc, *dev),
        }
    }
}
