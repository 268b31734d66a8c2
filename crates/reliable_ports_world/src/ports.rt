//! Two ends, their purses, and the network between them.
ghost use Rattle.std.specs.Prelude.{◌≡◌, ◌≤◌, ◌<◌, ◌+◌, ◌*◌, ◌^◌, [], length, map, None, IfOk, OnOk};
ghost use Rattle.plan_base.specs.declared.stamp.Version.TheVariants.{Two};
ghost use Rattle.network_config.specs.declared.event.WorldEvent.TheVariants as happens;
ghost use Rattle.net_world_spec.specs.World.{opening, opening_services};
ghost use Rattle.net_world_spec.specs.Sound.{event_fits};
ghost use Rattle.reliable_ports.specs.Ends.{IsShort, offered_count, held_at};
ghost use Rattle.reliable_ports_world.specs.Ports as spec;
ghost use Rattle.reliable_ports_world.specs.Ports.{PortState};
ghost use Rattle.command_files.specs.PortRules.{KeepsEvent};
ghost use Rattle.reliable_ports_world.specs.Networks.{two_hosts};
ghost use Rattle.reliable_ports_world.specs.Scripts.{happening};
ghost use Rattle.reliable_ports_world.specs.Told as told;
ghost use Rattle.reliable_ports_world.specs.Limits.{FewAfter, HearsFew, WireFew, EventFew};
ghost use Rattle.reliable_ports_world.specs.Stands.{PortStands, Goes, IsStanding, IsMade, IsReady, budget};

use crate::hosts::two_hosts;
use crate::notes::{is_nothing, note_in, said_to};
use crate::told::{PortLine, put_told};
use checked_chunks::CheckedChunk;
use command_files::PortEvent;
use containers::Items;
use net_world::World;
use net_world_spec::{Line, Lines};
use network_config::WorldEvent;
use plan_base::{Bytes, Host, NoMemory};
use reliable_ports::{AckFault, OfferFault, Receiver, Sender, TransmitFault};
use remote_calls::Purse;
use service_api::{Note, Services};
use std::alloc::Global;

/// The host of the end that offers messages.
const FIRST: Host = Host(1);

/// The host of the end that delivers them.
const SECOND: Host = Host(2);

/// The port to which messages are delivered.
const MESSAGES: u16 = 1;

/// The port to which acks are delivered.
const ACKS: u16 = 2;

/// What a message and an ack pay, which is the bound of what is injected.
const PRICE: u32 = 4;

/// The injection of a message or an ack, with the bound that its end paid.
fn injection(host: Host, chunk: CheckedChunk) -> WorldEvent
    ensures event { result ≡ happens.Inject host chunk 4 None }
    ensures fits { event_fits Two result }
{
    let _kept = chunk.chunk();
    WorldEvent::Inject(host, chunk, PRICE, None)
}

/// Two ends of a reliable port, their purses, and the network between them.
#[derive(Drop)]
pub struct Ports<S: Services> {
    /// The network.
    pub world: World<S>,
    /// The end that offers messages, at host 1.
    pub sender: Sender,
    /// The end that delivers them, at host 2.
    pub receiver: Receiver,
    /// The purse of the first end.
    pub first: Purse,
    /// The purse of the second.
    pub second: Purse,
}

impl<S: Services + Drop> Ports<S> {
    /// Two ends that were offered and heard nothing, with these purses. `services`: one for each host. Conditions: the
    /// purses are at most 65,535.
    pub fn begin(
        alloc: Global,
        first: u32,
        second: u32,
        services: Items<S>,
    ) -> Result<Ports<S>, NoMemory>
        requires first { first ≤ 65535 }
        requires second { second ≤ 65535 }
        requires services { map S.stands services ≡ map opening_services two_hosts.hosts }
        ensures stands { IfOk result (λ p.
            PortStands S.stands p (spec.port_begun (opening two_hosts) first second)) }
        ensures cost { IfOk result (λ p. budget p ≡ second) }
    {
        let topology = two_hosts(alloc)?;
        let world = World::new(alloc, &topology, services)?;
        let sender = Sender::new(alloc)?;
        let receiver = Receiver::new(alloc)?;
        Ok(Ports {
            world,
            sender,
            receiver,
            first: Purse::of(first),
            second: Purse::of(second),
        })
    }
}

impl<S: Services> Ports<S> {
    /// Makes an event of the network, and gives its lines. Conditions: the event fits, and there is room to count it.
    fn make(&mut self, alloc: Global, event: WorldEvent) -> Result<Lines, NoMemory>
        requires ready { IsStanding S.stands self.old }
        requires fits { event_fits Two event }
        requires room { budget self.old + 4 ≤ 2 ^ 32 }
        ensures made { (s : PortState) → PortStands S.stands self.old s
            → IfOk result (λ lines. IsMade S.stands event s lines self.new) }
        ensures cost { OnOk result (budget self.new ≡ budget self.old + 4) }
    {
        self.world.step(alloc, event)
    }

    /// Makes the second host's ack of all that was delivered, where its purse pays; else that is reported.
    fn acknowledge(&mut self, alloc: Global, number: u64, text: &mut Bytes) -> Result<(), NoMemory>
        requires ready { IsStanding S.stands self.old }
        requires few { length self.old.receiver.delivered < 2 ^ 62 }
        requires room { budget self.old ≤ 2 ^ 32 }
        ensures goes { (s : PortState) → PortStands S.stands self.old s
            → OnOk result (Goes S.stands self.new
            (spec.acks s) (told.ack_told number s) text.old text.new) }
        ensures cost { OnOk result (budget self.new ≡ budget self.old) }
    {
        match self.receiver.ack(alloc, &mut self.second, FIRST) {
            Ok(chunk) => {
                let event = injection(SECOND, chunk);
                self.make(alloc, event)?;
                Ok(())
            }
            Err(AckFault::NoBound) => put_told(alloc, text, number, PortLine::NoBound),
            Err(AckFault::NoMemory) => Err(NoMemory),
        }
    }

    /// Hears a note of the second host: a message is acknowledged.
    fn hear_message(
        &mut self,
        alloc: Global,
        number: u64,
        note: &Note,
        text: &mut Bytes,
    ) -> Result<(), NoMemory>
        requires ready { IsReady S.stands self.old
            (FewAfter (spec.hears_message (spec.said_to 1 note.now))) }
        requires room { budget self.old ≤ 2 ^ 32 }
        ensures goes { (s : PortState) → PortStands S.stands self.old s
            → OnOk result (Goes S.stands self.new
            (spec.hears_message (spec.said_to 1 note.now) s)
            (told.message_told number (spec.said_to 1 note.now) s) text.old text.new) }
        ensures cost { OnOk result (budget self.new ≡ budget self.old) }
    {
        let Some(given) = said_to(MESSAGES, note) else {
            return Ok(());
        };
        self.receiver.heard(alloc, given.number(), given.body())?;
        self.acknowledge(alloc, number, text)
    }

    /// Hears a note of the first host: an ack.
    fn hear_ack(&mut self, note: &Note)
        ensures stands { (s : PortState) → PortStands S.stands self.old s
            → PortStands S.stands self.new (spec.hears_ack (spec.said_to 2 note.now) s) }
        ensures cost { budget self.new ≡ budget self.old }
    {
        let Some(given) = said_to(ACKS, note) else {
            return;
        };
        self.sender.heard(given.number());
    }

    /// Hears a note of a host.
    fn hear_note(
        &mut self,
        alloc: Global,
        number: u64,
        host: Host,
        note: &Note,
        text: &mut Bytes,
    ) -> Result<(), NoMemory>
        requires ready { IsReady S.stands self.old (FewAfter (spec.hears_note host note.now)) }
        requires room { budget self.old ≤ 2 ^ 32 }
        ensures goes { (s : PortState) → PortStands S.stands self.old s
            → OnOk result (Goes S.stands self.new (spec.hears_note host note.now s)
            (told.note_told number host note.now s) text.old text.new) }
        ensures cost { OnOk result (budget self.new ≡ budget self.old) }
    {
        if host.0 == 2 {
            return self.hear_message(alloc, number, note, text);
        }
        if host.0 != 1 {
            return Ok(());
        }
        self.hear_ack(note);
        Ok(())
    }

    /// Hears a line of an event, and says that the event changed nothing where the line says so.
    fn hear_line(
        &mut self,
        alloc: Global,
        number: u64,
        line: &Line,
        text: &mut Bytes,
    ) -> Result<(), NoMemory>
        requires ready { IsReady S.stands self.old (FewAfter (spec.hears_line line.now)) }
        requires room { budget self.old ≤ 2 ^ 32 }
        ensures goes { (s : PortState) → PortStands S.stands self.old s
            → OnOk result (Goes S.stands self.new (spec.hears_line line.now s)
            (told.heard_told number line.now s) text.old text.new) }
        ensures cost { OnOk result (budget self.new ≡ budget self.old) }
    {
        if is_nothing(line) {
            return put_told(alloc, text, number, PortLine::Nothing);
        }
        let Some(heard) = note_in(line) else {
            return Ok(());
        };
        self.hear_note(alloc, number, heard.host, heard.note, text)
    }

    /// Hears the lines of an event, in order.
    fn hear(
        &mut self,
        alloc: Global,
        number: u64,
        lines: &[Line],
        text: &mut Bytes,
    ) -> Result<(), NoMemory>
        requires ready { IsReady S.stands self.old (HearsFew lines.now) }
        requires room { budget self.old ≤ 2 ^ 32 }
        ensures goes { (s : PortState) → PortStands S.stands self.old s
            → OnOk result (Goes S.stands self.new (spec.hears lines.now s)
            (told.lines_told number lines.now s) text.old text.new) }
        ensures cost { OnOk result (budget self.new ≡ budget self.old) }
    {
        for line in lines {
            self.hear_line(alloc, number, line, text)?;
        }
        Ok(())
    }

    /// Makes an event of the network, and hears what it gives.
    fn wire(
        &mut self,
        alloc: Global,
        number: u64,
        event: WorldEvent,
        text: &mut Bytes,
    ) -> Result<(), NoMemory>
        requires ready { IsReady S.stands self.old (WireFew event) }
        requires fits { event_fits Two event }
        requires room { budget self.old + 4 ≤ 2 ^ 32 }
        ensures goes { (s : PortState) → PortStands S.stands self.old s
            → OnOk result (Goes S.stands self.new (spec.after event s)
            (told.wire_told number event s) text.old text.new) }
        ensures cost { OnOk result (budget self.new ≡ budget self.old + 4) }
    {
        let lines = self.make(alloc, event)?;
        self.hear(alloc, number, lines.as_slice(), text)
    }

    /// Offers a body, and says where the sender is full.
    fn offer(
        &mut self,
        alloc: Global,
        number: u64,
        body: &Bytes,
        text: &mut Bytes,
    ) -> Result<(), NoMemory>
        requires few { offered_count self.old.sender < 2 ^ 62 }
        requires short { IsShort body.now }
        ensures goes { (s : PortState) → PortStands S.stands self.old s
            → OnOk result (Goes S.stands self.new (spec.offers_one body.now s)
            (told.offer_told number s) text.old text.new) }
        ensures cost { budget self.new ≡ budget self.old }
    {
        match self.sender.offer(alloc, body) {
            Ok(_) => Ok(()),
            Err(OfferFault::Full) => put_told(alloc, text, number, PortLine::Full),
            Err(OfferFault::NoMemory) => Err(NoMemory),
        }
    }

    /// Transmits a message, where it is held and the first purse pays; else that is reported.
    fn transmit(
        &mut self,
        alloc: Global,
        number: u64,
        seq: u64,
        text: &mut Bytes,
    ) -> Result<(), NoMemory>
        requires ready { IsReady S.stands self.old (EventFew (spec.Transmit seq)) }
        requires room { budget self.old + 4 ≤ 2 ^ 32 }
        ensures goes { (s : PortState) → PortStands S.stands self.old s
            → OnOk result (Goes S.stands self.new
            (spec.transmits seq (held_at seq s.sender) s)
            (told.transmit_told number seq (held_at seq s.sender) s) text.old text.new) }
        ensures cost { OnOk result (budget self.new ≤ budget self.old + 4) }
    {
        match self.sender.transmit(alloc, &mut self.first, seq, SECOND) {
            Ok(chunk) => {
                let event = injection(FIRST, chunk);
                self.wire(alloc, number, event, text)
            }
            Err(TransmitFault::NotHeld) => put_told(alloc, text, number, PortLine::Nothing),
            Err(TransmitFault::NoBound) => put_told(alloc, text, number, PortLine::NoBound),
            Err(TransmitFault::NoMemory) => Err(NoMemory),
        }
    }

    /// One event of a script, with its number, and what it adds to the output. Conditions: the event keeps the rules, there
    /// is room to count it, and fewer than 2^62 bodies are offered and delivered.
    pub fn event(
        &mut self,
        alloc: Global,
        number: u64,
        event: &PortEvent,
        text: &mut Bytes,
    ) -> Result<(), NoMemory>
        requires ready { IsReady S.stands self.old (EventFew (happening event.now)) }
        requires keeps { KeepsEvent event.now }
        requires room { budget self.old + 4 ≤ 2 ^ 32 }
        ensures goes { (s : PortState) → PortStands S.stands self.old s
            → OnOk result (Goes S.stands self.new (spec.happens_at (happening event.now) s)
            (told.event_told number (happening event.now) s) text.old text.new) }
        ensures cost { OnOk result (budget self.new ≤ budget self.old + 4) }
    {
        match event {
            PortEvent::Offer(body) => self.offer(alloc, number, body, text),
            PortEvent::Transmit(seq) => self.transmit(alloc, number, *seq, text),
            PortEvent::Send(host, dev) => {
                self.wire(alloc, number, WorldEvent::Send(*host, *dev), text)
            }
            PortEvent::Deliver(k) => self.wire(alloc, number, WorldEvent::Deliver(*k), text),
            PortEvent::Lose(k) => self.wire(alloc, number, WorldEvent::Lose(*k), text),
            PortEvent::Repeat(k) => self.wire(alloc, number, WorldEvent::Repeat(*k), text),
        }
    }
}
