//! A link in memory, whose arrivals are a script.
ghost use Rattle.std.specs.Prelude.{◌≡◌, ◌++◌, ◌∷◌, [], ◌⊎◌, ◌↔◌, true, length, min, take, drop, IfOk, IfSome, IsNone, IsTrue, IsErr, OnOk, OnErr, MatchResult};
ghost use Rattle.node_io.specs.Links.{has_peer, HasPeer, IsFrameOfPeer, IsHeard, Hears, Sends, Binds};
ghost use Rattle.node_io.specs.Memory.{link_state, IsDueAtLink, LinkLacksMemory, CountsAtLink};

use crate::counts::{is_due, raise};
use crate::link::{Arrival, Arrivals, Got, Link, MOST_RECEIVED, Peer, Peers, SentFrames};
use crate::outside::{Calls, Failed};
use containers::Items;
use plan_base::{Bytes, Dev, NoMemory};
use std::alloc::{AllocError, Global};

/// A link in memory, whose arrivals are a script.
#[derive(Drop)]
pub struct MemLink {
    alloc: Global,
    script: Arrivals,
    // the entries of the script that were taken
    taken: usize,
    sent: SentFrames,
    binds: Items<(u16, Peers)>,
    peers: Peers,
    fails: Calls,
    // the calls so far, the growths that found no memory, and the faults
    calls: u64,
    refused: u64,
    faults: u64,
}

impl MemLink {
    /// A link with this script, whose calls with the numbers in `fails`, from 1, fail.
    pub fn new(alloc: Global, script: Arrivals, fails: Calls) -> Result<MemLink, NoMemory>
        ensures { IfOk result
            (λ l. (l.script ≡ script) × (l.taken ≡ 0) × (l.sent ≡ []) × (l.binds ≡ [])
            × (l.peers ≡ []) × (l.fails ≡ fails)
            × (l.calls ≡ 0) × (l.refused ≡ 0) × (l.faults ≡ 0)) }
    {
        Ok(MemLink {
            alloc,
            script,
            taken: 0,
            sent: SentFrames::new(alloc),
            binds: Items::new(alloc),
            peers: Peers::new(alloc),
            fails,
            calls: 0,
            refused: 0,
            faults: 0,
        })
    }

    /// The frames sent so far.
    pub fn sent(&self) -> &SentFrames
        ensures { result.now ≡ (⟦<MemLink as Link>⟧.state self.now).sent }
    {
        &self.sent
    }
}

fn has_peer(peers: &[Peer], dev: Dev) -> bool
    ensures { result ≡ has_peer peers.now dev }
{
    peers.iter().any(|peer| peer.dev.0 == dev.0)
}

// Puts the first 16,513 bytes at the front of `buf`, and answers their number.
#[tactic(auto, using(crate::proofs::Taking::front_put))]
fn put_front(bytes: &[u8], buf: &mut [u8]) -> usize
    requires { length buf.old ≡ 16513 }
    ensures count { result ≡ min (length bytes.now) 16513 }
    ensures front { take result buf.new ≡ take 16513 bytes.now }
    ensures room { length buf.new ≡ length buf.old }
{
    let count = bytes.len().min(MOST_RECEIVED);
    buf[..count].copy_from_slice(&bytes[..count]);
    count
}

// What is received where this comes, with its bytes at the front of `buf`.
fn hear(arrival: &Arrival, peers: &Peers, buf: &mut [u8]) -> Got
    requires { length buf.old ≡ 16513 }
    ensures frame { IsFrameOfPeer peers.now result }
    ensures heard { IsHeard peers.now arrival.now result buf.new }
    ensures room { length buf.new ≡ length buf.old }
{
    match arrival {
        Arrival::Quiet => Got::Nothing,
        Arrival::On(dev, bytes) => {
            if bytes.len() == 0 || !has_peer(peers.as_slice(), *dev) {
                return Got::Nothing;
            }
            Got::Frame(*dev, put_front(bytes.as_slice(), buf))
        }
    }
}

// Adds the bind to the binds asked, and answers a copy of its peers unless the call is due to fail.
fn note_bind(
    alloc: Global,
    binds: &mut Items<(u16, Peers)>,
    port: u16,
    peers: &Peers,
    due: bool,
) -> Result<Option<Peers>, AllocError>
    ensures copied { IfOk result (λ r. IfSome r (λ copy. copy ≡ peers.now)) }
    ensures asked { MatchResult result
        (λ _. binds.new ≡ binds.old ++ (port, peers.now) ∷ [])
        (λ _. (binds.new ≡ binds.old) ⊎ (binds.new ≡ binds.old ++ (port, peers.now) ∷ [])) }
    ensures due { IfOk result (λ r. IsNone r ↔ IsTrue due) }
{
    let asked = Items::from_slice(alloc, peers.as_slice())?;
    binds.add((port, asked))?;
    if due {
        return Ok(None);
    }
    Ok(Some(Items::from_slice(alloc, peers.as_slice())?))
}

fn note_sent(alloc: Global, sent: &mut SentFrames, dev: Dev, bytes: &[u8]) -> Result<(), AllocError>
    ensures ok { OnOk result (sent.new ≡ sent.old ++ (dev, bytes.now) ∷ []) }
    ensures err { OnErr result (sent.new ≡ sent.old) }
{
    let mut frame = Bytes::new(alloc);
    frame.add_all(bytes)?;
    sent.add((dev, frame))
}

impl Link for MemLink {
    ghost state = { link_state };

    fn bind(&mut self, port: u16, peers: &Peers) -> Result<(), Failed>
        ensures binds { Binds (port, peers.now) (link_state self.old) (link_state self.new) result }
        ensures due { IsDueAtLink self.old → IsErr result }
        ensures only { OnErr result (IsDueAtLink self.old ⊎ LinkLacksMemory self.old self.new) }
        ensures asked { OnErr result
            ((self.new.binds ≡ self.old.binds ++ (port, peers.now) ∷ [])
            ⊎ LinkLacksMemory self.old self.new) }
        ensures counted { CountsAtLink self.old self.new }
    {
        raise(&mut self.calls);
        let due = is_due(self.fails.as_slice(), self.calls);
        match note_bind(self.alloc, &mut self.binds, port, peers, due) {
            Ok(Some(peers)) => {
                self.peers = peers;
                Ok(())
            }
            Ok(None) => {
                self.peers = Peers::new(self.alloc);
                raise(&mut self.faults);
                Err(Failed)
            }
            Err(_) => {
                self.peers = Peers::new(self.alloc);
                raise(&mut self.refused);
                raise(&mut self.faults);
                Err(Failed)
            }
        }
    }

    #[tactic(auto, using(crate::proofs::Taking::hears_next))]
    fn recv(&mut self, buf: &mut [u8]) -> Got
        requires { length buf.old ≡ 16513 }
        ensures hears { Hears buf.new (link_state self.old) (link_state self.new) result }
        ensures room { length buf.new ≡ length buf.old }
        ensures due { (result ≡ Got.Failed) ↔ IsDueAtLink self.old }
        ensures counted { CountsAtLink self.old self.new }
    {
        raise(&mut self.calls);
        if is_due(self.fails.as_slice(), self.calls) {
            raise(&mut self.faults);
            return Got::Failed;
        }
        if self.taken >= self.script.len() {
            return Got::Nothing;
        }
        let arrival = self.script.at(self.taken);
        self.taken += 1;
        hear(arrival, &self.peers, buf)
    }

    fn send(&mut self, dev: Dev, bytes: &[u8]) -> Result<(), Failed>
        requires { HasPeer self.old.peers dev }
        ensures sends { Sends (dev, bytes.now) (link_state self.old) (link_state self.new) result }
        ensures due { IsDueAtLink self.old → IsErr result }
        ensures only { OnErr result (IsDueAtLink self.old ⊎ LinkLacksMemory self.old self.new) }
        ensures counted { CountsAtLink self.old self.new }
    {
        raise(&mut self.calls);
        if is_due(self.fails.as_slice(), self.calls) {
            raise(&mut self.faults);
            return Err(Failed);
        }
        if note_sent(self.alloc, &mut self.sent, dev, bytes).is_err() {
            raise(&mut self.refused);
            raise(&mut self.faults);
            return Err(Failed);
        }
        Ok(())
    }
}
