//! The end that offers messages until they are acknowledged.
ghost use Rattle.std.specs.Prelude.{◌≡◌, ◌+◌, ◌<◌, ◌≤◌, ◌^◌, length, true, false, slice_get, IfOk, OnOk, Err, ◌↔◌, OnErr};
ghost use Rattle.std.specs.Option.{option_copied};
ghost use Rattle.reliable_ports.specs.Ends as spec;
ghost use Rattle.reliable_ports.specs.declared.sender.TransmitFault.TheVariants as fault;

use crate::chunks::{data_chunk, port_code};
use crate::ends::{body_in, drop_front, push_last};
use crate::number::{PRICE, WINDOW, number_of};
use checked_chunks::{Checked, CheckedChunk};
use plan_base::{Bytes, Host, NoMemory};
use remote_calls::Purse;
use std::alloc::Global;
use std::collections::VecDeque;
use std::marker::Model;

/// What an acknowledgement did.
#[derive(Clone, Copy, PartialEq, Eq)]
pub enum Ack {
    /// More is acknowledged than before.
    Moved,
    /// No more than was acknowledged already.
    Old,
    /// It is of no message that was offered.
    Stranger,
}

/// Why a message isn't taken.
#[derive(Clone, Copy, PartialEq, Eq)]
pub enum OfferFault {
    /// 64 messages are offered and not acknowledged.
    Full,
    /// An allocation failed.
    NoMemory,
}

impl From<NoMemory> for OfferFault {
    ghost use Rattle.reliable_ports.specs.declared.sender.OfferFault.TheVariants.{NoMemory};

    ghost from_gives = { λ _ r. r ≡ NoMemory };

    fn from(_refused: NoMemory) -> OfferFault {
        OfferFault::NoMemory
    }
}

/// Why a message isn't transmitted.
#[derive(Clone, Copy, PartialEq, Eq)]
pub enum TransmitFault {
    /// It isn't offered, or is acknowledged.
    NotHeld,
    /// The purse holds less than 4.
    NoBound,
    /// An allocation failed.
    NoMemory,
}

impl From<NoMemory> for TransmitFault {
    ghost use Rattle.reliable_ports.specs.declared.sender.TransmitFault.TheVariants.{NoMemory};

    ghost from_gives = { λ _ r. r ≡ NoMemory };

    fn from(_refused: NoMemory) -> TransmitFault {
        TransmitFault::NoMemory
    }
}

/// The end that offers messages, which contracts see as how many are acknowledged and the bodies of the others.
#[derive(Drop)]
pub struct Sender {
    acked: u64,
    held: VecDeque<Bytes>,
    code: Checked,
}

impl Model for Sender {
    ghost use Rattle.std.specs.Prelude.{◌≡◌, ◌+◌, ◌≤◌, ◌^◌, length};
    ghost use Rattle.reliable_ports.specs.Programs.{port_program};
    ghost use Rattle.reliable_ports.specs.Ends.{Sending, AllShort};

    ghost Value = { Sending };

    ghost view = { λ s. record { acked = s.acked; held = s.held.items } };

    ghost invariant = { λ s. (s.acked + length s.held.items ≤ 2 ^ 62)
        × ((length s.held.items ≤ 64) × (AllShort s.held.items × (s.code ≡ port_program))) };
}

impl Sender {
    /// A sender that was offered nothing.
    pub fn new(alloc: Global) -> Result<Sender, NoMemory>
        ensures { IfOk result (λ s. s ≡ spec.no_offers) }
    {
        let code = port_code(alloc)?;
        Ok(Sender {
            acked: 0,
            held: VecDeque::new(alloc),
            code,
        })
    }

    /// How many messages were offered. Takes no memory.
    pub fn offered(&self) -> u64
        ensures value { result ≡ spec.offered_count self.now }
        ensures few { result ≤ 2 ^ 62 }
    {
        self.acked + self.held.len() as u64
    }

    /// How many messages are acknowledged. Takes no memory.
    pub fn acked(&self) -> u64
        ensures value { result ≡ self.now.acked }
        ensures few { result ≤ 2 ^ 62 }
    {
        self.acked
    }

    /// Offers a message, and answers its number. Refused as `Full` exactly where 64 are offered and not acknowledged.
    /// After a refusal all is as before. Conditions: fewer than 2^62 were offered, and the body has at most 4,096
    /// bytes.
    #[tactic(auto, using(crate::proofs::Held::short_push))]
    pub fn offer(&mut self, alloc: Global, body: &Bytes) -> Result<u64, OfferFault>
        requires few { spec.offered_count self.old < 2 ^ 62 }
        requires short { spec.IsShort body.now }
        ensures number { IfOk result (λ n. n ≡ spec.offered_count self.old + 1) }
        ensures ok { OnOk result (self.new ≡ spec.with_offer body.now self.old) }
        ensures full { (result ≡ Err OfferFault.Full) ↔ (spec.is_full self.old ≡ true) }
        ensures err { OnErr result (self.new ≡ self.old) }
    {
        if self.held.len() as u64 >= WINDOW {
            return Err(OfferFault::Full);
        }
        let body = body.copy(alloc)?;
        push_last(&mut self.held, body)?;
        Ok(self.offered())
    }

    /// The body of a message that is offered and not acknowledged.
    #[tactic(auto, using(crate::proofs::Held::old_none, crate::proofs::Held::new_some))]
    fn body_at(&self, seq: u64) -> Option<&Bytes>
        ensures { option_copied result ≡ spec.held_at seq self.now }
    {
        if seq <= self.acked {
            return None;
        }
        body_in(&self.held, (seq - self.acked - 1) as usize)
    }

    /// The chunk that carries a message to a host, which the purse pays 4 for. Refused as `NotHeld` exactly where it
    /// isn't offered or is acknowledged, then as `NoBound` exactly where the purse holds less. After a refusal the purse
    /// is as before.
    #[tactic(auto, using(crate::proofs::Held::none_not_held, crate::proofs::Held::some_held, crate::proofs::Held::held_short, crate::proofs::Held::held_few, crate::proofs::Held::pays_four, crate::proofs::Held::four_paid))]
    pub fn transmit(
        &self,
        alloc: Global,
        purse: &mut Purse,
        seq: u64,
        dest: Host,
    ) -> Result<CheckedChunk, TransmitFault>
        ensures chunk { IfOk result (spec.Carries seq dest self.now) }
        ensures paid { OnOk result (purse.new + 4 ≡ purse.old) }
        ensures not_held { (result ≡ Err fault.NotHeld) ↔ (spec.is_held seq self.now ≡ false) }
        ensures no_bound { (result ≡ Err fault.NoBound) ↔ spec.IsUnpaid seq purse.old self.now }
        ensures err { OnErr result (purse.new ≡ purse.old) }
    {
        let Some(body) = self.body_at(seq) else {
            return Err(TransmitFault::NotHeld);
        };
        let Some(bound) = purse.bound_for(PRICE) else {
            return Err(TransmitFault::NoBound);
        };
        let chunk = data_chunk(alloc, &self.code, dest, seq, body)?;
        purse.take(bound);
        Ok(chunk)
    }

    /// Drops the bodies of the first messages, which are acknowledged now. Condition: so many are held.
    #[tactic(auto, using(crate::proofs::Held::short_drop, crate::proofs::Held::drop_length))]
    fn acknowledge(&mut self, more: usize)
        requires { more ≤ length self.old.held }
        ensures { self.new ≡ spec.with_fewer more self.old }
    {
        drop_front(&mut self.held, more);
        self.acked += more as u64;
    }

    /// Hears that the receiver awaits the message with this number. Takes no memory.
    #[tactic(auto, using(crate::proofs::Hearing::stranger_low, crate::proofs::Hearing::still_low, crate::proofs::Hearing::stranger_high, crate::proofs::Hearing::still_high, crate::proofs::Hearing::ack_old, crate::proofs::Hearing::still_old, crate::proofs::Hearing::ack_moved, crate::proofs::Hearing::acked_on))]
    pub fn heard(&mut self, next: i64) -> Ack
        ensures answer { result ≡ spec.ack_of (spec.number_of next) self.old }
        ensures state { self.new ≡ spec.with_ack (spec.number_of next) self.old }
    {
        let next = number_of(next);
        if next < 1 {
            return Ack::Stranger;
        }
        if next > self.offered() + 1 {
            return Ack::Stranger;
        }
        if next <= self.acked() + 1 {
            return Ack::Old;
        }
        let more = next - 1 - self.acked();
        self.acknowledge(more as usize);
        Ack::Moved
    }
}
