//! The end that delivers messages in order.
ghost use Rattle.std.specs.Prelude.{◌≡◌, ◌+◌, ◌<◌, ◌^◌, length, IfOk, OnOk, Err, ◌↔◌, OnErr};
ghost use Rattle.reliable_ports.specs.Ends as spec;

use crate::chunks::{ack_chunk, port_code};
use crate::ends::{keep, move_ready};
use crate::number::{PRICE, WINDOW, number_of};
use checked_chunks::{Checked, CheckedChunk};
use containers::Items;
use plan_base::{Bytes, Host, NoMemory};
use remote_calls::Purse;
use std::alloc::Global;
use std::collections::VecDeque;
use std::marker::Model;
use std::mem;

/// Bodies of messages.
pub type Bodies = Items<Bytes>;

/// What a message that came is to a receiver.
#[derive(Clone, Copy, PartialEq, Eq)]
pub enum Came {
    /// It is the awaited one, and so many are delivered now.
    Delivered(u32),
    /// Its turn comes later; it is kept.
    Ahead,
    /// It was delivered before.
    Old,
    /// It is 64 or more ahead of the awaited one, and isn't kept.
    Far,
}

/// Why an ack isn't made.
#[derive(Clone, Copy, PartialEq, Eq)]
pub enum AckFault {
    /// The purse holds less than 4.
    NoBound,
    /// An allocation failed.
    NoMemory,
}

impl From<NoMemory> for AckFault {
    ghost use Rattle.reliable_ports.specs.declared.receiver.AckFault.TheVariants.{NoMemory};

    ghost from_gives = { λ _ r. r ≡ NoMemory };

    fn from(_refused: NoMemory) -> AckFault {
        AckFault::NoMemory
    }
}

/// The end that delivers messages in order, which contracts see as the bodies delivered and those that came early.
#[derive(Drop)]
pub struct Receiver {
    delivered: Bodies,
    early: VecDeque<Option<Bytes>>,
    code: Checked,
}

impl Model for Receiver {
    ghost use Rattle.std.specs.Prelude.{◌≡◌, ◌≤◌, length};
    ghost use Rattle.reliable_ports.specs.Programs.{port_program};
    ghost use Rattle.reliable_ports.specs.Ends.{Receiving};

    ghost Value = { Receiving };

    ghost view = { λ r. record { delivered = r.delivered; early = r.early.items } };

    ghost invariant = { λ r. (length r.early.items ≤ 63) × (r.code ≡ port_program) };
}

impl Receiver {
    /// A receiver that heard nothing.
    pub fn new(alloc: Global) -> Result<Receiver, NoMemory>
        ensures { IfOk result (λ r. r ≡ spec.no_messages) }
    {
        let code = port_code(alloc)?;
        Ok(Receiver {
            delivered: Items::new(alloc),
            early: VecDeque::new(alloc),
            code,
        })
    }

    /// The bodies delivered, in order. Takes no memory.
    pub fn delivered(&self) -> &Bodies
        ensures { result.now ≡ self.now.delivered }
    {
        &self.delivered
    }

    /// The number of the awaited message.
    fn awaited_number(&self) -> u64
        requires { length self.now.delivered < 2 ^ 62 }
        ensures { result ≡ spec.next_of self.now }
    {
        self.delivered.len() as u64 + 1
    }

    /// Delivers the awaited message, and those behind it that came.
    #[tactic(auto, using(crate::proofs::Counts::behind_few, crate::proofs::Counts::ready_few))]
    fn deliver(&mut self, alloc: Global, body: Bytes) -> Result<u32, NoMemory>
        ensures count { IfOk result (λ n. n ≡ length (spec.ready self.old.early) + 1) }
        ensures ok { OnOk result (self.new ≡ spec.with_next body self.old) }
        ensures err { OnErr result (self.new ≡ self.old) }
    {
        let mut all = mem::replace(&mut self.delivered, Items::new(alloc)).into_vec();
        if all.reserve(self.early.len() + 1).is_err() {
            self.delivered = Items::from_vec(all);
            return Err(NoMemory);
        }
        all.push_reserved(body);
        let count = move_ready(&mut self.early, &mut all);
        self.delivered = Items::from_vec(all);
        Ok(count + 1)
    }

    /// Hears a message. After `NoMemory` all is as before. Condition: fewer than 2^62 were delivered.
    #[tactic(auto, using(crate::proofs::Hearing::came_old, crate::proofs::Hearing::message_old, crate::proofs::Hearing::came_far, crate::proofs::Hearing::message_far, crate::proofs::Hearing::came_next, crate::proofs::Hearing::message_next, crate::proofs::Hearing::came_ahead, crate::proofs::Hearing::message_ahead))]
    pub fn heard(&mut self, alloc: Global, seq: i64, body: &Bytes) -> Result<Came, NoMemory>
        requires { length self.old.delivered < 2 ^ 62 }
        ensures answer { IfOk result (λ came. came ≡ spec.came_as (spec.number_of seq) self.old) }
        ensures state { OnOk result (self.new ≡ spec.hears seq body.now self.old) }
        ensures err { OnErr result (self.new ≡ self.old) }
    {
        let seq = number_of(seq);
        let next = self.awaited_number();
        if seq < next {
            return Ok(Came::Old);
        }
        let ahead = seq - next;
        if ahead >= WINDOW {
            return Ok(Came::Far);
        }
        let body = body.copy(alloc)?;
        if ahead == 0 {
            let count = self.deliver(alloc, body)?;
            return Ok(Came::Delivered(count));
        }
        self.keep(ahead as usize - 1, body)?;
        Ok(Came::Ahead)
    }

    /// Keeps a message that came early.
    #[tactic(auto, using(crate::proofs::Counts::kept_few))]
    fn keep(&mut self, place: usize, body: Bytes) -> Result<(), NoMemory>
        requires { place < 63 }
        ensures ok { OnOk result (self.new ≡ spec.with_early place body self.old) }
        ensures err { OnErr result (self.new ≡ self.old) }
    {
        keep(&mut self.early, place, body)
    }

    /// The ack that says to a host which message is awaited, which the purse pays 4 for. Refused as `NoBound` exactly where
    /// it holds less. After a refusal the purse is as before. Condition: fewer than 2^62 were delivered.
    #[tactic(auto, using(crate::proofs::Held::pays_four, crate::proofs::Held::four_paid))]
    pub fn ack(
        &self,
        alloc: Global,
        purse: &mut Purse,
        dest: Host,
    ) -> Result<CheckedChunk, AckFault>
        requires { length self.now.delivered < 2 ^ 62 }
        ensures chunk { IfOk result (λ chunk. chunk ≡ spec.ack_from dest self.now) }
        ensures paid { OnOk result (purse.new + 4 ≡ purse.old) }
        ensures no_bound { (result ≡ Err AckFault.NoBound) ↔ (purse.old < 4) }
        ensures err { OnErr result (purse.new ≡ purse.old) }
    {
        let Some(bound) = purse.bound_for(PRICE) else {
            return Err(AckFault::NoBound);
        };
        let chunk = ack_chunk(alloc, &self.code, dest, self.awaited_number())?;
        purse.take(bound);
        Ok(chunk)
    }
}
