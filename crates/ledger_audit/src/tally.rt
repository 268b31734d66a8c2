//! How often each frame was sent and accepted.
ghost use Rattle.std.specs.Prelude.{◌≡◌, IfOk, OnOk};
ghost use Rattle.ledger_audit.specs.Crossings.{Crossing};
ghost use Rattle.ledger_audit.specs.Keys.{crossing_of};
ghost use Rattle.ledger_audit.specs.Tallies as spec;
ghost use Rattle.ledger_audit.specs.Tallies.{tally_in, Changes};

use crate::keys::CrossingKey;
use indexmap::IndexMap;
use plan_base::NoMemory;
use std::alloc::{AllocError, Global};

/// How often a frame was sent and accepted.
#[derive(Clone, Copy, PartialEq, Eq)]
pub struct SendCount {
    /// How often it was sent.
    pub sent: u32,
    /// How often it was accepted.
    pub accepted: u32,
}

impl SendCount {
    /// Once more sent. The count stands still at 2^32 - 1, which 16 logs don't reach.
    fn one_sent(self) -> SendCount
        ensures { result ≡ spec.one_sent self }
    {
        SendCount {
            sent: self.sent.saturating_add(1),
            ..self
        }
    }

    /// Once more accepted. The count stands still at 2^32 - 1, which 16 logs don't reach.
    fn one_accepted(self) -> SendCount
        ensures { result ≡ spec.one_accepted self }
    {
        SendCount {
            accepted: self.accepted.saturating_add(1),
            ..self
        }
    }
}

/// How often each frame was sent and accepted.
#[derive(Drop)]
pub struct Tallies {
    rows: IndexMap<CrossingKey, SendCount>,
}

impl Tallies {
    /// No frame. Takes no memory.
    pub fn new(alloc: Global) -> Tallies
        ensures { (c : Crossing) → tally_in c result ≡ spec.none }
    {
        Tallies {
            rows: IndexMap::new(alloc),
        }
    }

    /// How often a frame was sent and accepted. Takes no memory.
    fn of(&self, key: &CrossingKey) -> SendCount
        ensures { result ≡ tally_in (crossing_of key.now) self.now }
    {
        match self.rows.get(key) {
            Some(tally) => *tally,
            None => SendCount {
                sent: 0,
                accepted: 0,
            },
        }
    }

    /// Puts counts in the place of those that a frame has.
    fn set(&mut self, key: CrossingKey, tally: SendCount) -> Result<(), AllocError>
        ensures { OnOk result (Changes (λ t. tally) (crossing_of key) self.old self.new) }
    {
        self.rows.insert(key, tally)?;
        Ok(())
    }

    /// Counts a frame as sent. The count stands still at 2^32 - 1.
    pub fn send(&mut self, key: CrossingKey) -> Result<(), NoMemory>
        ensures { OnOk result (Changes spec.one_sent (crossing_of key) self.old self.new) }
    {
        let new = self.of(&key).one_sent();
        self.set(key, new)?;
        Ok(())
    }

    /// Counts a frame as accepted, and answers its counts. The count stands still at 2^32 - 1.
    pub fn accept(&mut self, key: CrossingKey) -> Result<SendCount, NoMemory>
        ensures tally { IfOk result
            (λ t. t ≡ spec.one_accepted (tally_in (crossing_of key) self.old)) }
        ensures after { OnOk result
            (Changes spec.one_accepted (crossing_of key) self.old self.new) }
    {
        let new = self.of(&key).one_accepted();
        self.set(key, new)?;
        Ok(new)
    }
}
