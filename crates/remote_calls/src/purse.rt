//! The purse, which pays hops and evals.
ghost use Rattle.std.specs.Prelude.{◌≡◌, ◌+◌, ◌≤◌, IsTrue, Some, None, IfSome, if◌then◌else◌, OnOk, OnErr, false};
ghost use Rattle.plan_meaning.specs.Meaning.{is_paid, bound_of};

use crate::fault::NoBound;
use std::marker::Model;

/// The hops and evals that may still be paid, at most 65,535, which contracts see as that number.
#[derive(Drop)]
pub struct Purse {
    holds: u32,
}

impl Model for Purse {
    ghost use Rattle.std.specs.Prelude.{ℕ, ◌≤◌};
    ghost use Rattle.std.specs.Coded.{coded_ℕ};

    ghost Value = { ℕ };

    ghost coded = { coded_ℕ };

    ghost view = { λ p. p.holds };

    ghost invariant = { λ p. p.holds ≤ 65535 };
}

impl Purse {
    /// A purse that holds `n`. Condition: `n` is at most 65,535.
    pub fn of(n: u32) -> Purse
        requires { n ≤ 65535 }
        ensures { result ≡ n }
    {
        Purse { holds: n }
    }

    /// What it holds.
    pub fn left(&self) -> u32
        ensures value { result ≡ self.now }
        ensures small { self.now ≤ 65535 }
    {
        self.holds
    }

    /// The bound `n`, where it is at least 1 and at most what the purse holds.
    #[tactic(auto, using(crate::proofs::Paying::paying))]
    pub fn bound_for(&self, n: i64) -> Option<u32>
        ensures value { result ≡ (if is_paid n self.now then Some (bound_of n) else None) }
        ensures small { IfSome result (λ bound. bound ≤ 65535) }
    {
        if n < 1 {
            return None;
        }
        let bound = n.unsigned_abs();
        if bound > u64::from(self.holds) {
            return None;
        }
        Some(bound as u32)
    }

    /// Pays a bound that it holds. Condition: it holds so much.
    pub fn take(&mut self, bound: u32)
        requires { bound ≤ self.old }
        ensures { self.new + bound ≡ self.old }
    {
        self.holds -= bound;
    }

    /// Pays `n`. Refused exactly where `n` is below 1 or more than the purse holds, and nothing is paid then.
    #[tactic(auto, using(crate::proofs::Paying::is_within))]
    pub fn pay(&mut self, n: i64) -> Result<(), NoBound>
        ensures paid { OnOk result (IsTrue (is_paid n self.old) ×
            (self.new + bound_of n ≡ self.old)) }
        ensures refused { OnErr result ((is_paid n self.old ≡ false) × (self.new ≡ self.old)) }
    {
        match self.bound_for(n) {
            Some(bound) => {
                self.take(bound);
                Ok(())
            }
            None => Err(NoBound),
        }
    }
}
