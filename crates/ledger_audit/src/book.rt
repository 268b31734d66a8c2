//! The counts of each family over all logs.
ghost use Rattle.std.specs.Prelude.{◌≡◌, OnOk};
ghost use Rattle.plan_base.specs.declared.ids.Family.{Family as FamilyOf};
ghost use Rattle.ledger_audit.specs.Books as spec;
ghost use Rattle.ledger_audit.specs.Books.{counts_in, with_row, IsSet, Adds};

use crate::keys::FamilyKey;
use indexmap::IndexMap;
use node_core_spec::Act;
use plan_base::{Family, NoMemory};
use std::alloc::{AllocError, Global};

/// What a family was granted, what it paid, and what it left.
#[derive(Clone, Copy, PartialEq, Eq)]
pub struct Counts {
    /// The bounds of its injections.
    pub granted: u64,
    /// What its frames queued paid: 1 for each.
    pub hops: u64,
    /// What its visits paid for evals.
    pub evals: u64,
    /// What its visits left, and the bounds of its dropped packets.
    pub left: u64,
}

impl Counts {
    /// No counts.
    pub fn none() -> Counts
        ensures { result ≡ spec.none }
    {
        Counts {
            granted: 0,
            hops: 0,
            evals: 0,
            left: 0,
        }
    }

    /// Both in sum. A sum stands still at 2^64 - 1, which 16 logs that fit don't reach.
    fn plus(self, more: Counts) -> Counts
        ensures { result ≡ spec.plus self more }
    {
        Counts {
            granted: self.granted.saturating_add(more.granted),
            hops: self.hops.saturating_add(more.hops),
            evals: self.evals.saturating_add(more.evals),
            left: self.left.saturating_add(more.left),
        }
    }
}

/// Counts of an act.
fn counts_of_act(granted: u32, hops: u32, evals: u32, left: u32) -> Counts
    ensures { result ≡ record { granted = granted; hops = hops; evals = evals; left = left } }
{
    Counts {
        granted: u64::from(granted),
        hops: u64::from(hops),
        evals: u64::from(evals),
        left: u64::from(left),
    }
}

/// The family for which an act counts, if there is one, and what.
fn act_row(act: &Act) -> Option<(Family, Counts)>
    ensures { result ≡ spec.act_row act.now }
{
    match act {
        Act::Injected(family, bound) => Some((*family, counts_of_act(*bound, 0, 0, 0))),
        Act::Queued(_, family, _) => Some((*family, counts_of_act(0, 1, 0, 0))),
        Act::Ended(family, _, evals, rest) => Some((*family, counts_of_act(0, 0, *evals, *rest))),
        Act::Dropped(_, family, bound) => Some((*family, counts_of_act(0, 0, 0, *bound))),
        _ => None,
    }
}

/// The counts of families.
#[derive(Drop)]
pub struct FamilyTotals {
    rows: IndexMap<FamilyKey, Counts>,
}

impl FamilyTotals {
    /// No counts. Takes no memory.
    pub fn new(alloc: Global) -> FamilyTotals
        ensures { (f : FamilyOf) → counts_in f result ≡ spec.none }
    {
        FamilyTotals {
            rows: IndexMap::new(alloc),
        }
    }

    /// The counts of a family, which are none where it has no row. Takes no memory.
    pub fn of(&self, f: Family) -> Counts
        ensures { result ≡ counts_in f self.now }
    {
        match self.rows.get(&FamilyKey::of(f)) {
            Some(counts) => *counts,
            None => Counts::none(),
        }
    }

    /// Puts counts in the place of those that a family has.
    fn set(&mut self, f: Family, counts: Counts) -> Result<(), AllocError>
        ensures { OnOk result (IsSet f counts self.old self.new) }
    {
        self.rows.insert(FamilyKey::of(f), counts)?;
        Ok(())
    }

    /// Adds to the counts of a family. A sum stands still at 2^64 - 1.
    fn add(&mut self, f: Family, more: Counts) -> Result<(), NoMemory>
        ensures { OnOk result (Adds f more self.old self.new) }
    {
        let counts = self.of(f).plus(more);
        self.set(f, counts)?;
        Ok(())
    }

    /// Adds what an act counts. A sum stands still at 2^64 - 1.
    #[tactic(auto, using(crate::proofs::ActLaws::act_added, crate::proofs::ActLaws::act_apart))]
    pub fn act(&mut self, act: &Act) -> Result<(), NoMemory>
        ensures { OnOk result ((f : FamilyOf)
            → counts_in f self.new ≡ with_row f (spec.act_row act.now) (counts_in f self.old)) }
    {
        match act_row(act) {
            Some((family, counts)) => self.add(family, counts),
            None => Ok(()),
        }
    }
}
