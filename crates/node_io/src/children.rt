//! Numbers the children that are open.
ghost use Rattle.std.specs.Prelude.{◌≡◌, ◌++◌, ◌∷◌, ◌+◌, ◌<◌, ◌==◌, [], false, filter, Contains, IfOk, MatchResult};
ghost use Rattle.node_io.specs.Spawners.{is_other, IsFresh};

use crate::spawner::Child;
use std::alloc::{AllocError, Global};
use std::marker::Model;

/// The number of children that were started, with those not yet waited for. The next child gets that number.
#[derive(Drop)]
pub(crate) struct Children {
    started: u32,
    running: Vec<Child>,
}

impl Model for Children {
    ghost use Rattle.std.specs.Prelude.{ℕ, ◌<◌, List, All};
    ghost use Rattle.std.specs.Coded.{coded×, coded_list, coded_ℕ};
    ghost use Rattle.node_io.specs.declared.spawner.Child.{Child};
    ghost use Rattle.node_io.specs.contracts.spawner.Child as child;

    ghost Value = { ℕ × List Child };

    ghost coded = { coded× coded_ℕ (coded_list child.the_row.coded) };

    ghost view = { λ c. (c.started, c.running.items) };

    ghost invariant = { λ c. All (λ child. child.0 < c.started) c.running.items };
}

impl Children {
    /// None was started.
    #[tactic(auto, using(crate::proofs::ChildLemmas::none_below))]
    pub(crate) fn none(alloc: Global) -> Children
        ensures started { result.0 ≡ 0 }
        ensures none { result.1 ≡ [] }
    {
        Children {
            started: 0,
            running: Vec::new(alloc),
        }
    }

    /// Whether no number is left for one more.
    pub(crate) fn is_full(&self) -> bool
        ensures full { result ≡ (self.now.0 == 4294967295) }
        ensures room { result ≡ false → self.now.0 < 4294967295 }
    {
        self.started == u32::MAX
    }

    /// Opens the next child. Condition: a number is left for it.
    #[tactic(auto, using(crate::proofs::ChildLemmas::below_more, crate::proofs::ChildLemmas::fresh_child, crate::proofs::ChildLemmas::last_is_there))]
    pub(crate) fn open_next(&mut self) -> Result<Child, AllocError>
        requires { self.old.0 < 4294967295 }
        ensures next { MatchResult result
            (λ child. (child.0 ≡ self.old.0)
            × (self.new ≡ (self.old.0 + 1, self.old.1 ++ child ∷ [])))
            (λ _. self.new ≡ self.old) }
        ensures fresh { IfOk result (IsFresh self.old.1) }
        ensures there { IfOk result (Contains self.new.1) }
    {
        let child = Child(self.started);
        self.running.push(child)?;
        self.started += 1;
        Ok(child)
    }

    /// Takes a child off those not yet waited for.
    #[tactic(auto, using(crate::proofs::ChildLemmas::others_below))]
    pub(crate) fn close(&mut self, child: Child)
        ensures { self.new ≡ (self.old.0, filter (is_other child) self.old.1) }
    {
        forget(&mut self.running, child);
    }
}

fn forget(running: &mut Vec<Child>, child: Child)
    ensures { running.new.items ≡ filter (is_other child) running.old.items }
{
    running.retain(|other| other.0 != child.0);
}
