//! A stack that contracts see as a list, the last item first.
ghost use Rattle.std.specs.Prelude.{◌≡◌, [], ◌∷◌, ◌++◌, ◌<◌, length, List, Some, OnOk, OnErr, MatchOption};
ghost use Rattle.plan_eval_state.specs.Places.{at_place};

use containers::Items;
use std::alloc::{AllocError, Global};
use std::marker::Model;

/// A stack, which contracts see as the list of its items, the last one first.
#[derive(Drop)]
pub struct Stack<T> {
    items: Items<T>,
}

impl<T> Model for Stack<T> {
    ghost use Rattle.std.specs.Prelude.{List, reverse};
    ghost use Rattle.std.specs.Coded.{coded_list};

    ghost Value = { List T };

    ghost coded = { coded_list T.code };

    ghost view = { λ it. reverse it.items };
}

impl<T> Stack<T> {
    /// No items. Takes no memory before the first `push`.
    pub fn new(alloc: Global) -> Stack<T>
        ensures { result ≡ [] }
    {
        Stack {
            items: Items::new(alloc),
        }
    }

    /// Takes the last item off, or answers `None` where there is none.
    pub fn pop(&mut self) -> Option<T>
        ensures { MatchOption result ((self.old ≡ []) × (self.new ≡ [])) (λ x. self.old ≡ x ∷
            self.new) }
    {
        self.items.pop()
    }

    /// The number of items, which is the place of the next one.
    pub fn len(&self) -> usize
        ensures { result ≡ length self.now }
    {
        self.items.len()
    }

    /// The item at a place, counted from the first one that was put on. Condition: there is one.
    pub fn at(&self, i: usize) -> &T
        requires { i < length self.now }
        ensures { at_place self.now i ≡ Some result.now }
    {
        self.items.at(i)
    }
}

impl<T: Drop> Stack<T> {
    /// Puts an item on. Where an allocation fails, the item is dropped and the stack stays.
    pub fn push(&mut self, x: T) -> Result<(), AllocError>
        ensures ok { OnOk result (self.new ≡ x ∷ self.old) }
        ensures err { OnErr result (self.new ≡ self.old) }
    {
        self.items.add(x)
    }

    /// Only the items below that place stay.
    pub fn truncate(&mut self, n: usize)
        ensures { (junk pre : List T) → self.old ≡ junk ++ pre → n ≡ length pre → self.new ≡ pre }
    {
        self.items.truncate(n);
    }

    /// The last item comes to a place, and the others from there on go.
    pub fn slide(&mut self, n: usize)
        ensures { (x : T) (held pre : List T) → self.old ≡ x ∷ (held ++ pre) → n ≡ length pre
            → self.new ≡ x ∷ pre }
    {
        let last = self.items.len().saturating_sub(1);
        if n < last {
            if let Some(x) = self.items.pop() {
                self.items.set(n, x);
                self.items.truncate(n + 1);
            }
        }
    }
}
