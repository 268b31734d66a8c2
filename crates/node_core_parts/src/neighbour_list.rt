//! The neighbours of a node, at most eight.
ghost use Rattle.std.specs.Prelude.{◌≡◌, ◌≤◌, [], length};

use containers::Items;
use std::alloc::Global;
use std::marker::Model;
use std::mem;

/// A list of at most 8 items, which contracts see as that list.
#[derive(Drop)]
pub struct NeighbourList<T> {
    items: Items<T>,
}

impl<T> Model for NeighbourList<T> {
    ghost use Rattle.std.specs.Prelude.{◌≤◌, List, length};
    ghost use Rattle.std.specs.Coded.{coded_list};

    ghost Value = { List T };

    ghost coded = { coded_list T.code };

    ghost view = { λ f. f.items };

    ghost invariant = { λ f. length f.items ≤ 8 };
}

impl<T> NeighbourList<T> {
    /// These items. Condition: they are at most 8.
    pub fn of(items: Items<T>) -> NeighbourList<T>
        requires { length items ≤ 8 }
        ensures { result ≡ items }
    {
        NeighbourList { items }
    }

    /// The items, at most 8.
    pub fn as_slice(&self) -> &[T]
        ensures items { result.now ≡ self.now }
        ensures few { length self.now ≤ 8 }
    {
        self.items.as_slice()
    }
}

impl<T: Drop> NeighbourList<T> {
    /// The items, handed out: none stays. Takes no memory.
    pub fn take(&mut self, alloc: Global) -> Items<T>
        ensures items { result ≡ self.old }
        ensures few { length result ≤ 8 }
        ensures none { self.new ≡ [] }
    {
        mem::replace(&mut self.items, Items::new(alloc))
    }

    /// Puts items in the place of these. Condition: they are at most 8. Takes no memory.
    pub fn put(&mut self, items: Items<T>)
        requires { length items ≤ 8 }
        ensures { self.new ≡ items }
    {
        self.items = items;
    }
}
