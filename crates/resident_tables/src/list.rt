//! A list of items with keys, with an index by key.
ghost use Rattle.std.specs.Prelude.{◌≡◌, ◌+◌, ◌<◌, ◌≤◌, [], length, reverse, OnOk, IfOk, IsTrue, ◌↔◌};
ghost use Rattle.std.specs.Option.{option_copied};
ghost use Rattle.containers.specs.Keys.{IsUnique, first_of_key, put, without};
ghost use Rattle.service_api.specs.Rows.{living};
ghost use Rattle.resident_tables.specs.Moved.{all_put};

use crate::edits::{put_place, swap_in, take_out};
use crate::passes;
use crate::search::{look_up, search};
use containers::HasKey;
use service_api::Row;
use std::alloc::{AllocError, Global};
use std::marker::Model;

/// A list of items with keys, in which no key stands twice.
///
/// Contracts see its items, and as `spare` for how many more there is room. Its order is that in which the keys
/// were first put; an index beside the items finds a key in some log2 n comparisons.
#[derive(Drop)]
pub struct KeyedList<T: HasKey> {
    items: Vec<T>,
    /// The places of the items by rising keys.
    order: Vec<usize>,
}

impl<T: HasKey> Model for KeyedList<T> {
    ghost use Rattle.std.specs.Prelude.{◌-◌, min, map};
    ghost use Rattle.std.specs.Vec.{vec_len, vec_capacity};
    ghost use Rattle.containers.specs.Keys.{IsUnique};
    ghost use Rattle.resident_tables.specs.Index.{IsIndex};
    ghost use Rattle.resident_tables.specs.Roomy.{Roomy, roomy_code};

    ghost Value = { Roomy T };

    ghost coded = { roomy_code T.code };

    ghost view = { λ l. record {
      items = l.items.items;
      spare = min (vec_capacity l.items - vec_len l.items)
          (vec_capacity l.order - vec_len l.order);
    } };

    ghost invariant = { λ l. IsUnique T.key_of l.items.items × IsIndex (map T.key_of l.items.items)
        l.order.items };
}

impl<T: HasKey> KeyedList<T> {
    /// No items. Takes no memory.
    pub fn new(alloc: Global) -> KeyedList<T>
        ensures { result.items ≡ [] }
    {
        KeyedList {
            items: Vec::new(alloc),
            order: Vec::new(alloc),
        }
    }

    /// The items, lent.
    pub fn as_slice(&self) -> &[T]
        ensures items { result.now ≡ self.now.items }
        ensures unique { IsUnique T.key_of self.now.items }
    {
        self.items.as_slice()
    }

    /// The number of items.
    pub fn len(&self) -> usize
        ensures { result ≡ length self.now.items }
    {
        self.items.len()
    }

    /// Whether there is no item.
    pub fn is_empty(&self) -> bool
        ensures { IsTrue result ↔ (self.now.items ≡ []) }
    {
        self.items.is_empty()
    }

    /// The items as a vector.
    pub fn into_vec(self) -> Vec<T>
        ensures { result.items ≡ self.items }
    {
        let KeyedList { items, order: _ } = self;
        items
    }

    /// The item of the key of `wanted`.
    pub fn get<Q: HasKey>(&self, wanted: &Q) -> Option<&T>
        ensures item { option_copied result
            ≡ first_of_key T.key_of (Q.key_of wanted.now) self.now.items }
        ensures unique { IsUnique T.key_of self.now.items }
    {
        look_up(self.items.as_slice(), self.order.as_slice(), wanted)
    }

    /// Takes room for `more` items beyond those that are there.
    pub fn reserve(&mut self, more: usize) -> Result<(), AllocError>
        ensures items { self.new.items ≡ self.old.items }
        ensures ok { OnOk result (more ≤ self.new.spare) }
        ensures kept { self.old.spare ≤ self.new.spare }
    {
        self.items.reserve(more)?;
        self.order.reserve(more)
    }
}

/// Puts the items of a vector into a list, the last first; none stays. There is room for them.
fn pour<T: HasKey + Drop>(items: &mut Vec<T>, list: &mut KeyedList<T>)
    requires { length items.old.items ≤ list.old.spare }
    ensures moved { list.new.items ≡ all_put T.key_of (reverse items.old.items) list.old.items }
    ensures none { items.new.items ≡ [] }
{
    while let Some(item) = items.pop() {
        list.put(item);
    }
}

impl<T: HasKey + Drop> KeyedList<T> {
    /// Drops all items; the room for them stays. Takes no memory.
    pub fn clear(&mut self)
        ensures { self.new.items ≡ [] }
    {
        self.items.clear();
        self.order.clear();
    }

    /// Puts the items into `other`, the first first; none stays here, but the room for them does. Condition: there is room for
    /// them in `other`. Takes no memory.
    pub fn move_to(&mut self, other: &mut KeyedList<T>)
        requires { length self.old.items ≤ other.old.spare }
        ensures moved { other.new.items ≡ all_put T.key_of self.old.items other.old.items }
        ensures none { self.new.items ≡ [] }
    {
        self.order.clear();
        self.items.reverse();
        pour(&mut self.items, other);
    }

    /// The same list over equal items. Condition: `items` are those of this list. The room isn't kept.
    pub fn over(&self, alloc: Global, items: Vec<T>) -> Result<KeyedList<T>, AllocError>
        requires { items.items ≡ self.now.items }
        ensures { IfOk result (λ l. l.items ≡ self.now.items) }
    {
        let order = Vec::from_slice(alloc, self.order.as_slice())?;
        Ok(KeyedList { items, order })
    }

    /// Puts `item` in the place of the item of its key, which is dropped, or at the end where there is none.
    /// Condition: there is room. Takes no memory.
    pub fn put(&mut self, item: T)
        requires { 0 < self.old.spare }
        ensures items { self.new.items ≡ put T.key_of item self.old.items }
        ensures spare { self.old.spare ≤ self.new.spare + 1 }
    {
        match search(self.items.as_slice(), self.order.as_slice(), &item) {
            Ok(j) => swap_in(&mut self.items, self.order[j], item),
            Err(i) => {
                let place = self.items.len();
                self.items.push_reserved(item);
                put_place(&mut self.order, i, place);
            }
        }
    }

    /// Drops the item of the key of `wanted`, where there is one; those behind it move up. Takes no memory.
    pub fn remove<Q: HasKey>(&mut self, wanted: &Q)
        ensures items { self.new.items ≡ without T.key_of (Q.key_of wanted.now) self.old.items }
        ensures spare { self.old.spare ≤ self.new.spare }
    {
        if let Ok(j) = search(self.items.as_slice(), self.order.as_slice(), wanted) {
            take_out(&mut self.items, &mut self.order, j);
        }
    }
}

impl KeyedList<Row> {
    /// Drops the rows that aren't there any more at the tick `now`; those behind them move up. Condition: there are
    /// fewer than 2^32. Takes no memory, and time for each row once.
    pub(crate) fn drop_expired(&mut self, now: u64)
        requires { length self.old.items < 4294967296 }
        ensures rows { self.new.items ≡ living now self.old.items }
        ensures spare { self.old.spare ≤ self.new.spare }
    {
        passes::drop_expired(&mut self.items, &mut self.order, now);
    }
}
