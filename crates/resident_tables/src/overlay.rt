//! The changes of a visit, over the rows of a table.
ghost use Rattle.std.specs.Prelude.{◌≡◌, ◌≤◌, [], true, None, pos, ◌≤ℤ◌, OnOk, OnErr};
ghost use Rattle.std.specs.Option.{option_copied};
ghost use Rattle.containers.specs.Keys.{IsUnique};
ghost use Rattle.service_api.specs.Rows.{row_key, without_row, found_row, got, fresh_key, key_after};
ghost use Rattle.resident_tables.specs.Counted.{counts_of, within, IsFit};
ghost use Rattle.resident_tables.specs.Layers.{over, IsOver, room_of};
ghost use Rattle.resident_tables.specs.PartRows.{part_row};
ghost use Rattle.resident_tables.specs.Tables.{row_of, IsPut, IsGot};

use crate::counts::Counts;
use crate::fault::TableFault;
use crate::gone::Gone;
use crate::list::KeyedList;
use crate::moves::{drop_gone, forget, put_parts};
use crate::next::take_key;
use crate::parts::Parts;
use crate::probe::Probe;
use crate::tables::{Tables, value_of};
use containers::HasKey;
use plan_base::{NoMemory, Text, Ty, Value};
use service_api::Row;
use std::alloc::Global;
use std::marker::Model;

/// The changes of a visit over the rows of [`Tables`], and its next key. The rows aren't copied.
///
/// Each call is given the tables over which the changes stand. Condition: they are the same ones each time.
#[derive(Drop)]
pub struct Overlay {
    /// The keys of rows of the tables that were removed, once each.
    gone: KeyedList<Gone>,
    /// The rows that were put, once for each key.
    puts: KeyedList<Row>,
    /// The counts of the rows after the changes, once there is a change.
    counted: Option<Counts>,
    next: i64,
}

impl Model for Overlay {
    ghost use Rattle.std.specs.Prelude.{pos, ◌≤ℤ◌};
    ghost use Rattle.resident_tables.specs.Layers.{Layer, layer_code};

    ghost Value = { Layer };

    ghost coded = { layer_code };

    ghost view = { λ o. record {
      gone = o.gone.items;
      puts = o.puts.items;
      counted = o.counted;
      «next» = o.«next»;
    } };

    ghost invariant = { λ o. pos 1 ≤ℤ o.«next» };
}

impl Overlay {
    /// No changes, and that next key. Condition: it is at least 1. Takes no memory.
    pub fn new(alloc: Global, next: i64) -> Overlay
        requires { pos 1 ≤ℤ «next» }
        ensures none { (result.gone ≡ []) × (result.puts ≡ []) }
        ensures counted { result.counted ≡ None }
        ensures next_key { result.«next» ≡ «next» }
    {
        Overlay {
            gone: KeyedList::new(alloc),
            puts: KeyedList::new(alloc),
            counted: None,
            next,
        }
    }

    /// Drops the changes, and takes that next key; the room for changes stays. Condition: the key is at least 1. Takes no memory.
    pub fn restart(&mut self, next: i64)
        requires { pos 1 ≤ℤ «next» }
        ensures none { (self.new.gone ≡ []) × (self.new.puts ≡ []) }
        ensures counted { self.new.counted ≡ None }
        ensures next_key { self.new.«next» ≡ «next» }
    {
        self.gone.clear();
        self.puts.clear();
        self.counted = None;
        self.next = next;
    }

    /// For how many rows there must be room to commit the changes.
    pub fn room(&self) -> usize
        ensures { result ≡ room_of self.now }
    {
        self.puts.len()
    }

    /// The row of the key of `wanted` after the changes.
    fn find<'a, Q: HasKey>(&'a self, base: &'a Tables, wanted: &Q) -> Option<&'a Row>
        ensures row { option_copied result ≡ found_row (Q.key_of wanted.now)
            (over base.now.rows self.now) }
        ensures unique { IsUnique row_key (over base.now.rows self.now) }
        ensures puts { IsUnique row_key self.now.puts }
    {
        let _rows = base.rows();
        if let Some(row) = self.puts.get(wanted) {
            return Some(row);
        }
        if let Some(_noted) = self.gone.get(wanted) {
            return None;
        }
        base.find(wanted)
    }

    /// The counts of the rows after the changes.
    fn counts(&self, base: &Tables) -> Counts
        requires { IsOver base.now.rows self.now }
        ensures counts { result ≡ counts_of (over base.now.rows self.now) }
        ensures within { within result ≡ true }
    {
        match self.counted {
            Some(counts) => counts,
            None => base.counts(),
        }
    }

    /// The counts after a put of these parts, if the rows keep the limits then.
    fn fitting(&self, base: &Tables, parts: &Parts) -> Option<Counts>
        requires { IsOver base.now.rows self.now }
        ensures fit { IsFit (part_row parts.now) (over base.now.rows self.now) result }
        ensures puts { IsUnique row_key self.now.puts }
    {
        let counts = self.counts(base);
        counts.with(self.find(base, parts), parts.size())
    }

    /// The counts without the row of the key of `wanted`.
    fn counts_without<Q: HasKey>(&self, base: &Tables, wanted: &Q) -> Counts
        requires { IsOver base.now.rows self.now }
        ensures counts { result ≡ counts_of (without_row (Q.key_of wanted.now)
            (over base.now.rows self.now)) }
        ensures within { within result ≡ true }
    {
        let counts = self.counts(base);
        counts.without(self.find(base, wanted))
    }

    /// What [`Tables::put`] answers on the rows after the changes. Condition: the changes were used over `base` alone.
    pub fn put(
        &mut self,
        alloc: Global,
        base: &Tables,
        name: &Text,
        key: i64,
        ty: &Ty,
        value: &Value,
        expiry: u64,
    ) -> Result<(), TableFault>
        requires { IsOver base.now.rows self.old }
        ensures rows { IsPut (over base.now.rows self.old)
            (row_of name.now key ty.now value.now expiry) result (over base.now.rows self.new) }
        ensures over { IsOver base.now.rows self.new }
        ensures next_key { self.new.«next» ≡ self.old.«next» }
    {
        let parts = Parts {
            name,
            key,
            ty,
            value,
            expiry,
        };
        let Some(counts) = self.fitting(base, &parts) else {
            return Err(TableFault::TableFull);
        };
        let Ok(()) = put_parts(alloc, &mut self.puts, &parts) else {
            return Err(TableFault::NoMemory);
        };
        self.counted = Some(counts);
        Ok(())
    }

    /// What [`Tables::get`] answers on the rows after the changes.
    pub fn get(
        &self,
        alloc: Global,
        base: &Tables,
        name: &Text,
        key: i64,
        ty: &Ty,
        now: u64,
    ) -> Result<Value, TableFault>
        ensures { IsGot (got (record { name = name.now; number = key }) ty.now now
            (over base.now.rows self.now)) result }
    {
        let wanted = Probe {
            name: name.as_slice(),
            number: key,
        };
        value_of(alloc, self.find(base, &wanted), ty, now)
    }

    /// What [`Tables::remove`] does to the rows after the changes; where an allocation fails nothing changes.
    /// Condition: the changes were used over `base` alone.
    pub fn remove(
        &mut self,
        alloc: Global,
        base: &Tables,
        name: &Text,
        key: i64,
    ) -> Result<(), NoMemory>
        requires { IsOver base.now.rows self.old }
        ensures ok { OnOk result (over base.now.rows self.new ≡ without_row
            (record { name = name.now; number = key }) (over base.now.rows self.old)) }
        ensures err { OnErr result (self.new ≡ self.old) }
        ensures over { IsOver base.now.rows self.new }
        ensures next_key { self.new.«next» ≡ self.old.«next» }
    {
        let wanted = Probe {
            name: name.as_slice(),
            number: key,
        };
        let counts = self.counts_without(base, &wanted);
        forget(alloc, &mut self.gone, base, &wanted)?;
        self.puts.remove(&wanted);
        self.counted = Some(counts);
        Ok(())
    }

    /// Gives the next key out; none exactly where it is 2^63 - 1. Takes no memory.
    pub fn fresh_key(&mut self) -> Option<i64>
        ensures key { result ≡ fresh_key self.old.«next» }
        ensures changes { self.new ≡ record self.old { «next» = key_after self.old.«next» } }
    {
        take_key(&mut self.next)
    }

    /// The rows that were put.
    pub(crate) fn puts(&self) -> &[Row]
        ensures { result.now ≡ self.now.puts }
    {
        self.puts.as_slice()
    }

    /// The counts of the rows after the changes, once there is a change.
    pub(crate) fn counted(&self) -> Option<Counts>
        ensures { result ≡ self.now.counted }
    {
        self.counted
    }

    /// The next key to be given out.
    pub(crate) fn next_key(&self) -> i64
        ensures key { result ≡ self.now.«next» }
        ensures least { pos 1 ≤ℤ self.now.«next» }
    {
        self.next
    }

    /// Makes the changes in `rows`. Condition: there is room for the puts. Takes no memory.
    pub(crate) fn make_in(&mut self, rows: &mut KeyedList<Row>)
        requires { room_of self.old ≤ rows.old.spare }
        ensures { rows.new.items ≡ over rows.old.items self.old }
    {
        drop_gone(rows, self.gone.as_slice());
        self.puts.move_to(rows);
    }
}
