//! The rows that programs keep on a node.
ghost use Rattle.std.specs.Prelude.{◌≡◌, ◌≤◌, [], true, pos, ◌≤ℤ◌, OnOk, IfOk};
ghost use Rattle.std.specs.Option.{option_copied};
ghost use Rattle.containers.specs.Keys.{IsUnique};
ghost use Rattle.service_api.specs.Rows.{row_key, without_row, found_row, living, got, value_in, fresh_key, key_after, fits};
ghost use Rattle.resident_tables.specs.Counted.{counts_of, within, IsFit};
ghost use Rattle.resident_tables.specs.Layers.{over, IsOver, room_of};
ghost use Rattle.resident_tables.specs.PartRows.{part_row};
ghost use Rattle.resident_tables.specs.Tables.{row_of, IsPut, IsGot};

use crate::counts::{Counts, bytes_after};
use crate::fault::TableFault;
use crate::list::KeyedList;
use crate::moves::{copy_rows, expired_size, least_expiry, put_parts};
use crate::next::take_key;
use crate::overlay::Overlay;
use crate::parts::Parts;
use crate::probe::Probe;
use containers::HasKey;
use plan_base::{NoMemory, Text, Ty, Value};
use plan_base_copy::TryClone;
use plan_base_eq::SameAs;
use service_api::Row;
use std::alloc::Global;
use std::marker::Model;

/// The rows that programs keep on a node, by name and number, at most 1,024 with at most 1,048,576 bytes; and the
/// next key to be given out.
#[derive(Drop)]
pub struct Tables {
    rows: KeyedList<Row>,
    /// The bytes of all rows.
    bytes: u64,
    next: i64,
    /// No row goes before this tick.
    earliest: u64,
}

impl Model for Tables {
    ghost use Rattle.std.specs.Prelude.{◌≡◌, true, pos, ◌≤ℤ◌};
    ghost use Rattle.service_api.specs.Rows.{fits, rows_size};
    ghost use Rattle.resident_tables.specs.Expiries.{AllStay};
    ghost use Rattle.resident_tables.specs.Tables.{Table, table_code};

    ghost Value = { Table };

    ghost coded = { table_code };

    ghost view = { λ t. record { rows = t.rows.items; «next» = t.«next»; spare = t.rows.spare } };

    ghost invariant = { λ t. record {
      bytes : t.bytes ≡ rows_size t.rows.items;
      fit : fits t.rows.items ≡ true;
      least : pos 1 ≤ℤ t.«next»;
      stay : AllStay t.earliest t.rows.items;
    } };
}

impl Tables {
    /// No rows, and 1 as the next key. Takes no memory.
    pub fn new(alloc: Global) -> Tables
        ensures rows { result.rows ≡ [] }
        ensures next_key { result.«next» ≡ pos 1 }
    {
        Tables {
            rows: KeyedList::new(alloc),
            bytes: 0,
            next: 1,
            earliest: u64::MAX,
        }
    }

    /// The rows, in the order in which their keys were first put.
    pub fn rows(&self) -> &[Row]
        ensures rows { result.now ≡ self.now.rows }
        ensures unique { IsUnique row_key self.now.rows }
        ensures fits { fits self.now.rows ≡ true }
    {
        let _within = &self.bytes;
        self.rows.as_slice()
    }

    /// The next key to be given out.
    pub fn next_key(&self) -> i64
        ensures key { result ≡ self.now.«next» }
        ensures least { pos 1 ≤ℤ self.now.«next» }
    {
        self.next
    }

    /// How many rows there are, and how many bytes they take.
    pub fn counts(&self) -> Counts
        ensures counts { result ≡ counts_of self.now.rows }
        ensures within { within result ≡ true }
    {
        Counts {
            rows: self.rows.len(),
            bytes: self.bytes,
        }
    }

    /// The row of the key of `wanted`.
    pub fn find<Q: HasKey>(&self, wanted: &Q) -> Option<&Row>
        ensures row { option_copied result ≡ found_row (Q.key_of wanted.now) self.now.rows }
        ensures unique { IsUnique row_key self.now.rows }
    {
        self.rows.get(wanted)
    }

    /// The counts after a put of these parts, if the rows keep the limits then.
    pub(crate) fn fitting(&self, parts: &Parts) -> Option<Counts>
        ensures { IsFit (part_row parts.now) self.now.rows result }
    {
        let counts = self.counts();
        counts.with(self.find(parts), parts.size())
    }

    /// The counts without the row of the key of `wanted`.
    fn counts_without<Q: HasKey>(&self, wanted: &Q) -> Counts
        ensures counts { result ≡ counts_of (without_row (Q.key_of wanted.now) self.now.rows) }
        ensures within { within result ≡ true }
    {
        let counts = self.counts();
        counts.without(self.find(wanted))
    }

    /// Keeps the value under name and number until the tick `expiry`, in the place of what is kept there.
    /// `TableFull` comes exactly where the rows would pass the limits, and nothing changes then.
    pub fn put(
        &mut self,
        alloc: Global,
        name: &Text,
        key: i64,
        ty: &Ty,
        value: &Value,
        expiry: u64,
    ) -> Result<(), TableFault>
        ensures rows { IsPut self.old.rows (row_of name.now key ty.now value.now expiry) result
            self.new.rows }
        ensures next_key { self.new.«next» ≡ self.old.«next» }
    {
        let parts = Parts {
            name,
            key,
            ty,
            value,
            expiry,
        };
        let Some(counts) = self.fitting(&parts) else {
            return Err(TableFault::TableFull);
        };
        let Ok(()) = put_parts(alloc, &mut self.rows, &parts) else {
            return Err(TableFault::NoMemory);
        };
        self.bytes = counts.bytes;
        self.earliest = self.earliest.min(expiry);
        Ok(())
    }

    /// A copy of the value that is kept under name and number at that type and is there at the tick `now`;
    /// `NotFound` exactly where there is none.
    pub fn get(
        &self,
        alloc: Global,
        name: &Text,
        key: i64,
        ty: &Ty,
        now: u64,
    ) -> Result<Value, TableFault>
        ensures { IsGot (got (record { name = name.now; number = key }) ty.now now self.now.rows)
            result }
    {
        let wanted = Probe {
            name: name.as_slice(),
            number: key,
        };
        value_of(alloc, self.find(&wanted), ty, now)
    }

    /// Drops what is kept under name and number, if there is something. Takes no memory.
    pub fn remove(&mut self, name: &Text, key: i64)
        ensures rows { self.new.rows ≡ without_row (record { name = name.now; number = key })
            self.old.rows }
        ensures next_key { self.new.«next» ≡ self.old.«next» }
    {
        let wanted = Probe {
            name: name.as_slice(),
            number: key,
        };
        let counts = self.counts_without(&wanted);
        self.rows.remove(&wanted);
        self.bytes = counts.bytes;
    }

    /// Drops the rows that aren't there any more at the tick `now`. Takes no memory, and one look where no row goes.
    pub fn expire(&mut self, now: u64)
        ensures rows { self.new.rows ≡ living now self.old.rows }
        ensures next_key { self.new.«next» ≡ self.old.«next» }
    {
        if now < self.earliest {
            return;
        }
        let gone = expired_size(self.rows.as_slice(), now);
        self.rows.drop_expired(now);
        self.bytes -= gone;
        self.earliest = least_expiry(self.rows.as_slice(), u64::MAX);
    }

    /// Gives the next key out; none exactly where it is 2^63 - 1. Takes no memory.
    pub fn fresh_key(&mut self) -> Option<i64>
        ensures key { result ≡ fresh_key self.old.«next» }
        ensures next_key { self.new.«next» ≡ key_after self.old.«next» }
        ensures rows { self.new.rows ≡ self.old.rows }
    {
        take_key(&mut self.next)
    }

    /// Takes the room that the puts of `changes` need. No row changes.
    pub fn reserve(&mut self, changes: &Overlay) -> Result<(), NoMemory>
        ensures ok { OnOk result (room_of changes.now ≤ self.new.spare) }
        ensures rows { self.new.rows ≡ self.old.rows }
        ensures next_key { self.new.«next» ≡ self.old.«next» }
        ensures kept { self.old.spare ≤ self.new.spare }
    {
        let room = changes.room();
        if room > 0 {
            self.rows.reserve(room)?;
        }
        Ok(())
    }

    /// Makes the changes of `changes` here. Conditions: there is room for them, and `changes` was used over these
    /// rows alone. Takes no memory.
    pub fn commit(&mut self, changes: &mut Overlay)
        requires room { room_of changes.old ≤ self.old.spare }
        requires over { IsOver self.old.rows changes.old }
        ensures rows { self.new.rows ≡ over self.old.rows changes.old }
        ensures next_key { self.new.«next» ≡ changes.old.«next» }
    {
        self.next = changes.next_key();
        self.bytes = bytes_after(changes.counted(), self.bytes);
        self.earliest = least_expiry(changes.puts(), self.earliest);
        changes.make_in(&mut self.rows);
    }

    /// Equal tables.
    pub fn copy(&self, alloc: Global) -> Result<Tables, NoMemory>
        ensures rows { IfOk result (λ t. t.rows ≡ self.now.rows) }
        ensures next_key { IfOk result (λ t. t.«next» ≡ self.now.«next») }
    {
        let rows = copy_rows(alloc, self.rows.as_slice())?;
        Ok(Tables {
            rows: self.rows.over(alloc, rows)?,
            bytes: self.bytes,
            next: self.next,
            earliest: self.earliest,
        })
    }
}

/// The value of the row, if it was kept at the type and is there at the tick.
pub fn value_of(alloc: Global, row: Option<&Row>, ty: &Ty, now: u64) -> Result<Value, TableFault>
    ensures { IsGot (value_in ty.now now (option_copied row.entry)) result }
{
    let Some(row) = row else {
        return Err(TableFault::NotFound);
    };
    if !row.ty.is(ty) || !row.is_live(now) {
        return Err(TableFault::NotFound);
    }
    match row.value.copy(alloc) {
        Ok(value) => Ok(value),
        Err(NoMemory) => Err(TableFault::NoMemory),
    }
}
