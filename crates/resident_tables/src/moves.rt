//! Moves of rows: puts, removals and copies, and what all rows say of bytes and ticks.
ghost use Rattle.std.specs.Prelude.{◌≡◌, ◌≤◌, [], ◌∷◌, ◌++◌, min, IfOk, OnOk, OnErr};
ghost use Rattle.service_api.specs.Rows.{put_row, without_row};
ghost use Rattle.resident_tables.specs.Expiries.{least_expiry, size_gone, expired_size};
ghost use Rattle.resident_tables.specs.Layers.{without_all};
ghost use Rattle.resident_tables.specs.PartRows.{part_row};

use crate::gone::Gone;
use crate::list::KeyedList;
use crate::parts::Parts;
use crate::probe::Probe;
use crate::tables::Tables;
use containers::Items;
use plan_base::{NoMemory, Text};
use service_api::Row;
use std::alloc::Global;

/// Puts the row of the parts, with room taken for it.
pub fn put_parts(alloc: Global, rows: &mut KeyedList<Row>, parts: &Parts) -> Result<(), NoMemory>
    ensures ok { OnOk result (rows.new.items ≡ put_row (part_row parts.now) rows.old.items) }
    ensures err { OnErr result (rows.new.items ≡ rows.old.items) }
    ensures spare { OnErr result (rows.old.spare ≤ rows.new.spare) }
{
    rows.reserve(1)?;
    match parts.row(alloc) {
        Ok(row) => {
            rows.put(row);
            Ok(())
        }
        Err(fault) => Err(fault),
    }
}

/// Notes the key as removed, where the tables have a row of it and it isn't noted yet.
pub fn forget(
    alloc: Global,
    gone: &mut KeyedList<Gone>,
    base: &Tables,
    wanted: &Probe,
) -> Result<(), NoMemory>
    ensures ok { OnOk result (without_all gone.new.items base.now.rows ≡ without_row
        (record { name = wanted.now.name.now; number = wanted.now.number })
        (without_all gone.old.items base.now.rows)) }
    ensures err { OnErr result (gone.new.items ≡ gone.old.items) }
{
    let Some(_there) = base.find(wanted) else {
        return Ok(());
    };
    if let Some(_noted) = gone.get(wanted) {
        return Ok(());
    }
    gone.reserve(1)?;
    let name = Text::of(Vec::from_slice(alloc, wanted.name)?);
    gone.put(Gone {
        name,
        key: wanted.number,
    });
    Ok(())
}

/// Drops the rows of the keys. Takes no memory.
pub fn drop_gone(rows: &mut KeyedList<Row>, gone: &[Gone])
    ensures rows { rows.new.items ≡ without_all gone.now rows.old.items }
    ensures spare { rows.old.spare ≤ rows.new.spare }
{
    let mut rest = gone;
    while let [g, later @ ..] = rest {
        rows.remove(g);
        rest = later;
    }
}

/// The bytes of a row where it isn't there any more at the tick `now`, or 2^64 - 1 where there are more.
fn size_gone(row: &Row, now: u64) -> u64
    ensures { result ≡ min (size_gone now row.now) 18446744073709551615 }
{
    if row.is_live(now) { 0 } else { row.size() }
}

/// The bytes of the rows that aren't there any more at the tick `now`, or 2^64 - 1 where there are more.
pub fn expired_size(rows: &[Row], now: u64) -> u64
    ensures { result ≡ min (expired_size now rows.now) 18446744073709551615 }
{
    let mut total = 0u64;
    for row in rows {
        total = total.saturating_add(size_gone(row, now));
    }
    total
}

/// The least of `bound` and the ticks at which the rows go.
pub fn least_expiry(rows: &[Row], bound: u64) -> u64
    ensures { result ≡ least_expiry bound rows.now }
{
    let mut least = bound;
    let mut rest = rows;
    while let [row, later @ ..] = rest {
        least = least.min(row.expiry);
        rest = later;
    }
    least
}

/// The same rows.
pub fn copy_rows(alloc: Global, rows: &[Row]) -> Result<Vec<Row>, NoMemory>
    ensures { IfOk result (λ v. v.items ≡ rows.now) }
{
    let mut done = Items::new(alloc);
    for row in rows {
        add_copy(alloc, row, &mut done)?;
    }
    Ok(done.into_vec())
}

/// Adds the same row.
fn add_copy(alloc: Global, row: &Row, done: &mut Items<Row>) -> Result<(), NoMemory>
    ensures { OnOk result (done.new ≡ done.old ++ row.now ∷ []) }
{
    match row.copy(alloc) {
        Ok(copied) => Ok(done.add(copied)?),
        Err(fault) => Err(fault),
    }
}
