//! Draws the ledger.
ghost use Rattle.std.specs.Prelude.{◌≡◌, ◌++◌, OnOk};
ghost use Rattle.std.specs.List.{flat_map};
ghost use Rattle.trace_chart_picture.specs.Pictures.{heading_text, field_text, paid_text, row_start, granted_text, row_text, ledger_text};

use crate::line::Row;
use crate::pieces::{put, put_before, put_text, put_three, y_of};
use crate::write::put_family;
use containers::Items;
use plan_base::{Bytes, NoMemory};
use std::alloc::Global;

/// The heading of the ledger.
#[tactic(auto, unfolding(crate::specs::Pictures::heading_text))]
fn heading() -> &'static [u8]
    ensures { result.now ≡ heading_text }
{
    b"<tspan x='100'>ledger</tspan><tspan x='190'>granted</tspan>\
<tspan x='280'>hops</tspan><tspan x='370'>evals</tspan><tspan x='460'>live</tspan>\
<tspan x='550'>left</tspan>\n"
}

/// Appends a field of a table, at its right edge.
#[tactic(auto, unfolding(crate::specs::Pictures::field_text))]
fn put_field(alloc: Global, out: &mut Bytes, place: &[u8], n: u64) -> Result<(), NoMemory>
    ensures { OnOk result (out.new ≡ out.old ++ field_text place.now n) }
{
    put_three(out, b"<tspan x='", place, b"'>")?;
    put_before(alloc, out, n, b"</tspan>")
}

/// Appends what a family paid for, and has left.
#[tactic(auto, unfolding(crate::specs::Pictures::paid_text), using(std::proofs::Common::append_assoc))]
fn put_paid(alloc: Global, out: &mut Bytes, r: Row) -> Result<(), NoMemory>
    ensures { OnOk result (out.new ≡ out.old ++ paid_text r) }
{
    put_field(alloc, out, b"280", r.hops)?;
    put_field(alloc, out, b"370", r.evals)?;
    put_field(alloc, out, b"460", r.live)?;
    put_field(alloc, out, b"550", r.left)
}

/// How a row of the ledger begins.
#[tactic(auto, unfolding(crate::specs::Pictures::row_start))]
fn row_start() -> &'static [u8]
    ensures { result.now ≡ row_start }
{
    b"<tspan x='100' dy='18'>"
}

/// Appends a family and what it was granted.
#[tactic(auto, unfolding(crate::specs::Pictures::granted_text), using(std::proofs::Common::append_assoc))]
fn put_granted(alloc: Global, out: &mut Bytes, r: Row) -> Result<(), NoMemory>
    ensures { OnOk result (out.new ≡ out.old ++ granted_text r) }
{
    put(out, row_start())?;
    put_family(alloc, out, r.family)?;
    put(out, b"</tspan>")?;
    put_field(alloc, out, b"190", r.granted)
}

/// Appends a row of the ledger.
#[tactic(auto, unfolding(crate::specs::Pictures::row_text), using(std::proofs::Common::append_assoc))]
fn put_row(alloc: Global, out: &mut Bytes, r: Row) -> Result<(), NoMemory>
    ensures { OnOk result (out.new ≡ out.old ++ row_text r) }
{
    put_granted(alloc, out, r)?;
    put_paid(alloc, out, r)?;
    put(out, b"\n")
}

/// Appends the rows of the ledger.
fn put_rows(alloc: Global, out: &mut Bytes, rows: &[Row]) -> Result<(), NoMemory>
    ensures { OnOk result (out.new ≡ out.old ++ flat_map row_text rows.now) }
{
    for row in rows {
        put_row(alloc, out, *row)?;
    }
    Ok(())
}

/// Appends the ledger below row `bottom`, where there is one.
#[tactic(auto, unfolding(crate::specs::Pictures::ledger_text))]
pub(crate) fn put_ledger(
    alloc: Global,
    out: &mut Bytes,
    bottom: u32,
    ledger: &Option<Items<Row>>,
) -> Result<(), NoMemory>
    ensures { OnOk result (out.new ≡ out.old ++ ledger_text bottom ledger.now) }
{
    let Some(rows) = ledger else {
        return Ok(());
    };
    put_text(alloc, out, b"r", 100, y_of(bottom) + 40)?;
    put(out, heading())?;
    put_rows(alloc, out, rows.as_slice())?;
    put(out, b"</text>\n")
}
