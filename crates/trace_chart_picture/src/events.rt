//! Draws the numbers of events.
ghost use Rattle.std.specs.Prelude.{◌≡◌, ◌+◌, ◌*◌, ◌++◌, OnOk};
ghost use Rattle.std.specs.List.{flat_map};
ghost use Rattle.trace_chart_picture.specs.Places.{y_of};
ghost use Rattle.trace_chart_picture.specs.Pictures.{number_text, across_text, event_text};

use crate::drawing::{Mark, Point};
use crate::pieces::{put, put_before, put_path, put_text, y_of};
use plan_base::{Bytes, NoMemory};
use std::alloc::Global;

/// Pixels from the top to the line that the number of an event stands on.
fn number_y(row: u32) -> u64
    ensures { result ≡ y_of row + 4 }
{
    y_of(row) + 4
}

/// Appends the number of an event.
#[tactic(auto, unfolding(crate::specs::Pictures::number_text), using(std::proofs::Common::append_assoc))]
fn put_event_number(alloc: Global, out: &mut Bytes, event: u64, row: u32) -> Result<(), NoMemory>
    ensures { OnOk result (out.new ≡ out.old ++ number_text event row) }
{
    put_text(alloc, out, b"e", 34, number_y(row))?;
    put_before(alloc, out, event, b"</text>\n")
}

/// Appends a line across, above a row.
#[tactic(auto, unfolding(crate::specs::Pictures::across_text), using(std::proofs::Common::append_assoc))]
fn put_across(alloc: Global, out: &mut Bytes, row: u32) -> Result<(), NoMemory>
    ensures { OnOk result (out.new ≡ out.old ++ across_text row) }
{
    put_path(alloc, out, b"e", Point { across: 0, row })?;
    put(out, b"m9 -9h9999'/>\n")
}

/// Appends the number of an event and a line across, where it begins.
#[tactic(auto, unfolding(crate::specs::Pictures::event_text), using(std::proofs::Common::append_assoc))]
fn put_event(alloc: Global, out: &mut Bytes, m: &Mark) -> Result<(), NoMemory>
    ensures { OnOk result (out.new ≡ out.old ++ event_text m.now) }
{
    if !m.begins {
        return Ok(());
    }
    put_event_number(alloc, out, m.event, m.at.row)?;
    put_across(alloc, out, m.at.row)
}

/// Appends the numbers of events and the lines across.
pub(crate) fn put_events(alloc: Global, out: &mut Bytes, marks: &[Mark]) -> Result<(), NoMemory>
    ensures { OnOk result (out.new ≡ out.old ++ flat_map event_text marks.now) }
{
    for m in marks {
        put_event(alloc, out, m)?;
    }
    Ok(())
}
