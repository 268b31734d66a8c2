//! Draws a whole picture.
ghost use Rattle.std.specs.Prelude.{◌≡◌, ◌++◌, OnOk};
ghost use Rattle.std.specs.List.{flat_map};
ghost use Rattle.trace_chart_picture.specs.Pictures.{name_text, line_text, lane_text, marks_text, picture_start, size_text, picture_text};

use crate::drawing::{Drawing, Lane, Mark, Point};
use crate::events::put_events;
use crate::ledger::put_ledger;
use crate::pieces::{put, put_before, put_between, put_path, put_text, x_of, y_of};
use crate::signs::put_marks;
use crate::styles::put_style;
use crate::ways::put_ways;
use plan_base::{Bytes, NoMemory};
use std::alloc::Global;

/// Appends the heading of the column of a host.
#[tactic(auto, unfolding(crate::specs::Pictures::name_text), using(std::proofs::Common::append_assoc))]
fn put_name(alloc: Global, out: &mut Bytes, lane: Lane) -> Result<(), NoMemory>
    ensures { OnOk result (out.new ≡ out.old ++ name_text lane) }
{
    put_text(alloc, out, b"h", x_of(lane.across), 54)?;
    put_between(alloc, out, b"host ", u64::from(lane.host), b"</text>\n")
}

/// Appends the line of a column, down to row `bottom`.
#[tactic(auto, unfolding(crate::specs::Pictures::line_text), using(std::proofs::Common::append_assoc))]
fn put_line(alloc: Global, out: &mut Bytes, across: u32, bottom: u32) -> Result<(), NoMemory>
    ensures { OnOk result (out.new ≡ out.old ++ line_text across bottom) }
{
    put_path(alloc, out, b"h", Point { across, row: 0 })?;
    put_between(alloc, out, b"V", y_of(bottom), b"'/>\n")
}

/// Appends the column of a host, down to row `bottom`.
#[tactic(auto, unfolding(crate::specs::Pictures::lane_text), using(std::proofs::Common::append_assoc))]
fn put_lane(alloc: Global, out: &mut Bytes, bottom: u32, lane: Lane) -> Result<(), NoMemory>
    ensures { OnOk result (out.new ≡ out.old ++ lane_text bottom lane) }
{
    put_name(alloc, out, lane)?;
    put_line(alloc, out, lane.across, bottom)
}

/// Appends the columns of hosts.
fn put_lanes(alloc: Global, out: &mut Bytes, bottom: u32, lanes: &[Lane]) -> Result<(), NoMemory>
    ensures { OnOk result (out.new ≡ out.old ++ flat_map (lane_text bottom) lanes.now) }
{
    for lane in lanes {
        put_lane(alloc, out, bottom, *lane)?;
    }
    Ok(())
}

/// How a picture begins, up to its width.
#[tactic(auto, unfolding(crate::specs::Pictures::picture_start))]
fn picture_start() -> &'static [u8]
    ensures { result.now ≡ picture_start }
{
    b"<svg xmlns='http://www.w3.org/2000/svg' width='"
}

/// Appends the beginning of a picture of this width and height in pixels.
#[tactic(auto, unfolding(crate::specs::Pictures::size_text), using(std::proofs::Common::append_assoc))]
fn put_size(alloc: Global, out: &mut Bytes, width: u64, height: u64) -> Result<(), NoMemory>
    ensures { OnOk result (out.new ≡ out.old ++ size_text width height) }
{
    put_between(alloc, out, picture_start(), width, b"' height='")?;
    put_before(alloc, out, height, b"'>\n")
}

/// Appends marks: events lie below arrows, and these below signs and labels.
#[tactic(auto, unfolding(crate::specs::Pictures::marks_text), using(std::proofs::Common::append_assoc))]
fn put_all(alloc: Global, out: &mut Bytes, marks: &[Mark]) -> Result<(), NoMemory>
    ensures { OnOk result (out.new ≡ out.old ++ marks_text marks.now) }
{
    put_events(alloc, out, marks)?;
    put_ways(alloc, out, marks)?;
    put_marks(alloc, out, marks)
}

/// Appends the SVG text of a drawing.
#[tactic(auto, unfolding(crate::specs::Pictures::picture_text), using(std::proofs::Common::append_assoc))]
pub fn put_picture(alloc: Global, out: &mut Bytes, d: &Drawing) -> Result<(), NoMemory>
    ensures { OnOk result (out.new ≡ out.old ++ picture_text d.now) }
{
    put_size(alloc, out, d.width, d.height)?;
    put_style(out)?;
    put_lanes(alloc, out, d.bottom, d.lanes.as_slice())?;
    put_all(alloc, out, d.marks.as_slice())?;
    put_ledger(alloc, out, d.bottom, &d.ledger)?;
    put(out, b"</svg>\n")
}
