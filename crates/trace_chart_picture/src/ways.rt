//! Draws the arrows of frames.
ghost use Rattle.std.specs.Prelude.{◌≡◌, ◌++◌, OnOk};
ghost use Rattle.std.specs.List.{flat_map};
ghost use Rattle.trace_chart_picture.specs.Places.{point_text};
ghost use Rattle.trace_chart_picture.specs.Pictures.{close_path, arrow_text, inward_text, outward_text, way_text};

use crate::drawing::{Kind, Mark, Point};
use crate::pieces::{put, put_path, put_point, put_two};
use crate::words::stroke_word;
use plan_base::{Bytes, NoMemory};
use std::alloc::Global;

/// Appends how a path goes on to its last place.
fn put_end(alloc: Global, out: &mut Bytes, step: &[u8], to: Point) -> Result<(), NoMemory>
    ensures { OnOk result (out.new ≡ out.old ++ (step.now ++ (point_text to ++ close_path))) }
{
    put(out, step)?;
    put_point(alloc, out, to)?;
    put(out, b"'/>\n")
}

/// Appends the arrow of a frame.
#[tactic(auto, unfolding(crate::specs::Pictures::arrow_text))]
fn put_arrow(alloc: Global, out: &mut Bytes, m: &Mark) -> Result<(), NoMemory>
    ensures { OnOk result (out.new ≡ out.old ++ arrow_text m.now) }
{
    put_path(alloc, out, stroke_word(m.stroke), m.at)?;
    put_end(alloc, out, b"L", m.to)
}

/// Appends an arrow from outside, or nothing where the frame came off the wire.
#[tactic(auto, unfolding(crate::specs::Pictures::inward_text))]
fn put_inward(alloc: Global, out: &mut Bytes, m: &Mark) -> Result<(), NoMemory>
    ensures { OnOk result (out.new ≡ out.old ++ inward_text m.now) }
{
    if !m.is_outside {
        return Ok(());
    }
    put_path(alloc, out, stroke_word(m.stroke), m.at)?;
    put_end(alloc, out, b"m-80 -12L", m.at)
}

/// Appends an arrow out of the network, or nothing where the frame went onto the wire.
#[tactic(auto, unfolding(crate::specs::Pictures::outward_text))]
fn put_outward(alloc: Global, out: &mut Bytes, m: &Mark) -> Result<(), NoMemory>
    ensures { OnOk result (out.new ≡ out.old ++ outward_text m.now) }
{
    if !m.is_outside {
        return Ok(());
    }
    put_path(alloc, out, stroke_word(m.stroke), m.at)?;
    put_two(out, b"l80 12", b"'/>\n")
}

/// Appends the arrow of a mark, where it has one.
#[tactic(auto, unfolding(crate::specs::Pictures::way_text))]
fn put_way(alloc: Global, out: &mut Bytes, m: &Mark) -> Result<(), NoMemory>
    ensures { OnOk result (out.new ≡ out.old ++ way_text m.now) }
{
    match m.kind {
        Kind::Frame => put_arrow(alloc, out, m),
        Kind::Arrival => put_inward(alloc, out, m),
        Kind::Sending => put_outward(alloc, out, m),
        Kind::Loss
        | Kind::Value
        | Kind::Exception
        | Kind::Spent
        | Kind::Dropped
        | Kind::Note
        | Kind::Start
        | Kind::Forgery
        | Kind::Aside
        | Kind::Unseen => Ok(()),
    }
}

/// Appends the arrows of marks.
pub(crate) fn put_ways(alloc: Global, out: &mut Bytes, marks: &[Mark]) -> Result<(), NoMemory>
    ensures { OnOk result (out.new ≡ out.old ++ flat_map way_text marks.now) }
{
    for m in marks {
        put_way(alloc, out, m)?;
    }
    Ok(())
}
