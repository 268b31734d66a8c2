//! Puts pieces of SVG.
ghost use Rattle.std.specs.Prelude.{◌≡◌, ◌+◌, ◌*◌, ◌++◌, codes, IfOk, OnOk};
ghost use Rattle.std.specs.Fmt.{decimal};
ghost use Rattle.std.specs.String.{string_bytes};
ghost use Rattle.trace_chart_picture.specs.Places.{x_of, y_of, point_text, path_text, at_text, text_text};

use crate::drawing::Point;
use crate::number::put_number;
use plan_base::{Bytes, NoMemory};
use std::alloc::{AllocError, Global};

/// Appends bytes.
pub(crate) fn put(out: &mut Bytes, more: &[u8]) -> Result<(), NoMemory>
    ensures { OnOk result (out.new ≡ out.old ++ more.now) }
{
    out.add_all(more)?;
    Ok(())
}

/// Appends two texts.
pub(crate) fn put_two(out: &mut Bytes, first: &[u8], second: &[u8]) -> Result<(), NoMemory>
    ensures { OnOk result (out.new ≡ out.old ++ (first.now ++ second.now)) }
{
    put(out, first)?;
    put(out, second)
}

/// Appends three texts.
pub(crate) fn put_three(
    out: &mut Bytes,
    first: &[u8],
    second: &[u8],
    third: &[u8],
) -> Result<(), NoMemory>
    ensures { OnOk result (out.new ≡ out.old ++ (first.now ++ (second.now ++ third.now))) }
{
    put(out, first)?;
    put_two(out, second, third)
}

/// Appends a number and a text behind it.
pub(crate) fn put_before(
    alloc: Global,
    out: &mut Bytes,
    n: u64,
    text: &[u8],
) -> Result<(), NoMemory>
    ensures { OnOk result (out.new ≡ out.old ++ (decimal n ++ text.now)) }
{
    put_number(alloc, out, n)?;
    put(out, text)
}

/// Appends a number between two texts.
pub(crate) fn put_between(
    alloc: Global,
    out: &mut Bytes,
    front: &[u8],
    n: u64,
    text: &[u8],
) -> Result<(), NoMemory>
    ensures { OnOk result (out.new ≡ out.old ++ (front.now ++ (decimal n ++ text.now))) }
{
    put(out, front)?;
    put_before(alloc, out, n, text)
}

/// Pixels from the left.
pub(crate) fn x_of(across: u32) -> u64
    ensures { result ≡ x_of across }
{
    u64::from(across) * 110 + 30
}

/// Pixels from the top.
pub(crate) fn y_of(row: u32) -> u64
    ensures { result ≡ y_of row }
{
    u64::from(row) * 18 + 66
}

/// A place in pixels.
#[tactic(auto, unfolding(crate::specs::Places::point_text))]
fn point(alloc: Global, at: Point) -> Result<String, AllocError>
    ensures { IfOk result (λ text. string_bytes text ≡ point_text at) }
{
    let x = x_of(at.across);
    let y = y_of(at.row);
    format!(in alloc; "{x} {y}")
}

/// Appends a place in pixels.
pub(crate) fn put_point(alloc: Global, out: &mut Bytes, at: Point) -> Result<(), NoMemory>
    ensures { OnOk result (out.new ≡ out.old ++ point_text at) }
{
    let text = point(alloc, at)?;
    put(out, text.as_bytes())
}

/// Appends the beginning of a path of this class, up to its first place.
#[tactic(auto, unfolding(crate::specs::Places::path_text))]
pub(crate) fn put_path(
    alloc: Global,
    out: &mut Bytes,
    class: &[u8],
    at: Point,
) -> Result<(), NoMemory>
    ensures { OnOk result (out.new ≡ out.old ++ path_text class.now at) }
{
    put_three(out, b"<path class='", class, b"' d='M")?;
    put_point(alloc, out, at)
}

/// What places a text in pixels.
#[tactic(auto, unfolding(crate::specs::Places::at_text))]
fn at_text(alloc: Global, x: u64, y: u64) -> Result<String, AllocError>
    ensures { IfOk result (λ text. string_bytes text ≡ at_text x y) }
{
    format!(in alloc; "' x='{x}' y='{y}'>")
}

/// Appends the beginning of a text of this class, up to its first byte.
#[tactic(auto, unfolding(crate::specs::Places::text_text))]
pub(crate) fn put_text(
    alloc: Global,
    out: &mut Bytes,
    class: &[u8],
    x: u64,
    y: u64,
) -> Result<(), NoMemory>
    ensures { OnOk result (out.new ≡ out.old ++ text_text class.now x y) }
{
    let place = at_text(alloc, x, y)?;
    put_three(out, b"<text class='", class, place.as_bytes())
}
