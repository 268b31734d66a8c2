//! Draws signs and labels.
ghost use Rattle.std.specs.Prelude.{◌≡◌, ◌+◌, ◌*◌, ◌++◌, OnOk};
ghost use Rattle.std.specs.List.{flat_map};
ghost use Rattle.trace_chart_picture.specs.Places.{x_of};
ghost use Rattle.trace_chart_picture.specs.Pictures.{formed_text, label_y, labelled_text, mark_text};

use crate::drawing::{Kind, Mark};
use crate::escape::put_shown;
use crate::pieces::{put, put_path, put_text, put_two, x_of};
use crate::words::{kind_word, sign_path};
use plan_base::{Bytes, NoMemory};
use std::alloc::Global;

/// Appends a sign of this form, or nothing.
#[tactic(auto, unfolding(crate::specs::Pictures::formed_text))]
fn put_formed(alloc: Global, out: &mut Bytes, form: &[u8], m: &Mark) -> Result<(), NoMemory>
    ensures { OnOk result (out.new ≡ out.old ++ formed_text form.now m.now) }
{
    if form.is_empty() {
        return Ok(());
    }
    put_path(alloc, out, kind_word(m.kind), m.at)?;
    put_two(out, form, b"'/>\n")
}

/// Pixels from the left to a label.
fn label_x(across: u32) -> u64
    ensures { result ≡ x_of across + 9 }
{
    x_of(across) + 9
}

/// Pixels from the top to the line that a label stands on. Numbers of frames stand higher, losses in
/// the next row.
fn label_y(kind: Kind, row: u32) -> u64
    ensures { result ≡ label_y kind row }
{
    match kind {
        Kind::Frame => u64::from(row) * 18 + 64,
        Kind::Loss => u64::from(row) * 18 + 84,
        Kind::Arrival
        | Kind::Sending
        | Kind::Value
        | Kind::Exception
        | Kind::Spent
        | Kind::Dropped
        | Kind::Note
        | Kind::Start
        | Kind::Forgery
        | Kind::Aside
        | Kind::Unseen => u64::from(row) * 18 + 70,
    }
}

/// Appends a label, or nothing.
#[tactic(auto, unfolding(crate::specs::Pictures::labelled_text))]
fn put_labelled(alloc: Global, out: &mut Bytes, label: &[u8], m: &Mark) -> Result<(), NoMemory>
    ensures { OnOk result (out.new ≡ out.old ++ labelled_text label.now m.now) }
{
    if label.is_empty() {
        return Ok(());
    }
    let x = label_x(m.at.across);
    let y = label_y(m.kind, m.at.row);
    put_text(alloc, out, kind_word(m.kind), x, y)?;
    put_shown(out, label)?;
    put(out, b"</text>\n")
}

/// Appends a mark: its sign and its label.
#[tactic(auto, unfolding(crate::specs::Pictures::mark_text))]
fn put_mark(alloc: Global, out: &mut Bytes, m: &Mark) -> Result<(), NoMemory>
    ensures { OnOk result (out.new ≡ out.old ++ mark_text m.now) }
{
    put_formed(alloc, out, sign_path(m.kind), m)?;
    put_labelled(alloc, out, m.label.as_slice(), m)
}

/// Appends marks.
pub(crate) fn put_marks(alloc: Global, out: &mut Bytes, marks: &[Mark]) -> Result<(), NoMemory>
    ensures { OnOk result (out.new ≡ out.old ++ flat_map mark_text marks.now) }
{
    for m in marks {
        put_mark(alloc, out, m)?;
    }
    Ok(())
}
