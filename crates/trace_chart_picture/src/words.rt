//! The labels of lines.
ghost use Rattle.std.specs.Prelude.{◌≡◌, ◌++◌, OnOk};
ghost use Rattle.trace_chart_picture.specs.Kinds.{kind_of, label_text, visit_text, words_text};
ghost use Rattle.trace_chart_picture.specs.Signs.{stroke_word, kind_word, sign_path};

use crate::drawing::{Kind, LineStyle};
use crate::line::Line;
use crate::number::put_number;
use crate::pieces::{put, put_two};
use crate::write::{put_family, put_rest};
use plan_base::{Bytes, Family, NoMemory};
use std::alloc::Global;

/// What a line is drawn as.
pub(crate) fn kind_of(line: &Line) -> Kind
    ensures { result ≡ kind_of line.now }
{
    match line {
        Line::Wire(_) | Line::WireShown(..) => Kind::Frame,
        Line::Arrived(..) => Kind::Arrival,
        Line::Sent(..) => Kind::Sending,
        Line::Lost(..) | Line::LostAdvert => Kind::Loss,
        Line::Gave(..) => Kind::Value,
        Line::Raised(..) => Kind::Exception,
        Line::Spent(..) => Kind::Spent,
        Line::Dropped(..) | Line::Refused(..) => Kind::Dropped,
        Line::Printed(..) | Line::Delivered(..) => Kind::Note,
        Line::Injected(..) => Kind::Start,
        Line::Forged(..) => Kind::Forgery,
        Line::Handled(..)
        | Line::Queued(..)
        | Line::Asked(_)
        | Line::Advert(..)
        | Line::Heard(..)
        | Line::Ticked(..)
        | Line::Again(_)
        | Line::Nothing => Kind::Aside,
        Line::Off(_) => Kind::Unseen,
    }
}

/// Appends a family and how its visit ended.
fn put_visit(alloc: Global, out: &mut Bytes, f: Family, how: &[u8]) -> Result<(), NoMemory>
    ensures { OnOk result (out.new ≡ out.old ++ visit_text f how.now) }
{
    put_family(alloc, out, f)?;
    put_two(out, b" ", how)
}

/// Appends a line without its host.
fn put_words(alloc: Global, out: &mut Bytes, line: &Line) -> Result<(), NoMemory>
    ensures { OnOk result (out.new ≡ out.old ++ words_text line.now) }
{
    put(out, line.word())?;
    put_rest(alloc, out, line)
}

/// Appends the label of a line, not yet escaped.
pub(crate) fn put_label(alloc: Global, out: &mut Bytes, line: &Line) -> Result<(), NoMemory>
    ensures { OnOk result (out.new ≡ out.old ++ label_text line.now) }
{
    match line {
        Line::Printed(_, text) => put(out, text.as_slice()),
        Line::Gave(_, f, how, _, _) | Line::Raised(_, f, how, _, _) => {
            put_visit(alloc, out, *f, how.as_slice())
        }
        Line::Wire(number) | Line::WireShown(number, _) => {
            put_number(alloc, out, u64::from(*number))
        }
        Line::Arrived(..) | Line::Off(_) | Line::Sent(..) => Ok(()),
        Line::Injected(..)
        | Line::Forged(..)
        | Line::Asked(_)
        | Line::Delivered(..)
        | Line::Spent(..)
        | Line::Handled(..)
        | Line::Queued(..)
        | Line::Dropped(..)
        | Line::Refused(..)
        | Line::Advert(..)
        | Line::Heard(..)
        | Line::Ticked(..)
        | Line::Again(_)
        | Line::Lost(..)
        | Line::LostAdvert
        | Line::Nothing => put_words(alloc, out, line),
    }
}

/// The class of an arrow.
pub(crate) fn stroke_word(stroke: LineStyle) -> &'static [u8]
    ensures { result.now ≡ stroke_word stroke }
{
    match stroke {
        LineStyle::Packet => b"p",
        LineStyle::Advert => b"a",
        LineStyle::Lost => b"l",
        LineStyle::Open => b"o",
        LineStyle::Forged => b"f",
    }
}

/// The class of a sign and a label.
pub(crate) fn kind_word(kind: Kind) -> &'static [u8]
    ensures { result.now ≡ kind_word kind }
{
    match kind {
        Kind::Frame => b"k",
        Kind::Loss => b"c",
        Kind::Value => b"v",
        Kind::Exception => b"x",
        Kind::Spent => b"s",
        Kind::Dropped => b"d",
        Kind::Note => b"n",
        Kind::Start => b"i",
        Kind::Forgery => b"g",
        Kind::Aside => b"t",
        Kind::Arrival | Kind::Sending | Kind::Unseen => b"u",
    }
}

/// The sign of a mark, as a path from its place: a cross, a disc, a diamond, a square, a square with
/// a cross in it, a triangle; or nothing.
pub(crate) fn sign_path(kind: Kind) -> &'static [u8]
    ensures { result.now ≡ sign_path kind }
{
    match kind {
        Kind::Loss => b"m-5 -5l10 10m0 -10l-10 10",
        Kind::Value => b"m-4 0a4 4 0 1 0 8 0a4 4 0 1 0 -8 0",
        Kind::Exception => b"m-5 0l5 -5l5 5l-5 5z",
        Kind::Spent => b"m-4 -4h8v8h-8z",
        Kind::Dropped => b"m-4 -4h8v8h-8zl8 8m0 -8l-8 8",
        Kind::Start | Kind::Forgery => b"m-4 -5l9 5l-9 5z",
        Kind::Frame | Kind::Arrival | Kind::Sending | Kind::Note | Kind::Aside | Kind::Unseen =>
            b"",
    }
}
