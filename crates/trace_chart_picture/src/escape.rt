//! Escapes a text for XML.
ghost use Rattle.std.specs.Prelude.{◌≡◌, ◌++◌, codes, ◌<◌, ◌≤◌, ◌==◌, ◌&&◌, ◌||◌, true, length, take, get_or, nat_lt, nat_le, OnOk};
ghost use Rattle.std.specs.List.{list_all};
ghost use Rattle.trace_chart_picture.specs.Escapes.{byte_text, seen_with, escaped_from, escaped_text, is_harmless, begins_character, cut_place, shown_label};

use crate::pieces::put;
use plan_base::{Bytes, NoMemory};

/// The longest label that is shown whole.
const MOST_SHOWN: usize = 36;

/// Whether this byte ends U+FFFE or U+FFFF, which XML has not.
fn is_end_of_none(seen: u8, b: u8) -> bool
    ensures { result ≡ (seen == 2) && nat_lt 189 b }
{
    seen == 2 && b > 189
}

/// Whether this is the second byte of U+FFFE or U+FFFF.
fn is_second_of_none(seen: u8, b: u8) -> bool
    ensures { result ≡ (seen == 1) && (b == 191) }
{
    seen == 1 && b == 191
}

/// Whether this is a byte of a control character.
fn is_control(b: u8) -> bool
    ensures { result ≡ nat_lt b 32 }
{
    b < 32
}

/// Appends a byte of a text as it stands in a picture.
#[tactic(auto, unfolding(crate::specs::Escapes::byte_text), using(std::proofs::Common::append_assoc))]
fn put_byte(out: &mut Bytes, seen: u8, b: u8) -> Result<(), NoMemory>
    ensures { OnOk result (out.new ≡ out.old ++ byte_text seen b) }
{
    if b == b'<' {
        return put(out, b"&lt;");
    }
    if b == b'>' {
        return put(out, b"&gt;");
    }
    if b == b'&' {
        return put(out, b"&amp;");
    }
    if b == b'"' {
        return put(out, b"&quot;");
    }
    if b == b'\'' {
        return put(out, b"&#39;");
    }
    if is_control(b) {
        return put(out, &[239, 191, 189]);
    }
    if is_end_of_none(seen, b) {
        return put(out, &[189]);
    }
    put(out, &[b])
}

/// How many bytes of U+FFFE or U+FFFF there are with this one.
#[tactic(auto, unfolding(crate::specs::Escapes::seen_with))]
fn seen_with(seen: u8, b: u8) -> u8
    ensures { result ≡ seen_with seen b }
{
    if b == 239 {
        return 1;
    }
    if is_second_of_none(seen, b) { 2 } else { 0 }
}

/// Appends a text in which the signs of XML are replaced by their names, and what is no character
/// of XML by U+FFFD.
pub fn put_escaped(out: &mut Bytes, text: &[u8]) -> Result<(), NoMemory>
    ensures whole { OnOk result (out.new ≡ out.old ++ escaped_text text.now) }
    ensures harmless { OnOk result (list_all is_harmless (escaped_text text.now) ≡ true) }
{
    let mut seen: u8 = 0;
    for b in text {
        put_byte(out, seen, *b)?;
        seen = seen_with(seen, *b);
    }
    Ok(())
}

/// Whether a label is shown whole.
fn is_short(label: &[u8]) -> bool
    ensures { result ≡ nat_le (length label.now) 36 }
{
    label.len() <= MOST_SHOWN
}

/// Whether a character begins at place `i`.
fn begins_at(text: &[u8], i: usize) -> bool
    ensures { result ≡ begins_character (get_or text.now i 0) }
{
    let b = text.get(i).copied().unwrap_or(0);
    b < 128 || b > 191
}

/// The first of the places 36, 35, 34 and 33 at which a character begins.
#[tactic(auto, unfolding(crate::specs::Escapes::cut_place))]
fn cut_place(text: &[u8]) -> usize
    ensures place { result ≡ cut_place text.now }
    ensures within { result ≤ 36 }
{
    if begins_at(text, 36) {
        36
    } else if begins_at(text, 35) {
        35
    } else if begins_at(text, 34) {
        34
    } else {
        33
    }
}

/// Appends the front of a long label, escaped.
fn put_front(out: &mut Bytes, front: &[u8]) -> Result<(), NoMemory>
    ensures { OnOk result (out.new ≡ out.old ++ (escaped_text front.now ++ codes "..")) }
{
    put_escaped(out, front)?;
    put(out, b"..")
}

/// Appends a label, escaped: of a long one the front, and the whole as a note that is shown on
/// request.
#[tactic(auto, unfolding(crate::specs::Escapes::shown_label))]
pub(crate) fn put_shown(out: &mut Bytes, label: &[u8]) -> Result<(), NoMemory>
    ensures { OnOk result (out.new ≡ out.old ++ shown_label label.now) }
{
    if is_short(label) {
        return put_escaped(out, label);
    }
    put(out, b"<title>")?;
    put_escaped(out, label)?;
    put(out, b"</title>")?;
    put_front(out, &label[..cut_place(label)])
}
