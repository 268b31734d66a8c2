//! Blanks and comments between tokens.
ghost use Rattle.std.specs.Prelude.{◌≡◌, ℕ, ◌+◌, ◌^◌, ◌≤◌, ◌<◌, ◌&&◌, ◌==◌, length, get_or, IfOk};
ghost use Rattle.plan_lexer.specs.Gaps.{is_blank, left_by, opens, closes, comment_at, gap_at};

use crate::fault::LexFault;
use crate::text::byte_at;

/// What stands before a byte of a comment, as far as it may open or close one.
#[derive(Clone, Copy)]
pub(crate) enum Before {
    /// A `(` that belongs to no `(*` yet.
    Paren,
    /// A `*` that belongs to no `(*` or `*)` yet.
    Star,
    /// Anything else.
    Other,
}

/// Space, tab, CR or LF.
fn is_blank(byte: u8) -> bool
    ensures { result ≡ is_blank byte }
{
    byte == b' ' || byte == b'\t' || byte == b'\r' || byte == b'\n'
}

/// What a byte that neither opens nor closes a comment leaves for the next.
#[tactic(auto, unfolding(crate::specs::Gaps::left_by))]
fn left_by(byte: u8) -> Before
    ensures { result ≡ left_by byte }
{
    if byte == b'(' {
        Before::Paren
    } else if byte == b'*' {
        Before::Star
    } else {
        Before::Other
    }
}

/// Whether a byte opens a comment inside the comment.
#[tactic(auto, unfolding(crate::specs::Gaps::opens))]
fn opens(last: Before, byte: u8) -> bool
    ensures { result ≡ opens last byte }
{
    match last {
        Before::Paren => byte == b'*',
        Before::Star => false,
        Before::Other => false,
    }
}

/// Whether a byte closes the innermost comment.
#[tactic(auto, unfolding(crate::specs::Gaps::closes))]
fn closes(last: Before, byte: u8) -> bool
    ensures { result ≡ closes last byte }
{
    match last {
        Before::Star => byte == b')',
        Before::Paren => false,
        Before::Other => false,
    }
}

/// The place behind the comment that begins at `start`, two places before the text.
#[tactic(auto, unfolding(crate::specs::Gaps::comment_at))]
fn comment_at(start: u32, text: &[u8]) -> Result<u32, LexFault>
    requires { start + length text.now < 2 ^ 31 }
    ensures value { result ≡ comment_at start text.now }
    ensures within { IfOk result (λ next. (start < next) × (next ≤ start + 2 + length text.now)) }
{
    let mut depth = 0u32;
    let mut last = Before::Other;
    let mut at = start + 2;
    for byte in text {
        if opens(last, *byte) {
            depth += 1;
            last = Before::Other;
        } else if closes(last, *byte) {
            if depth == 0 {
                return Ok(at + 1);
            }
            depth -= 1;
            last = Before::Other;
        } else {
            last = left_by(*byte);
        }
        at += 1;
    }
    Err(LexFault::OpenComment(start))
}

/// Whether a comment begins here.
fn opens_comment(text: &[u8]) -> bool
    ensures { result ≡ (get_or text.now 0 0 == 40) && (get_or text.now 1 0 == 42) }
{
    byte_at(text, 0) == b'(' && byte_at(text, 1) == b'*'
}

/// The place behind the blank or comment that a text at `at` begins with, or `at` where it begins with none.
#[tactic(auto, unfolding(crate::specs::Gaps::gap_at))]
pub(crate) fn gap_at(at: u32, text: &[u8]) -> Result<u32, LexFault>
    requires { at + length text.now < 2 ^ 31 }
    ensures value { result ≡ gap_at at text.now }
    ensures within { IfOk result (λ next. (at ≤ next) × (next ≤ at + length text.now)) }
{
    if is_blank(byte_at(text, 0)) {
        return Ok(at + 1);
    }
    if opens_comment(text) {
        return comment_at(at, &text[2..]);
    }
    Ok(at)
}
