//! Splits bytes into lines, and lines into words.
ghost use Rattle.std.specs.Prelude.{◌≡◌, true, ◌==◌, ◌<◌, ◌≤◌, ◌∷◌, [], length, MatchOption, MatchResult, IfSome};
ghost use Rattle.std.specs.List.{position_or_len};
ghost use Rattle.std.specs.Str.{bytes_eq};
ghost use Rattle.line_reader.specs.Lines.{lines, words_left};
ghost use Rattle.line_reader.specs.Files.{is_skipped};
ghost use Rattle.line_reader.specs.Handlers.{comes};
ghost use Rattle.line_reader.specs.Reads.{Reads, word_at, rest_at, end_at, has_word, allowed_or_reason, fault_at};

use crate::fault::{LineError, LineFault, LineReason};
use memchr::memchr;
use std::marker::Model;

#[tactic(auto, using(crate::proofs::Places::first_is, crate::proofs::Places::none_is))]
/// The number of bytes before the first `b`, or of all bytes where there is none.
fn find_byte(text: &[u8], b: u8) -> usize
    ensures place { result ≡ position_or_len (λ x. x == b) text.now }
    ensures within { result ≤ length text.now }
{
    // (most words of a line have one byte, for which nothing is searched)
    if let [first, second, ..] = text {
        if *first != b && *second == b {
            return 1;
        }
    }
    match memchr(b, text) {
        Some(place) => place,
        None => text.len(),
    }
}

#[tactic(auto, using(crate::proofs::Splits::line_last, crate::proofs::Splits::line_more), unfolding(crate::specs::Lines::lines))]
/// The first line and the bytes behind it, or none where no byte is left.
pub fn next_line(bytes: &[u8]) -> Option<(&[u8], &[u8])>
    ensures split { MatchOption result (lines bytes.now ≡ [])
        (λ p. lines bytes.now ≡ p.0.now ∷ lines p.1.now) }
    ensures shorter { IfSome result (λ p. length p.1.now < length bytes.now) }
{
    if bytes.is_empty() {
        return None;
    }
    let end = find_byte(bytes, b'\n');
    let (line, rest) = bytes.split_at(end);
    if end == bytes.len() {
        return Some((line, rest));
    }
    let (_, rest) = bytes.split_at(end + 1);
    Some((line, rest))
}

/// Whether two byte strings are the same.
pub fn is(word: &[u8], text: &[u8]) -> bool
    ensures { result ≡ bytes_eq word.now text.now }
{
    let mut left = word;
    let mut wanted = text;
    while let [byte, more @ ..] = left {
        let [first, others @ ..] = wanted else {
            return false;
        };
        if *byte != *first {
            return false;
        }
        left = more;
        wanted = others;
    }
    wanted.is_empty()
}

/// Nothing where a rule is kept, else the reason that stands for it.
pub fn allow(kept: bool, reason: LineReason) -> Result<(), LineReason>
    ensures { result ≡ allowed_or_reason kept reason }
{
    if kept { Ok(()) } else { Err(reason) }
}

/// The words of a line that are still to come.
#[derive(Drop)]
pub struct Words<'a> {
    rest: &'a [u8],
    more: bool,
}

impl<'a> Model for Words<'a> {
    ghost use Rattle.std.specs.Prelude.{List, ℕ};
    ghost use Rattle.line_reader.specs.Lines.{words_left};

    ghost Value = { List (List ℕ) };

    ghost view = { λ w. words_left w.more w.rest.now };
}

impl<'a> Words<'a> {
    /// All words of a line.
    pub fn of(line: &'a [u8]) -> Words<'a>
        ensures { result ≡ words_left true line.now }
    {
        Words {
            rest: line,
            more: true,
        }
    }

    #[tactic(auto, using(crate::proofs::Splits::word_last, crate::proofs::Splits::word_more))]
    /// The next word. The reason is `BadWord` where the line has ended.
    pub fn next(&mut self) -> Result<&'a [u8], LineReason>
        ensures { Reads (λ w. w.now) result self.new (word_at self.old) }
    {
        if !self.more {
            return Err(LineReason::BadWord);
        }
        let rest = self.rest;
        let end = find_byte(rest, b' ');
        if end == rest.len() {
            self.more = false;
            return Ok(rest);
        }
        let (word, _) = rest.split_at(end);
        let (_, rest) = rest.split_at(end + 1);
        self.rest = rest;
        Ok(word)
    }

    /// Whether a word is left.
    #[tactic(auto, using(crate::proofs::Splits::goes_on_is))]
    pub fn goes_on(&self) -> bool
        ensures { result ≡ has_word self.now }
    {
        self.more
    }

    /// Whether this word comes next.
    pub fn comes(&self, text: &[u8]) -> bool
        ensures { result ≡ comes text.now self.now }
    {
        let mut ahead = Words {
            rest: self.rest,
            more: self.more,
        };
        match ahead.next() {
            Ok(word) => is(word, text),
            Err(_) => false,
        }
    }

    #[tactic(auto, using(crate::proofs::Splits::rest_all))]
    /// The rest of the line. The reason is `BadWord` where the line has ended.
    pub fn rest(&self) -> Result<&'a [u8], LineReason>
        ensures { MatchResult result (λ r. rest_at self.now ≡ Ok r.now)
            (λ e. rest_at self.now ≡ Err e) }
    {
        if self.more {
            Ok(self.rest)
        } else {
            Err(LineReason::BadWord)
        }
    }

    #[tactic(auto, using(crate::proofs::Splits::ended_is))]
    /// Nothing where the line has ended. The reason is `BadWord` where a word is left.
    pub fn end(&self) -> Result<(), LineReason>
        ensures { result ≡ end_at self.now }
    {
        allow(!self.more, LineReason::BadWord)
    }
}

/// Whether a line says nothing: it is empty or a comment.
pub fn says_nothing(line: &[u8]) -> bool
    ensures { result ≡ is_skipped line.now }
{
    match line {
        [] => true,
        [first, ..] => *first == b'#',
    }
}

/// A stop at its line.
pub fn stopped_at(number: u32, stop: LineError) -> LineFault
    ensures { result ≡ fault_at number stop }
{
    match stop {
        LineError::Reason(reason) => LineFault::Line(number, reason),
        LineError::NoMemory => LineFault::NoMemory,
    }
}
