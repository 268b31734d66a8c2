//! One move of the lexer: the longest token at the front.
ghost use Rattle.std.specs.Prelude.{◌≡◌, ℕ, ◌+◌, ◌^◌, ◌≤◌, ◌<◌, length, get_or, IfOk, IsTrue, pos, neg_ℤ};
ghost use Rattle.std.specs.Char.{is_ascii_digit};
ghost use Rattle.plan_lexer.specs.Faults.{Gives};
ghost use Rattle.plan_lexer.specs.Scanning.{int_at, negative_at, host_at, dev_at, part_at, hash_at, symbol_by, signed_at, token_at, move_at};
ghost use Rattle.plan_lexer.specs.Tables.{symbol_at};

use crate::fault::LexFault;
use crate::gap::gap_at;
use crate::hexed::blob_at;
use crate::numeral::{number_at, number_behind};
use crate::quoted::{char_at, string_at};
use crate::tables::symbol_at;
use crate::text::byte_at;
use crate::token::TokenKind;
use crate::word::word_at;
use std::alloc::Global;

/// The number that a text at `at` begins with.
#[tactic(auto, unfolding(crate::specs::Scanning::int_at))]
fn int_at(at: u32, text: &[u8]) -> Result<(TokenKind, u32), LexFault>
    requires digit { IsTrue (is_ascii_digit (get_or text.now 0 0)) }
    requires short { at + length text.now < 2 ^ 31 }
    ensures value { result ≡ int_at at text.now }
    ensures within { IfOk result (λ read. (at < read.1) × (read.1 ≤ at + length text.now)) }
{
    let (number, len) = number_at(at, 0x7fff_ffff_ffff_ffff, text)?;
    Ok((TokenKind::Int(number as i64), at + len as u32))
}

/// The least number, or the negative of one that an `i64` holds.
fn negative_of(number: u64) -> i64
    requires { number ≤ 0x8000_0000_0000_0000 }
    ensures { result ≡ neg_ℤ (pos number) }
{
    if number == 0x8000_0000_0000_0000 {
        i64::MIN
    } else {
        -(number as i64)
    }
}

/// The negative number whose sign stands at `at`, before the text.
#[tactic(auto, unfolding(crate::specs::Scanning::negative_at))]
fn negative_at(at: u32, text: &[u8]) -> Result<(TokenKind, u32), LexFault>
    requires { at + 1 + length text.now < 2 ^ 31 }
    ensures value { result ≡ negative_at at text.now }
    ensures within { IfOk result (λ read. (at < read.1) × (read.1 ≤ at + 1 + length text.now)) }
{
    let (number, len) = number_behind(at, 0x8000_0000_0000_0000, text)?;
    Ok((TokenKind::Int(negative_of(number)), at + 1 + len as u32))
}

/// The host whose sign stands at `at`, before the text.
#[tactic(auto, unfolding(crate::specs::Scanning::host_at))]
fn host_at(at: u32, text: &[u8]) -> Result<(TokenKind, u32), LexFault>
    requires { at + 1 + length text.now < 2 ^ 31 }
    ensures value { result ≡ host_at at text.now }
    ensures within { IfOk result (λ read. (at < read.1) × (read.1 ≤ at + 1 + length text.now)) }
{
    let (number, len) = number_behind(at, 0xffff_ffff, text)?;
    Ok((TokenKind::Host(number as u32), at + 1 + len as u32))
}

/// The device whose sign stands at `at`, before the text.
#[tactic(auto, unfolding(crate::specs::Scanning::dev_at))]
fn dev_at(at: u32, text: &[u8]) -> Result<(TokenKind, u32), LexFault>
    requires { at + 1 + length text.now < 2 ^ 31 }
    ensures value { result ≡ dev_at at text.now }
    ensures within { IfOk result (λ read. (at < read.1) × (read.1 ≤ at + 1 + length text.now)) }
{
    let (number, len) = number_behind(at, 0xffff_ffff, text)?;
    Ok((TokenKind::Dev(number as u32), at + 1 + len as u32))
}

/// The number of a tuple's part whose sign stands at `at`, before the text.
#[tactic(auto, unfolding(crate::specs::Scanning::part_at))]
fn part_at(at: u32, text: &[u8]) -> Result<(TokenKind, u32), LexFault>
    requires { at + 1 + length text.now < 2 ^ 31 }
    ensures value { result ≡ part_at at text.now }
    ensures within { IfOk result (λ read. (at < read.1) × (read.1 ≤ at + 1 + length text.now)) }
{
    let (number, len) = number_behind(at, 8, text)?;
    if number == 0 {
        return Err(LexFault::NumberTooLarge(at));
    }
    Ok((TokenKind::Part(number as u8), at + 1 + len as u32))
}

/// The blob or the part whose `#` stands at `at`, before the text.
#[tactic(auto, unfolding(crate::specs::Scanning::hash_at))]
fn hash_at(alloc: Global, at: u32, text: &[u8]) -> Result<(TokenKind, u32), LexFault>
    requires { at + 1 + length text.now < 2 ^ 31 }
    ensures value { Gives (λ read. read) result (hash_at at text.now) }
    ensures within { IfOk result (λ read. (at < read.1) × (read.1 ≤ at + 1 + length text.now)) }
{
    if byte_at(text, 0) != b'"' {
        return part_at(at, text);
    }
    let (blob, stop) = blob_at(alloc, at, &text[1..])?;
    Ok((TokenKind::Blob(blob), stop))
}

/// The symbol that a text at `at` begins with.
fn symbol_token(at: u32, text: &[u8]) -> Result<(TokenKind, u32), LexFault>
    requires { at + length text.now < 2 ^ 31 }
    ensures value { result ≡ symbol_by at (symbol_at text.now) }
    ensures within { IfOk result (λ read. (at < read.1) × (read.1 ≤ at + length text.now)) }
{
    match symbol_at(text) {
        Some(symbol) => Ok((TokenKind::Symbol(symbol), at + symbol.text().len() as u32)),
        None => Err(LexFault::BadChar(at)),
    }
}

/// The token that a text at `at` begins with by a sign, or the symbol.
#[tactic(auto, unfolding(crate::specs::Scanning::signed_at))]
fn signed_at(alloc: Global, at: u32, text: &[u8]) -> Result<(TokenKind, u32), LexFault>
    requires some { 0 < length text.now }
    requires short { at + length text.now < 2 ^ 31 }
    ensures value { Gives (λ read. read) result (signed_at at text.now) }
    ensures within { IfOk result (λ read. (at < read.1) × (read.1 ≤ at + length text.now)) }
{
    let sign = byte_at(text, 0);
    if sign == b'~' {
        negative_at(at, &text[1..])
    } else if sign == b'@' {
        host_at(at, &text[1..])
    } else if sign == b'%' {
        dev_at(at, &text[1..])
    } else if sign == b'#' {
        hash_at(alloc, at, &text[1..])
    } else {
        symbol_token(at, text)
    }
}

/// The token that a text at `at` begins with.
#[tactic(auto, unfolding(crate::specs::Scanning::token_at))]
fn token_at(alloc: Global, at: u32, text: &[u8]) -> Result<(TokenKind, u32), LexFault>
    requires some { 0 < length text.now }
    requires short { at + length text.now < 2 ^ 31 }
    ensures value { Gives (λ read. read) result (token_at at text.now) }
    ensures within { IfOk result (λ read. (at < read.1) × (read.1 ≤ at + length text.now)) }
{
    let first = byte_at(text, 0);
    if first.is_ascii_alphabetic() {
        word_at(alloc, at, text)
    } else if first.is_ascii_digit() {
        int_at(at, text)
    } else if first == b'"' {
        let (string, stop) = string_at(alloc, at, &text[1..])?;
        Ok((TokenKind::Str(string), stop))
    } else if first == b'\'' {
        let (code, stop) = char_at(at, &text[1..])?;
        Ok((TokenKind::Char(code), stop))
    } else {
        signed_at(alloc, at, text)
    }
}

/// The gap or the token that a text at `at` begins with, and the place behind it.
#[tactic(auto, unfolding(crate::specs::Scanning::move_at))]
pub(crate) fn move_at(
    alloc: Global,
    at: u32,
    text: &[u8],
) -> Result<(Option<TokenKind>, u32), LexFault>
    requires some { 0 < length text.now }
    requires short { at + length text.now < 2 ^ 31 }
    ensures value { Gives (λ read. read) result (move_at at text.now) }
    ensures within { IfOk result (λ read. (at < read.1) × (read.1 ≤ at + length text.now)) }
{
    let next = gap_at(at, text)?;
    if next > at {
        return Ok((None, next));
    }
    let (kind, stop) = token_at(alloc, at, text)?;
    Ok((Some(kind), stop))
}
