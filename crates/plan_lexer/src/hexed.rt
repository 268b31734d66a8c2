//! Reads blobs.
ghost use Rattle.std.specs.Prelude.{◌≡◌, ℕ, ◌+◌, ◌*◌, ◌^◌, ◌≤◌, ◌<◌, length, IfOk};
ghost use Rattle.plan_lexer.specs.Faults.{Gives};
ghost use Rattle.plan_lexer.specs.CharItems.{pair_value};
ghost use Rattle.plan_lexer.specs.Quoted.{with_front};
ghost use Rattle.plan_lexer.specs.Hexed.{blob_from, blob_at, IsFront};

use crate::fault::LexFault;
use crate::item::hex_value;
use crate::text::after;
use memchr::memchr;
use plan_base::Bytes;
use std::alloc::{AllocError, Global};

/// How many bytes a blob may have: half as many as stand before the first quote.
fn room_for(text: &[u8]) -> usize
    ensures { 2 * result ≤ length text.now }
{
    match memchr(b'"', text) {
        Some(end) => end / 2,
        None => 0,
    }
}

/// The byte that two hex digits of either case give.
#[tactic(auto, unfolding(crate::specs::CharItems::pair_value))]
fn pair_value(high: u8, low: u8) -> Option<u8>
    ensures { result ≡ pair_value high low }
{
    let first = hex_value(high)?;
    let second = hex_value(low)?;
    Some(16 * first + second)
}

/// The bytes of the pairs of digits that the text of a blob begins with, of at most so many.
#[tactic(auto, using(crate::proofs::BlobLemmas::no_front, crate::proofs::BlobLemmas::front_more))]
fn front_of(alloc: Global, text: &[u8], most: usize) -> Result<Bytes, AllocError>
    requires { 2 * most ≤ length text.now }
    ensures reads { IfOk result (λ bytes. IsFront text.now bytes) }
    ensures within { IfOk result (λ bytes. 2 * length bytes ≤ length text.now) }
{
    let mut bytes = Vec::with_capacity(alloc, most)?;
    'pairs: for i in 0..most {
        let Some(byte) = pair_value(text[2 * i], text[2 * i + 1]) else {
            return Ok(Bytes::of(bytes));
        };
        bytes.push_reserved(byte);
    }
    Ok(Bytes::of(bytes))
}

/// The blob that begins at `start` and whose text goes on at `from` behind its first bytes, and the place behind its
/// closing quote.
fn blob_on(front: Bytes, start: u32, from: u32, text: &[u8]) -> Result<(Bytes, u32), LexFault>
    requires later { start < from }
    requires short { from + length text.now < 2 ^ 32 }
    ensures value { Gives (λ read. read) result (with_front front (blob_from start from None
        text.now)) }
    ensures within { IfOk result (λ read. (start < read.1) × (read.1 ≤ from + length text.now)) }
{
    let mut bytes = front;
    let mut half: Option<u8> = None;
    let mut at = from;
    for byte in text {
        if *byte == b'\n' {
            return Err(LexFault::OpenString(start));
        }
        if *byte == b'"' {
            return match half {
                None => Ok((bytes, at + 1)),
                Some(_) => Err(LexFault::BadChar(at)),
            };
        }
        let Some(digit) = hex_value(*byte) else {
            return Err(LexFault::BadChar(at));
        };
        match half {
            None => half = Some(digit),
            Some(high) => {
                bytes.add(16 * high + digit)?;
                half = None;
            }
        }
        at += 1;
    }
    Err(LexFault::OpenString(start))
}

/// The blob that begins at `start`, two places before the text, and the place behind its closing quote.
pub(crate) fn blob_at(alloc: Global, start: u32, text: &[u8]) -> Result<(Bytes, u32), LexFault>
    requires { start + length text.now < 2 ^ 31 }
    ensures value { Gives (λ read. read) result (blob_at start text.now) }
    ensures within { IfOk result
        (λ read. (start < read.1) × (read.1 ≤ start + 2 + length text.now)) }
{
    let front = front_of(alloc, text, room_for(text))?;
    let passed = 2 * front.len();
    blob_on(front, start, start + 2 + passed as u32, after(text, passed))
}
