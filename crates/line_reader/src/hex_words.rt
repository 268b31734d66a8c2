//! Reads bytes in hex.
ghost use Rattle.std.specs.Prelude.{◌≡◌, ◌≤◌, length, IfSome, IfOk};
ghost use Rattle.hex.specs.Hex.{decode_of};
ghost use Rattle.line_reader.specs.HexWords as spec;
ghost use Rattle.line_reader.specs.HexWords.{hex_of, within_size, hex_at};
ghost use Rattle.line_reader.specs.Reads.{Finds, GivesWith};

use crate::fault::{LineError, LineReason};
use crate::words::Words;
use hex::FromHexError;
use plan_base::{Bytes, NoMemory};
use std::alloc::Global;

/// The bytes that a word spells in hex digits of either case, or none.
pub fn bytes_of_hex(alloc: Global, word: &[u8]) -> Result<Option<Bytes>, NoMemory>
    ensures { Finds result (spec.hex_of (decode_of word.now)) }
{
    match hex::decode(alloc, word) {
        Ok(bytes) => Ok(Some(Bytes::of(bytes))),
        Err(FromHexError::OutOfMemory) => Err(NoMemory),
        Err(_) => Ok(None),
    }
}

/// Bytes of which there are from `low` to `high`.
fn in_size(bytes: Option<Bytes>, low: usize, high: usize) -> Option<Bytes>
    ensures value { result ≡ within_size low high bytes }
    ensures within { IfSome result (λ b. length b ≤ high) }
{
    match bytes {
        None => None,
        Some(bytes) => {
            if low <= bytes.len() && bytes.len() <= high {
                Some(bytes)
            } else {
                None
            }
        }
    }
}

/// The next word as from `low` to `high` bytes in hex. Reasons: `BadWord` where the line has ended, else `BadArgument`.
#[tactic(auto, unfolding(crate::specs::HexWords::hex_at))]
pub fn hex_bytes(
    alloc: Global,
    words: &mut Words<'_>,
    low: usize,
    high: usize,
) -> Result<Bytes, LineError>
    ensures read { GivesWith (λ b. b) result words.new (hex_at low high words.old) }
    ensures within { IfOk result (λ b. length b ≤ high) }
{
    let word = words.next()?;
    let bytes = bytes_of_hex(alloc, word)?;
    let bytes = in_size(bytes, low, high).ok_or(LineReason::BadArgument)?;
    Ok(bytes)
}
