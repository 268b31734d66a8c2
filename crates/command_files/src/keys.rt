//! Reads the keys of messages.
ghost use Rattle.std.specs.Prelude.{◌≡◌};
ghost use Rattle.line_reader.specs.Numbers.{within, number_in, number_at};
ghost use Rattle.line_reader.specs.Reads.{Reads};

use line_reader::{LineReason, Words, decimal};

/// The greatest key.
const MOST_KEY: u64 = 9_223_372_036_854_775_807;

/// A number where it is a key.
fn in_range(n: Option<u64>) -> Option<u64>
    ensures { result ≡ within 0 9223372036854775807 n }
{
    match n {
        None => None,
        Some(n) => { if n <= MOST_KEY { Some(n) } else { None } }
    }
}

/// The key that a word spells, if it spells one.
#[tactic(auto, using(line_reader::proofs::Digits::within_narrow))]
fn key_of(word: &[u8]) -> Option<u64>
    ensures { result ≡ number_in 0 9223372036854775807 word.now }
{
    in_range(decimal(word))
}

/// The next word as a key, from 0 to 2^63 - 1. Reasons: `BadWord` where the line has ended, else `BadNumber`.
#[tactic(auto, unfolding(line_reader::specs::Numbers::number_at))]
pub fn key(words: &mut Words<'_>) -> Result<u64, LineReason>
    ensures { Reads (λ n. n) result words.new (number_at 0 9223372036854775807 words.old) }
{
    let word = words.next()?;
    let n = key_of(word).ok_or(LineReason::BadNumber)?;
    Ok(n)
}
