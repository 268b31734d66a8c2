//! Reads numbers.
ghost use Rattle.std.specs.Prelude.{◌≡◌, ◌≤◌, [], ◌∷◌, IfSome, IfOk};
ghost use Rattle.std.specs.List.{list_all};
ghost use Rattle.line_reader.specs.Numbers.{is_digit, is_padded, digits_from, within, number_in, number_at};
ghost use Rattle.line_reader.specs.Reads.{Reads};

use crate::fault::LineReason;
use crate::words::Words;

/// Whether a word is empty or begins with a zero that isn't all of it.
fn is_padded_word(word: &[u8]) -> bool
    ensures { result ≡ is_padded word.now }
{
    match word {
        [] => true,
        [_] => false,
        [first, _, ..] => *first == b'0',
    }
}

#[tactic(auto, using(crate::proofs::Digits::digit_more, crate::proofs::Digits::digit_done, crate::proofs::Digits::digit_over))]
/// The number that digits spell, where it is below 2^64.
fn digits(word: &[u8]) -> Option<u64>
    ensures { result ≡ within 0 18446744073709551615 (Some (digits_from 0 word.now)) }
{
    let mut n: u64 = 0;
    for d in word {
        let digit = u64::from(d.saturating_sub(b'0'));
        n = n.checked_mul(10)?.checked_add(digit)?;
    }
    Some(n)
}

/// Whether each byte is a decimal digit.
fn are_digits(word: &[u8]) -> bool
    ensures { result ≡ list_all is_digit word.now }
{
    word.iter().all(|d| 48 <= *d && *d <= 57)
}

/// The number that one byte spells, if it is a digit.
#[tactic(auto, using(crate::proofs::Digits::one_digit, crate::proofs::Digits::below_digits, crate::proofs::Digits::above_digits))]
fn digit(byte: u8) -> Option<u64>
    ensures { result ≡ number_in 0 18446744073709551615 (byte ∷ []) }
{
    if byte < b'0' {
        return None;
    }
    if byte > b'9' {
        return None;
    }
    Some(u64::from(byte - b'0'))
}

/// The number that a word spells, where it spells one below 2^64.
pub fn decimal(word: &[u8]) -> Option<u64>
    ensures { result ≡ number_in 0 18446744073709551615 word.now }
{
    if let [byte] = word {
        return digit(*byte);
    }
    if is_padded_word(word) {
        return None;
    }
    if !are_digits(word) {
        return None;
    }
    digits(word)
}

/// The next word as a number below 2^64. Reasons: `BadWord` where the line has ended, else `BadNumber`.
#[tactic(auto, unfolding(crate::specs::Numbers::number_at))]
pub fn wide_number(words: &mut Words<'_>) -> Result<u64, LineReason>
    ensures { Reads (λ n. n) result words.new (number_at 0 18446744073709551615 words.old) }
{
    let word = words.next()?;
    let n = decimal(word).ok_or(LineReason::BadNumber)?;
    Ok(n)
}

/// A number where it is from `low` to `high`.
fn in_range(low: u32, high: u32, n: Option<u64>) -> Option<u32>
    ensures value { result ≡ within low high n }
    ensures range { IfSome result (λ k. (low ≤ k) × (k ≤ high)) }
{
    match n {
        None => None,
        Some(n) => {
            if u64::from(low) <= n && n <= u64::from(high) {
                Some(n as u32)
            } else {
                None
            }
        }
    }
}

/// The number from `low` to `high` that a word spells, if it spells one.
#[tactic(auto, using(crate::proofs::Digits::within_narrow))]
pub fn number_of(word: &[u8], low: u32, high: u32) -> Option<u32>
    ensures value { result ≡ number_in low high word.now }
    ensures range { IfSome result (λ n. (low ≤ n) × (n ≤ high)) }
{
    in_range(low, high, decimal(word))
}

/// The next word as a number from `low` to `high`. Reasons: `BadWord` where the line has ended, else
/// `BadNumber`.
#[tactic(auto, unfolding(crate::specs::Numbers::number_at))]
pub fn number(words: &mut Words<'_>, low: u32, high: u32) -> Result<u32, LineReason>
    ensures read { Reads (λ n. n) result words.new (number_at low high words.old) }
    ensures range { IfOk result (λ n. (low ≤ n) × (n ≤ high)) }
{
    let word = words.next()?;
    let n = number_of(word, low, high).ok_or(LineReason::BadNumber)?;
    Ok(n)
}
