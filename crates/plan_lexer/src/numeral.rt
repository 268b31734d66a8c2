//! Reads numbers.
ghost use Rattle.std.specs.Prelude.{◌≡◌, ℕ, ◌+◌, ◌-◌, ◌*◌, ◌^◌, ◌≤◌, ◌<◌, length, take, get_or, MatchOption, IfOk, IsTrue};
ghost use Rattle.std.specs.Char.{is_ascii_digit};
ghost use Rattle.plan_lexer.specs.Numerals.{number_of, digits_len, number_at, number_behind};

use crate::fault::LexFault;

/// How many digits a text begins with.
fn digits(text: &[u8]) -> usize
    ensures value { result ≡ digits_len text.now }
    ensures within { result ≤ length text.now }
    ensures some { IsTrue (is_ascii_digit (get_or text.now 0 0)) → 0 < result }
{
    let mut count = 0;
    for byte in text {
        if !byte.is_ascii_digit() {
            return count;
        }
        count += 1;
    }
    count
}

/// The number that digits spell, or `None` where it is over `most`.
fn number(digits: &[u8], most: u64) -> Option<u64>
    requires { most ≤ 2 ^ 63 }
    ensures { MatchOption result (most < number_of digits.now) (λ v. (v ≡ number_of digits.now) × (v
        ≤ most)) }
{
    let mut value = 0u64;
    for byte in digits {
        if value > most / 10 {
            return None;
        }
        value = 10 * value + u64::from(byte.saturating_sub(b'0'));
    }
    if value > most { None } else { Some(value) }
}

/// The number that the first digits of a text spell, with how many they are. Over `most` it is refused at `at`.
#[tactic(auto, unfolding(crate::specs::Numerals::number_at))]
pub(crate) fn number_at(at: u32, most: u64, text: &[u8]) -> Result<(u64, usize), LexFault>
    requires { most ≤ 2 ^ 63 }
    ensures value { result ≡ number_at at most text.now }
    ensures within { IfOk result (λ read. (read.0 ≤ most) × (read.1 ≤ length text.now)) }
    ensures some { IfOk result (λ read. IsTrue (is_ascii_digit (get_or text.now 0 0))
        → 0 < read.1) }
{
    let count = digits(text);
    match number(&text[..count], most) {
        Some(value) => Ok((value, count)),
        None => Err(LexFault::NumberTooLarge(at)),
    }
}

/// The same behind a sign at `at`, which begins no token without a digit.
#[tactic(auto, unfolding(crate::specs::Numerals::number_behind))]
pub(crate) fn number_behind(at: u32, most: u64, text: &[u8]) -> Result<(u64, usize), LexFault>
    requires { most ≤ 2 ^ 63 }
    ensures value { result ≡ number_behind at most text.now }
    ensures within { IfOk result (λ read. (read.0 ≤ most) × (read.1 ≤ length text.now)) }
{
    if digits(text) == 0 {
        Err(LexFault::BadChar(at))
    } else {
        number_at(at, most, text)
    }
}
