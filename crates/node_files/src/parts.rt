//! Reads words and numbers that must come next.
ghost use Rattle.std.specs.Prelude.{◌≡◌, ◌≤◌, IfOk};
ghost use Rattle.line_reader.specs.Reads.{ReadsOn, Tells};
ghost use Rattle.node_files.specs.Parts as spec;
ghost use Rattle.node_files.specs.Parts.{behind_word};

use line_reader::{LineReason, Words, allow, is, number, wide_number};

/// Goes behind the word that must stand next. Reason: `BadWord`.
#[tactic(auto, unfolding(crate::specs::Parts::behind_word))]
pub fn expect(words: &mut Words<'_>, word: &[u8]) -> Result<(), LineReason>
    ensures { ReadsOn result words.new (behind_word word.now words.old) }
{
    let next = words.next()?;
    allow(is(next, word), LineReason::BadWord)?;
    Ok(())
}

/// The next word as a number from `low` to `high`, which ends its line. Reasons: `BadWord`, `BadNumber`.
#[tactic(auto, unfolding(crate::specs::Parts::last_number))]
pub fn last_number(words: &mut Words<'_>, low: u32, high: u32) -> Result<u32, LineReason>
    ensures read { Tells (λ n. n) result (spec.last_number low high words.old) }
    ensures range { IfOk result (λ n. (low ≤ n) × (n ≤ high)) }
{
    let n = number(words, low, high)?;
    words.end()?;
    Ok(n)
}

/// The next word as a number below 2^64, which ends its line. Reasons: `BadWord`, `BadNumber`.
#[tactic(auto, unfolding(crate::specs::Parts::last_number))]
pub fn last_wide_number(words: &mut Words<'_>) -> Result<u64, LineReason>
    ensures { Tells (λ n. n) result (spec.last_number 0 18446744073709551615 words.old) }
{
    let n = wide_number(words)?;
    words.end()?;
    Ok(n)
}
