//! Reads words.
ghost use Rattle.std.specs.Prelude.{◌≡◌, ℕ, ◌+◌, ◌^◌, ◌≤◌, ◌<◌, length, get_or, IfOk, IsTrue, Ok};
ghost use Rattle.std.specs.Char.{is_ascii_alphabetic};
ghost use Rattle.plan_lexer.specs.Faults.{Gives};
ghost use Rattle.plan_lexer.specs.WordTokens.{word_len, word_kind, word_at};
ghost use Rattle.plan_base.specs.Words.{is_word_byte, is_word};

use crate::fault::LexFault;
use crate::tables::key_of;
use crate::token::TokenKind;
use plan_base::Name;
use std::alloc::Global;

/// A letter, a digit or `_`.
fn is_word_byte(byte: u8) -> bool
    ensures { result ≡ is_word_byte byte }
{
    byte.is_ascii_alphanumeric() || byte == b'_'
}

/// How many bytes of a word a text begins with.
fn word_len(text: &[u8]) -> usize
    ensures value { result ≡ word_len text.now }
    ensures within { result ≤ length text.now }
{
    let mut count = 0;
    for byte in text {
        if !is_word_byte(*byte) {
            return count;
        }
        count += 1;
    }
    count
}

/// What a word is: a reserved one or a name.
#[tactic(auto, unfolding(crate::specs::WordTokens::word_kind), using(crate::proofs::WordLemmas::IsName_from_key))]
fn word_kind(alloc: Global, word: &[u8]) -> Result<TokenKind, LexFault>
    requires word { IsTrue (is_word word.now) }
    requires short { length word.now ≤ 32 }
    ensures { Gives (λ k. k) result (Ok (word_kind word.now)) }
{
    match key_of(word) {
        Some(key) => Ok(TokenKind::Key(key)),
        None => Ok(TokenKind::Word(Name::of(alloc, word)?)),
    }
}

/// The word that a text at `at` begins with, and the place behind it.
#[tactic(auto, unfolding(crate::specs::WordTokens::word_at), using(crate::proofs::WordLemmas::is_word_front, crate::proofs::WordLemmas::word_len_some))]
pub(crate) fn word_at(alloc: Global, at: u32, text: &[u8]) -> Result<(TokenKind, u32), LexFault>
    requires letter { IsTrue (is_ascii_alphabetic (get_or text.now 0 0)) }
    requires short { at + length text.now < 2 ^ 31 }
    ensures value { Gives (λ read. read) result (word_at at text.now) }
    ensures within { IfOk result (λ read. (at < read.1) × (read.1 ≤ at + length text.now)) }
{
    let len = word_len(text);
    if len > 32 {
        return Err(LexFault::LongName(at));
    }
    let kind = word_kind(alloc, &text[..len])?;
    Ok((kind, at + len as u32))
}
