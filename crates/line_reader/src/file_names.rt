//! Reads names of files.
ghost use Rattle.std.specs.Prelude.{◌≡◌, false, true, MatchOption};
ghost use Rattle.std.specs.Str.{is_utf8};
ghost use Rattle.network_config.specs.FileNames.{is_file_name};
ghost use Rattle.line_reader.specs.FileNames.{file_name_at};
ghost use Rattle.line_reader.specs.Reads.{GivesWith};

use crate::fault::{LineError, LineReason};
use crate::words::Words;
use plan_base::Text;
use std::alloc::Global;
use std::str;

/// The longest file name, in bytes.
const MOST_NAME_BYTES: usize = 255;

fn utf8_text(bytes: &[u8]) -> Option<&str>
    ensures { MatchOption result (is_utf8 bytes.now ≡ false)
        (λ text. (text.now ≡ bytes.now) × (is_utf8 bytes.now ≡ true)) }
{
    match str::from_utf8(bytes) {
        Ok(text) => Some(text),
        Err(_) => None,
    }
}

/// The word as a file name, 1 to 255 bytes of UTF-8, or none.
pub fn as_file_name(word: &[u8]) -> Option<&str>
    ensures { MatchOption result (is_file_name word.now ≡ false)
        (λ name. (name.now ≡ word.now) × (is_file_name word.now ≡ true)) }
{
    if word.is_empty() || word.len() > MOST_NAME_BYTES {
        return None;
    }
    utf8_text(word)
}

/// The next word as a file name. Reason: `BadWord`.
#[tactic(auto, unfolding(crate::specs::FileNames::file_name_at))]
pub fn file_name(alloc: Global, words: &mut Words<'_>) -> Result<Text, LineError>
    ensures { GivesWith (λ t. t) result words.new (file_name_at words.old) }
{
    let word = words.next()?;
    let Some(_name) = as_file_name(word) else {
        return Err(LineError::Reason(LineReason::BadWord));
    };
    let name = Vec::from_slice(alloc, word)?;
    Ok(Text::of(name))
}
