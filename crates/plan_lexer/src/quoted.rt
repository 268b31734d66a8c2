//! Reads strings and chars.
ghost use Rattle.std.specs.Prelude.{◌≡◌, ℕ, ◌+◌, ◌^◌, ◌≤◌, ◌<◌, length, IfOk};
ghost use Rattle.plan_lexer.specs.Faults.{Gives};
ghost use Rattle.plan_lexer.specs.Quoted.{string_at, char_at};

use crate::fault::LexFault;
use crate::item::{CharItem, item_at};
use crate::text::byte_at;
use plan_base::Text;
use std::alloc::Global;

/// The string whose opening quote stands at `start` before the text, and the place behind its closing quote.
#[tactic(auto, unfolding(crate::specs::Quoted::string_at))]
pub(crate) fn string_at(alloc: Global, start: u32, text: &[u8]) -> Result<(Text, u32), LexFault>
    requires { start + length text.now < 2 ^ 31 }
    ensures value { Gives (λ read. read) result (string_at start text.now) }
    ensures within { IfOk result
        (λ read. (start < read.1) × (read.1 ≤ start + 1 + length text.now)) }
{
    let mut string = String::new(alloc);
    let mut rest = text;
    let mut at = start + 1;
    'items: loop {
        match item_at(b'"', rest) {
            CharItem::Closes => return Ok((Text::of(string.into_bytes()), at + 1)),
            CharItem::Open => return Err(LexFault::OpenString(start)),
            CharItem::Wrong => return Err(LexFault::BadChar(at)),
            CharItem::Code(code, width) => {
                string.push(code)?;
                rest = &rest[width..];
                at += width as u32;
            }
        }
    }
}

/// The code of the char whose opening quote stands at `start` before the text, and the place behind its closing quote.
#[tactic(auto, unfolding(crate::specs::Quoted::char_at, crate::specs::Quoted::char_by))]
pub(crate) fn char_at(start: u32, text: &[u8]) -> Result<(u32, u32), LexFault>
    requires { start + length text.now < 2 ^ 31 }
    ensures value { result ≡ char_at start text.now }
    ensures within { IfOk result
        (λ read. (start < read.1) × (read.1 ≤ start + 1 + length text.now)) }
{
    match item_at(b'\'', text) {
        CharItem::Code(code, width) => {
            if byte_at(text, width) == b'\'' {
                Ok((code as u32, start + width as u32 + 2))
            } else {
                Err(LexFault::BadChar(start))
            }
        }
        CharItem::Closes => Err(LexFault::BadChar(start)),
        CharItem::Open => Err(LexFault::BadChar(start)),
        CharItem::Wrong => Err(LexFault::BadChar(start)),
    }
}
