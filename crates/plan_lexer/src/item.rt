//! Reads what stands in strings and chars.
ghost use Rattle.std.specs.Prelude.{◌≡◌, length, ◌≤◌, ◌<◌, IfSome, OnSome};
ghost use Rattle.plan_lexer.specs.CharItems.{continuation, shortest, two_bytes, three_bytes, four_bytes, wide_at, hex_value, escaped_character, hex_escape, escape_at, code_at, item_at, ItemFits};

use crate::text::byte_at;

/// What stands at the front of the rest of a string or char.
#[derive(Drop)]
pub(crate) enum CharItem {
    /// The closing quote.
    Closes,
    /// The end of the line or of the text.
    Open,
    /// No whole item.
    Wrong,
    /// A character, with the bytes that its item takes.
    Code(char, usize),
}

/// The six bits of a byte that continues a character.
#[tactic(auto, unfolding(crate::specs::CharItems::continuation))]
fn continuation(byte: u8) -> Option<u32>
    ensures value { result ≡ continuation byte }
    ensures small { IfSome result (λ bits. bits < 64) }
    ensures high { OnSome result (0 < byte) }
{
    if byte < 128 {
        None
    } else if byte < 192 {
        Some(u32::from(byte - 128))
    } else {
        None
    }
}

/// A character with the bytes it takes, where it is a scalar value that shorter bytes don't give.
#[tactic(auto, unfolding(crate::specs::CharItems::shortest))]
fn shortest(least: u32, code: u32, width: usize) -> Option<(char, usize)>
    ensures value { result ≡ shortest least code width }
    ensures same { IfSome result (λ p. p.1 ≡ width) }
{
    if code < least {
        return None;
    }
    match char::from_u32(code) {
        Some(c) => Some((c, width)),
        None => None,
    }
}

/// The character of two bytes that a text begins with.
#[tactic(auto, unfolding(crate::specs::CharItems::two_bytes))]
fn two_bytes(text: &[u8]) -> Option<(char, usize)>
    ensures value { result ≡ two_bytes text.now }
    ensures within { IfSome result (λ p. (0 < p.1) × (p.1 ≤ length text.now)) }
{
    let b = continuation(byte_at(text, 1))?;
    let a = u32::from(byte_at(text, 0).saturating_sub(192));
    shortest(128, a * 64 + b, 2)
}

/// The character of three bytes that a text begins with.
#[tactic(auto, unfolding(crate::specs::CharItems::three_bytes))]
fn three_bytes(text: &[u8]) -> Option<(char, usize)>
    ensures value { result ≡ three_bytes text.now }
    ensures within { IfSome result (λ p. (0 < p.1) × (p.1 ≤ length text.now)) }
{
    let b = continuation(byte_at(text, 1))?;
    let c = continuation(byte_at(text, 2))?;
    let a = u32::from(byte_at(text, 0).saturating_sub(224));
    shortest(2048, (a * 64 + b) * 64 + c, 3)
}

/// The character of four bytes that a text begins with.
#[tactic(auto, unfolding(crate::specs::CharItems::four_bytes))]
fn four_bytes(text: &[u8]) -> Option<(char, usize)>
    ensures value { result ≡ four_bytes text.now }
    ensures within { IfSome result (λ p. (0 < p.1) × (p.1 ≤ length text.now)) }
{
    let b = continuation(byte_at(text, 1))?;
    let c = continuation(byte_at(text, 2))?;
    let d = continuation(byte_at(text, 3))?;
    let a = u32::from(byte_at(text, 0).saturating_sub(240));
    shortest(65536, ((a * 64 + b) * 64 + c) * 64 + d, 4)
}

/// The character of more than one byte that a text begins with, with how many they are.
#[tactic(auto, unfolding(crate::specs::CharItems::wide_at))]
fn wide_at(text: &[u8]) -> Option<(char, usize)>
    ensures value { result ≡ wide_at text.now }
    ensures within { IfSome result (λ p. (0 < p.1) × (p.1 ≤ length text.now)) }
{
    let lead = byte_at(text, 0);
    if lead < 192 {
        None
    } else if lead < 224 {
        two_bytes(text)
    } else if lead < 240 {
        three_bytes(text)
    } else if lead < 248 {
        four_bytes(text)
    } else {
        None
    }
}

/// The value of each byte as a hex digit of either case, or 255.
const DIGITS: [u8; 256] = [
    255, 255, 255, 255, 255, 255, 255, 255, 255, 255, 255, 255, 255, 255, 255, 255, 255, 255, 255,
    255, 255, 255, 255, 255, 255, 255, 255, 255, 255, 255, 255, 255, 255, 255, 255, 255, 255, 255,
    255, 255, 255, 255, 255, 255, 255, 255, 255, 255, 0, 1, 2, 3, 4, 5, 6, 7, 8, 9, 255, 255, 255,
    255, 255, 255, 255, 10, 11, 12, 13, 14, 15, 255, 255, 255, 255, 255, 255, 255, 255, 255, 255,
    255, 255, 255, 255, 255, 255, 255, 255, 255, 255, 255, 255, 255, 255, 255, 255, 10, 11, 12, 13,
    14, 15, 255, 255, 255, 255, 255, 255, 255, 255, 255, 255, 255, 255, 255, 255, 255, 255, 255,
    255, 255, 255, 255, 255, 255, 255, 255, 255, 255, 255, 255, 255, 255, 255, 255, 255, 255, 255,
    255, 255, 255, 255, 255, 255, 255, 255, 255, 255, 255, 255, 255, 255, 255, 255, 255, 255, 255,
    255, 255, 255, 255, 255, 255, 255, 255, 255, 255, 255, 255, 255, 255, 255, 255, 255, 255, 255,
    255, 255, 255, 255, 255, 255, 255, 255, 255, 255, 255, 255, 255, 255, 255, 255, 255, 255, 255,
    255, 255, 255, 255, 255, 255, 255, 255, 255, 255, 255, 255, 255, 255, 255, 255, 255, 255, 255,
    255, 255, 255, 255, 255, 255, 255, 255, 255, 255, 255, 255, 255, 255, 255, 255, 255, 255, 255,
    255, 255, 255, 255, 255, 255, 255, 255, 255, 255, 255, 255, 255, 255, 255, 255, 255, 255, 255,
    255, 255, 255,
];

/// The value of a hex digit of either case.
pub(crate) fn hex_value(byte: u8) -> Option<u8>
    ensures value { result ≡ hex_value byte }
    ensures small { IfSome result (λ v. v < 16) }
    ensures high { OnSome result (0 < byte) }
{
    let value = DIGITS[byte as usize];
    if value < 16 { Some(value) } else { None }
}

/// The character that a letter stands for behind a backslash.
#[tactic(auto, unfolding(crate::specs::CharItems::escaped_character))]
fn escaped_char(letter: u8) -> Option<char>
    ensures value { result ≡ escaped_character letter }
    ensures high { OnSome result (0 < letter) }
{
    if letter == b'n' {
        Some('\n')
    } else if letter == b't' {
        Some('\t')
    } else if letter == b'r' {
        Some('\r')
    } else if letter == b'"' {
        Some('"')
    } else if letter == b'\'' {
        Some('\'')
    } else if letter == b'\\' {
        Some('\\')
    } else {
        None
    }
}

/// The character below 80 hex that two hex digits behind a backslash and an x give.
#[tactic(auto, unfolding(crate::specs::CharItems::hex_escape))]
fn hex_escape(text: &[u8]) -> Option<(char, usize)>
    ensures value { result ≡ hex_escape text.now }
    ensures within { IfSome result (λ p. (0 < p.1) × (p.1 ≤ length text.now)) }
{
    let high = hex_value(byte_at(text, 2))?;
    let low = hex_value(byte_at(text, 3))?;
    if high < 8 {
        Some((char::from(16 * high + low), 4))
    } else {
        None
    }
}

/// The character that a text begins with by an escape, with the bytes it takes.
#[tactic(auto, unfolding(crate::specs::CharItems::escape_at))]
fn escape_at(text: &[u8]) -> Option<(char, usize)>
    ensures value { result ≡ escape_at text.now }
    ensures within { IfSome result (λ p. (0 < p.1) × (p.1 ≤ length text.now)) }
{
    let letter = byte_at(text, 1);
    if letter == b'x' {
        hex_escape(text)
    } else {
        let code = escaped_char(letter)?;
        Some((code, 2))
    }
}

/// The character that a text begins with in a string or char, with the bytes it takes.
#[tactic(auto, unfolding(crate::specs::CharItems::code_at))]
fn code_at(text: &[u8]) -> Option<(char, usize)>
    requires { 0 < length text.now }
    ensures value { result ≡ code_at text.now }
    ensures within { IfSome result (λ p. (0 < p.1) × (p.1 ≤ length text.now)) }
{
    let first = byte_at(text, 0);
    if first == b'\\' {
        escape_at(text)
    } else if first < 32 {
        None
    } else if first < 127 {
        Some((char::from(first), 1))
    } else {
        wide_at(text)
    }
}

/// What stands at the front of a text before the closing quote.
#[tactic(auto, unfolding(crate::specs::CharItems::item_at))]
pub(crate) fn item_at(quote: u8, text: &[u8]) -> CharItem
    ensures value { result ≡ item_at quote text.now }
    ensures within { ItemFits result (length text.now) }
{
    if text.is_empty() {
        return CharItem::Open;
    }
    let first = byte_at(text, 0);
    if first == b'\n' {
        return CharItem::Open;
    }
    if first == quote {
        return CharItem::Closes;
    }
    match code_at(text) {
        Some((code, width)) => CharItem::Code(code, width),
        None => CharItem::Wrong,
    }
}
