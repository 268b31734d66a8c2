//! The spellings of reserved words and symbols.
ghost use Rattle.std.specs.Prelude.{◌≡◌, ◌≤◌, length, IfSome};
ghost use Rattle.plan_lexer.specs.Tables.{key_text, key_of, symbol_text, symbol_at, single, symbol_of};

use crate::text::byte_at;
use crate::token::{Key, Symbol};

impl Key {
    /// The reserved word.
    #[tactic(auto, unfolding(crate::specs::Tables::key_text))]
    pub fn text(self) -> &'static [u8]
        ensures { result.now ≡ key_text self }
    {
        match self {
            Key::And => b"and",
            Key::Blob => b"blob",
            Key::Bool => b"bool",
            Key::Char => b"char",
            Key::Chunk => b"chunk",
            Key::Dev => b"dev",
            Key::Else => b"else",
            Key::End => b"end",
            Key::Eval => b"eval",
            Key::Exception => b"exception",
            Key::False => b"false",
            Key::Foldl => b"foldl",
            Key::Foldr => b"foldr",
            Key::Fun => b"fun",
            Key::Handle => b"handle",
            Key::Host => b"host",
            Key::If => b"if",
            Key::In => b"in",
            Key::Int => b"int",
            Key::Let => b"let",
            Key::List => b"list",
            Key::Mod => b"mod",
            Key::Not => b"not",
            Key::OnNeighbor => b"OnNeighbor",
            Key::OnRemote => b"OnRemote",
            Key::Or => b"or",
            Key::Raise => b"raise",
            Key::Str => b"string",
            Key::Svc => b"svc",
            Key::Then => b"then",
            Key::True => b"true",
            Key::Try => b"try",
            Key::Unit => b"unit",
            Key::Val => b"val",
        }
    }
}

impl Symbol {
    /// The symbol's bytes, one or two.
    #[tactic(auto, unfolding(crate::specs::Tables::symbol_text))]
    pub fn text(self) -> &'static [u8]
        ensures value { result.now ≡ symbol_text self }
        ensures short { (1 ≤ length result.now) × (length result.now ≤ 2) }
    {
        match self {
            Symbol::ParenOpen => b"(",
            Symbol::ParenClose => b")",
            Symbol::BracketOpen => b"[",
            Symbol::BracketClose => b"]",
            Symbol::Comma => b",",
            Symbol::Semicolon => b";",
            Symbol::Colon => b":",
            Symbol::DoubleColon => b"::",
            Symbol::Equal => b"=",
            Symbol::NotEqual => b"<>",
            Symbol::Less => b"<",
            Symbol::LessEqual => b"<=",
            Symbol::Greater => b">",
            Symbol::GreaterEqual => b">=",
            Symbol::Plus => b"+",
            Symbol::Minus => b"-",
            Symbol::Star => b"*",
            Symbol::Slash => b"/",
            Symbol::Caret => b"^",
            Symbol::Arrow => b"->",
            Symbol::FatArrow => b"=>",
            Symbol::Bar => b"|",
            Symbol::Underscore => b"_",
        }
    }
}

/// Every reserved word.
const KEYS: [Key; 34] = [
    Key::And,
    Key::Blob,
    Key::Bool,
    Key::Char,
    Key::Chunk,
    Key::Dev,
    Key::Else,
    Key::End,
    Key::Eval,
    Key::Exception,
    Key::False,
    Key::Foldl,
    Key::Foldr,
    Key::Fun,
    Key::Handle,
    Key::Host,
    Key::If,
    Key::In,
    Key::Int,
    Key::Let,
    Key::List,
    Key::Mod,
    Key::Not,
    Key::OnNeighbor,
    Key::OnRemote,
    Key::Or,
    Key::Raise,
    Key::Str,
    Key::Svc,
    Key::Then,
    Key::True,
    Key::Try,
    Key::Unit,
    Key::Val,
];

/// The key of a reserved word.
#[tactic(auto, unfolding(crate::specs::Tables::key_of))]
pub(crate) fn key_of(word: &[u8]) -> Option<Key>
    ensures { result ≡ key_of word.now }
{
    KEYS.iter().copied().find(|key| key.text() == word)
}

/// The symbol of one byte.
#[tactic(auto, unfolding(crate::specs::Tables::single))]
fn single(byte: u8) -> Option<Symbol>
    ensures { result ≡ single byte }
{
    match byte {
        b'(' => Some(Symbol::ParenOpen),
        b')' => Some(Symbol::ParenClose),
        b'[' => Some(Symbol::BracketOpen),
        b']' => Some(Symbol::BracketClose),
        b',' => Some(Symbol::Comma),
        b';' => Some(Symbol::Semicolon),
        b':' => Some(Symbol::Colon),
        b'=' => Some(Symbol::Equal),
        b'<' => Some(Symbol::Less),
        b'>' => Some(Symbol::Greater),
        b'+' => Some(Symbol::Plus),
        b'-' => Some(Symbol::Minus),
        b'*' => Some(Symbol::Star),
        b'/' => Some(Symbol::Slash),
        b'^' => Some(Symbol::Caret),
        b'|' => Some(Symbol::Bar),
        b'_' => Some(Symbol::Underscore),
        _ => None,
    }
}

/// The symbol that two bytes are or begin with, those of both first.
#[tactic(auto, unfolding(crate::specs::Tables::symbol_of))]
fn symbol_of(first: u8, second: u8) -> Option<Symbol>
    ensures { result ≡ symbol_of first second }
{
    if first == b':' && second == b':' {
        Some(Symbol::DoubleColon)
    } else if first == b'<' && second == b'>' {
        Some(Symbol::NotEqual)
    } else if first == b'<' && second == b'=' {
        Some(Symbol::LessEqual)
    } else if first == b'>' && second == b'=' {
        Some(Symbol::GreaterEqual)
    } else if first == b'-' && second == b'>' {
        Some(Symbol::Arrow)
    } else if first == b'=' && second == b'>' {
        Some(Symbol::FatArrow)
    } else {
        single(first)
    }
}

/// The longest symbol that a text begins with.
#[tactic(auto, using(crate::proofs::SymbolLemmas::by_bytes, crate::proofs::SymbolLemmas::symbol_fits))]
pub(crate) fn symbol_at(text: &[u8]) -> Option<Symbol>
    ensures value { result ≡ symbol_at text.now }
    ensures within { IfSome result (λ s. length (symbol_text s) ≤ length text.now) }
{
    symbol_of(byte_at(text, 0), byte_at(text, 1))
}
