//! A number for each reserved word and each symbol, so that two of them can be compared.
ghost use Rattle.std.specs.Prelude.{◌≡◌};
ghost use Rattle.plan_parser_exprs.specs.Codes.{key_code, symbol_code};

use plan_lexer::{Key, Symbol};

/// The number of a reserved word.
pub fn code_of_key(key: Key) -> u8
    ensures { result ≡ key_code key }
{
    match key {
        Key::And => 0,
        Key::Blob => 1,
        Key::Bool => 2,
        Key::Char => 3,
        Key::Chunk => 4,
        Key::Dev => 5,
        Key::Else => 6,
        Key::End => 7,
        Key::Eval => 8,
        Key::Exception => 9,
        Key::False => 10,
        Key::Foldl => 11,
        Key::Foldr => 12,
        Key::Fun => 13,
        Key::Handle => 14,
        Key::Host => 15,
        Key::If => 16,
        Key::In => 17,
        Key::Int => 18,
        Key::Let => 19,
        Key::List => 20,
        Key::Mod => 21,
        Key::Not => 22,
        Key::OnNeighbor => 23,
        Key::OnRemote => 24,
        Key::Or => 25,
        Key::Raise => 26,
        Key::Str => 27,
        Key::Svc => 28,
        Key::Then => 29,
        Key::True => 30,
        Key::Try => 31,
        Key::Unit => 32,
        Key::Val => 33,
    }
}

/// The number of a symbol.
pub fn code_of_symbol(symbol: Symbol) -> u8
    ensures { result ≡ symbol_code symbol }
{
    match symbol {
        Symbol::ParenOpen => 0,
        Symbol::ParenClose => 1,
        Symbol::BracketOpen => 2,
        Symbol::BracketClose => 3,
        Symbol::Comma => 4,
        Symbol::Semicolon => 5,
        Symbol::Colon => 6,
        Symbol::DoubleColon => 7,
        Symbol::Equal => 8,
        Symbol::NotEqual => 9,
        Symbol::Less => 10,
        Symbol::LessEqual => 11,
        Symbol::Greater => 12,
        Symbol::GreaterEqual => 13,
        Symbol::Plus => 14,
        Symbol::Minus => 15,
        Symbol::Star => 16,
        Symbol::Slash => 17,
        Symbol::Caret => 18,
        Symbol::Arrow => 19,
        Symbol::FatArrow => 20,
        Symbol::Bar => 21,
        Symbol::Underscore => 22,
    }
}
