//! What the next token begins.
ghost use Rattle.std.specs.Prelude.{◌≡◌};
ghost use Rattle.plan_parser_exprs.specs.Ahead.{next_kind};
ghost use Rattle.plan_parser_exprs.specs.Starts as spec;

use crate::ahead::Ahead;
use plan_lexer::{Key, Symbol, TokenKind};

/// What an operand begins with.
#[derive(Clone, Copy)]
pub enum Start {
    /// A name.
    AName,
    /// `let`
    Let,
    /// `try`
    Try,
    /// `raise`
    Raise,
    /// `foldl`
    Foldl,
    /// `foldr`
    Foldr,
    /// `eval`
    Eval,
    /// `OnRemote`
    OnRemote,
    /// `OnNeighbor`
    OnNeighbor,
    /// `(`
    Paren,
    /// `[`
    Bracket,
    /// `|`
    Bar,
    /// `#N`
    Part(u8),
    /// A literal, or nothing that an operand begins with.
    Literal,
}

fn key_start(key: Key) -> Start
    ensures { result ≡ spec.key_start key }
{
    match key {
        Key::Let => Start::Let,
        Key::Try => Start::Try,
        Key::Raise => Start::Raise,
        Key::Foldl => Start::Foldl,
        Key::Foldr => Start::Foldr,
        Key::Eval => Start::Eval,
        Key::OnRemote => Start::OnRemote,
        Key::OnNeighbor => Start::OnNeighbor,
        _ => Start::Literal,
    }
}

fn symbol_start(symbol: Symbol) -> Start
    ensures { result ≡ spec.symbol_start symbol }
{
    match symbol {
        Symbol::ParenOpen => Start::Paren,
        Symbol::BracketOpen => Start::Bracket,
        Symbol::Bar => Start::Bar,
        _ => Start::Literal,
    }
}

/// What the next token begins.
pub fn next_start(ahead: &Ahead<'_>) -> Start
    ensures { result ≡ spec.start_of (next_kind ahead.now) }
{
    match ahead.next() {
        Some(TokenKind::Word(_)) => Start::AName,
        Some(TokenKind::Key(key)) => key_start(*key),
        Some(TokenKind::Symbol(symbol)) => symbol_start(*symbol),
        Some(TokenKind::Part(number)) => Start::Part(*number),
        _ => Start::Literal,
    }
}
