//! Which tokens may begin an expression.
ghost use Rattle.std.specs.Prelude.{◌≡◌};
ghost use Rattle.plan_parser_exprs.specs.Ahead.{next_kind};
ghost use Rattle.plan_parser_exprs.specs.Begins as spec;

use crate::ahead::Ahead;
use plan_lexer::{Key, Symbol, TokenKind};

fn key_begins(key: Key) -> bool
    ensures { result ≡ spec.key_begins key }
{
    match key {
        Key::True | Key::False | Key::Let | Key::Try | Key::Raise => true,
        Key::Foldl | Key::Foldr | Key::Eval | Key::OnRemote | Key::OnNeighbor => true,
        _ => false,
    }
}

fn symbol_begins(symbol: Symbol) -> bool
    ensures { result ≡ spec.symbol_begins symbol }
{
    match symbol {
        Symbol::ParenOpen | Symbol::BracketOpen | Symbol::Bar => true,
        _ => false,
    }
}

/// Whether an operand may begin here.
#[tactic(auto, unfolding(crate::specs::Begins::begins_operand))]
pub fn begins_operand(ahead: &Ahead<'_>) -> bool
    ensures { result ≡ spec.begins_operand ahead.now }
{
    match ahead.next() {
        Some(TokenKind::Key(key)) => key_begins(*key),
        Some(TokenKind::Symbol(symbol)) => symbol_begins(*symbol),
        Some(_) => true,
        None => false,
    }
}

/// Whether what `not` may stand before may begin here.
#[tactic(auto, unfolding(crate::specs::Begins::begins_negated))]
pub fn begins_negated(ahead: &Ahead<'_>) -> bool
    ensures { result ≡ spec.begins_negated ahead.now }
{
    ahead.is_key(Key::Not) || begins_operand(ahead)
}

/// Whether an expression may begin here.
#[tactic(auto, unfolding(crate::specs::Begins::begins_expr))]
pub fn begins_expr(ahead: &Ahead<'_>) -> bool
    ensures { result ≡ spec.begins_expr ahead.now }
{
    ahead.is_key(Key::If) || begins_negated(ahead)
}
