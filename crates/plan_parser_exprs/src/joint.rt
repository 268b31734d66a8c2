//! What joins two operands, and at which level.
ghost use Rattle.std.specs.Prelude.{◌≡◌};
ghost use Rattle.plan_parser_exprs.specs.Ahead.{next_kind};
ghost use Rattle.plan_parser_exprs.specs.Joints as spec;

use crate::ahead::Ahead;
use containers::Boxed;
use plan_base::{Expr, Op};
use plan_lexer::{Key, Symbol, TokenKind};

/// The levels at which operands are joined, the loosest first.
#[derive(Clone, Copy)]
pub enum Chain {
    Or,
    And,
    Comparison,
    Sum,
    Product,
}

/// What stands between two operands.
#[derive(Clone, Copy)]
pub enum Joint {
    Operator(Op),
    And,
    Or,
}

fn product_symbol(symbol: Symbol) -> Option<Joint>
    ensures { result ≡ spec.product_symbol symbol }
{
    match symbol {
        Symbol::Star => Some(Joint::Operator(Op::Mul)),
        Symbol::Slash => Some(Joint::Operator(Op::Div)),
        _ => None,
    }
}

fn sum_symbol(symbol: Symbol) -> Option<Joint>
    ensures { result ≡ spec.sum_symbol symbol }
{
    match symbol {
        Symbol::Plus => Some(Joint::Operator(Op::Add)),
        Symbol::Minus => Some(Joint::Operator(Op::Sub)),
        Symbol::Caret => Some(Joint::Operator(Op::Cat)),
        _ => None,
    }
}

fn compared_symbol(symbol: Symbol) -> Option<Joint>
    ensures { result ≡ spec.compared_symbol symbol }
{
    match symbol {
        Symbol::Equal => Some(Joint::Operator(Op::Eq)),
        Symbol::NotEqual => Some(Joint::Operator(Op::Ne)),
        Symbol::Less => Some(Joint::Operator(Op::Lt)),
        Symbol::LessEqual => Some(Joint::Operator(Op::Le)),
        Symbol::Greater => Some(Joint::Operator(Op::Gt)),
        Symbol::GreaterEqual => Some(Joint::Operator(Op::Ge)),
        _ => None,
    }
}

fn symbol_joint(chain: Chain, symbol: Symbol) -> Option<Joint>
    ensures { result ≡ spec.symbol_joint chain symbol }
{
    match chain {
        Chain::Product => product_symbol(symbol),
        Chain::Sum => sum_symbol(symbol),
        Chain::Comparison => compared_symbol(symbol),
        Chain::And | Chain::Or => None,
    }
}

fn product_key(key: Key) -> Option<Joint>
    ensures { result ≡ spec.product_key key }
{
    match key {
        Key::Mod => Some(Joint::Operator(Op::Mod)),
        _ => None,
    }
}

fn and_key(key: Key) -> Option<Joint>
    ensures { result ≡ spec.and_key key }
{
    match key {
        Key::And => Some(Joint::And),
        _ => None,
    }
}

fn or_key(key: Key) -> Option<Joint>
    ensures { result ≡ spec.or_key key }
{
    match key {
        Key::Or => Some(Joint::Or),
        _ => None,
    }
}

fn key_joint(chain: Chain, key: Key) -> Option<Joint>
    ensures { result ≡ spec.key_joint chain key }
{
    match chain {
        Chain::Product => product_key(key),
        Chain::And => and_key(key),
        Chain::Or => or_key(key),
        Chain::Sum | Chain::Comparison => None,
    }
}

/// The joint that stands next, at a level.
pub fn next_joint(chain: Chain, ahead: &Ahead<'_>) -> Option<Joint>
    ensures { result ≡ spec.joint_of chain (next_kind ahead.now) }
{
    match ahead.next() {
        Some(TokenKind::Symbol(symbol)) => symbol_joint(chain, *symbol),
        Some(TokenKind::Key(key)) => key_joint(chain, *key),
        _ => None,
    }
}

/// Two operands with their joint.
pub fn joined_tree(joint: Joint, a: Boxed<Expr>, b: Boxed<Expr>) -> Expr
    ensures { result ≡ spec.joined_tree joint a b }
{
    match joint {
        Joint::Operator(op) => Expr::Binary(op, a, b),
        Joint::And => Expr::And(a, b),
        Joint::Or => Expr::Or(a, b),
    }
}
