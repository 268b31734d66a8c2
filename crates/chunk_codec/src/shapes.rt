//! Forms of expressions that are read alike, and are distinguished by their tags alone.

ghost use Rattle.std.specs.Prelude.{◌≡◌};
ghost use Rattle.chunk_codec.specs.Shapes.{pair_of, fold_of, applied_of};

use containers::Boxed;
use plan_base::{Expr, Exprs, Name};

/// A form of two expressions.
#[derive(Clone, Copy)]
pub enum Pair {
    /// `a; b`
    Then,
    /// `a and b`
    And,
    /// `a or b`
    Or,
}

/// A fold over a list.
#[derive(Clone, Copy)]
pub enum Fold {
    /// From the left.
    Left,
    /// From the right.
    Right,
}

/// What is done with a function and its arguments.
#[derive(Clone, Copy)]
pub enum Applied {
    /// It is called.
    Called,
    /// It is packed in a chunk of the program.
    Packed,
}

/// The expression that such a pair is.
pub fn paired(pair: Pair, first: Boxed<Expr>, second: Boxed<Expr>) -> Expr
    ensures { result ≡ pair_of pair first second }
{
    match pair {
        Pair::Then => Expr::Then(first, second),
        Pair::And => Expr::And(first, second),
        Pair::Or => Expr::Or(first, second),
    }
}

/// The expression that such a fold is.
pub fn folded(fold: Fold, name: Name, start: Boxed<Expr>, items: Boxed<Expr>) -> Expr
    ensures { result ≡ fold_of fold name start items }
{
    match fold {
        Fold::Left => Expr::Foldl(name, start, items),
        Fold::Right => Expr::Foldr(name, start, items),
    }
}

/// The expression that a function with arguments is.
pub fn applied_to(applied: Applied, name: Name, args: Exprs) -> Expr
    ensures { result ≡ applied_of applied name args }
{
    match applied {
        Applied::Called => Expr::Call(name, args),
        Applied::Packed => Expr::ChunkOf(name, args),
    }
}
