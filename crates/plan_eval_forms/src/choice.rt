//! What a truth value chooses.
ghost use Rattle.std.specs.Prelude.{◌≡◌};
ghost use Rattle.plan_base.specs.declared.tree.Expr.{out-Expr};
ghost use Rattle.std.specs.Option.{option_map};
ghost use Rattle.plan_eval_forms.specs.Parts.{arity, IsCaught, IsChoice, IsChosen};

use plan_base::{Exn, Expr};
use plan_eval_made::clause_for;

/// What a truth value chooses.
#[derive(Clone, Copy)]
pub(crate) enum Decision<'a> {
    /// The branch of that number.
    Branch(usize, &'a Expr),
    /// Nothing: the whole gives that truth value.
    Gives(bool),
    /// No case of the meaning applies.
    Wrong,
}

/// What a truth value chooses among the branches of an expression.
#[tactic(auto, using(plan_base::specs::Trees::trees))]
pub(crate) fn choice(e: &Expr, test: Option<bool>) -> Decision<'_>
    requires { IsChoice (out-Expr e.now) }
    ensures { IsChosen (out-Expr e.now) test result }
{
    match (e, test) {
        (Expr::If(_, a, _), Some(true)) => Decision::Branch(0, a.get()),
        (Expr::If(_, _, b), Some(false)) => Decision::Branch(1, b.get()),
        (Expr::Then(_, b), _) => Decision::Branch(0, b.get()),
        (Expr::And(_, b), Some(true)) => Decision::Branch(0, b.get()),
        (Expr::And(_, _), Some(false)) => Decision::Gives(false),
        (Expr::Or(_, _), Some(true)) => Decision::Gives(true),
        (Expr::Or(_, b), Some(false)) => Decision::Branch(0, b.get()),
        _ => Decision::Wrong,
    }
}

/// How many operands an expression has.
#[tactic(auto, using(plan_base::specs::Trees::trees))]
pub(crate) fn arity(e: &Expr) -> usize
    ensures { result ≡ arity e.now }
{
    match e {
        Expr::Tuple(es) | Expr::Call(_, es) | Expr::ChunkOf(_, es) => es.len(),
        Expr::If(_, _, _) | Expr::Let(_, _, _, _) | Expr::Then(_, _) | Expr::And(_, _) => 1,
        Expr::Or(_, _) | Expr::Not(_) | Expr::Part(_, _) | Expr::Eval(_) => 1,
        Expr::Binary(_, _, _) | Expr::Foldl(_, _, _) | Expr::Foldr(_, _, _) => 2,
        Expr::OnRemote(_, _, _, _) => 3,
        Expr::OnNeighbor(_, _, _, _) => 4,
        _ => 0,
    }
}

/// The number of the clause of a `try` that catches an exception, with its body.
#[tactic(auto, using(plan_base::specs::Trees::trees, crate::proofs::Catching::clause_within))]
pub(crate) fn catching<'a>(e: &'a Expr, raised: &Exn) -> Option<(usize, &'a Expr)>
    ensures { IsCaught (out-Expr e.now) raised.now (option_map (λ p. (p.0, p.1.now)) result) }
{
    let Expr::Try(_, clauses) = e else {
        return None;
    };
    match clause_for(clauses.as_slice(), raised) {
        Some(n) => Some((n, &clauses.at(n).body)),
        None => None,
    }
}
