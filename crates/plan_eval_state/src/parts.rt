//! The parts of an expression.
ghost use Rattle.std.specs.Prelude.{◌≡◌, ◌∷◌, [], slice_get, map};
ghost use Rattle.std.specs.Option.{option_copied};
ghost use Rattle.plan_base.specs.declared.tree.Expr.{out-Expr};
ghost use Rattle.plan_eval_state.specs.Forms as forms;

use plan_base::{Clause, Expr};

fn of_one(a: &Expr, n: usize) -> Option<&Expr>
    ensures { option_copied result ≡ slice_get (a.now ∷ []) n }
{
    match n {
        0 => Some(a),
        _ => None,
    }
}

fn of_two<'a>(a: &'a Expr, b: &'a Expr, n: usize) -> Option<&'a Expr>
    ensures { option_copied result ≡ slice_get (a.now ∷ b.now ∷ []) n }
{
    match n {
        0 => Some(a),
        1 => Some(b),
        _ => None,
    }
}

fn of_three<'a>(a: &'a Expr, b: &'a Expr, c: &'a Expr, n: usize) -> Option<&'a Expr>
    ensures { option_copied result ≡ slice_get (a.now ∷ b.now ∷ c.now ∷ []) n }
{
    match n {
        0 => Some(a),
        1 => Some(b),
        2 => Some(c),
        _ => None,
    }
}

fn of_four<'a>(a: &'a Expr, b: &'a Expr, c: &'a Expr, d: &'a Expr, n: usize) -> Option<&'a Expr>
    ensures { option_copied result ≡ slice_get (a.now ∷ b.now ∷ c.now ∷ d.now ∷ []) n }
{
    match n {
        0 => Some(a),
        1 => Some(b),
        2 => Some(c),
        3 => Some(d),
        _ => None,
    }
}

fn body_at(clauses: &[Clause], n: usize) -> Option<&Expr>
    ensures { option_copied result ≡ slice_get (map (λ k. k.body) clauses.now) n }
{
    match clauses.get(n) {
        Some(clause) => Some(&clause.body),
        None => None,
    }
}

/// The operand of that number, from 0.
#[tactic(auto, using(plan_base::specs::Trees::trees))]
pub fn operand(e: &Expr, n: usize) -> Option<&Expr>
    ensures { option_copied result ≡ slice_get (forms.operands (out-Expr e.now)) n }
{
    match e {
        Expr::Tuple(es) | Expr::Call(_, es) | Expr::ChunkOf(_, es) => es.get(n),
        Expr::If(a, _, _) | Expr::Let(_, _, a, _) | Expr::Then(a, _) => of_one(a.get(), n),
        Expr::And(a, _) | Expr::Or(a, _) | Expr::Not(a) => of_one(a.get(), n),
        Expr::Part(_, a) | Expr::Eval(a) => of_one(a.get(), n),
        Expr::Binary(_, a, b) | Expr::Foldl(_, a, b) | Expr::Foldr(_, a, b) => of_two(
            a.get(),
            b.get(),
            n,
        ),
        Expr::OnRemote(a, h, b, _) => of_three(a.get(), h.get(), b.get(), n),
        Expr::OnNeighbor(a, h, b, d) => of_four(a.get(), h.get(), b.get(), d.get(), n),
        _ => None,
    }
}

/// The branch of that number, from 0.
#[tactic(auto, using(plan_base::specs::Trees::trees))]
pub fn branch(e: &Expr, n: usize) -> Option<&Expr>
    ensures { option_copied result ≡ slice_get (forms.branches (out-Expr e.now)) n }
{
    match e {
        Expr::If(_, a, b) => of_two(a.get(), b.get(), n),
        Expr::Then(_, b) | Expr::And(_, b) | Expr::Or(_, b) => of_one(b.get(), n),
        Expr::Try(_, clauses) => body_at(clauses.as_slice(), n),
        _ => None,
    }
}

/// The expression of a `try`.
#[tactic(auto, using(plan_base::specs::Trees::trees))]
pub fn tried(e: &Expr) -> Option<&Expr>
    ensures { option_copied result ≡ forms.tried (out-Expr e.now) }
{
    match e {
        Expr::Try(a, _) => Some(a.get()),
        _ => None,
    }
}
