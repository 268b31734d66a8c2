//! The clauses of a `try`.
ghost use Rattle.std.specs.Prelude.{◌≡◌};
ghost use Rattle.plan_eval_state.specs.Forms as forms;

use plan_base::{Clause, Exn};
use visit_state::catches;

/// The number of the first clause that catches an exception, from 0.
#[tactic(auto, using(crate::proofs::Clauses::clause_begins))]
pub fn clause_for(clauses: &[Clause], x: &Exn) -> Option<usize>
    ensures { result ≡ forms.clause_for clauses.now x.now }
{
    let mut number = 0;
    let mut rest = clauses;
    while let [clause, more @ ..] = rest {
        if catches(&clause.name, x) {
            return Some(number);
        }
        number += 1;
        rest = more;
    }
    None
}
