//! Looks up functions and handlers.
ghost use Rattle.std.specs.Prelude.{◌≡◌, option_copied, take};
ghost use Rattle.plan_types_spec.specs.TypingNames as names;
ghost use Rattle.plan_meaning.specs.Meaning as spec;
ghost use Rattle.visit_state.specs.Handlers as handlers;

use plan_base::{Clause, Exn, Expr, Fun, Name};

/// The place of the first function of that name among the first `seen`.
pub fn place_among(f: &Name, seen: usize, funs: &[Fun]) -> Option<usize>
    ensures { result ≡ names.place_of f.now (take seen funs.now) }
{
    funs.iter().take(seen).position(|d| d.name.is(f))
}

/// Whether a clause of that name, or of none, catches the exception.
pub fn catches(name: &Option<Name>, x: &Exn) -> bool
    ensures { result ≡ spec.catches name.now x.now }
{
    match name {
        Some(name) => name.is(&x.0),
        None => true,
    }
}

/// The body of the first clause that catches the exception.
pub fn handler<'a>(clauses: &'a [Clause], x: &Exn) -> Option<&'a Expr>
    ensures { option_copied result ≡ handlers.handler clauses.now x.now }
{
    let mut rest = clauses;
    while let [clause, more @ ..] = rest {
        if catches(&clause.name, x) {
            return Some(&clause.body);
        }
        rest = more;
    }
    None
}
