//! Where the innermost expression stands.
ghost use Rattle.std.specs.Prelude.{◌≡◌, None, IfOk, List};
ghost use Rattle.std.specs.Option.{option_copied};
ghost use Rattle.plan_base.specs.declared.tree.Fun.{Fun as AFun};
ghost use Rattle.plan_base.specs.declared.tree.Program.{Program as Code};
ghost use Rattle.plan_eval_state.specs.declared.continuation.Activation.{Activation as AnActivation};
ghost use Rattle.plan_base.specs.declared.tree.Expr.{out-Expr};
ghost use Rattle.plan_eval_state.specs.Loop.{let_site, site_beside, walked};
ghost use Rattle.plan_eval.specs.Walk.{IsBody, IsNearest, activation_of, innermost, site_if, site_of};

use containers::Items;
use plan_base::{Expr, NoMemory};
use plan_eval_made::Binding;
use plan_eval_state::{Activation, Continuation, Stack, branch, operand, tried};
use std::alloc::Global;

/// Where an expression stands that the walk has come to, in the body of a function.
#[derive(Drop)]
pub struct Place<'a> {
    /// The names that are bound inside of the body, the innermost last.
    pub bindings: Items<Binding<'a>>,
    /// The expression.
    pub expr: &'a Expr,
}

/// The evaluation of a body that waits so.
fn activation_of(cont: &Continuation) -> Option<Activation>
    ensures { result ≡ activation_of cont.now }
{
    match cont {
        Continuation::Call(a) | Continuation::Step(a) | Continuation::Chunk(a) => Some(*a),
        _ => None,
    }
}

/// The nearest activation, in which the innermost expression stands, and how many wait outside of it and for it.
pub fn nearest(first: Activation, conts: &Stack<Continuation>) -> (Activation, usize)
    ensures { IsNearest first conts.now result.0 result.1 }
{
    let mut i = conts.len();
    while i > 0 {
        if let Some(a) = activation_of(conts.at(i - 1)) {
            return (a, i);
        }
        i -= 1;
    }
    (first, 0)
}

/// The same place at another expression.
fn beside<'a>(place: Place<'a>, expr: Option<&'a Expr>) -> Option<Place<'a>>
    ensures { (a : AnActivation) (f : AFun) → site_if a f result ≡ site_beside
        (site_of a f place.entry) (option_copied expr.entry) }
{
    let Place { bindings, expr: _ } = place;
    match expr {
        Some(expr) => Some(Place { bindings, expr }),
        None => {
            drop(bindings);
            None
        }
    }
}

/// The place in the body of a `let`, the value of whose name stands at a place of the stack.
#[tactic(auto, using(plan_base::specs::Trees::trees))]
fn bound<'a>(place: Place<'a>, at: usize) -> Result<Option<Place<'a>>, NoMemory>
    ensures { IfOk result (λ p. (a : AnActivation) (f : AFun) → site_if a f p ≡ let_site
        (site_of a f place.entry) (out-Expr place.entry.expr.now) at) }
{
    let Place { mut bindings, expr } = place;
    match expr {
        Expr::Let(name, _, _, body) => {
            bindings.add(Binding { name, at })?;
            Ok(Some(Place {
                bindings,
                expr: body.get(),
            }))
        }
        _ => {
            drop(bindings);
            Ok(None)
        }
    }
}

/// The place of the part for which an expression waits, or `None` where it has no such part.
fn advanced<'a>(place: Place<'a>, cont: Continuation) -> Result<Option<Place<'a>>, NoMemory>
    ensures { IfOk result (λ p. (codes : List Code) (a : AnActivation) (f : AFun)
        → activation_of cont ≡ None
        → site_if a f p ≡ walked codes (site_of a f place.entry) cont) }
{
    let expr = place.expr;
    match cont {
        Continuation::Part(n) => Ok(beside(place, operand(expr, n))),
        Continuation::Last(n) => Ok(beside(place, branch(expr, n))),
        Continuation::Try(_) => Ok(beside(place, tried(expr))),
        Continuation::Bound(at) => bound(place, at),
        _ => {
            drop(place);
            Ok(None)
        }
    }
}

/// Where the innermost expression stands in the body of a function, of which an activation is the nearest.
pub fn walk<'a>(
    alloc: Global,
    body: &'a Expr,
    conts: &Stack<Continuation>,
    from: usize,
) -> Result<Option<Place<'a>>, NoMemory>
    ensures { IfOk result (λ p. (codes : List Code) (first a : AnActivation) (f : AFun)
        → IsNearest first conts.now a from → IsBody codes a f → f.body ≡ body.now
        → site_if a f p ≡ innermost codes first conts.now) }
{
    let mut place = Place {
        bindings: Items::new(alloc),
        expr: body,
    };
    let mut i = from;
    while i < conts.len() {
        match advanced(place, *conts.at(i))? {
            Some(next) => {
                place = next;
                i += 1;
            }
            None => return Ok(None),
        }
    }
    Ok(Some(place))
}
