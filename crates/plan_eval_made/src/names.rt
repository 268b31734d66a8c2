//! The places of names on the stack.
ghost use Rattle.std.specs.Prelude.{◌≡◌, ◌<◌, map, IfSome};
ghost use Rattle.plan_eval_state.specs.Spots.{counted};
ghost use Rattle.plan_eval_state.specs.Loop.{place_named};
ghost use Rattle.plan_eval_made.specs.Where.{AreBelow, names_here, places_here};

use crate::here::{Binding, Here};
use plan_base::{Name, Param};

/// The place of the value of a name that a `let` binds, the innermost one.
fn bound_place(name: &Name, bindings: &[Binding<'_>]) -> Option<usize>
    ensures { result ≡ place_named name.now (map (λ b. b.name.now) bindings.now)
        (map (λ b. b.at) bindings.now) }
{
    let mut left = bindings.len();
    while left > 0 {
        left -= 1;
        let b = &bindings[left];
        if b.name.is(name) {
            return Some(b.at);
        }
    }
    None
}

/// The place of the value of a parameter, where the arguments stand from `base` on.
fn argument_place(name: &Name, params: &[Param], base: usize, height: usize) -> Option<usize>
    requires places { AreBelow (counted base params.now) height }
    ensures { result ≡ place_named name.now (map (λ p. p.name) params.now)
        (counted base params.now) }
{
    let mut left = params.len();
    while left > 0 {
        left -= 1;
        let p = &params[left];
        if p.name.is(name) {
            return Some(base + left);
        }
    }
    None
}

/// The place of the value of a name on a stack of that height.
pub fn place(here: &Here<'_>, name: &Name, height: usize) -> Option<usize>
    requires places { AreBelow (places_here here.now) height }
    ensures place { result ≡ place_named name.now (names_here here.now) (places_here here.now) }
    ensures within { IfSome result (λ i. i < height) }
{
    match bound_place(name, here.bindings) {
        Some(i) => Some(i),
        None => argument_place(name, here.function.params.as_slice(), here.base, height),
    }
}
