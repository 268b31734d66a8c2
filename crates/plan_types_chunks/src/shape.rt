//! Whether a value's shape has a type.

ghost use Rattle.std.specs.Prelude.{◌≡◌};
ghost use Rattle.std.specs.List.{list_all};
ghost use Rattle.plan_types_chunks.specs.Chunks as spec;

use plan_base::{Ty, Value};
use plan_base_eq::SameAs;

/// Whether the value's shape has the type; a chunk isn't looked into. Takes no memory.
#[cycle(fits)]
#[tactic(auto, using(crate::proofs::Levels::fits_out, plan_base::specs::Trees::trees))]
pub fn fits(v: &Value, t: &Ty) -> bool
    ensures { result ≡ spec.fits v.now t.now }
{
    match v {
        Value::Unit => matches!(t, Ty::Unit),
        Value::Bool(_) => matches!(t, Ty::Bool),
        Value::Int(_) => matches!(t, Ty::Int),
        Value::Char(_) => matches!(t, Ty::Char),
        Value::Str(_) => matches!(t, Ty::Str),
        Value::Blob(_) => matches!(t, Ty::Blob),
        Value::Host(_) => matches!(t, Ty::Host),
        Value::Dev(_) => matches!(t, Ty::Dev),
        Value::Chunk(_) => matches!(t, Ty::Chunk),
        Value::List(item, items) => match t {
            Ty::List(other) => item.get().is(other.get()) && all_fit(items.as_slice(), item.get()),
            _ => false,
        },
        Value::Tuple(parts) => match t {
            Ty::Tuple(types) => each_fits(parts.as_slice(), types.as_slice()),
            _ => false,
        },
    }
}

#[cycle(fits)]
#[tactic(auto, using(containers::proofs::Lists::all_next))]
fn all_fit(values: &[Value], t: &Ty) -> bool
    ensures { result ≡ list_all (λ v. spec.fits v t.now) values.now }
{
    for i in 0..values.len() {
        if !fits(&values[i], t) {
            return false;
        }
    }
    true
}

#[cycle(fits)]
#[tactic(auto, using(crate::proofs::Loops::fit_next, crate::proofs::Loops::fit_count))]
fn each_fits(values: &[Value], types: &[Ty]) -> bool
    ensures { result ≡ spec.fit_all spec.fits values.now types.now }
{
    if values.len() != types.len() {
        return false;
    }
    for i in 0..values.len() {
        if !fits(&values[i], &types[i]) {
            return false;
        }
    }
    true
}
