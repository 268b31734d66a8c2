//! What a value weighs, in one walk.
ghost use Rattle.std.specs.Prelude.{◌≡◌, min, IfSome};
ghost use Rattle.std.specs.List.{sum_by};
ghost use Rattle.plan_base.specs.Sizes.{largest_by, weight, nesting};

use plan_base::Value;
use plan_base_size::type_size;

/// What came of weighing a value.
#[derive(Clone, Copy)]
pub enum Weighing {
    /// Its weight was spent.
    Paid,
    /// There isn't as much work left.
    Spent,
    /// It passes the limits.
    TooLarge,
}

/// What values weigh in sum, or `None` where a chunk stands in one.
#[cycle(plain_weight)]
fn plain_weights(values: &[Value]) -> Option<u64>
    ensures { IfSome result (λ w. (w ≡ min (sum_by weight values.now) 18446744073709551615) ×
        (largest_by nesting values.now ≡ 0)) }
{
    let mut total = 0u64;
    for v in values {
        let Some(size) = plain_weight(v) else {
            return None;
        };
        total = total.saturating_add(size);
    }
    Some(total)
}

/// What a value weighs, or `None` where a chunk stands in it. Takes no memory.
#[cycle(plain_weight)]
#[tactic(auto, using(plan_base::proofs::SizeLaws::weight_out, plan_base::proofs::SizeLaws::nesting_out, plan_base::specs::Trees::trees))]
pub fn plain_weight(v: &Value) -> Option<u64>
    ensures { IfSome result (λ w. (w ≡ min (weight v.now) 18446744073709551615) ×
        (nesting v.now ≡ 0)) }
{
    match v {
        Value::Unit => Some(1),
        Value::Bool(_) => Some(2),
        Value::Int(_) => Some(9),
        Value::Char(_) | Value::Host(_) | Value::Dev(_) => Some(5),
        Value::Str(s) => Some((s.as_slice().len() as u64).saturating_add(3)),
        Value::Blob(b) => Some((b.as_slice().len() as u64).saturating_add(3)),
        Value::Chunk(_) => None,
        Value::List(t, items) => match plain_weights(items.as_slice()) {
            Some(size) => Some(size.saturating_add(type_size(t.get())).saturating_add(3)),
            None => None,
        },
        Value::Tuple(parts) => match plain_weights(parts.as_slice()) {
            Some(size) => Some(size.saturating_add(2)),
            None => None,
        },
    }
}
