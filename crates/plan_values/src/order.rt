//! Which of two values stands before the other.
ghost use Rattle.std.specs.Prelude.{◌≡◌};
ghost use Rattle.std.specs.Ordering.{is_lt, nat_cmp};
ghost use Rattle.std.specs.Cmp.Lexicographic.{slice_cmp};
ghost use Rattle.std.specs.Option as option;
ghost use Rattle.plan_base.specs.declared.tree.Value.{out-Value};
ghost use Rattle.plan_types_spec.specs.Rules as rules;

use plan_base::{Text, Value};

/// Whether `a` stands before `b`, where both are numbers, chars or strings.
pub fn before(a: &Value, b: &Value) -> Option<bool>
    ensures { result ≡ rules.before (out-Value a.now) (out-Value b.now) }
{
    match a {
        Value::Int(x) => match b {
            Value::Int(y) => Some(*x < *y),
            _ => None,
        },
        Value::Char(x) => match b {
            Value::Char(y) => Some(*x < *y),
            _ => None,
        },
        Value::Str(x) => match b {
            Value::Str(y) => Some(text_before(x, y)),
            _ => None,
        },
        Value::Unit
        | Value::Bool(_)
        | Value::Blob(_)
        | Value::Host(_)
        | Value::Dev(_)
        | Value::Chunk(_)
        | Value::List(_, _)
        | Value::Tuple(_) => None,
    }
}

/// Whether `a` stands before `b` by their bytes.
fn text_before(a: &Text, b: &Text) -> bool
    ensures { result ≡ is_lt (slice_cmp nat_cmp a.now b.now) }
{
    a.as_slice().cmp(b.as_slice()).is_lt()
}
