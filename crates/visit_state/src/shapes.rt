//! The number, host or chunk that a value is.
ghost use Rattle.std.specs.Prelude.{◌≡◌, option_copied};
ghost use Rattle.plan_meaning.specs.Meaning as spec;

use plan_base::{Chunk, Dev, Host, Value};

/// The truth value that a value is.
#[tactic(auto, unfolding(plan_meaning::specs::Meaning::as_bool), using(plan_base::specs::Trees::trees))]
pub fn as_bool(v: &Value) -> Option<bool>
    ensures { result ≡ spec.as_bool v.now }
{
    match v {
        Value::Bool(x) => Some(*x),
        _ => None,
    }
}

/// The number that a value is.
#[tactic(auto, unfolding(plan_meaning::specs::Meaning::as_int), using(plan_base::specs::Trees::trees))]
pub fn as_int(v: &Value) -> Option<i64>
    ensures { result ≡ spec.as_int v.now }
{
    match v {
        Value::Int(x) => Some(*x),
        _ => None,
    }
}

/// The host that a value is.
#[tactic(auto, unfolding(plan_meaning::specs::Meaning::as_host), using(plan_base::specs::Trees::trees))]
pub fn as_host(v: &Value) -> Option<Host>
    ensures { result ≡ spec.as_host v.now }
{
    match v {
        Value::Host(x) => Some(*x),
        _ => None,
    }
}

/// The device that a value is.
#[tactic(auto, unfolding(plan_meaning::specs::Meaning::as_dev), using(plan_base::specs::Trees::trees))]
pub fn as_dev(v: &Value) -> Option<Dev>
    ensures { result ≡ spec.as_dev v.now }
{
    match v {
        Value::Dev(x) => Some(*x),
        _ => None,
    }
}

/// The chunk that a value is.
#[tactic(auto, unfolding(plan_meaning::specs::Meaning::as_chunk), using(plan_base::specs::Trees::trees))]
pub fn as_chunk(v: &Value) -> Option<&Chunk>
    ensures { option_copied result ≡ spec.as_chunk v.now }
{
    match v {
        Value::Chunk(k) => Some(k.get()),
        _ => None,
    }
}

/// The items of a list.
#[tactic(auto, unfolding(plan_meaning::specs::Meaning::as_items), using(plan_base::specs::Trees::trees))]
pub fn as_items(v: &Value) -> Option<&[Value]>
    ensures { option_copied result ≡ spec.as_items v.now }
{
    match v {
        Value::List(_, items) => Some(items.as_slice()),
        _ => None,
    }
}
