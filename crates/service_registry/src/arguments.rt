//! Reads arguments of services.
ghost use Rattle.std.specs.Prelude.{◌≡◌, option_copied};
ghost use Rattle.plan_base.specs.declared.tree.Value.{out-Value};
ghost use Rattle.service_registry.specs.Arguments.{host_in, int_in, text_in};

use plan_base::{Host, Text, Value};

/// The host that a value is.
#[tactic(auto, using(plan_base::specs::Trees::trees))]
pub fn as_host(v: &Value) -> Option<Host>
    ensures { result ≡ host_in (out-Value v.now) }
{
    match v {
        Value::Host(h) => Some(*h),
        _ => None,
    }
}

/// The number that a value is.
#[tactic(auto, using(plan_base::specs::Trees::trees))]
pub fn as_int(v: &Value) -> Option<i64>
    ensures { result ≡ int_in (out-Value v.now) }
{
    match v {
        Value::Int(z) => Some(*z),
        _ => None,
    }
}

/// The text that a value is.
#[tactic(auto, using(plan_base::specs::Trees::trees))]
pub fn as_text(v: &Value) -> Option<&Text>
    ensures { option_copied result ≡ text_in (out-Value v.now) }
{
    match v {
        Value::Str(s) => Some(s),
        _ => None,
    }
}
