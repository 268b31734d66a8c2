//! Operators on numbers.
ghost use Rattle.std.specs.Prelude.{◌+ℤ◌, ◌-ℤ◌, ◌*ℤ◌};
ghost use Rattle.plan_types_spec.specs.Rules as rules;
ghost use Rattle.plan_values.specs.Answers.{Answers};

use crate::fault::PrimFault;
use crate::raise::{division_by_zero, overflow};
use plan_base::Value;
use std::alloc::Global;

pub fn sum(alloc: Global, a: i64, b: i64) -> Result<Value, PrimFault>
    ensures { Answers (rules.bounded_number (a +ℤ b)) result }
{
    match a.checked_add(b) {
        Some(n) => Ok(Value::Int(n)),
        None => Err(overflow(alloc)),
    }
}

#[tactic(auto, using(crate::proofs::NumberLaws::bounds))]
pub fn difference(alloc: Global, a: i64, b: i64) -> Result<Value, PrimFault>
    ensures { Answers (rules.bounded_number (a -ℤ b)) result }
{
    match a.checked_sub(b) {
        Some(n) => Ok(Value::Int(n)),
        None => Err(overflow(alloc)),
    }
}

pub fn product(alloc: Global, a: i64, b: i64) -> Result<Value, PrimFault>
    ensures { Answers (rules.bounded_number (a *ℤ b)) result }
{
    match a.checked_mul(b) {
        Some(n) => Ok(Value::Int(n)),
        None => Err(overflow(alloc)),
    }
}

pub fn quotient(alloc: Global, a: i64, b: i64) -> Result<Value, PrimFault>
    ensures { Answers (rules.divided_number a b) result }
{
    if b == 0 {
        return Err(division_by_zero(alloc));
    }
    match a.checked_div(b) {
        Some(n) => Ok(Value::Int(n)),
        None => Err(overflow(alloc)),
    }
}

pub fn remainder(alloc: Global, a: i64, b: i64) -> Result<Value, PrimFault>
    ensures { Answers (rules.remainder a b) result }
{
    if b == 0 {
        return Err(division_by_zero(alloc));
    }
    Ok(Value::Int(a.wrapping_rem(b)))
}
