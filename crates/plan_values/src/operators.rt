//! The operators between two values.
ghost use Rattle.std.specs.Prelude.{◌≡◌, not};
ghost use Rattle.std.specs.Option as option;
ghost use Rattle.plan_base.specs.declared.tree.Value.{out-Value};
ghost use Rattle.plan_types_spec.specs.Rules as rules;
ghost use Rattle.plan_types_spec.specs.Same.{same_value};
ghost use Rattle.plan_base.specs.declared.tree.Ty.{Ty as AType};
ghost use Rattle.plan_types_spec.specs.Typing.{HasType};
ghost use Rattle.plan_types_spec.specs.Typed.{OperatorTakes};
ghost use Rattle.plan_values.specs.Answers.{Answers, IsFit};

use crate::fault::PrimFault;
use crate::lists::{join_values, put_first};
use crate::numbers::{difference, product, quotient, remainder, sum};
use crate::order::before;
use plan_base::{Op, Value};
use plan_base_eq::SameAs;
use std::alloc::Global;

/// The value or the exception of `a op b`, or `Unfit` where the operator doesn't take such operands: never where they have
/// types that it takes.
pub fn binary(alloc: Global, op: Op, a: &Value, b: &Value) -> Result<Value, PrimFault>
    ensures answers { Answers (rules.binary op a.now b.now) result }
    ensures fits { (t u r : AType) → OperatorTakes op t u r → HasType a.now t → HasType b.now u
        → IsFit r result }
{
    apply_operator(alloc, op, a, b)
}

#[tactic(auto, unfolding(plan_types_spec::specs::Rules::binary))]
fn apply_operator(alloc: Global, op: Op, a: &Value, b: &Value) -> Result<Value, PrimFault>
    ensures { Answers (rules.binary op a.now b.now) result }
{
    match op {
        Op::Cat => join_values(alloc, a, b),
        Op::Cons => put_first(alloc, a, b),
        Op::Eq => Ok(Value::Bool(same(a, b))),
        Op::Ne => Ok(Value::Bool(!same(a, b))),
        Op::Lt => answer(before(a, b)),
        Op::Le => negated_answer(before(b, a)),
        Op::Gt => answer(before(b, a)),
        Op::Ge => negated_answer(before(a, b)),
        Op::Add | Op::Sub | Op::Mul | Op::Div | Op::Mod => on_numbers(alloc, op, a, b),
    }
}

fn same(a: &Value, b: &Value) -> bool
    ensures { result ≡ same_value a.now b.now }
{
    a.is(b)
}

fn answer(before: Option<bool>) -> Result<Value, PrimFault>
    ensures { Answers (rules.answered_truth (λ r. r) before) result }
{
    match before {
        Some(b) => Ok(Value::Bool(b)),
        None => Err(PrimFault::Unfit),
    }
}

fn negated_answer(before: Option<bool>) -> Result<Value, PrimFault>
    ensures { Answers (rules.answered_truth not before) result }
{
    match before {
        Some(b) => Ok(Value::Bool(!b)),
        None => Err(PrimFault::Unfit),
    }
}

fn on_numbers(alloc: Global, op: Op, a: &Value, b: &Value) -> Result<Value, PrimFault>
    ensures { Answers (rules.numbers (rules.computed_number op) (out-Value a.now) (out-Value b.now))
        result }
{
    match a {
        Value::Int(x) => match b {
            Value::Int(y) => compute_number(alloc, op, *x, *y),
            _ => Err(PrimFault::Unfit),
        },
        Value::Unit
        | Value::Bool(_)
        | Value::Char(_)
        | Value::Str(_)
        | Value::Blob(_)
        | Value::Host(_)
        | Value::Dev(_)
        | Value::Chunk(_)
        | Value::List(_, _)
        | Value::Tuple(_) => Err(PrimFault::Unfit),
    }
}

fn compute_number(alloc: Global, op: Op, a: i64, b: i64) -> Result<Value, PrimFault>
    ensures { Answers (rules.computed_number op a b) result }
{
    match op {
        Op::Add => sum(alloc, a, b),
        Op::Sub => difference(alloc, a, b),
        Op::Mul => product(alloc, a, b),
        Op::Div => quotient(alloc, a, b),
        Op::Mod => remainder(alloc, a, b),
        Op::Cat | Op::Eq | Op::Ne | Op::Lt | Op::Le | Op::Gt | Op::Ge | Op::Cons => Err(
            PrimFault::Unfit,
        ),
    }
}
