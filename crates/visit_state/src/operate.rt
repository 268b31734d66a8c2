//! What operators and primitives give an evaluation.
ghost use Rattle.plan_types_spec.specs.Rules as rules;
ghost use Rattle.plan_types_spec.specs.Rules.{Given};
ghost use Rattle.plan_base.specs.declared.tree.Value.{out-Value};
ghost use Rattle.plan_values.specs.Answers.{Answers, AnswersUnweighed};
ghost use Rattle.visit_state.specs.Meets.{MeetsGiven, MeetsUnweighed};

use plan_base::{Op, Primitive, Value, Values};
use plan_meaning::EvalStop;
use plan_values::PrimFault;
use std::alloc::Global;

/// What an operator, a primitive or a part gave, as the end of an evaluation.
fn answer_end(answer: Result<Value, PrimFault>) -> Result<Value, EvalStop>
    ensures { (want : Given) → Answers want answer → MeetsGiven want result }
{
    match answer {
        Ok(v) => Ok(v),
        Err(PrimFault::Raises(x)) => Err(EvalStop::Raised(x)),
        Err(PrimFault::Unfit) => Err(EvalStop::Wrong),
        Err(PrimFault::NoMemory) => Err(EvalStop::NoMemory),
    }
}

/// What `a op b` gives.
pub fn binary(alloc: Global, op: Op, a: &Value, b: &Value) -> Result<Value, EvalStop>
    ensures { MeetsGiven (rules.binary op a.now b.now) result }
{
    answer_end(plan_values::binary(alloc, op, a, b))
}

/// The same of a value that isn't weighed yet.
fn unweighed_end(answer: Result<Value, PrimFault>) -> Result<Value, EvalStop>
    ensures { (want : Given) → AnswersUnweighed want answer → MeetsUnweighed want result }
{
    match answer {
        Ok(v) => Ok(v),
        Err(PrimFault::Raises(x)) => Err(EvalStop::Raised(x)),
        Err(PrimFault::Unfit) => Err(EvalStop::Wrong),
        Err(PrimFault::NoMemory) => Err(EvalStop::NoMemory),
    }
}

/// What `x :: xs` gives of owned values; it isn't weighed yet.
pub fn cons(x: Value, xs: Value) -> Result<Value, EvalStop>
    ensures { MeetsUnweighed (rules.put_first x (out-Value xs)) result }
{
    unweighed_end(plan_values::cons(x, xs))
}

/// What a primitive gives of its arguments.
pub fn primitive(alloc: Global, p: Primitive, args: &Values) -> Result<Value, EvalStop>
    ensures { MeetsGiven (rules.primitive p args.now) result }
{
    answer_end(plan_values::primitive(alloc, p, args))
}

/// What `#i v` gives.
pub fn part(alloc: Global, i: u8, v: &Value) -> Result<Value, EvalStop>
    ensures { MeetsGiven (rules.part i v.now) result }
{
    answer_end(plan_values::part(alloc, i, v))
}
