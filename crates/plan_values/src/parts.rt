//! The parts of tuples.
ghost use Rattle.std.specs.Prelude.{◌≡◌, ◌-◌, List, Some, slice_get};
ghost use Rattle.std.specs.Option.{option_copied};
ghost use Rattle.plan_base.specs.declared.tree.Value.{out-Value};
ghost use Rattle.plan_base.specs.declared.tree.Value.TheOpen.{Value-F as layer};
ghost use Rattle.plan_types_spec.specs.Rules as rules;
ghost use Rattle.plan_base.specs.declared.tree.Ty.{Ty as AType};
ghost use Rattle.plan_base.specs.declared.tree.Ty as ty;
ghost use Rattle.plan_types_spec.specs.Typing.{HasType};
ghost use Rattle.plan_types_spec.specs.TypingNames.{part_of};
ghost use Rattle.plan_values.specs.Answers.{Answers, IsFit};

use crate::fault::PrimFault;
use plan_base::{Value, Values};
use plan_base_copy::TryClone;
use std::alloc::Global;

/// A copy of the part of a tuple with number `i`, from 1, or `Unfit` where `v` has no such part: never where its type has one.
pub fn part(alloc: Global, i: u8, v: &Value) -> Result<Value, PrimFault>
    ensures answers { Answers (rules.part i v.now) result }
    ensures fits { (ts : List AType) (t : AType) → HasType v.now (ty.Tuple ts)
        → part_of i ts ≡ Some t → IsFit t result }
{
    part_in(alloc, i, v)
}

#[tactic(auto, unfolding(plan_types_spec::specs::Rules::part))]
fn part_in(alloc: Global, i: u8, v: &Value) -> Result<Value, PrimFault>
    ensures { Answers (rules.part i v.now) result }
{
    match v {
        Value::Tuple(parts) => part_at(alloc, i, parts),
        _ => Err(PrimFault::Unfit),
    }
}

fn part_at(alloc: Global, i: u8, parts: &Values) -> Result<Value, PrimFault>
    ensures { Answers (rules.part_of i (layer.Tuple parts.now)) result }
{
    if i == 0 {
        return Err(PrimFault::Unfit);
    }
    copy_part(alloc, parts.get(i as usize - 1))
}

fn copy_part(alloc: Global, v: Option<&Value>) -> Result<Value, PrimFault>
    ensures { Answers (rules.found_value (option_copied v.entry)) result }
{
    match v {
        Some(v) => match v.copy(alloc) {
            Ok(copied) => Ok(copied),
            Err(_) => Err(PrimFault::NoMemory),
        },
        None => Err(PrimFault::Unfit),
    }
}
