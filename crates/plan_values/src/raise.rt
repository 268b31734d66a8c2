//! The exceptions that operators raise.
ghost use Rattle.std.specs.Prelude.{codes};
ghost use Rattle.plan_base.specs.Words.{IsName};
ghost use Rattle.plan_types_spec.specs.Rules as rules;
ghost use Rattle.plan_values.specs.Answers.{RaisesOnly};

use crate::fault::PrimFault;
use plan_base::{Exn, Name};
use std::alloc::Global;

fn raise(alloc: Global, word: &[u8]) -> PrimFault
    requires { IsName word.now }
    ensures { RaisesOnly (rules.exception word.now) result }
{
    match Name::of(alloc, word) {
        Ok(name) => PrimFault::Raises(Exn(name)),
        Err(_) => PrimFault::NoMemory,
    }
}

#[tactic(auto, unfolding(plan_base::specs::Words::is_name, plan_base::specs::Words::is_word, plan_base::specs::Words::is_reserved))]
pub fn overflow(alloc: Global) -> PrimFault
    ensures { RaisesOnly rules.overflow result }
{
    raise(alloc, b"Overflow")
}

#[tactic(auto, unfolding(plan_base::specs::Words::is_name, plan_base::specs::Words::is_word, plan_base::specs::Words::is_reserved))]
pub fn division_by_zero(alloc: Global) -> PrimFault
    ensures { RaisesOnly rules.division_by_zero result }
{
    raise(alloc, b"DivByZero")
}

#[tactic(auto, unfolding(plan_base::specs::Words::is_name, plan_base::specs::Words::is_word, plan_base::specs::Words::is_reserved))]
pub fn empty(alloc: Global) -> PrimFault
    ensures { RaisesOnly rules.empty result }
{
    raise(alloc, b"Empty")
}

#[tactic(auto, unfolding(plan_base::specs::Words::is_name, plan_base::specs::Words::is_word, plan_base::specs::Words::is_reserved))]
pub fn bad_index(alloc: Global) -> PrimFault
    ensures { RaisesOnly rules.bad_index result }
{
    raise(alloc, b"BadIndex")
}

#[tactic(auto, unfolding(plan_base::specs::Words::is_name, plan_base::specs::Words::is_word, plan_base::specs::Words::is_reserved))]
pub fn too_large(alloc: Global) -> PrimFault
    ensures { RaisesOnly rules.too_large result }
{
    raise(alloc, b"TooLarge")
}
