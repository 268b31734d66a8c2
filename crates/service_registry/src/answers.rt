//! The exceptions that services raise.
ghost use Rattle.plan_base.specs.Words.{IsName};
ghost use Rattle.service_api.specs.Services as api;
ghost use Rattle.service_registry_spec.specs.Answers as spec;
ghost use Rattle.service_registry.specs.Meets.{Tells};
ghost use Rattle.plan_types_spec.specs.Rules as rules;

use plan_base::{Exn, Name, NoMemory};
use service_api::Answer;
use std::alloc::Global;

fn raise_word(alloc: Global, word: &[u8]) -> Result<Answer, NoMemory>
    requires { IsName word.now }
    ensures { Tells (spec.raised_answer (rules.exception word.now)) result }
{
    Ok(Answer::Raises(Exn(Name::of(alloc, word)?)))
}

/// The service isn't offered as it is called.
#[tactic(auto, unfolding(plan_base::specs::Words::is_name, plan_base::specs::Words::is_word, plan_base::specs::Words::is_reserved))]
pub fn no_such_service(alloc: Global) -> Result<Answer, NoMemory>
    ensures { Tells api.refused_call result }
{
    raise_word(alloc, b"NoService")
}

#[tactic(auto, unfolding(plan_base::specs::Words::is_name, plan_base::specs::Words::is_word, plan_base::specs::Words::is_reserved))]
pub fn no_route(alloc: Global) -> Result<Answer, NoMemory>
    ensures { Tells (spec.raised_answer spec.no_route) result }
{
    raise_word(alloc, b"NoRoute")
}

#[tactic(auto, unfolding(plan_base::specs::Words::is_name, plan_base::specs::Words::is_word, plan_base::specs::Words::is_reserved))]
pub fn bad_index(alloc: Global) -> Result<Answer, NoMemory>
    ensures { Tells (spec.raised_answer rules.bad_index) result }
{
    raise_word(alloc, b"BadIndex")
}

#[tactic(auto, unfolding(plan_base::specs::Words::is_name, plan_base::specs::Words::is_word, plan_base::specs::Words::is_reserved))]
pub fn table_full(alloc: Global) -> Result<Answer, NoMemory>
    ensures { Tells (spec.raised_answer spec.table_full) result }
{
    raise_word(alloc, b"TableFull")
}

#[tactic(auto, unfolding(plan_base::specs::Words::is_name, plan_base::specs::Words::is_word, plan_base::specs::Words::is_reserved))]
pub fn not_found(alloc: Global) -> Result<Answer, NoMemory>
    ensures { Tells (spec.raised_answer spec.not_found) result }
{
    raise_word(alloc, b"NotFound")
}

#[tactic(auto, unfolding(plan_base::specs::Words::is_name, plan_base::specs::Words::is_word, plan_base::specs::Words::is_reserved))]
pub fn overflow(alloc: Global) -> Result<Answer, NoMemory>
    ensures { Tells (spec.raised_answer rules.overflow) result }
{
    raise_word(alloc, b"Overflow")
}
