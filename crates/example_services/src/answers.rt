//! What the example's services answer.
ghost use Rattle.std.specs.Prelude.{IfOk, ◌≡◌};
ghost use Rattle.plan_types_spec.specs.Rules as rules;
ghost use Rattle.service_api.specs.declared.answer.Answer.TheVariants as answer;
ghost use Rattle.example_services.specs.Serving as spec;

use plan_base::{Exn, Name, NoMemory, Text};
use service_api::Answer;
use std::alloc::Global;

/// The exception of a call that isn't offered as it is declared.
#[tactic(auto, unfolding(plan_base::specs::Words::is_name, plan_base::specs::Words::is_word, plan_base::specs::Words::is_reserved))]
pub fn no_such_service(alloc: Global) -> Result<Answer, NoMemory>
    ensures { IfOk result (λ a. a ≡ answer.Raises rules.no_service) }
{
    Ok(Answer::Raises(Exn(Name::of(alloc, b"NoService")?)))
}

/// The text of a greeting.
pub fn hello(alloc: Global) -> Result<Text, NoMemory>
    ensures { IfOk result (λ t. t ≡ spec.hello) }
{
    Ok(Text::of(Vec::from_slice(alloc, b"hello")?))
}
