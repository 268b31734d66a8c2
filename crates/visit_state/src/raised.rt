//! The exceptions that an evaluation raises.
ghost use Rattle.std.specs.Prelude.{codes};
ghost use Rattle.plan_base.specs.Words.{IsName};
ghost use Rattle.plan_types_spec.specs.Rules.{exception, no_service, too_large};
ghost use Rattle.plan_meaning.specs.Meaning.{no_bound, no_route, not_neighbour};
ghost use Rattle.visit_state.specs.Meets.{RaisesOnly};

use plan_base::{Exn, Name};
use plan_meaning::EvalStop;
use std::alloc::Global;

/// The exception of that name. Condition: the word is a name.
fn raise(alloc: Global, word: &[u8]) -> EvalStop
    requires { IsName word.now }
    ensures { RaisesOnly (exception word.now) result }
{
    match Name::of(alloc, word) {
        Ok(name) => EvalStop::Raised(Exn(name)),
        Err(_) => EvalStop::NoMemory,
    }
}

/// `TooLarge`: a value passes the limits of weight or nesting.
#[tactic(auto, unfolding(plan_base::specs::Words::is_name, plan_base::specs::Words::is_word, plan_base::specs::Words::is_reserved))]
pub fn too_large(alloc: Global) -> EvalStop
    ensures { RaisesOnly too_large result }
{
    raise(alloc, b"TooLarge")
}

/// `NoBound`: the purse does not pay an eval or a send.
#[tactic(auto, unfolding(plan_base::specs::Words::is_name, plan_base::specs::Words::is_word, plan_base::specs::Words::is_reserved))]
pub fn no_bound(alloc: Global) -> EvalStop
    ensures { RaisesOnly no_bound result }
{
    raise(alloc, b"NoBound")
}

/// `NoService`: no such routing function is offered.
#[tactic(auto, unfolding(plan_base::specs::Words::is_name, plan_base::specs::Words::is_word, plan_base::specs::Words::is_reserved))]
pub fn no_service(alloc: Global) -> EvalStop
    ensures { RaisesOnly no_service result }
{
    raise(alloc, b"NoService")
}

/// `NoRoute`: no route to the host is known.
#[tactic(auto, unfolding(plan_base::specs::Words::is_name, plan_base::specs::Words::is_word, plan_base::specs::Words::is_reserved))]
pub fn no_route(alloc: Global) -> EvalStop
    ensures { RaisesOnly no_route result }
{
    raise(alloc, b"NoRoute")
}

/// `NotNeighbor`: the host is not next over the device.
#[tactic(auto, unfolding(plan_base::specs::Words::is_name, plan_base::specs::Words::is_word, plan_base::specs::Words::is_reserved))]
pub fn not_neighbour(alloc: Global) -> EvalStop
    ensures { RaisesOnly not_neighbour result }
{
    raise(alloc, b"NotNeighbor")
}
