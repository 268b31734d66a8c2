//! Asks a service.
ghost use Rattle.std.specs.Prelude.{◌≡◌, ◌≤◌, IsSome};
ghost use Rattle.plan_meaning.specs.State.{joined_state};
ghost use Rattle.plan_meaning.specs.Run as run;
ghost use Rattle.plan_meaning.specs.Safe.{IsSafe};
ghost use Rattle.visit_state.specs.Meets.{Meets};

use crate::state::EvalState;
use plan_base::{NoMemory, Svc, Value, Values};
use plan_meaning::EvalStop;
use service_api::{Answer, Services};
use std::alloc::Global;

/// Asks a declared service, and keeps its note. Conditions: a `begin` is open, and the arguments have the declared types
/// and keep the limits.
#[tactic(auto, unfolding(plan_meaning::specs::Run::serve))]
pub fn ask_service<S: Services>(
    alloc: Global,
    state: &mut EvalState,
    svc: &mut S,
    d: &Svc,
    args: &Values,
) -> Result<Value, EvalStop>
    requires open { IsSome (S.stands svc.old).begun }
    requires safe { IsSafe (run.serve d.now args.now
        (joined_state state.old (S.stands svc.old))).asks }
    ensures meets { Meets (run.serve d.now args.now (joined_state state.old (S.stands svc.old)))
        result (joined_state state.new (S.stands svc.new)) }
    ensures falls { state.new.work ≤ state.old.work }
    ensures offer { (S.stands svc.new).offer ≡ (S.stands svc.old).offer }
    ensures begun { (S.stands svc.new).begun ≡ (S.stands svc.old).begun }
{
    match svc.call(alloc, d, args, state.ctx())? {
        Answer::Gives(v, note) => match state.keep_note(note) {
            Ok(()) => Ok(v),
            Err(NoMemory) => {
                drop(v);
                Err(EvalStop::NoMemory)
            }
        },
        Answer::Raises(x) => Err(EvalStop::Raised(x)),
    }
}
