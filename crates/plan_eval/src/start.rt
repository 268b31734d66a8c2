//! The beginning of a visit, and what it ends with.
ghost use Rattle.std.specs.Prelude.{◌≡◌, ◌∷◌, [], List, IfNone, IfOk, IfSome, IsSome, Ok, Err, Some, min, reverse};
ghost use Rattle.plan_base.specs.declared.tree.Exn.{Exn as AnExn};
ghost use Rattle.plan_base.specs.declared.tree.Value.{Value as AValue};
ghost use Rattle.plan_meaning.specs.declared.stop.EvalStop.TheVariants.{Raised, Wrong};
ghost use Rattle.plan_base.specs.Sizes.{code_size};
ghost use Rattle.service_api.specs.Services.{ServiceState};
ghost use Rattle.plan_meaning.specs.State.{VisitState, joined_state};
ghost use Rattle.plan_meaning.specs.Run.{RunStep, stopped};
ghost use Rattle.plan_meaning.specs.Meaning.{meaning, visited_chunk};
ghost use Rattle.plan_meaning.specs.Safe.{IsSafe};
ghost use Rattle.visit_state.specs.Meets.{Meets};
ghost use Rattle.plan_eval_state.specs.Flow.{now};
ghost use Rattle.plan_eval.specs.Start.{IsEntry, IsStart};
ghost use Rattle.plan_eval.specs.Turns.{Ends};

use crate::task::DEPTH;
use crate::turns::finish;
use containers::Items;
use plan_base::{Chunk, Exn, NoMemory, Value};
use plan_base_copy::TryClone;
use plan_eval_forms::evaluate;
use plan_eval_made::Here;
use plan_eval_state::{Activation, OpenProgram, OpenPrograms, Progress, Run, Slot, Stack};
use plan_meaning::EvalStop;
use plan_types_spec::place_of;
use service_api::Services;
use std::alloc::Global;
use visit_state::EvalState;

/// The program with which a visit starts.
fn first_codes(alloc: Global, chunk: &Chunk, size: u64) -> Result<OpenPrograms, NoMemory>
    requires size { size ≡ min (code_size chunk.now.code) 18446744073709551615 }
    ensures { IfOk result (λ codes. codes ≡ chunk.now.code ∷ []) }
{
    let mut codes = Items::new(alloc);
    codes.add(OpenProgram::of_size(&chunk.code, size)?)?;
    Ok(codes)
}

/// The stack with which a visit starts: its arguments.
fn first_stack(alloc: Global, chunk: &Chunk) -> Result<Stack<Slot>, NoMemory>
    ensures { IfOk result (λ stack. stack ≡ reverse chunk.now.args) }
{
    let mut stack = Stack::new(alloc);
    let mut rest = chunk.args.as_slice();
    while let [v, more @ ..] = rest {
        stack.push(Slot::of(v.copy(alloc)?))?;
        rest = more;
    }
    Ok(stack)
}

/// A visit as it starts: the chunk's program is open, and its arguments are all that stands on the stack.
pub fn first_run(alloc: Global, chunk: &Chunk, size: u64, state: EvalState) -> Result<Run, NoMemory>
    requires size { size ≡ min (code_size chunk.now.code) 18446744073709551615 }
    ensures { IfOk result (λ run. IsStart chunk.now state run) }
{
    let Ok(codes) = first_codes(alloc, chunk, size) else {
        drop(state);
        return Err(NoMemory);
    };
    let Ok(stack) = first_stack(alloc, chunk) else {
        drop(state);
        drop(codes);
        return Err(NoMemory);
    };
    Ok(Run {
        state,
        codes,
        stack,
        paused: Stack::new(alloc),
        raised: None,
    })
}

/// Where the entry of a chunk stands, or `None` where there is none that takes so many arguments.
fn entry_of<'a>(chunk: &'a Chunk, size: u64) -> Option<Here<'a>>
    requires size { size ≡ min (code_size chunk.now.code) 18446744073709551615 }
    ensures some { IfSome result (λ here. IsEntry chunk.now here) }
    ensures none { IfNone result ((st : VisitState)
        → (visited_chunk meaning chunk.now st).after ≡ stopped Wrong st) }
{
    let code = chunk.code.get();
    let Some(fun) = place_of(&chunk.entry, code.funs.as_slice()) else {
        return None;
    };
    let Some(function) = code.funs.get(fun) else {
        return None;
    };
    if function.params.len() != chunk.args.len() {
        return None;
    }
    Some(Here {
        code: &chunk.code,
        number: 0,
        size,
        fun,
        function,
        base: 0,
        bindings: &[],
    })
}

/// Runs a chunk from its entry to its end, over its arguments.
pub fn run_entry<S: Services>(
    alloc: Global,
    run: &mut Run,
    chunk: &Chunk,
    size: u64,
    svc: &mut S,
) -> Progress
    requires open { IsSome (S.stands svc.old).begun }
    requires start { IsStart chunk.now run.old.state run.old }
    requires size { size ≡ min (code_size chunk.now.code) 18446744073709551615 }
    requires safe { IsSafe (visited_chunk meaning chunk.now (now run.old (S.stands svc.old))).asks }
    ensures ends { Ends run.old.stack (visited_chunk meaning chunk.now
        (now run.old (S.stands svc.old))) result run.new (S.stands svc.new) }
    ensures offer { (S.stands svc.new).offer ≡ (S.stands svc.old).offer }
    ensures begun { (S.stands svc.new).begun ≡ (S.stands svc.old).begun }
{
    let Some(here) = entry_of(chunk, size) else {
        return Progress::Wrong;
    };
    let function = here.function;
    let came = evaluate(alloc, run, &here, &function.body, DEPTH, svc);
    let first = Activation {
        number: 0,
        fun: here.fun,
        base: 0,
    };
    finish(alloc, run, first, came, svc)
}

/// The last value.
fn last_value(mut stack: Stack<Slot>) -> Result<Value, EvalStop>
    ensures { (v : AValue) (pre : List AValue) → stack ≡ v ∷ pre → result ≡ Ok v }
{
    match stack.pop() {
        Some(slot) => Ok(slot.into_value()),
        None => Err(EvalStop::Wrong),
    }
}

/// The exception that is kept.
fn kept(raised: Option<Exn>) -> Result<Value, EvalStop>
    ensures { (x : AnExn) → raised ≡ Some x → result ≡ Err (Raised x) }
{
    match raised {
        Some(x) => Err(EvalStop::Raised(x)),
        None => Err(EvalStop::Wrong),
    }
}

/// What a run that came so far ended with, and its state.
pub fn taken(run: Run, came: Progress) -> (EvalState, Result<Value, EvalStop>)
    ensures { (pre : List AValue) (want : RunStep AValue) (n : ServiceState)
        → Ends pre want came run n → Meets want result.1 (joined_state result.0 n) }
{
    let Run {
        state,
        codes,
        stack,
        paused,
        raised,
    } = run;
    drop(codes);
    drop(paused);
    match came {
        Progress::Done => {
            drop(raised);
            (state, last_value(stack))
        }
        Progress::Raised => {
            drop(stack);
            (state, kept(raised))
        }
        Progress::Spent => {
            drop(stack);
            drop(raised);
            (state, Err(EvalStop::WorkSpent))
        }
        Progress::NoMemory => {
            drop(stack);
            drop(raised);
            (state, Err(EvalStop::NoMemory))
        }
        _ => {
            drop(stack);
            drop(raised);
            (state, Err(EvalStop::Wrong))
        }
    }
}
