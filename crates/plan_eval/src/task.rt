//! What the innermost expression does in a turn of a visit.
ghost use Rattle.std.specs.Prelude.{◌≡◌, ◌≤◌, [], length, min, slice_get, IsSome, Some};
ghost use Rattle.plan_base.specs.Sizes.{code_size};
ghost use Rattle.plan_meaning.specs.Safe.{IsSafe};
ghost use Rattle.plan_eval_state.specs.Forms.{operands};
ghost use Rattle.plan_eval_state.specs.Spots.{Spot};
ghost use Rattle.plan_eval_made.specs.Where.{Ready, spot};
ghost use Rattle.plan_eval.specs.Tasks.{Does, Fits, HasInnermost, Innermost, below, wanted};
ghost use Rattle.plan_eval.specs.Walk.{IsNearest};

use crate::place::{nearest, walk};
use containers::Shared;
use plan_base::{Expr, Program};
use plan_eval_forms::{caught, evaluate, fold, form};
use plan_eval_made::Here;
use plan_eval_state::{Activation, Continuation, Progress, Run, Stack};
use service_api::Services;
use std::alloc::Global;

/// How many levels of evaluation stand on the native stack at once.
pub const DEPTH: u64 = 256;

/// What the innermost expression does next.
#[derive(Clone, Copy)]
pub enum Task {
    /// It begins.
    Begin,
    /// It goes on behind so many operands, whose values are the last.
    Behind(usize),
    /// A fold goes on with its value so far, the number of items taken, and the list.
    Fold,
    /// A `try` that began at that height takes up the exception that is kept.
    Catch(usize),
}

/// Does a task of an expression, with the whole native stack before it.
fn perform<S: Services>(
    alloc: Global,
    run: &mut Run,
    here: &Here<'_>,
    e: &Expr,
    task: Task,
    svc: &mut S,
) -> Progress
    requires open { IsSome (S.stands svc.old).begun }
    requires bare { run.old.paused ≡ [] }
    requires ready { Ready here.now (below task run.old.stack) run.old.codes }
    requires fits { Fits task (spot here.now e.now (below task run.old.stack)) run.old.stack }
    requires safe { IsSafe (wanted task (spot here.now e.now (below task run.old.stack)) run.old
        (S.stands svc.old)).asks }
    ensures { Does task (spot here.now e.now (below task run.old.stack)) run.old
        (S.stands svc.old) result run.new (S.stands svc.new) }
{
    match task {
        Task::Begin => evaluate(alloc, run, here, e, DEPTH, svc),
        Task::Behind(n) => form(alloc, run, here, e, n, DEPTH, svc),
        Task::Fold => fold(alloc, run, here, e, DEPTH, svc),
        Task::Catch(height) => caught(alloc, run, here, e, height, DEPTH, svc),
    }
}

/// Does a task of the innermost expression, which stands in the body of that activation.
fn in_body<S: Services>(
    alloc: Global,
    run: &mut Run,
    conts: &Stack<Continuation>,
    first: Activation,
    nearest: (Activation, usize),
    code: &Shared<Program>,
    size: u64,
    task: Task,
    svc: &mut S,
) -> Progress
    requires open { IsSome (S.stands svc.old).begun }
    requires bare { run.old.paused ≡ [] }
    requires nearest { IsNearest first conts.now nearest.0 nearest.1 }
    requires program { slice_get run.old.codes nearest.0.number ≡ Some code.now }
    requires size { size ≡ min (code_size code.now) 18446744073709551615 }
    requires found { HasInnermost first conts.now task run.old (S.stands svc.old) }
    ensures { (s : Spot) → Innermost first conts.now task s run.old (S.stands svc.old)
        → Does task s run.old (S.stands svc.old) result run.new (S.stands svc.new) }
{
    let (activation, from) = nearest;
    let Some(function) = code.get().funs.get(activation.fun) else {
        return Progress::Wrong;
    };
    let Ok(found) = walk(alloc, &function.body, conts, from) else {
        return Progress::NoMemory;
    };
    let Some(place) = found else {
        return Progress::Wrong;
    };
    let here = Here {
        code,
        number: activation.number,
        size,
        fun: activation.fun,
        function,
        base: activation.base,
        bindings: place.bindings.as_slice(),
    };
    perform(alloc, run, &here, place.expr, task, svc)
}

/// Does a task of the innermost expression.
pub fn at_innermost<S: Services>(
    alloc: Global,
    run: &mut Run,
    conts: &Stack<Continuation>,
    first: Activation,
    task: Task,
    svc: &mut S,
) -> Progress
    requires open { IsSome (S.stands svc.old).begun }
    requires bare { run.old.paused ≡ [] }
    requires found { HasInnermost first conts.now task run.old (S.stands svc.old) }
    ensures { (s : Spot) → Innermost first conts.now task s run.old (S.stands svc.old)
        → Does task s run.old (S.stands svc.old) result run.new (S.stands svc.new) }
{
    let near = nearest(first, conts);
    let Some(open) = run.codes.get(near.0.number) else {
        return Progress::Wrong;
    };
    let size = open.size();
    let Ok(code) = open.code().share() else {
        return Progress::NoMemory;
    };
    in_body(alloc, run, conts, first, near, &code, size, task, svc)
}
