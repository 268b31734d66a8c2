//! The turns of a visit, in which what waits on the second stack goes on.
ghost use Rattle.std.specs.Prelude.{◌≡◌, ◌∷◌, ◌++◌, [], List, IsSome, Some, length};
ghost use Rattle.plan_base.specs.declared.tree.Value.{Value as AValue};
ghost use Rattle.plan_meaning.specs.Run.{RunStep};
ghost use Rattle.plan_meaning.specs.Safe.{IsSafe};
ghost use Rattle.plan_eval_state.specs.declared.continuation.Continuation.TheVariants as waits;
ghost use Rattle.plan_eval_state.specs.declared.progress.Progress.TheVariants as code;
ghost use Rattle.plan_eval_state.specs.Spots.{Spot};
ghost use Rattle.plan_eval_state.specs.Loop.{Runs, bare, body_site};
ghost use Rattle.plan_eval.specs.Turns.{Begins, Ends, Going, Turned};

use crate::task::{Task, at_innermost};
use plan_eval_made::{body_ended, chunk_ended};
use plan_eval_state::{Activation, Continuation, Progress, Run, Slot, Stack, ended, move_over};
use service_api::Services;
use std::alloc::Global;

/// What waits goes onto the second stack, and the innermost expression begins.
fn wake<S: Services>(
    alloc: Global,
    run: &mut Run,
    conts: &mut Stack<Continuation>,
    first: Activation,
    svc: &mut S,
) -> Progress
    requires open { IsSome (S.stands svc.old).begun }
    requires going { Going first conts.old code.Wait run.old (S.stands svc.old) }
    ensures { Turned first conts.old conts.new code.Wait result run.old run.new
        (S.stands svc.old) (S.stands svc.new) }
{
    if !move_over(run, conts) {
        return Progress::NoMemory;
    }
    at_innermost(alloc, run, conts, first, Task::Begin, svc)
}

/// An expression goes on behind the operand of that number, which gave the last value.
fn behind<S: Services>(
    alloc: Global,
    run: &mut Run,
    conts: &Stack<Continuation>,
    first: Activation,
    n: usize,
    svc: &mut S,
) -> Progress
    requires open { IsSome (S.stands svc.old).begun }
    requires going { Going first (waits.Part n ∷ conts.now) code.Done run.old (S.stands svc.old) }
    ensures { Turned first (waits.Part n ∷ conts.now) conts.now code.Done result run.old run.new
        (S.stands svc.old) (S.stands svc.new) }
{
    if n >= run.stack.len() {
        return Progress::Wrong;
    }
    at_innermost(alloc, run, conts, first, Task::Behind(n + 1), svc)
}

/// The last value comes to a place, and the others from there on go.
fn slide(run: &mut Run, base: usize)
    ensures { (x : AValue) (held pre : List AValue) → run.old.stack ≡ x ∷ (held ++ pre)
        → base ≡ length pre → run.new ≡ record run.old { stack = x ∷ pre } }
{
    run.stack.slide(base);
}

/// A fold goes on behind a step, which gave the last value.
fn stepped<S: Services>(
    alloc: Global,
    run: &mut Run,
    conts: &Stack<Continuation>,
    first: Activation,
    step: Activation,
    svc: &mut S,
) -> Progress
    requires open { IsSome (S.stands svc.old).begun }
    requires going { Going first (waits.Step step ∷ conts.now) code.Done run.old
        (S.stands svc.old) }
    ensures { Turned first (waits.Step step ∷ conts.now) conts.now code.Done result run.old run.new
        (S.stands svc.old) (S.stands svc.new) }
{
    slide(run, step.base);
    at_innermost(alloc, run, conts, first, Task::Fold, svc)
}

/// What waits innermost goes on with the last value.
fn go_on<S: Services>(
    alloc: Global,
    run: &mut Run,
    conts: &Stack<Continuation>,
    first: Activation,
    cont: Continuation,
    svc: &mut S,
) -> Progress
    requires open { IsSome (S.stands svc.old).begun }
    requires going { Going first (cont ∷ conts.now) code.Done run.old (S.stands svc.old) }
    ensures { Turned first (cont ∷ conts.now) conts.now code.Done result run.old run.new
        (S.stands svc.old) (S.stands svc.new) }
{
    match cont {
        Continuation::Part(n) => behind(alloc, run, conts, first, n, svc),
        Continuation::Last(_) => ended(alloc, run),
        Continuation::Try(_) => ended(alloc, run),
        Continuation::Bound(at) => body_ended(alloc, run, at),
        Continuation::Call(a) => body_ended(alloc, run, a.base),
        Continuation::Step(a) => stepped(alloc, run, conts, first, a, svc),
        Continuation::Chunk(a) => chunk_ended(alloc, run, a.base),
    }
}

/// A `try` that began at that height takes up the exception that is kept.
fn taken_up<S: Services>(
    alloc: Global,
    run: &mut Run,
    conts: &Stack<Continuation>,
    first: Activation,
    height: usize,
    svc: &mut S,
) -> Progress
    requires open { IsSome (S.stands svc.old).begun }
    requires going { Going first (waits.Try height ∷ conts.now) code.Raised run.old
        (S.stands svc.old) }
    ensures { Turned first (waits.Try height ∷ conts.now) conts.now code.Raised result run.old
        run.new (S.stands svc.old) (S.stands svc.new) }
{
    at_innermost(alloc, run, conts, first, Task::Catch(height), svc)
}

/// An exception reaches what waits innermost: a `try` takes it up, and all others pass it on.
fn raised<S: Services>(
    alloc: Global,
    run: &mut Run,
    conts: &Stack<Continuation>,
    first: Activation,
    cont: Continuation,
    svc: &mut S,
) -> Progress
    requires open { IsSome (S.stands svc.old).begun }
    requires going { Going first (cont ∷ conts.now) code.Raised run.old (S.stands svc.old) }
    ensures { Turned first (cont ∷ conts.now) conts.now code.Raised result run.old run.new
        (S.stands svc.old) (S.stands svc.new) }
{
    match cont {
        Continuation::Try(height) => taken_up(alloc, run, conts, first, height, svc),
        _ => Progress::Raised,
    }
}

/// Goes on until the whole has ended, from how far its first expression came: the body of a function.
pub fn finish<S: Services>(
    alloc: Global,
    run: &mut Run,
    first: Activation,
    came: Progress,
    svc: &mut S,
) -> Progress
    requires open { IsSome (S.stands svc.old).begun }
    requires going { Going first [] came run.old (S.stands svc.old) }
    ensures ends { (s : Spot) (pre : List AValue) (top : RunStep AValue)
        → Begins first s run.old.codes → IsSafe top.asks
        → Runs s pre top [] came run.old (S.stands svc.old)
        → Ends pre top result run.new (S.stands svc.new) }
    ensures offer { (S.stands svc.new).offer ≡ (S.stands svc.old).offer }
    ensures begun { (S.stands svc.new).begun ≡ (S.stands svc.old).begun }
{
    let mut conts = Stack::new(alloc);
    let mut how = came;
    loop {
        match how {
            Progress::Wait => how = wake(alloc, run, &mut conts, first, svc),
            Progress::Done => match conts.pop() {
                Some(k) => how = go_on(alloc, run, &conts, first, k, svc),
                None => return Progress::Done,
            },
            Progress::Raised => match conts.pop() {
                Some(k) => how = raised(alloc, run, &conts, first, k, svc),
                None => return Progress::Raised,
            },
            other => return other,
        }
    }
}
