//! Folds. Below the value so far stand the number of items that were taken and the list.
ghost use Rattle.std.specs.Prelude.{◌≡◌, ◌≤◌, [], length, drop, IsSome};
ghost use Rattle.plan_base.specs.declared.tree.Expr.{out-Expr};
ghost use Rattle.plan_meaning.specs.Safe.{IsSafe};
ghost use Rattle.plan_eval_made.specs.Where.{Ready};
ghost use Rattle.plan_eval_made.specs.Comes.{FoldsOn, turning_here};
ghost use Rattle.plan_eval_forms.specs.Parts as parts;

use crate::bodies::enter;
use plan_base::Expr;
use plan_eval_made::{Here, Taking, begin_fold, body_ended, next_item};
use plan_eval_state::{Activation, Continuation, Progress, Run, back};
use service_api::Services;
use std::alloc::Global;
use visit_state::place_among;

/// Begins a fold: the value with which it starts and its list are the last on the stack.
#[cycle(evaluate)]
pub(crate) fn folded<S: Services>(
    alloc: Global,
    run: &mut Run,
    here: &Here<'_>,
    e: &Expr,
    depth: u64,
    svc: &mut S,
) -> Progress
    requires open { IsSome (S.stands svc.old).begun }
    requires bare { run.old.paused ≡ [] }
    requires form { parts.IsFold (out-Expr e.now) }
    requires ready { Ready here.now (drop 2 run.old.stack) run.old.codes }
    requires high { 2 ≤ length run.old.stack }
    requires safe { IsSafe (parts.made_here here.now e.now 2 run.old (S.stands svc.old)).asks }
    ensures { parts.MakesOn here.now e.now 2 depth run.old (S.stands svc.old) result run.new
        (S.stands svc.new) }
{
    match begin_fold(run) {
        Ok(()) => fold(alloc, run, here, e, depth, svc),
        Err(_) => Progress::NoMemory,
    }
}

/// The place of the function of a fold.
#[tactic(auto, using(plan_base::specs::Trees::trees))]
fn step_place(here: &Here<'_>, e: &Expr) -> Option<usize>
    ensures { result ≡ parts.step_at (out-Expr e.now) here.now.code.now here.now.fun }
{
    match e {
        Expr::Foldl(f, _, _) | Expr::Foldr(f, _, _) => {
            place_among(f, here.fun, here.code.get().funs.as_slice())
        }
        _ => None,
    }
}

/// Goes on with a fold: its list, the number of items that were taken and the value so far are the last on the stack.
#[cycle(evaluate)]
pub fn fold<S: Services>(
    alloc: Global,
    run: &mut Run,
    here: &Here<'_>,
    e: &Expr,
    depth: u64,
    svc: &mut S,
) -> Progress
    requires open { IsSome (S.stands svc.old).begun }
    requires bare { run.old.paused ≡ [] }
    requires ready { Ready here.now (drop 3 run.old.stack) run.old.codes }
    requires high { 3 ≤ length run.old.stack }
    requires safe { IsSafe (turning_here here.now e.now run.old (S.stands svc.old)).asks }
    ensures { FoldsOn here.now e.now depth run.old (S.stands svc.old) result run.new
        (S.stands svc.new) }
{
    let found = step_place(here, e);
    let base = run.stack.len() - 3;
    loop {
        match next_item(alloc, run, e) {
            Taking::Item => {
                if let Some(came) = step(alloc, run, here, e, found, depth, svc) {
                    return came;
                }
            }
            Taking::Ended => return body_ended(alloc, run, base),
            Taking::Stopped(came) => return came,
        }
    }
}

/// Evaluates a step of a fold, whose arguments are the last on the stack, unless it gives no value: then that is how far the
/// fold came.
#[cycle(evaluate)]
fn step<S: Services>(
    alloc: Global,
    run: &mut Run,
    here: &Here<'_>,
    e: &Expr,
    found: Option<usize>,
    depth: u64,
    svc: &mut S,
) -> Option<Progress>
    requires open { IsSome (S.stands svc.old).begun }
    requires bare { run.old.paused ≡ [] }
    requires found { found ≡ parts.step_at (out-Expr e.now) here.now.code.now here.now.fun }
    requires ready { Ready here.now (drop 4 run.old.stack) run.old.codes }
    requires high { 4 ≤ length run.old.stack }
    requires safe { IsSafe (parts.stepping_here here.now e.now run.old (S.stands svc.old)).asks }
    ensures { parts.Steps here.now e.now depth run.old (S.stands svc.old) result run.new
        (S.stands svc.new) }
{
    let Some(fun) = found else {
        return Some(Progress::Wrong);
    };
    let number = here.number;
    let base = run.stack.len() - 2;
    let a = Activation { number, fun, base };
    match enter(alloc, run, here.code, here.size, a, depth, svc) {
        Progress::Done => {
            run.stack.slide(base);
            None
        }
        other => Some(back(run, other, Continuation::Step(a))),
    }
}
