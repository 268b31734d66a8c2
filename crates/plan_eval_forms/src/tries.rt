//! `try`s.
ghost use Rattle.std.specs.Prelude.{◌≡◌, ◌≤◌, [], length, IsSome, Some};
ghost use Rattle.plan_base.specs.declared.tree.Expr.{out-Expr};
ghost use Rattle.plan_meaning.specs.Safe.{IsSafe};
ghost use Rattle.plan_eval_state.specs.Forms.{tried};
ghost use Rattle.plan_eval_made.specs.Where.{Ready, lowest};
ghost use Rattle.plan_eval_made.specs.Comes.{TakesUp, rescued_here};
ghost use Rattle.plan_eval_forms.specs.Parts as parts;

use crate::choice::catching;
use crate::forms::{evaluate, last};
use plan_base::Expr;
use plan_eval_made::Here;
use plan_eval_state::{Continuation, Progress, Run, back, ended};
use service_api::Services;
use std::alloc::Global;

/// Evaluates the expression of a `try`.
#[cycle(evaluate)]
pub(crate) fn attempt<S: Services>(
    alloc: Global,
    run: &mut Run,
    here: &Here<'_>,
    e: &Expr,
    a: &Expr,
    depth: u64,
    svc: &mut S,
) -> Progress
    requires open { IsSome (S.stands svc.old).begun }
    requires bare { run.old.paused ≡ [] }
    requires form { tried (out-Expr e.now) ≡ Some a.now }
    requires ready { Ready here.now run.old.stack run.old.codes }
    requires safe { IsSafe (parts.begun_here here.now e.now run.old (S.stands svc.old)).asks }
    ensures { parts.Begins here.now e.now depth run.old (S.stands svc.old) result run.new
        (S.stands svc.new) }
{
    let height = run.stack.len();
    match evaluate(alloc, run, here, a, depth, svc) {
        Progress::Done => ended(alloc, run),
        Progress::Raised => caught(alloc, run, here, e, height, depth, svc),
        other => back(run, other, Continuation::Try(height)),
    }
}

/// Goes on with a `try` whose expression raised the exception that is kept, where the stack was so high before it.
#[cycle(evaluate)]
pub fn caught<S: Services>(
    alloc: Global,
    run: &mut Run,
    here: &Here<'_>,
    e: &Expr,
    height: usize,
    depth: u64,
    svc: &mut S,
) -> Progress
    requires open { IsSome (S.stands svc.old).begun }
    requires bare { run.old.paused ≡ [] }
    requires ready { Ready here.now (lowest height run.old.stack) run.old.codes }
    requires high { height ≤ length run.old.stack }
    requires safe { IsSafe (rescued_here here.now e.now height run.old (S.stands svc.old)).asks }
    ensures { TakesUp here.now e.now height depth run.old (S.stands svc.old) result run.new
        (S.stands svc.new) }
{
    let Some(raised) = &run.raised else {
        return Progress::Wrong;
    };
    match catching(e, raised) {
        Some((n, body)) => {
            run.stack.truncate(height);
            last(alloc, run, here, e, n, body, depth, svc)
        }
        None => Progress::Raised,
    }
}
