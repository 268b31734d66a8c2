//! Calls of primitives and of declared services, with the last values as arguments.
ghost use Rattle.std.specs.Prelude.{◌≡◌, ◌≢◌, ◌≤◌, ◌++◌, [], ℕ, List, length, reverse, take, Some, IsSome};
ghost use Rattle.plan_base.specs.declared.tree.Expr.{Expr as AnExpr, Expr-F};
ghost use Rattle.plan_base.specs.declared.name.Name.{Name as CalledName};
ghost use Rattle.plan_base.specs.declared.tree.Value.{Value as AValue};
ghost use Rattle.plan_types_spec.specs.TypingNames.{prim_of};
ghost use Rattle.plan_meaning.specs.Run as meant;
ghost use Rattle.plan_meaning.specs.Safe.{IsSafe};
ghost use Rattle.plan_eval_state.specs.declared.progress.Progress.TheVariants as code;
ghost use Rattle.plan_eval_state.specs.Spots.{Spot, layer};
ghost use Rattle.plan_eval_state.specs.Flow.{now};
ghost use Rattle.plan_eval_made.specs.Comes.{Continues};
ghost use Rattle.plan_eval_made.specs.Makes.{Makes};

use crate::row::take_row;
use plan_base::{Primitive, Svc};
use plan_eval_state::{Progress, Run, answer};
use service_api::Services;
use std::alloc::Global;
use visit_state::{ask_service, primitive};

/// What a primitive gives of the last values, so many.
pub fn primitive_call(alloc: Global, run: &mut Run, p: Primitive, n: usize) -> Progress
    requires bare { run.old.paused ≡ [] }
    ensures made { (s : Spot) (f : CalledName) (es : List AnExpr) → layer s ≡ Expr-F.Call f es
        → prim_of f ≡ Some p → length es ≡ n → Makes s run.old result run.new }
    ensures settled { result ≢ code.Wait }
    ensures falls { run.new.state.work ≤ run.old.state.work }
    ensures codes { run.new.codes ≡ run.old.codes }
{
    match take_row(alloc, run, n) {
        Ok(row) => {
            let args = row.into_values();
            let given = primitive(alloc, p, &args);
            drop(args);
            answer(alloc, run, given)
        }
        Err(_) => Progress::NoMemory,
    }
}

/// What a declared service answers to the last values, so many. Conditions: a `begin` is open, and the arguments have the
/// declared types and keep the limits.
pub fn service_call<S: Services>(
    alloc: Global,
    run: &mut Run,
    d: &Svc,
    n: usize,
    svc: &mut S,
) -> Progress
    requires bare { run.old.paused ≡ [] }
    requires high { n ≤ length run.old.stack }
    requires open { IsSome (S.stands svc.old).begun }
    requires safe { IsSafe (meant.serve d.now (reverse (take n run.old.stack))
        (now run.old (S.stands svc.old))).asks }
    ensures { (s : Spot) (depth : ℕ) (held pre : List AValue) → run.old.stack ≡ held ++ pre
        → length held ≡ n → Continues depth s pre (meant.and_then (meant.serve d.now (reverse held)
        (now run.old (S.stands svc.old))) meant.weighed_value)
        run.old (S.stands svc.old) result run.new (S.stands svc.new) }
{
    match take_row(alloc, run, n) {
        Ok(row) => {
            let args = row.into_values();
            let given = ask_service(alloc, &mut run.state, svc, d, &args);
            drop(args);
            answer(alloc, run, given)
        }
        Err(_) => Progress::NoMemory,
    }
}
