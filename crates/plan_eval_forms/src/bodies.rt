//! Bodies: of a `let`, of a function that is called, of the entry of a chunk.
ghost use Rattle.std.specs.Prelude.{◌≡◌, ◌≤◌, [], length, drop, min, slice_get, IfOk, IsSome, Some, None};
ghost use Rattle.plan_base.specs.declared.tree.Expr.{Expr as AnExpr, Expr-F, out-Expr};
ghost use Rattle.plan_base.specs.declared.tree.Ty.{Ty};
ghost use Rattle.plan_base.specs.Sizes.{code_size};
ghost use Rattle.plan_types_spec.specs.TypingNames.{prim_of, service_of};
ghost use Rattle.plan_meaning.specs.Meaning.{entered_function, meaning};
ghost use Rattle.plan_meaning.specs.Safe.{IsSafe};
ghost use Rattle.plan_eval_state.specs.Flow.{now};
ghost use Rattle.plan_eval_made.specs.Where.{Ready};
ghost use Rattle.plan_eval_forms.specs.Parts as parts;

use crate::forms::evaluate;
use containers::{Items, Shared};
use plan_base::{Expr, Name, NoMemory, Program};
use plan_eval_made::{
    Binding, Here, body_ended, chunk_ended, open_chunk, primitive_call, service_call,
};
use plan_eval_state::{Activation, Continuation, Progress, Run, back};
use plan_types_spec::{prim_of, service_of};
use service_api::Services;
use std::alloc::Global;
use visit_state::place_among;

/// Bindings with one more, the innermost.
fn with_binding<'a>(
    alloc: Global,
    bindings: &[Binding<'a>],
    name: &'a Name,
    at: usize,
) -> Result<Items<Binding<'a>>, NoMemory>
    ensures { IfOk result (λ all. parts.HasOneMore bindings.now name.now at all) }
{
    let mut all = Items::from_slice(alloc, bindings)?;
    all.add(Binding { name, at })?;
    Ok(all)
}

/// Evaluates the body of a `let`, under the name of the last value.
#[cycle(evaluate)]
pub(crate) fn bound<S: Services>(
    alloc: Global,
    run: &mut Run,
    here: &Here<'_>,
    e: &Expr,
    x: &Name,
    b: &Expr,
    depth: u64,
    svc: &mut S,
) -> Progress
    requires open { IsSome (S.stands svc.old).begun }
    requires bare { run.old.paused ≡ [] }
    requires form { (t : Ty) × (a : AnExpr) × (out-Expr e.now ≡ Expr-F.Let x.now t a b.now) }
    requires ready { Ready here.now (drop 1 run.old.stack) run.old.codes }
    requires high { 1 ≤ length run.old.stack }
    requires safe { IsSafe (parts.made_here here.now e.now 1 run.old (S.stands svc.old)).asks }
    ensures { parts.MakesOn here.now e.now 1 depth run.old (S.stands svc.old) result run.new
        (S.stands svc.new) }
{
    let at = run.stack.len() - 1;
    let Ok(bindings) = with_binding(alloc, here.bindings, x, at) else {
        return Progress::NoMemory;
    };
    let inner = Here {
        bindings: bindings.as_slice(),
        ..*here
    };
    match evaluate(alloc, run, &inner, b, depth, svc) {
        Progress::Done => body_ended(alloc, run, at),
        other => back(run, other, Continuation::Bound(at)),
    }
}

/// Evaluates the body of a function, over its arguments, which are the last on the stack.
#[cycle(evaluate)]
pub(crate) fn enter<S: Services>(
    alloc: Global,
    run: &mut Run,
    code: &Shared<Program>,
    size: u64,
    a: Activation,
    depth: u64,
    svc: &mut S,
) -> Progress
    requires open { IsSome (S.stands svc.old).begun }
    requires bare { run.old.paused ≡ [] }
    requires program { slice_get run.old.codes a.number ≡ Some code.now }
    requires size { size ≡ min (code_size code.now) 18446744073709551615 }
    requires high { a.base ≤ length run.old.stack }
    requires safe { IsSafe (entered_function meaning code.now a.fun
        (parts.args_from a.base run.old.stack) (now run.old (S.stands svc.old))).asks }
    ensures { parts.Enters code.now a depth run.old (S.stands svc.old) result run.new
        (S.stands svc.new) }
{
    let function = code.get().funs.at(a.fun);
    let here = Here {
        code,
        number: a.number,
        size,
        fun: a.fun,
        function,
        base: a.base,
        bindings: &[],
    };
    evaluate(alloc, run, &here, &function.body, depth, svc)
}

/// Calls a primitive, a service or an earlier function with the last values.
#[cycle(evaluate)]
pub(crate) fn called<S: Services>(
    alloc: Global,
    run: &mut Run,
    here: &Here<'_>,
    e: &Expr,
    f: &Name,
    n: usize,
    depth: u64,
    svc: &mut S,
) -> Progress
    requires open { IsSome (S.stands svc.old).begun }
    requires bare { run.old.paused ≡ [] }
    requires form { parts.IsCall (out-Expr e.now) f.now n }
    requires ready { Ready here.now (drop n run.old.stack) run.old.codes }
    requires high { n ≤ length run.old.stack }
    requires safe { IsSafe (parts.made_here here.now e.now n run.old (S.stands svc.old)).asks }
    ensures { parts.MakesOn here.now e.now n depth run.old (S.stands svc.old) result run.new
        (S.stands svc.new) }
{
    if let Some(p) = prim_of(f) {
        return primitive_call(alloc, run, p, n);
    }
    match service_of(f, here.code.get().svcs.as_slice()) {
        Some(service) => service_call(alloc, run, service, n, svc),
        None => call(alloc, run, here, e, f, n, depth, svc),
    }
}

/// Calls an earlier function.
#[cycle(evaluate)]
fn call<S: Services>(
    alloc: Global,
    run: &mut Run,
    here: &Here<'_>,
    e: &Expr,
    f: &Name,
    n: usize,
    depth: u64,
    svc: &mut S,
) -> Progress
    requires open { IsSome (S.stands svc.old).begun }
    requires bare { run.old.paused ≡ [] }
    requires form { parts.IsCall (out-Expr e.now) f.now n }
    requires function { (prim_of f.now ≡ None) × (service_of f.now here.now.code.now.svcs ≡ None) }
    requires ready { Ready here.now (drop n run.old.stack) run.old.codes }
    requires high { n ≤ length run.old.stack }
    requires safe { IsSafe (parts.made_here here.now e.now n run.old (S.stands svc.old)).asks }
    ensures { parts.MakesOn here.now e.now n depth run.old (S.stands svc.old) result run.new
        (S.stands svc.new) }
{
    let Some(fun) = place_among(f, here.fun, here.code.get().funs.as_slice()) else {
        return Progress::Wrong;
    };
    let number = here.number;
    let base = run.stack.len() - n;
    let a = Activation { number, fun, base };
    match enter(alloc, run, here.code, here.size, a, depth, svc) {
        Progress::Done => body_ended(alloc, run, base),
        other => back(run, other, Continuation::Call(a)),
    }
}

/// Pays for the chunk that the last value is, and evaluates its entry.
#[cycle(evaluate)]
pub(crate) fn opened<S: Services>(
    alloc: Global,
    run: &mut Run,
    here: &Here<'_>,
    e: &Expr,
    depth: u64,
    svc: &mut S,
) -> Progress
    requires open { IsSome (S.stands svc.old).begun }
    requires bare { run.old.paused ≡ [] }
    requires form { (a : AnExpr) × (out-Expr e.now ≡ Expr-F.Eval a) }
    requires ready { Ready here.now (drop 1 run.old.stack) run.old.codes }
    requires high { 1 ≤ length run.old.stack }
    requires safe { IsSafe (parts.made_here here.now e.now 1 run.old (S.stands svc.old)).asks }
    ensures { parts.MakesOn here.now e.now 1 depth run.old (S.stands svc.old) result run.new
        (S.stands svc.new) }
{
    match open_chunk(alloc, run) {
        Ok(opened) => {
            let (number, fun, base) = (opened.number, opened.fun, opened.base);
            let a = Activation { number, fun, base };
            match enter(alloc, run, &opened.code, opened.size, a, depth, svc) {
                Progress::Done => chunk_ended(alloc, run, base),
                other => back(run, other, Continuation::Chunk(a)),
            }
        }
        Err(came) => came,
    }
}
