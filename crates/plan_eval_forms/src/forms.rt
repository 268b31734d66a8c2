//! The recursion over the forms of an expression.
ghost use Rattle.std.specs.Prelude.{◌≡◌, ◌≤◌, ℕ, [], length, drop, slice_get, IsSome, Some};
ghost use Rattle.plan_base.specs.declared.tree.Expr.{Expr-F, out-Expr};
ghost use Rattle.plan_meaning.specs.Safe.{IsSafe};
ghost use Rattle.plan_eval_state.specs.Forms.{IsOperation, branches, operands};
ghost use Rattle.plan_eval_made.specs.Where.{Ready};
ghost use Rattle.plan_eval_made.specs.Comes.{Evaluates, GoesOnBehind, meant_here, pending_here};
ghost use Rattle.plan_eval_forms.specs.Parts as parts;

use crate::bodies::{bound, called, opened};
use crate::choice::{Decision, arity, choice};
use crate::folds::folded;
use crate::tries::attempt;
use plan_base::{Expr, Op};
use plan_eval_made::{
    Here, constant, leaf_number, make_chunk, make_tuple, negate, number, numbers, operate,
    operate_on, pop_test, select, send_near, send_remote, truth, variable,
};
use plan_eval_state::{Continuation, Progress, Run, back, ended, operand};
use service_api::Services;
use std::alloc::Global;

/// Evaluates an expression, down to a depth. Conditions: nothing waits, a `begin` is open, and every name that the expression may
/// see has its value on the stack.
#[cycle(evaluate)]
pub fn evaluate<S: Services>(
    alloc: Global,
    run: &mut Run,
    here: &Here<'_>,
    e: &Expr,
    depth: u64,
    svc: &mut S,
) -> Progress
    requires open { IsSome (S.stands svc.old).begun }
    requires bare { run.old.paused ≡ [] }
    requires ready { Ready here.now run.old.stack run.old.codes }
    requires safe { IsSafe (meant_here here.now e.now run.old (S.stands svc.old)).asks }
    ensures { Evaluates here.now e.now depth run.old (S.stands svc.old) result run.new
        (S.stands svc.new) }
{
    if depth == 0 {
        return Progress::Wait;
    }
    if !run.state.pays(1) {
        return Progress::Spent;
    }
    begin(alloc, run, here, e, depth - 1, svc)
}

/// Begins an expression, once it spent 1.
#[cycle(evaluate)]
#[tactic(auto, using(plan_base::specs::Trees::trees))]
fn begin<S: Services>(
    alloc: Global,
    run: &mut Run,
    here: &Here<'_>,
    e: &Expr,
    depth: u64,
    svc: &mut S,
) -> Progress
    requires open { IsSome (S.stands svc.old).begun }
    requires bare { run.old.paused ≡ [] }
    requires ready { Ready here.now run.old.stack run.old.codes }
    requires safe { IsSafe (parts.begun_here here.now e.now run.old (S.stands svc.old)).asks }
    ensures { parts.Begins here.now e.now depth run.old (S.stands svc.old) result run.new
        (S.stands svc.new) }
{
    match e {
        Expr::Int(n) => number(run, *n),
        Expr::Var(x) => variable(alloc, run, here, x),
        Expr::Binary(op, a, b) => {
            let (a, b) = (a.get(), b.get());
            binary(alloc, run, here, e, *op, a, b, depth, svc)
        }
        Expr::Try(a, _) => attempt(alloc, run, here, e, a.get(), depth, svc),
        Expr::Unit | Expr::Bool(_) | Expr::Char(_) | Expr::Str(_) | Expr::Blob(_) => {
            constant(alloc, run, e)
        }
        Expr::Host(_) | Expr::Dev(_) | Expr::Nil(_) | Expr::Raise(_, _) => constant(alloc, run, e),
        _ => operation(alloc, run, here, e, 0, depth, svc),
    }
}

/// Evaluates an operator with its operands, of which those that give numbers at once aren't evaluated one by one.
#[cycle(evaluate)]
fn binary<S: Services>(
    alloc: Global,
    run: &mut Run,
    here: &Here<'_>,
    e: &Expr,
    op: Op,
    a: &Expr,
    b: &Expr,
    depth: u64,
    svc: &mut S,
) -> Progress
    requires open { IsSome (S.stands svc.old).begun }
    requires bare { run.old.paused ≡ [] }
    requires form { out-Expr e.now ≡ Expr-F.Binary op a.now b.now }
    requires ready { Ready here.now run.old.stack run.old.codes }
    requires safe { IsSafe (parts.begun_here here.now e.now run.old (S.stands svc.old)).asks }
    ensures { parts.Begins here.now e.now depth run.old (S.stands svc.old) result run.new
        (S.stands svc.new) }
{
    let Some(y) = leaf_number(run, here, b) else {
        return operation(alloc, run, here, e, 0, depth, svc);
    };
    if let Some(x) = leaf_number(run, here, a) {
        return numbers(alloc, run, op, x, y);
    }
    match evaluate(alloc, run, here, a, depth, svc) {
        Progress::Done => operate_on(alloc, run, op, y),
        other => back(run, other, Continuation::Part(0)),
    }
}

/// Goes on with an expression behind so many operands, whose values are the last on the stack.
pub fn form<S: Services>(
    alloc: Global,
    run: &mut Run,
    here: &Here<'_>,
    e: &Expr,
    from: usize,
    depth: u64,
    svc: &mut S,
) -> Progress
    requires open { IsSome (S.stands svc.old).begun }
    requires bare { run.old.paused ≡ [] }
    requires ready { Ready here.now (drop from run.old.stack) run.old.codes }
    requires high { from ≤ length run.old.stack }
    requires within { from ≤ length (operands (out-Expr e.now)) }
    requires safe { IsSafe (pending_here here.now e.now from run.old (S.stands svc.old)).asks }
    ensures { GoesOnBehind here.now e.now from depth run.old (S.stands svc.old) result run.new
        (S.stands svc.new) }
{
    if from == 0 {
        return begin(alloc, run, here, e, depth, svc);
    }
    operation(alloc, run, here, e, from, depth, svc)
}

/// Evaluates the operands from that one on, and makes something of the values of all.
#[cycle(evaluate)]
fn operation<S: Services>(
    alloc: Global,
    run: &mut Run,
    here: &Here<'_>,
    e: &Expr,
    from: usize,
    depth: u64,
    svc: &mut S,
) -> Progress
    requires open { IsSome (S.stands svc.old).begun }
    requires bare { run.old.paused ≡ [] }
    requires form { from ≡ 0 → IsOperation (out-Expr e.now) }
    requires ready { Ready here.now (drop from run.old.stack) run.old.codes }
    requires high { from ≤ length run.old.stack }
    requires within { from ≤ length (operands (out-Expr e.now)) }
    requires safe { IsSafe (pending_here here.now e.now from run.old (S.stands svc.old)).asks }
    ensures { GoesOnBehind here.now e.now from depth run.old (S.stands svc.old) result run.new
        (S.stands svc.new) }
{
    match gather(alloc, run, here, e, from, depth, svc) {
        None => made(alloc, run, here, e, depth, svc),
        Some(came) => came,
    }
}

/// Evaluates the operands from that one on, unless one of them gives no value: then that is how far the whole came.
#[cycle(evaluate)]
fn gather<S: Services>(
    alloc: Global,
    run: &mut Run,
    here: &Here<'_>,
    e: &Expr,
    from: usize,
    depth: u64,
    svc: &mut S,
) -> Option<Progress>
    requires open { IsSome (S.stands svc.old).begun }
    requires bare { run.old.paused ≡ [] }
    requires form { from ≡ 0 → IsOperation (out-Expr e.now) }
    requires ready { Ready here.now (drop from run.old.stack) run.old.codes }
    requires high { from ≤ length run.old.stack }
    requires within { from ≤ length (operands (out-Expr e.now)) }
    requires safe { IsSafe (pending_here here.now e.now from run.old (S.stands svc.old)).asks }
    ensures { parts.Gathers here.now e.now from depth run.old (S.stands svc.old) result run.new
        (S.stands svc.new) }
{
    let many = arity(e);
    let mut n = from;
    while n < many {
        let Some(part) = operand(e, n) else {
            unreachable!();
        };
        match evaluate(alloc, run, here, part, depth, svc) {
            Progress::Done => n += 1,
            other => return Some(back(run, other, Continuation::Part(n))),
        }
    }
    None
}

/// Makes something of the values of the operands, which are the last on the stack.
#[cycle(evaluate)]
#[tactic(auto, using(plan_base::specs::Trees::trees))]
fn made<S: Services>(
    alloc: Global,
    run: &mut Run,
    here: &Here<'_>,
    e: &Expr,
    depth: u64,
    svc: &mut S,
) -> Progress
    requires open { IsSome (S.stands svc.old).begun }
    requires bare { run.old.paused ≡ [] }
    requires ready { Ready here.now (drop (parts.arity e.now) run.old.stack) run.old.codes }
    requires high { parts.arity e.now ≤ length run.old.stack }
    requires safe { IsSafe (parts.made_here here.now e.now (parts.arity e.now) run.old
        (S.stands svc.old)).asks }
    ensures { parts.MakesOn here.now e.now (parts.arity e.now) depth run.old (S.stands svc.old)
        result run.new (S.stands svc.new) }
{
    match e {
        Expr::Binary(op, _, _) => operate(alloc, run, *op),
        Expr::If(_, _, _) => branched(alloc, run, here, e, depth, svc),
        Expr::Call(f, es) => called(alloc, run, here, e, f, es.len(), depth, svc),
        Expr::Let(x, _, _, b) => bound(alloc, run, here, e, x, b.get(), depth, svc),
        Expr::Then(_, _) => branched(alloc, run, here, e, depth, svc),
        Expr::And(_, _) => branched(alloc, run, here, e, depth, svc),
        Expr::Or(_, _) => branched(alloc, run, here, e, depth, svc),
        Expr::Tuple(es) => make_tuple(alloc, run, es.len()),
        Expr::Part(i, _) => select(alloc, run, *i),
        Expr::Not(_) => negate(run),
        Expr::ChunkOf(f, es) => make_chunk(alloc, run, here, f, es.len()),
        Expr::Foldl(_, _, _) => folded(alloc, run, here, e, depth, svc),
        Expr::Foldr(_, _, _) => folded(alloc, run, here, e, depth, svc),
        Expr::Eval(_) => opened(alloc, run, here, e, depth, svc),
        Expr::OnRemote(_, _, _, r) => send_remote(alloc, run, r),
        Expr::OnNeighbor(_, _, _, _) => send_near(alloc, run),
        _ => Progress::Wrong,
    }
}

/// Goes on with the branch that the last value chooses.
#[cycle(evaluate)]
fn branched<S: Services>(
    alloc: Global,
    run: &mut Run,
    here: &Here<'_>,
    e: &Expr,
    depth: u64,
    svc: &mut S,
) -> Progress
    requires open { IsSome (S.stands svc.old).begun }
    requires bare { run.old.paused ≡ [] }
    requires form { parts.IsChoice (out-Expr e.now) }
    requires ready { Ready here.now (drop 1 run.old.stack) run.old.codes }
    requires high { 1 ≤ length run.old.stack }
    requires safe { IsSafe (parts.made_here here.now e.now 1 run.old (S.stands svc.old)).asks }
    ensures { parts.MakesOn here.now e.now 1 depth run.old (S.stands svc.old) result run.new
        (S.stands svc.new) }
{
    let test = pop_test(run);
    match choice(e, test) {
        Decision::Branch(n, part) => last(alloc, run, here, e, n, part, depth, svc),
        Decision::Gives(b) => truth(run, b),
        Decision::Wrong => Progress::Wrong,
    }
}

/// Evaluates the branch of that number, whose value is that of the whole.
#[cycle(evaluate)]
pub(crate) fn last<S: Services>(
    alloc: Global,
    run: &mut Run,
    here: &Here<'_>,
    e: &Expr,
    n: usize,
    part: &Expr,
    depth: u64,
    svc: &mut S,
) -> Progress
    requires open { IsSome (S.stands svc.old).begun }
    requires bare { run.old.paused ≡ [] }
    requires part { slice_get (branches (out-Expr e.now)) n ≡ Some part.now }
    requires ready { Ready here.now run.old.stack run.old.codes }
    requires safe { IsSafe (parts.branch_here here.now e.now n part.now run.old
        (S.stands svc.old)).asks }
    ensures { parts.TakesBranch here.now e.now n part.now depth run.old (S.stands svc.old)
        result run.new (S.stands svc.new) }
{
    match evaluate(alloc, run, here, part, depth, svc) {
        Progress::Done => ended(alloc, run),
        other => back(run, other, Continuation::Last(n)),
    }
}
