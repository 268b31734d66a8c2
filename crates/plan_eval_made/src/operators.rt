//! Operators, once their operands gave values.
ghost use Rattle.std.specs.Prelude.{◌≡◌, ◌≢◌, ◌≤◌, ◌∷◌, [], List, ℤ, IsTrue, IsFalse};
ghost use Rattle.plan_base.specs.declared.tree.Op.TheVariants as op;
ghost use Rattle.plan_base.specs.declared.tree.Expr.{Expr as AnExpr, Expr-F};
ghost use Rattle.plan_base.specs.declared.tree.Value.{Value as AValue};
ghost use Rattle.plan_base.specs.declared.tree.Value as value;
ghost use Rattle.plan_types_spec.specs.Rules as rules;
ghost use Rattle.service_api.specs.Services.{ServiceState};
ghost use Rattle.plan_meaning.specs.declared.stop.EvalStop.TheVariants.{WorkSpent};
ghost use Rattle.plan_meaning.specs.State.{joined_state};
ghost use Rattle.plan_meaning.specs.Run.{gave, stopped as stops, and_then, given_value, weighed_value};
ghost use Rattle.plan_meaning.specs.Meaning as spec;
ghost use Rattle.plan_meaning.specs.Safe.{IsSafe};
ghost use Rattle.plan_eval_state.specs.declared.progress.Progress.TheVariants as code;
ghost use Rattle.plan_eval_state.specs.Spots.{Spot, layer, means, begins};
ghost use Rattle.plan_eval_state.specs.Flow.{now, Flows};
ghost use Rattle.plan_eval_state.specs.Laws.{at_part};
ghost use Rattle.plan_eval_made.specs.Comes.{pending};
ghost use Rattle.plan_eval_made.specs.Makes.{IsNumber, Makes, Stays};

use crate::ends::{number, truth};
use crate::integers::{number_of, order_of};
use plan_base::{Op, Value};
use plan_eval_state::{Progress, Run, Slot, answer, give, stopped};
use std::alloc::Global;
use visit_state::{EvalState, as_bool, binary, cons, part, too_large};

/// What an operator gives of two numbers.
fn compute(alloc: Global, run: &mut Run, op: Op, x: i64, y: i64) -> Progress
    requires bare { run.old.paused ≡ [] }
    ensures flows { (s : Spot) (m : ServiceState) → Flows s run.old.stack (and_then (given_value
        (rules.binary op (value.Int x) (value.Int y)) (now run.old m)) weighed_value)
        result run.new m }
    ensures settled { result ≢ code.Wait }
    ensures falls { run.new.state.work ≤ run.old.state.work }
    ensures codes { run.new.codes ≡ run.old.codes }
{
    if let Some(n) = number_of(op, x, y) {
        return number(run, n);
    }
    if let Some(b) = order_of(op, x, y) {
        return truth(run, b);
    }
    let given = binary(alloc, op, &Value::Int(x), &Value::Int(y));
    answer(alloc, run, given)
}

/// An item before a list, which weighs as much as both.
fn put_first(alloc: Global, run: &mut Run, x: Slot, xs: Slot) -> Progress
    requires bare { run.old.paused ≡ [] }
    ensures flows { (s : Spot) (m : ServiceState) → Flows s run.old.stack (and_then (given_value
        (rules.binary op.Cons x xs) (now run.old m)) weighed_value) result run.new m }
    ensures settled { result ≢ code.Wait }
    ensures falls { run.new.state.work ≤ run.old.state.work }
    ensures codes { run.new.codes ≡ run.old.codes }
{
    let weight = x.weight().saturating_add(xs.weight());
    let nesting = x.nesting().max(xs.nesting());
    match cons(x.into_value(), xs.into_value()) {
        Ok(list) => {
            if weight > 16384 {
                drop(list);
                return stopped(run, too_large(alloc));
            }
            give(alloc, run, Slot::weighed(list, weight, nesting))
        }
        Err(why) => stopped(run, why),
    }
}

/// What an operator gives of two values.
fn operate_slots(alloc: Global, run: &mut Run, op: Op, x: Slot, y: Slot) -> Progress
    requires bare { run.old.paused ≡ [] }
    ensures flows { (s : Spot) (m : ServiceState) → Flows s run.old.stack (and_then (given_value
        (rules.binary op x y) (now run.old m)) weighed_value) result run.new m }
    ensures settled { result ≢ code.Wait }
    ensures falls { run.new.state.work ≤ run.old.state.work }
    ensures codes { run.new.codes ≡ run.old.codes }
{
    if let Some(m) = x.as_number() {
        if let Some(n) = y.as_number() {
            drop(x);
            drop(y);
            return compute(alloc, run, op, m, n);
        }
    }
    match op {
        Op::Cons => put_first(alloc, run, x, y),
        _ => {
            let given = binary(alloc, op, x.get(), y.get());
            drop(x);
            drop(y);
            answer(alloc, run, given)
        }
    }
}

/// What an operator gives of the last two values.
pub fn operate(alloc: Global, run: &mut Run, op: Op) -> Progress
    requires bare { run.old.paused ≡ [] }
    ensures made { (s : Spot) (a b : AnExpr) → layer s ≡ Expr-F.Binary op a b
        → Makes s run.old result run.new }
    ensures settled { result ≢ code.Wait }
    ensures falls { run.new.state.work ≤ run.old.state.work }
    ensures codes { run.new.codes ≡ run.old.codes }
{
    let Some(y) = run.stack.pop() else {
        return Progress::Wrong;
    };
    match run.stack.pop() {
        Some(x) => operate_slots(alloc, run, op, x, y),
        None => {
            drop(y);
            Progress::Wrong
        }
    }
}

/// Spends what an expression spends that gives a number at once, or says no.
fn number_paid(state: &mut EvalState) -> bool
    ensures paid { IsTrue result → (s : Spot) (i : ℤ) (m : ServiceState) → IsNumber s i
        → IsSafe (means s (joined_state state.old m)).asks
        → (means s (joined_state state.old m)).after ≡ gave (value.Int i)
        (joined_state state.new m) }
    ensures unpaid { IsFalse result → (s : Spot) (i : ℤ) (m : ServiceState) → IsNumber s i
        → IsSafe (means s (joined_state state.old m)).asks
        → (means s (joined_state state.old m)).after ≡ stops WorkSpent
        (joined_state state.new m) }
    ensures falls { state.new.work ≤ state.old.work }
{
    if !state.pays(1) {
        return false;
    }
    if !state.pays(9) {
        return false;
    }
    true
}

/// What an operator gives of two numbers that are at hand, each with its own work.
pub fn numbers(alloc: Global, run: &mut Run, op: Op, x: i64, y: i64) -> Progress
    requires bare { run.old.paused ≡ [] }
    ensures flows { (s : Spot) (a b : AnExpr) (m : ServiceState) → layer s ≡ Expr-F.Binary op a b
        → IsSafe (begins s (now run.old m)).asks → IsNumber (at_part s a) x
        → IsNumber (at_part s b) y
        → Flows s run.old.stack (begins s (now run.old m)) result run.new m }
    ensures settled { result ≢ code.Wait }
    ensures falls { run.new.state.work ≤ run.old.state.work }
    ensures codes { run.new.codes ≡ run.old.codes }
{
    if !number_paid(&mut run.state) {
        return Progress::Spent;
    }
    if !number_paid(&mut run.state) {
        return Progress::Spent;
    }
    compute(alloc, run, op, x, y)
}

/// What an operator gives of the last value and a number that is at hand.
pub fn operate_on(alloc: Global, run: &mut Run, op: Op, y: i64) -> Progress
    requires bare { run.old.paused ≡ [] }
    ensures flows { (s : Spot) (a b : AnExpr) (v : AValue) (pre : List AValue) (m : ServiceState)
        → layer s ≡ Expr-F.Binary op a b → run.old.stack ≡ v ∷ pre → IsNumber (at_part s b) y
        → IsSafe (pending s (v ∷ []) (now run.old m)).asks
        → Flows s pre (pending s (v ∷ []) (now run.old m)) result run.new m }
    ensures settled { result ≢ code.Wait }
    ensures falls { run.new.state.work ≤ run.old.state.work }
    ensures codes { run.new.codes ≡ run.old.codes }
{
    if !number_paid(&mut run.state) {
        return Progress::Spent;
    }
    match run.stack.pop() {
        Some(x) => operate_slots(alloc, run, op, x, Slot::number(y)),
        None => Progress::Wrong,
    }
}

/// Takes the last value off, which is a truth value or none.
pub fn pop_test(run: &mut Run) -> Option<bool>
    ensures test { (v : AValue) (pre : List AValue) → run.old.stack ≡ v ∷ pre
        → (result ≡ spec.as_bool v) × (run.new.stack ≡ pre) }
    ensures stays { Stays run.old run.new }
{
    match run.stack.pop() {
        Some(slot) => {
            let test = as_bool(slot.get());
            drop(slot);
            test
        }
        None => None,
    }
}

/// The other truth value.
pub fn negate(run: &mut Run) -> Progress
    requires bare { run.old.paused ≡ [] }
    ensures made { (s : Spot) (a : AnExpr) → layer s ≡ Expr-F.Not a
        → Makes s run.old result run.new }
    ensures settled { result ≢ code.Wait }
    ensures falls { run.new.state.work ≤ run.old.state.work }
    ensures codes { run.new.codes ≡ run.old.codes }
{
    match pop_test(run) {
        Some(b) => truth(run, !b),
        None => Progress::Wrong,
    }
}

/// The part of that number of the last value.
pub fn select(alloc: Global, run: &mut Run, i: u8) -> Progress
    requires bare { run.old.paused ≡ [] }
    ensures made { (s : Spot) (a : AnExpr) → layer s ≡ Expr-F.Part i a
        → Makes s run.old result run.new }
    ensures settled { result ≢ code.Wait }
    ensures falls { run.new.state.work ≤ run.old.state.work }
    ensures codes { run.new.codes ≡ run.old.codes }
{
    match run.stack.pop() {
        Some(slot) => {
            let given = part(alloc, i, slot.get());
            drop(slot);
            answer(alloc, run, given)
        }
        None => Progress::Wrong,
    }
}
