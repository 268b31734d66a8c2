//! Expressions without parts.
ghost use Rattle.std.specs.Prelude.{◌≡◌, ◌≢◌, ◌≤◌, [], IfOk, IfErr, IfSome};
ghost use Rattle.plan_base.specs.declared.tree.Expr.{Expr as AnExpr, Expr-F, out-Expr};
ghost use Rattle.plan_base.specs.declared.tree.Value as value;
ghost use Rattle.service_api.specs.Services.{ServiceState};
ghost use Rattle.plan_meaning.specs.declared.stop.EvalStop.TheVariants as stop;
ghost use Rattle.plan_meaning.specs.State.{VisitState};
ghost use Rattle.plan_meaning.specs.Meaning.{meaning, opened_at};
ghost use Rattle.visit_state.specs.Meets.{Meets};
ghost use Rattle.plan_eval_state.specs.declared.progress.Progress.TheVariants as code;
ghost use Rattle.plan_eval_state.specs.Spots.{Spot, layer, begins};
ghost use Rattle.plan_eval_state.specs.Flow.{now, Flows};
ghost use Rattle.plan_eval_made.specs.Where.{Ready, spot};
ghost use Rattle.plan_eval_made.specs.Makes.{IsConstant, IsNumber};

use crate::ends::{copied, number};
use crate::here::Here;
use crate::names::place;
use containers::{Boxed, Items};
use plan_base::{Exn, Expr, Name, NoMemory, Ty, Value};
use plan_base_copy::TryClone;
use plan_eval_state::{Progress, Run, answer};
use plan_meaning::EvalStop;
use std::alloc::Global;

/// The value of a name.
pub fn variable(alloc: Global, run: &mut Run, here: &Here<'_>, name: &Name) -> Progress
    requires bare { run.old.paused ≡ [] }
    requires ready { Ready here.now run.old.stack run.old.codes }
    ensures flows { (e : AnExpr) (m : ServiceState) → out-Expr e ≡ Expr-F.Var name.now
        → Flows (spot here.now e run.old.stack) run.old.stack
        (begins (spot here.now e run.old.stack) (now run.old m)) result run.new m }
    ensures settled { result ≢ code.Wait }
    ensures falls { run.new.state.work ≤ run.old.state.work }
    ensures codes { run.new.codes ≡ run.old.codes }
{
    match place(here, name, run.stack.len()) {
        Some(i) => match run.stack.at(i).as_number() {
            Some(n) => number(run, n),
            None => copied(alloc, run, i),
        },
        None => Progress::Wrong,
    }
}

/// The number that a name stands for.
fn named_number(run: &Run, here: &Here<'_>, name: &Name) -> Option<i64>
    requires ready { Ready here.now run.now.stack run.now.codes }
    ensures { IfSome result (λ n. (e : AnExpr) → out-Expr e ≡ Expr-F.Var name.now
        → IsNumber (spot here.now e run.now.stack) n) }
{
    match place(here, name, run.stack.len()) {
        Some(i) => run.stack.at(i).as_number(),
        None => None,
    }
}

/// The number that an expression without parts gives, where it gives one.
#[tactic(auto, using(plan_base::specs::Trees::trees))]
pub fn leaf_number(run: &Run, here: &Here<'_>, e: &Expr) -> Option<i64>
    requires ready { Ready here.now run.now.stack run.now.codes }
    ensures { IfSome result (λ n. IsNumber (spot here.now e.now run.now.stack) n) }
{
    match e {
        Expr::Int(n) => Some(*n),
        Expr::Var(x) => named_number(run, here, x),
        _ => None,
    }
}

/// The empty list of this type of items.
fn empty_list(alloc: Global, item: &Ty) -> Result<Value, NoMemory>
    ensures { IfOk result (λ v. v ≡ value.List item.now []) }
{
    let item = Boxed::new(alloc, item.copy(alloc)?)?;
    Ok(Value::List(item, Items::new(alloc)))
}

/// The exception of that name.
fn raised(alloc: Global, name: &Name) -> EvalStop
    ensures { result ≢ stop.NoMemory → result ≡ stop.Raised (record { 0 = name.now }) }
{
    match name.copy(alloc) {
        Ok(name) => EvalStop::Raised(Exn(name)),
        Err(_) => EvalStop::NoMemory,
    }
}

/// What a literal gives, or a `raise`, before it is weighed.
#[tactic(auto, using(plan_base::specs::Trees::trees))]
fn constant_value(alloc: Global, e: &Expr) -> Result<Value, EvalStop>
    ensures { (s : Spot) (st : VisitState) → s.expr ≡ e.now → IsConstant (layer s)
        → Meets (opened_at meaning s.code s.fun s.env (layer s) st) result st }
{
    match e {
        Expr::Unit => Ok(Value::Unit),
        Expr::Bool(b) => Ok(Value::Bool(*b)),
        Expr::Int(n) => Ok(Value::Int(*n)),
        Expr::Char(c) => Ok(Value::Char(*c)),
        Expr::Str(s) => Ok(Value::Str(s.copy(alloc)?)),
        Expr::Blob(b) => Ok(Value::Blob(b.copy(alloc)?)),
        Expr::Host(h) => Ok(Value::Host(*h)),
        Expr::Dev(d) => Ok(Value::Dev(*d)),
        Expr::Nil(Some(t)) => Ok(empty_list(alloc, t)?),
        Expr::Raise(x, _) => Err(raised(alloc, x)),
        _ => Err(EvalStop::Wrong),
    }
}

/// A literal, or a `raise`.
pub fn constant(alloc: Global, run: &mut Run, e: &Expr) -> Progress
    requires bare { run.old.paused ≡ [] }
    ensures flows { (s : Spot) (m : ServiceState) → s.expr ≡ e.now → IsConstant (layer s)
        → Flows s run.old.stack (begins s (now run.old m)) result run.new m }
    ensures settled { result ≢ code.Wait }
    ensures falls { run.new.state.work ≤ run.old.state.work }
    ensures codes { run.new.codes ≡ run.old.codes }
{
    let given = constant_value(alloc, e);
    answer(alloc, run, given)
}
