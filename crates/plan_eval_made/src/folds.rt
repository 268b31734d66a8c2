//! The items of a fold's list.
ghost use Rattle.std.specs.Prelude.{◌≡◌, ◌≤◌, ◌∷◌, ◌++◌, pos, List, length, reverse, slice_get, MatchOption, OnOk};
ghost use Rattle.std.specs.Option.{option_copied};
ghost use Rattle.plan_base.specs.declared.tree.Expr.{out-Expr};
ghost use Rattle.plan_base.specs.declared.tree.Value.{Value as AValue};
ghost use Rattle.plan_base.specs.declared.tree.Value as value;
ghost use Rattle.plan_eval_made.specs.Makes.{Stays};
ghost use Rattle.plan_eval_state.specs.Forms.{step_args};
ghost use Rattle.plan_eval_made.specs.Takes.{IsNegative, Offers, TakesNext, is_right, turned};

use plan_base::{Expr, NoMemory, Value};
use plan_base_copy::TryClone;
use plan_eval_state::{Progress, Run, Slot};
use std::alloc::{AllocError, Global};
use visit_state::as_items;

/// What came of taking the next item of a fold.
#[derive(Clone, Copy)]
pub enum Taking {
    /// The arguments of a step stand on the stack.
    Item,
    /// No item is left.
    Ended,
    /// The fold came so far.
    Stopped(Progress),
}

/// Whether a fold goes from the last item on.
#[tactic(auto, using(plan_base::specs::Trees::trees))]
fn is_right(e: &Expr) -> bool
    ensures { result ≡ is_right (out-Expr e.now) }
{
    match e {
        Expr::Foldr(_, _, _) => true,
        _ => false,
    }
}

/// Puts three values onto the stack.
fn push_three(run: &mut Run, x: Slot, y: Slot, z: Slot) -> Result<(), AllocError>
    ensures pushed { OnOk result (run.new.stack ≡ z ∷ y ∷ x ∷ run.old.stack) }
    ensures stays { Stays run.old run.new }
{
    match run.stack.push(x) {
        Ok(()) => push_two(run, y, z),
        Err(full) => {
            drop(y);
            drop(z);
            Err(full)
        }
    }
}

/// Puts two values onto the stack.
fn push_two(run: &mut Run, x: Slot, y: Slot) -> Result<(), AllocError>
    ensures pushed { OnOk result (run.new.stack ≡ y ∷ x ∷ run.old.stack) }
    ensures stays { Stays run.old run.new }
{
    match run.stack.push(x) {
        Ok(()) => run.stack.push(y),
        Err(full) => {
            drop(y);
            Err(full)
        }
    }
}

/// Behind the list on the stack come the number of items that were taken, which is none yet, and the value so far, which
/// stood below the list.
pub fn begin_fold(run: &mut Run) -> Result<(), NoMemory>
    ensures begun { (acc list : AValue) (pre : List AValue) → run.old.stack ≡ list ∷ acc ∷ pre
        → OnOk result (run.new.stack ≡ acc ∷ value.Int (pos 0) ∷ list ∷ pre) }
    ensures stays { Stays run.old run.new }
{
    let Some(list) = run.stack.pop() else {
        return Err(NoMemory);
    };
    let Some(acc) = run.stack.pop() else {
        drop(list);
        return Err(NoMemory);
    };
    push_three(run, list, Slot::number(0), acc)?;
    Ok(())
}

/// The item at a place, in the order in which a fold takes them.
fn item_at(items: &[Value], is_right: bool, n: usize) -> Option<&Value>
    ensures { option_copied result ≡ slice_get (turned is_right items.now) n }
{
    if n >= items.len() {
        return None;
    }
    if is_right {
        items.get(items.len() - 1 - n)
    } else {
        items.get(n)
    }
}

/// The number of items that were taken, as a place.
fn place_taken(taken: i64) -> Option<usize>
    ensures { MatchOption result (IsNegative taken) (λ n. taken ≡ pos n) }
{
    if taken < 0 {
        return None;
    }
    Some(taken.unsigned_abs() as usize)
}

/// The item that a fold takes behind so many, and the number of items that are then taken.
fn take_item(
    alloc: Global,
    list: &Value,
    taken: i64,
    e: &Expr,
) -> Result<Option<(Slot, i64)>, Progress>
    ensures { Offers (out-Expr e.now) taken list.now result }
{
    let Some(items) = as_items(list) else {
        return Err(Progress::Wrong);
    };
    let Some(n) = place_taken(taken) else {
        return Err(Progress::Wrong);
    };
    let Some(item) = item_at(items, is_right(e), n) else {
        return Ok(None);
    };
    let Some(next) = taken.checked_add(1) else {
        return Err(Progress::NoMemory);
    };
    match item.copy(alloc) {
        Ok(v) => Ok(Some((Slot::of(v), next))),
        Err(_) => Err(Progress::NoMemory),
    }
}

/// The arguments of a step come in the place of the value so far, behind the number of items that are taken with its own.
fn put_step(run: &mut Run, item: Slot, next: i64, e: &Expr) -> Result<(), AllocError>
    ensures put { (acc n list : AValue) (pre : List AValue) → run.old.stack ≡ acc ∷ n ∷ list ∷ pre
        → OnOk result (run.new.stack ≡ reverse (step_args (out-Expr e.now) acc item) ++
        value.Int next ∷ list ∷ pre) }
    ensures stays { Stays run.old run.new }
{
    let Some(acc) = run.stack.pop() else {
        return push_two(run, Slot::number(next), item);
    };
    drop(run.stack.pop());
    if is_right(e) {
        push_three(run, Slot::number(next), item, acc)
    } else {
        push_three(run, Slot::number(next), acc, item)
    }
}

/// Takes the next item of a fold, whose value so far, the number of items that were taken, and list are the last values.
/// Condition: there are so many.
pub fn next_item(alloc: Global, run: &mut Run, e: &Expr) -> Taking
    requires high { 3 ≤ length run.old.stack }
    ensures { TakesNext (out-Expr e.now) run.old result run.new }
{
    let height = run.stack.len();
    let Some(taken) = run.stack.at(height - 2).as_number() else {
        return Taking::Stopped(Progress::Wrong);
    };
    match take_item(alloc, run.stack.at(height - 3).get(), taken, e) {
        Ok(Some((item, next))) => match put_step(run, item, next, e) {
            Ok(()) => Taking::Item,
            Err(_) => Taking::Stopped(Progress::NoMemory),
        },
        Ok(None) => Taking::Ended,
        Err(came) => Taking::Stopped(came),
    }
}
