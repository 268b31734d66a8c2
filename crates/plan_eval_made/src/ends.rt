//! How expressions end: with a number, a truth value or a copy, and as the bodies of functions and chunks.
ghost use Rattle.std.specs.Prelude.{◌≡◌, ◌≢◌, ◌≤◌, ◌<◌, ◌∷◌, ◌++◌, [], List, length, Some};
ghost use Rattle.plan_base.specs.declared.tree.Value.{Value as AValue};
ghost use Rattle.plan_base.specs.declared.tree.Value as value;
ghost use Rattle.service_api.specs.Services.{ServiceState};
ghost use Rattle.plan_meaning.specs.Run.{weighed_value};
ghost use Rattle.plan_eval_state.specs.declared.progress.Progress.TheVariants as code;
ghost use Rattle.plan_eval_state.specs.Places.{at_place};
ghost use Rattle.plan_eval_state.specs.Spots.{Spot};
ghost use Rattle.plan_eval_state.specs.Flow.{now, Flows};

use plan_base::Value;
use plan_eval_state::{Progress, Run, Slot, ended, give, put};
use std::alloc::Global;

/// Ends with a number, whose weight is spent.
pub fn number(run: &mut Run, n: i64) -> Progress
    requires bare { run.old.paused ≡ [] }
    ensures flows { (s : Spot) (m : ServiceState) → Flows s run.old.stack
        (weighed_value (value.Int n) (now run.old m)) result run.new m }
    ensures settled { result ≢ code.Wait }
    ensures falls { run.new.state.work ≤ run.old.state.work }
    ensures codes { run.new.codes ≡ run.old.codes }
{
    if !run.state.pays(9) {
        return Progress::Spent;
    }
    put(run, Slot::number(n))
}

/// Ends with a truth value, whose weight is spent.
pub fn truth(run: &mut Run, b: bool) -> Progress
    requires bare { run.old.paused ≡ [] }
    ensures flows { (s : Spot) (m : ServiceState) → Flows s run.old.stack
        (weighed_value (value.Bool b) (now run.old m)) result run.new m }
    ensures settled { result ≢ code.Wait }
    ensures falls { run.new.state.work ≤ run.old.state.work }
    ensures codes { run.new.codes ≡ run.old.codes }
{
    if !run.state.pays(2) {
        return Progress::Spent;
    }
    put(run, Slot::truth(b))
}

/// Ends with a copy of the value at a place. Condition: there is one.
pub fn copied(alloc: Global, run: &mut Run, i: usize) -> Progress
    requires bare { run.old.paused ≡ [] }
    requires there { i < length run.old.stack }
    ensures flows { (s : Spot) (v : AValue) (m : ServiceState) → at_place run.old.stack i ≡ Some v
        → Flows s run.old.stack (weighed_value v (now run.old m)) result run.new m }
    ensures settled { result ≢ code.Wait }
    ensures falls { run.new.state.work ≤ run.old.state.work }
    ensures codes { run.new.codes ≡ run.old.codes }
{
    match run.stack.at(i).copy(alloc) {
        Ok(slot) => give(alloc, run, slot),
        Err(_) => Progress::NoMemory,
    }
}

/// A body ended with the last value, which comes to the place of what the body saw, and is weighed there.
pub fn body_ended(alloc: Global, run: &mut Run, base: usize) -> Progress
    requires bare { run.old.paused ≡ [] }
    requires there { base < length run.old.stack }
    ensures flows { (s : Spot) (v : AValue) (held pre : List AValue) (m : ServiceState)
        → run.old.stack ≡ v ∷ (held ++ pre) → base ≡ length pre
        → Flows s pre (weighed_value v (now run.old m)) result run.new m }
    ensures settled { result ≢ code.Wait }
    ensures falls { run.new.state.work ≤ run.old.state.work }
    ensures codes { run.new.codes ≡ run.old.codes }
{
    run.stack.slide(base);
    ended(alloc, run)
}

/// The entry of a chunk ended: its value is dropped with what it saw, and unit is given.
pub fn chunk_ended(alloc: Global, run: &mut Run, base: usize) -> Progress
    requires bare { run.old.paused ≡ [] }
    ensures flows { (s : Spot) (held pre : List AValue) (m : ServiceState)
        → run.old.stack ≡ held ++ pre → base ≡ length pre
        → Flows s pre (weighed_value value.Unit (now run.old m)) result run.new m }
    ensures settled { result ≢ code.Wait }
    ensures falls { run.new.state.work ≤ run.old.state.work }
    ensures codes { run.new.codes ≡ run.old.codes }
{
    run.stack.truncate(base);
    give(alloc, run, Slot::of(Value::Unit))
}
