//! A visit as it runs, and how expressions end in it.
ghost use Rattle.std.specs.Prelude.{◌≡◌, ◌≢◌, ◌≤◌, ◌<◌, ◌∷◌, ◌++◌, [], List, ℕ, length, min, IsTrue, Some};
ghost use Rattle.plan_base.specs.declared.tree.Value.{Value as AValue};
ghost use Rattle.plan_base.specs.Sizes as sizes;
ghost use Rattle.service_api.specs.Services.{ServiceState};
ghost use Rattle.plan_meaning.specs.declared.stop.EvalStop.TheVariants as stop;
ghost use Rattle.plan_meaning.specs.State.{joined_state};
ghost use Rattle.plan_meaning.specs.Run as meant;
ghost use Rattle.visit_state.specs.Meets.{Meets, Weighs};
ghost use Rattle.plan_eval_state.specs.declared.progress.Progress.TheVariants as code;
ghost use Rattle.plan_eval_state.specs.Spots.{Spot, HasEnv, HasHeight, resume, step};
ghost use Rattle.plan_eval_state.specs.Flow.{now, Flows, PassesBy, Spends, Lasts};
ghost use Rattle.plan_eval_state.specs.Loop.{onto};

use crate::continuation::Continuation;
use crate::open_program::OpenPrograms;
use crate::progress::Progress;
use crate::slot::Slot;
use crate::stack::Stack;
use plan_base::{Exn, Value};
use plan_meaning::EvalStop;
use std::alloc::Global;
use visit_state::{EvalState, Weighing, too_large};

/// A visit as it runs.
#[derive(Drop)]
pub struct Run {
    /// Bound, work, sends and notes.
    pub state: EvalState,
    /// The programs that are open.
    pub codes: OpenPrograms,
    /// The values of bindings, and those that wait for others.
    pub stack: Stack<Slot>,
    /// What began to wait since the last turn, the outermost last.
    pub paused: Stack<Continuation>,
    /// The exception that was raised last.
    pub raised: Option<Exn>,
}

/// Ends with a value whose weight was spent.
pub fn put(run: &mut Run, slot: Slot) -> Progress
    requires bare { run.old.paused ≡ [] }
    ensures flows { (s : Spot) (want : meant.RunStep AValue) (n : ServiceState)
        → want.after ≡ meant.gave slot (now run.old n)
        → Flows s run.old.stack want result run.new n }
    ensures settled { result ≢ code.Wait }
    ensures falls { run.new.state.work ≤ run.old.state.work }
    ensures codes { run.new.codes ≡ run.old.codes }
{
    match run.stack.push(slot) {
        Ok(_) => Progress::Done,
        Err(_) => Progress::NoMemory,
    }
}

/// Ends without a value, over what stands on the stack.
pub fn stopped(run: &mut Run, why: EvalStop) -> Progress
    requires bare { run.old.paused ≡ [] }
    ensures flows { (s : Spot) (junk pre : List AValue) (want : meant.RunStep AValue)
        (n : ServiceState)
        → run.old.stack ≡ junk ++ pre
        → (why ≢ stop.NoMemory → want.after ≡ meant.stopped why (now run.old n))
        → Flows s pre want result run.new n }
    ensures settled { result ≢ code.Wait }
    ensures falls { run.new.state.work ≤ run.old.state.work }
    ensures codes { run.new.codes ≡ run.old.codes }
{
    match why {
        EvalStop::Raised(x) => {
            run.raised = Some(x);
            Progress::Raised
        }
        EvalStop::WorkSpent => Progress::Spent,
        EvalStop::Wrong => Progress::Wrong,
        EvalStop::NoMemory => Progress::NoMemory,
    }
}

/// Spends the weight of a value, unless it passes the limits.
fn weighs(state: &mut EvalState, slot: &Slot) -> Weighing
    ensures weighs { (n : ServiceState) → Weighs (meant.weighed_value slot.now
        (joined_state state.old n)) slot.now result (joined_state state.new n) }
    ensures falls { state.new.work ≤ state.old.work }
{
    state.weighs_as(slot.weight(), slot.nesting())
}

/// Ends with a value, whose weight is spent.
pub fn give(alloc: Global, run: &mut Run, slot: Slot) -> Progress
    requires bare { run.old.paused ≡ [] }
    ensures flows { (s : Spot) (n : ServiceState) → Flows s run.old.stack
        (meant.weighed_value slot (now run.old n)) result run.new n }
    ensures settled { result ≢ code.Wait }
    ensures falls { run.new.state.work ≤ run.old.state.work }
    ensures codes { run.new.codes ≡ run.old.codes }
{
    match weighs(&mut run.state, &slot) {
        Weighing::Paid => put(run, slot),
        Weighing::Spent => {
            drop(slot);
            Progress::Spent
        }
        Weighing::TooLarge => {
            drop(slot);
            stopped(run, too_large(alloc))
        }
    }
}

/// What the last value weighs, and its nesting.
fn top_weight(stack: &Stack<Slot>) -> (u64, u32)
    requires { 0 < length stack.now }
    ensures { (v : AValue) (pre : List AValue) → stack.now ≡ v ∷ pre
        → (result.0 ≡ min (sizes.weight v) 18446744073709551615) ×
        (result.1 ≡ min (sizes.nesting v) 4294967295) }
{
    let slot = stack.at(stack.len() - 1);
    (slot.weight(), slot.nesting())
}

/// Ends with the last value, whose weight is spent.
pub fn ended(alloc: Global, run: &mut Run) -> Progress
    requires bare { run.old.paused ≡ [] }
    requires there { 0 < length run.old.stack }
    ensures flows { (s : Spot) (v : AValue) (pre : List AValue) (n : ServiceState)
        → run.old.stack ≡ v ∷ pre
        → Flows s pre (meant.weighed_value v (now run.old n)) result run.new n }
    ensures settled { result ≢ code.Wait }
    ensures falls { run.new.state.work ≤ run.old.state.work }
    ensures codes { run.new.codes ≡ run.old.codes }
{
    let (weight, nesting) = top_weight(&run.stack);
    match run.state.weighs_as(weight, nesting) {
        Weighing::Paid => Progress::Done,
        Weighing::Spent => Progress::Spent,
        Weighing::TooLarge => stopped(run, too_large(alloc)),
    }
}

/// Ends with what an operator, a primitive or a service answered.
pub fn answer(alloc: Global, run: &mut Run, given: Result<Value, EvalStop>) -> Progress
    requires bare { run.old.paused ≡ [] }
    ensures flows { (s : Spot) (want : meant.RunStep AValue) (n : ServiceState)
        → Meets want given (now run.old n)
        → Flows s run.old.stack (meant.and_then want meant.weighed_value) result run.new n }
    ensures settled { result ≢ code.Wait }
    ensures falls { run.new.state.work ≤ run.old.state.work }
    ensures codes { run.new.codes ≡ run.old.codes }
{
    match given {
        Ok(v) => give(alloc, run, Slot::of(v)),
        Err(why) => stopped(run, why),
    }
}

/// What is evaluated for an open expression didn't give a value: where it waits, the expression
/// waits for it. A `try` takes up itself what was raised.
pub fn back(run: &mut Run, came: Progress, cont: Continuation) -> Progress
    requires part { came ≢ code.Done }
    requires passes { PassesBy cont came }
    ensures flows { (s next : Spot) (held pre : List AValue) (inner : meant.RunStep AValue)
        (n : ServiceState)
        → step run.old.codes s cont held ≡ Some next → HasEnv s pre → HasHeight cont (length pre)
        → Flows next (held ++ pre) inner came run.old n
        → Flows s pre (resume s cont held inner) result run.new n }
    ensures lasts { (depth old : ℕ) → Spends depth old came run.old
        → Lasts depth old result run.new }
    ensures codes { run.new.codes ≡ run.old.codes }
{
    match came {
        Progress::Wait => match run.paused.push(cont) {
            Ok(_) => Progress::Wait,
            Err(_) => Progress::NoMemory,
        },
        other => other,
    }
}

/// What began to wait goes onto the second stack, or there is no memory.
pub fn move_over(run: &mut Run, conts: &mut Stack<Continuation>) -> bool
    ensures moved { IsTrue result → (conts.new ≡ onto run.old.paused conts.old) ×
        (run.new.paused ≡ []) }
    ensures stack { run.new.stack ≡ run.old.stack }
    ensures state { run.new.state ≡ run.old.state }
    ensures codes { run.new.codes ≡ run.old.codes }
{
    while let Some(k) = run.paused.pop() {
        let Ok(()) = conts.push(k) else {
            return false;
        };
    }
    true
}
