//! Sends of chunks, with the last values as operands.
ghost use Rattle.std.specs.Prelude.{◌≡◌, ◌≢◌, ◌≤◌, []};
ghost use Rattle.plan_base.specs.declared.tree.Expr.{Expr as AnExpr, Expr-F};
ghost use Rattle.plan_base.specs.declared.tree.Value as value;
ghost use Rattle.service_api.specs.Services.{ServiceState};
ghost use Rattle.plan_meaning.specs.Run.{RunStep, and_then, pure, weighed_value};
ghost use Rattle.visit_state.specs.Meets.{Meets};
ghost use Rattle.plan_meaning.specs.Meaning as spec;
ghost use Rattle.plan_eval_state.specs.declared.progress.Progress.TheVariants as code;
ghost use Rattle.plan_eval_state.specs.Spots.{Spot, layer};
ghost use Rattle.plan_eval_state.specs.Flow.{now, Flows};
ghost use Rattle.plan_eval_made.specs.Makes.{Makes, NearIsSafe, PopsAs, RemoteIsSafe, Stays};

use plan_base::{Chunk, Dev, Host, Name, Value};
use plan_eval_state::{Progress, Run, Slot, give, stopped};
use plan_meaning::EvalStop;
use std::alloc::Global;
use visit_state::{as_dev, as_host, as_int};

/// The chunk that a value is.
#[tactic(auto, unfolding(plan_meaning::specs::Meaning::as_chunk), using(plan_base::specs::Trees::trees))]
pub fn chunk_of(v: Value) -> Option<Chunk>
    ensures { result ≡ spec.as_chunk v }
{
    match v {
        Value::Chunk(chunk) => Some(chunk.into_inner()),
        other => {
            drop(other);
            None
        }
    }
}

/// Takes a number off the stack.
fn pop_number(run: &mut Run) -> Option<i64>
    ensures number { PopsAs spec.as_int result run.old.stack run.new.stack }
    ensures stays { Stays run.old run.new }
{
    match run.stack.pop() {
        Some(slot) => {
            let number = as_int(slot.get());
            drop(slot);
            number
        }
        None => None,
    }
}

/// Takes a host off the stack.
fn pop_host(run: &mut Run) -> Option<Host>
    ensures host { PopsAs spec.as_host result run.old.stack run.new.stack }
    ensures stays { Stays run.old run.new }
{
    match run.stack.pop() {
        Some(slot) => {
            let host = as_host(slot.get());
            drop(slot);
            host
        }
        None => None,
    }
}

/// Takes a device off the stack.
fn pop_dev(run: &mut Run) -> Option<Dev>
    ensures dev { PopsAs spec.as_dev result run.old.stack run.new.stack }
    ensures stays { Stays run.old run.new }
{
    match run.stack.pop() {
        Some(slot) => {
            let dev = as_dev(slot.get());
            drop(slot);
            dev
        }
        None => None,
    }
}

/// Takes a chunk off the stack.
pub fn pop_chunk(run: &mut Run) -> Option<Chunk>
    ensures chunk { PopsAs spec.as_chunk result run.old.stack run.new.stack }
    ensures stays { Stays run.old run.new }
{
    match run.stack.pop() {
        Some(slot) => chunk_of(slot.into_value()),
        None => None,
    }
}

/// A send was refused, or gives unit.
fn sent(alloc: Global, run: &mut Run, given: Result<(), EvalStop>) -> Progress
    requires bare { run.old.paused ≡ [] }
    ensures flows { (s : Spot) (want : RunStep (Unit {0})) (m : ServiceState)
        → Meets want given (now run.old m)
        → Flows s run.old.stack (and_then (and_then want (λ _. pure value.Unit)) weighed_value)
        result run.new m }
    ensures settled { result ≢ code.Wait }
    ensures falls { run.new.state.work ≤ run.old.state.work }
    ensures codes { run.new.codes ≡ run.old.codes }
{
    match given {
        Ok(()) => give(alloc, run, Slot::of(Value::Unit)),
        Err(why) => stopped(run, why),
    }
}

/// Sends a chunk to a host by a routing name, with the last three values. Condition: where it is sent, it is typed and well formed.
pub fn send_remote(alloc: Global, run: &mut Run, r: &Name) -> Progress
    requires bare { run.old.paused ≡ [] }
    requires safe { RemoteIsSafe r.now run.old.stack run.old.state }
    ensures made { (s : Spot) (a h n : AnExpr) → layer s ≡ Expr-F.OnRemote a h n r.now
        → Makes s run.old result run.new }
    ensures settled { result ≢ code.Wait }
    ensures falls { run.new.state.work ≤ run.old.state.work }
    ensures codes { run.new.codes ≡ run.old.codes }
{
    let bound = pop_number(run);
    let host = pop_host(run);
    let Some(chunk) = pop_chunk(run) else {
        return Progress::Wrong;
    };
    let Some(host) = host else {
        drop(chunk);
        return Progress::Wrong;
    };
    let Some(bound) = bound else {
        drop(chunk);
        return Progress::Wrong;
    };
    let given = run.state.send_remote(alloc, chunk, host, bound, r);
    sent(alloc, run, given)
}

/// Sends a chunk to a neighbour, with the last four values. Condition: where it is sent, it is typed and well formed.
pub fn send_near(alloc: Global, run: &mut Run) -> Progress
    requires bare { run.old.paused ≡ [] }
    requires safe { NearIsSafe run.old.stack run.old.state }
    ensures made { (s : Spot) (a h n d : AnExpr) → layer s ≡ Expr-F.OnNeighbor a h n d
        → Makes s run.old result run.new }
    ensures settled { result ≢ code.Wait }
    ensures falls { run.new.state.work ≤ run.old.state.work }
    ensures codes { run.new.codes ≡ run.old.codes }
{
    let dev = pop_dev(run);
    let bound = pop_number(run);
    let host = pop_host(run);
    let Some(chunk) = pop_chunk(run) else {
        return Progress::Wrong;
    };
    let Some(host) = host else {
        drop(chunk);
        return Progress::Wrong;
    };
    let Some(bound) = bound else {
        drop(chunk);
        return Progress::Wrong;
    };
    let Some(dev) = dev else {
        drop(chunk);
        return Progress::Wrong;
    };
    let given = run.state.send_neighbour(alloc, chunk, host, bound, dev);
    sent(alloc, run, given)
}
