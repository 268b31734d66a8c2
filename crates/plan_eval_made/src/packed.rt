//! Tuples and chunks, which are made of the last values.
ghost use Rattle.std.specs.Prelude.{◌≡◌, ◌≢◌, ◌≤◌, [], List, length, min, IfOk};
ghost use Rattle.plan_base.specs.declared.tree.Expr.{Expr as AnExpr, Expr-F};
ghost use Rattle.plan_base.specs.declared.tree.Value.{Value as AValue};
ghost use Rattle.plan_base.specs.declared.tree.Value as value;
ghost use Rattle.plan_base.specs.Sizes.{code_size};
ghost use Rattle.plan_base.specs.Sizes as sizes;
ghost use Rattle.service_api.specs.Services.{ServiceState};
ghost use Rattle.plan_meaning.specs.Run.{weighed_value};
ghost use Rattle.plan_eval_state.specs.declared.progress.Progress.TheVariants as code;
ghost use Rattle.plan_eval_state.specs.Spots.{Spot, layer};
ghost use Rattle.plan_eval_state.specs.Flow.{now, Flows};
ghost use Rattle.plan_eval_made.specs.Makes.{Makes};

use crate::here::Here;
use crate::row::{Row, take_row};
use containers::{Boxed, Shared};
use plan_base::{Chunk, Name, NoMemory, Program, Value, Values};
use plan_base_copy::TryClone;
use plan_eval_state::{Progress, Run, Slot, give, put, stopped};
use std::alloc::Global;
use visit_state::{Weighing, too_large};

/// The tuple of these values.
#[tactic(auto, using(plan_base::proofs::SizeLaws::weight_out, plan_base::proofs::SizeLaws::nesting_out, plan_base::specs::Trees::trees))]
fn tuple_of(row: Row) -> Slot
    ensures { result ≡ value.Tuple row }
{
    let weight = row.weight().saturating_add(2);
    let nesting = row.nesting();
    Slot::weighed(Value::Tuple(row.into_values()), weight, nesting)
}

/// The last values, so many, become a tuple.
pub fn make_tuple(alloc: Global, run: &mut Run, n: usize) -> Progress
    requires bare { run.old.paused ≡ [] }
    ensures made { (s : Spot) (es : List AnExpr) → layer s ≡ Expr-F.Tuple es → length es ≡ n
        → Makes s run.old result run.new }
    ensures settled { result ≢ code.Wait }
    ensures falls { run.new.state.work ≤ run.old.state.work }
    ensures codes { run.new.codes ≡ run.old.codes }
{
    match take_row(alloc, run, n) {
        Ok(row) => give(alloc, run, tuple_of(row)),
        Err(_) => Progress::NoMemory,
    }
}

/// What a chunk weighs as a value.
#[tactic(auto, using(plan_base::proofs::SizeLaws::weight_out, plan_base::proofs::SizeLaws::chunk_weight_is, plan_base::specs::Trees::trees))]
fn chunk_weight(here: &Here<'_>, entry: &Name, row: &Row) -> u64
    requires size { here.now.size ≡ min (code_size here.now.code.now) 18446744073709551615 }
    ensures { result ≡ min (sizes.weight (value.Chunk
        (record { code = here.now.code.now; entry = entry.now; args = row.now })))
        18446744073709551615 }
{
    let name = entry.as_slice().len() as u64;
    here.size
        .saturating_add(name)
        .saturating_add(row.weight())
        .saturating_add(3)
}

/// How many chunks stand inside each other in a chunk, itself counted.
#[tactic(auto, using(plan_base::proofs::SizeLaws::nesting_out, plan_base::proofs::SizeLaws::chunk_nesting_is, plan_base::specs::Trees::trees))]
fn chunk_nesting(here: &Here<'_>, entry: &Name, row: &Row) -> u32
    ensures { result ≡ min (sizes.nesting (value.Chunk
        (record { code = here.now.code.now; entry = entry.now; args = row.now })))
        4294967295 }
{
    row.nesting().saturating_add(1)
}

/// A chunk as a value.
fn chunk_value(
    alloc: Global,
    code: &Shared<Program>,
    entry: &Name,
    args: Values,
) -> Result<Value, NoMemory>
    ensures { IfOk result (λ v. v ≡ value.Chunk
        (record { code = code.now; entry = entry.now; args = args })) }
{
    let chunk = Chunk {
        code: code.share()?,
        entry: entry.copy(alloc)?,
        args,
    };
    Ok(Value::Chunk(Boxed::new(alloc, chunk)?))
}

/// A chunk of this program with these arguments, once its weight is spent.
fn pack(alloc: Global, run: &mut Run, here: &Here<'_>, entry: &Name, row: Row) -> Progress
    requires bare { run.old.paused ≡ [] }
    requires size { here.now.size ≡ min (code_size here.now.code.now) 18446744073709551615 }
    ensures flows { (s : Spot) (m : ServiceState)
        → Flows s run.old.stack (weighed_value (value.Chunk
        (record { code = here.now.code.now; entry = entry.now; args = row }))
        (now run.old m)) result run.new m }
    ensures settled { result ≢ code.Wait }
    ensures falls { run.new.state.work ≤ run.old.state.work }
    ensures codes { run.new.codes ≡ run.old.codes }
{
    let weight = chunk_weight(here, entry, &row);
    let nesting = chunk_nesting(here, entry, &row);
    match run.state.weighs_as(weight, nesting) {
        Weighing::Paid => match chunk_value(alloc, here.code, entry, row.into_values()) {
            Ok(v) => put(run, Slot::weighed(v, weight, nesting)),
            Err(_) => Progress::NoMemory,
        },
        Weighing::Spent => {
            drop(row);
            Progress::Spent
        }
        Weighing::TooLarge => {
            drop(row);
            stopped(run, too_large(alloc))
        }
    }
}

/// The last values, so many, become the arguments of a chunk of this program.
pub fn make_chunk(alloc: Global, run: &mut Run, here: &Here<'_>, entry: &Name, n: usize) -> Progress
    requires bare { run.old.paused ≡ [] }
    requires size { here.now.size ≡ min (code_size here.now.code.now) 18446744073709551615 }
    ensures made { (s : Spot) (es : List AnExpr) → layer s ≡ Expr-F.ChunkOf entry.now es
        → s.code ≡ here.now.code.now → length es ≡ n → Makes s run.old result run.new }
    ensures settled { result ≢ code.Wait }
    ensures falls { run.new.state.work ≤ run.old.state.work }
    ensures codes { run.new.codes ≡ run.old.codes }
{
    match take_row(alloc, run, n) {
        Ok(row) => pack(alloc, run, here, entry, row),
        Err(_) => Progress::NoMemory,
    }
}
