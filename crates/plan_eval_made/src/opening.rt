//! How the chunk of an `eval` is opened.
ghost use Rattle.std.specs.Prelude.{◌≡◌, ◌≢◌, ◌≤◌, ◌∷◌, ◌++◌, [], List, reverse, slice_get, min, IfErr, IfOk, MatchOption, OnOk};
ghost use Rattle.plan_base.specs.declared.tree.Expr.{Expr as AnExpr, Expr-F};
ghost use Rattle.plan_base.specs.declared.tree.Value.{Value as AValue};
ghost use Rattle.plan_base.specs.Sizes as sizes;
ghost use Rattle.plan_eval_state.specs.declared.progress.Progress.TheVariants as code;
ghost use Rattle.plan_eval_state.specs.Spots.{Spot, layer};
ghost use Rattle.plan_eval_made.specs.Comes.{Grows};
ghost use Rattle.plan_eval_made.specs.Opens.{Admits, HasNoEntry, IsOpened, Opens, Pays, Refuses, Spent, Widens};
ghost use Rattle.plan_eval_made.specs.Makes.{Stays};

use crate::sends::pop_chunk;
use containers::Shared;
use plan_base::{Chunk, NoMemory, Program, Values};
use plan_eval_state::{OpenProgram, Progress, Run, Slot, stopped};
use plan_types_spec::place_of;
use std::alloc::{AllocError, Global};

/// The entry of a chunk that is open: its program, and where its arguments stand.
#[derive(Drop)]
pub struct Opened {
    /// The program.
    pub code: Shared<Program>,
    /// Its number among those that are open.
    pub number: usize,
    /// The bytes of its marshalled form, or 2^64 - 1 where there are more.
    pub size: u64,
    /// The place of the function in it.
    pub fun: usize,
    /// The place on the stack from which the arguments stand.
    pub base: usize,
}

/// The place of the entry of a chunk, where there is one that takes so many arguments.
fn entry_of(chunk: &Chunk) -> Option<usize>
    ensures { MatchOption result (HasNoEntry chunk.now) (Admits chunk.now) }
{
    let Some(fun) = place_of(&chunk.entry, chunk.code.get().funs.as_slice()) else {
        return None;
    };
    let Some(function) = chunk.code.get().funs.get(fun) else {
        return None;
    };
    if function.params.len() == chunk.args.len() {
        Some(fun)
    } else {
        None
    }
}

/// The number of a program that comes behind those that are open, and its size.
fn open_program(run: &mut Run, code: &Shared<Program>) -> Result<(usize, u64), NoMemory>
    ensures number { IfOk result (λ p. slice_get run.new.codes p.0 ≡ Some code.now) }
    ensures size { IfOk result (λ p. p.1 ≡ min (sizes.code_size code.now) 18446744073709551615) }
    ensures stack { run.new.stack ≡ run.old.stack }
    ensures stays { Widens run.old run.new }
{
    let number = run.codes.len();
    let program = OpenProgram::of(code)?;
    let size = program.size();
    run.codes.add(program)?;
    Ok((number, size))
}

/// Puts values onto the stack in their order.
fn push_values(run: &mut Run, values: Values) -> Result<(), AllocError>
    ensures pushed { OnOk result (run.new.stack ≡ reverse values ++ run.old.stack) }
    ensures stays { Stays run.old run.new }
{
    let mut turned = values.into_vec();
    turned.reverse();
    while let Some(v) = turned.pop() {
        run.stack.push(Slot::of(v))?;
    }
    Ok(())
}

/// Opens the program of a chunk, and puts its arguments onto the stack, for the function at that place.
fn enter_chunk(run: &mut Run, chunk: Chunk, fun: usize) -> Result<Opened, NoMemory>
    ensures opened { IfOk result (λ o. IsOpened chunk fun run.old.stack o run.new) }
    ensures stays { Widens run.old run.new }
{
    let Chunk { code, entry, args } = chunk;
    drop(entry);
    let (number, size) = match open_program(run, &code) {
        Ok(opened) => opened,
        Err(NoMemory) => {
            drop(args);
            return Err(NoMemory);
        }
    };
    let base = run.stack.len();
    push_values(run, args)?;
    Ok(Opened {
        code,
        number,
        size,
        fun,
        base,
    })
}

/// Takes the chunk that is the last value off, and pays for its eval.
fn paid_chunk(alloc: Global, run: &mut Run) -> Result<Chunk, Progress>
    requires bare { run.old.paused ≡ [] }
    ensures paid { IfOk result (λ k. (v : AValue) (pre : List AValue) → run.old.stack ≡ v ∷ pre
        → Pays v pre run.old k run.new) }
    ensures refused { IfErr result (λ p. Refuses run.old p run.new) }
    ensures spent { Spent run.old run.new }
{
    let Some(chunk) = pop_chunk(run) else {
        return Err(Progress::Wrong);
    };
    match run.state.pay_eval(alloc) {
        Ok(()) => Ok(chunk),
        Err(why) => {
            drop(chunk);
            Err(stopped(run, why))
        }
    }
}

/// Opens the chunk that is the last value, once its eval is paid: its arguments come in its place.
pub fn open_chunk(alloc: Global, run: &mut Run) -> Result<Opened, Progress>
    requires bare { run.old.paused ≡ [] }
    ensures opens { IfOk result (λ o. (v : AValue) (pre : List AValue) → run.old.stack ≡ v ∷ pre
        → Opens v pre run.old o run.new) }
    ensures refused { IfErr result (λ p. Refuses run.old p run.new) }
    ensures falls { run.new.state.work ≤ run.old.state.work }
    ensures grown { Grows run.old.codes run.new.codes }
{
    let chunk = match paid_chunk(alloc, run) {
        Ok(chunk) => chunk,
        Err(came) => return Err(came),
    };
    let Some(fun) = entry_of(&chunk) else {
        drop(chunk);
        return Err(Progress::Wrong);
    };
    match enter_chunk(run, chunk, fun) {
        Ok(opened) => Ok(opened),
        Err(NoMemory) => Err(Progress::NoMemory),
    }
}
