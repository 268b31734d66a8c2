//! What comes first that is wrong with a chunk.

ghost use Rattle.std.specs.Prelude.{◌≡◌, IfOk, IsTrue, length};
ghost use Rattle.std.specs.List.{list_all};
ghost use Rattle.plan_types_spec.specs.TypingNames.{param_types};
ghost use Rattle.checked_chunks.specs.Kept as kept;
ghost use Rattle.checked_chunks.specs.Kept.{IsChecked};
ghost use Rattle.plan_types_chunks.specs.Chunks as spec;

use crate::fault::Ill;
use crate::shape::fits;
use checked_chunks::{Checked, fun_of};
use plan_base::{Chunk, Name, NoMemory, Param, Program, Ty, Value};
use plan_base_eq::SameAs;
use plan_base_size::{chunk_nesting, chunk_weight};
use plan_types::first_refusal;
use std::alloc::Global;

/// Whether a chunk is within the limits of size. Takes no memory.
pub fn is_small(chunk: &Chunk) -> bool
    ensures { result ≡ kept.is_small_chunk chunk.now }
{
    chunk_weight(chunk) < 16384 && chunk_nesting(chunk) <= 4
}

/// Whether a program is the same as one that was checked.
#[tactic(auto, using(checked_chunks::proofs::CodeKept::checked_too))]
fn is_known(known: Option<&Checked>, code: &Program) -> bool
    ensures { IsTrue result → IsChecked code.now }
{
    match known {
        None => false,
        Some(program) => program.program().is(code),
    }
}

/// What comes first that is wrong with a chunk within the limits of size, whose code isn't checked again where it is known.
#[tactic(auto, using(crate::proofs::Known::known_passes))]
pub fn illness_by(
    alloc: Global,
    chunk: &Chunk,
    known: Option<&Checked>,
) -> Result<Option<Ill>, NoMemory>
    ensures { IfOk result (λ o. o ≡ spec.illness chunk.now) }
{
    let code = chunk.code.get();
    if is_known(known, code) {
        return ill_call(alloc, code, &chunk.entry, chunk.args.as_slice());
    }
    illness(alloc, chunk)
}

/// What comes first that is wrong with a chunk within the limits of size.
#[cycle(illness)]
#[tactic(auto, using(crate::proofs::Levels::illness_is, crate::proofs::Levels::code_passes))]
fn illness(alloc: Global, chunk: &Chunk) -> Result<Option<Ill>, NoMemory>
    ensures { IfOk result (λ o. o ≡ spec.illness chunk.now) }
{
    match first_refusal(alloc, chunk.code.get())? {
        Some(fault) => Ok(Some(Ill::Code(fault))),
        None => ill_call(alloc, chunk.code.get(), &chunk.entry, chunk.args.as_slice()),
    }
}

/// The same from the entry on.
#[cycle(illness)]
pub fn ill_call(
    alloc: Global,
    code: &Program,
    entry: &Name,
    args: &[Value],
) -> Result<Option<Ill>, NoMemory>
    ensures { IfOk result (λ o. o ≡ spec.ill_call spec.right code.now entry.now args.now) }
{
    let Some(fun) = fun_of(code, entry) else {
        return Ok(Some(Ill::Entry));
    };
    if args.len() != fun.params.len() {
        return Ok(Some(Ill::Count));
    }
    first_ill(alloc, args, fun.params.as_slice())
}

/// The first argument that isn't right.
#[cycle(illness)]
#[tactic(auto, using(crate::proofs::Loops::ill_next))]
fn first_ill(alloc: Global, args: &[Value], params: &[Param]) -> Result<Option<Ill>, NoMemory>
    requires { length args.now ≡ length params.now }
    ensures { IfOk result (λ o. o ≡ spec.ill_from spec.right 0 args.now (param_types params.now)) }
{
    let mut number = 0u8;
    for i in 0..args.len() {
        if !is_right(alloc, &args[i], &params[i].ty)? {
            return Ok(Some(Ill::Argument(number)));
        }
        number = number.saturating_add(1);
    }
    Ok(None)
}

/// Whether an argument's shape has the type and no chunk inside it is too large or ill.
#[cycle(illness)]
fn is_right(alloc: Global, v: &Value, t: &Ty) -> Result<bool, NoMemory>
    ensures { IfOk result (λ b. b ≡ spec.right v.now t.now) }
{
    if fits(v, t) {
        is_sound(alloc, v)
    } else {
        Ok(false)
    }
}

/// Whether no chunk inside the value is too large or ill.
#[cycle(illness)]
#[tactic(auto, using(crate::proofs::Levels::sound_out, plan_base::specs::Trees::trees))]
fn is_sound(alloc: Global, v: &Value) -> Result<bool, NoMemory>
    ensures { IfOk result (λ b. b ≡ spec.sound v.now) }
{
    match v {
        Value::Chunk(chunk) => is_right_chunk(alloc, chunk.get()),
        Value::List(_, items) => are_sound(alloc, items.as_slice()),
        Value::Tuple(parts) => are_sound(alloc, parts.as_slice()),
        _ => Ok(true),
    }
}

/// Whether the chunk is within the limits of size and nothing is wrong with it. One that is too large isn't checked.
#[cycle(illness)]
fn is_right_chunk(alloc: Global, chunk: &Chunk) -> Result<bool, NoMemory>
    ensures { IfOk result (λ b. b ≡ spec.is_right_chunk chunk.now) }
{
    if is_small(chunk) {
        Ok(illness(alloc, chunk)?.is_none())
    } else {
        Ok(false)
    }
}

#[cycle(illness)]
#[tactic(auto, using(containers::proofs::Lists::all_next))]
fn are_sound(alloc: Global, values: &[Value]) -> Result<bool, NoMemory>
    ensures { IfOk result (λ b. b ≡ list_all spec.sound values.now) }
{
    for i in 0..values.len() {
        if !is_sound(alloc, &values[i])? {
            return Ok(false);
        }
    }
    Ok(true)
}
