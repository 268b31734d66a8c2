//! Writes the asks of a message's parts.
ghost use Rattle.std.specs.Prelude.{◌≡◌, ◌++◌, All, IfOk, OnOk};
ghost use Rattle.std.specs.List.{flat_map};
ghost use Rattle.frag_chunks.specs.Parts.{HasBound};
ghost use Rattle.command_files.specs.Cuts.{KeepsCut};
ghost use Rattle.command_files.specs.Texts as spec;

use crate::cut::CutFile;
use frag_chunks::{CutFault, Part, cut};
use hex::encode;
use packet_frame::put_ask;
use plan_base::{Bytes, NoMemory};
use remote_calls::Purse;
use std::alloc::Global;

/// The ask of a part in hex, as a log of its owner's bytes has it.
fn put_part(alloc: Global, part: &Part, out: &mut Bytes) -> Result<(), NoMemory>
    requires { HasBound part.now }
    ensures { OnOk result (out.new ≡ out.old ++ spec.part_line part.now) }
{
    let frame = put_ask(alloc, part.bound, &part.chunk)?;
    out.add_all(b"control ")?;
    out.add_all(encode(alloc, frame.as_slice())?.as_bytes())?;
    out.add_all(b"\n")?;
    Ok(())
}

/// The lines of parts.
fn put_parts(alloc: Global, parts: &[Part], out: &mut Bytes) -> Result<(), NoMemory>
    requires { All HasBound parts.now }
    ensures { OnOk result (out.new ≡ out.old ++ flat_map spec.part_line parts.now) }
{
    for part in parts {
        put_part(alloc, part, out)?;
    }
    Ok(())
}

/// The lines of parts as a text.
fn parts_text(alloc: Global, parts: &[Part]) -> Result<Bytes, NoMemory>
    requires { All HasBound parts.now }
    ensures { IfOk result (λ text. text ≡ flat_map spec.part_line parts.now) }
{
    let mut text = Bytes::new(alloc);
    put_parts(alloc, parts, &mut text)?;
    Ok(text)
}

/// What `cut` writes of a message: a line for each part, with its ask in hex. Condition: the message keeps the rules.
/// The parts are paid from a purse that holds the message's bound, so the purse never refuses it.
#[tactic(auto, unfolding(crate::specs::Texts::cut_output))]
pub fn cut_text(alloc: Global, file: &CutFile) -> Result<Bytes, NoMemory>
    requires { KeepsCut file.now }
    ensures { IfOk result (λ text. text ≡ spec.cut_output file.now) }
{
    let bound = file.bound;
    let key = file.key as i64;
    let mut purse = Purse::of(bound);
    match cut(
        alloc,
        &mut purse,
        i64::from(bound),
        file.dest,
        file.port,
        key,
        &file.bytes,
    ) {
        Ok(parts) => parts_text(alloc, parts.as_slice()),
        Err(CutFault::NoMemory) => Err(NoMemory),
        Err(CutFault::NoBound) => unreachable!(),
    }
}
