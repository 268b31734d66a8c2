//! Prints types.
ghost use Rattle.std.specs.Prelude.{◌≡◌, ◌++◌, [], OnOk, OnErr};
ghost use Rattle.plan_printer_spec.specs.Pieces.{listed_pieces};
ghost use Rattle.plan_printer_spec.specs.Printed.{type_text, empty_text};

use crate::pieces::put;
use plan_base::{Bytes, NoMemory, Ty};
use std::alloc::Global;

/// Appends the printed form of a type. Where an allocation fails, `out` stays.
pub fn print_type(alloc: Global, t: &Ty, out: &mut Bytes) -> Result<(), NoMemory>
    ensures whole { OnOk result (out.new ≡ out.old ++ type_text t.now) }
    ensures stays { OnErr result (out.new ≡ out.old) }
{
    let mut text = Bytes::new(alloc);
    put_type(t, &mut text)?;
    out.add_all(text.as_slice())?;
    Ok(())
}

/// A type.
#[cycle(put_type)]
#[tactic(auto, using(crate::proofs::PrintLaws::type_text_out, plan_base::specs::Trees::trees, std::proofs::Common::append_assoc))]
pub(crate) fn put_type(t: &Ty, out: &mut Bytes) -> Result<(), NoMemory>
    ensures { OnOk result (out.new ≡ out.old ++ type_text t.now) }
{
    match t {
        Ty::Unit => put(out, b"unit"),
        Ty::Bool => put(out, b"bool"),
        Ty::Int => put(out, b"int"),
        Ty::Char => put(out, b"char"),
        Ty::Str => put(out, b"string"),
        Ty::Blob => put(out, b"blob"),
        Ty::Host => put(out, b"host"),
        Ty::Dev => put(out, b"dev"),
        Ty::Chunk => put(out, b"chunk"),
        Ty::List(item) => {
            put_type(item.get(), out)?;
            put(out, b" list")
        }
        Ty::Tuple(parts) => {
            put(out, b"(")?;
            put_types(b" * ", parts.as_slice(), out)?;
            put(out, b")")
        }
    }
}

/// Types with `between` between two.
#[cycle(put_type)]
pub(crate) fn put_types(between: &[u8], types: &[Ty], out: &mut Bytes) -> Result<(), NoMemory>
    ensures { OnOk result (out.new ≡ out.old ++ listed_pieces between.now [] type_text types.now) }
{
    let mut separator: &[u8] = b"";
    for t in types {
        put(out, separator)?;
        put_type(t, out)?;
        separator = between;
    }
    Ok(())
}

/// A type between two texts.
#[tactic(auto, using(std::proofs::Common::append_assoc))]
pub(crate) fn put_typed(
    before: &[u8],
    t: &Ty,
    after: &[u8],
    out: &mut Bytes,
) -> Result<(), NoMemory>
    ensures { OnOk result (out.new ≡ out.old ++ (before.now ++ type_text t.now ++ after.now)) }
{
    put(out, before)?;
    put_type(t, out)?;
    put(out, after)
}

/// The empty list with an element type.
pub(crate) fn put_empty(t: &Ty, out: &mut Bytes) -> Result<(), NoMemory>
    ensures { OnOk result (out.new ≡ out.old ++ empty_text t.now) }
{
    put_typed(b"[:", t, b"]", out)
}
