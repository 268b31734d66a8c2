//! Prints values.
ghost use Rattle.std.specs.Prelude.{◌≡◌, ◌++◌, OnOk, OnErr};
ghost use Rattle.plan_printer_spec.specs.Pieces.{commas};
ghost use Rattle.plan_printer_spec.specs.Printed.{value_text, chunk_text};

use crate::pieces::{
    put, put_blob, put_bool, put_char, put_decimal, put_dev, put_host, put_int, put_named,
    put_string,
};
use crate::types::put_empty;
use plan_base::{Bytes, Chunk, NoMemory, Value};
use plan_base_size::chunk_weight;
use std::alloc::Global;

/// Appends the printed form of a value. A chunk shows its entry and its weight alone. Where an allocation fails, `out` stays.
pub fn print_value(alloc: Global, v: &Value, out: &mut Bytes) -> Result<(), NoMemory>
    ensures whole { OnOk result (out.new ≡ out.old ++ value_text v.now) }
    ensures stays { OnErr result (out.new ≡ out.old) }
{
    let mut text = Bytes::new(alloc);
    put_value(alloc, v, &mut text)?;
    out.add_all(text.as_slice())?;
    Ok(())
}

/// A value.
#[cycle(put_value)]
#[tactic(auto, using(crate::proofs::ValueLaws::value_text_out, crate::proofs::PrintLaws::values_text_some, crate::proofs::PrintLaws::values_text_none, plan_base::specs::Trees::trees, std::proofs::Common::append_assoc))]
fn put_value(alloc: Global, v: &Value, out: &mut Bytes) -> Result<(), NoMemory>
    ensures { OnOk result (out.new ≡ out.old ++ value_text v.now) }
{
    match v {
        Value::Unit => put(out, b"()"),
        Value::Bool(b) => put_bool(*b, out),
        Value::Int(z) => put_int(alloc, *z, out),
        Value::Char(c) => put_char(*c, out),
        Value::Str(s) => put_string(s.as_slice(), out),
        Value::Blob(b) => put_blob(b.as_slice(), out),
        Value::Host(h) => put_host(alloc, h.0, out),
        Value::Dev(d) => put_dev(alloc, d.0, out),
        Value::Chunk(c) => put_chunk(alloc, c.get(), out),
        Value::List(t, vs) => {
            if vs.len() == 0 {
                return put_empty(t.get(), out);
            }
            put_between(alloc, b"[", vs.as_slice(), b"]", out)
        }
        Value::Tuple(vs) => put_between(alloc, b"(", vs.as_slice(), b")", out),
    }
}

/// Values with commas, between two texts.
#[cycle(put_value)]
#[tactic(auto, using(std::proofs::Common::append_assoc))]
fn put_between(
    alloc: Global,
    before: &[u8],
    values: &[Value],
    after: &[u8],
    out: &mut Bytes,
) -> Result<(), NoMemory>
    ensures { OnOk result (out.new ≡ out.old ++ (before.now ++ commas value_text values.now ++
        after.now)) }
{
    put(out, before)?;
    put_values(alloc, values, out)?;
    put(out, after)
}

/// Adds values with commas between them. Bytes may stand behind `out` where an allocation fails.
#[cycle(put_value)]
pub fn put_values(alloc: Global, values: &[Value], out: &mut Bytes) -> Result<(), NoMemory>
    ensures { OnOk result (out.new ≡ out.old ++ commas value_text values.now) }
{
    let mut separator: &[u8] = b"";
    for v in values {
        put(out, separator)?;
        put_value(alloc, v, out)?;
        separator = b", ";
    }
    Ok(())
}

/// A chunk in a value, by its entry and its weight as a value.
#[tactic(auto, unfolding(plan_printer_spec::specs::Printed::chunk_text), using(std::proofs::Common::append_assoc))]
fn put_chunk(alloc: Global, c: &Chunk, out: &mut Bytes) -> Result<(), NoMemory>
    ensures { OnOk result (out.new ≡ out.old ++ chunk_text c.now) }
{
    let weight = chunk_weight(c).saturating_add(1);
    put_named(b"<chunk ", &c.entry, b" ", out)?;
    put_decimal(alloc, weight, out)?;
    put(out, b">")
}
