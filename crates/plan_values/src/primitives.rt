//! The primitives.
ghost use Rattle.std.specs.Prelude.{◌≡◌, IfOk, List, pos};
ghost use Rattle.plan_base.specs.declared.prim.Primitive.TheVariants as prim;
ghost use Rattle.plan_base.specs.declared.tree.Value.{out-Value};
ghost use Rattle.plan_base.specs.declared.tree.Value.TheVariants as value;
ghost use Rattle.plan_types_spec.specs.Rules as rules;
ghost use Rattle.plan_base.specs.declared.tree.Ty.{Ty as AType};
ghost use Rattle.plan_types_spec.specs.Typing.{HaveTypes};
ghost use Rattle.plan_types_spec.specs.Typed.{PrimitiveTakes};
ghost use Rattle.plan_values.specs.Answers.{Answers, IsFit};

use crate::fault::PrimFault;
use crate::lists::{blob_part, first_item, later_items};
use plan_base::{Bytes, Host, NoMemory, Primitive, Text, Value, Values};
use std::alloc::Global;

/// The value or the exception of the primitive, or `Unfit` where it doesn't take such arguments: never where they have types
/// that it takes.
pub fn primitive(alloc: Global, p: Primitive, args: &Values) -> Result<Value, PrimFault>
    ensures answers { Answers (rules.primitive p args.now) result }
    ensures fits { (ts : List AType) (r : AType) → PrimitiveTakes p ts r → HaveTypes args.now ts
        → IsFit r result }
{
    apply_primitive(alloc, p, args)
}

#[tactic(auto, unfolding(plan_types_spec::specs::Rules::primitive))]
fn apply_primitive(alloc: Global, p: Primitive, args: &Values) -> Result<Value, PrimFault>
    ensures { Answers (rules.primitive p args.now) result }
{
    match args.as_slice() {
        [a] => of_one(alloc, p, a),
        [a, b, c] => of_three(alloc, p, a, b, c),
        _ => Err(PrimFault::Unfit),
    }
}

fn of_one(alloc: Global, p: Primitive, a: &Value) -> Result<Value, PrimFault>
    ensures { Answers (rules.of_one p (out-Value a.now)) result }
{
    match p {
        Primitive::Hd => head(alloc, a),
        Primitive::Tl => tail(alloc, a),
        Primitive::Length => length(a),
        Primitive::IntToString => int_to_string(alloc, a),
        Primitive::HostToString => host_to_string(alloc, a),
        Primitive::StringToBlob => string_to_blob(alloc, a),
        Primitive::BlobLength => blob_length(a),
        Primitive::BlobPart => Err(PrimFault::Unfit),
    }
}

fn head(alloc: Global, a: &Value) -> Result<Value, PrimFault>
    ensures { Answers (rules.of_one prim.Hd (out-Value a.now)) result }
{
    match a {
        Value::List(_, items) => first_item(alloc, items.as_slice()),
        _ => Err(PrimFault::Unfit),
    }
}

fn tail(alloc: Global, a: &Value) -> Result<Value, PrimFault>
    ensures { Answers (rules.of_one prim.Tl (out-Value a.now)) result }
{
    match a {
        Value::List(t, items) => later_items(alloc, t.get(), items.as_slice()),
        _ => Err(PrimFault::Unfit),
    }
}

fn length(a: &Value) -> Result<Value, PrimFault>
    ensures { Answers (rules.of_one prim.Length (out-Value a.now)) result }
{
    match a {
        Value::List(_, items) => count_value(items.len()),
        _ => Err(PrimFault::Unfit),
    }
}

/// A count as a number. No memory holds 2^63 of anything.
fn count_value(n: usize) -> Result<Value, PrimFault>
    ensures { Answers (rules.gives (value.Int (pos n))) result }
{
    match i64::try_from(n) {
        Ok(n) => Ok(Value::Int(n)),
        Err(_) => Err(PrimFault::NoMemory),
    }
}

fn int_to_string(alloc: Global, a: &Value) -> Result<Value, PrimFault>
    ensures { Answers (rules.of_one prim.IntToString (out-Value a.now)) result }
{
    match a {
        Value::Int(n) => Ok(Value::Str(printed_int(alloc, *n)?)),
        _ => Err(PrimFault::Unfit),
    }
}

fn printed_int(alloc: Global, n: i64) -> Result<Text, NoMemory>
    ensures { IfOk result (λ s. s ≡ rules.printed_int n) }
{
    let size = n.unsigned_abs();
    let text = if n < 0 {
        format!(in alloc; "~{size}")?
    } else {
        format!(in alloc; "{size}")?
    };
    Ok(Text::of(text.into_bytes()))
}

fn host_to_string(alloc: Global, a: &Value) -> Result<Value, PrimFault>
    ensures { Answers (rules.of_one prim.HostToString (out-Value a.now)) result }
{
    match a {
        Value::Host(h) => Ok(Value::Str(printed_host(alloc, *h)?)),
        _ => Err(PrimFault::Unfit),
    }
}

fn printed_host(alloc: Global, h: Host) -> Result<Text, NoMemory>
    ensures { IfOk result (λ s. s ≡ rules.printed_host h) }
{
    let number = h.0;
    let text = format!(in alloc; "@{number}")?;
    Ok(Text::of(text.into_bytes()))
}

/// The bytes of a text.
fn bytes_of(alloc: Global, s: &Text) -> Result<Bytes, NoMemory>
    ensures { IfOk result (λ b. b ≡ s.now) }
{
    Ok(Bytes::of(Vec::from_slice(alloc, s.as_slice())?))
}

fn string_to_blob(alloc: Global, a: &Value) -> Result<Value, PrimFault>
    ensures { Answers (rules.of_one prim.StringToBlob (out-Value a.now)) result }
{
    match a {
        Value::Str(s) => Ok(Value::Blob(bytes_of(alloc, s)?)),
        _ => Err(PrimFault::Unfit),
    }
}

fn blob_length(a: &Value) -> Result<Value, PrimFault>
    ensures { Answers (rules.of_one prim.BlobLength (out-Value a.now)) result }
{
    match a {
        Value::Blob(b) => count_value(b.len()),
        _ => Err(PrimFault::Unfit),
    }
}

fn of_three(
    alloc: Global,
    p: Primitive,
    a: &Value,
    b: &Value,
    c: &Value,
) -> Result<Value, PrimFault>
    ensures { Answers (rules.of_three p (out-Value a.now) (out-Value b.now) (out-Value c.now))
        result }
{
    match p {
        Primitive::BlobPart => part_of_blob(alloc, a, b, c),
        Primitive::Hd
        | Primitive::Tl
        | Primitive::Length
        | Primitive::IntToString
        | Primitive::HostToString
        | Primitive::StringToBlob
        | Primitive::BlobLength => Err(PrimFault::Unfit),
    }
}

fn part_of_blob(alloc: Global, a: &Value, b: &Value, c: &Value) -> Result<Value, PrimFault>
    ensures { Answers (rules.of_three prim.BlobPart (out-Value a.now) (out-Value b.now) (out-Value
        c.now)) result }
{
    match a {
        Value::Blob(bytes) => match b {
            Value::Int(i) => match c {
                Value::Int(n) => blob_part(alloc, bytes, *i, *n),
                _ => Err(PrimFault::Unfit),
            },
            _ => Err(PrimFault::Unfit),
        },
        _ => Err(PrimFault::Unfit),
    }
}
