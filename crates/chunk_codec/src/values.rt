//! Reads values and the chunks inside them from bytes.
ghost use Rattle.std.specs.Prelude.{◌≡◌, ◌-◌, ◌<◌, IsTrue};
ghost use Rattle.containers.specs.Reading.{many};
ghost use Rattle.plan_base.specs.declared.tree.Value.{Value};
ghost use Rattle.plan_base.specs.declared.tree.Chunk.{Chunk};
ghost use Rattle.chunk_codec_spec.specs.Parts.{counted_at};
ghost use Rattle.chunk_codec_spec.specs.Scan.{Reader};
ghost use Rattle.chunk_codec_spec.specs.Values.{may_open};
ghost use Rattle.chunk_codec.specs.Reading.{Gives, value_at, value_behind, chunk_read, chunk_fields};

use crate::programs::program_of;
use crate::source::Source;
use crate::tags::is_light;
use crate::types::type_of;
use chunk_codec_spec::{SpellFault, ValueTag};
use containers::{Boxed, Items, Shared};
use plan_base::{Chunk, Dev, Host, Limit, Value, Values};
use std::alloc::Global;

/// A value inside which `nest` chunks may stand inside each other, and `room` lists and tuples.
#[cycle(values)]
#[tactic(auto, using(crate::proofs::ValueSteps::value_goes, crate::proofs::ValueSteps::value_stops))]
pub fn value_of(
    alloc: Global,
    s: &mut Source<'_>,
    nest: u32,
    room: u32,
) -> Result<Value, SpellFault>
    ensures { Gives result s.new (value_at nest room s.old) }
{
    let tag = s.value_tag(nest, room)?;
    value_with_tag(alloc, s, nest, room, tag)
}

/// What is behind the tag of a value without parts.
#[tactic(auto, unfolding(crate::specs::Reading::value_behind))]
fn leaf_with_tag(alloc: Global, s: &mut Source<'_>, tag: ValueTag) -> Result<Value, SpellFault>
    ensures { (inner : Reader Value) (chunk : Reader Chunk)
        → Gives result s.new (value_behind inner chunk tag s.old) }
{
    match tag {
        ValueTag::Unit => Ok(Value::Unit),
        ValueTag::Bool => Ok(Value::Bool(s.flag()?)),
        ValueTag::Int => Ok(Value::Int(s.int()?)),
        ValueTag::Char => Ok(Value::Char(s.scalar()?)),
        ValueTag::Str => Ok(Value::Str(s.text(alloc)?)),
        ValueTag::Blob => Ok(Value::Blob(s.blob(alloc)?)),
        ValueTag::Host => Ok(Value::Host(Host(s.word()?))),
        ValueTag::Dev => Ok(Value::Dev(Dev(s.word()?))),
        _ => Err(SpellFault::NoMemory),
    }
}

/// What is behind a value's tag.
#[cycle(values)]
fn value_with_tag(
    alloc: Global,
    s: &mut Source<'_>,
    nest: u32,
    room: u32,
    tag: ValueTag,
) -> Result<Value, SpellFault>
    requires { IsTrue (may_open nest room tag) }
    ensures { Gives result s.new (value_behind (value_at nest (room - 1))
        (chunk_read (nest - 1)) tag s.old) }
{
    match tag {
        ValueTag::Chunk => chunk_behind(alloc, s, nest, room),
        ValueTag::List => list_behind(alloc, s, nest, room),
        ValueTag::Tuple => tuple_behind(alloc, s, nest, room),
        _ => leaf_with_tag(alloc, s, tag),
    }
}

/// What is behind the tag of a chunk.
#[cycle(values)]
#[tactic(auto, unfolding(crate::specs::Reading::value_behind))]
fn chunk_behind(
    alloc: Global,
    s: &mut Source<'_>,
    nest: u32,
    room: u32,
) -> Result<Value, SpellFault>
    requires { 0 < nest }
    ensures { Gives result s.new (value_behind (value_at nest (room - 1))
        (chunk_read (nest - 1)) ValueTag.Chunk s.old) }
{
    let chunk = chunk_of(alloc, s, nest - 1)?;
    Ok(Value::Chunk(Boxed::new(alloc, chunk)?))
}

/// What is behind the tag of a list.
#[cycle(values)]
#[tactic(auto, unfolding(crate::specs::Reading::value_behind, chunk_codec_spec::specs::Parts::listed_at))]
fn list_behind(alloc: Global, s: &mut Source<'_>, nest: u32, room: u32) -> Result<Value, SpellFault>
    requires { 0 < room }
    ensures { Gives result s.new (value_behind (value_at nest (room - 1))
        (chunk_read (nest - 1)) ValueTag.List s.old) }
{
    let ty = Boxed::new(alloc, type_of(alloc, s, 7)?)?;
    match s.short() {
        Ok(count) => match values_of(alloc, s, nest, room - 1, count) {
            Ok(items) => Ok(Value::List(ty, items)),
            Err(fault) => {
                drop(ty);
                Err(fault)
            }
        },
        Err(fault) => {
            drop(ty);
            Err(fault)
        }
    }
}

/// What is behind the tag of a tuple.
#[cycle(values)]
#[tactic(auto, unfolding(crate::specs::Reading::value_behind, chunk_codec_spec::specs::Parts::counted_at))]
fn tuple_behind(
    alloc: Global,
    s: &mut Source<'_>,
    nest: u32,
    room: u32,
) -> Result<Value, SpellFault>
    requires { 0 < room }
    ensures { Gives result s.new (value_behind (value_at nest (room - 1))
        (chunk_read (nest - 1)) ValueTag.Tuple s.old) }
{
    let count = s.count(Limit::Parts, 2, 8)?;
    match values_of(alloc, s, nest, room - 1, u16::from(count)) {
        Ok(parts) => Ok(Value::Tuple(parts)),
        Err(fault) => Err(fault),
    }
}

/// So many values.
#[cycle(values)]
fn values_of(
    alloc: Global,
    s: &mut Source<'_>,
    nest: u32,
    room: u32,
    count: u16,
) -> Result<Values, SpellFault>
    ensures { Gives result s.new (many (value_at nest room) count s.old) }
{
    let mut values = Items::new(alloc);
    for _i in 0..count {
        let value = value_of(alloc, s, nest, room)?;
        values.add(value)?;
    }
    Ok(values)
}

/// The arguments of a chunk.
#[cycle(values)]
#[tactic(auto, unfolding(chunk_codec_spec::specs::Parts::counted_at))]
fn args_of(alloc: Global, s: &mut Source<'_>, nest: u32) -> Result<Values, SpellFault>
    ensures { Gives result s.new (counted_at Limit.Arguments 0 8 (value_at nest 8) s.old) }
{
    let count = s.count(Limit::Arguments, 0, 8)?;
    match values_of(alloc, s, nest, 8, u16::from(count)) {
        Ok(args) => Ok(args),
        Err(fault) => Err(fault),
    }
}

/// A chunk before its weight is judged.
#[cycle(values)]
#[tactic(auto, unfolding(crate::specs::Reading::chunk_fields))]
fn fields_of(alloc: Global, s: &mut Source<'_>, nest: u32) -> Result<Chunk, SpellFault>
    ensures { Gives result s.new (chunk_fields (value_at nest 8) s.old) }
{
    let code = Shared::new(alloc, program_of(alloc, s)?)?;
    match s.name(alloc) {
        Ok(entry) => match args_of(alloc, s, nest) {
            Ok(args) => Ok(Chunk { code, entry, args }),
            Err(fault) => {
                drop(code);
                drop(entry);
                Err(fault)
            }
        },
        Err(fault) => {
            drop(code);
            Err(fault)
        }
    }
}

/// A chunk inside which `nest` more may stand inside each other; an outermost one, where `nest` is 3, weighs at most 16,384 with its tag.
#[cycle(values)]
#[tactic(auto, using(crate::proofs::ValueSteps::chunk_goes))]
pub fn chunk_of(alloc: Global, s: &mut Source<'_>, nest: u32) -> Result<Chunk, SpellFault>
    ensures { Gives result s.new (chunk_read nest s.old) }
{
    let start = s.place();
    let chunk = fields_of(alloc, s, nest)?;
    if is_light(nest, s.place().saturating_sub(start)) {
        Ok(chunk)
    } else {
        drop(chunk);
        Err(SpellFault::OverLimit(Limit::Weight, start))
    }
}
