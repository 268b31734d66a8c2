//! Reads types from bytes.
ghost use Rattle.std.specs.Prelude.{◌≡◌, ◌-◌, ◌<◌};
ghost use Rattle.containers.specs.Reading.{many};
ghost use Rattle.chunk_codec.specs.Reading.{Gives, type_at, type_behind};

use crate::source::Source;
use chunk_codec_spec::{SpellFault, TypeTag};
use containers::{Boxed, Items};
use plan_base::{Limit, Ty, Tys};
use std::alloc::Global;

/// A type whose parts may open `room` levels, its own counted.
#[cycle(types)]
#[tactic(auto, using(crate::proofs::TypeSteps::type_goes, crate::proofs::TypeSteps::type_stops))]
pub fn type_of(alloc: Global, s: &mut Source<'_>, room: u32) -> Result<Ty, SpellFault>
    ensures { Gives result s.new (type_at room s.old) }
{
    let tag = s.type_tag(room)?;
    type_with_tag(alloc, s, room, tag)
}

/// What is behind a type's tag.
#[cycle(types)]
#[tactic(auto, unfolding(crate::specs::Reading::type_behind, chunk_codec_spec::specs::Parts::counted_at))]
fn type_with_tag(
    alloc: Global,
    s: &mut Source<'_>,
    room: u32,
    tag: TypeTag,
) -> Result<Ty, SpellFault>
    requires { 0 < room }
    ensures { Gives result s.new (type_behind (type_at (room - 1)) tag s.old) }
{
    match tag {
        TypeTag::Unit => Ok(Ty::Unit),
        TypeTag::Bool => Ok(Ty::Bool),
        TypeTag::Int => Ok(Ty::Int),
        TypeTag::Char => Ok(Ty::Char),
        TypeTag::Str => Ok(Ty::Str),
        TypeTag::Blob => Ok(Ty::Blob),
        TypeTag::Host => Ok(Ty::Host),
        TypeTag::Dev => Ok(Ty::Dev),
        TypeTag::Chunk => Ok(Ty::Chunk),
        TypeTag::List => {
            let item = type_of(alloc, s, room - 1)?;
            Ok(Ty::List(Boxed::new(alloc, item)?))
        }
        TypeTag::Tuple => {
            let count = s.count(Limit::Parts, 2, 8)?;
            Ok(Ty::Tuple(types_of(alloc, s, room - 1, count)?))
        }
    }
}

/// So many types.
#[cycle(types)]
pub fn types_of(alloc: Global, s: &mut Source<'_>, room: u32, count: u8) -> Result<Tys, SpellFault>
    ensures { Gives result s.new (many (type_at room) count s.old) }
{
    let mut types = Items::new(alloc);
    for _i in 0..count {
        let t = type_of(alloc, s, room)?;
        types.add(t)?;
    }
    Ok(types)
}
