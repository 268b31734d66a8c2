//! What the tags of bytes stand for, and which may stand where.
ghost use Rattle.std.specs.Prelude.{◌≡◌};
ghost use Rattle.std.specs.Str.{is_utf8};
ghost use Rattle.chunk_codec_spec.specs.Scan.{tag_of, is_scalar};
ghost use Rattle.chunk_codec_spec.specs.Values.{may_open, opening_limit, light};

use chunk_codec_spec::ValueTag;
use plan_base::Limit;

/// The item of a table with that number, where the first has the number `base`.
pub fn item_of<T: Copy>(base: u8, items: &[T], number: u8) -> Option<T>
    ensures { result ≡ tag_of base items.now number }
{
    if number < base {
        return None;
    }
    items.get((number - base) as usize).copied()
}

/// Whether a number is a Unicode scalar.
#[tactic(auto, using(containers::proofs::Bools::not_true))]
pub fn is_char(code: u32) -> bool
    ensures { result ≡ is_scalar code }
{
    match char::from_u32(code) {
        None => false,
        Some(_) => true,
    }
}

/// Whether bytes are UTF-8.
#[tactic(auto, using(crate::proofs::Texts::text_true, crate::proofs::Texts::text_false))]
pub fn is_text(bytes: &[u8]) -> bool
    ensures { result ≡ is_utf8 bytes.now }
{
    match std::str::from_utf8(bytes) {
        Ok(_) => true,
        Err(_) => false,
    }
}

/// Whether a value of that form may stand where `nest` chunks and `room` levels may still be opened.
pub fn can_stand(nest: u32, room: u32, tag: ValueTag) -> bool
    ensures { result ≡ may_open nest room tag }
{
    match tag {
        ValueTag::Unit => true,
        ValueTag::Bool => true,
        ValueTag::Int => true,
        ValueTag::Char => true,
        ValueTag::Str => true,
        ValueTag::Blob => true,
        ValueTag::Host => true,
        ValueTag::Dev => true,
        ValueTag::Chunk => nest > 0,
        ValueTag::List => room > 0,
        ValueTag::Tuple => room > 0,
    }
}

/// The limit that a value of that form passes where it may not stand.
pub fn limit_passed(tag: ValueTag) -> Limit
    ensures { result ≡ opening_limit tag }
{
    match tag {
        ValueTag::Unit => Limit::Depth,
        ValueTag::Bool => Limit::Depth,
        ValueTag::Int => Limit::Depth,
        ValueTag::Char => Limit::Depth,
        ValueTag::Str => Limit::Depth,
        ValueTag::Blob => Limit::Depth,
        ValueTag::Host => Limit::Depth,
        ValueTag::Dev => Limit::Depth,
        ValueTag::Chunk => Limit::Nesting,
        ValueTag::List => Limit::Depth,
        ValueTag::Tuple => Limit::Depth,
    }
}

/// Whether a chunk of that size isn't too heavy where it stands.
pub fn is_light(nest: u32, size: u32) -> bool
    ensures { result ≡ light nest size }
{
    if nest == 3 { size < 16384 } else { true }
}
