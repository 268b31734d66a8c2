//! How primitives, functions and services are found by their names.

ghost use Rattle.std.specs.Prelude.{◌≡◌, length, option_copied};
ghost use Rattle.plan_types_spec.specs.TypingNames as spec;

use plan_base::{Fun, Name, Primitive, Svc, same_bytes};

/// The primitive of a name of two letters.
#[tactic(auto, using(crate::proofs::ByLength::is_hd, crate::proofs::ByLength::is_tl, crate::proofs::ByLength::none_of_two))]
fn short_primitive(name: &[u8]) -> Option<Primitive>
    requires { length name.now ≡ 2 }
    ensures { result ≡ spec.prim_of name.now }
{
    if same_bytes(name, b"hd".as_slice()) {
        return Some(Primitive::Hd);
    }
    if same_bytes(name, b"tl".as_slice()) {
        return Some(Primitive::Tl);
    }
    None
}

/// The primitive of a name of six letters.
#[tactic(auto, using(crate::proofs::ByLength::is_length, crate::proofs::ByLength::none_of_six))]
fn middle_primitive(name: &[u8]) -> Option<Primitive>
    requires { length name.now ≡ 6 }
    ensures { result ≡ spec.prim_of name.now }
{
    if same_bytes(name, b"length".as_slice()) {
        return Some(Primitive::Length);
    }
    None
}

/// The primitive of a name, which is compared with each.
#[tactic(auto, unfolding(crate::specs::TypingNames::prim_of))]
fn any_primitive(name: &[u8]) -> Option<Primitive>
    ensures { result ≡ spec.prim_of name.now }
{
    if same_bytes(name, b"hd".as_slice()) {
        Some(Primitive::Hd)
    } else if same_bytes(name, b"tl".as_slice()) {
        Some(Primitive::Tl)
    } else if same_bytes(name, b"length".as_slice()) {
        Some(Primitive::Length)
    } else if same_bytes(name, b"intToString".as_slice()) {
        Some(Primitive::IntToString)
    } else if same_bytes(name, b"hostToString".as_slice()) {
        Some(Primitive::HostToString)
    } else if same_bytes(name, b"stringToBlob".as_slice()) {
        Some(Primitive::StringToBlob)
    } else if same_bytes(name, b"blobLength".as_slice()) {
        Some(Primitive::BlobLength)
    } else if same_bytes(name, b"blobPart".as_slice()) {
        Some(Primitive::BlobPart)
    } else {
        None
    }
}

/// The primitive of that name: only a name that is as long as a primitive's is compared, and with those of its length alone where
/// it is short. Takes no memory.
#[tactic(auto, using(crate::proofs::ByLength::no_primitive))]
pub fn prim_of(name: &Name) -> Option<Primitive>
    ensures { result ≡ spec.prim_of name.now }
{
    let name = name.as_slice();
    match name.len() {
        2 => short_primitive(name),
        6 => middle_primitive(name),
        8 | 10 | 11 | 12 => any_primitive(name),
        _ => None,
    }
}

/// The place of the first function of that name. Takes no memory.
pub fn place_of(name: &Name, funs: &[Fun]) -> Option<usize>
    ensures { result ≡ spec.place_of name.now funs.now }
{
    funs.iter().position(|f| f.name.is(name))
}

/// The first declared service of that name. Takes no memory.
pub fn service_of<'a>(name: &Name, svcs: &'a [Svc]) -> Option<&'a Svc>
    ensures { option_copied result ≡ spec.service_of name.now svcs.now }
{
    svcs.iter().find(|d| d.name.is(name))
}
