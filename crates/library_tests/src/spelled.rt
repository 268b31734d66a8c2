// Spellings: where the reading of one stops, how large what was read is, and that its copy is equal to it.

use chunk_codec::{
    SpellFault, get_chunk, get_name, get_program, get_type, get_value, put_name, put_type,
    put_value,
};
use plan_base::{Chunk, Family, Host, Limit, Name, Packet, Ty, Value};
use plan_base_copy::TryClone;
use plan_base_eq::SameAs;
use plan_base_size::{HasDepth, chunk_nesting, chunk_weight, nesting, type_size, weight};
use std::alloc::Global;
use wire_bytes::{Cursor, Out};

// The chunk of one function that gives unit, and what follows it.
static CHUNK: &[u8] = b"\x00\x00\x01\x01\x66\x00\x00\x20\x01\x66\x00\xff";

// The same with itself as an argument.
static OUTER: &[u8] =
    b"\x00\x00\x01\x01\x66\x00\x00\x20\x01\x66\x01\x18\x00\x00\x01\x01\x66\x00\x00\x20\x01\x66\x00";

fn chunk(alloc: Global, bytes: &[u8]) -> Option<Chunk> {
    if bytes.len() >= 4_000_000 {
        return None;
    }
    get_chunk(alloc, &mut Cursor::over(bytes)).ok()
}

// Whether so many bytes of these are a chunk.
fn chunk_stops(alloc: Global, bytes: &[u8], at: u32) -> bool {
    if bytes.len() >= 4_000_000 {
        return false;
    }
    let mut cursor = Cursor::over(bytes);
    get_chunk(alloc, &mut cursor).is_ok() && cursor.at() == at
}

#[test]
fn what_follows_a_chunk_is_left(rt: HostRuntime) {
    assert!(rt; chunk_stops(rt.alloc(), CHUNK, 11));
}

// Whether so many bytes of these are a program of one function.
fn program_stops(alloc: Global, bytes: &[u8], at: u32) -> bool {
    if bytes.len() >= 4_000_000 {
        return false;
    }
    let mut cursor = Cursor::over(bytes);
    match get_program(alloc, &mut cursor) {
        Ok(program) => program.funs.len() == 1 && cursor.at() == at,
        Err(_) => false,
    }
}

#[test]
fn what_follows_a_program_is_left(rt: HostRuntime) {
    assert!(rt; program_stops(rt.alloc(), CHUNK, 8));
}

fn chunk_has(alloc: Global, bytes: &[u8], weight: u64, nesting: u32) -> bool {
    match chunk(alloc, bytes) {
        Some(c) => chunk_weight(&c) == weight && chunk_nesting(&c) == nesting,
        None => false,
    }
}

#[test]
fn a_chunk_nests_one_more_than_its_arguments(rt: HostRuntime) {
    assert!(rt; chunk_has(rt.alloc(), OUTER, 23, 2));
}

// A packet with this route and this chunk.
fn packet(alloc: Global, route: &[u8], bytes: &[u8]) -> Option<Packet> {
    let family = Family {
        source: Host(1),
        serial: 2,
    };
    let route = Name::read(alloc, route).ok()?;
    let chunk = chunk(alloc, bytes)?;
    Some(Packet {
        family,
        dest: Host(3),
        bound: 4,
        route,
        chunk,
        handler: None,
    })
}

fn packet_equals_its_copy(alloc: Global, packet: &Packet) -> bool {
    match packet.copy(alloc) {
        Ok(same) => same.chunk.is(&packet.chunk) && same.bound == 4,
        Err(_) => false,
    }
}

fn packet_is_copied(alloc: Global, route: &[u8], bytes: &[u8]) -> bool {
    match packet(alloc, route, bytes) {
        Some(packet) => packet_equals_its_copy(alloc, &packet),
        None => false,
    }
}

#[test]
fn a_packet_is_copied_whole(rt: HostRuntime) {
    assert!(rt; packet_is_copied(rt.alloc(), b"defaultRoute", CHUNK));
}

fn type_equals_its_copy(alloc: Global, ty: &Ty) -> bool {
    match ty.copy(alloc) {
        Ok(same) => same.is(ty),
        Err(_) => false,
    }
}

// Whether bytes are a type of this depth and this size, whose copy is equal to it.
fn type_has(alloc: Global, bytes: &[u8], depth: u32, size: u64) -> bool {
    if bytes.len() >= 4_000_000 {
        return false;
    }
    match get_type(alloc, &mut Cursor::over(bytes)) {
        Ok(ty) => {
            ty.depth() == depth && type_size(&ty) == size && type_equals_its_copy(alloc, &ty)
        }
        Err(_) => false,
    }
}

// `(host * dev list)`
#[test]
fn a_type_is_as_deep_as_its_parts_and_one_more(rt: HostRuntime) {
    assert!(rt; type_has(rt.alloc(), b"\x0a\x02\x06\x09\x07", 3, 5));
}

// Puts a part behind bytes, so many times.
fn add(bytes: &mut Vec<u8>, part: &[u8], times: u32) -> bool {
    for _ in 0..times {
        if bytes.extend_from_slice(part).is_err() {
            return false;
        }
    }
    true
}

// Whether bytes are a value that weighs so much and nests no chunk.
fn weighs(alloc: Global, bytes: &[u8], wanted: u64) -> bool {
    if bytes.len() >= 4_000_000 {
        return false;
    }
    match get_value(alloc, &mut Cursor::over(bytes)) {
        Ok(value) => weight(&value) == wanted && nesting(&value) == 0,
        Err(_) => false,
    }
}

// The same of a string of so many letters, behind its tag and its length.
fn string_weighs(alloc: Global, front: &[u8], letters: u32, wanted: u64) -> bool {
    let mut bytes = Vec::new(alloc);
    add(&mut bytes, front, 1)
        && add(&mut bytes, b"x", letters)
        && weighs(alloc, bytes.as_slice(), wanted)
}

#[test]
fn a_string_weighs_three_more_than_its_bytes(rt: HostRuntime) {
    assert!(rt; string_weighs(rt.alloc(), b"\x14\x3f\xfd", 16_381, 16_384));
}

// A chunk as a value, up to its one argument.
static AROUND: &[u8] = b"\x18\x00\x00\x01\x01\x66\x00\x00\x20\x01\x66\x01";

// A chunk as a value, without arguments.
static INSIDE: &[u8] = b"\x18\x00\x00\x01\x01\x66\x00\x00\x20\x01\x66\x00";

// Whether bytes are read as a value, or refused so.
fn is_answered(alloc: Global, bytes: &[u8], fault: Option<SpellFault>) -> bool {
    bytes.len() < 4_000_000 && get_value(alloc, &mut Cursor::over(bytes)).err() == fault
}

// Chunks that stand inside each other, as a value that is read for itself: so many around one more.
fn nested_is(alloc: Global, count: u32, fault: Option<SpellFault>) -> bool {
    let mut bytes = Vec::new(alloc);
    add(&mut bytes, AROUND, count)
        && add(&mut bytes, INSIDE, 1)
        && is_answered(alloc, bytes.as_slice(), fault)
}

// Four chunks stand inside each other; the tag of a fifth is refused.
#[test]
fn nesting_of_chunks(rt: HostRuntime) {
    assert!(rt; nested_is(rt.alloc(), 3, None));
    let fifth = SpellFault::OverLimit(Limit::Nesting, 48);
    assert!(rt; nested_is(rt.alloc(), 4, Some(fifth)));
}

// Whether a name is read up to a place, and another one behind it is refused there.
fn second_is_refused(alloc: Global, bytes: &[u8], at: u32) -> bool {
    if bytes.len() >= 4_000_000 {
        return false;
    }
    let mut cursor = Cursor::over(bytes);
    get_name(alloc, &mut cursor).is_ok()
        && cursor.at() == at
        && get_name(alloc, &mut cursor).err() == Some(SpellFault::BadName(at))
        && cursor.at() == at
}

// The name of the routing function that every node has, and one that is reserved.
#[test]
fn names(rt: HostRuntime) {
    assert!(rt; second_is_refused(rt.alloc(), b"\x0cdefaultRoute\x02if", 13));
}

// Whether a name, a type and a value, one behind the other, are these bytes.
#[tactic(auto, using(chunk_codec::proofs::Puts::types, chunk_codec::proofs::Puts::values))]
fn are_written(alloc: Global, name: &Name, wanted: &[u8]) -> bool {
    if name.as_slice().len() > 32 {
        return false;
    }
    match Out::with_room(alloc, 64) {
        Ok(mut out) => {
            put_name(name, &mut out);
            put_type(&Ty::Host, &mut out);
            put_value(&Value::Int(-2), &mut out);
            out.into_vec().as_slice() == wanted
        }
        Err(_) => false,
    }
}

fn are_written_behind(alloc: Global, word: &[u8], wanted: &[u8]) -> bool {
    match Name::read(alloc, word) {
        Ok(name) => are_written(alloc, &name, wanted),
        Err(_) => false,
    }
}

#[test]
fn one_after_another(rt: HostRuntime) {
    let wanted = b"\x02go\x06\x12\xff\xff\xff\xff\xff\xff\xff\xfe";
    assert!(rt; are_written_behind(rt.alloc(), b"go", wanted));
}
