// A message of 8,193 zero bytes: it is cut from a purse, and gathered note by note.

use containers::Items;
use frag_chunks::{Added, CutFault, Gather, Held, Part, cut};
use plan_base::{Bytes, Host, Value};
use remote_calls::Purse;
use service_api::Note;
use std::alloc::Global;

// Adds so many zero bytes.
fn add_zeros(bytes: &mut Bytes, count: u32) -> bool {
    for _ in 0..count {
        if bytes.add(0).is_err() {
            return false;
        }
    }
    true
}

fn have_bounds(parts: &[Part], bounds: &[u32]) -> bool {
    match (parts, bounds) {
        ([first, second], [one, other]) => first.bound == *one && second.bound == *other,
        _ => false,
    }
}

// Whether a message is cut with bound 11 into parts with these bounds, or a purse that holds less refuses it where there
// are none.
fn is_cut(alloc: Global, purse: &mut Purse, message: &Bytes, bounds: &[u32]) -> bool {
    message.len() >= 1
        && message.len() <= 262_144
        && match cut(alloc, purse, 11, Host(1), 7, 5, message) {
            Ok(parts) => have_bounds(parts.as_slice(), bounds),
            Err(fault) => fault == CutFault::NoBound && bounds.is_empty(),
        }
}

// The same of a message of so many bytes, and whether the purse has so much left.
fn leaves(alloc: Global, purse: &mut Purse, count: u32, bounds: &[u32], left: u32) -> bool {
    let mut message = Bytes::new(alloc);
    add_zeros(&mut message, count) && is_cut(alloc, purse, &message, bounds) && purse.left() == left
}

#[test]
fn a_message_is_cut(rt: HostRuntime) {
    assert!(rt; leaves(rt.alloc(), &mut Purse::of(11), 8193, &[6, 5], 0));
}

#[test]
fn a_smaller_purse_stays(rt: HostRuntime) {
    assert!(rt; leaves(rt.alloc(), &mut Purse::of(10), 8193, &[], 10));
}

fn add_numbers(values: &mut Items<Value>, index: i64) -> bool {
    values.add(Value::Int(5)).is_ok()
        && values.add(Value::Int(index)).is_ok()
        && values.add(Value::Int(2)).is_ok()
}

fn add_piece(alloc: Global, values: &mut Items<Value>, count: u32) -> bool {
    let mut piece = Bytes::new(alloc);
    add_zeros(&mut piece, count) && values.add(Value::Blob(piece)).is_ok()
}

fn is_note(alloc: Global, gather: &mut Gather, note: &Note, added: Added) -> bool {
    match gather.add(alloc, note) {
        Ok(answer) => answer == added,
        Err(_) => false,
    }
}

// Whether the note for port 7 of the part with this index and so many bytes is this to a gatherer.
fn is_part(alloc: Global, gather: &mut Gather, index: i64, count: u32, added: Added) -> bool {
    let mut values = Items::new(alloc);
    add_numbers(&mut values, index)
        && add_piece(alloc, &mut values, count)
        && is_note(alloc, gather, &Note::Port(7, Value::Tuple(values)), added)
}

// Whether so many of the two parts are there, and the message has so many bytes once it is whole.
fn is_so_far(held: &Held, there: u32, size: usize) -> bool {
    match held {
        Held::Whole(5, bytes) => there == 2 && bytes.len() == size,
        Held::Missing(5, now, 2) => *now == there && size == 0,
        _ => false,
    }
}

fn stands(alloc: Global, gather: &Gather, there: u32, size: usize) -> bool {
    gather.len() == 1
        && match gather.held(alloc, 0) {
            Ok(held) => is_so_far(&held, there, size),
            Err(_) => false,
        }
}

// The second part, the first one, and the second one again.
fn gathers(alloc: Global, gather: &mut Gather) -> bool {
    is_part(alloc, gather, 1, 1, Added::Kept)
        && stands(alloc, gather, 1, 0)
        && is_part(alloc, gather, 0, 8192, Added::Kept)
        && stands(alloc, gather, 2, 8193)
        && is_part(alloc, gather, 1, 1, Added::Again)
        && stands(alloc, gather, 2, 8193)
}

fn are_gathered(alloc: Global) -> bool {
    match Gather::new(alloc, 7) {
        Ok(mut gather) => gathers(alloc, &mut gather),
        Err(_) => false,
    }
}

#[test]
fn parts_are_gathered(rt: HostRuntime) {
    assert!(rt; are_gathered(rt.alloc()));
}

// Whether a gatherer doesn't know the first part, and has no key then.
fn knows_no_part(alloc: Global, gather: &mut Gather) -> bool {
    is_part(alloc, gather, 0, 8192, Added::Stranger) && gather.len() == 0
}

fn is_stranger(alloc: Global) -> bool {
    match Gather::new(alloc, 8) {
        Ok(mut gather) => knows_no_part(alloc, &mut gather),
        Err(_) => false,
    }
}

#[test]
fn notes_for_another_port_are_strangers(rt: HostRuntime) {
    assert!(rt; is_stranger(rt.alloc()));
}
