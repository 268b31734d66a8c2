// Copies are equal to what they are copies of, and to nothing else; names are words that aren't reserved.

use crate::texts::{draft, program, value};
use plan_base::{Draft, Name, Program, Value};
use plan_base_copy::TryClone;
use plan_base_eq::SameAs;
use std::alloc::Global;

fn equals_its_copy(alloc: Global, program: &Program) -> bool {
    match program.copy(alloc) {
        Ok(same) => same.is(program),
        Err(_) => false,
    }
}

// Whether the program of a text equals its copy.
fn is_copied(alloc: Global, text: &[u8]) -> bool {
    match program(alloc, text) {
        Some(program) => equals_its_copy(alloc, program.program()),
        None => false,
    }
}

fn is_another(alloc: Global, text: &[u8], other: &Program) -> bool {
    match program(alloc, text) {
        Some(program) => !program.program().is(other),
        None => false,
    }
}

fn differ(alloc: Global, one: &[u8], other: &[u8]) -> bool {
    match program(alloc, other) {
        Some(other) => is_another(alloc, one, other.program()),
        None => false,
    }
}

static COMPARES: &[u8] = b"fun f(x : int list) : bool = x = []";

static SENDS: &[u8] = b"fun f() : unit = OnNeighbor(|f|(), @2, 1, %1)";

// A service, exceptions and clauses.
static DECLARES: &[u8] =
    b"svc print : (string) -> unit exception X fun f() : bool = try raise X handle NoBound => true | _ => false end";

#[test]
fn programs_equal_their_copies_and_no_others(rt: HostRuntime) {
    assert!(rt; is_copied(rt.alloc(), COMPARES));
    assert!(rt; is_copied(rt.alloc(), SENDS));
    assert!(rt; is_copied(rt.alloc(), DECLARES));
    assert!(rt; differ(rt.alloc(), COMPARES, SENDS));
}

fn value_equals_its_copy(alloc: Global, value: &Value) -> bool {
    match value.copy(alloc) {
        Ok(same) => same.is(value),
        Err(_) => false,
    }
}

fn is_another_value(alloc: Global, text: &[u8], than: &Value) -> bool {
    match value(alloc, text) {
        Some(other) => !than.is(&other),
        None => false,
    }
}

fn value_is_copied(alloc: Global, text: &[u8], other: &[u8]) -> bool {
    match value(alloc, text) {
        Some(value) => {
            value_equals_its_copy(alloc, &value) && is_another_value(alloc, other, &value)
        }
        None => false,
    }
}

#[test]
fn a_value_equals_its_copy_and_no_other(rt: HostRuntime) {
    assert!(rt; value_is_copied(rt.alloc(), b"[#\"0102\"]", b"()"));
}

fn draft_equals_its_copy(alloc: Global, draft: &Draft) -> bool {
    match draft.copy(alloc) {
        Ok(same) => { same.program.is(&draft.program) && same.decl_at.len() == draft.decl_at.len() }
        Err(_) => false,
    }
}

fn draft_is_copied(alloc: Global, text: &[u8]) -> bool {
    match draft(alloc, text) {
        Some(draft) => draft_equals_its_copy(alloc, &draft),
        None => false,
    }
}

#[test]
fn a_draft_is_copied_whole(rt: HostRuntime) {
    assert!(rt; draft_is_copied(rt.alloc(), SENDS));
}

fn is_name(alloc: Global, word: &[u8]) -> bool {
    Name::read(alloc, word).is_ok()
}

static NAMES: [&[u8]; 4] = [
    b"f",
    b"OnRemotely",
    b"a_1",
    b"abcdefghijklmnopqrstuvwxyz123456",
];

static NO_NAMES: [&[u8]; 7] = [
    b"",
    b"1a",
    b"_a",
    b"a-b",
    b"val",
    b"OnRemote",
    b"abcdefghijklmnopqrstuvwxyz1234567",
];

#[test]
fn names_are_words_that_are_not_reserved(rt: HostRuntime) {
    for word in &NAMES {
        assert!(rt; is_name(rt.alloc(), word));
    }
    for word in &NO_NAMES {
        assert!(rt; !is_name(rt.alloc(), word));
    }
}
