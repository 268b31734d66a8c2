// Programs, types and values as they print.

use crate::texts::{add, draft, program, value};
use plan_base::{Bytes, Draft, Program, Value};
use plan_printer::{print_program, print_value};
use std::alloc::Global;

// Whether a program prints so.
fn says(alloc: Global, program: &Program, wanted: &[u8]) -> bool {
    let mut out = Bytes::new(alloc);
    print_program(alloc, program, &mut out).is_ok() && out.as_slice() == wanted
}

// Whether a text prints so, once it is read.
fn prints_as(alloc: Global, text: &[u8], wanted: &[u8]) -> bool {
    match program(alloc, text) {
        Some(program) => says(alloc, program.program(), wanted),
        None => false,
    }
}

/// A program, and how it prints.
type Printed = (&'static [u8], &'static [u8]);

// A `let` of two values, a `raise` without and with its type, a clause with a name, a char and a text that are escaped.
static PRINTED: [Printed; 6] = [
    (
        b"fun f() : int = let val x : int = 1 val y : int = 2 in x end",
        b"fun f() : int = let val x : int = 1 in let val y : int = 2 in x end end\n",
    ),
    (
        b"fun f() : int = raise Empty",
        b"fun f() : int = raise[:int] Empty\n",
    ),
    (
        b"fun f() : int = raise[:int] Empty",
        b"fun f() : int = raise[:int] Empty\n",
    ),
    (
        b"fun f() : int = try 1 handle Empty => 2 | _ => 3 end",
        b"fun f() : int = try 1 handle Empty => 2 | _ => 3 end\n",
    ),
    (
        b"fun f() : int = if 'a' = '\\t' then 1 else 2",
        b"fun f() : int = (if ('a' = '\\t') then 1 else 2)\n",
    ),
    (
        b"fun f() : int = if \"\\t\\r\" = \"a\" then 1 else 2",
        b"fun f() : int = (if (\"\\t\\r\" = \"a\") then 1 else 2)\n",
    ),
];

#[test]
fn forms_with_more_parts_are_printed(rt: HostRuntime) {
    for (text, wanted) in &PRINTED {
        assert!(rt; prints_as(rt.alloc(), text, wanted));
    }
}

/// What stands before and behind each level.
type Nest = (&'static str, &'static str);

// Packets that are sent inside the host, the number and the device of others.
static SENDS: [Nest; 5] = [
    ("OnRemote(|g|(), (", "; @1), 1, defaultRoute)"),
    ("OnRemote(|g|(), @1, (", "; 1), defaultRoute)"),
    ("OnNeighbor(|g|(), (", "; @1), 1, %0)"),
    ("OnNeighbor(|g|(), @1, (", "; 1), %0)"),
    ("OnNeighbor(|g|(), @1, 1, (", "; %0))"),
];

// 31 levels around `()`.
fn add_nest(text: &mut String, nest: &Nest) -> bool {
    add(text, "fun g() : unit = ()\nfun f() : unit = ", 1)
        && add(text, nest.0, 31)
        && add(text, "()", 1)
        && add(text, nest.1, 31)
}

fn is_longer(alloc: Global, program: &Program, length: usize) -> bool {
    let mut out = Bytes::new(alloc);
    print_program(alloc, program, &mut out).is_ok() && out.len() > length
}

fn prints_longer(alloc: Global, text: &[u8]) -> bool {
    match program(alloc, text) {
        Some(program) => is_longer(alloc, program.program(), text.len()),
        None => false,
    }
}

fn nest_prints_longer(alloc: Global, nest: &Nest) -> bool {
    let mut text = String::new(alloc);
    add_nest(&mut text, nest) && prints_longer(alloc, text.as_bytes())
}

// Were a part measured twice at each level, this would never end.
#[test]
fn sends_inside_each_other_are_printed(rt: HostRuntime) {
    for nest in &SENDS {
        assert!(rt; nest_prints_longer(rt.alloc(), nest));
    }
}

static OPERATORS: &[u8] =
    b"exception Lost\nfun f(x : int) : int = (if (x < 1) then (0 - x) else (x * 2))\n";

static TYPES: &[u8] = b"svc s : ((int * bool list) list) -> unit\nfun f() : unit = ()\n";

#[test]
fn programs_and_types_print_as_they_are_read(rt: HostRuntime) {
    assert!(rt; prints_as(rt.alloc(), OPERATORS, OPERATORS));
    assert!(rt; prints_as(rt.alloc(), TYPES, TYPES));
}

fn draft_prints_as(alloc: Global, text: &[u8]) -> bool {
    match draft(alloc, text) {
        Some(draft) => says(alloc, &draft.program, text),
        None => false,
    }
}

#[test]
fn drafts_print_as_they_are_read(rt: HostRuntime) {
    assert!(rt; draft_prints_as(rt.alloc(), OPERATORS));
}

fn value_says(alloc: Global, value: &Value, wanted: &[u8]) -> bool {
    let mut out = Bytes::new(alloc);
    print_value(alloc, value, &mut out).is_ok() && out.as_slice() == wanted
}

fn value_prints_as(alloc: Global, text: &[u8]) -> bool {
    match value(alloc, text) {
        Some(value) => value_says(alloc, &value, text),
        None => false,
    }
}

#[test]
fn values_print_as_they_are_read(rt: HostRuntime) {
    let text = b"([1, ~2], [:chunk], \"a\\n\\\"\\x7f\", '\\'')";
    assert!(rt; value_prints_as(rt.alloc(), text));
}

fn stand_at(draft: &Draft, declared: &[u32], places: &[u32]) -> bool {
    draft.decl_at.as_slice() == declared && draft.node_at.as_slice() == places
}

// Whether the declarations and the expressions of a text stand at these places.
fn has_places(alloc: Global, text: &[u8], declared: &[u32], places: &[u32]) -> bool {
    match draft(alloc, text) {
        Some(draft) => stand_at(&draft, declared, places),
        None => false,
    }
}

#[test]
fn printed_operators_have_the_places_of_their_left_operands(rt: HostRuntime) {
    let text = b"fun f(x : int) : int = (if (x < 1) then (0 - x) else (x * 2))";
    let places = [24, 28, 28, 32, 41, 41, 45, 54, 54, 58];
    assert!(rt; has_places(rt.alloc(), text, &[0], &places));
}
