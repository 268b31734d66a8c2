// Programs with each form inside itself as deep as it may be: they are checked, printed, read again, sent and received.
// Where a walk were made twice at each level, none of these would ever end.

use crate::texts::{add, program};
use checked_chunks::{Checked, CheckedChunk};
use containers::Items;
use packet_frame::{Frame, get_frame, put_ask};
use plan_base::{Bytes, Name};
use plan_printer::print_program;
use plan_types_chunks::chunk_of;
use std::alloc::Global;

/// What stands before all and how often; before and behind each level; inside the last; behind all.
type Nest = (
    &'static str,
    u32,
    &'static str,
    &'static str,
    &'static str,
    &'static str,
);

fn add_nest(text: &mut String, nest: &Nest) -> bool {
    let times = nest.1;
    add(text, nest.0, 1)
        && add(text, nest.2, times)
        && add(text, nest.4, 1)
        && add(text, nest.3, times)
        && add(text, nest.5, 1)
}

// Whether a text is a program.
fn is_read(alloc: Global, text: &[u8]) -> bool {
    program(alloc, text).is_some()
}

// Whether a program prints as one.
fn is_printed(alloc: Global, program: &Checked) -> bool {
    let mut out = Bytes::new(alloc);
    print_program(alloc, program.program(), &mut out).is_ok() && is_read(alloc, out.as_slice())
}

fn arrives(alloc: Global, bytes: &[u8]) -> bool {
    matches!(get_frame(alloc, bytes, None), Ok(Frame::Ask(5, _)))
}

fn chunk_arrives(alloc: Global, chunk: &CheckedChunk) -> bool {
    match put_ask(alloc, 5, chunk) {
        Ok(bytes) => arrives(alloc, bytes.as_slice()),
        Err(_) => false,
    }
}

fn call_arrives(alloc: Global, program: &Checked, entry: &Name) -> bool {
    match chunk_of(alloc, program, entry, Items::new(alloc)) {
        Ok(chunk) => chunk_arrives(alloc, &chunk),
        Err(_) => false,
    }
}

// Whether a program that is sent with the entry `f` without arguments arrives.
fn is_sent(alloc: Global, program: &Checked) -> bool {
    match Name::read(alloc, b"f") {
        Ok(entry) => call_arrives(alloc, program, &entry),
        Err(_) => false,
    }
}

// Whether a text is a program that prints as one, and that arrives where it is sent.
fn passes(alloc: Global, text: &[u8]) -> bool {
    match program(alloc, text) {
        Some(program) => is_printed(alloc, &program) && is_sent(alloc, &program),
        None => false,
    }
}

fn nest_passes(alloc: Global, nest: &Nest) -> bool {
    let mut text = String::new(alloc);
    add_nest(&mut text, nest) && passes(alloc, text.as_bytes())
}

static BRANCHES: [Nest; 13] = [
    (
        "fun f() : bool = ",
        63,
        "if ",
        " then true else false",
        "true",
        "",
    ),
    ("fun f() : int = ", 63, "if true then ", " else 1", "1", ""),
    ("fun f() : int = ", 63, "if true then 1 else ", "", "1", ""),
    (
        "fun f() : bool = (",
        62,
        "if true then ",
        " else 1",
        "1",
        ") = 1",
    ),
    (
        "fun f() : bool = (",
        62,
        "if true then 1 else ",
        "",
        "1",
        ") = 1",
    ),
    (
        "fun f() : int = ",
        63,
        "let val x : int = ",
        " in x end",
        "1",
        "",
    ),
    (
        "fun f() : int = ",
        63,
        "let val x : int = 1 in ",
        " end",
        "x",
        "",
    ),
    ("fun f() : unit = ", 63, "(); ", "", "()", ""),
    ("fun f() : unit = ", 63, "(", "; ())", "()", ""),
    (
        "fun f() : int = ",
        63,
        "try ",
        " handle _ => 1 end",
        "1",
        "",
    ),
    (
        "fun f() : int = ",
        63,
        "try 1 handle _ => ",
        " end",
        "1",
        "",
    ),
    (
        "fun f() : bool = (",
        62,
        "try ",
        " handle _ => 1 end",
        "1",
        ") = 1",
    ),
    (
        "fun f() : bool = (",
        62,
        "try 1 handle _ => ",
        " end",
        "1",
        ") = 1",
    ),
];

#[test]
fn branches_inside_each_other(rt: HostRuntime) {
    for nest in &BRANCHES {
        assert!(rt; nest_passes(rt.alloc(), nest));
    }
}

static OPERATORS: [Nest; 14] = [
    ("fun f() : bool = ", 63, "not ", "", "true", ""),
    ("fun f() : bool = ", 63, "true and (", ")", "true", ""),
    ("fun f() : bool = ", 63, "", " and true", "true", ""),
    ("fun f() : bool = ", 63, "true or (", ")", "true", ""),
    ("fun f() : bool = ", 63, "", " or true", "true", ""),
    ("fun f() : int = ", 63, "1 + (", ")", "1", ""),
    ("fun f() : int = ", 63, "", " * 1", "1", ""),
    ("fun f() : string = ", 63, "\"\" ^ (", ")", "\"\"", ""),
    ("fun f() : bool = ", 63, "true = (", ")", "true", ""),
    ("fun f() : bool = ", 63, "(", ") <> true", "true", ""),
    ("fun f() : int list = ", 63, "1 :: ", "", "[]", ""),
    ("fun f() : int = ", 31, "#1 (", ", 1)", "1", ""),
    ("fun f() : int = ", 31, "hd([", "])", "1", ""),
    ("fun f() : blob = ", 63, "blobPart(", ", 0, 0)", "#\"\"", ""),
];

#[test]
fn operators_inside_each_other(rt: HostRuntime) {
    for nest in &OPERATORS {
        assert!(rt; nest_passes(rt.alloc(), nest));
    }
}

static CALLS_AND_TYPES: [Nest; 10] = [
    (
        "fun g(x : int) : int = x fun f() : int = ",
        63,
        "g(",
        ")",
        "1",
        "",
    ),
    (
        "fun g(a : int, b : int) : int = a fun f() : int = ",
        63,
        "foldl(g, ",
        ", [])",
        "1",
        "",
    ),
    (
        "fun g(a : int, b : int list) : int list = b fun f() : int list = ",
        63,
        "foldr(g, [], ",
        ")",
        "[]",
        "",
    ),
    (
        "fun g(c : chunk) : unit = () fun h() : unit = () fun f() : chunk = ",
        63,
        "|g|(",
        ")",
        "|h|()",
        "",
    ),
    (
        "fun g(x : unit) : unit = () fun f() : unit = ",
        31,
        "eval(|g|(",
        "))",
        "()",
        "",
    ),
    (
        "fun g(x : unit) : unit = () fun f() : unit = ",
        31,
        "OnRemote(|g|(",
        "), @1, 1, defaultRoute)",
        "()",
        "",
    ),
    (
        "fun g(x : unit) : unit = () fun f() : unit = ",
        31,
        "OnNeighbor(|g|(",
        "), @1, 1, %0)",
        "()",
        "",
    ),
    (
        "fun g(y : int",
        7,
        "",
        " list",
        "",
        ") : unit = () fun f() : unit = ()",
    ),
    (
        "fun g(y : ",
        7,
        "(int * ",
        ")",
        "int",
        ") : unit = () fun f() : unit = ()",
    ),
    (
        "svc s : (",
        7,
        "(",
        ") list",
        "int",
        ") -> unit fun f() : unit = ()",
    ),
];

#[test]
fn calls_and_types_inside_each_other(rt: HostRuntime) {
    for nest in &CALLS_AND_TYPES {
        assert!(rt; nest_passes(rt.alloc(), nest));
    }
}
