// Values and arguments as they are read, and why texts are none.

use crate::texts::{add, value};
use plan_base::{Limit, Ty, Value};
use plan_lexer::{LexFault, Symbol};
use plan_parser::{ValueFault, parse_args, parse_value};
use plan_parser_exprs::{ParseFault, Wanted};
use program_text::read_args;
use std::alloc::Global;

/// A text, and the refusal of its tokens.
type Token = (&'static str, LexFault);

/// A text, and the refusal of what its tokens are.
type Row = (&'static str, ParseFault);

// Texts of which no token can be read.
static TOKENS: [Token; 6] = [
    ("$", LexFault::BadChar(0)),
    ("'\\q'", LexFault::BadChar(0)),
    ("(*", LexFault::OpenComment(0)),
    ("\"a", LexFault::OpenString(0)),
    ("9223372036854775808", LexFault::NumberTooLarge(0)),
    ("abcdefghijklmnopqrstuvwxyz0123456", LexFault::LongName(0)),
];

static VALUES: [Row; 19] = [
    ("", ParseFault::Expected(Wanted::AValue, 0)),
    (
        "(]",
        ParseFault::Expected(Wanted::Symbol(Symbol::ParenClose), 1),
    ),
    (
        "(1 2",
        ParseFault::Expected(Wanted::Symbol(Symbol::Comma), 3),
    ),
    (
        "(1, 2 3",
        ParseFault::Expected(Wanted::Symbol(Symbol::ParenClose), 6),
    ),
    ("(1,]", ParseFault::Expected(Wanted::AValue, 3)),
    (
        "(1,1,1,1,1,1,1,1,)",
        ParseFault::Expected(Wanted::AValue, 17),
    ),
    (
        "[1 2",
        ParseFault::Expected(Wanted::Symbol(Symbol::BracketClose), 3),
    ),
    ("[1,]", ParseFault::Expected(Wanted::AValue, 3)),
    (
        "[:int 1",
        ParseFault::Expected(Wanted::Symbol(Symbol::BracketClose), 6),
    ),
    ("[:1", ParseFault::Expected(Wanted::AType, 2)),
    (
        "[:(int",
        ParseFault::Expected(Wanted::Symbol(Symbol::ParenClose), 6),
    ),
    ("[:(int*)", ParseFault::Expected(Wanted::AType, 7)),
    ("[[[[[[[(1, 2)]]]]]]]", ParseFault::TooDeep(7)),
    (
        "(1)",
        ParseFault::Expected(Wanted::Symbol(Symbol::Comma), 2),
    ),
    ("[]", ParseFault::Expected(Wanted::AValue, 1)),
    ("[1, true]", ParseFault::Expected(Wanted::AValue, 4)),
    ("<chunk f 3>", ParseFault::Expected(Wanted::AValue, 0)),
    ("[[[[[[[[1]]]]]]]]", ParseFault::TooDeep(7)),
    ("1 2", ParseFault::Expected(Wanted::AValue, 2)),
];

static ARGUMENTS: [Row; 16] = [
    (
        "1",
        ParseFault::Expected(Wanted::Symbol(Symbol::ParenOpen), 0),
    ),
    (
        "(]",
        ParseFault::Expected(Wanted::Symbol(Symbol::ParenClose), 1),
    ),
    (
        "((1 2",
        ParseFault::Expected(Wanted::Symbol(Symbol::Comma), 4),
    ),
    (
        "([1 2",
        ParseFault::Expected(Wanted::Symbol(Symbol::BracketClose), 4),
    ),
    ("([:1", ParseFault::Expected(Wanted::AType, 3)),
    ("(1) 2", ParseFault::Expected(Wanted::AValue, 4)),
    (
        "(1,1,1,1,1,1,1,1,)",
        ParseFault::Expected(Wanted::AValue, 17),
    ),
    (
        "(1,1,1,1,1,1,1,1,1",
        ParseFault::TooMany(Limit::Arguments, 17),
    ),
    ("((1,1,1,1,1,1,1,1,1", ParseFault::TooMany(Limit::Parts, 18)),
    (
        "",
        ParseFault::Expected(Wanted::Symbol(Symbol::ParenOpen), 0),
    ),
    (
        "(",
        ParseFault::Expected(Wanted::Symbol(Symbol::ParenClose), 1),
    ),
    (
        "(1 2)",
        ParseFault::Expected(Wanted::Symbol(Symbol::ParenClose), 3),
    ),
    ("(1, )", ParseFault::Expected(Wanted::AValue, 4)),
    ("([1, true])", ParseFault::Expected(Wanted::AValue, 5)),
    (
        "(1,2,3,4,5,6,7,8,9)",
        ParseFault::TooMany(Limit::Arguments, 17),
    ),
    ("([[[[[[[[1]]]]]]]])", ParseFault::TooDeep(8)),
];

/// What stands before, a part that stands so many times, what stands behind, and the refusal.
type Long = (&'static str, &'static str, u32, &'static str, ParseFault);

// Each limit of a value's text, one past it.
static LONG_VALUES: [Long; 3] = [
    ("[1", ",1", 63, "]", ParseFault::TooMany(Limit::Items, 127)),
    ("(1", ",1", 8, ")", ParseFault::TooMany(Limit::Parts, 17)),
    ("[:int", " list", 7, "]", ParseFault::TooDeep(0)),
];

// Each kind of value.
static KINDS: [&[u8]; 12] = [
    b"()", b"true", b"false", b"~1", b"'a'", b"\"a\"", b"#\"00\"", b"@1", b"%1", b"[1]", b"[:int]",
    b"(1, 2)",
];

fn value_fault(alloc: Global, text: &[u8]) -> Option<ValueFault> {
    if text.len() > 65_536 {
        return None;
    }
    parse_value(alloc, text).err()
}

fn arguments_fault(alloc: Global, text: &[u8]) -> Option<ValueFault> {
    if text.len() > 65_536 {
        return None;
    }
    parse_args(alloc, text).err()
}

fn is_no_value(alloc: Global, text: &str, fault: ValueFault) -> bool {
    value_fault(alloc, text.as_bytes()) == Some(fault)
}

fn are_no_arguments(alloc: Global, text: &str, fault: ValueFault) -> bool {
    arguments_fault(alloc, text.as_bytes()) == Some(fault)
}

#[test]
fn each_refusal_of_a_value(rt: HostRuntime) {
    for (text, fault) in &TOKENS {
        assert!(rt; is_no_value(rt.alloc(), text, ValueFault::Lex(*fault)));
    }
    for (text, fault) in &VALUES {
        assert!(rt; is_no_value(rt.alloc(), text, ValueFault::Parse(*fault)));
    }
}

#[test]
fn each_refusal_of_arguments(rt: HostRuntime) {
    for (text, fault) in &TOKENS {
        assert!(rt; are_no_arguments(rt.alloc(), text, ValueFault::Lex(*fault)));
    }
    for (text, fault) in &ARGUMENTS {
        assert!(rt; are_no_arguments(rt.alloc(), text, ValueFault::Parse(*fault)));
    }
    let open = ValueFault::Lex(LexFault::OpenString(1));
    assert!(rt; are_no_arguments(rt.alloc(), "(\"a)", open));
}

fn is_refused(alloc: Global, text: &[u8], fault: ParseFault) -> bool {
    value_fault(alloc, text) == Some(ValueFault::Parse(fault))
}

// Whether a text that begins so, and goes on with a part so many times, is refused so.
fn is_too_long(alloc: Global, long: &Long) -> bool {
    let mut text = String::new(alloc);
    add(&mut text, long.0, 1)
        && add(&mut text, long.1, long.2)
        && add(&mut text, long.3, 1)
        && is_refused(alloc, text.as_bytes(), long.4)
}

#[test]
fn values_have_limits(rt: HostRuntime) {
    for long in &LONG_VALUES {
        assert!(rt; is_too_long(rt.alloc(), long));
    }
}

fn is_a_value(alloc: Global, text: &[u8]) -> bool {
    value(alloc, text).is_some()
}

#[test]
fn each_kind_of_value_is_read(rt: HostRuntime) {
    for text in &KINDS {
        assert!(rt; is_a_value(rt.alloc(), text));
    }
}

fn is_a_tuple(alloc: Global, text: &[u8]) -> bool {
    matches!(value(alloc, text), Some(Value::Tuple(_)))
}

fn is_a_list_of_ints(alloc: Global, text: &[u8]) -> bool {
    match value(alloc, text) {
        Some(Value::List(item, _)) => matches!(item.get(), Ty::Int),
        _ => false,
    }
}

#[test]
fn values_are_what_they_say(rt: HostRuntime) {
    assert!(rt; is_a_tuple(rt.alloc(), b"(1, [:int])"));
    assert!(rt; is_a_list_of_ints(rt.alloc(), b"[1, 2]"));
}

// Whether a text of few bytes is so many arguments, or none.
fn has_so_many(alloc: Global, text: &[u8], wanted: Option<usize>) -> bool {
    text.len() <= 100
        && match read_args(alloc, text) {
            Ok(Some(args)) => wanted == Some(args.len()),
            Ok(None) => wanted.is_none(),
            Err(_) => false,
        }
}

static COUNTS: [(&[u8], Option<usize>); 5] = [
    (b"()", Some(0)),
    (b"(5, [1, 2])", Some(2)),
    (b"(1, \"a\") (* two *)", Some(2)),
    (b"(5", None),
    (b"(\"a)", None),
];

#[test]
fn arguments_are_values_in_brackets(rt: HostRuntime) {
    for (text, wanted) in &COUNTS {
        assert!(rt; has_so_many(rt.alloc(), text, *wanted));
    }
}
