// Tokens, each with what it stands for and its places.

use crate::texts::add;
use plan_lexer::{Token, TokenKind, lex};
use std::alloc::Global;
use std::fmt::Write;

/// Bytes as text, or `?` where they are none.
fn as_text(bytes: &[u8]) -> &str {
    std::str::from_utf8(bytes).unwrap_or("?")
}

fn add_text(out: &mut String, kind: &str, text: &[u8]) -> bool {
    out.push_str(kind).is_ok() && out.push_str(as_text(text)).is_ok()
}

fn add_number(out: &mut String, kind: &str, number: i64) -> bool {
    write!(out, "{kind}{number}").is_ok()
}

fn add_blob(out: &mut String, bytes: &[u8]) -> bool {
    write!(out, "blob {bytes:?}").is_ok()
}

/// A kind with what it stands for.
fn add_kind(out: &mut String, kind: &TokenKind) -> bool {
    match kind {
        TokenKind::Word(name) => add_text(out, "word ", name.as_slice()),
        TokenKind::Key(key) => add_text(out, "key ", key.text()),
        TokenKind::Int(number) => add_number(out, "int ", *number),
        TokenKind::Host(number) => add_number(out, "host ", *number as i64),
        TokenKind::Dev(number) => add_number(out, "dev ", *number as i64),
        TokenKind::Part(number) => add_number(out, "part ", *number as i64),
        TokenKind::Char(code) => add_number(out, "char ", *code as i64),
        TokenKind::Str(text) => add_text(out, "string ", text.as_slice()),
        TokenKind::Blob(bytes) => add_blob(out, bytes.as_slice()),
        TokenKind::Symbol(symbol) => add_text(out, "symbol ", symbol.text()),
    }
}

fn add_places(out: &mut String, start: u32, stop: u32) -> bool {
    write!(out, " {start}-{stop};").is_ok()
}

/// Tokens, each with its places.
fn add_tokens(out: &mut String, tokens: &[Token]) -> bool {
    for token in tokens {
        if !add_kind(out, &token.kind) || !add_places(out, token.start, token.stop) {
            return false;
        }
    }
    true
}

fn are(alloc: Global, tokens: &[Token], wanted: &str) -> bool {
    let mut out = String::new(alloc);
    add_tokens(&mut out, tokens) && out.as_str() == wanted
}

/// Whether a text has these tokens.
fn is_read(alloc: Global, text: &[u8], wanted: &str) -> bool {
    text.len() <= 65_536
        && match lex(alloc, text) {
            Ok(tokens) => are(alloc, tokens.as_slice(), wanted),
            Err(_) => false,
        }
}

/// A text and its tokens.
type Read = (&'static [u8], &'static str);

/// Nothing, words and numbers.
static WORDS_AND_NUMBERS: [Read; 14] = [
    (b"", ""),
    (b" \t\r\n", ""),
    (b"a", "word a 0-1;"),
    (b"a_1 B", "word a_1 0-3;word B 4-5;"),
    (
        b"abcdefghijklmnopqrstuvwxyz012345",
        "word abcdefghijklmnopqrstuvwxyz012345 0-32;",
    ),
    (b"if iff If", "key if 0-2;word iff 3-6;word If 7-9;"),
    (
        b"OnNeighbor OnRemote string",
        "key OnNeighbor 0-10;key OnRemote 11-19;key string 20-26;",
    ),
    (
        b"0 007 9223372036854775807",
        "int 0 0-1;int 7 2-5;int 9223372036854775807 6-25;",
    ),
    (
        b"~9223372036854775808 ~0 ~1",
        "int -9223372036854775808 0-20;int 0 21-23;int -1 24-26;",
    ),
    (
        b"@0 @4294967295 %4294967295",
        "host 0 0-2;host 4294967295 3-14;dev 4294967295 15-26;",
    ),
    (b"#1 #8 #01", "part 1 0-2;part 8 3-5;part 1 6-9;"),
    (b"1a", "int 1 0-1;word a 1-2;"),
    (b"1~2", "int 1 0-1;int -2 1-3;"),
    (b"#1\"\"", "part 1 0-2;string  2-4;"),
];

/// Strings, chars and blobs.
static TEXTS: [Read; 11] = [
    (b"\"\"", "string  0-2;"),
    (b"\"a'b\"", "string a'b 0-5;"),
    (b"\"\\n\\t\\r\\\"\\'\\\\\"", "string \n\t\r\"'\\ 0-14;"),
    (b"\"\\x41\\x7f\\x6a\\x6A\"", "string A\x7fjj 0-18;"),
    (b"\"\xc2\x80\xdf\xbf\"", "string \u{80}\u{7ff} 0-6;"),
    (
        b"\"\xe0\xa0\x80\xef\xbf\xbf\"",
        "string \u{800}\u{ffff} 0-8;",
    ),
    (
        b"\"\xf0\x90\x80\x80\xf4\x8f\xbf\xbf\"",
        "string \u{10000}\u{10ffff} 0-10;",
    ),
    (b"'a' '\"' '\\''", "char 97 0-3;char 34 4-7;char 39 8-12;"),
    (b"'\xc3\xa9' '\\x00'", "char 233 0-4;char 0 5-11;"),
    (b"#\"\"", "blob [] 0-3;"),
    (b"#\"00fFAb\"", "blob [0, 255, 171] 0-9;"),
];

/// Symbols and comments.
static SYMBOLS_AND_COMMENTS: [Read; 13] = [
    (
        b"()[],;",
        "symbol ( 0-1;symbol ) 1-2;symbol [ 2-3;symbol ] 3-4;symbol , 4-5;symbol ; 5-6;",
    ),
    (b":::", "symbol :: 0-2;symbol : 2-3;"),
    (b"=><>", "symbol => 0-2;symbol <> 2-4;"),
    (b"<=>=<>", "symbol <= 0-2;symbol >= 2-4;symbol <> 4-6;"),
    (b"< > =", "symbol < 0-1;symbol > 2-3;symbol = 4-5;"),
    (
        b"+-*/^",
        "symbol + 0-1;symbol - 1-2;symbol * 2-3;symbol / 3-4;symbol ^ 4-5;",
    ),
    (
        b"->|_x",
        "symbol -> 0-2;symbol | 2-3;symbol _ 3-4;word x 4-5;",
    ),
    (b"(**)a", "word a 4-5;"),
    (b"(*)*)a", "word a 5-6;"),
    (b"(***)a", "word a 5-6;"),
    (b"(* (* *) \" \xff *)a", "word a 15-16;"),
    (b"((**)", "symbol ( 0-1;"),
    (b"a(*x*)b", "word a 0-1;word b 6-7;"),
];

#[test]
fn words_and_numbers_are_read(rt: HostRuntime) {
    for (text, tokens) in &WORDS_AND_NUMBERS {
        assert!(rt; is_read(rt.alloc(), text, tokens));
    }
}

#[test]
fn strings_chars_and_blobs_are_read(rt: HostRuntime) {
    for (text, tokens) in &TEXTS {
        assert!(rt; is_read(rt.alloc(), text, tokens));
    }
}

#[test]
fn symbols_and_comments_are_read(rt: HostRuntime) {
    for (text, tokens) in &SYMBOLS_AND_COMMENTS {
        assert!(rt; is_read(rt.alloc(), text, tokens));
    }
}

/// What stands before, so many times in front, so many times behind, and behind all; the beginning of its tokens, what
/// stands there so many times, and the end.
type Long = (
    &'static str,
    &'static str,
    &'static str,
    &'static str,
    &'static str,
    &'static str,
    &'static str,
);

// A text of two parts, each 300 times, between two others.
fn fill(text: &mut String, front: &str, part: &str, other: &str, back: &str) -> bool {
    add(text, front, 1) && add(text, part, 300) && add(text, other, 300) && add(text, back, 1)
}

static LONG: [Long; 11] = [
    ("", "0", "", "7", "int 7 0-301;", "", ""),
    ("~", "0", "", "7", "int -7 0-302;", "", ""),
    ("@", "0", "", "7", "host 7 0-302;", "", ""),
    ("%", "0", "", "7", "dev 7 0-302;", "", ""),
    ("#", "0", "", "7", "part 7 0-302;", "", ""),
    ("\"", "\u{e9}", "", "\"", "string ", "\u{e9}", " 0-602;"),
    ("\"", "\\x41", "", "\"", "string ", "A", " 0-1202;"),
    ("#\"00", "01", "", "\"", "blob [0", ", 1", "] 0-605;"),
    (
        "a",
        " \n",
        "\t\r",
        "b",
        "word a 0-1;word b 1201-1202;",
        "",
        "",
    ),
    ("(*", "\"", "'", "*)a", "word a 604-605;", "", ""),
    ("", "(*", "*)", "a", "word a 1200-1201;", "", ""),
];

fn long_is_read(alloc: Global, long: &Long, tokens: &str) -> bool {
    let mut text = String::new(alloc);
    fill(&mut text, long.0, long.1, long.2, long.3) && is_read(alloc, text.as_bytes(), tokens)
}

/// Whether a long text has its tokens.
fn has_tokens(alloc: Global, long: &Long) -> bool {
    let mut tokens = String::new(alloc);
    fill(&mut tokens, long.4, long.5, "", long.6) && long_is_read(alloc, long, tokens.as_str())
}

#[test]
fn each_kind_is_read_at_a_length_of_hundreds(rt: HostRuntime) {
    for long in &LONG {
        assert!(rt; has_tokens(rt.alloc(), long));
    }
}
