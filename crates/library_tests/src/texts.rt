// Texts of at most 65,536 bytes that are read, and texts that are made of parts.

use checked_chunks::Checked;
use plan_base::{Draft, Value};
use plan_lexer::lex;
use plan_parser::{parse, parse_value};
use program_text::read_program;
use std::alloc::Global;

/// The program of a text.
pub fn program(alloc: Global, text: &[u8]) -> Option<Checked> {
    if text.len() > 65_536 {
        return None;
    }
    read_program(alloc, text).ok()
}

/// The draft of a text.
pub fn draft(alloc: Global, text: &[u8]) -> Option<Draft> {
    if text.len() > 65_536 {
        return None;
    }
    match lex(alloc, text) {
        Ok(tokens) => parse(alloc, &tokens, text.len() as u32).ok(),
        Err(_) => None,
    }
}

/// The value of a text.
pub fn value(alloc: Global, text: &[u8]) -> Option<Value> {
    if text.len() > 65_536 {
        return None;
    }
    parse_value(alloc, text).ok()
}

/// Puts a part behind a text, so many times.
pub fn add(text: &mut String, part: &str, times: u32) -> bool {
    for _ in 0..times {
        if text.push_str(part).is_err() {
            return false;
        }
    }
    true
}
