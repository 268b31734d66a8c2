//! Texts and bytes of the process's words.
ghost use Rattle.std.specs.Prelude.{◌≡◌, map, IfOk};
ghost use Rattle.std.specs.Str.{is_utf8};
ghost use Rattle.host_io.specs.Words as spec;
ghost use Rattle.host_io.specs.Words.{utf8_or, bytes_or, words_in, program_in};

use crate::arguments::{Argument, Arguments};
use containers::Items;
use plan_base::{NoMemory, Text, Texts};
use std::alloc::Global;
use std::str;

/// Whether bytes are UTF-8.
fn is_text(bytes: &[u8]) -> bool
    ensures { result ≡ is_utf8 bytes.now }
{
    match str::from_utf8(bytes) {
        Ok(_) => true,
        Err(_) => false,
    }
}

/// A copy of bytes.
fn copy_bytes(alloc: Global, bytes: &[u8]) -> Result<Text, NoMemory>
    ensures { IfOk result (λ text. text ≡ bytes.now) }
{
    Ok(Text::of(Vec::from_slice(alloc, bytes)?))
}

/// Bytes where they are UTF-8, else others.
fn text_or(alloc: Global, others: &[u8], bytes: &[u8]) -> Result<Text, NoMemory>
    ensures { IfOk result (λ text. text ≡ utf8_or others.now bytes.now) }
{
    if is_text(bytes) {
        copy_bytes(alloc, bytes)
    } else {
        copy_bytes(alloc, others)
    }
}

/// An argument's bytes, or others where they are no UTF-8, or too many.
fn text_of(alloc: Global, others: &[u8], argument: &Argument) -> Result<Text, NoMemory>
    ensures { IfOk result (λ text. text ≡ bytes_or others.now argument.now) }
{
    match argument {
        Argument::Whole(bytes) => text_or(alloc, others, bytes.as_slice()),
        Argument::TooLong => copy_bytes(alloc, others),
    }
}

/// The words of arguments, in their order.
fn all_words(alloc: Global, arguments: &[Argument]) -> Result<Texts, NoMemory>
    ensures { IfOk result (λ words. words ≡ map spec.word_of arguments.now) }
{
    let mut words = Items::new(alloc);
    for argument in arguments {
        words.add(text_of(alloc, b"", argument)?)?;
    }
    Ok(words)
}

/// The words of a call: those of the arguments behind the program's own name, in their order. The word of an argument is
/// its bytes, or the empty word, which no command takes, where they are no UTF-8, or too many.
pub fn words_of(alloc: Global, arguments: &Arguments) -> Result<Texts, NoMemory>
    ensures { IfOk result (λ words. words ≡ words_in arguments.now) }
{
    match arguments.as_slice() {
        [_, behind @ ..] => all_words(alloc, behind),
        [] => Ok(Items::new(alloc)),
    }
}

/// The name by which the program starts itself again: the bytes of its own, or `planet` where there is none, or where they
/// are no UTF-8, or too many.
pub fn program_of(alloc: Global, arguments: &Arguments) -> Result<Text, NoMemory>
    ensures { IfOk result (λ name. name ≡ program_in arguments.now) }
{
    match arguments.as_slice() {
        [own, ..] => text_of(alloc, b"planet", own),
        [] => copy_bytes(alloc, b"planet"),
    }
}
