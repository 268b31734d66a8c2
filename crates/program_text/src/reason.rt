//! Writes why a text is refused, and where.
ghost use Rattle.std.specs.Prelude.{◌≡◌, ◌++◌, OnOk, OnErr};
ghost use Rattle.program_text.specs.Reasons.{lex_reason, lex_byte, parse_reason, parse_byte, mismatch_text, type_reason, reason_text, fault_byte};

use crate::fault::TextFault;
use plan_base::{Bytes, NoMemory, Ty};
use plan_lexer::LexFault;
use plan_parser_exprs::ParseFault;
use plan_printer::print_type;
use plan_types_spec::TypeFault;
use std::alloc::Global;

fn lex_reason(fault: &LexFault) -> &'static [u8]
    ensures { result.now ≡ lex_reason fault.now }
{
    match fault {
        LexFault::BadChar(_) => b"BadChar",
        LexFault::OpenString(_) => b"OpenString",
        LexFault::OpenComment(_) => b"OpenComment",
        LexFault::NumberTooLarge(_) => b"NumberTooLarge",
        LexFault::LongName(_) => b"LongName",
        LexFault::NoMemory => b"",
    }
}

fn lex_byte(fault: &LexFault) -> u32
    ensures { result ≡ lex_byte fault.now }
{
    match fault {
        LexFault::BadChar(at) | LexFault::OpenString(at) | LexFault::OpenComment(at) => *at,
        LexFault::NumberTooLarge(at) | LexFault::LongName(at) => *at,
        LexFault::NoMemory => 0,
    }
}

fn put_parse_reason(fault: &ParseFault, out: &mut Bytes) -> Result<(), NoMemory>
    ensures { OnOk result (out.new ≡ out.old ++ parse_reason fault.now) }
{
    match fault {
        ParseFault::Expected(what, _) => {
            out.add_all(b"Expected ")?;
            out.add_all(what.text())?;
        }
        ParseFault::TooDeep(_) => out.add_all(b"TooDeep")?,
        ParseFault::TooMany(what, _) => {
            out.add_all(b"TooMany ")?;
            out.add_all(what.word().as_bytes())?;
        }
        ParseFault::NoMemory => {}
    }
    Ok(())
}

fn parse_byte(fault: &ParseFault) -> u32
    ensures { result ≡ parse_byte fault.now }
{
    match fault {
        ParseFault::Expected(_, at) | ParseFault::TooDeep(at) | ParseFault::TooMany(_, at) => *at,
        ParseFault::NoMemory => 0,
    }
}

fn put_mismatch(alloc: Global, wanted: &Ty, given: &Ty, out: &mut Bytes) -> Result<(), NoMemory>
    ensures { OnOk result (out.new ≡ out.old ++ mismatch_text wanted.now given.now) }
{
    out.add_all(b"Mismatch ")?;
    print_type(alloc, wanted, out)?;
    out.add_all(b" ")?;
    print_type(alloc, given, out)
}

fn put_type_reason(alloc: Global, fault: &TypeFault, out: &mut Bytes) -> Result<(), NoMemory>
    ensures { OnOk result (out.new ≡ out.old ++ type_reason fault.now) }
{
    match fault {
        TypeFault::UnknownName(_) => out.add_all(b"UnknownName")?,
        TypeFault::NotEarlier(_) => out.add_all(b"NotEarlier")?,
        TypeFault::Mismatch(_, wanted, given) => put_mismatch(alloc, wanted, given, out)?,
        TypeFault::Arity(_) => out.add_all(b"Arity")?,
        TypeFault::NeedsType(_) => out.add_all(b"NeedsType")?,
        TypeFault::WrongShape(_) => out.add_all(b"WrongShape")?,
        TypeFault::TwiceNamed(_) => out.add_all(b"TwiceNamed")?,
        TypeFault::TypeTooDeep(_) => out.add_all(b"TypeTooDeep")?,
        TypeFault::CodeTooLarge => out.add_all(b"CodeTooLarge")?,
        TypeFault::NoMemory => {}
    }
    Ok(())
}

fn put_text_reason(alloc: Global, fault: &TextFault, out: &mut Bytes) -> Result<(), NoMemory>
    ensures { OnOk result (out.new ≡ out.old ++ reason_text fault.now) }
{
    match fault {
        TextFault::Lex(why) => out.add_all(lex_reason(why))?,
        TextFault::Parse(why) => put_parse_reason(why, out)?,
        TextFault::Ty(why, _) => put_type_reason(alloc, why, out)?,
        TextFault::NoMemory => {}
    }
    Ok(())
}

/// Appends the name of a refusal and its `what`, or for a mismatch the two types as printed. Where an allocation fails,
/// `out` stays.
pub fn put_reason(alloc: Global, fault: &TextFault, out: &mut Bytes) -> Result<(), NoMemory>
    ensures whole { OnOk result (out.new ≡ out.old ++ reason_text fault.now) }
    ensures stays { OnErr result (out.new ≡ out.old) }
{
    let mut text = Bytes::new(alloc);
    put_text_reason(alloc, fault, &mut text)?;
    out.add_all(text.as_slice())?;
    Ok(())
}

/// The byte of a refusal in its text, from 0; 0 for code that is too large. Takes no memory.
pub fn place_of(fault: &TextFault) -> u32
    ensures { result ≡ fault_byte fault.now }
{
    match fault {
        TextFault::Lex(why) => lex_byte(why),
        TextFault::Parse(why) => parse_byte(why),
        TextFault::Ty(_, at) => *at,
        TextFault::NoMemory => 0,
    }
}
