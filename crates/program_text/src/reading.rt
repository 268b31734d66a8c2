//! Reads a text into a typed program.
ghost use Rattle.std.specs.Prelude.{◌≡◌, ◌≤◌, ◌⊎◌, List, length, Ok, Err, IfOk, IfErr, MatchResult};
ghost use Rattle.plan_types_spec.specs.Typing.{Typed};
ghost use Rattle.plan_types_spec.specs.TypingFills.{Fills};
ghost use Rattle.plan_types_spec.specs.TypingOrder.{annotated_program};
ghost use Rattle.plan_base.specs.WellFormed.{IsWellFormedProgram};
ghost use Rattle.plan_base.specs.declared.tree.Program.{Program};
ghost use Rattle.plan_lexer.specs.Scanning.{Toks};
ghost use Rattle.plan_lexer.specs.TokenRules.{AreTokens};
ghost use Rattle.plan_parser.specs.Programs as parsed;
ghost use Rattle.program_text.specs.Texts.{byte_at, byte_of, placed_result, typed_of, program_of, IsProgram, Says, args_of_text};

use crate::fault::TextFault;
use checked_chunks::Checked;
use containers::Items;
use plan_base::{Draft, NoMemory, Place, Places, Values};
use plan_lexer::{LexFault, Tokens, lex};
use plan_parser::{ValueFault, parse, parse_args};
use plan_parser_exprs::ParseFault;
use plan_types::annotate;
use plan_types_spec::TypeFault;
use std::alloc::Global;

/// The byte at which a declaration or an expression begins.
fn byte_at(decls: &Places, nodes: &Places, place: Place) -> u32
    ensures { result ≡ byte_at decls.now nodes.now place }
{
    match place {
        Place::Decl(n) => decls.get(n as usize).copied().unwrap_or(0),
        Place::Node(n) => nodes.get(n as usize).copied().unwrap_or(0),
    }
}

/// The byte of a refusal.
fn byte_of(decls: &Places, nodes: &Places, fault: &TypeFault) -> u32
    ensures { result ≡ byte_of decls.now nodes.now fault.now }
{
    match fault {
        TypeFault::UnknownName(place) | TypeFault::NotEarlier(place) => byte_at(
            decls, nodes, *place,
        ),
        TypeFault::Mismatch(place, _, _) | TypeFault::Arity(place) => byte_at(decls, nodes, *place),
        TypeFault::NeedsType(place) | TypeFault::WrongShape(place) => byte_at(decls, nodes, *place),
        TypeFault::TwiceNamed(place) | TypeFault::TypeTooDeep(place) => byte_at(
            decls, nodes, *place,
        ),
        TypeFault::CodeTooLarge | TypeFault::NoMemory => 0,
    }
}

/// A well-formed draft with the types that are missing in it, or the first refusal with its byte.
fn fill_types(alloc: Global, draft: Draft) -> Result<Checked, TextFault>
    requires { IsWellFormedProgram draft.program }
    ensures found { IfOk result (λ k. placed_result draft.decl_at draft.node_at
        (annotated_program draft.program) ≡ Ok k) }
    ensures fills { IfOk result (λ k. Fills draft.program k × Typed k) }
    ensures all { (p : Program) → Fills draft.program p → Typed p → MatchResult result (λ k. k ≡ p)
        (λ e. e ≡ TextFault.NoMemory) }
    ensures fault { IfErr result (λ e. (e ≡ TextFault.NoMemory) ⊎
        (placed_result draft.decl_at draft.node_at (annotated_program draft.program) ≡ Err e)) }
{
    let Draft {
        program,
        decl_at,
        node_at,
    } = draft;
    let bare = Draft {
        program,
        decl_at: Items::new(alloc),
        node_at: Items::new(alloc),
    };
    match annotate(alloc, bare) {
        Ok(checked) => Ok(checked),
        Err(TypeFault::NoMemory) => Err(TextFault::NoMemory),
        Err(fault) => {
            let byte = byte_of(&decl_at, &node_at, &fault);
            Err(TextFault::Ty(fault, byte))
        }
    }
}

/// The typed program that the tokens of a text of `len` bytes are, or the first refusal.
fn program_in(alloc: Global, tokens: &Tokens, len: u32) -> Result<Checked, TextFault>
    requires tokens { AreTokens 0 len tokens.now }
    requires len { len ≤ 65536 }
    ensures found { IfOk result (λ k. typed_of (parsed.program_of tokens.now len) ≡ Ok k) }
    ensures says { IfOk result (IsProgram tokens.now len) }
    ensures all { (p : Program) → IsProgram tokens.now len p → MatchResult result (λ k. k ≡ p)
        (λ e. e ≡ TextFault.NoMemory) }
    ensures fault { IfErr result (λ e. (e ≡ TextFault.NoMemory) ⊎
        (typed_of (parsed.program_of tokens.now len) ≡ Err e)) }
{
    match parse(alloc, tokens, len) {
        Ok(draft) => fill_types(alloc, draft),
        Err(ParseFault::NoMemory) => Err(TextFault::NoMemory),
        Err(fault) => Err(TextFault::Parse(fault)),
    }
}

/// The tokens of a text, or its first refusal.
#[tactic(auto, using(crate::proofs::Readings::refused_by))]
fn tokens_in(alloc: Global, text: &[u8]) -> Result<Tokens, TextFault>
    requires { length text.now ≤ 65536 }
    ensures toks { IfOk result (Toks 0 text.now) }
    ensures kept { IfOk result (AreTokens 0 (length text.now)) }
    ensures none { IfErr result (λ e. (p : Program) → Says text.now p → e ≡ TextFault.NoMemory) }
    ensures fault { IfErr result (λ e. (e ≡ TextFault.NoMemory) ⊎ (program_of text.now ≡ Err e)) }
{
    match lex(alloc, text) {
        Ok(tokens) => Ok(tokens),
        Err(LexFault::NoMemory) => Err(TextFault::NoMemory),
        Err(fault) => Err(TextFault::Lex(fault)),
    }
}

/// The typed program that a text of at most 65,536 bytes is, with the types of `[]` and `raise` that are missing in it, or
/// the first refusal with its byte: of the tokens, else of the grammar, else of the types. Takes time linear in the text,
/// up to the depth of functions and the number of their names.
pub fn read_program(alloc: Global, text: &[u8]) -> Result<Checked, TextFault>
    requires { length text.now ≤ 65536 }
    ensures found { IfOk result (λ k. program_of text.now ≡ Ok k) }
    ensures says { IfOk result (Says text.now) }
    ensures only { (p : Program) → program_of text.now ≡ Ok p → MatchResult result (λ k. k ≡ p)
        (λ e. e ≡ TextFault.NoMemory) }
    ensures all { (p : Program) → Says text.now p → MatchResult result (λ k. k ≡ p)
        (λ e. e ≡ TextFault.NoMemory) }
    ensures fault { IfErr result (λ e. (e ≡ TextFault.NoMemory) ⊎ (program_of text.now ≡ Err e)) }
{
    let tokens = tokens_in(alloc, text)?;
    program_in(alloc, &tokens, text.len() as u32)
}

/// The arguments that a text of at most 65,536 bytes is, or none where it is no arguments.
#[tactic(auto, using(crate::proofs::Readings::args_read, crate::proofs::Readings::none_by))]
pub fn read_args(alloc: Global, text: &[u8]) -> Result<Option<Values>, NoMemory>
    requires { length text.now ≤ 65536 }
    ensures { IfOk result (λ args. args ≡ args_of_text text.now) }
{
    if text == b"()".as_slice() {
        return Ok(Some(Items::new(alloc)));
    }
    match parse_args(alloc, text) {
        Ok(args) => Ok(Some(args)),
        Err(ValueFault::NoMemory) => Err(NoMemory),
        Err(_) => Ok(None),
    }
}
