//! The public call: the program that tokens are.
ghost use Rattle.std.specs.Prelude.{◌≡◌, ◌≤◌, ◌⊎◌, length, Result, Ok, Err, IfOk, IfErr, MatchResult};
ghost use Rattle.plan_base.specs.declared.tree.Draft.{Draft};
ghost use Rattle.plan_base.specs.WellFormed.{IsWellFormedProgram};
ghost use Rattle.plan_lexer.specs.TokenRules.{AreTokens};
ghost use Rattle.plan_parser_exprs.specs.Ahead.{Answers};
ghost use Rattle.plan_parser.specs.Programs.{program_of, Placed};

use crate::declarations::{declarations, finish_draft};
use plan_base::Draft;
use plan_lexer::{Token, Tokens};
use plan_parser_exprs::ParseFault;
use std::alloc::Global;

/// What the reading of a program gives, unless memory runs out.
#[tactic(auto, unfolding(crate::specs::Programs::program_of))]
fn program_of(alloc: Global, tokens: &[Token], end: u32) -> Result<Draft, ParseFault>
    ensures { Answers (program_of tokens.now end) result }
{
    let gathered = declarations(alloc, tokens, end)?;
    finish_draft(end, gathered)
}

/// The program that the tokens of a text of `len` bytes are, well formed, with one place for each declaration and each
/// expression; or the first refusal: what must stand at a place and doesn't, the item past a limit, or what is too deep.
/// Takes time linear in the tokens, up to the depth of functions.
pub fn parse(alloc: Global, tokens: &Tokens, len: u32) -> Result<Draft, ParseFault>
    requires tokens { AreTokens 0 len tokens.now }
    requires len { len ≤ 65536 }
    ensures found { IfOk result (λ d. program_of tokens.now len ≡ Ok d) }
    ensures only { (d : Draft) → program_of tokens.now len ≡ Ok d → MatchResult result (λ e. e ≡ d)
        (λ e. e ≡ ParseFault.NoMemory) }
    ensures fault { IfErr result (λ e. (e ≡ ParseFault.NoMemory) ⊎
        (program_of tokens.now len ≡ Err e)) }
    ensures formed { IfOk result (λ d. IsWellFormedProgram d.program) }
    ensures placed { IfOk result (λ d. Placed d) }
{
    program_of(alloc, tokens.as_slice(), len)
}
