//! The public call: the tokens of a text.
ghost use Rattle.std.specs.Prelude.{◌≡◌, ℕ, ◌≤◌, ◌⊎◌, List, [], length, IfOk, IfErr, OnOk, MatchResult};
ghost use Rattle.plan_lexer.specs.Scanning.{Toks, Refuses, with_move};
ghost use Rattle.plan_lexer.specs.TokenRules.{AreTokens};
ghost use Rattle.plan_lexer.specs.declared.token.Token.{Token};

use crate::fault::LexFault;
use crate::scan::move_at;
use crate::text::after;
use crate::token::{Token, TokenKind, Tokens};
use std::alloc::{AllocError, Global};

/// No tokens yet, with room for those of most arguments.
fn no_tokens(alloc: Global) -> Result<Tokens, AllocError>
    ensures { IfOk result (λ ts. ts ≡ []) }
{
    Ok(Tokens::from_vec(Vec::with_capacity(alloc, 8)?))
}

/// The tokens of a text of at most 65,536 bytes, from the left, each the longest prefix of what is left that is one.
/// The first refusal decides. Takes time linear in the text.
pub fn lex(alloc: Global, text: &[u8]) -> Result<Tokens, LexFault>
    requires { length text.now ≤ 65536 }
    ensures found { IfOk result (Toks 0 text.now) }
    ensures only { (ts : List Token) → Toks 0 text.now ts → MatchResult result (λ us. us ≡ ts) (λ e.
        e ≡ LexFault.NoMemory) }
    ensures kept { IfOk result (AreTokens 0 (length text.now)) }
    ensures fault { IfErr result (λ e. (e ≡ LexFault.NoMemory) ⊎ Refuses e 0 text.now) }
{
    let mut tokens = no_tokens(alloc)?;
    let mut at = 0u32;
    let mut rest = text;
    'moves: while !rest.is_empty() {
        let (kind, next) = move_at(alloc, at, rest)?;
        add_move(&mut tokens, at, kind, next)?;
        rest = after(rest, (next - at) as usize);
        at = next;
    }
    Ok(tokens)
}

/// Adds the token that a move gave, if it gave one.
fn add_move(
    tokens: &mut Tokens,
    start: u32,
    kind: Option<TokenKind>,
    stop: u32,
) -> Result<(), AllocError>
    ensures ok { OnOk result (tokens.new ≡ with_move tokens.old start kind stop) }
{
    match kind {
        Some(kind) => tokens.add(Token { kind, start, stop }),
        None => Ok(()),
    }
}
