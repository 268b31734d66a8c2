//! A law: one pass over a text finds its tokens or its first refusal.
ghost use Rattle.std.specs.Prelude.{◌≡◌, ℕ, List, Ok, Err};
ghost use Rattle.plan_lexer.specs.Scanning.{Toks, Refuses};
ghost use Rattle.plan_lexer.specs.declared.fault.LexFault.{LexFault};
ghost use Rattle.plan_lexer.specs.declared.token.Token.{Token};
ghost use Rattle.program_text.specs.Scanned.{tokens_of};

/// One pass over a text finds its tokens, or its first refusal.
pub fn one_pass()
    ensures tokens { (text : List ℕ) (ts : List Token) → Toks 0 text ts → tokens_of text ≡ Ok ts }
    ensures refusal { (text : List ℕ) (e : LexFault) → Refuses e 0 text → tokens_of text ≡ Err e }
{}
