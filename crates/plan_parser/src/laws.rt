//! A law: tokens have one answer.
ghost use Rattle.std.specs.Prelude.{◌≡◌, ℕ, List, Ok, Err};
ghost use Rattle.plan_base.specs.declared.tree.Draft.{Draft};
ghost use Rattle.plan_lexer.specs.declared.token.Token.{Token};
ghost use Rattle.plan_parser_exprs.specs.declared.fault.ParseFault.{ParseFault};
ghost use Rattle.plan_parser.specs.Programs.{program_of, IsAnswered};

/// Tokens are one program or have one first refusal, and not both.
pub fn one_answer()
    ensures some { (tokens : List Token) (end : ℕ) → IsAnswered tokens end }
    ensures draft { (tokens : List Token) (end : ℕ) (c d : Draft) → program_of tokens end ≡ Ok c →
        program_of tokens end ≡ Ok d → c ≡ d }
    ensures refusal { (tokens : List Token) (end : ℕ) (d e : ParseFault) → program_of tokens end ≡
        Err d → program_of tokens end ≡ Err e → d ≡ e }
    ensures apart { (tokens : List Token) (end : ℕ) (d : Draft) (e : ParseFault) → program_of tokens
        end ≡ Ok d → program_of tokens end ≡ Err e → ⊥ }
{}
