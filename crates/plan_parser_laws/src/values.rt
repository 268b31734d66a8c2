//! The written grammar of values and of arguments, and the laws that the readers keep to it.
//!
//! Each law stands on a function without code, so that contracts of other crates can name it.

ghost use Rattle.std.specs.Prelude.{◌≡◌, ◌↔◌, ℕ, List, Ok, Err};
ghost use Rattle.plan_base.specs.declared.tree.Value.{Value};
ghost use Rattle.plan_lexer.specs.declared.token.Token.{Token};
ghost use Rattle.plan_parser.specs.Values.{value_of, args_of};
ghost use Rattle.plan_parser_laws.specs.ValueGrammar.{IsValue, AreArgs};
ghost use Rattle.plan_parser_exprs.specs.declared.fault.ParseFault.{ParseFault};
ghost use Rattle.plan_parser.specs.declared.value_fault.ValueFault.{ValueFault};
ghost use Rattle.plan_parser.specs.ReadTexts.{Fails};
ghost use Rattle.plan_parser_laws.specs.ValueRefusals.{FirstValueRefusal, FirstArgsRefusal, IsValueOrRefused, AreArgsOrRefused, FirstTextRefusal, HoldsNoMemory};

/// What is read as a value or as arguments is such by the grammar, and what is such by the grammar is read.
pub fn values_read_are_written()
    ensures values { (tokens : List Token) (end : ℕ) (v : Value) → (value_of tokens end ≡ Ok v) ↔
        IsValue tokens end v }
    ensures args { (tokens : List Token) (end : ℕ) (vs : List Value) → (args_of tokens end ≡ Ok vs)
        ↔ AreArgs tokens end vs }
{}

/// Tokens are at most one value, and at most one list of arguments.
pub fn values_have_one_reading()
    ensures values { (tokens : List Token) (end : ℕ) (v w : Value) → IsValue tokens end v → IsValue
        tokens end w → v ≡ w }
    ensures args { (tokens : List Token) (end : ℕ) (vs ws : List Value) → AreArgs tokens end vs →
        AreArgs tokens end ws → vs ≡ ws }
{}

/// Tokens are refused as a value, or as arguments, exactly with the first refusal of their agenda, and have at most one.
pub fn value_refusals_are_first()
    ensures values { (tokens : List Token) (end : ℕ) (e : ParseFault) →
        (value_of tokens end ≡ Err e) ↔ FirstValueRefusal e tokens end }
    ensures args { (tokens : List Token) (end : ℕ) (e : ParseFault) → (args_of tokens end ≡ Err e) ↔
        FirstArgsRefusal e tokens end }
    ensures one_value { (tokens : List Token) (end : ℕ) (d e : ParseFault) → FirstValueRefusal d
        tokens end → FirstValueRefusal e tokens end → d ≡ e }
    ensures one_args { (tokens : List Token) (end : ℕ) (d e : ParseFault) → FirstArgsRefusal d
        tokens end → FirstArgsRefusal e tokens end → d ≡ e }
{}

/// Tokens are a value by the written grammar or have a first refusal, and not both; and so for arguments.
pub fn values_have_one_answer()
    ensures value { (tokens : List Token) (end : ℕ) → IsValueOrRefused tokens end }
    ensures arguments { (tokens : List Token) (end : ℕ) → AreArgsOrRefused tokens end }
    ensures apart_values { (tokens : List Token) (end : ℕ) (v : Value) (e : ParseFault) → IsValue
        tokens end v → FirstValueRefusal e tokens end → ⊥ }
    ensures apart_args { (tokens : List Token) (end : ℕ) (vs : List Value) (e : ParseFault) →
        AreArgs tokens end vs → FirstArgsRefusal e tokens end → ⊥ }
{}

/// A text is refused exactly for the first refusal of its tokens, and else for the first of what they are; it has at most
/// one.
pub fn texts_are_refused_first()
    ensures values { (text : List ℕ) (e : ValueFault) → Fails value_of text e ↔ FirstTextRefusal
        FirstValueRefusal text e }
    ensures args { (text : List ℕ) (e : ValueFault) → Fails args_of text e ↔ FirstTextRefusal
        FirstArgsRefusal text e }
    ensures one_value { (text : List ℕ) (d e : ValueFault) → FirstTextRefusal FirstValueRefusal text
        d → FirstTextRefusal FirstValueRefusal text e → d ≡ e }
    ensures one_args { (text : List ℕ) (d e : ValueFault) → FirstTextRefusal FirstArgsRefusal text d
        → FirstTextRefusal FirstArgsRefusal text e → d ≡ e }
{}

/// No first refusal of a value, or of arguments, is or holds `NoMemory`.
pub fn value_refusals_hold_no_memory()
    ensures values { (text : List ℕ) (e : ValueFault) → Fails value_of text e → HoldsNoMemory e }
    ensures args { (text : List ℕ) (e : ValueFault) → Fails args_of text e → HoldsNoMemory e }
{}
