//! Laws that a text which is no typed program is refused for the first thing that is wrong with it: its tokens, then their
//! grammar, then its types, each by the list of its own layer, and at its byte.
//!
//! Each law stands on a function without code, so that contracts of other crates can name it.

ghost use Rattle.std.specs.Prelude.{◌≡◌, ◌≤◌, ◌↔◌, ℕ, List, length, Err};
ghost use Rattle.plan_base.specs.declared.tree.Program.{Program};
ghost use Rattle.program_text.specs.declared.fault.TextFault.{TextFault};
ghost use Rattle.program_text.specs.Texts.{program_of};
ghost use Rattle.file_laws.specs.ProgramRefusals.{IsTypedProgram, FirstRefusal, IsProgramOrRefused, HoldsNoMemory};

/// A text is refused exactly for the first thing that is wrong with it. It is a typed program or has a first refusal, and
/// not both, and it has at most one.
pub fn texts_are_refused_first()
    ensures first { (text : List ℕ) (e : TextFault) → length text ≤ 65536 →
        (program_of text ≡ Err e) ↔ FirstRefusal text e }
    ensures some { (text : List ℕ) → length text ≤ 65536 → IsProgramOrRefused text }
    ensures apart { (text : List ℕ) (p : Program) (e : TextFault) → length text ≤ 65536 →
        IsTypedProgram text p → FirstRefusal text e → ⊥ }
    ensures one { (text : List ℕ) (d e : TextFault) → length text ≤ 65536 → FirstRefusal text d →
        FirstRefusal text e → d ≡ e }
{}

/// No first refusal of a text is or holds `NoMemory`.
pub fn program_refusals_hold_no_memory()
    ensures { (text : List ℕ) (e : TextFault) → program_of text ≡ Err e → HoldsNoMemory e }
{}
