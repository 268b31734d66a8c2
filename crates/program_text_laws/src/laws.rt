//! A law: a text whose tokens are those of a program, as it is written, is that program.
//!
//! It stands on a function without code, so that contracts of other crates can name it.

ghost use Rattle.std.specs.Prelude.{◌≡◌, ℕ, List, Ok};
ghost use Rattle.plan_base.specs.declared.tree.Program.{Program};
ghost use Rattle.checked_chunks.specs.Kept.{IsChecked};
ghost use Rattle.plan_lexer.specs.declared.token.Token.{Token};
ghost use Rattle.program_text.specs.Scanned.{tokens_of};
ghost use Rattle.program_text.specs.Texts.{program_of};
ghost use Rattle.program_text_laws.specs.Lexes.{kinds_of};
ghost use Rattle.program_text_laws.specs.Proper.{IsProperProgram};
ghost use Rattle.program_text_laws.specs.Written.{written_kinds};

/// A text is a checked program where its tokens are those of the program, of which the body of a function, and the test of
/// an `if` that is one, may stand without their outer brackets.
pub fn written_programs_are_read()
    ensures { (text : List ℕ) (ts : List Token) (p : Program) → tokens_of text ≡ Ok ts → kinds_of ts
        ≡ written_kinds p → IsProperProgram p → IsChecked p → program_of text ≡ Ok p }
{}
