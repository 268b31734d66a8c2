//! The laws of printed texts: which tokens they are read as.
//!
//! Each law stands on a function without code, so that contracts of other crates can name it.

ghost use Rattle.plan_base.specs.declared.tree.Ty.{Ty};
ghost use Rattle.plan_base.specs.declared.tree.Value.{Value};
ghost use Rattle.plan_base.specs.declared.tree.Program.{Program};
ghost use Rattle.plan_printer_spec.specs.Printed.{type_text, value_text, program_text};
ghost use Rattle.program_text_laws.specs.Lexes.{Lexes};
ghost use Rattle.program_text_laws.specs.Proper.{IsProperType, IsProperValue, IsProperProgram};
ghost use Rattle.program_text_laws.specs.PrintedTokens.{type_kinds, value_kinds, program_kinds};

/// A printed type is read as its tokens.
pub fn printed_type_lexes()
    ensures { (t : Ty) → IsProperType t → Lexes (type_text t) (type_kinds t) }
{}

/// A printed value without a chunk in it is read as its tokens.
pub fn printed_value_lexes()
    ensures { (v : Value) → IsProperValue v → Lexes (value_text v) (value_kinds v) }
{}

/// A printed program is read as its tokens.
pub fn printed_program_lexes()
    ensures { (p : Program) → IsProperProgram p → Lexes (program_text p) (program_kinds p) }
{}
