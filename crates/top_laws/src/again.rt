//! The laws that what is printed is read again as the same type and the same expression.
//!
//! Each law stands on a function without code, so that contracts of other crates can name it.

ghost use Rattle.std.specs.Prelude.{◌≡◌, ◌≤◌, ◌++◌, ℕ, List, Ok};
ghost use Rattle.plan_base.specs.declared.tree.Ty.{Ty};
ghost use Rattle.plan_base.specs.declared.tree.Expr.{Expr};
ghost use Rattle.plan_base.specs.Sizes.{type_depth, expr_depth};
ghost use Rattle.plan_parser_exprs.specs.declared.level.Level.{Level};
ghost use Rattle.plan_parser_exprs.specs.Ahead.{Front};
ghost use Rattle.plan_parser_exprs.specs.Types.{type_to};
ghost use Rattle.plan_parser_exprs.specs.Exprs.{expr_to};
ghost use Rattle.program_text_laws.specs.Proper.{IsProperType, IsProper, IsProperValue, IsProperProgram};
ghost use Rattle.program_text_laws.specs.PrintedTokens.{Kinds, type_kinds, expr_kinds, value_kinds, program_kinds};
ghost use Rattle.program_text_laws.specs.Reads.{kinds_at, Took, first_kind, FollowsType, IsNode, Ends};
ghost use Rattle.plan_base.specs.declared.tree.Value.{Value};
ghost use Rattle.plan_base.specs.declared.tree.Program.{Program};
ghost use Rattle.plan_base.specs.declared.tree.Draft.{Draft};
ghost use Rattle.plan_base.specs.WellFormed.{IsWellFormedProgram};
ghost use Rattle.plan_lexer.specs.declared.token.Token.{Token};
ghost use Rattle.plan_lexer.specs.Scanning.{Toks};
ghost use Rattle.plan_parser.specs.Programs.{program_of};
ghost use Rattle.plan_parser.specs.Values.{value_of};
ghost use Rattle.plan_parser.specs.ReadTexts.{Reads};
ghost use Rattle.plan_printer_spec.specs.Printed.{value_text, program_text};
ghost use Rattle.program_text_laws.specs.Lexes.{kinds_of};
ghost use Rattle.top_laws.specs.Readable.{IsReadable};

/// The tokens of a printed type of depth 8 at most are read as that type, before anything but the word `list`.
pub fn printed_type_reads()
    ensures { (t : Ty) (most : ℕ) (f : Front) (rest : Kinds) → IsProperType t → type_depth t ≤ 8 →
        type_depth t ≤ most
        → kinds_at f ≡ type_kinds t ++ rest → FollowsType rest → Took (type_to most f) rest
        (λ u. u ≡ t) }
{}

/// The tokens of a printed expression of depth 64 at most are read as that expression with its depth, at every level,
/// before anything that doesn't join it. At most 135 constructs are open at once: 160 are allowed.
pub fn printed_expr_reads()
    ensures { (e : Expr) (most : ℕ) (level : Level) (f : Front) (rest : Kinds) → IsProper e →
        expr_depth e ≤ 64 → 136 ≤ most
        → kinds_at f ≡ expr_kinds e ++ rest → Ends (first_kind rest) → Took (expr_to most level f)
        rest (IsNode e) }
{}

/// The tokens of a printed program, wherever they stand, are that program.
pub fn printed_program_reads()
    ensures { (p : Program) (ts : List Token) (end : ℕ) → IsProperProgram p → IsWellFormedProgram p
        → kinds_of ts ≡ program_kinds p
        → (d : Draft) × (program_of ts end ≡ Ok d) × (d.program ≡ p) }
{}

/// A program, printed and read again, is the same program.
pub fn printed_program_again()
    ensures { (p : Program) (end : ℕ) → IsProperProgram p → IsWellFormedProgram p
        → (ts : List Token) × Toks 0 (program_text p) ts × (d : Draft) × (program_of ts end ≡ Ok d)
        × (d.program ≡ p) }
{}

/// The tokens of a printed value without a chunk, wherever they stand, are that value.
pub fn printed_value_reads()
    ensures { (v : Value) (t : Ty) (ts : List Token) (end : ℕ) → IsReadable 8 v t → kinds_of ts ≡
        value_kinds v → value_of ts end ≡ Ok v }
{}

/// A value without a chunk, printed and read again, is the same value.
pub fn printed_value_again()
    ensures { (v : Value) (t : Ty) → IsProperValue v → IsReadable 8 v t → Reads value_of
        (value_text v) v }
{}
