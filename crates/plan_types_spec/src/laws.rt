//! The laws of typing: the checking in order answers exactly what the typing rules allow.
//!
//! Each law stands on a function without code, so that contracts of other crates can name it.

ghost use Rattle.std.specs.Prelude.{◌≡◌, ◌↔◌, ℕ, Ok};
ghost use Rattle.plan_base.specs.declared.tree.Ty.{Ty};
ghost use Rattle.plan_base.specs.declared.tree.Expr.{Expr};
ghost use Rattle.plan_base.specs.declared.tree.Program.{Program};
ghost use Rattle.plan_base.specs.WellFormed.{IsWellFormedProgram, ProgramHasTypes};
ghost use Rattle.plan_types_spec.specs.Typing.{Ctx, HasTy, Typed};
ghost use Rattle.plan_types_spec.specs.TypingFills.{Fills};
ghost use Rattle.plan_types_spec.specs.TypingOrder.{annotated_program};

/// The checking of a well-formed draft answers a program exactly where that program is typed and fills
/// the draft in.
pub fn checking_is_typing()
    ensures { (draft code : Program) → IsWellFormedProgram draft
        → (annotated_program draft ≡ Ok code) ↔ (Fills draft code × Typed code) }
{}

/// An expression has at most one type.
pub fn types_are_unique()
    ensures { (code : Program) (seen : ℕ) (c : Ctx) (e : Expr) (t u : Ty) → HasTy code seen c e t
        → HasTy code seen c e u → t ≡ u }
{}

/// A program in which no type is missing is filled in by itself alone, and by itself where it is typed.
pub fn full_programs_stay()
    ensures same { (draft code : Program) → ProgramHasTypes draft → Fills draft code
        → code ≡ draft }
    ensures itself { (code : Program) → Typed code → Fills code code }
{}
