//! The law that the refusal of a program, and of an expression, is for the first condition that isn't kept, of one list of
//! conditions for a program and one for each form of expression.
//!
//! Each law stands on a function without code, so that contracts of other crates can name it.

ghost use Rattle.std.specs.Prelude.{◌≡◌, ◌≢◌, ◌≤◌, ◌↔◌, ℕ, Option, Err, Some, IsTrue};
ghost use Rattle.plan_base.specs.declared.tree.Expr.{Expr};
ghost use Rattle.plan_base.specs.declared.tree.Program.{Program};
ghost use Rattle.plan_base.specs.declared.tree.Ty.{Ty};
ghost use Rattle.plan_types_spec.specs.declared.type_fault.TypeFault.{TypeFault};
ghost use Rattle.plan_types_spec.specs.declared.type_fault.TypeFault.TheVariants as fault;
ghost use Rattle.plan_base.specs.Sizes.{expr_depth};
ghost use Rattle.plan_base.specs.WellFormed.{IsWellFormedProgram, IsWellFormedChunk, ChunkHasTypes, well_formed_value, value_has_types};
ghost use Rattle.plan_types_spec.specs.Typing.{Ctx, Typed};
ghost use Rattle.plan_types_spec.specs.TypingOrder.{checked_expression, annotated_program};
ghost use Rattle.plan_types_spec.specs.TypingFills.{Becomes, Fills};
ghost use Rattle.plan_parser_laws.specs.Judgements.{Refused, IsTypedOrRefused as IsExprTypedOrRefused};
ghost use Rattle.plan_parser_laws.specs.Conditions.{FirstRefusal, IsTypedOrRefused};
ghost use Rattle.std.specs.List.{list_all};
ghost use Rattle.plan_base.specs.declared.tree.Chunk.{Chunk};
ghost use Rattle.plan_types_chunks.specs.declared.fault.Ill.{Ill};
ghost use Rattle.plan_types_chunks.specs.declared.fault.ChunkFault.{ChunkFault};
ghost use Rattle.plan_types_chunks.specs.declared.fault.ChunkFault.TheVariants as chunk_fault;
ghost use Rattle.plan_types_chunks.specs.Chunks.{illness, refusal_of};
ghost use Rattle.plan_parser_laws.specs.ChunkConditions.{conditions, call_conditions, FirstFailing};
ghost use Rattle.plan_parser_laws.specs.Memory.{IllHoldsNoMemory, HoldsNoMemory};

/// The checking of an expression, to any depth that it keeps, refuses exactly for the first of its conditions that isn't
/// kept. An expression is typed or has a first refusal, and not both, and it has at most one.
pub fn expressions_fail_first()
    ensures first { (code : Program) (seen depth : ℕ) (c : Ctx) (want : Option Ty) (n : ℕ)
        (e : Expr) (f : TypeFault) → expr_depth e ≤ depth →
        (checked_expression code depth seen c want e n ≡ Err f) ↔ Refused code seen f c want n e }
    ensures some { (code : Program) (seen : ℕ) (c : Ctx) (want : Option Ty) (n : ℕ) (e : Expr) →
        IsExprTypedOrRefused code seen c want n e }
    ensures apart { (code : Program) (seen : ℕ) (c : Ctx) (want : Option Ty) (n : ℕ) (e d : Expr)
        (t : Ty) (f : TypeFault) → Becomes code seen c want e d t → Refused code seen f c
        want n e → ⊥ }
    ensures one { (code : Program) (seen : ℕ) (c : Ctx) (want : Option Ty) (n : ℕ) (e : Expr)
        (f g : TypeFault) → Refused code seen f c want n e → Refused code seen g c
        want n e → f ≡ g }
{}

/// A well-formed program is refused exactly for the first of its conditions that isn't kept: the names of its services,
/// exceptions and functions, its bodies, and its size. It is typed or has a first refusal, and not both, and it has at most
/// one.
pub fn programs_fail_first()
    ensures first { (p : Program) (f : TypeFault) → IsWellFormedProgram p →
        (annotated_program p ≡ Err f) ↔ FirstRefusal p f }
    ensures some { (p : Program) → IsWellFormedProgram p → IsTypedOrRefused p }
    ensures apart { (p q : Program) (f : TypeFault) → IsWellFormedProgram p → Fills p q → Typed q →
        FirstRefusal p f → ⊥ }
    ensures one { (p : Program) (f g : TypeFault) → FirstRefusal p f → FirstRefusal p g → f ≡ g }
{}

/// No first refusal of a program is `NoMemory`.
pub fn typing_refusals_hold_no_memory()
    ensures { (p : Program) (f : TypeFault) → annotated_program p ≡ Err f → f ≢ fault.NoMemory }
{}

/// What comes first that is wrong with a chunk, its own size aside, is what is reported for the first condition that it doesn't
/// keep: its code, its entry, the number of its arguments, and each of them.
pub fn first_failing_is_answered()
    ensures { (c : Chunk) (i : Ill) → IsWellFormedChunk c → ChunkHasTypes c → (illness c ≡ Some i) ↔
        FirstFailing c (chunk_fault.Ill i) (conditions c) }
{}

/// What comes first that forbids a chunk with that code, entry and arguments, the code aside, is what is reported for the first
/// condition that it doesn't keep: its entry, the number of its arguments, each of them, and its size.
pub fn first_failing_call_is_answered()
    ensures { (c : Chunk) (f : ChunkFault) → IsTrue (list_all well_formed_value c.args) → IsTrue
        (list_all value_has_types c.args) → (refusal_of c ≡ Some f) ↔ FirstFailing c f
        (call_conditions c) }
{}

/// What comes first that is wrong with a chunk, or with a call, is never running out of memory, and holds none.
pub fn chunk_refusals_hold_no_memory()
    ensures chunks { (c : Chunk) (i : Ill) → illness c ≡ Some i → IllHoldsNoMemory i }
    ensures calls { (c : Chunk) (f : ChunkFault) → refusal_of c ≡ Some f → HoldsNoMemory f }
{}
