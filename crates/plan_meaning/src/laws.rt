//! Laws of the meaning. Each is the contract of a function without a body, so that a contract or a proof can name it.

ghost use Rattle.std.specs.Prelude.{◌≡◌, ◌↔◌, ◌<◌, ℕ, List, Some, slice_get};
ghost use Rattle.plan_base.specs.declared.tree.Expr.{Expr};
ghost use Rattle.plan_base.specs.declared.tree.Program.{Program};
ghost use Rattle.plan_base.specs.declared.tree.Chunk.{Chunk};
ghost use Rattle.plan_base.specs.declared.tree.Param.{Param};
ghost use Rattle.plan_base.specs.declared.tree.Fun.{Fun};
ghost use Rattle.plan_base.specs.declared.tree.Ty.{Ty};
ghost use Rattle.plan_base.specs.declared.tree.Value.{Value};
ghost use Rattle.plan_types_spec.specs.Typing.{Typed, HasTy, HasType, IsTypedChunk};
ghost use Rattle.plan_base.specs.WellFormed.{IsWellFormedProgram, IsWellFormedExpr, ProgramHasTypes, ValueHasTypes, ChunkHasTypes};
ghost use Rattle.plan_types_spec.specs.TypingNames.{place_of};
ghost use Rattle.plan_base.specs.declared.ids.Family.{Family};
ghost use Rattle.service_api.specs.declared.ctx.Ctx.{Ctx};
ghost use Rattle.service_api.specs.Services.{ServiceState, IsGoodValue, IsGoodChunk};
ghost use Rattle.plan_meaning.specs.declared.outcome.Outcome.TheVariants as outcome;
ghost use Rattle.plan_meaning.specs.declared.outcome.Visit.{Visit};
ghost use Rattle.plan_meaning.specs.Visit.{IsVisit};
ghost use Rattle.plan_meaning.specs.State.{VisitState};
ghost use Rattle.plan_meaning.specs.Meaning.{Env, node, run_to, meaning, visited_chunk};
ghost use Rattle.plan_meaning.specs.Safe.{HasEnv, IsGoodState, Yields};
ghost use Rattle.plan_meaning.specs.Laws.{IsBalanced, IsSteady, HasGrown, IsLonger, EndsFrom, VisitsAlike, NoneSuffices, left_by};

/// The meaning of an expression is its case with the meaning at its parts: the depth at which the definition is cut
/// off is no part of it.
pub fn fixed()
    ensures { (code : Program) (seen : ℕ) (env : Env) (e : Expr) (s : VisitState) → meaning code
        seen env e s ≡ node meaning code seen env e s }
{}

/// A visit may be cut off at any depth above its work.
pub fn depth()
    ensures { (n : ℕ) (k : Chunk) (s : VisitState) → s.work < n → visited_chunk (run_to n) k s ≡
        visited_chunk meaning k s }
{}

/// Purse, evals paid and the bounds of the packets sent keep their sum, in each expression and each visit, however it ends.
pub fn balance()
    ensures parts { (code : Program) (seen : ℕ) (env : Env) (e : Expr) (s : VisitState) → IsBalanced
        (meaning code seen env e) s }
    ensures visits { (k : Chunk) (s : VisitState) → IsBalanced (visited_chunk meaning k) s }
{}

/// The surroundings but for the purse, the family, the offer of the services and the rows at `begin` stay.
pub fn steadiness()
    ensures parts { (code : Program) (seen : ℕ) (env : Env) (e : Expr) (s : VisitState) → IsSteady s
        (left_by (meaning code seen env e s).after) }
    ensures visits { (k : Chunk) (s : VisitState) → IsSteady s
        (left_by (visited_chunk meaning k s).after) }
{}

/// The purse never rises, and evals, packets sent and notes only become more, in each expression and each visit, however it
/// ends: what was done before an exception stays.
pub fn growth()
    ensures parts { (code : Program) (seen : ℕ) (env : Env) (e : Expr) (s : VisitState) → HasGrown s
        (left_by (meaning code seen env e s).after) }
    ensures visits { (k : Chunk) (s : VisitState) → HasGrown s
        (left_by (visited_chunk meaning k s).after) }
{}

/// Where an allowance of work isn't spent, a greater one gives the same with so much more work left.
pub fn allowance()
    ensures parts { (code : Program) (seen : ℕ) (env : Env) (e : Expr) (s : VisitState) → IsLonger
        (meaning code seen env e) s }
    ensures visits { (k : Chunk) (s : VisitState) → IsLonger (visited_chunk meaning k) s }
{}

/// From a good state a typed expression of well-formed code never is without a case. Its value has its type, is well formed
/// and keeps the limits; services are asked only with such arguments of the declared types; and what is in the outbox, the
/// notes and the rows is such too. So does a typed, well-formed chunk, at its entry's result type.
pub fn soundness()
    ensures parts { (code : Program) (seen : ℕ) (c : List Param) (env : Env) (e : Expr) (t : Ty) →
        Typed code → IsWellFormedProgram code → HasTy code seen c e t → IsWellFormedExpr e → HasEnv
        c env → Yields (IsGoodValue t) (meaning code seen env e) }
    ensures visits { (k : Chunk) (at : ℕ) (d : Fun) → IsGoodChunk k → place_of k.entry k.code.funs ≡
        Some at → slice_get k.code.funs at ≡ Some d → Yields (IsGoodValue d.result)
        (visited_chunk meaning k) }
{}

/// From a good state a typed expression of well-formed code ends by itself: some allowance of work suffices. So does the visit
/// of a typed, well-formed chunk.
pub fn endings()
    ensures parts { (code : Program) (seen : ℕ) (c : List Param) (env : Env) (e : Expr) (t : Ty) →
        Typed code → IsWellFormedProgram code → HasTy code seen c e t → IsWellFormedExpr e → HasEnv
        c env → (s : VisitState) → IsGoodState s → EndsFrom (meaning code seen env e) s }
    ensures visits { (k : Chunk) → IsGoodChunk k → (s : VisitState) → IsGoodState s → EndsFrom
        (visited_chunk meaning k) s }
{}

/// Visits with different allowances: any two that suffice give the same outcome, effects and work, and a visit's work is spent
/// exactly where no allowance up to its own suffices.
pub fn visits_by_allowance()
    ensures alike { (k : Chunk) (ctx : Ctx) (family : Family) (n : ServiceState) → VisitsAlike k
        ctx family n }
    ensures spent { (k : Chunk) (ctx : Ctx) (family : Family) (n : ServiceState) (w : ℕ) (r : Visit)
        (new : ServiceState) → IsVisit w k ctx family n r new → (r.outcome ≡ outcome.WorkSpent) ↔
        NoneSuffices w k ctx family n }
{}

/// No type of `[]` or `raise` is missing in a typed program, nor in the code of a chunk inside a typed value.
pub fn types_are_there()
    ensures programs { (code : Program) → Typed code → ProgramHasTypes code }
    ensures values { (v : Value) (t : Ty) → HasType v t → ValueHasTypes v }
    ensures chunks { (k : Chunk) → IsTypedChunk k → ChunkHasTypes k }
{}
