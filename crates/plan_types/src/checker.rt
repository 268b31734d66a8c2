//! The checking of parts. The function that checks a whole expression is taken as a parameter, so that
//! each rule is proved by itself.

ghost use Rattle.std.specs.Prelude.{◌≡◌, ◌≢◌, ◌++◌, ◌∷◌, [], ◌≤◌, length, Some, Ok, Err, OnOk, MatchResult};
ghost use Rattle.std.specs.Option.{option_copied};
ghost use Rattle.plan_types_spec.specs.TypingOrder as spec;
ghost use Rattle.plan_types.specs.Checks.{Leaves, Meets, Nests, below};

use crate::settle::want_at;
use crate::state::{Scope, TypingState};
use containers::{Boxed, Items};
use plan_base::{Clause, Clauses, Expr, Exprs, Name, NoMemory, Ty, Tys};
use plan_types_spec::TypeFault;
use std::alloc::Global;

/// The function that checks expressions, and the depth to which it does.
#[derive(Clone, Copy)]
pub struct Checker<F> {
    pub alloc: Global,
    pub depth: usize,
    pub run: F,
}

impl<
    F: Fn(
        Global,
        usize,
        &Scope<'_>,
        &mut TypingState,
        Option<&Ty>,
        &Expr,
    ) -> Result<(Expr, Ty), TypeFault>,
> Checker<F> {
    /// An expression, of which a type may be wanted.
    pub fn run(
        &self,
        scope: &Scope<'_>,
        state: &mut TypingState,
        want: Option<&Ty>,
        e: &Expr,
    ) -> Result<(Expr, Ty), TypeFault>
        requires { Nests self.now.depth (F.pre self.now.run) (F.post self.now.run) }
        ensures meets { Meets (below scope.now self.now.depth state.old.ctx (option_copied
            want.entry) e.now state.old.node) result state.new.node }
        ensures keeps { state.new.ctx ≡ state.old.ctx }
    {
        (self.run)(self.alloc, self.depth, scope, state, want, e)
    }

    /// An expression of which a type is wanted.
    #[tactic(auto, unfolding(plan_types_spec::specs::TypingOrder::wanting))]
    pub fn wanting(
        &self,
        scope: &Scope<'_>,
        state: &mut TypingState,
        ty: &Ty,
        e: &Expr,
    ) -> Result<Expr, TypeFault>
        requires { Nests self.now.depth (F.pre self.now.run) (F.post self.now.run) }
        ensures meets { Meets (spec.wanting scope.now.code.now scope.now.seen (below scope.now
            self.now.depth) state.old.ctx ty.now e.now state.old.node) result state.new.node }
        ensures keeps { state.new.ctx ≡ state.old.ctx }
    {
        match self.run(scope, state, Some(ty), e) {
            Ok((found, found_type)) => {
                drop(found_type);
                Ok(found)
            }
            Err(fault) => Err(fault),
        }
    }

    /// The same in a box.
    pub fn wanting_boxed(
        &self,
        scope: &Scope<'_>,
        state: &mut TypingState,
        ty: &Ty,
        e: &Boxed<Expr>,
    ) -> Result<Boxed<Expr>, TypeFault>
        requires { Nests self.now.depth (F.pre self.now.run) (F.post self.now.run) }
        ensures meets { Meets (spec.wanting scope.now.code.now scope.now.seen (below scope.now
            self.now.depth) state.old.ctx ty.now e.now state.old.node) result state.new.node }
        ensures keeps { state.new.ctx ≡ state.old.ctx }
    {
        match self.wanting(scope, state, ty, e.get()) {
            Ok(found) => Ok(Boxed::new(self.alloc, found)?),
            Err(fault) => Err(fault),
        }
    }

    /// An expression in a box, of which a type may be wanted.
    pub fn run_boxed(
        &self,
        scope: &Scope<'_>,
        state: &mut TypingState,
        want: Option<&Ty>,
        e: &Boxed<Expr>,
    ) -> Result<(Boxed<Expr>, Ty), TypeFault>
        requires { Nests self.now.depth (F.pre self.now.run) (F.post self.now.run) }
        ensures meets { Meets (below scope.now self.now.depth state.old.ctx (option_copied
            want.entry) e.now state.old.node) result state.new.node }
        ensures keeps { state.new.ctx ≡ state.old.ctx }
    {
        match self.run(scope, state, want, e.get()) {
            Ok((found, ty)) => match Boxed::new(self.alloc, found) {
                Ok(found) => Ok((found, ty)),
                Err(_refused) => {
                    drop(ty);
                    Err(TypeFault::NoMemory)
                }
            },
            Err(fault) => Err(fault),
        }
    }

    /// Adds parts from the left, and their types.
    #[tactic(auto, unfolding(plan_types_spec::specs::TypingOrder::parts_from))]
    fn add_parts(
        &self,
        scope: &Scope<'_>,
        state: &mut TypingState,
        wants: Option<&Tys>,
        mut all: &[Expr],
        done: &mut Exprs,
        types: &mut Tys,
    ) -> Result<(), TypeFault>
        requires { Nests self.now.depth (F.pre self.now.run) (F.post self.now.run) }
        ensures meets { Leaves (spec.parts_from scope.now.code.now scope.now.seen (below scope.now
            self.now.depth) done.old types.old state.old.ctx (option_copied wants.entry)
            all.entry.now state.old.node) result (done.new, types.new) state.new.node }
        ensures keeps { state.new.ctx ≡ state.old.ctx }
    {
        while let [e, rest @ ..] = all {
            let found = self.run(scope, state, want_at(wants, types.len()), e)?;
            add_part(done, types, found)?;
            all = rest;
        }
        Ok(())
    }

    /// Parts from the left.
    pub fn parts(
        &self,
        scope: &Scope<'_>,
        state: &mut TypingState,
        wants: Option<&Tys>,
        all: &[Expr],
    ) -> Result<(Exprs, Tys), TypeFault>
        requires { Nests self.now.depth (F.pre self.now.run) (F.post self.now.run) }
        ensures meets { Meets (spec.parts scope.now.code.now scope.now.seen (below scope.now
            self.now.depth) state.old.ctx (option_copied wants.entry) all.entry.now state.old.node)
            result state.new.node }
        ensures keeps { state.new.ctx ≡ state.old.ctx }
    {
        let mut done = Items::new(self.alloc);
        let mut types = Items::new(self.alloc);
        match self.add_parts(scope, state, wants, all, &mut done, &mut types) {
            Ok(()) => Ok((done, types)),
            Err(fault) => {
                drop(done);
                drop(types);
                Err(fault)
            }
        }
    }

    /// A clause with the wanted type.
    fn clause(
        &self,
        scope: &Scope<'_>,
        state: &mut TypingState,
        ty: &Ty,
        clause: &Clause,
    ) -> Result<Clause, TypeFault>
        requires { Nests self.now.depth (F.pre self.now.run) (F.post self.now.run) }
        ensures meets { MatchResult result (λ k. (spec.wanting scope.now.code.now scope.now.seen
            (below scope.now self.now.depth) state.old.ctx ty.now clause.now.body state.old.node ≡
            Ok (k.body, state.new.node)) × (k.name ≡ clause.now.name)) (λ f. f ≢ TypeFault.NoMemory
            → spec.wanting scope.now.code.now scope.now.seen (below scope.now self.now.depth)
            state.old.ctx ty.now clause.now.body state.old.node ≡ Err f) }
        ensures keeps { state.new.ctx ≡ state.old.ctx }
    {
        let name = copy_name(self.alloc, &clause.name)?;
        match self.wanting(scope, state, ty, &clause.body) {
            Ok(body) => Ok(Clause { name, body }),
            Err(fault) => {
                drop(name);
                Err(fault)
            }
        }
    }

    /// Clauses from the first, each with the wanted type.
    #[tactic(auto, unfolding(plan_types_spec::specs::TypingOrder::clauses_from))]
    pub fn clauses(
        &self,
        scope: &Scope<'_>,
        state: &mut TypingState,
        ty: &Ty,
        mut all: &[Clause],
    ) -> Result<Clauses, TypeFault>
        requires { Nests self.now.depth (F.pre self.now.run) (F.post self.now.run) }
        ensures meets { Meets (spec.clauses_from scope.now.code.now scope.now.seen (below scope.now
            self.now.depth) [] state.old.ctx ty.now all.entry.now state.old.node) result
            state.new.node }
        ensures keeps { state.new.ctx ≡ state.old.ctx }
    {
        let mut done = Items::new(self.alloc);
        while let [clause, rest @ ..] = all {
            let clause = self.clause(scope, state, ty, clause)?;
            done.add(clause)?;
            all = rest;
        }
        Ok(done)
    }
}

/// Adds a part that was found, and its type.
fn add_part(done: &mut Exprs, types: &mut Tys, found: (Expr, Ty)) -> Result<(), NoMemory>
    ensures { OnOk result ((done.new ≡ done.old ++ found.0 ∷ []) × (types.new ≡ types.old ++ found.1
        ∷ [])) }
{
    let (part, ty) = found;
    done.add(part)?;
    types.add(ty)?;
    Ok(())
}

/// What a clause catches, copied.
fn copy_name(alloc: Global, name: &Option<Name>) -> Result<Option<Name>, NoMemory>
    ensures { Rattle.std.specs.Prelude.IfOk result (λ n. n ≡ name.now) }
{
    match name {
        None => Ok(None),
        Some(name) => Ok(Some(name.copy(alloc)?)),
    }
}
