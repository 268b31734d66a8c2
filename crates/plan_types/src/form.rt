//! The rules of the forms that hold expressions, other than operators and calls.

ghost use Rattle.std.specs.Prelude.{ℕ, ◌≡◌, ◌++◌, ◌∷◌, [], IfOk, OnOk, OnErr};
ghost use Rattle.std.specs.Option.{option_copied};
ghost use Rattle.plan_types_spec.specs.TypingNames.{binds};
ghost use Rattle.plan_types_spec.specs.TypingOrder as spec;
ghost use Rattle.plan_types.specs.Checks.{Meets, Nests, below};

use crate::checker::Checker;
use crate::names::any_unknown;
use crate::settle::{part_in, parts_of, settle_type, shallow};
use crate::state::{Scope, TypingState};
use containers::Boxed;
use plan_base::{Clauses, Expr, Exprs, Name, NoMemory, Param, Params, Place, Ty};
use plan_base_copy::TryClone;
use plan_types_spec::TypeFault;
use std::alloc::Global;

impl<
    F: Fn(
        Global,
        usize,
        &Scope<'_>,
        &mut TypingState,
        Option<&Ty>,
        &Expr,
    ) -> Result<(Expr, Ty), TypeFault>,
> Checker<F> {
    /// A tuple.
    #[tactic(auto, unfolding(plan_types_spec::specs::TypingOrder::tuple))]
    pub fn tuple(
        &self,
        scope: &Scope<'_>,
        state: &mut TypingState,
        at: u32,
        want: Option<&Ty>,
        es: &Exprs,
    ) -> Result<(Expr, Ty), TypeFault>
        requires { Nests self.now.depth (F.pre self.now.run) (F.post self.now.run) }
        ensures meets { Meets (spec.tuple scope.now.code.now scope.now.seen (below scope.now
            self.now.depth) state.old.ctx at (option_copied want.entry) es.now state.old.node)
            result state.new.node }
        ensures keeps { state.new.ctx ≡ state.old.ctx }
    {
        match self.parts(scope, state, parts_of(es.len(), want), es.as_slice()) {
            Ok((parts, types)) => shallow(
                self.alloc,
                at,
                state.node,
                want,
                Expr::Tuple(parts),
                Ty::Tuple(types),
            ),
            Err(fault) => Err(fault),
        }
    }

    /// A part of a tuple.
    #[tactic(auto, unfolding(plan_types_spec::specs::TypingOrder::part))]
    pub fn part(
        &self,
        scope: &Scope<'_>,
        state: &mut TypingState,
        at: u32,
        want: Option<&Ty>,
        number: u8,
        a: &Boxed<Expr>,
    ) -> Result<(Expr, Ty), TypeFault>
        requires { Nests self.now.depth (F.pre self.now.run) (F.post self.now.run) }
        ensures meets { Meets (spec.part scope.now.code.now scope.now.seen (below scope.now
            self.now.depth) state.old.ctx at (option_copied want.entry) number a.now state.old.node)
            result state.new.node }
        ensures keeps { state.new.ctx ≡ state.old.ctx }
    {
        match self.run_boxed(scope, state, None, a) {
            Ok((part, ty)) => {
                let item = part_type(self.alloc, at, number, &ty);
                drop(ty);
                match item {
                    Ok(item) => {
                        let whole = Expr::Part(number, part);
                        settle_type(self.alloc, at, state.node, want, whole, item)
                    }
                    Err(fault) => {
                        drop(part);
                        Err(fault)
                    }
                }
            }
            Err(fault) => Err(fault),
        }
    }

    /// `if`.
    #[tactic(auto, unfolding(plan_types_spec::specs::TypingOrder::choice))]
    pub fn choice(
        &self,
        scope: &Scope<'_>,
        state: &mut TypingState,
        want: Option<&Ty>,
        a: &Boxed<Expr>,
        b: &Boxed<Expr>,
        c: &Boxed<Expr>,
    ) -> Result<(Expr, Ty), TypeFault>
        requires { Nests self.now.depth (F.pre self.now.run) (F.post self.now.run) }
        ensures meets { Meets (spec.choice scope.now.code.now scope.now.seen (below scope.now
            self.now.depth) state.old.ctx (option_copied want.entry) a.now b.now c.now
            state.old.node) result state.new.node }
        ensures keeps { state.new.ctx ≡ state.old.ctx }
    {
        match self.wanting_boxed(scope, state, &Ty::Bool, a) {
            Ok(test) => match self.run_boxed(scope, state, want, b) {
                Ok((first, ty)) => match self.wanting_boxed(scope, state, &ty, c) {
                    Ok(other) => Ok((Expr::If(test, first, other), ty)),
                    Err(fault) => {
                        drop(test);
                        drop(first);
                        drop(ty);
                        Err(fault)
                    }
                },
                Err(fault) => {
                    drop(test);
                    Err(fault)
                }
            },
            Err(fault) => Err(fault),
        }
    }

    /// A binding.
    #[tactic(auto, unfolding(plan_types_spec::specs::TypingOrder::binder))]
    pub fn binder(
        &self,
        scope: &Scope<'_>,
        state: &mut TypingState,
        want: Option<&Ty>,
        name: &Name,
        ty: &Ty,
        a: &Boxed<Expr>,
        b: &Boxed<Expr>,
    ) -> Result<(Expr, Ty), TypeFault>
        requires { Nests self.now.depth (F.pre self.now.run) (F.post self.now.run) }
        ensures meets { Meets (spec.binder scope.now.code.now scope.now.seen (below scope.now
            self.now.depth) state.old.ctx (option_copied want.entry) name.now ty.now a.now b.now
            state.old.node) result state.new.node }
        ensures keeps { state.new.ctx ≡ state.old.ctx }
    {
        match self.wanting_boxed(scope, state, ty, a) {
            Ok(bound) => match self.inside(scope, state, want, name, ty, b) {
                Ok((body, result)) => match bound_in(self.alloc, name, ty, bound, body) {
                    Ok(whole) => Ok((whole, result)),
                    Err(NoMemory) => {
                        drop(result);
                        Err(TypeFault::NoMemory)
                    }
                },
                Err(fault) => {
                    drop(bound);
                    Err(fault)
                }
            },
            Err(fault) => Err(fault),
        }
    }

    /// An expression under one more binding.
    fn inside(
        &self,
        scope: &Scope<'_>,
        state: &mut TypingState,
        want: Option<&Ty>,
        name: &Name,
        ty: &Ty,
        e: &Boxed<Expr>,
    ) -> Result<(Boxed<Expr>, Ty), TypeFault>
        requires { Nests self.now.depth (F.pre self.now.run) (F.post self.now.run) }
        ensures meets { Meets (below scope.now self.now.depth (state.old.ctx ++ binds name.now
            ty.now ∷ []) (option_copied want.entry) e.now state.old.node) result state.new.node }
        ensures keeps { state.new.ctx ≡ state.old.ctx }
    {
        let outer = state.ctx.len();
        bind(self.alloc, &mut state.ctx, name, ty)?;
        let found = self.run_boxed(scope, state, want, e);
        state.ctx.truncate(outer);
        found
    }

    /// `a; b`.
    #[tactic(auto, unfolding(plan_types_spec::specs::TypingOrder::sequence))]
    pub fn sequence(
        &self,
        scope: &Scope<'_>,
        state: &mut TypingState,
        want: Option<&Ty>,
        a: &Boxed<Expr>,
        b: &Boxed<Expr>,
    ) -> Result<(Expr, Ty), TypeFault>
        requires { Nests self.now.depth (F.pre self.now.run) (F.post self.now.run) }
        ensures meets { Meets (spec.sequence scope.now.code.now scope.now.seen (below scope.now
            self.now.depth) state.old.ctx (option_copied want.entry) a.now b.now state.old.node)
            result state.new.node }
        ensures keeps { state.new.ctx ≡ state.old.ctx }
    {
        match self.wanting_boxed(scope, state, &Ty::Unit, a) {
            Ok(first) => match self.run_boxed(scope, state, want, b) {
                Ok((last, ty)) => Ok((Expr::Then(first, last), ty)),
                Err(fault) => {
                    drop(first);
                    Err(fault)
                }
            },
            Err(fault) => Err(fault),
        }
    }

    /// `and`.
    #[tactic(auto, unfolding(plan_types_spec::specs::TypingOrder::both))]
    pub fn both(
        &self,
        scope: &Scope<'_>,
        state: &mut TypingState,
        at: u32,
        want: Option<&Ty>,
        a: &Boxed<Expr>,
        b: &Boxed<Expr>,
    ) -> Result<(Expr, Ty), TypeFault>
        requires { Nests self.now.depth (F.pre self.now.run) (F.post self.now.run) }
        ensures meets { Meets (spec.both scope.now.code.now scope.now.seen (below scope.now
            self.now.depth) state.old.ctx at (option_copied want.entry) a.now b.now state.old.node)
            result state.new.node }
        ensures keeps { state.new.ctx ≡ state.old.ctx }
    {
        match self.wanting_boxed(scope, state, &Ty::Bool, a) {
            Ok(first) => match self.wanting_boxed(scope, state, &Ty::Bool, b) {
                Ok(second) => settle_type(
                    self.alloc,
                    at,
                    state.node,
                    want,
                    Expr::And(first, second),
                    Ty::Bool,
                ),
                Err(fault) => {
                    drop(first);
                    Err(fault)
                }
            },
            Err(fault) => Err(fault),
        }
    }

    /// `or`.
    #[tactic(auto, unfolding(plan_types_spec::specs::TypingOrder::either))]
    pub fn either(
        &self,
        scope: &Scope<'_>,
        state: &mut TypingState,
        at: u32,
        want: Option<&Ty>,
        a: &Boxed<Expr>,
        b: &Boxed<Expr>,
    ) -> Result<(Expr, Ty), TypeFault>
        requires { Nests self.now.depth (F.pre self.now.run) (F.post self.now.run) }
        ensures meets { Meets (spec.either scope.now.code.now scope.now.seen (below scope.now
            self.now.depth) state.old.ctx at (option_copied want.entry) a.now b.now state.old.node)
            result state.new.node }
        ensures keeps { state.new.ctx ≡ state.old.ctx }
    {
        match self.wanting_boxed(scope, state, &Ty::Bool, a) {
            Ok(first) => match self.wanting_boxed(scope, state, &Ty::Bool, b) {
                Ok(second) => settle_type(
                    self.alloc,
                    at,
                    state.node,
                    want,
                    Expr::Or(first, second),
                    Ty::Bool,
                ),
                Err(fault) => {
                    drop(first);
                    Err(fault)
                }
            },
            Err(fault) => Err(fault),
        }
    }

    /// `not`.
    #[tactic(auto, unfolding(plan_types_spec::specs::TypingOrder::negation))]
    pub fn negation(
        &self,
        scope: &Scope<'_>,
        state: &mut TypingState,
        at: u32,
        want: Option<&Ty>,
        a: &Boxed<Expr>,
    ) -> Result<(Expr, Ty), TypeFault>
        requires { Nests self.now.depth (F.pre self.now.run) (F.post self.now.run) }
        ensures meets { Meets (spec.negation scope.now.code.now scope.now.seen (below scope.now
            self.now.depth) state.old.ctx at (option_copied want.entry) a.now state.old.node) result
            state.new.node }
        ensures keeps { state.new.ctx ≡ state.old.ctx }
    {
        match self.wanting_boxed(scope, state, &Ty::Bool, a) {
            Ok(test) => settle_type(self.alloc, at, state.node, want, Expr::Not(test), Ty::Bool),
            Err(fault) => Err(fault),
        }
    }

    /// `try`.
    #[tactic(auto, unfolding(plan_types_spec::specs::TypingOrder::handling))]
    pub fn handling(
        &self,
        scope: &Scope<'_>,
        state: &mut TypingState,
        at: u32,
        want: Option<&Ty>,
        a: &Boxed<Expr>,
        clauses: &Clauses,
    ) -> Result<(Expr, Ty), TypeFault>
        requires { Nests self.now.depth (F.pre self.now.run) (F.post self.now.run) }
        ensures meets { Meets (spec.handling scope.now.code.now scope.now.seen (below scope.now
            self.now.depth) state.old.ctx at (option_copied want.entry) a.now clauses.now
            state.old.node) result state.new.node }
        ensures keeps { state.new.ctx ≡ state.old.ctx }
    {
        if any_unknown(scope.code, clauses.as_slice()) {
            return Err(TypeFault::UnknownName(Place::Node(at)));
        }
        match self.run_boxed(scope, state, want, a) {
            Ok((tried, ty)) => match self.clauses(scope, state, &ty, clauses.as_slice()) {
                Ok(handlers) => Ok((Expr::Try(tried, handlers), ty)),
                Err(fault) => {
                    drop(tried);
                    drop(ty);
                    Err(fault)
                }
            },
            Err(fault) => Err(fault),
        }
    }

    /// `eval`.
    #[tactic(auto, unfolding(plan_types_spec::specs::TypingOrder::evaluation))]
    pub fn evaluation(
        &self,
        scope: &Scope<'_>,
        state: &mut TypingState,
        at: u32,
        want: Option<&Ty>,
        a: &Boxed<Expr>,
    ) -> Result<(Expr, Ty), TypeFault>
        requires { Nests self.now.depth (F.pre self.now.run) (F.post self.now.run) }
        ensures meets { Meets (spec.evaluation scope.now.code.now scope.now.seen (below scope.now
            self.now.depth) state.old.ctx at (option_copied want.entry) a.now state.old.node) result
            state.new.node }
        ensures keeps { state.new.ctx ≡ state.old.ctx }
    {
        match self.wanting_boxed(scope, state, &Ty::Chunk, a) {
            Ok(chunk) => settle_type(
                self.alloc,
                at,
                state.node,
                want,
                Expr::Eval(chunk),
                Ty::Unit,
            ),
            Err(fault) => Err(fault),
        }
    }

    /// `OnRemote`.
    #[tactic(auto, unfolding(plan_types_spec::specs::TypingOrder::remote))]
    pub fn remote(
        &self,
        scope: &Scope<'_>,
        state: &mut TypingState,
        at: u32,
        want: Option<&Ty>,
        a: &Boxed<Expr>,
        h: &Boxed<Expr>,
        n: &Boxed<Expr>,
        route: &Name,
    ) -> Result<(Expr, Ty), TypeFault>
        requires { Nests self.now.depth (F.pre self.now.run) (F.post self.now.run) }
        ensures meets { Meets (spec.remote scope.now.code.now scope.now.seen (below scope.now
            self.now.depth) state.old.ctx at (option_copied want.entry) a.now h.now n.now route.now
            state.old.node) result state.new.node }
        ensures keeps { state.new.ctx ≡ state.old.ctx }
    {
        match self.wanting_boxed(scope, state, &Ty::Chunk, a) {
            Ok(chunk) => match self.wanting_boxed(scope, state, &Ty::Host, h) {
                Ok(host) => match self.wanting_boxed(scope, state, &Ty::Int, n) {
                    Ok(bound) => {
                        let whole = routed(self.alloc, chunk, host, bound, route)?;
                        settle_type(self.alloc, at, state.node, want, whole, Ty::Unit)
                    }
                    Err(fault) => {
                        drop(chunk);
                        drop(host);
                        Err(fault)
                    }
                },
                Err(fault) => {
                    drop(chunk);
                    Err(fault)
                }
            },
            Err(fault) => Err(fault),
        }
    }

    /// `OnNeighbor`.
    #[tactic(auto, unfolding(plan_types_spec::specs::TypingOrder::neighbour))]
    pub fn neighbour(
        &self,
        scope: &Scope<'_>,
        state: &mut TypingState,
        at: u32,
        want: Option<&Ty>,
        a: &Boxed<Expr>,
        h: &Boxed<Expr>,
        n: &Boxed<Expr>,
        d: &Boxed<Expr>,
    ) -> Result<(Expr, Ty), TypeFault>
        requires { Nests self.now.depth (F.pre self.now.run) (F.post self.now.run) }
        ensures meets { Meets (spec.neighbour scope.now.code.now scope.now.seen (below scope.now
            self.now.depth) state.old.ctx at (option_copied want.entry) a.now h.now n.now d.now
            state.old.node) result state.new.node }
        ensures keeps { state.new.ctx ≡ state.old.ctx }
    {
        let chunk = self.wanting_boxed(scope, state, &Ty::Chunk, a)?;
        match self.wanting_boxed(scope, state, &Ty::Host, h) {
            Ok(host) => match self.wanting_boxed(scope, state, &Ty::Int, n) {
                Ok(bound) => match self.wanting_boxed(scope, state, &Ty::Dev, d) {
                    Ok(dev) => {
                        let whole = Expr::OnNeighbor(chunk, host, bound, dev);
                        settle_type(self.alloc, at, state.node, want, whole, Ty::Unit)
                    }
                    Err(fault) => {
                        drop(chunk);
                        drop(host);
                        drop(bound);
                        Err(fault)
                    }
                },
                Err(fault) => {
                    drop(chunk);
                    drop(host);
                    Err(fault)
                }
            },
            Err(fault) => {
                drop(chunk);
                Err(fault)
            }
        }
    }
}

/// A copy of the type of a tuple's part with that number.
fn part_type(alloc: Global, at: u32, number: u8, ty: &Ty) -> Result<Ty, TypeFault>
    ensures { (node : ℕ) → Meets (spec.or_refuse (spec.part_in number ty.now) (TypeFault.WrongShape
        (Place.Node at)) node) result node }
{
    match part_in(number, ty) {
        Some(item) => Ok(item.copy(alloc)?),
        None => Err(TypeFault::WrongShape(Place::Node(at))),
    }
}

/// Adds a binding to those in scope.
fn bind(alloc: Global, ctx: &mut Params, name: &Name, ty: &Ty) -> Result<(), NoMemory>
    ensures added { OnOk result (ctx.new ≡ ctx.old ++ binds name.now ty.now ∷ []) }
    ensures refused { OnErr result (ctx.new ≡ ctx.old) }
{
    let param = binding_of(alloc, name, ty)?;
    Ok(ctx.add(param)?)
}

/// A binding.
fn binding_of(alloc: Global, name: &Name, ty: &Ty) -> Result<Param, NoMemory>
    ensures { IfOk result (λ p. p ≡ binds name.now ty.now) }
{
    match ty.copy(alloc) {
        Ok(ty) => match name.copy(alloc) {
            Ok(name) => Ok(Param { name, ty }),
            Err(NoMemory) => {
                drop(ty);
                Err(NoMemory)
            }
        },
        Err(NoMemory) => Err(NoMemory),
    }
}

/// `OnRemote(chunk, host, bound, route)`.
fn routed(
    alloc: Global,
    chunk: Boxed<Expr>,
    host: Boxed<Expr>,
    bound: Boxed<Expr>,
    route: &Name,
) -> Result<Expr, NoMemory>
    ensures { IfOk result (λ e. e ≡ Expr.OnRemote chunk host bound route.now) }
{
    match route.copy(alloc) {
        Ok(route) => Ok(Expr::OnRemote(chunk, host, bound, route)),
        Err(NoMemory) => {
            drop(chunk);
            drop(host);
            drop(bound);
            Err(NoMemory)
        }
    }
}

/// `let val name : ty = bound in body end`.
fn bound_in(
    alloc: Global,
    name: &Name,
    ty: &Ty,
    bound: Boxed<Expr>,
    body: Boxed<Expr>,
) -> Result<Expr, NoMemory>
    ensures { IfOk result (λ e. e ≡ Expr.Let name.now ty.now bound body) }
{
    match binding_of(alloc, name, ty) {
        Ok(param) => {
            let Param { name, ty } = param;
            Ok(Expr::Let(name, ty, bound, body))
        }
        Err(NoMemory) => {
            drop(bound);
            drop(body);
            Err(NoMemory)
        }
    }
}
