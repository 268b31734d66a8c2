//! An expression by its form, to a depth.

ghost use Rattle.std.specs.Prelude.{◌≡◌, ℕ, Some, IfOk, option_and_then};
ghost use Rattle.std.specs.Option.{option_copied};
ghost use Rattle.plan_base.specs.declared.tree.Expr.{out-Expr};
ghost use Rattle.plan_types_spec.specs.TypingOrder as spec;
ghost use Rattle.plan_types.specs.Checks.{Meets, Nests, below};

use crate::checker::Checker;
use crate::names::{binding, is_exception};
use crate::settle::{items_of, list_of, settle_type, shallow};
use crate::state::{Scope, TypingState};
use plan_base::{Expr, Name, NoMemory, Param, Place, Ty};
use plan_base_copy::TryClone;
use plan_types_spec::TypeFault;
use std::alloc::Global;

/// An expression and a type as they stand.
fn copies(alloc: Global, e: &Expr, ty: &Ty) -> Result<(Expr, Ty), NoMemory>
    ensures { IfOk result (λ r. r ≡ (e.now, ty.now)) }
{
    match ty.copy(alloc) {
        Ok(ty) => match e.copy(alloc) {
            Ok(e) => Ok((e, ty)),
            Err(NoMemory) => {
                drop(ty);
                Err(NoMemory)
            }
        },
        Err(NoMemory) => Err(NoMemory),
    }
}

/// A literal, which has a type of its own.
fn literal(
    alloc: Global,
    at: u32,
    node: u32,
    want: Option<&Ty>,
    e: &Expr,
    ty: Ty,
) -> Result<(Expr, Ty), TypeFault>
    ensures { Meets (spec.settled_type at (option_copied want.entry) e.now ty node) result node }
{
    match e.copy(alloc) {
        Ok(e) => settle_type(alloc, at, node, want, e, ty),
        Err(NoMemory) => {
            drop(ty);
            Err(TypeFault::NoMemory)
        }
    }
}

/// A name that was bound.
#[tactic(auto, unfolding(plan_types_spec::specs::TypingOrder::variable))]
fn variable(
    alloc: Global,
    ctx: &[Param],
    at: u32,
    node: u32,
    want: Option<&Ty>,
    e: &Expr,
    name: &Name,
) -> Result<(Expr, Ty), TypeFault>
    ensures { Meets (spec.variable ctx.now at (option_copied want.entry) e.now name.now node) result
        node }
{
    match binding(name, ctx) {
        Some(ty) => match copies(alloc, e, ty) {
            Ok((e, ty)) => settle_type(alloc, at, node, want, e, ty),
            Err(NoMemory) => Err(TypeFault::NoMemory),
        },
        None => Err(TypeFault::UnknownName(Place::Node(at))),
    }
}

/// The type of the items of an empty list, where a list is wanted.
fn item_type(alloc: Global, at: u32, want: Option<&Ty>) -> Result<Ty, TypeFault>
    ensures { (node : ℕ) → Meets (spec.or_refuse (option_and_then spec.items_of (option_copied
        want.entry)) (TypeFault.NeedsType (Place.Node at)) node) result node }
{
    match items_of(want) {
        Some(item) => Ok(item.copy(alloc)?),
        None => Err(TypeFault::NeedsType(Place::Node(at))),
    }
}

/// An empty list as it stands, with the type of its items, and its type.
fn empty_as_written(alloc: Global, e: &Expr, item: &Ty) -> Result<(Expr, Ty), NoMemory>
    ensures { IfOk result (λ r. r ≡ (e.now, Ty.List item.now)) }
{
    let item = item.copy(alloc)?;
    match list_of(alloc, item) {
        Ok(ty) => match e.copy(alloc) {
            Ok(e) => Ok((e, ty)),
            Err(NoMemory) => {
                drop(ty);
                Err(NoMemory)
            }
        },
        Err(NoMemory) => Err(NoMemory),
    }
}

/// An empty list of such items.
fn empty_of_items(
    alloc: Global,
    at: u32,
    node: u32,
    want: Option<&Ty>,
    item: Ty,
) -> Result<(Expr, Ty), TypeFault>
    ensures { Meets (spec.shallow at (option_copied want.entry) (Expr.Nil (Some item)) (Ty.List
        item) node) result node }
{
    match item.copy(alloc) {
        Ok(given) => match list_of(alloc, item) {
            Ok(ty) => shallow(alloc, at, node, want, Expr::Nil(Some(given)), ty),
            Err(NoMemory) => {
                drop(given);
                Err(TypeFault::NoMemory)
            }
        },
        Err(NoMemory) => {
            drop(item);
            Err(TypeFault::NoMemory)
        }
    }
}

/// An empty list.
#[tactic(auto, unfolding(plan_types_spec::specs::TypingOrder::empty))]
fn empty(
    alloc: Global,
    at: u32,
    node: u32,
    want: Option<&Ty>,
    e: &Expr,
    item: &Option<Ty>,
) -> Result<(Expr, Ty), TypeFault>
    ensures { Meets (spec.empty at (option_copied want.entry) e.now item.now node) result node }
{
    match item {
        Some(item) => match empty_as_written(alloc, e, item) {
            Ok((whole, ty)) => shallow(alloc, at, node, want, whole, ty),
            Err(NoMemory) => Err(TypeFault::NoMemory),
        },
        None => match item_type(alloc, at, want) {
            Ok(item) => empty_of_items(alloc, at, node, want, item),
            Err(fault) => Err(fault),
        },
    }
}

/// An exception raised where that type is wanted, and its type.
fn raise_of_type(alloc: Global, name: &Name, ty: &Ty) -> Result<(Expr, Ty), NoMemory>
    ensures { IfOk result (λ r. r ≡ (Expr.Raise name.now (Some ty.now), ty.now)) }
{
    let name = name.copy(alloc)?;
    match ty.copy(alloc) {
        Ok(given) => match ty.copy(alloc) {
            Ok(ty) => Ok((Expr::Raise(name, Some(given)), ty)),
            Err(NoMemory) => {
                drop(given);
                drop(name);
                Err(NoMemory)
            }
        },
        Err(NoMemory) => {
            drop(name);
            Err(NoMemory)
        }
    }
}

/// An exception raised.
#[tactic(auto, unfolding(plan_types_spec::specs::TypingOrder::raising))]
fn raising(
    alloc: Global,
    scope: &Scope<'_>,
    at: u32,
    node: u32,
    want: Option<&Ty>,
    e: &Expr,
    name: &Name,
    ty: &Option<Ty>,
) -> Result<(Expr, Ty), TypeFault>
    ensures { Meets (spec.raising scope.now.code.now at (option_copied want.entry) e.now name.now
        ty.now node) result node }
{
    if !is_exception(scope.code, name) {
        return Err(TypeFault::UnknownName(Place::Node(at)));
    }
    let found = match ty {
        Some(ty) => copies(alloc, e, ty),
        None => match want {
            Some(ty) => raise_of_type(alloc, name, ty),
            None => return Err(TypeFault::NeedsType(Place::Node(at))),
        },
    };
    match found {
        Ok((whole, ty)) => shallow(alloc, at, node, want, whole, ty),
        Err(NoMemory) => Err(TypeFault::NoMemory),
    }
}

impl<
    F: Fn(
        Global,
        usize,
        &Scope<'_>,
        &mut TypingState,
        Option<&Ty>,
        &Expr,
    ) -> Result<(Expr, Ty), TypeFault>,
> Checker<F> {
    /// Each form by its own rule.
    #[tactic(auto, using(plan_base::specs::Trees::trees))]
    fn check_form(
        &self,
        scope: &Scope<'_>,
        state: &mut TypingState,
        at: u32,
        want: Option<&Ty>,
        e: &Expr,
    ) -> Result<(Expr, Ty), TypeFault>
        requires { Nests self.now.depth (F.pre self.now.run) (F.post self.now.run) }
        ensures meets { Meets (spec.opened_form scope.now.code.now scope.now.seen (below scope.now
            self.now.depth) state.old.ctx at (option_copied want.entry) e.now (out-Expr e.now)
            state.old.node) result state.new.node }
        ensures keeps { state.new.ctx ≡ state.old.ctx }
    {
        match e {
            Expr::Unit => literal(self.alloc, at, state.node, want, e, Ty::Unit),
            Expr::Bool(_) => literal(self.alloc, at, state.node, want, e, Ty::Bool),
            Expr::Int(_) => literal(self.alloc, at, state.node, want, e, Ty::Int),
            Expr::Char(_) => literal(self.alloc, at, state.node, want, e, Ty::Char),
            Expr::Str(_) => literal(self.alloc, at, state.node, want, e, Ty::Str),
            Expr::Blob(_) => literal(self.alloc, at, state.node, want, e, Ty::Blob),
            Expr::Host(_) => literal(self.alloc, at, state.node, want, e, Ty::Host),
            Expr::Dev(_) => literal(self.alloc, at, state.node, want, e, Ty::Dev),
            Expr::Nil(item) => empty(self.alloc, at, state.node, want, e, item),
            Expr::Var(name) => variable(
                self.alloc,
                state.ctx.as_slice(),
                at,
                state.node,
                want,
                e,
                name,
            ),
            Expr::Raise(name, ty) => raising(self.alloc, scope, at, state.node, want, e, name, ty),
            Expr::Tuple(es) => self.tuple(scope, state, at, want, es),
            Expr::Call(f, es) => self.call(scope, state, at, want, f, es),
            Expr::If(a, b, c) => self.choice(scope, state, want, a, b, c),
            Expr::Let(name, ty, a, b) => self.binder(scope, state, want, name, ty, a, b),
            Expr::Then(a, b) => self.sequence(scope, state, want, a, b),
            Expr::And(a, b) => self.both(scope, state, at, want, a, b),
            Expr::Or(a, b) => self.either(scope, state, at, want, a, b),
            Expr::Not(a) => self.negation(scope, state, at, want, a),
            Expr::Binary(op, a, b) => self.operation(scope, state, at, want, *op, a, b),
            Expr::Part(number, a) => self.part(scope, state, at, want, *number, a),
            Expr::Try(a, clauses) => self.handling(scope, state, at, want, a, clauses),
            Expr::Foldl(f, a, l) => self.fold_left(scope, state, at, want, f, a, l),
            Expr::Foldr(f, a, l) => self.fold_right(scope, state, at, want, f, a, l),
            Expr::ChunkOf(f, es) => self.packing(scope, state, at, want, f, es),
            Expr::Eval(a) => self.evaluation(scope, state, at, want, a),
            Expr::OnRemote(a, h, n, route) => self.remote(scope, state, at, want, a, h, n, route),
            Expr::OnNeighbor(a, h, n, d) => self.neighbour(scope, state, at, want, a, h, n, d),
        }
    }

    /// An expression takes the next number, and its parts the numbers after it.
    #[tactic(auto, unfolding(plan_types_spec::specs::TypingOrder::expression))]
    fn expression(
        &self,
        scope: &Scope<'_>,
        state: &mut TypingState,
        want: Option<&Ty>,
        e: &Expr,
    ) -> Result<(Expr, Ty), TypeFault>
        requires { Nests self.now.depth (F.pre self.now.run) (F.post self.now.run) }
        ensures meets { Meets (spec.expression scope.now.code.now scope.now.seen (below scope.now
            self.now.depth) state.old.ctx (option_copied want.entry) e.now state.old.node) result
            state.new.node }
        ensures keeps { state.new.ctx ≡ state.old.ctx }
    {
        let at = state.node;
        state.node = at.saturating_add(1);
        self.check_form(scope, state, at, want, e)
    }
}

/// An expression of at most that depth, of which a type may be wanted: the expression with its types
/// filled in, and its type.
pub fn check_expr(
    alloc: Global,
    depth: usize,
    scope: &Scope<'_>,
    state: &mut TypingState,
    want: Option<&Ty>,
    e: &Expr,
) -> Result<(Expr, Ty), TypeFault>
    ensures meets { Meets (below scope.now depth state.old.ctx (option_copied want.entry) e.now
        state.old.node) result state.new.node }
    ensures keeps { state.new.ctx ≡ state.old.ctx }
{
    if depth == 0 {
        return Err(TypeFault::CodeTooLarge);
    }
    let checker = Checker {
        alloc,
        depth: depth - 1,
        run: check_expr,
    };
    checker.expression(scope, state, want, e)
}
