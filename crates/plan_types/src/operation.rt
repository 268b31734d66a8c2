//! The rules of the operators.

ghost use Rattle.std.specs.Prelude.{◌≡◌};
ghost use Rattle.std.specs.Option.{option_copied};
ghost use Rattle.plan_base.specs.declared.tree.Expr.TheVariants as x;
ghost use Rattle.plan_types_spec.specs.TypingOrder as spec;
ghost use Rattle.plan_types.specs.Checks.{Meets, Nests, below};

use crate::checker::Checker;
use crate::settle::{is_joined, is_ordered, items_of, list_of, settle_type, shallow};
use crate::state::{Scope, TypingState};
use containers::Boxed;
use plan_base::{Expr, NoMemory, Op, Place, Ty};
use plan_types_spec::TypeFault;
use std::alloc::Global;

impl<
    F: Fn(
        Global,
        usize,
        &Scope<'_>,
        &mut TypingState,
        Option<&Ty>,
        &Expr,
    ) -> Result<(Expr, Ty), TypeFault>,
> Checker<F> {
    /// The second operand, of which that type is wanted, where an operator gives the other.
    fn second_operand(
        &self,
        scope: &Scope<'_>,
        state: &mut TypingState,
        at: u32,
        want: Option<&Ty>,
        op: Op,
        first: Boxed<Expr>,
        ty: Ty,
        b: &Boxed<Expr>,
        gives: Ty,
    ) -> Result<(Expr, Ty), TypeFault>
        requires { Nests self.now.depth (F.pre self.now.run) (F.post self.now.run) }
        ensures meets { Meets (spec.after (spec.wanting scope.now.code.now scope.now.seen (below
            scope.now self.now.depth) state.old.ctx ty b.now state.old.node) (λ q. spec.settled_type
            at (option_copied want.entry) (x.Binary op first q) gives)) result state.new.node }
        ensures keeps { state.new.ctx ≡ state.old.ctx }
    {
        let found = self.wanting_boxed(scope, state, &ty, b);
        drop(ty);
        match found {
            Ok(second) => {
                let whole = Expr::Binary(op, first, second);
                settle_type(self.alloc, at, state.node, want, whole, gives)
            }
            Err(fault) => {
                drop(first);
                drop(gives);
                Err(fault)
            }
        }
    }

    /// The second operand of `^`, which has the type of the first.
    fn joined_operand(
        &self,
        scope: &Scope<'_>,
        state: &mut TypingState,
        at: u32,
        want: Option<&Ty>,
        op: Op,
        first: Boxed<Expr>,
        ty: Ty,
        b: &Boxed<Expr>,
    ) -> Result<(Expr, Ty), TypeFault>
        requires { Nests self.now.depth (F.pre self.now.run) (F.post self.now.run) }
        ensures meets { Meets (spec.after (spec.wanting scope.now.code.now scope.now.seen (below
            scope.now self.now.depth) state.old.ctx ty b.now state.old.node) (λ q. spec.settled_type
            at (option_copied want.entry) (x.Binary op first q) ty)) result state.new.node }
        ensures keeps { state.new.ctx ≡ state.old.ctx }
    {
        match self.wanting_boxed(scope, state, &ty, b) {
            Ok(second) => {
                let whole = Expr::Binary(op, first, second);
                settle_type(self.alloc, at, state.node, want, whole, ty)
            }
            Err(fault) => {
                drop(first);
                drop(ty);
                Err(fault)
            }
        }
    }

    /// Two numbers and an operator that gives a number.
    #[tactic(auto, unfolding(plan_types_spec::specs::TypingOrder::calculation))]
    fn calculation(
        &self,
        scope: &Scope<'_>,
        state: &mut TypingState,
        at: u32,
        want: Option<&Ty>,
        op: Op,
        a: &Boxed<Expr>,
        b: &Boxed<Expr>,
    ) -> Result<(Expr, Ty), TypeFault>
        requires { Nests self.now.depth (F.pre self.now.run) (F.post self.now.run) }
        ensures meets { Meets (spec.calculation scope.now.code.now scope.now.seen (below scope.now
            self.now.depth) state.old.ctx at (option_copied want.entry) op a.now b.now
            state.old.node) result state.new.node }
        ensures keeps { state.new.ctx ≡ state.old.ctx }
    {
        match self.wanting_boxed(scope, state, &Ty::Int, a) {
            Ok(first) => self.second_operand(
                scope,
                state,
                at,
                want,
                op,
                first,
                Ty::Int,
                b,
                Ty::Int,
            ),
            Err(fault) => Err(fault),
        }
    }

    /// `^`.
    #[tactic(auto, unfolding(plan_types_spec::specs::TypingOrder::join))]
    fn join(
        &self,
        scope: &Scope<'_>,
        state: &mut TypingState,
        at: u32,
        want: Option<&Ty>,
        op: Op,
        a: &Boxed<Expr>,
        b: &Boxed<Expr>,
    ) -> Result<(Expr, Ty), TypeFault>
        requires { Nests self.now.depth (F.pre self.now.run) (F.post self.now.run) }
        ensures meets { Meets (spec.join scope.now.code.now scope.now.seen (below scope.now
            self.now.depth) state.old.ctx at (option_copied want.entry) op a.now b.now
            state.old.node) result state.new.node }
        ensures keeps { state.new.ctx ≡ state.old.ctx }
    {
        match self.run_boxed(scope, state, None, a) {
            Ok((first, ty)) => {
                if is_joined(&ty) {
                    self.joined_operand(scope, state, at, want, op, first, ty, b)
                } else {
                    drop(first);
                    drop(ty);
                    Err(TypeFault::WrongShape(Place::Node(at)))
                }
            }
            Err(fault) => Err(fault),
        }
    }

    /// `=` and `<>`.
    #[tactic(auto, unfolding(plan_types_spec::specs::TypingOrder::comparison))]
    fn comparison(
        &self,
        scope: &Scope<'_>,
        state: &mut TypingState,
        at: u32,
        want: Option<&Ty>,
        op: Op,
        a: &Boxed<Expr>,
        b: &Boxed<Expr>,
    ) -> Result<(Expr, Ty), TypeFault>
        requires { Nests self.now.depth (F.pre self.now.run) (F.post self.now.run) }
        ensures meets { Meets (spec.comparison scope.now.code.now scope.now.seen (below scope.now
            self.now.depth) state.old.ctx at (option_copied want.entry) op a.now b.now
            state.old.node) result state.new.node }
        ensures keeps { state.new.ctx ≡ state.old.ctx }
    {
        match self.run_boxed(scope, state, None, a) {
            Ok((first, ty)) => self.second_operand(
                scope,
                state,
                at,
                want,
                op,
                first,
                ty,
                b,
                Ty::Bool,
            ),
            Err(fault) => Err(fault),
        }
    }

    /// `<` and its like.
    #[tactic(auto, unfolding(plan_types_spec::specs::TypingOrder::order))]
    fn order(
        &self,
        scope: &Scope<'_>,
        state: &mut TypingState,
        at: u32,
        want: Option<&Ty>,
        op: Op,
        a: &Boxed<Expr>,
        b: &Boxed<Expr>,
    ) -> Result<(Expr, Ty), TypeFault>
        requires { Nests self.now.depth (F.pre self.now.run) (F.post self.now.run) }
        ensures meets { Meets (spec.order scope.now.code.now scope.now.seen (below scope.now
            self.now.depth) state.old.ctx at (option_copied want.entry) op a.now b.now
            state.old.node) result state.new.node }
        ensures keeps { state.new.ctx ≡ state.old.ctx }
    {
        match self.run_boxed(scope, state, None, a) {
            Ok((first, ty)) => {
                if is_ordered(&ty) {
                    self.second_operand(scope, state, at, want, op, first, ty, b, Ty::Bool)
                } else {
                    drop(first);
                    drop(ty);
                    Err(TypeFault::WrongShape(Place::Node(at)))
                }
            }
            Err(fault) => Err(fault),
        }
    }

    /// `::`.
    #[tactic(auto, unfolding(plan_types_spec::specs::TypingOrder::prefix))]
    fn prefix(
        &self,
        scope: &Scope<'_>,
        state: &mut TypingState,
        at: u32,
        want: Option<&Ty>,
        op: Op,
        a: &Boxed<Expr>,
        b: &Boxed<Expr>,
    ) -> Result<(Expr, Ty), TypeFault>
        requires { Nests self.now.depth (F.pre self.now.run) (F.post self.now.run) }
        ensures meets { Meets (spec.prefix scope.now.code.now scope.now.seen (below scope.now
            self.now.depth) state.old.ctx at (option_copied want.entry) op a.now b.now
            state.old.node) result state.new.node }
        ensures keeps { state.new.ctx ≡ state.old.ctx }
    {
        match self.run_boxed(scope, state, items_of(want), a) {
            Ok((first, item)) => match list_of(self.alloc, item) {
                Ok(ty) => match self.wanting_boxed(scope, state, &ty, b) {
                    Ok(second) => {
                        let whole = Expr::Binary(op, first, second);
                        shallow(self.alloc, at, state.node, want, whole, ty)
                    }
                    Err(fault) => {
                        drop(first);
                        drop(ty);
                        Err(fault)
                    }
                },
                Err(NoMemory) => {
                    drop(first);
                    Err(TypeFault::NoMemory)
                }
            },
            Err(fault) => Err(fault),
        }
    }

    /// An operator between two operands.
    #[tactic(auto, unfolding(plan_types_spec::specs::TypingOrder::operation))]
    pub fn operation(
        &self,
        scope: &Scope<'_>,
        state: &mut TypingState,
        at: u32,
        want: Option<&Ty>,
        op: Op,
        a: &Boxed<Expr>,
        b: &Boxed<Expr>,
    ) -> Result<(Expr, Ty), TypeFault>
        requires { Nests self.now.depth (F.pre self.now.run) (F.post self.now.run) }
        ensures meets { Meets (spec.operation scope.now.code.now scope.now.seen (below scope.now
            self.now.depth) state.old.ctx at (option_copied want.entry) op a.now b.now
            state.old.node) result state.new.node }
        ensures keeps { state.new.ctx ≡ state.old.ctx }
    {
        match op {
            Op::Add | Op::Sub | Op::Mul | Op::Div | Op::Mod => self.calculation(
                scope, state, at, want, op, a, b,
            ),
            Op::Cat => self.join(scope, state, at, want, op, a, b),
            Op::Eq | Op::Ne => self.comparison(scope, state, at, want, op, a, b),
            Op::Lt | Op::Le | Op::Gt | Op::Ge => self.order(scope, state, at, want, op, a, b),
            Op::Cons => self.prefix(scope, state, at, want, op, a, b),
        }
    }
}
