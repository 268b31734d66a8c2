//! The rules of calls, folds and chunk literals.

ghost use Rattle.std.specs.Prelude.{ℕ, ◌≡◌, ◌∷◌, [], if◌then◌else◌, Some, IfOk};
ghost use Rattle.std.specs.Option.{option_copied};
ghost use Rattle.plan_base.specs.SameTypes.{same_type};
ghost use Rattle.plan_types_spec.specs.TypingOrder as spec;
ghost use Rattle.plan_types_spec.specs.TypingNames as names;
ghost use Rattle.plan_types.specs.Checks.{Meets, Nests, below};

use crate::checker::Checker;
use crate::names::earlier;
use crate::settle::{items_of, list_of, refuse_expr, settle_type};
use crate::state::{Scope, TypingState};
use checked_chunks::fun_of;
use containers::{Boxed, Items};
use plan_base::{Expr, Exprs, Name, NoMemory, Param, Place, Primitive, Program, Ty, Tys};
use plan_base_copy::TryClone;
use plan_base_eq::SameAs;
use plan_types_spec::{TypeFault, place_of, prim_of, service_of};
use std::alloc::Global;

/// The types of parameters.
fn param_types(alloc: Global, params: &[Param]) -> Result<Tys, NoMemory>
    ensures { IfOk result (λ types. types ≡ names.param_types params.now) }
{
    let mut types = Items::new(alloc);
    for param in params {
        types.add(param.ty.copy(alloc)?)?;
    }
    Ok(types)
}

/// One type, as a list.
fn one_type(alloc: Global, ty: Ty) -> Result<Option<Tys>, NoMemory>
    ensures { IfOk result (λ types. types ≡ Some (ty ∷ [])) }
{
    let mut types = Items::new(alloc);
    types.add(ty)?;
    Ok(Some(types))
}

/// The types of a blob, of a place in it and of a length.
fn blob_and_numbers(alloc: Global) -> Result<Option<Tys>, NoMemory>
    ensures { IfOk result (λ types. types ≡ Some (Ty.Blob ∷ Ty.Int ∷ Ty.Int ∷ [])) }
{
    let mut types = Items::new(alloc);
    types.add(Ty::Blob)?;
    types.add(Ty::Int)?;
    types.add(Ty::Int)?;
    Ok(Some(types))
}

/// The types that a primitive takes, or `None` for one that takes a list of any type.
fn takes(alloc: Global, prim: Primitive) -> Result<Option<Tys>, NoMemory>
    ensures { IfOk result (λ types. types ≡ names.takes prim) }
{
    match prim {
        Primitive::Hd | Primitive::Tl | Primitive::Length => Ok(None),
        Primitive::IntToString => one_type(alloc, Ty::Int),
        Primitive::HostToString => one_type(alloc, Ty::Host),
        Primitive::StringToBlob => one_type(alloc, Ty::Str),
        Primitive::BlobLength => one_type(alloc, Ty::Blob),
        Primitive::BlobPart => blob_and_numbers(alloc),
    }
}

/// The type that such a primitive gives.
fn makes(prim: Primitive) -> Ty
    ensures { result ≡ names.makes prim }
{
    match prim {
        Primitive::IntToString | Primitive::HostToString => Ty::Str,
        Primitive::BlobLength => Ty::Int,
        _ => Ty::Blob,
    }
}

/// What a primitive gives that takes one list of any type, by the items' type.
fn of_list(alloc: Global, prim: Primitive, item: &Ty) -> Result<Option<Ty>, NoMemory>
    ensures { IfOk result (λ ty. ty ≡ names.of_list prim item.now) }
{
    match prim {
        Primitive::Hd => Ok(Some(item.copy(alloc)?)),
        Primitive::Tl => Ok(Some(list_of(alloc, item.copy(alloc)?)?)),
        Primitive::Length => Ok(Some(Ty::Int)),
        _ => Ok(None),
    }
}

/// The same by the types of the arguments.
fn given_of(alloc: Global, prim: Primitive, types: &[Ty]) -> Result<Option<Ty>, NoMemory>
    ensures { IfOk result (λ ty. ty ≡ spec.given_of prim types.now) }
{
    match types {
        [ty] => match items_of(Some(ty)) {
            Some(item) => of_list(alloc, prim, item),
            None => Ok(None),
        },
        _ => Ok(None),
    }
}

/// The same, where there must be one.
fn type_given(alloc: Global, at: u32, prim: Primitive, types: Tys) -> Result<Ty, TypeFault>
    ensures { (node : ℕ) → Meets (spec.or_refuse (spec.given_of prim types) (TypeFault.WrongShape
        (Place.Node at)) node) result node }
{
    let given = given_of(alloc, prim, types.as_slice());
    drop(types);
    match given {
        Ok(Some(ty)) => Ok(ty),
        Ok(None) => Err(TypeFault::WrongShape(Place::Node(at))),
        Err(NoMemory) => Err(TypeFault::NoMemory),
    }
}

/// A call of that name with those arguments, of that type.
fn call_of(
    alloc: Global,
    at: u32,
    node: u32,
    want: Option<&Ty>,
    f: &Name,
    given: Exprs,
    ty: Ty,
) -> Result<(Expr, Ty), TypeFault>
    ensures { Meets (spec.settled_type at (option_copied want.entry) (Expr.Call f.now given) ty
        node) result node }
{
    match f.copy(alloc) {
        Ok(f) => settle_type(alloc, at, node, want, Expr::Call(f, given), ty),
        Err(NoMemory) => {
            drop(given);
            drop(ty);
            Err(TypeFault::NoMemory)
        }
    }
}

/// A chunk whose entry has that name, with those arguments.
fn chunk_of(
    alloc: Global,
    at: u32,
    node: u32,
    want: Option<&Ty>,
    f: &Name,
    given: Exprs,
) -> Result<(Expr, Ty), TypeFault>
    ensures { Meets (spec.settled_type at (option_copied want.entry) (Expr.ChunkOf f.now given)
        Ty.Chunk node) result node }
{
    match f.copy(alloc) {
        Ok(f) => settle_type(alloc, at, node, want, Expr::ChunkOf(f, given), Ty::Chunk),
        Err(NoMemory) => {
            drop(given);
            Err(TypeFault::NoMemory)
        }
    }
}

/// `foldl` over those.
fn left_fold(
    alloc: Global,
    f: &Name,
    start: Boxed<Expr>,
    items: Boxed<Expr>,
) -> Result<Expr, NoMemory>
    ensures { IfOk result (λ e. e ≡ Expr.Foldl f.now start items) }
{
    match f.copy(alloc) {
        Ok(f) => Ok(Expr::Foldl(f, start, items)),
        Err(NoMemory) => {
            drop(start);
            drop(items);
            Err(NoMemory)
        }
    }
}

/// `foldr` over those.
fn right_fold(
    alloc: Global,
    f: &Name,
    start: Boxed<Expr>,
    items: Boxed<Expr>,
) -> Result<Expr, NoMemory>
    ensures { IfOk result (λ e. e ≡ Expr.Foldr f.now start items) }
{
    match f.copy(alloc) {
        Ok(f) => Ok(Expr::Foldr(f, start, items)),
        Err(NoMemory) => {
            drop(start);
            drop(items);
            Err(NoMemory)
        }
    }
}

/// A fold whose function must give what it begins with.
fn folded(
    alloc: Global,
    at: u32,
    node: u32,
    want: Option<&Ty>,
    whole: Expr,
    begun: &Ty,
    gives: &Ty,
) -> Result<(Expr, Ty), TypeFault>
    ensures { Meets ((if same_type gives.now begun.now then spec.settled_type at (option_copied
        want.entry) whole begun.now else spec.refuse (TypeFault.WrongShape (Place.Node at))) node)
        result node }
{
    if !gives.is(begun) {
        return refuse_expr(whole, TypeFault::WrongShape(Place::Node(at)));
    }
    match begun.copy(alloc) {
        Ok(ty) => settle_type(alloc, at, node, want, whole, ty),
        Err(NoMemory) => refuse_expr(whole, TypeFault::NoMemory),
    }
}

/// Why no earlier function has the name.
fn not_earlier(code: &Program, f: &Name, at: u32) -> TypeFault
    ensures { result ≡ spec.not_earlier code.now f.now at }
{
    if place_of(f, code.funs.as_slice()).is_some() {
        TypeFault::NotEarlier(Place::Node(at))
    } else {
        TypeFault::UnknownName(Place::Node(at))
    }
}

impl<
    F: Fn(
        Global,
        usize,
        &Scope<'_>,
        &mut TypingState,
        Option<&Ty>,
        &Expr,
    ) -> Result<(Expr, Ty), TypeFault>,
> Checker<F> {
    /// Arguments, each with the type that is wanted of it.
    #[tactic(auto, unfolding(plan_types_spec::specs::TypingOrder::arguments))]
    fn arguments(
        &self,
        scope: &Scope<'_>,
        state: &mut TypingState,
        at: u32,
        wants: &Tys,
        es: &Exprs,
    ) -> Result<Exprs, TypeFault>
        requires { Nests self.now.depth (F.pre self.now.run) (F.post self.now.run) }
        ensures meets { Meets (spec.arguments scope.now.code.now scope.now.seen (below scope.now
            self.now.depth) state.old.ctx at wants.now es.now state.old.node) result
            state.new.node }
        ensures keeps { state.new.ctx ≡ state.old.ctx }
    {
        if es.len() != wants.len() {
            return Err(TypeFault::Arity(Place::Node(at)));
        }
        match self.parts(scope, state, Some(wants), es.as_slice()) {
            Ok((given, types)) => {
                drop(types);
                Ok(given)
            }
            Err(fault) => Err(fault),
        }
    }

    /// A call by its parameters' types and its result's.
    #[tactic(auto, unfolding(plan_types_spec::specs::TypingOrder::applied_call))]
    fn check_call(
        &self,
        scope: &Scope<'_>,
        state: &mut TypingState,
        at: u32,
        want: Option<&Ty>,
        f: &Name,
        es: &Exprs,
        wants: &Tys,
        ty: &Ty,
    ) -> Result<(Expr, Ty), TypeFault>
        requires { Nests self.now.depth (F.pre self.now.run) (F.post self.now.run) }
        ensures meets { Meets (spec.applied_call scope.now.code.now scope.now.seen (below scope.now
            self.now.depth) state.old.ctx at (option_copied want.entry) f.now es.now wants.now
            ty.now state.old.node) result state.new.node }
        ensures keeps { state.new.ctx ≡ state.old.ctx }
    {
        match self.arguments(scope, state, at, wants, es) {
            Ok(given) => match ty.copy(self.alloc) {
                Ok(ty) => call_of(self.alloc, at, state.node, want, f, given, ty),
                Err(NoMemory) => {
                    drop(given);
                    Err(TypeFault::NoMemory)
                }
            },
            Err(fault) => Err(fault),
        }
    }

    /// A primitive that takes one list of any type.
    #[tactic(auto, unfolding(plan_types_spec::specs::TypingOrder::of_items))]
    fn of_items(
        &self,
        scope: &Scope<'_>,
        state: &mut TypingState,
        at: u32,
        want: Option<&Ty>,
        f: &Name,
        prim: Primitive,
        es: &Exprs,
    ) -> Result<(Expr, Ty), TypeFault>
        requires { Nests self.now.depth (F.pre self.now.run) (F.post self.now.run) }
        ensures meets { Meets (spec.of_items scope.now.code.now scope.now.seen (below scope.now
            self.now.depth) state.old.ctx at (option_copied want.entry) f.now prim es.now
            state.old.node) result state.new.node }
        ensures keeps { state.new.ctx ≡ state.old.ctx }
    {
        if es.len() != 1 {
            return Err(TypeFault::Arity(Place::Node(at)));
        }
        match self.parts(scope, state, None, es.as_slice()) {
            Ok((given, types)) => match type_given(self.alloc, at, prim, types) {
                Ok(ty) => call_of(self.alloc, at, state.node, want, f, given, ty),
                Err(fault) => {
                    drop(given);
                    Err(fault)
                }
            },
            Err(fault) => Err(fault),
        }
    }

    /// A primitive.
    #[tactic(auto, unfolding(plan_types_spec::specs::TypingOrder::primitive))]
    fn primitive(
        &self,
        scope: &Scope<'_>,
        state: &mut TypingState,
        at: u32,
        want: Option<&Ty>,
        f: &Name,
        prim: Primitive,
        es: &Exprs,
    ) -> Result<(Expr, Ty), TypeFault>
        requires { Nests self.now.depth (F.pre self.now.run) (F.post self.now.run) }
        ensures meets { Meets (spec.primitive scope.now.code.now scope.now.seen (below scope.now
            self.now.depth) state.old.ctx at (option_copied want.entry) f.now prim es.now
            state.old.node) result state.new.node }
        ensures keeps { state.new.ctx ≡ state.old.ctx }
    {
        match takes(self.alloc, prim) {
            Ok(Some(wants)) => {
                let ty = makes(prim);
                let found = self.check_call(scope, state, at, want, f, es, &wants, &ty);
                drop(wants);
                drop(ty);
                found
            }
            Ok(None) => self.of_items(scope, state, at, want, f, prim, es),
            Err(NoMemory) => Err(TypeFault::NoMemory),
        }
    }

    /// A function of the program, which must be an earlier one.
    #[tactic(auto, unfolding(plan_types_spec::specs::TypingOrder::function))]
    fn function(
        &self,
        scope: &Scope<'_>,
        state: &mut TypingState,
        at: u32,
        want: Option<&Ty>,
        f: &Name,
        es: &Exprs,
    ) -> Result<(Expr, Ty), TypeFault>
        requires { Nests self.now.depth (F.pre self.now.run) (F.post self.now.run) }
        ensures meets { Meets (spec.function scope.now.code.now scope.now.seen (below scope.now
            self.now.depth) state.old.ctx at (option_copied want.entry) f.now es.now state.old.node)
            result state.new.node }
        ensures keeps { state.new.ctx ≡ state.old.ctx }
    {
        let fun = match earlier(scope.code, scope.seen, f) {
            Some(fun) => fun,
            None => return Err(not_earlier(scope.code, f, at)),
        };
        match param_types(self.alloc, fun.params.as_slice()) {
            Ok(wants) => {
                let found = self.check_call(scope, state, at, want, f, es, &wants, &fun.result);
                drop(wants);
                found
            }
            Err(NoMemory) => Err(TypeFault::NoMemory),
        }
    }

    /// A call of a primitive, a service or a function.
    #[tactic(auto, unfolding(plan_types_spec::specs::TypingOrder::call))]
    pub fn call(
        &self,
        scope: &Scope<'_>,
        state: &mut TypingState,
        at: u32,
        want: Option<&Ty>,
        f: &Name,
        es: &Exprs,
    ) -> Result<(Expr, Ty), TypeFault>
        requires { Nests self.now.depth (F.pre self.now.run) (F.post self.now.run) }
        ensures meets { Meets (spec.call scope.now.code.now scope.now.seen (below scope.now
            self.now.depth) state.old.ctx at (option_copied want.entry) f.now es.now state.old.node)
            result state.new.node }
        ensures keeps { state.new.ctx ≡ state.old.ctx }
    {
        if let Some(prim) = prim_of(f) {
            return self.primitive(scope, state, at, want, f, prim, es);
        }
        match service_of(f, scope.code.svcs.as_slice()) {
            Some(svc) => self.check_call(scope, state, at, want, f, es, &svc.params, &svc.result),
            None => self.function(scope, state, at, want, f, es),
        }
    }

    /// A list of such items in a box.
    fn wanting_list(
        &self,
        scope: &Scope<'_>,
        state: &mut TypingState,
        item: &Ty,
        e: &Boxed<Expr>,
    ) -> Result<Boxed<Expr>, TypeFault>
        requires { Nests self.now.depth (F.pre self.now.run) (F.post self.now.run) }
        ensures meets { Meets (spec.wanting scope.now.code.now scope.now.seen (below scope.now
            self.now.depth) state.old.ctx (Ty.List item.now) e.now state.old.node) result
            state.new.node }
        ensures keeps { state.new.ctx ≡ state.old.ctx }
    {
        let item = item.copy(self.alloc)?;
        match list_of(self.alloc, item) {
            Ok(list) => {
                let found = self.wanting_boxed(scope, state, &list, e);
                drop(list);
                found
            }
            Err(NoMemory) => Err(TypeFault::NoMemory),
        }
    }

    /// `foldl`.
    #[tactic(auto, unfolding(plan_types_spec::specs::TypingOrder::fold_left, plan_types_spec::specs::TypingOrder::folding))]
    pub fn fold_left(
        &self,
        scope: &Scope<'_>,
        state: &mut TypingState,
        at: u32,
        want: Option<&Ty>,
        f: &Name,
        a: &Boxed<Expr>,
        l: &Boxed<Expr>,
    ) -> Result<(Expr, Ty), TypeFault>
        requires { Nests self.now.depth (F.pre self.now.run) (F.post self.now.run) }
        ensures meets { Meets (spec.fold_left scope.now.code.now scope.now.seen (below scope.now
            self.now.depth) state.old.ctx at (option_copied want.entry) f.now a.now l.now
            state.old.node) result state.new.node }
        ensures keeps { state.new.ctx ≡ state.old.ctx }
    {
        let fun = match earlier(scope.code, scope.seen, f) {
            Some(fun) => fun,
            None => return Err(not_earlier(scope.code, f, at)),
        };
        match fun.params.as_slice() {
            [first, second] => {
                let start = self.wanting_boxed(scope, state, &first.ty, a)?;
                match self.wanting_list(scope, state, &second.ty, l) {
                    Ok(items) => {
                        let whole = left_fold(self.alloc, f, start, items)?;
                        let (begun, gives) = (&first.ty, &fun.result);
                        folded(self.alloc, at, state.node, want, whole, begun, gives)
                    }
                    Err(fault) => {
                        drop(start);
                        Err(fault)
                    }
                }
            }
            _ => Err(TypeFault::Arity(Place::Node(at))),
        }
    }

    /// `foldr`.
    #[tactic(auto, unfolding(plan_types_spec::specs::TypingOrder::fold_right, plan_types_spec::specs::TypingOrder::folding))]
    pub fn fold_right(
        &self,
        scope: &Scope<'_>,
        state: &mut TypingState,
        at: u32,
        want: Option<&Ty>,
        f: &Name,
        a: &Boxed<Expr>,
        l: &Boxed<Expr>,
    ) -> Result<(Expr, Ty), TypeFault>
        requires { Nests self.now.depth (F.pre self.now.run) (F.post self.now.run) }
        ensures meets { Meets (spec.fold_right scope.now.code.now scope.now.seen (below scope.now
            self.now.depth) state.old.ctx at (option_copied want.entry) f.now a.now l.now
            state.old.node) result state.new.node }
        ensures keeps { state.new.ctx ≡ state.old.ctx }
    {
        let fun = match earlier(scope.code, scope.seen, f) {
            Some(fun) => fun,
            None => return Err(not_earlier(scope.code, f, at)),
        };
        match fun.params.as_slice() {
            [first, second] => {
                let start = self.wanting_boxed(scope, state, &second.ty, a)?;
                match self.wanting_list(scope, state, &first.ty, l) {
                    Ok(items) => {
                        let whole = right_fold(self.alloc, f, start, items)?;
                        let (begun, gives) = (&second.ty, &fun.result);
                        folded(self.alloc, at, state.node, want, whole, begun, gives)
                    }
                    Err(fault) => {
                        drop(start);
                        Err(fault)
                    }
                }
            }
            _ => Err(TypeFault::Arity(Place::Node(at))),
        }
    }

    /// A chunk literal, whose entry is any function of the program.
    #[tactic(auto, unfolding(plan_types_spec::specs::TypingOrder::packing))]
    pub fn packing(
        &self,
        scope: &Scope<'_>,
        state: &mut TypingState,
        at: u32,
        want: Option<&Ty>,
        f: &Name,
        es: &Exprs,
    ) -> Result<(Expr, Ty), TypeFault>
        requires { Nests self.now.depth (F.pre self.now.run) (F.post self.now.run) }
        ensures meets { Meets (spec.packing scope.now.code.now scope.now.seen (below scope.now
            self.now.depth) state.old.ctx at (option_copied want.entry) f.now es.now state.old.node)
            result state.new.node }
        ensures keeps { state.new.ctx ≡ state.old.ctx }
    {
        let fun = match fun_of(scope.code, f) {
            Some(fun) => fun,
            None => return Err(TypeFault::UnknownName(Place::Node(at))),
        };
        let wants = param_types(self.alloc, fun.params.as_slice())?;
        let given = self.arguments(scope, state, at, &wants, es);
        drop(wants);
        match given {
            Ok(given) => chunk_of(self.alloc, at, state.node, want, f, given),
            Err(fault) => Err(fault),
        }
    }
}
