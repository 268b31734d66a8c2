//! Copies of each kind of tree.
ghost use Rattle.std.specs.Prelude.{◌≡◌, true, [], ◌∷◌, ◌++◌, IfOk, OnOk};
ghost use Rattle.plan_base.specs.declared.tree.Expr.{Expr, out-Expr};
ghost use Rattle.plan_base.specs.Groups.{is_leaf, is_pair, is_row};

use crate::copied::{TryClone, copy_items, copy_option};
use containers::{Boxed, Items};
use plan_base::{
    Chunk, Clause, Clauses, Draft, Exn, Expr, Exprs, Fun, Funs, Name, Names, NoMemory, Packet,
    Param, Params, Places, Program, Svc, Svcs, Ty, Tys, Value, Values,
};
use std::alloc::Global;

impl TryClone for Ty {
    /// The same type.
    fn copy(&self, alloc: Global) -> Result<Ty, NoMemory>
        ensures { IfOk result (λ t. t ≡ self.now) }
    {
        copy_type(alloc, self)
    }
}

#[cycle(copy_type)]
#[tactic(auto, using(plan_base::specs::Trees::trees))]
fn copy_type(alloc: Global, t: &Ty) -> Result<Ty, NoMemory>
    ensures { IfOk result (λ u. u ≡ t.now) }
{
    match t {
        Ty::Unit => Ok(Ty::Unit),
        Ty::Bool => Ok(Ty::Bool),
        Ty::Int => Ok(Ty::Int),
        Ty::Char => Ok(Ty::Char),
        Ty::Str => Ok(Ty::Str),
        Ty::Blob => Ok(Ty::Blob),
        Ty::Host => Ok(Ty::Host),
        Ty::Dev => Ok(Ty::Dev),
        Ty::Chunk => Ok(Ty::Chunk),
        Ty::List(item) => match copy_boxed_type(alloc, item) {
            Ok(item) => Ok(Ty::List(item)),
            Err(fault) => Err(fault),
        },
        Ty::Tuple(parts) => match copy_types(alloc, parts.as_slice()) {
            Ok(parts) => Ok(Ty::Tuple(parts)),
            Err(fault) => Err(fault),
        },
    }
}

#[cycle(copy_type)]
fn copy_boxed_type(alloc: Global, t: &Boxed<Ty>) -> Result<Boxed<Ty>, NoMemory>
    ensures { IfOk result (λ u. u ≡ t.now) }
{
    match copy_type(alloc, t.get()) {
        Ok(copied) => Ok(Boxed::new(alloc, copied)?),
        Err(fault) => Err(fault),
    }
}

/// The same types.
#[cycle(copy_type)]
pub fn copy_types(alloc: Global, types: &[Ty]) -> Result<Tys, NoMemory>
    ensures { IfOk result (λ copies. copies ≡ types.now) }
{
    let mut done = Items::new(alloc);
    for t in types {
        add_type(alloc, t, &mut done)?;
    }
    Ok(done)
}

/// Adds the same type.
#[cycle(copy_type)]
fn add_type(alloc: Global, t: &Ty, done: &mut Tys) -> Result<(), NoMemory>
    ensures { OnOk result (done.new ≡ done.old ++ t.now ∷ []) }
{
    match copy_type(alloc, t) {
        Ok(copied) => Ok(done.add(copied)?),
        Err(fault) => Err(fault),
    }
}

impl TryClone for Name {
    /// The same name.
    fn copy(&self, alloc: Global) -> Result<Name, NoMemory>
        ensures { IfOk result (λ n. n ≡ self.now) }
    {
        Name::copy(self, alloc)
    }
}

/// The same names.
pub fn copy_names(alloc: Global, names: &[Name]) -> Result<Names, NoMemory>
    ensures { IfOk result (λ copies. copies ≡ names.now) }
{
    copy_items(alloc, names)
}

impl TryClone for Expr {
    /// The same expression.
    fn copy(&self, alloc: Global) -> Result<Expr, NoMemory>
        ensures { IfOk result (λ e. e ≡ self.now) }
    {
        copy_expr(alloc, self)
    }
}

#[cycle(copy_expr)]
#[tactic(auto, using(plan_base::specs::Trees::trees, plan_base::proofs::SizeLaws::expr_nodes_out))]
fn copy_expr(alloc: Global, e: &Expr) -> Result<Expr, NoMemory>
    ensures { IfOk result (λ f. f ≡ e.now) }
{
    match e {
        Expr::Tuple(_) | Expr::Call(_, _) | Expr::ChunkOf(_, _) => copy_row(alloc, e),
        Expr::Not(_) | Expr::Part(_, _) | Expr::Eval(_) | Expr::Try(_, _) => copy_row(alloc, e),
        Expr::Then(_, _) | Expr::And(_, _) | Expr::Or(_, _) => copy_pair(alloc, e),
        Expr::Binary(_, _, _) | Expr::Foldl(_, _, _) | Expr::Foldr(_, _, _) => copy_pair(alloc, e),
        Expr::If(c, a, b) => copy_if(alloc, c, a, b),
        Expr::Let(x, t, a, b) => copy_let(alloc, x, t, a, b),
        Expr::OnRemote(c, h, n, r) => copy_on_remote(alloc, c, h, n, r),
        Expr::OnNeighbor(c, h, n, d) => copy_on_neighbor(alloc, c, h, n, d),
        Expr::Unit | Expr::Bool(_) | Expr::Int(_) | Expr::Char(_) => copy_leaf(alloc, e),
        Expr::Str(_) | Expr::Blob(_) | Expr::Host(_) | Expr::Dev(_) => copy_leaf(alloc, e),
        Expr::Nil(_) | Expr::Var(_) | Expr::Raise(_, _) => copy_leaf(alloc, e),
    }
}

/// An expression without parts.
#[tactic(auto, using(plan_base::specs::Trees::trees))]
fn copy_leaf(alloc: Global, e: &Expr) -> Result<Expr, NoMemory>
    requires leaf { is_leaf (out-Expr e.now) ≡ true }
    ensures { IfOk result (λ f. f ≡ e.now) }
{
    match e {
        Expr::Unit => Ok(Expr::Unit),
        Expr::Bool(b) => Ok(Expr::Bool(*b)),
        Expr::Int(n) => Ok(Expr::Int(*n)),
        Expr::Char(c) => Ok(Expr::Char(*c)),
        Expr::Str(s) => Ok(Expr::Str(s.copy(alloc)?)),
        Expr::Blob(b) => Ok(Expr::Blob(b.copy(alloc)?)),
        Expr::Host(h) => Ok(Expr::Host(*h)),
        Expr::Dev(d) => Ok(Expr::Dev(*d)),
        Expr::Nil(t) => match copy_option(alloc, t) {
            Ok(t) => Ok(Expr::Nil(t)),
            Err(fault) => Err(fault),
        },
        Expr::Var(x) => Ok(Expr::Var(x.copy(alloc)?)),
        Expr::Raise(x, t) => copy_raise(alloc, x, t),
        _ => unreachable!(),
    }
}

#[tactic(auto, using(plan_base::specs::Trees::trees))]
fn copy_raise(alloc: Global, x: &Name, t: &Option<Ty>) -> Result<Expr, NoMemory>
    ensures { IfOk result (λ copied. copied ≡ Expr.Raise x.now t.now) }
{
    let x = x.copy(alloc)?;
    match copy_option(alloc, t) {
        Ok(t) => Ok(Expr::Raise(x, t)),
        Err(fault) => Err(fault),
    }
}

/// An expression with one part or a list of parts.
#[cycle(copy_expr)]
#[tactic(auto, using(plan_base::specs::Trees::trees, plan_base::proofs::SizeLaws::expr_nodes_out))]
fn copy_row(alloc: Global, e: &Expr) -> Result<Expr, NoMemory>
    requires row { is_row (out-Expr e.now) ≡ true }
    ensures { IfOk result (λ f. f ≡ e.now) }
{
    match e {
        Expr::Tuple(es) => match copy_exprs(alloc, es.as_slice()) {
            Ok(es) => Ok(Expr::Tuple(es)),
            Err(fault) => Err(fault),
        },
        Expr::Call(f, es) => match copy_call(alloc, f, es) {
            Ok((f, es)) => Ok(Expr::Call(f, es)),
            Err(fault) => Err(fault),
        },
        Expr::ChunkOf(f, es) => match copy_call(alloc, f, es) {
            Ok((f, es)) => Ok(Expr::ChunkOf(f, es)),
            Err(fault) => Err(fault),
        },
        Expr::Not(a) => match copy_boxed(alloc, a) {
            Ok(a) => Ok(Expr::Not(a)),
            Err(fault) => Err(fault),
        },
        Expr::Part(i, a) => match copy_boxed(alloc, a) {
            Ok(a) => Ok(Expr::Part(*i, a)),
            Err(fault) => Err(fault),
        },
        Expr::Eval(c) => match copy_boxed(alloc, c) {
            Ok(c) => Ok(Expr::Eval(c)),
            Err(fault) => Err(fault),
        },
        Expr::Try(a, clauses) => copy_try(alloc, a, clauses),
        _ => unreachable!(),
    }
}

/// An expression with two parts.
#[cycle(copy_expr)]
#[tactic(auto, using(plan_base::specs::Trees::trees, plan_base::proofs::SizeLaws::expr_nodes_out))]
fn copy_pair(alloc: Global, e: &Expr) -> Result<Expr, NoMemory>
    requires pair { is_pair (out-Expr e.now) ≡ true }
    ensures { IfOk result (λ f. f ≡ e.now) }
{
    match e {
        Expr::Then(a, b) => match copy_two(alloc, a, b) {
            Ok((a, b)) => Ok(Expr::Then(a, b)),
            Err(fault) => Err(fault),
        },
        Expr::And(a, b) => match copy_two(alloc, a, b) {
            Ok((a, b)) => Ok(Expr::And(a, b)),
            Err(fault) => Err(fault),
        },
        Expr::Or(a, b) => match copy_two(alloc, a, b) {
            Ok((a, b)) => Ok(Expr::Or(a, b)),
            Err(fault) => Err(fault),
        },
        Expr::Binary(op, a, b) => match copy_two(alloc, a, b) {
            Ok((a, b)) => Ok(Expr::Binary(*op, a, b)),
            Err(fault) => Err(fault),
        },
        Expr::Foldl(f, a, l) => match copy_named(alloc, f, a, l) {
            Ok((f, a, l)) => Ok(Expr::Foldl(f, a, l)),
            Err(fault) => Err(fault),
        },
        Expr::Foldr(f, a, l) => match copy_named(alloc, f, a, l) {
            Ok((f, a, l)) => Ok(Expr::Foldr(f, a, l)),
            Err(fault) => Err(fault),
        },
        _ => unreachable!(),
    }
}

#[cycle(copy_expr)]
#[tactic(auto, using(plan_base::specs::Trees::trees))]
fn copy_if(
    alloc: Global,
    c: &Boxed<Expr>,
    a: &Boxed<Expr>,
    b: &Boxed<Expr>,
) -> Result<Expr, NoMemory>
    ensures { IfOk result (λ copied. copied ≡ Expr.If c.now a.now b.now) }
{
    match copy_two(alloc, a, b) {
        Ok((a, b)) => match copy_boxed(alloc, c) {
            Ok(c) => Ok(Expr::If(c, a, b)),
            Err(fault) => Err(fault),
        },
        Err(fault) => Err(fault),
    }
}

#[cycle(copy_expr)]
#[tactic(auto, using(plan_base::specs::Trees::trees))]
fn copy_let(
    alloc: Global,
    x: &Name,
    t: &Ty,
    a: &Boxed<Expr>,
    b: &Boxed<Expr>,
) -> Result<Expr, NoMemory>
    ensures { IfOk result (λ copied. copied ≡ Expr.Let x.now t.now a.now b.now) }
{
    match copy_named(alloc, x, a, b) {
        Ok((x, a, b)) => match t.copy(alloc) {
            Ok(t) => Ok(Expr::Let(x, t, a, b)),
            Err(fault) => Err(fault),
        },
        Err(fault) => Err(fault),
    }
}

#[cycle(copy_expr)]
#[tactic(auto, using(plan_base::specs::Trees::trees))]
fn copy_try(alloc: Global, a: &Boxed<Expr>, clauses: &Clauses) -> Result<Expr, NoMemory>
    ensures { IfOk result (λ copied. copied ≡ Expr.Try a.now clauses.now) }
{
    match copy_boxed(alloc, a) {
        Ok(a) => match copy_clauses(alloc, clauses.as_slice()) {
            Ok(clauses) => Ok(Expr::Try(a, clauses)),
            Err(fault) => Err(fault),
        },
        Err(fault) => Err(fault),
    }
}

#[cycle(copy_expr)]
#[tactic(auto, using(plan_base::specs::Trees::trees))]
fn copy_on_remote(
    alloc: Global,
    c: &Boxed<Expr>,
    h: &Boxed<Expr>,
    n: &Boxed<Expr>,
    r: &Name,
) -> Result<Expr, NoMemory>
    ensures { IfOk result (λ copied. copied ≡ Expr.OnRemote c.now h.now n.now r.now) }
{
    match copy_named(alloc, r, h, n) {
        Ok((r, h, n)) => match copy_boxed(alloc, c) {
            Ok(c) => Ok(Expr::OnRemote(c, h, n, r)),
            Err(fault) => Err(fault),
        },
        Err(fault) => Err(fault),
    }
}

#[cycle(copy_expr)]
#[tactic(auto, using(plan_base::specs::Trees::trees))]
fn copy_on_neighbor(
    alloc: Global,
    c: &Boxed<Expr>,
    h: &Boxed<Expr>,
    n: &Boxed<Expr>,
    d: &Boxed<Expr>,
) -> Result<Expr, NoMemory>
    ensures { IfOk result (λ copied. copied ≡ Expr.OnNeighbor c.now h.now n.now d.now) }
{
    match copy_two(alloc, c, h) {
        Ok((c, h)) => match copy_two(alloc, n, d) {
            Ok((n, d)) => Ok(Expr::OnNeighbor(c, h, n, d)),
            Err(fault) => Err(fault),
        },
        Err(fault) => Err(fault),
    }
}

/// A name and a list of arguments.
#[cycle(copy_expr)]
fn copy_call(alloc: Global, f: &Name, args: &Exprs) -> Result<(Name, Exprs), NoMemory>
    ensures { IfOk result (λ copied. copied ≡ (f.now, args.now)) }
{
    let f = f.copy(alloc)?;
    match copy_exprs(alloc, args.as_slice()) {
        Ok(args) => Ok((f, args)),
        Err(fault) => Err(fault),
    }
}

/// A name and two parts.
#[cycle(copy_expr)]
fn copy_named(
    alloc: Global,
    x: &Name,
    a: &Boxed<Expr>,
    b: &Boxed<Expr>,
) -> Result<(Name, Boxed<Expr>, Boxed<Expr>), NoMemory>
    ensures { IfOk result (λ copied. copied ≡ (x.now, a.now, b.now)) }
{
    let x = x.copy(alloc)?;
    match copy_two(alloc, a, b) {
        Ok((a, b)) => Ok((x, a, b)),
        Err(fault) => Err(fault),
    }
}

/// Two parts.
#[cycle(copy_expr)]
fn copy_two(
    alloc: Global,
    a: &Boxed<Expr>,
    b: &Boxed<Expr>,
) -> Result<(Boxed<Expr>, Boxed<Expr>), NoMemory>
    ensures { IfOk result (λ copied. copied ≡ (a.now, b.now)) }
{
    match copy_boxed(alloc, a) {
        Ok(a) => match copy_boxed(alloc, b) {
            Ok(b) => Ok((a, b)),
            Err(fault) => Err(fault),
        },
        Err(fault) => Err(fault),
    }
}

/// One part.
#[cycle(copy_expr)]
fn copy_boxed(alloc: Global, e: &Boxed<Expr>) -> Result<Boxed<Expr>, NoMemory>
    ensures { IfOk result (λ f. f ≡ e.now) }
{
    match copy_expr(alloc, e.get()) {
        Ok(copied) => Ok(Boxed::new(alloc, copied)?),
        Err(fault) => Err(fault),
    }
}

/// The same expressions.
#[cycle(copy_expr)]
pub fn copy_exprs(alloc: Global, exprs: &[Expr]) -> Result<Exprs, NoMemory>
    ensures { IfOk result (λ copies. copies ≡ exprs.now) }
{
    let mut done = Items::new(alloc);
    for e in exprs {
        add_expr(alloc, e, &mut done)?;
    }
    Ok(done)
}

/// Adds the same expression.
#[cycle(copy_expr)]
fn add_expr(alloc: Global, e: &Expr, done: &mut Exprs) -> Result<(), NoMemory>
    ensures { OnOk result (done.new ≡ done.old ++ e.now ∷ []) }
{
    match copy_expr(alloc, e) {
        Ok(copied) => Ok(done.add(copied)?),
        Err(fault) => Err(fault),
    }
}

/// The same clauses.
#[cycle(copy_expr)]
pub fn copy_clauses(alloc: Global, clauses: &[Clause]) -> Result<Clauses, NoMemory>
    ensures { IfOk result (λ copies. copies ≡ clauses.now) }
{
    let mut done = Items::new(alloc);
    for clause in clauses {
        add_clause(alloc, clause, &mut done)?;
    }
    Ok(done)
}

/// Adds the same clause.
#[cycle(copy_expr)]
fn add_clause(alloc: Global, clause: &Clause, done: &mut Clauses) -> Result<(), NoMemory>
    ensures { OnOk result (done.new ≡ done.old ++ clause.now ∷ []) }
{
    match copy_clause(alloc, clause) {
        Ok(copied) => Ok(done.add(copied)?),
        Err(fault) => Err(fault),
    }
}

#[cycle(copy_expr)]
#[tactic(auto, using(plan_base::specs::Trees::trees))]
fn copy_clause(alloc: Global, clause: &Clause) -> Result<Clause, NoMemory>
    ensures { IfOk result (λ c. c ≡ clause.now) }
{
    let name = copy_option(alloc, &clause.name)?;
    match copy_expr(alloc, &clause.body) {
        Ok(body) => Ok(Clause { name, body }),
        Err(fault) => Err(fault),
    }
}

impl TryClone for Clause {
    /// The same clause.
    fn copy(&self, alloc: Global) -> Result<Clause, NoMemory>
        ensures { IfOk result (λ c. c ≡ self.now) }
    {
        copy_clause(alloc, self)
    }
}

impl TryClone for Svc {
    /// The same declaration.
    fn copy(&self, alloc: Global) -> Result<Svc, NoMemory>
        ensures { IfOk result (λ s. s ≡ self.now) }
    {
        let name = self.name.copy(alloc)?;
        let params = copy_types(alloc, self.params.as_slice())?;
        match self.result.copy(alloc) {
            Ok(result) => Ok(Svc {
                name,
                params,
                result,
            }),
            Err(fault) => Err(fault),
        }
    }
}

/// The same declarations.
pub fn copy_svcs(alloc: Global, svcs: &[Svc]) -> Result<Svcs, NoMemory>
    ensures { IfOk result (λ copies. copies ≡ svcs.now) }
{
    copy_items(alloc, svcs)
}

impl TryClone for Param {
    /// The same parameter.
    fn copy(&self, alloc: Global) -> Result<Param, NoMemory>
        ensures { IfOk result (λ p. p ≡ self.now) }
    {
        let name = self.name.copy(alloc)?;
        match self.ty.copy(alloc) {
            Ok(ty) => Ok(Param { name, ty }),
            Err(fault) => Err(fault),
        }
    }
}

/// The same parameters.
pub fn copy_params(alloc: Global, params: &[Param]) -> Result<Params, NoMemory>
    ensures { IfOk result (λ copies. copies ≡ params.now) }
{
    copy_items(alloc, params)
}

impl TryClone for Fun {
    /// The same function.
    fn copy(&self, alloc: Global) -> Result<Fun, NoMemory>
        ensures { IfOk result (λ f. f ≡ self.now) }
    {
        let name = self.name.copy(alloc)?;
        let params = copy_params(alloc, self.params.as_slice())?;
        match self.result.copy(alloc) {
            Ok(answer) => with_body(alloc, name, params, answer, &self.body),
            Err(fault) => Err(fault),
        }
    }
}

/// A function of these parts, with the same body.
fn with_body(
    alloc: Global,
    name: Name,
    params: Params,
    answer: Ty,
    body: &Expr,
) -> Result<Fun, NoMemory>
    ensures { IfOk result (λ f. f ≡ record
        { name = name; params = params; result = answer; body = body.now }) }
{
    match copy_expr(alloc, body) {
        Ok(body) => Ok(Fun {
            name,
            params,
            result: answer,
            body,
        }),
        Err(fault) => {
            drop(answer);
            Err(fault)
        }
    }
}

/// The same functions.
pub fn copy_funs(alloc: Global, funs: &[Fun]) -> Result<Funs, NoMemory>
    ensures { IfOk result (λ copies. copies ≡ funs.now) }
{
    copy_items(alloc, funs)
}

impl TryClone for Program {
    /// The same program.
    fn copy(&self, alloc: Global) -> Result<Program, NoMemory>
        ensures { IfOk result (λ p. p ≡ self.now) }
    {
        Ok(Program {
            svcs: copy_svcs(alloc, self.svcs.as_slice())?,
            exns: copy_names(alloc, self.exns.as_slice())?,
            funs: copy_funs(alloc, self.funs.as_slice())?,
        })
    }
}

/// The same places.
pub fn copy_places(alloc: Global, places: &[u32]) -> Result<Places, NoMemory>
    ensures { IfOk result (λ copies. copies ≡ places.now) }
{
    Ok(Items::from_slice(alloc, places)?)
}

impl TryClone for Draft {
    /// The same draft.
    fn copy(&self, alloc: Global) -> Result<Draft, NoMemory>
        ensures { IfOk result (λ d. d ≡ self.now) }
    {
        Ok(Draft {
            program: self.program.copy(alloc)?,
            decl_at: copy_places(alloc, self.decl_at.as_slice())?,
            node_at: copy_places(alloc, self.node_at.as_slice())?,
        })
    }
}

impl TryClone for Value {
    /// The same value.
    fn copy(&self, alloc: Global) -> Result<Value, NoMemory>
        ensures { IfOk result (λ v. v ≡ self.now) }
    {
        copy_value(alloc, self)
    }
}

#[cycle(copy_value)]
#[tactic(auto, using(plan_base::specs::Trees::trees))]
fn copy_value(alloc: Global, v: &Value) -> Result<Value, NoMemory>
    ensures { IfOk result (λ w. w ≡ v.now) }
{
    match v {
        Value::Unit => Ok(Value::Unit),
        Value::Bool(b) => Ok(Value::Bool(*b)),
        Value::Int(n) => Ok(Value::Int(*n)),
        Value::Char(c) => Ok(Value::Char(*c)),
        Value::Str(s) => Ok(Value::Str(s.copy(alloc)?)),
        Value::Blob(b) => Ok(Value::Blob(b.copy(alloc)?)),
        Value::Host(h) => Ok(Value::Host(*h)),
        Value::Dev(d) => Ok(Value::Dev(*d)),
        Value::Chunk(c) => match copy_boxed_chunk(alloc, c) {
            Ok(c) => Ok(Value::Chunk(c)),
            Err(fault) => Err(fault),
        },
        Value::List(t, items) => match copy_boxed_type(alloc, t) {
            Ok(t) => match copy_values(alloc, items.as_slice()) {
                Ok(items) => Ok(Value::List(t, items)),
                Err(fault) => Err(fault),
            },
            Err(fault) => Err(fault),
        },
        Value::Tuple(parts) => match copy_values(alloc, parts.as_slice()) {
            Ok(parts) => Ok(Value::Tuple(parts)),
            Err(fault) => Err(fault),
        },
    }
}

#[cycle(copy_value)]
fn copy_boxed_chunk(alloc: Global, c: &Boxed<Chunk>) -> Result<Boxed<Chunk>, NoMemory>
    ensures { IfOk result (λ d. d ≡ c.now) }
{
    match copy_chunk(alloc, c.get()) {
        Ok(copied) => Ok(Boxed::new(alloc, copied)?),
        Err(fault) => Err(fault),
    }
}

/// No values yet, with room for so many.
fn room_for(alloc: Global, n: usize) -> Result<Values, NoMemory>
    ensures { IfOk result (λ done. done ≡ []) }
{
    Ok(Items::from_vec(Vec::with_capacity(alloc, n)?))
}

/// The same values.
#[cycle(copy_value)]
pub fn copy_values(alloc: Global, values: &[Value]) -> Result<Values, NoMemory>
    ensures { IfOk result (λ copies. copies ≡ values.now) }
{
    let mut done = room_for(alloc, values.len())?;
    for v in values {
        add_value(alloc, v, &mut done)?;
    }
    Ok(done)
}

/// Adds the same value.
#[cycle(copy_value)]
fn add_value(alloc: Global, v: &Value, done: &mut Values) -> Result<(), NoMemory>
    ensures { OnOk result (done.new ≡ done.old ++ v.now ∷ []) }
{
    match copy_value(alloc, v) {
        Ok(copied) => Ok(done.add(copied)?),
        Err(fault) => Err(fault),
    }
}

#[cycle(copy_value)]
#[tactic(auto, using(plan_base::specs::Trees::trees))]
fn copy_chunk(alloc: Global, c: &Chunk) -> Result<Chunk, NoMemory>
    ensures { IfOk result (λ d. d ≡ c.now) }
{
    let code = c.code.share()?;
    let entry = c.entry.copy(alloc)?;
    match copy_values(alloc, c.args.as_slice()) {
        Ok(args) => Ok(Chunk { code, entry, args }),
        Err(fault) => Err(fault),
    }
}

impl TryClone for Chunk {
    /// The same chunk, whose code is shared and not copied.
    fn copy(&self, alloc: Global) -> Result<Chunk, NoMemory>
        ensures { IfOk result (λ c. c ≡ self.now) }
    {
        copy_chunk(alloc, self)
    }
}

impl TryClone for Exn {
    /// The same exception.
    fn copy(&self, alloc: Global) -> Result<Exn, NoMemory>
        ensures { IfOk result (λ x. x ≡ self.now) }
    {
        Ok(Exn(self.0.copy(alloc)?))
    }
}

/// The name of a handler, where there is one.
pub fn copy_handler(alloc: Global, handler: &Option<Name>) -> Result<Option<Name>, NoMemory>
    ensures { IfOk result (λ h. h ≡ handler.now) }
{
    copy_option(alloc, handler)
}

impl TryClone for Packet {
    /// The same packet.
    fn copy(&self, alloc: Global) -> Result<Packet, NoMemory>
        ensures { IfOk result (λ p. p ≡ self.now) }
    {
        Ok(Packet {
            family: self.family,
            dest: self.dest,
            bound: self.bound,
            route: self.route.copy(alloc)?,
            chunk: self.chunk.copy(alloc)?,
            handler: copy_handler(alloc, &self.handler)?,
        })
    }
}
