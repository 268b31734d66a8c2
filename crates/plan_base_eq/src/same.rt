//! Whether two trees of a kind are the same.
ghost use Rattle.std.specs.Prelude.{◌≡◌, ◌↔◌, IsTrue, true};
ghost use Rattle.plan_base.specs.SameTypes as spec;
ghost use Rattle.plan_base.specs.declared.tree.Expr.{out-Expr};
ghost use Rattle.plan_base.specs.Groups.{is_leaf, is_pair, is_row, is_more};

use crate::equal::SameAs;
use containers::Boxed;
use plan_base::{Chunk, Clause, Exn, Expr, Fun, Name, Param, Program, Svc, Ty, Value};

impl SameAs for Ty {
    /// Whether the two types are the same. Takes no memory.
    fn is(&self, other: &Ty) -> bool
        ensures same { IsTrue result ↔ (self.now ≡ other.now) }
        ensures tested { result ≡ spec.same_type self.now other.now }
    {
        same_type(self, other)
    }
}

#[cycle(same_type)]
#[tactic(auto, using(plan_base::specs::Trees::trees))]
fn same_type(a: &Ty, b: &Ty) -> bool
    ensures { IsTrue result ↔ (a.now ≡ b.now) }
{
    match a {
        Ty::Unit => matches!(b, Ty::Unit),
        Ty::Bool => matches!(b, Ty::Bool),
        Ty::Int => matches!(b, Ty::Int),
        Ty::Char => matches!(b, Ty::Char),
        Ty::Str => matches!(b, Ty::Str),
        Ty::Blob => matches!(b, Ty::Blob),
        Ty::Host => matches!(b, Ty::Host),
        Ty::Dev => matches!(b, Ty::Dev),
        Ty::Chunk => matches!(b, Ty::Chunk),
        Ty::List(item) => match b {
            Ty::List(other) => same_type(item.get(), other.get()),
            _ => false,
        },
        Ty::Tuple(parts) => match b {
            Ty::Tuple(others) => same_types(parts.as_slice(), others.as_slice()),
            _ => false,
        },
    }
}

#[cycle(same_type)]
fn same_types(a: &[Ty], b: &[Ty]) -> bool
    ensures { IsTrue result ↔ (a.now ≡ b.now) }
{
    if a.len() != b.len() {
        return false;
    }
    for i in 0..a.len() {
        if !same_type(&a[i], &b[i]) {
            return false;
        }
    }
    true
}

#[tactic(auto, using(plan_base::specs::Trees::trees))]
fn same_option_type(a: &Option<Ty>, b: &Option<Ty>) -> bool
    ensures { IsTrue result ↔ (a.now ≡ b.now) }
{
    match a {
        Some(t) => match b {
            Some(u) => t.is(u),
            None => false,
        },
        None => b.is_none(),
    }
}

fn same_option_name(a: &Option<Name>, b: &Option<Name>) -> bool
    ensures { IsTrue result ↔ (a.now ≡ b.now) }
{
    match a {
        Some(x) => match b {
            Some(y) => x.is(y),
            None => false,
        },
        None => b.is_none(),
    }
}

fn same_names(a: &[Name], b: &[Name]) -> bool
    ensures { IsTrue result ↔ (a.now ≡ b.now) }
{
    if a.len() != b.len() {
        return false;
    }
    for i in 0..a.len() {
        if !a[i].is(&b[i]) {
            return false;
        }
    }
    true
}

impl SameAs for Expr {
    /// Whether the two expressions are the same. Takes no memory.
    fn is(&self, other: &Expr) -> bool
        ensures { IsTrue result ↔ (self.now ≡ other.now) }
    {
        same_expr(self, other)
    }
}

/// Whether the two expressions are the same.
#[cycle(same_expr)]
#[tactic(auto, using(plan_base::specs::Trees::trees))]
fn same_expr(e: &Expr, other: &Expr) -> bool
    ensures { IsTrue result ↔ (e.now ≡ other.now) }
{
    match e {
        Expr::Unit | Expr::Bool(_) | Expr::Int(_) | Expr::Char(_) => same_leaf(e, other),
        Expr::Str(_) | Expr::Blob(_) | Expr::Host(_) | Expr::Dev(_) => same_leaf(e, other),
        Expr::Nil(_) | Expr::Var(_) | Expr::Raise(_, _) => same_leaf(e, other),
        Expr::Then(_, _) | Expr::And(_, _) | Expr::Or(_, _) => same_pair(e, other),
        Expr::Binary(_, _, _) | Expr::Foldl(_, _, _) | Expr::Foldr(_, _, _) => same_pair(e, other),
        Expr::Tuple(_) | Expr::Call(_, _) | Expr::ChunkOf(_, _) => same_row(e, other),
        Expr::Not(_) | Expr::Part(_, _) | Expr::Eval(_) | Expr::Try(_, _) => same_row(e, other),
        Expr::If(_, _, _) | Expr::Let(_, _, _, _) => same_more(e, other),
        Expr::OnRemote(_, _, _, _) | Expr::OnNeighbor(_, _, _, _) => same_more(e, other),
    }
}

/// Whether an expression without parts is the same as the other.
#[tactic(auto, using(plan_base::specs::Trees::trees))]
fn same_leaf(e: &Expr, other: &Expr) -> bool
    requires leaf { is_leaf (out-Expr e.now) ≡ true }
    ensures { IsTrue result ↔ (e.now ≡ other.now) }
{
    match e {
        Expr::Unit => matches!(other, Expr::Unit),
        Expr::Bool(x) => match other {
            Expr::Bool(y) => *x == *y,
            _ => false,
        },
        Expr::Int(x) => match other {
            Expr::Int(y) => *x == *y,
            _ => false,
        },
        Expr::Char(x) => match other {
            Expr::Char(y) => *x == *y,
            _ => false,
        },
        Expr::Str(x) => match other {
            Expr::Str(y) => x.is(y),
            _ => false,
        },
        Expr::Blob(x) => match other {
            Expr::Blob(y) => x.is(y),
            _ => false,
        },
        Expr::Host(x) => match other {
            Expr::Host(y) => x.0 == y.0,
            _ => false,
        },
        Expr::Dev(x) => match other {
            Expr::Dev(y) => x.0 == y.0,
            _ => false,
        },
        Expr::Nil(t) => match other {
            Expr::Nil(t2) => same_option_type(t, t2),
            _ => false,
        },
        Expr::Var(x) => match other {
            Expr::Var(y) => x.is(y),
            _ => false,
        },
        Expr::Raise(x, t) => match other {
            Expr::Raise(y, t2) => x.is(y) && same_option_type(t, t2),
            _ => false,
        },
        _ => false,
    }
}

/// Whether an expression with two parts is the same as the other.
#[cycle(same_expr)]
#[tactic(auto, using(plan_base::specs::Trees::trees, plan_base::proofs::SizeLaws::expr_nodes_out))]
fn same_pair(e: &Expr, other: &Expr) -> bool
    requires pair { is_pair (out-Expr e.now) ≡ true }
    ensures { IsTrue result ↔ (e.now ≡ other.now) }
{
    match e {
        Expr::Then(a, b) => match other {
            Expr::Then(a2, b2) => same_both(a, b, a2, b2),
            _ => false,
        },
        Expr::And(a, b) => match other {
            Expr::And(a2, b2) => same_both(a, b, a2, b2),
            _ => false,
        },
        Expr::Or(a, b) => match other {
            Expr::Or(a2, b2) => same_both(a, b, a2, b2),
            _ => false,
        },
        Expr::Binary(op, a, b) => match other {
            Expr::Binary(op2, a2, b2) => *op == *op2 && same_both(a, b, a2, b2),
            _ => false,
        },
        Expr::Foldl(f, a, l) => match other {
            Expr::Foldl(g, a2, l2) => f.is(g) && same_both(a, l, a2, l2),
            _ => false,
        },
        Expr::Foldr(f, a, l) => match other {
            Expr::Foldr(g, a2, l2) => f.is(g) && same_both(a, l, a2, l2),
            _ => false,
        },
        _ => false,
    }
}

/// Whether an expression with one part or a list of parts is the same as the other.
#[cycle(same_expr)]
#[tactic(auto, using(plan_base::specs::Trees::trees, plan_base::proofs::SizeLaws::expr_nodes_out))]
fn same_row(e: &Expr, other: &Expr) -> bool
    requires row { is_row (out-Expr e.now) ≡ true }
    ensures { IsTrue result ↔ (e.now ≡ other.now) }
{
    match e {
        Expr::Tuple(es) => match other {
            Expr::Tuple(others) => same_exprs(es.as_slice(), others.as_slice()),
            _ => false,
        },
        Expr::Call(f, es) => match other {
            Expr::Call(g, others) => f.is(g) && same_exprs(es.as_slice(), others.as_slice()),
            _ => false,
        },
        Expr::ChunkOf(f, es) => match other {
            Expr::ChunkOf(g, others) => f.is(g) && same_exprs(es.as_slice(), others.as_slice()),
            _ => false,
        },
        Expr::Not(a) => match other {
            Expr::Not(a2) => same_expr(a.get(), a2.get()),
            _ => false,
        },
        Expr::Part(i, a) => match other {
            Expr::Part(j, a2) => *i == *j && same_expr(a.get(), a2.get()),
            _ => false,
        },
        Expr::Eval(c) => match other {
            Expr::Eval(c2) => same_expr(c.get(), c2.get()),
            _ => false,
        },
        Expr::Try(a, cs) => match other {
            Expr::Try(a2, cs2) => same_expr(a.get(), a2.get())
                && same_clauses(cs.as_slice(), cs2.as_slice()),
            _ => false,
        },
        _ => false,
    }
}

/// Whether a branch, a binding or a sending is the same as the other.
#[cycle(same_expr)]
#[tactic(auto, using(plan_base::specs::Trees::trees, plan_base::proofs::SizeLaws::expr_nodes_out))]
fn same_more(e: &Expr, other: &Expr) -> bool
    requires more { is_more (out-Expr e.now) ≡ true }
    ensures { IsTrue result ↔ (e.now ≡ other.now) }
{
    match e {
        Expr::If(c, a, b) => match other {
            Expr::If(c2, a2, b2) => same_expr(c.get(), c2.get()) && same_both(a, b, a2, b2),
            _ => false,
        },
        Expr::Let(x, t, a, b) => match other {
            Expr::Let(y, t2, a2, b2) => x.is(y) && t.is(t2) && same_both(a, b, a2, b2),
            _ => false,
        },
        Expr::OnRemote(c, h, n, r) => match other {
            Expr::OnRemote(c2, h2, n2, r2) => r.is(r2)
                && same_expr(c.get(), c2.get())
                && same_both(h, n, h2, n2),
            _ => false,
        },
        Expr::OnNeighbor(c, h, n, d) => match other {
            Expr::OnNeighbor(c2, h2, n2, d2) => same_both(c, h, c2, h2) && same_both(n, d, n2, d2),
            _ => false,
        },
        _ => false,
    }
}

/// Whether two parts are the same as the other two.
#[cycle(same_expr)]
fn same_both(a: &Boxed<Expr>, b: &Boxed<Expr>, other_a: &Boxed<Expr>, other_b: &Boxed<Expr>) -> bool
    ensures { IsTrue result ↔ ((a.now ≡ other_a.now) × (b.now ≡ other_b.now)) }
{
    same_expr(a.get(), other_a.get()) && same_expr(b.get(), other_b.get())
}

#[cycle(same_expr)]
fn same_exprs(a: &[Expr], b: &[Expr]) -> bool
    ensures { IsTrue result ↔ (a.now ≡ b.now) }
{
    if a.len() != b.len() {
        return false;
    }
    for i in 0..a.len() {
        if !same_expr(&a[i], &b[i]) {
            return false;
        }
    }
    true
}

#[cycle(same_expr)]
fn same_clauses(a: &[Clause], b: &[Clause]) -> bool
    ensures { IsTrue result ↔ (a.now ≡ b.now) }
{
    if a.len() != b.len() {
        return false;
    }
    for i in 0..a.len() {
        if !same_clause(&a[i], &b[i]) {
            return false;
        }
    }
    true
}

#[cycle(same_expr)]
#[tactic(auto, using(plan_base::specs::Trees::trees))]
fn same_clause(a: &Clause, b: &Clause) -> bool
    ensures { IsTrue result ↔ (a.now ≡ b.now) }
{
    same_option_name(&a.name, &b.name) && same_expr(&a.body, &b.body)
}

impl SameAs for Clause {
    /// Whether the two clauses are the same. Takes no memory.
    fn is(&self, other: &Clause) -> bool
        ensures { IsTrue result ↔ (self.now ≡ other.now) }
    {
        same_clause(self, other)
    }
}

impl SameAs for Svc {
    /// Whether the two declarations are the same. Takes no memory.
    fn is(&self, other: &Svc) -> bool
        ensures { IsTrue result ↔ (self.now ≡ other.now) }
    {
        self.name.is(&other.name)
            && same_types(self.params.as_slice(), other.params.as_slice())
            && self.result.is(&other.result)
    }
}

fn same_svcs(a: &[Svc], b: &[Svc]) -> bool
    ensures { IsTrue result ↔ (a.now ≡ b.now) }
{
    if a.len() != b.len() {
        return false;
    }
    for i in 0..a.len() {
        if !a[i].is(&b[i]) {
            return false;
        }
    }
    true
}

impl SameAs for Param {
    /// Whether the two parameters are the same. Takes no memory.
    fn is(&self, other: &Param) -> bool
        ensures { IsTrue result ↔ (self.now ≡ other.now) }
    {
        self.name.is(&other.name) && self.ty.is(&other.ty)
    }
}

fn same_params(a: &[Param], b: &[Param]) -> bool
    ensures { IsTrue result ↔ (a.now ≡ b.now) }
{
    if a.len() != b.len() {
        return false;
    }
    for i in 0..a.len() {
        if !a[i].is(&b[i]) {
            return false;
        }
    }
    true
}

impl SameAs for Fun {
    /// Whether the two functions are the same. Takes no memory.
    fn is(&self, other: &Fun) -> bool
        ensures { IsTrue result ↔ (self.now ≡ other.now) }
    {
        self.name.is(&other.name)
            && same_params(self.params.as_slice(), other.params.as_slice())
            && self.result.is(&other.result)
            && self.body.is(&other.body)
    }
}

fn same_funs(a: &[Fun], b: &[Fun]) -> bool
    ensures { IsTrue result ↔ (a.now ≡ b.now) }
{
    if a.len() != b.len() {
        return false;
    }
    for i in 0..a.len() {
        if !a[i].is(&b[i]) {
            return false;
        }
    }
    true
}

impl SameAs for Program {
    /// Whether the two programs are the same. Takes no memory.
    fn is(&self, other: &Program) -> bool
        ensures { IsTrue result ↔ (self.now ≡ other.now) }
    {
        same_svcs(self.svcs.as_slice(), other.svcs.as_slice())
            && same_names(self.exns.as_slice(), other.exns.as_slice())
            && same_funs(self.funs.as_slice(), other.funs.as_slice())
    }
}

impl SameAs for Value {
    /// Whether the two values are the same. Takes no memory.
    fn is(&self, other: &Value) -> bool
        ensures { IsTrue result ↔ (self.now ≡ other.now) }
    {
        same_value(self, other)
    }
}

#[cycle(same_value)]
#[tactic(auto, using(plan_base::specs::Trees::trees))]
fn same_value(v: &Value, other: &Value) -> bool
    ensures { IsTrue result ↔ (v.now ≡ other.now) }
{
    match v {
        Value::Unit => matches!(other, Value::Unit),
        Value::Bool(x) => match other {
            Value::Bool(y) => *x == *y,
            _ => false,
        },
        Value::Int(x) => match other {
            Value::Int(y) => *x == *y,
            _ => false,
        },
        Value::Char(x) => match other {
            Value::Char(y) => *x == *y,
            _ => false,
        },
        Value::Str(x) => match other {
            Value::Str(y) => x.is(y),
            _ => false,
        },
        Value::Blob(x) => match other {
            Value::Blob(y) => x.is(y),
            _ => false,
        },
        Value::Host(x) => match other {
            Value::Host(y) => x.0 == y.0,
            _ => false,
        },
        Value::Dev(x) => match other {
            Value::Dev(y) => x.0 == y.0,
            _ => false,
        },
        Value::Chunk(c) => match other {
            Value::Chunk(c2) => same_chunk(c.get(), c2.get()),
            _ => false,
        },
        Value::List(t, vs) => match other {
            Value::List(t2, vs2) => t.get().is(t2.get())
                && same_values(vs.as_slice(), vs2.as_slice()),
            _ => false,
        },
        Value::Tuple(vs) => match other {
            Value::Tuple(vs2) => same_values(vs.as_slice(), vs2.as_slice()),
            _ => false,
        },
    }
}

#[cycle(same_value)]
fn same_values(a: &[Value], b: &[Value]) -> bool
    ensures { IsTrue result ↔ (a.now ≡ b.now) }
{
    if a.len() != b.len() {
        return false;
    }
    for i in 0..a.len() {
        if !same_value(&a[i], &b[i]) {
            return false;
        }
    }
    true
}

#[cycle(same_value)]
#[tactic(auto, using(plan_base::specs::Trees::trees))]
fn same_chunk(a: &Chunk, b: &Chunk) -> bool
    ensures { IsTrue result ↔ (a.now ≡ b.now) }
{
    a.code.get().is(b.code.get())
        && a.entry.is(&b.entry)
        && same_values(a.args.as_slice(), b.args.as_slice())
}

impl SameAs for Chunk {
    /// Whether the two chunks are the same. Takes no memory.
    fn is(&self, other: &Chunk) -> bool
        ensures { IsTrue result ↔ (self.now ≡ other.now) }
    {
        same_chunk(self, other)
    }
}

impl SameAs for Exn {
    /// Whether the two exceptions are the same. Takes no memory.
    fn is(&self, other: &Exn) -> bool
        ensures { IsTrue result ↔ (self.now ≡ other.now) }
    {
        self.0.is(&other.0)
    }
}
