//! Depths and numbers of nodes of trees.
ghost use Rattle.std.specs.Prelude.{◌≡◌, min};
ghost use Rattle.std.specs.List.{sum_by};
ghost use Rattle.plan_base.specs.Sizes.{largest_by, type_depth, expr_depth, clause_depth, expr_nodes, clause_nodes, program_nodes, nesting, chunk_nesting};

use crate::measures::{CountsNodes, HasDepth};
use plan_base::{Chunk, Clause, Expr, Program, Ty, Value};

impl HasDepth for Ty {
    /// The depth: 1 for a base type, one more than the deepest part for a list or a tuple. It stops at
    /// 2^32 - 1. Takes no memory.
    fn depth(&self) -> u32
        ensures { result ≡ min (type_depth self.now) 4294967295 }
    {
        type_depth(self)
    }
}

#[cycle(type_depth)]
#[tactic(auto, using(plan_base::proofs::SizeLaws::type_depth_out, plan_base::specs::Trees::trees))]
fn type_depth(t: &Ty) -> u32
    ensures { result ≡ min (type_depth t.now) 4294967295 }
{
    match t {
        Ty::List(item) => type_depth(item.get()).saturating_add(1),
        Ty::Tuple(parts) => types_depth(parts.as_slice()).saturating_add(1),
        _ => 1,
    }
}

#[cycle(type_depth)]
fn types_depth(types: &[Ty]) -> u32
    ensures { result ≡ min (largest_by type_depth types.now) 4294967295 }
{
    let mut deepest = 0u32;
    for t in types {
        deepest = deepest.max(type_depth(t));
    }
    deepest
}

impl HasDepth for Expr {
    /// The depth: 1 without parts, else one more than the deepest part. It stops at 2^32 - 1.
    /// Takes no memory.
    fn depth(&self) -> u32
        ensures { result ≡ min (expr_depth self.now) 4294967295 }
    {
        expr_depth(self)
    }
}

impl CountsNodes for Expr {
    /// The number of expressions in this one, itself counted. It stops at 2^32 - 1. Takes no memory.
    fn nodes(&self) -> u32
        ensures { result ≡ min (expr_nodes self.now) 4294967295 }
    {
        expr_nodes(self)
    }
}

#[cycle(expr_depth)]
#[tactic(auto, using(plan_base::proofs::SizeLaws::expr_depth_out, plan_base::specs::Trees::trees))]
fn expr_depth(e: &Expr) -> u32
    ensures { result ≡ min (expr_depth e.now) 4294967295 }
{
    match e {
        Expr::Tuple(es) | Expr::Call(_, es) | Expr::ChunkOf(_, es) => exprs_depth(
            es.as_slice(),
        ).saturating_add(1),
        Expr::If(c, a, b) => expr_depth(c.get())
            .max(expr_depth(a.get()))
            .max(expr_depth(b.get()))
            .saturating_add(1),
        Expr::Let(_, _, a, b)
        | Expr::Then(a, b)
        | Expr::And(a, b)
        | Expr::Or(a, b)
        | Expr::Binary(_, a, b)
        | Expr::Foldl(_, a, b)
        | Expr::Foldr(_, a, b) => expr_depth(a.get())
            .max(expr_depth(b.get()))
            .saturating_add(1),
        Expr::Not(a) | Expr::Part(_, a) | Expr::Eval(a) => expr_depth(a.get()).saturating_add(1),
        Expr::Try(a, clauses) => expr_depth(a.get())
            .max(clauses_depth(clauses.as_slice()))
            .saturating_add(1),
        Expr::OnRemote(c, h, n, _) => expr_depth(c.get())
            .max(expr_depth(h.get()))
            .max(expr_depth(n.get()))
            .saturating_add(1),
        Expr::OnNeighbor(c, h, n, d) => {
            let first = expr_depth(c.get()).max(expr_depth(h.get()));
            first
                .max(expr_depth(n.get()))
                .max(expr_depth(d.get()))
                .saturating_add(1)
        }
        Expr::Unit
        | Expr::Bool(_)
        | Expr::Int(_)
        | Expr::Char(_)
        | Expr::Str(_)
        | Expr::Blob(_)
        | Expr::Host(_)
        | Expr::Dev(_)
        | Expr::Nil(_)
        | Expr::Var(_)
        | Expr::Raise(_, _) => 1,
    }
}

#[cycle(expr_depth)]
fn exprs_depth(exprs: &[Expr]) -> u32
    ensures { result ≡ min (largest_by expr_depth exprs.now) 4294967295 }
{
    let mut deepest = 0u32;
    for e in exprs {
        deepest = deepest.max(expr_depth(e));
    }
    deepest
}

#[cycle(expr_depth)]
fn clauses_depth(clauses: &[Clause]) -> u32
    ensures { result ≡ min (largest_by clause_depth clauses.now) 4294967295 }
{
    let mut deepest = 0u32;
    for clause in clauses {
        deepest = deepest.max(expr_depth(&clause.body));
    }
    deepest
}

#[cycle(expr_nodes)]
#[tactic(auto, using(plan_base::proofs::SizeLaws::expr_nodes_out, plan_base::specs::Trees::trees))]
fn expr_nodes(e: &Expr) -> u32
    ensures { result ≡ min (expr_nodes e.now) 4294967295 }
{
    match e {
        Expr::Tuple(es) | Expr::Call(_, es) | Expr::ChunkOf(_, es) => exprs_nodes(
            es.as_slice(),
        ).saturating_add(1),
        Expr::If(c, a, b) | Expr::OnRemote(c, a, b, _) => {
            expr_nodes(c.get())
                .saturating_add(expr_nodes(a.get()))
                .saturating_add(expr_nodes(b.get()))
                .saturating_add(1)
        }
        Expr::Let(_, _, a, b)
        | Expr::Then(a, b)
        | Expr::And(a, b)
        | Expr::Or(a, b)
        | Expr::Binary(_, a, b)
        | Expr::Foldl(_, a, b)
        | Expr::Foldr(_, a, b) => expr_nodes(a.get())
            .saturating_add(expr_nodes(b.get()))
            .saturating_add(1),
        Expr::Not(a) | Expr::Part(_, a) | Expr::Eval(a) => expr_nodes(a.get()).saturating_add(1),
        Expr::Try(a, clauses) => expr_nodes(a.get())
            .saturating_add(clauses_nodes(clauses.as_slice()))
            .saturating_add(1),
        Expr::OnNeighbor(c, h, n, d) => {
            let first = expr_nodes(c.get()).saturating_add(expr_nodes(h.get()));
            first
                .saturating_add(expr_nodes(n.get()))
                .saturating_add(expr_nodes(d.get()))
                .saturating_add(1)
        }
        Expr::Unit
        | Expr::Bool(_)
        | Expr::Int(_)
        | Expr::Char(_)
        | Expr::Str(_)
        | Expr::Blob(_)
        | Expr::Host(_)
        | Expr::Dev(_)
        | Expr::Nil(_)
        | Expr::Var(_)
        | Expr::Raise(_, _) => 1,
    }
}

#[cycle(expr_nodes)]
fn exprs_nodes(exprs: &[Expr]) -> u32
    ensures { result ≡ min (sum_by expr_nodes exprs.now) 4294967295 }
{
    let mut total = 0u32;
    for e in exprs {
        total = total.saturating_add(expr_nodes(e));
    }
    total
}

#[cycle(expr_nodes)]
fn clauses_nodes(clauses: &[Clause]) -> u32
    ensures { result ≡ min (sum_by clause_nodes clauses.now) 4294967295 }
{
    let mut total = 0u32;
    for clause in clauses {
        total = total.saturating_add(expr_nodes(&clause.body));
    }
    total
}

impl CountsNodes for Program {
    /// The number of expressions in all functions. It stops at 2^32 - 1. Takes no memory.
    #[tactic(auto, unfolding(plan_base::specs::Sizes::program_nodes))]
    fn nodes(&self) -> u32
        ensures { result ≡ min (program_nodes self.now) 4294967295 }
    {
        let mut total = 0u32;
        for fun in self.funs.as_slice() {
            total = total.saturating_add(expr_nodes(&fun.body));
        }
        total
    }
}

/// How many chunks stand inside each other in a value. It stops at 2^32 - 1. Takes no memory.
#[cycle(nesting)]
#[tactic(auto, using(plan_base::proofs::SizeLaws::nesting_out, plan_base::specs::Trees::trees))]
pub fn nesting(v: &Value) -> u32
    ensures { result ≡ min (nesting v.now) 4294967295 }
{
    match v {
        Value::Chunk(c) => chunk_nesting(c.get()),
        Value::List(_, items) => values_nesting(items.as_slice()),
        Value::Tuple(parts) => values_nesting(parts.as_slice()),
        _ => 0,
    }
}

/// How many chunks stand inside each other in a chunk, itself counted. It stops at 2^32 - 1.
/// Takes no memory.
#[cycle(nesting)]
#[tactic(auto, using(plan_base::proofs::SizeLaws::chunk_nesting_is))]
pub fn chunk_nesting(c: &Chunk) -> u32
    ensures { result ≡ min (chunk_nesting c.now) 4294967295 }
{
    values_nesting(c.args.as_slice()).saturating_add(1)
}

/// How many chunks stand inside each other in values. It stops at 2^32 - 1. Takes no memory.
#[cycle(nesting)]
pub fn values_nesting(values: &[Value]) -> u32
    ensures { result ≡ min (largest_by nesting values.now) 4294967295 }
{
    let mut most = 0u32;
    for v in values {
        most = most.max(nesting(v));
    }
    most
}
