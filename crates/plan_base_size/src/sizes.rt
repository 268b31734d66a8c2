//! Sizes of trees in marshalled form.
ghost use Rattle.std.specs.Prelude.{◌≡◌, ◌+◌, length, min};
ghost use Rattle.std.specs.List.{sum_by};
ghost use Rattle.plan_base.specs.declared.tree.Expr.{out-Expr};
ghost use Rattle.plan_base_size.specs.Own.{own_size};
ghost use Rattle.plan_base.specs.Sizes.{name_size, type_size, option_type_size, expr_size, catch_size, clause_size, svc_size, param_size, fun_size, code_size, weight, chunk_weight};

use plan_base::{Chunk, Clause, Expr, Fun, Name, Param, Program, Svc, Ty, Value};

/// The bytes that the fields of a type take in marshalled form, or 2^64 - 1 where there are more.
/// Takes no memory.
#[cycle(type_size)]
#[tactic(auto, using(plan_base::proofs::SizeLaws::type_size_out, plan_base::specs::Trees::trees))]
pub fn type_size(t: &Ty) -> u64
    ensures { result ≡ min (type_size t.now) 18446744073709551615 }
{
    match t {
        Ty::List(item) => type_size(item.get()).saturating_add(1),
        Ty::Tuple(parts) => types_size(parts.as_slice()).saturating_add(2),
        _ => 1,
    }
}

#[cycle(type_size)]
fn types_size(types: &[Ty]) -> u64
    ensures { result ≡ min (sum_by type_size types.now) 18446744073709551615 }
{
    let mut total = 0u64;
    for t in types {
        total = total.saturating_add(type_size(t));
    }
    total
}

/// A missing type takes no byte.
fn option_type_size(t: &Option<Ty>) -> u64
    ensures { result ≡ min (option_type_size t.now) 18446744073709551615 }
{
    match t {
        Some(t) => type_size(t),
        None => 0,
    }
}

fn name_size(name: &Name) -> u64
    ensures { result ≡ min (name_size name.now) 18446744073709551615 }
{
    bytes_size(name.as_slice(), 1)
}

/// The length of `bytes` and `more`.
fn bytes_size(bytes: &[u8], more: u64) -> u64
    ensures { result ≡ min (length bytes.now + more) 18446744073709551615 }
{
    (bytes.len() as u64).saturating_add(more)
}

fn names_size(names: &[Name]) -> u64
    ensures { result ≡ min (sum_by name_size names.now) 18446744073709551615 }
{
    let mut total = 0u64;
    for name in names {
        total = total.saturating_add(name_size(name));
    }
    total
}

#[cycle(expr_size)]
#[tactic(auto, using(plan_base::proofs::SizeLaws::expr_size_out, plan_base::specs::Trees::trees))]
fn expr_size(e: &Expr) -> u64
    ensures { result ≡ min (expr_size e.now) 18446744073709551615 }
{
    match e {
        Expr::Tuple(es) | Expr::Call(_, es) | Expr::ChunkOf(_, es) => exprs_size(
            es.as_slice(),
        ).saturating_add(own_size(e)),
        Expr::If(c, a, b) | Expr::OnRemote(c, a, b, _) => expr_size(c.get())
            .saturating_add(expr_size(a.get()))
            .saturating_add(expr_size(b.get()))
            .saturating_add(own_size(e)),
        Expr::Let(_, _, a, b)
        | Expr::Then(a, b)
        | Expr::And(a, b)
        | Expr::Or(a, b)
        | Expr::Binary(_, a, b)
        | Expr::Foldl(_, a, b)
        | Expr::Foldr(_, a, b) => expr_size(a.get())
            .saturating_add(expr_size(b.get()))
            .saturating_add(own_size(e)),
        Expr::Not(a) | Expr::Part(_, a) | Expr::Eval(a) => expr_size(a.get()).saturating_add(
            own_size(e),
        ),
        Expr::Try(a, clauses) => expr_size(a.get())
            .saturating_add(clauses_size(clauses.as_slice()))
            .saturating_add(own_size(e)),
        Expr::OnNeighbor(c, h, n, d) => expr_size(c.get())
            .saturating_add(expr_size(h.get()))
            .saturating_add(expr_size(n.get()).saturating_add(expr_size(d.get())))
            .saturating_add(own_size(e)),
        Expr::Unit
        | Expr::Bool(_)
        | Expr::Int(_)
        | Expr::Char(_)
        | Expr::Str(_)
        | Expr::Blob(_)
        | Expr::Host(_)
        | Expr::Dev(_)
        | Expr::Nil(_)
        | Expr::Var(_)
        | Expr::Raise(_, _) => own_size(e),
    }
}

/// What an expression takes beside its parts.
#[tactic(auto, using(plan_base::specs::Trees::trees))]
fn own_size(e: &Expr) -> u64
    ensures { result ≡ min (own_size (out-Expr e.now)) 18446744073709551615 }
{
    match e {
        Expr::Bool(_) | Expr::Tuple(_) | Expr::Binary(_, _, _) | Expr::Part(_, _) => 2,
        Expr::Try(_, _) => 2,
        Expr::Int(_) => 9,
        Expr::Char(_) | Expr::Host(_) | Expr::Dev(_) => 5,
        Expr::Str(s) => bytes_size(s.as_slice(), 3),
        Expr::Blob(b) => bytes_size(b.as_slice(), 3),
        Expr::Nil(t) => option_type_size(t).saturating_add(1),
        Expr::Raise(x, t) => option_type_size(t)
            .saturating_add(name_size(x))
            .saturating_add(1),
        Expr::Let(x, t, _, _) => type_size(t).saturating_add(name_size(x)).saturating_add(1),
        Expr::Var(x) | Expr::Foldl(x, _, _) | Expr::Foldr(x, _, _) | Expr::OnRemote(_, _, _, x) => {
            name_size(x).saturating_add(1)
        }
        Expr::Call(f, _) | Expr::ChunkOf(f, _) => name_size(f).saturating_add(2),
        Expr::Unit
        | Expr::If(_, _, _)
        | Expr::Then(_, _)
        | Expr::And(_, _)
        | Expr::Or(_, _)
        | Expr::Not(_)
        | Expr::Eval(_)
        | Expr::OnNeighbor(_, _, _, _) => 1,
    }
}

#[cycle(expr_size)]
fn exprs_size(exprs: &[Expr]) -> u64
    ensures { result ≡ min (sum_by expr_size exprs.now) 18446744073709551615 }
{
    let mut total = 0u64;
    for e in exprs {
        total = total.saturating_add(expr_size(e));
    }
    total
}

#[cycle(expr_size)]
fn clauses_size(clauses: &[Clause]) -> u64
    ensures { result ≡ min (sum_by clause_size clauses.now) 18446744073709551615 }
{
    let mut total = 0u64;
    for clause in clauses {
        total = total.saturating_add(catch_size(&clause.name).saturating_add(expr_size(
            &clause.body,
        )));
    }
    total
}

fn catch_size(name: &Option<Name>) -> u64
    ensures { result ≡ min (catch_size name.now) 18446744073709551615 }
{
    match name {
        Some(name) => name_size(name).saturating_add(1),
        None => 1,
    }
}

fn svcs_size(svcs: &[Svc]) -> u64
    ensures { result ≡ min (sum_by svc_size svcs.now) 18446744073709551615 }
{
    let mut total = 0u64;
    for svc in svcs {
        total = total.saturating_add(svc_size(svc));
    }
    total
}

fn svc_size(svc: &Svc) -> u64
    ensures { result ≡ min (svc_size svc.now) 18446744073709551615 }
{
    let types = types_size(svc.params.as_slice()).saturating_add(type_size(&svc.result));
    name_size(&svc.name).saturating_add(types).saturating_add(1)
}

fn params_size(params: &[Param]) -> u64
    ensures { result ≡ min (sum_by param_size params.now) 18446744073709551615 }
{
    let mut total = 0u64;
    for param in params {
        total = total.saturating_add(name_size(&param.name).saturating_add(type_size(&param.ty)));
    }
    total
}

fn funs_size(funs: &[Fun]) -> u64
    ensures { result ≡ min (sum_by fun_size funs.now) 18446744073709551615 }
{
    let mut total = 0u64;
    for fun in funs {
        total = total.saturating_add(fun_size(fun));
    }
    total
}

fn fun_size(fun: &Fun) -> u64
    ensures { result ≡ min (fun_size fun.now) 18446744073709551615 }
{
    let head = name_size(&fun.name).saturating_add(params_size(fun.params.as_slice()));
    let body = type_size(&fun.result).saturating_add(expr_size(&fun.body));
    head.saturating_add(body).saturating_add(1)
}

/// The bytes of a program's marshalled code, or 2^64 - 1 where there are more. Takes no memory.
#[tactic(auto, unfolding(plan_base::specs::Sizes::code_size))]
pub fn code_size(p: &Program) -> u64
    ensures { result ≡ min (code_size p.now) 18446744073709551615 }
{
    let heads = svcs_size(p.svcs.as_slice()).saturating_add(names_size(p.exns.as_slice()));
    heads
        .saturating_add(funs_size(p.funs.as_slice()))
        .saturating_add(3)
}

/// The bytes of a value's marshalled form, its tag counted, or 2^64 - 1 where there are more. Takes no memory.
#[cycle(weight)]
#[tactic(auto, using(plan_base::proofs::SizeLaws::weight_out, plan_base::specs::Trees::trees))]
pub fn weight(v: &Value) -> u64
    ensures { result ≡ min (weight v.now) 18446744073709551615 }
{
    match v {
        Value::Unit => 1,
        Value::Bool(_) => 2,
        Value::Int(_) => 9,
        Value::Char(_) | Value::Host(_) | Value::Dev(_) => 5,
        Value::Str(s) => bytes_size(s.as_slice(), 3),
        Value::Blob(b) => bytes_size(b.as_slice(), 3),
        Value::Chunk(c) => chunk_weight(c.get()).saturating_add(1),
        Value::List(t, items) => values_weight(items.as_slice())
            .saturating_add(type_size(t.get()))
            .saturating_add(3),
        Value::Tuple(parts) => values_weight(parts.as_slice()).saturating_add(2),
    }
}

/// The bytes of a chunk's marshalled form, or 2^64 - 1 where there are more. As a value it weighs one more,
/// since a value has a tag. Takes no memory.
#[cycle(weight)]
#[tactic(auto, using(plan_base::proofs::SizeLaws::chunk_weight_is))]
pub fn chunk_weight(c: &Chunk) -> u64
    ensures { result ≡ min (chunk_weight c.now) 18446744073709551615 }
{
    let code = code_size(c.code.get()).saturating_add(name_size(&c.entry));
    code.saturating_add(values_weight(c.args.as_slice()))
        .saturating_add(1)
}

/// What values weigh in sum, in bytes of their marshalled form. It stops at 2^64 - 1. Takes no memory.
#[cycle(weight)]
pub fn values_weight(values: &[Value]) -> u64
    ensures { result ≡ min (sum_by weight values.now) 18446744073709551615 }
{
    let mut total = 0u64;
    for v in values {
        total = total.saturating_add(weight(v));
    }
    total
}
