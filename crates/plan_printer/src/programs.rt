//! Prints programs and expressions.
ghost use Rattle.std.specs.Prelude.{◌≡◌, ◌++◌, [], codes, OnOk, OnErr};
ghost use Rattle.std.specs.Fmt.{decimal};
ghost use Rattle.std.specs.List.{flat_map};
ghost use Rattle.plan_printer_spec.specs.Pieces.{listed_pieces, commas};
ghost use Rattle.plan_printer_spec.specs.Printed.{type_text, op_text, nil_text, raise_text, expr_text, catch_text, clause_text, svc_text, exn_text, param_text, fun_text, program_text};

use crate::pieces::{
    put, put_blob, put_bool, put_char, put_decimal, put_dev, put_host, put_int, put_named,
    put_string,
};
use crate::types::{put_empty, put_type, put_typed, put_types};
use plan_base::{Bytes, Clause, Expr, Fun, Name, NoMemory, Op, Param, Program, Svc, Ty};
use std::alloc::Global;

/// Appends the printed form of a program. Where an allocation fails, `out` stays.
pub fn print_program(alloc: Global, program: &Program, out: &mut Bytes) -> Result<(), NoMemory>
    ensures whole { OnOk result (out.new ≡ out.old ++ program_text program.now) }
    ensures stays { OnErr result (out.new ≡ out.old) }
{
    let mut text = Bytes::new(alloc);
    put_program(alloc, program, &mut text)?;
    out.add_all(text.as_slice())?;
    Ok(())
}

/// The spelling of an operator.
#[tactic(auto, unfolding(plan_printer_spec::specs::Printed::op_text))]
fn op_spelling(op: Op) -> &'static [u8]
    ensures { result.now ≡ op_text op }
{
    match op {
        Op::Add => b"+",
        Op::Sub => b"-",
        Op::Mul => b"*",
        Op::Div => b"/",
        Op::Mod => b"mod",
        Op::Cat => b"^",
        Op::Eq => b"=",
        Op::Ne => b"<>",
        Op::Lt => b"<",
        Op::Le => b"<=",
        Op::Gt => b">",
        Op::Ge => b">=",
        Op::Cons => b"::",
    }
}

/// The empty list, with its element type where it has one.
fn put_nil(t: &Option<Ty>, out: &mut Bytes) -> Result<(), NoMemory>
    ensures { OnOk result (out.new ≡ out.old ++ nil_text t.now) }
{
    match t {
        Some(t) => put_empty(t, out),
        None => put(out, b"[]"),
    }
}

/// A `raise`, with its type where it has one.
#[tactic(auto, using(std::proofs::Common::append_assoc))]
fn put_raise(name: &Name, t: &Option<Ty>, out: &mut Bytes) -> Result<(), NoMemory>
    ensures { OnOk result (out.new ≡ out.old ++ raise_text name.now t.now) }
{
    match t {
        Some(t) => {
            put(out, b"raise")?;
            put_empty(t, out)?;
            put(out, b" ")?;
            put(out, name.as_slice())
        }
        None => {
            put(out, b"raise ")?;
            put(out, name.as_slice())
        }
    }
}

/// An expression.
#[cycle(put_expr)]
#[tactic(auto, using(crate::proofs::PrintLaws::expr_text_out, plan_base::proofs::SizeLaws::expr_nodes_out, plan_base::specs::Trees::trees))]
fn put_expr(alloc: Global, e: &Expr, out: &mut Bytes) -> Result<(), NoMemory>
    ensures { OnOk result (out.new ≡ out.old ++ expr_text e.now) }
{
    match e {
        Expr::Unit => put(out, b"()"),
        Expr::Bool(b) => put_bool(*b, out),
        Expr::Int(z) => put_int(alloc, *z, out),
        Expr::Char(c) => put_char(*c, out),
        Expr::Str(s) => put_string(s.as_slice(), out),
        Expr::Blob(b) => put_blob(b.as_slice(), out),
        Expr::Host(h) => put_host(alloc, h.0, out),
        Expr::Dev(d) => put_dev(alloc, d.0, out),
        Expr::Nil(t) => put_nil(t, out),
        Expr::Var(x) => put(out, x.as_slice()),
        Expr::Tuple(es) => put_args(alloc, b"(", es.as_slice(), out),
        Expr::Call(f, es) => put_call(alloc, b"", f, b"(", es.as_slice(), out),
        Expr::ChunkOf(f, es) => put_call(alloc, b"|", f, b"|(", es.as_slice(), out),
        Expr::If(c, a, b) => put_choice(alloc, c.get(), a.get(), b.get(), out),
        Expr::Let(x, t, a, b) => put_binding(alloc, x, t, a.get(), b.get(), out),
        Expr::Then(a, b) => put_both(alloc, b"(", a.get(), b"; ", b.get(), b")", out),
        Expr::And(a, b) => put_both(alloc, b"(", a.get(), b" and ", b.get(), b")", out),
        Expr::Or(a, b) => put_both(alloc, b"(", a.get(), b" or ", b.get(), b")", out),
        Expr::Not(a) => put_around(alloc, b"(not ", a.get(), b")", out),
        Expr::Binary(op, a, b) => put_operation(alloc, *op, a.get(), b.get(), out),
        Expr::Part(i, a) => put_part(alloc, *i, a.get(), out),
        Expr::Raise(x, t) => put_raise(x, t, out),
        Expr::Try(a, clauses) => put_try(alloc, a.get(), clauses.as_slice(), out),
        Expr::Foldl(f, a, l) => put_fold(alloc, b"foldl(", f, a.get(), l.get(), out),
        Expr::Foldr(f, a, l) => put_fold(alloc, b"foldr(", f, a.get(), l.get(), out),
        Expr::Eval(c) => put_around(alloc, b"eval(", c.get(), b")", out),
        Expr::OnRemote(c, h, n, r) => put_remote(alloc, c.get(), h.get(), n.get(), r, out),
        Expr::OnNeighbor(c, h, n, d) => {
            put_neighbour(alloc, c.get(), h.get(), n.get(), d.get(), out)
        }
    }
}

/// An expression between two texts.
#[cycle(put_expr)]
#[tactic(auto, using(std::proofs::Common::append_assoc))]
fn put_around(
    alloc: Global,
    before: &[u8],
    e: &Expr,
    after: &[u8],
    out: &mut Bytes,
) -> Result<(), NoMemory>
    ensures { OnOk result (out.new ≡ out.old ++ (before.now ++ expr_text e.now ++ after.now)) }
{
    put(out, before)?;
    put_expr(alloc, e, out)?;
    put(out, after)
}

/// Two expressions with a text before, between and behind them.
#[cycle(put_expr)]
#[tactic(auto, using(std::proofs::Common::append_assoc))]
fn put_both(
    alloc: Global,
    before: &[u8],
    first: &Expr,
    between: &[u8],
    second: &Expr,
    after: &[u8],
    out: &mut Bytes,
) -> Result<(), NoMemory>
    ensures { OnOk result (out.new ≡ out.old ++ (before.now ++ expr_text first.now ++ between.now ++
        expr_text second.now ++ after.now)) }
{
    put_around(alloc, before, first, between, out)?;
    put_around(alloc, b"", second, after, out)
}

/// An `if`.
#[cycle(put_expr)]
#[tactic(auto, using(std::proofs::Common::append_assoc))]
fn put_choice(
    alloc: Global,
    condition: &Expr,
    first: &Expr,
    second: &Expr,
    out: &mut Bytes,
) -> Result<(), NoMemory>
    ensures { OnOk result (out.new ≡ out.old ++ (codes "(if " ++ expr_text condition.now
        ++ codes " then " ++ expr_text first.now ++ codes " else " ++ expr_text second.now
        ++ codes ")")) }
{
    put_around(alloc, b"(if ", condition, b" then ", out)?;
    put_both(alloc, b"", first, b" else ", second, b")", out)
}

/// A `let`.
#[cycle(put_expr)]
#[tactic(auto, using(std::proofs::Common::append_assoc))]
fn put_binding(
    alloc: Global,
    name: &Name,
    ty: &Ty,
    value: &Expr,
    body: &Expr,
    out: &mut Bytes,
) -> Result<(), NoMemory>
    ensures { OnOk result (out.new ≡ out.old ++ (codes "let val " ++ name.now ++ codes " : " ++
        type_text ty.now ++ codes " = " ++ expr_text value.now ++ codes " in " ++
        expr_text body.now ++ codes " end")) }
{
    put_named(b"let val ", name, b" : ", out)?;
    put_typed(b"", ty, b" = ", out)?;
    put_both(alloc, b"", value, b" in ", body, b" end", out)
}

/// Two operands with an operator between them.
#[cycle(put_expr)]
#[tactic(auto, using(std::proofs::Common::append_assoc))]
fn put_operation(
    alloc: Global,
    op: Op,
    first: &Expr,
    second: &Expr,
    out: &mut Bytes,
) -> Result<(), NoMemory>
    ensures { OnOk result (out.new ≡ out.old ++ (codes "(" ++ expr_text first.now ++ codes " " ++
        op_text op ++ codes " " ++ expr_text second.now ++ codes ")")) }
{
    put_around(alloc, b"(", first, b" ", out)?;
    put(out, op_spelling(op))?;
    put_around(alloc, b" ", second, b")", out)
}

/// The part of a tuple with a number.
#[cycle(put_expr)]
#[tactic(auto, using(std::proofs::Common::append_assoc))]
fn put_part(alloc: Global, number: u8, tuple: &Expr, out: &mut Bytes) -> Result<(), NoMemory>
    ensures { OnOk result (out.new ≡ out.old ++ (codes "(#" ++ decimal number ++ codes " " ++
        expr_text tuple.now ++ codes ")")) }
{
    put(out, b"(#")?;
    put_decimal(alloc, u64::from(number), out)?;
    put_around(alloc, b" ", tuple, b")", out)
}

/// A `try` with its clauses.
#[cycle(put_expr)]
#[tactic(auto, using(std::proofs::Common::append_assoc))]
fn put_try(alloc: Global, body: &Expr, clauses: &[Clause], out: &mut Bytes) -> Result<(), NoMemory>
    ensures { OnOk result (out.new ≡ out.old ++ (codes "try " ++ expr_text body.now ++
        codes " handle " ++ listed_pieces (codes " | ") [] clause_text clauses.now ++
        codes " end")) }
{
    put_around(alloc, b"try ", body, b" handle ", out)?;
    put_clauses(alloc, clauses, out)?;
    put(out, b" end")
}

/// A fold over a list, behind the text that begins it.
#[cycle(put_expr)]
#[tactic(auto, using(std::proofs::Common::append_assoc))]
fn put_fold(
    alloc: Global,
    before: &[u8],
    name: &Name,
    start: &Expr,
    list: &Expr,
    out: &mut Bytes,
) -> Result<(), NoMemory>
    ensures { OnOk result (out.new ≡ out.old ++ (before.now ++ name.now ++ codes ", " ++
        expr_text start.now ++ codes ", " ++ expr_text list.now ++ codes ")")) }
{
    put_named(before, name, b", ", out)?;
    put_both(alloc, b"", start, b", ", list, b")", out)
}

/// An `OnRemote`.
#[cycle(put_expr)]
#[tactic(auto, using(std::proofs::Common::append_assoc))]
fn put_remote(
    alloc: Global,
    chunk: &Expr,
    host: &Expr,
    bound: &Expr,
    route: &Name,
    out: &mut Bytes,
) -> Result<(), NoMemory>
    ensures { OnOk result (out.new ≡ out.old ++ (codes "OnRemote(" ++ expr_text chunk.now
        ++ codes ", " ++ expr_text host.now ++ codes ", " ++ expr_text bound.now
        ++ codes ", " ++ route.now ++ codes ")")) }
{
    put_both(alloc, b"OnRemote(", chunk, b", ", host, b", ", out)?;
    put_around(alloc, b"", bound, b", ", out)?;
    put_named(b"", route, b")", out)
}

/// An `OnNeighbor`.
#[cycle(put_expr)]
#[tactic(auto, using(std::proofs::Common::append_assoc))]
fn put_neighbour(
    alloc: Global,
    chunk: &Expr,
    host: &Expr,
    bound: &Expr,
    device: &Expr,
    out: &mut Bytes,
) -> Result<(), NoMemory>
    ensures { OnOk result (out.new ≡ out.old ++ (codes "OnNeighbor(" ++ expr_text chunk.now ++
        codes ", " ++ expr_text host.now ++ codes ", " ++ expr_text bound.now ++ codes ", " ++
        expr_text device.now ++ codes ")")) }
{
    put_both(alloc, b"OnNeighbor(", chunk, b", ", host, b", ", out)?;
    put_both(alloc, b"", bound, b", ", device, b")", out)
}

/// A call: a name between two texts, and arguments.
#[cycle(put_expr)]
#[tactic(auto, using(std::proofs::Common::append_assoc))]
fn put_call(
    alloc: Global,
    before: &[u8],
    name: &Name,
    after: &[u8],
    args: &[Expr],
    out: &mut Bytes,
) -> Result<(), NoMemory>
    ensures { OnOk result (out.new ≡ out.old ++ (before.now ++ name.now ++ after.now ++
        commas expr_text args.now ++ codes ")")) }
{
    put_named(before, name, after, out)?;
    put_args(alloc, b"", args, out)
}

/// Expressions behind a text, up to their closing bracket.
#[cycle(put_expr)]
#[tactic(auto, using(std::proofs::Common::append_assoc))]
fn put_args(alloc: Global, before: &[u8], args: &[Expr], out: &mut Bytes) -> Result<(), NoMemory>
    ensures { OnOk result (out.new ≡ out.old ++ (before.now ++ commas expr_text args.now ++
        codes ")")) }
{
    put(out, before)?;
    put_exprs(alloc, args, out)?;
    put(out, b")")
}

/// Expressions with commas between them.
#[cycle(put_expr)]
fn put_exprs(alloc: Global, exprs: &[Expr], out: &mut Bytes) -> Result<(), NoMemory>
    ensures { OnOk result (out.new ≡ out.old ++ commas expr_text exprs.now) }
{
    let mut separator: &[u8] = b"";
    for e in exprs {
        put(out, separator)?;
        put_expr(alloc, e, out)?;
        separator = b", ";
    }
    Ok(())
}

/// Clauses with bars between them.
#[cycle(put_expr)]
fn put_clauses(alloc: Global, clauses: &[Clause], out: &mut Bytes) -> Result<(), NoMemory>
    ensures { OnOk result (out.new ≡ out.old ++ listed_pieces (codes " | ") [] clause_text
        clauses.now) }
{
    let mut separator: &[u8] = b"";
    for clause in clauses {
        put(out, separator)?;
        put_clause(alloc, clause, out)?;
        separator = b" | ";
    }
    Ok(())
}

/// What a clause catches.
fn put_catch(name: &Option<Name>, out: &mut Bytes) -> Result<(), NoMemory>
    ensures { OnOk result (out.new ≡ out.old ++ catch_text name.now) }
{
    match name {
        Some(name) => put(out, name.as_slice()),
        None => put(out, b"_"),
    }
}

/// A clause.
#[cycle(put_expr)]
#[tactic(auto, using(std::proofs::Common::append_assoc))]
fn put_clause(alloc: Global, clause: &Clause, out: &mut Bytes) -> Result<(), NoMemory>
    ensures { OnOk result (out.new ≡ out.old ++ clause_text clause.now) }
{
    put_catch(&clause.name, out)?;
    put(out, b" => ")?;
    put_expr(alloc, &clause.body, out)
}

/// A declared service on a line.
#[tactic(auto, using(std::proofs::Common::append_assoc))]
fn put_svc(svc: &Svc, out: &mut Bytes) -> Result<(), NoMemory>
    ensures { OnOk result (out.new ≡ out.old ++ svc_text svc.now) }
{
    put_named(b"svc ", &svc.name, b" : (", out)?;
    put_types(b", ", svc.params.as_slice(), out)?;
    put_typed(b") -> ", &svc.result, b"\n", out)
}

/// The declared services.
fn put_svcs(svcs: &[Svc], out: &mut Bytes) -> Result<(), NoMemory>
    ensures { OnOk result (out.new ≡ out.old ++ flat_map svc_text svcs.now) }
{
    for svc in svcs {
        put_svc(svc, out)?;
    }
    Ok(())
}

/// A declared exception on a line.
#[tactic(auto, using(std::proofs::Common::append_assoc))]
fn put_exn(name: &Name, out: &mut Bytes) -> Result<(), NoMemory>
    ensures { OnOk result (out.new ≡ out.old ++ exn_text name.now) }
{
    put_named(b"exception ", name, b"\n", out)
}

/// The declared exceptions.
fn put_exns(names: &[Name], out: &mut Bytes) -> Result<(), NoMemory>
    ensures { OnOk result (out.new ≡ out.old ++ flat_map exn_text names.now) }
{
    for name in names {
        put_exn(name, out)?;
    }
    Ok(())
}

/// A parameter with its type.
#[tactic(auto, using(std::proofs::Common::append_assoc))]
fn put_param(param: &Param, out: &mut Bytes) -> Result<(), NoMemory>
    ensures { OnOk result (out.new ≡ out.old ++ param_text param.now) }
{
    put_named(b"", &param.name, b" : ", out)?;
    put_type(&param.ty, out)
}

/// Parameters with commas between them.
fn put_params(params: &[Param], out: &mut Bytes) -> Result<(), NoMemory>
    ensures { OnOk result (out.new ≡ out.old ++ commas param_text params.now) }
{
    let mut separator: &[u8] = b"";
    for param in params {
        put(out, separator)?;
        put_param(param, out)?;
        separator = b", ";
    }
    Ok(())
}

/// A function on a line.
#[tactic(auto, using(std::proofs::Common::append_assoc))]
fn put_fun(alloc: Global, fun: &Fun, out: &mut Bytes) -> Result<(), NoMemory>
    ensures { OnOk result (out.new ≡ out.old ++ fun_text fun.now) }
{
    put_named(b"fun ", &fun.name, b"(", out)?;
    put_params(fun.params.as_slice(), out)?;
    put_typed(b") : ", &fun.result, b" = ", out)?;
    put_around(alloc, b"", &fun.body, b"\n", out)
}

/// The functions.
fn put_funs(alloc: Global, funs: &[Fun], out: &mut Bytes) -> Result<(), NoMemory>
    ensures { OnOk result (out.new ≡ out.old ++ flat_map fun_text funs.now) }
{
    for fun in funs {
        put_fun(alloc, fun, out)?;
    }
    Ok(())
}

/// A program.
#[tactic(auto, unfolding(plan_printer_spec::specs::Printed::program_text), using(std::proofs::Common::append_assoc))]
fn put_program(alloc: Global, program: &Program, out: &mut Bytes) -> Result<(), NoMemory>
    ensures { OnOk result (out.new ≡ out.old ++ program_text program.now) }
{
    put_svcs(program.svcs.as_slice(), out)?;
    put_exns(program.exns.as_slice(), out)?;
    put_funs(alloc, program.funs.as_slice(), out)
}
