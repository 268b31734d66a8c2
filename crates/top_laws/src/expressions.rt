//! Shows that printed expressions are within the limits of what is read again.
ghost use Rattle.std.specs.Prelude.{IsTrue};
ghost use Rattle.std.specs.List.{list_all};
ghost use Rattle.top_laws.specs.Exact.{is_byte, exact, clause_exact};

use chunk_codec::{range_catch, range_dev, range_host, range_int, range_name};
use plan_base::{Bytes, Clause, Expr};

/// Reads a byte.
#[tactic(auto, using(std::proofs::lemmas::Bool::Decides::nat_tests))]
fn read_byte(byte: &u8)
    ensures { IsTrue (is_byte byte.now) }
{
    let _number = *byte;
}

/// Reads the bytes of a blob.
pub fn read_blob(blob: &Bytes)
    ensures { IsTrue (list_all is_byte blob.now) }
{
    for byte in blob.as_slice() {
        read_byte(byte);
    }
}

/// Reads the names, numbers and bytes of an expression.
#[cycle(expressions)]
#[tactic(auto, using(crate::proofs::ExactLaws::exprs))]
pub fn read_expr(e: &Expr)
    ensures { IsTrue (exact e.now) }
{
    match e {
        Expr::Unit | Expr::Bool(_) | Expr::Char(_) | Expr::Str(_) | Expr::Nil(_) => {}
        Expr::Int(int) => range_int(int),
        Expr::Blob(blob) => read_blob(blob),
        Expr::Host(host) => range_host(host),
        Expr::Dev(dev) => range_dev(dev),
        Expr::Var(name) | Expr::Raise(name, _) => range_name(name),
        Expr::Tuple(parts) => read_exprs(parts.as_slice()),
        Expr::Call(name, args) | Expr::ChunkOf(name, args) => {
            range_name(name);
            read_exprs(args.as_slice());
        }
        Expr::If(first, second, third) => {
            read_expr(first.get());
            read_expr(second.get());
            read_expr(third.get());
        }
        Expr::Let(name, _, first, second)
        | Expr::Foldl(name, first, second)
        | Expr::Foldr(name, first, second) => {
            range_name(name);
            read_expr(first.get());
            read_expr(second.get());
        }
        Expr::Then(first, second)
        | Expr::And(first, second)
        | Expr::Or(first, second)
        | Expr::Binary(_, first, second) => {
            read_expr(first.get());
            read_expr(second.get());
        }
        Expr::Not(first) | Expr::Part(_, first) | Expr::Eval(first) => read_expr(first.get()),
        Expr::Try(first, clauses) => {
            read_expr(first.get());
            read_clauses(clauses.as_slice());
        }
        Expr::OnRemote(first, second, third, name) => {
            range_name(name);
            read_expr(first.get());
            read_expr(second.get());
            read_expr(third.get());
        }
        Expr::OnNeighbor(first, second, third, fourth) => {
            read_expr(first.get());
            read_expr(second.get());
            read_expr(third.get());
            read_expr(fourth.get());
        }
    }
}

/// Reads those of expressions one after another.
#[cycle(expressions)]
fn read_exprs(exprs: &[Expr])
    ensures { IsTrue (list_all exact exprs.now) }
{
    for e in exprs {
        read_expr(e);
    }
}

/// Reads those of a clause.
#[cycle(expressions)]
fn read_clause(c: &Clause)
    ensures { IsTrue (clause_exact c.now) }
{
    range_catch(&c.name);
    read_expr(&c.body);
}

/// Reads those of clauses one after another.
#[cycle(expressions)]
fn read_clauses(clauses: &[Clause])
    ensures { IsTrue (list_all clause_exact clauses.now) }
{
    for c in clauses {
        read_clause(c);
    }
}
