//! Shows that the numbers and names of expressions are within their ranges.
ghost use Rattle.std.specs.Prelude.{IsTrue};
ghost use Rattle.std.specs.List.{list_all};
ghost use Rattle.plan_base.specs.Words.{is_name, IsName};
ghost use Rattle.chunk_codec.specs.Ranges.{is_int, is_word, expr_ranged, clause_ranged, catch_ranged};

use plan_base::{Clause, Dev, Expr, Host, Name};

/// Reads a name, and changes nothing. Takes no memory.
pub fn range_name(name: &Name)
    ensures { IsName name.now }
{
    let _bytes = name.as_slice();
}

/// Reads an int, and changes nothing. Takes no memory.
#[tactic(auto, using(crate::proofs::RangeLaws::int_is))]
pub fn range_int(int: &i64)
    ensures { IsTrue (is_int int.now) }
{
    let _number = *int;
}

/// Reads the number of a host, and changes nothing. Takes no memory.
#[tactic(auto, using(std::proofs::lemmas::Bool::Decides::nat_tests))]
pub fn range_host(host: &Host)
    ensures { IsTrue (is_word host.now.0) }
{
    let _number = host.0;
}

/// Reads the number of a device, and changes nothing. Takes no memory.
#[tactic(auto, using(std::proofs::lemmas::Bool::Decides::nat_tests))]
pub fn range_dev(dev: &Dev)
    ensures { IsTrue (is_word dev.now.0) }
{
    let _number = dev.0;
}

/// Reads the names and numbers of an expression.
#[cycle(range_exprs)]
#[tactic(auto, using(crate::proofs::RangeLaws::exprs))]
pub fn range_expr(e: &Expr)
    ensures { IsTrue (expr_ranged e.now) }
{
    match e {
        Expr::Unit | Expr::Bool(_) | Expr::Char(_) | Expr::Str(_) | Expr::Blob(_) | Expr::Nil(_) =>
            {}
        Expr::Int(int) => range_int(int),
        Expr::Host(host) => range_host(host),
        Expr::Dev(dev) => range_dev(dev),
        Expr::Var(name) | Expr::Raise(name, _) => range_name(name),
        Expr::Tuple(parts) => range_exprs(parts.as_slice()),
        Expr::Call(name, args) | Expr::ChunkOf(name, args) => {
            range_name(name);
            range_exprs(args.as_slice());
        }
        Expr::If(first, second, third) => {
            range_expr(first.get());
            range_expr(second.get());
            range_expr(third.get());
        }
        Expr::Let(name, _, first, second)
        | Expr::Foldl(name, first, second)
        | Expr::Foldr(name, first, second) => {
            range_name(name);
            range_expr(first.get());
            range_expr(second.get());
        }
        Expr::Then(first, second)
        | Expr::And(first, second)
        | Expr::Or(first, second)
        | Expr::Binary(_, first, second) => {
            range_expr(first.get());
            range_expr(second.get());
        }
        Expr::Not(first) | Expr::Part(_, first) | Expr::Eval(first) => range_expr(first.get()),
        Expr::Try(first, clauses) => {
            range_expr(first.get());
            range_clauses(clauses.as_slice());
        }
        Expr::OnRemote(first, second, third, name) => {
            range_name(name);
            range_expr(first.get());
            range_expr(second.get());
            range_expr(third.get());
        }
        Expr::OnNeighbor(first, second, third, fourth) => {
            range_expr(first.get());
            range_expr(second.get());
            range_expr(third.get());
            range_expr(fourth.get());
        }
    }
}

/// Reads those of expressions one after another.
#[cycle(range_exprs)]
fn range_exprs(exprs: &[Expr])
    ensures { IsTrue (list_all expr_ranged exprs.now) }
{
    for e in exprs {
        range_expr(e);
    }
}

/// Reads what a clause catches, and changes nothing. Takes no memory.
pub fn range_catch(name: &Option<Name>)
    ensures { IsTrue (catch_ranged name.now) }
{
    if let Some(name) = name {
        range_name(name);
    }
}

/// Reads those of a clause.
#[cycle(range_exprs)]
fn range_clause(c: &Clause)
    ensures { IsTrue (clause_ranged c.now) }
{
    range_catch(&c.name);
    range_expr(&c.body);
}

/// Reads those of clauses one after another.
#[cycle(range_exprs)]
fn range_clauses(clauses: &[Clause])
    ensures { IsTrue (list_all clause_ranged clauses.now) }
{
    for c in clauses {
        range_clause(c);
    }
}
