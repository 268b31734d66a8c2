//! Reads expressions from bytes.
ghost use Rattle.std.specs.Prelude.{◌≡◌, ◌-◌, ◌<◌, List};
ghost use Rattle.containers.specs.Reading.{many};
ghost use Rattle.plan_base.specs.declared.tree.Expr.{Expr};
ghost use Rattle.plan_base.specs.declared.tree.Clause.{Clause};
ghost use Rattle.chunk_codec_spec.specs.Scan.{Reader};
ghost use Rattle.chunk_codec_spec.specs.Exprs.{clauses_at, clauses_from};
ghost use Rattle.chunk_codec.specs.Shapes as shape;
ghost use Rattle.chunk_codec.specs.Reading.{Gives, expr_at, expr_behind, clause_at};

use crate::shapes::{Applied, Fold, Pair, applied_to, folded, paired};
use crate::source::Source;
use crate::types::type_of;
use chunk_codec_spec::{ExprTag, SpellFault};
use containers::{Boxed, Items};
use plan_base::{Clause, Clauses, Dev, Expr, Exprs, Host, Limit};
use std::alloc::Global;

/// An expression whose parts may open `room` levels, its own counted.
#[cycle(exprs)]
#[tactic(auto, using(crate::proofs::ExprSteps::expr_goes, crate::proofs::ExprSteps::expr_stops))]
pub fn expr_of(alloc: Global, s: &mut Source<'_>, room: u32) -> Result<Expr, SpellFault>
    ensures { Gives result s.new (expr_at room s.old) }
{
    let tag = s.expr_tag(room)?;
    expr_with_tag(alloc, s, room, tag)
}

/// An expression in a box.
#[cycle(exprs)]
fn boxed_expr(alloc: Global, s: &mut Source<'_>, room: u32) -> Result<Boxed<Expr>, SpellFault>
    ensures { Gives result s.new (expr_at room s.old) }
{
    let expr = expr_of(alloc, s, room)?;
    Ok(Boxed::new(alloc, expr)?)
}

/// What is behind the tag of an expression without parts.
#[tactic(auto, unfolding(crate::specs::Reading::expr_behind))]
fn leaf_with_tag(alloc: Global, s: &mut Source<'_>, tag: ExprTag) -> Result<Expr, SpellFault>
    ensures { (inner : Reader Expr) (clauses : Reader (List Clause))
        → Gives result s.new (expr_behind inner clauses tag s.old) }
{
    match tag {
        ExprTag::Unit => Ok(Expr::Unit),
        ExprTag::Bool => Ok(Expr::Bool(s.flag()?)),
        ExprTag::Int => Ok(Expr::Int(s.int()?)),
        ExprTag::Char => Ok(Expr::Char(s.scalar()?)),
        ExprTag::Str => Ok(Expr::Str(s.text(alloc)?)),
        ExprTag::Blob => Ok(Expr::Blob(s.blob(alloc)?)),
        ExprTag::Host => Ok(Expr::Host(Host(s.word()?))),
        ExprTag::Dev => Ok(Expr::Dev(Dev(s.word()?))),
        ExprTag::Nil => Ok(Expr::Nil(Some(type_of(alloc, s, 7)?))),
        ExprTag::Var => Ok(Expr::Var(s.name(alloc)?)),
        _ => Err(SpellFault::NoMemory),
    }
}

/// What is behind the tag of a `raise`.
#[tactic(auto, unfolding(crate::specs::Reading::expr_behind))]
fn raise_behind(alloc: Global, s: &mut Source<'_>) -> Result<Expr, SpellFault>
    ensures { (inner : Reader Expr) (clauses : Reader (List Clause))
        → Gives result s.new (expr_behind inner clauses ExprTag.Raise s.old) }
{
    let name = s.name(alloc)?;
    match type_of(alloc, s, 8) {
        Ok(ty) => Ok(Expr::Raise(name, Some(ty))),
        Err(fault) => Err(fault),
    }
}

/// What is behind an expression's tag.
#[cycle(exprs)]
#[tactic(auto, unfolding(crate::specs::Reading::expr_behind, crate::specs::Shapes::pair_behind, crate::specs::Shapes::fold_behind, crate::specs::Shapes::applied_behind))]
fn expr_with_tag(
    alloc: Global,
    s: &mut Source<'_>,
    room: u32,
    tag: ExprTag,
) -> Result<Expr, SpellFault>
    requires { 0 < room }
    ensures { Gives result s.new (expr_behind (expr_at (room - 1))
        (clauses_at (clause_at (expr_at (room - 1)))) tag s.old) }
{
    match tag {
        ExprTag::Tuple => tuple_behind(alloc, s, room),
        ExprTag::Call => applied_behind(alloc, s, room, Applied::Called),
        ExprTag::If => choice_behind(alloc, s, room),
        ExprTag::Let => binding_behind(alloc, s, room),
        ExprTag::Then => pair_behind(alloc, s, room, Pair::Then),
        ExprTag::And => pair_behind(alloc, s, room, Pair::And),
        ExprTag::Or => pair_behind(alloc, s, room, Pair::Or),
        ExprTag::Not => Ok(Expr::Not(boxed_expr(alloc, s, room - 1)?)),
        ExprTag::Binary => operation_behind(alloc, s, room),
        ExprTag::Part => part_behind(alloc, s, room),
        ExprTag::Raise => raise_behind(alloc, s),
        ExprTag::Try => handling_behind(alloc, s, room),
        ExprTag::Foldl => fold_behind(alloc, s, room, Fold::Left),
        ExprTag::Foldr => fold_behind(alloc, s, room, Fold::Right),
        ExprTag::ChunkOf => applied_behind(alloc, s, room, Applied::Packed),
        ExprTag::Eval => Ok(Expr::Eval(boxed_expr(alloc, s, room - 1)?)),
        ExprTag::OnRemote => remote_behind(alloc, s, room),
        ExprTag::OnNeighbor => neighbour_behind(alloc, s, room),
        _ => leaf_with_tag(alloc, s, tag),
    }
}

/// What is behind the tag of a tuple.
#[cycle(exprs)]
#[tactic(auto, unfolding(crate::specs::Reading::expr_behind, chunk_codec_spec::specs::Parts::counted_at, chunk_codec_spec::specs::Exprs::clauses_at))]
fn tuple_behind(alloc: Global, s: &mut Source<'_>, room: u32) -> Result<Expr, SpellFault>
    requires { 0 < room }
    ensures { Gives result s.new (expr_behind (expr_at (room - 1))
        (clauses_at (clause_at (expr_at (room - 1)))) ExprTag.Tuple s.old) }
{
    let count = s.count(Limit::Parts, 2, 8)?;
    let parts = exprs_of(alloc, s, room - 1, count)?;
    Ok(Expr::Tuple(parts))
}

/// What is behind the tag of a form of two expressions.
#[cycle(exprs)]
#[tactic(auto, unfolding(crate::specs::Shapes::pair_behind))]
fn pair_behind(alloc: Global, s: &mut Source<'_>, room: u32, pair: Pair) -> Result<Expr, SpellFault>
    requires { 0 < room }
    ensures { Gives result s.new (shape.pair_behind (expr_at (room - 1)) pair s.old) }
{
    let first = boxed_expr(alloc, s, room - 1)?;
    let second = boxed_expr(alloc, s, room - 1)?;
    Ok(paired(pair, first, second))
}

/// What is behind the tag of a fold.
#[cycle(exprs)]
#[tactic(auto, unfolding(crate::specs::Shapes::fold_behind))]
fn fold_behind(alloc: Global, s: &mut Source<'_>, room: u32, fold: Fold) -> Result<Expr, SpellFault>
    requires { 0 < room }
    ensures { Gives result s.new (shape.fold_behind (expr_at (room - 1)) fold s.old) }
{
    let name = s.name(alloc)?;
    let first = boxed_expr(alloc, s, room - 1)?;
    let second = boxed_expr(alloc, s, room - 1)?;
    Ok(folded(fold, name, first, second))
}

/// What is behind the tag of a function with arguments.
#[cycle(exprs)]
#[tactic(auto, unfolding(crate::specs::Shapes::applied_behind, chunk_codec_spec::specs::Parts::counted_at))]
fn applied_behind(
    alloc: Global,
    s: &mut Source<'_>,
    room: u32,
    applied: Applied,
) -> Result<Expr, SpellFault>
    requires { 0 < room }
    ensures { Gives result s.new (shape.applied_behind (expr_at (room - 1)) applied s.old) }
{
    let name = s.name(alloc)?;
    let count = s.count(Limit::Arguments, 0, 8)?;
    let args = exprs_of(alloc, s, room - 1, count)?;
    Ok(applied_to(applied, name, args))
}

/// What is behind the tag of an `if`.
#[cycle(exprs)]
#[tactic(auto, unfolding(crate::specs::Reading::expr_behind, chunk_codec_spec::specs::Parts::counted_at, chunk_codec_spec::specs::Exprs::clauses_at))]
fn choice_behind(alloc: Global, s: &mut Source<'_>, room: u32) -> Result<Expr, SpellFault>
    requires { 0 < room }
    ensures { Gives result s.new (expr_behind (expr_at (room - 1))
        (clauses_at (clause_at (expr_at (room - 1)))) ExprTag.If s.old) }
{
    let first = boxed_expr(alloc, s, room - 1)?;
    let second = boxed_expr(alloc, s, room - 1)?;
    let third = boxed_expr(alloc, s, room - 1)?;
    Ok(Expr::If(first, second, third))
}

/// What is behind the tag of a `let`.
#[cycle(exprs)]
#[tactic(auto, unfolding(crate::specs::Reading::expr_behind, chunk_codec_spec::specs::Parts::counted_at, chunk_codec_spec::specs::Exprs::clauses_at))]
fn binding_behind(alloc: Global, s: &mut Source<'_>, room: u32) -> Result<Expr, SpellFault>
    requires { 0 < room }
    ensures { Gives result s.new (expr_behind (expr_at (room - 1))
        (clauses_at (clause_at (expr_at (room - 1)))) ExprTag.Let s.old) }
{
    let name = s.name(alloc)?;
    let ty = type_of(alloc, s, 8)?;
    match boxed_expr(alloc, s, room - 1) {
        Ok(first) => match boxed_expr(alloc, s, room - 1) {
            Ok(second) => Ok(Expr::Let(name, ty, first, second)),
            Err(fault) => {
                drop(ty);
                Err(fault)
            }
        },
        Err(fault) => {
            drop(ty);
            Err(fault)
        }
    }
}

/// What is behind the tag of an operator.
#[cycle(exprs)]
#[tactic(auto, unfolding(crate::specs::Reading::expr_behind, chunk_codec_spec::specs::Parts::counted_at, chunk_codec_spec::specs::Exprs::clauses_at))]
fn operation_behind(alloc: Global, s: &mut Source<'_>, room: u32) -> Result<Expr, SpellFault>
    requires { 0 < room }
    ensures { Gives result s.new (expr_behind (expr_at (room - 1))
        (clauses_at (clause_at (expr_at (room - 1)))) ExprTag.Binary s.old) }
{
    let op = s.operator()?;
    let first = boxed_expr(alloc, s, room - 1)?;
    let second = boxed_expr(alloc, s, room - 1)?;
    Ok(Expr::Binary(op, first, second))
}

/// What is behind the tag of a part of a tuple.
#[cycle(exprs)]
#[tactic(auto, unfolding(crate::specs::Reading::expr_behind, chunk_codec_spec::specs::Parts::counted_at, chunk_codec_spec::specs::Exprs::clauses_at))]
fn part_behind(alloc: Global, s: &mut Source<'_>, room: u32) -> Result<Expr, SpellFault>
    requires { 0 < room }
    ensures { Gives result s.new (expr_behind (expr_at (room - 1))
        (clauses_at (clause_at (expr_at (room - 1)))) ExprTag.Part s.old) }
{
    let number = s.count(Limit::Parts, 1, 8)?;
    let first = boxed_expr(alloc, s, room - 1)?;
    Ok(Expr::Part(number, first))
}

/// What is behind the tag of a `try`.
#[cycle(exprs)]
#[tactic(auto, unfolding(crate::specs::Reading::expr_behind, chunk_codec_spec::specs::Parts::counted_at, chunk_codec_spec::specs::Exprs::clauses_at))]
fn handling_behind(alloc: Global, s: &mut Source<'_>, room: u32) -> Result<Expr, SpellFault>
    requires { 0 < room }
    ensures { Gives result s.new (expr_behind (expr_at (room - 1))
        (clauses_at (clause_at (expr_at (room - 1)))) ExprTag.Try s.old) }
{
    let first = boxed_expr(alloc, s, room - 1)?;
    let count = s.count(Limit::Clauses, 1, 8)?;
    let clauses = clauses_of(alloc, s, room - 1, count)?;
    Ok(Expr::Try(first, clauses))
}

/// What is behind the tag of an `OnRemote`.
#[cycle(exprs)]
#[tactic(auto, unfolding(crate::specs::Reading::expr_behind, chunk_codec_spec::specs::Parts::counted_at, chunk_codec_spec::specs::Exprs::clauses_at))]
fn remote_behind(alloc: Global, s: &mut Source<'_>, room: u32) -> Result<Expr, SpellFault>
    requires { 0 < room }
    ensures { Gives result s.new (expr_behind (expr_at (room - 1))
        (clauses_at (clause_at (expr_at (room - 1)))) ExprTag.OnRemote s.old) }
{
    let first = boxed_expr(alloc, s, room - 1)?;
    let second = boxed_expr(alloc, s, room - 1)?;
    let third = boxed_expr(alloc, s, room - 1)?;
    let name = s.name(alloc)?;
    Ok(Expr::OnRemote(first, second, third, name))
}

/// What is behind the tag of an `OnNeighbor`.
#[cycle(exprs)]
#[tactic(auto, unfolding(crate::specs::Reading::expr_behind, chunk_codec_spec::specs::Parts::counted_at, chunk_codec_spec::specs::Exprs::clauses_at))]
fn neighbour_behind(alloc: Global, s: &mut Source<'_>, room: u32) -> Result<Expr, SpellFault>
    requires { 0 < room }
    ensures { Gives result s.new (expr_behind (expr_at (room - 1))
        (clauses_at (clause_at (expr_at (room - 1)))) ExprTag.OnNeighbor s.old) }
{
    let first = boxed_expr(alloc, s, room - 1)?;
    let second = boxed_expr(alloc, s, room - 1)?;
    let third = boxed_expr(alloc, s, room - 1)?;
    let fourth = boxed_expr(alloc, s, room - 1)?;
    Ok(Expr::OnNeighbor(first, second, third, fourth))
}

/// So many expressions.
#[cycle(exprs)]
pub fn exprs_of(
    alloc: Global,
    s: &mut Source<'_>,
    room: u32,
    count: u8,
) -> Result<Exprs, SpellFault>
    ensures { Gives result s.new (many (expr_at room) count s.old) }
{
    let mut exprs = Items::new(alloc);
    for _i in 0..count {
        let expr = expr_of(alloc, s, room)?;
        exprs.add(expr)?;
    }
    Ok(exprs)
}

/// So many clauses of a `try`, the last of which is the last.
#[cycle(exprs)]
fn clauses_of(
    alloc: Global,
    s: &mut Source<'_>,
    room: u32,
    count: u8,
) -> Result<Clauses, SpellFault>
    ensures { Gives result s.new (clauses_from (clause_at (expr_at room)) count s.old) }
{
    let mut clauses = Items::new(alloc);
    for i in 0..count {
        let clause = clause_of(alloc, s, room, i + 1 == count)?;
        clauses.add(clause)?;
    }
    Ok(clauses)
}

/// A clause, which may be the last.
#[cycle(exprs)]
#[tactic(auto, unfolding(crate::specs::Reading::clause_at, crate::specs::Reading::clause_behind))]
fn clause_of(alloc: Global, s: &mut Source<'_>, room: u32, last: bool) -> Result<Clause, SpellFault>
    ensures { Gives result s.new (clause_at (expr_at room) last s.old) }
{
    if s.clause_tag(last)? {
        let name = s.name(alloc)?;
        let body = expr_of(alloc, s, room)?;
        Ok(Clause {
            name: Some(name),
            body,
        })
    } else {
        let body = expr_of(alloc, s, room)?;
        Ok(Clause { name: None, body })
    }
}
