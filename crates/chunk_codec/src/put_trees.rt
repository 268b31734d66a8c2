//! Puts types and expressions.
ghost use Rattle.std.specs.Prelude.{◌≡◌, ◌++◌, ◌+◌, ◌≤◌, ◌<◌, ◌^◌, [], ◌∷◌, length, IsTrue};
ghost use Rattle.std.specs.List.{flat_map, list_all};
ghost use Rattle.chunk_codec_spec.specs.Fields.{name_bytes};
ghost use Rattle.chunk_codec_spec.specs.Types.{type_bytes};
ghost use Rattle.chunk_codec_spec.specs.Exprs.{expr_bytes, clause_bytes, catch_bytes};
ghost use Rattle.chunk_codec_spec.specs.Kept.{type_kept, expr_kept, clause_kept};

use crate::put_fields::{op_number, put_flag, put_name, put_sized};
use plan_base::{Clause, Expr, Ty};
use wire_bytes::Out;

/// Puts a type.
#[cycle(put_types)]
#[tactic(auto, using(crate::proofs::Puts::types))]
pub fn put_ty(t: &Ty, out: &mut Out)
    requires kept { IsTrue (type_kept t.now) }
    requires room { length (type_bytes t.now) ≤ out.old.room }
    ensures bytes { out.new.bytes ≡ out.old.bytes ++ type_bytes t.now }
    ensures room { out.new.room + length (type_bytes t.now) ≡ out.old.room }
{
    match t {
        Ty::Unit => out.put_u8(0x00),
        Ty::Bool => out.put_u8(0x01),
        Ty::Int => out.put_u8(0x02),
        Ty::Char => out.put_u8(0x03),
        Ty::Str => out.put_u8(0x04),
        Ty::Blob => out.put_u8(0x05),
        Ty::Host => out.put_u8(0x06),
        Ty::Dev => out.put_u8(0x07),
        Ty::Chunk => out.put_u8(0x08),
        Ty::List(item) => {
            out.put_u8(0x09);
            put_ty(item.get(), out);
        }
        Ty::Tuple(parts) => {
            out.put_u8(0x0a);
            out.put_u8(parts.len() as u8);
            put_types(parts.as_slice(), out);
        }
    }
}

/// Puts types one after another.
#[cycle(put_types)]
#[tactic(auto, using(crate::proofs::Puts::item_kept, crate::proofs::Puts::item_room))]
pub fn put_types(types: &[Ty], out: &mut Out)
    requires kept { IsTrue (list_all type_kept types.now) }
    requires room { length (flat_map type_bytes types.now) ≤ out.old.room }
    ensures bytes { out.new.bytes ≡ out.old.bytes ++ flat_map type_bytes types.now }
    ensures room { out.new.room + length (flat_map type_bytes types.now) ≡ out.old.room }
{
    for t in types {
        put_ty(t, out);
    }
}

/// Puts an expression.
#[cycle(put_exprs)]
#[tactic(auto, using(crate::proofs::Puts::exprs))]
pub fn put_expr(e: &Expr, out: &mut Out)
    requires kept { IsTrue (expr_kept e.now) }
    requires room { length (expr_bytes e.now) ≤ out.old.room }
    ensures bytes { out.new.bytes ≡ out.old.bytes ++ expr_bytes e.now }
    ensures room { out.new.room + length (expr_bytes e.now) ≡ out.old.room }
{
    match e {
        Expr::Unit => out.put_u8(0x20),
        Expr::Bool(flag) => {
            out.put_u8(0x21);
            put_flag(*flag, out);
        }
        Expr::Int(int) => {
            out.put_u8(0x22);
            out.put_i64(*int);
        }
        Expr::Char(code) => {
            out.put_u8(0x23);
            out.put_u32(*code);
        }
        Expr::Str(text) => {
            out.put_u8(0x24);
            put_sized(text.as_slice(), out);
        }
        Expr::Blob(blob) => {
            out.put_u8(0x25);
            put_sized(blob.as_slice(), out);
        }
        Expr::Host(host) => {
            out.put_u8(0x26);
            out.put_u32(host.0);
        }
        Expr::Dev(dev) => {
            out.put_u8(0x27);
            out.put_u32(dev.0);
        }
        Expr::Nil(Some(ty)) => {
            out.put_u8(0x28);
            put_ty(ty, out);
        }
        Expr::Nil(None) => unreachable!(),
        Expr::Var(name) => {
            out.put_u8(0x29);
            put_name(name, out);
        }
        Expr::Tuple(parts) => {
            out.put_u8(0x2a);
            out.put_u8(parts.len() as u8);
            put_exprs(parts.as_slice(), out);
        }
        Expr::Call(name, args) => {
            out.put_u8(0x2b);
            put_name(name, out);
            out.put_u8(args.len() as u8);
            put_exprs(args.as_slice(), out);
        }
        Expr::If(first, second, third) => {
            out.put_u8(0x2c);
            put_expr(first.get(), out);
            put_expr(second.get(), out);
            put_expr(third.get(), out);
        }
        Expr::Let(name, ty, first, second) => {
            out.put_u8(0x2d);
            put_name(name, out);
            put_ty(ty, out);
            put_expr(first.get(), out);
            put_expr(second.get(), out);
        }
        Expr::Then(first, second) => {
            out.put_u8(0x2e);
            put_expr(first.get(), out);
            put_expr(second.get(), out);
        }
        Expr::And(first, second) => {
            out.put_u8(0x2f);
            put_expr(first.get(), out);
            put_expr(second.get(), out);
        }
        Expr::Or(first, second) => {
            out.put_u8(0x30);
            put_expr(first.get(), out);
            put_expr(second.get(), out);
        }
        Expr::Not(first) => {
            out.put_u8(0x31);
            put_expr(first.get(), out);
        }
        Expr::Binary(op, first, second) => {
            out.put_u8(0x32);
            out.put_u8(op_number(*op));
            put_expr(first.get(), out);
            put_expr(second.get(), out);
        }
        Expr::Part(number, first) => {
            out.put_u8(0x33);
            out.put_u8(*number);
            put_expr(first.get(), out);
        }
        Expr::Raise(name, Some(ty)) => {
            out.put_u8(0x34);
            put_name(name, out);
            put_ty(ty, out);
        }
        Expr::Raise(_, None) => unreachable!(),
        Expr::Try(first, clauses) => {
            out.put_u8(0x35);
            put_expr(first.get(), out);
            out.put_u8(clauses.len() as u8);
            put_clauses(clauses.as_slice(), out);
        }
        Expr::Foldl(name, first, second) => {
            out.put_u8(0x36);
            put_name(name, out);
            put_expr(first.get(), out);
            put_expr(second.get(), out);
        }
        Expr::Foldr(name, first, second) => {
            out.put_u8(0x37);
            put_name(name, out);
            put_expr(first.get(), out);
            put_expr(second.get(), out);
        }
        Expr::ChunkOf(name, args) => {
            out.put_u8(0x38);
            put_name(name, out);
            out.put_u8(args.len() as u8);
            put_exprs(args.as_slice(), out);
        }
        Expr::Eval(first) => {
            out.put_u8(0x39);
            put_expr(first.get(), out);
        }
        Expr::OnRemote(first, second, third, name) => {
            out.put_u8(0x3a);
            put_expr(first.get(), out);
            put_expr(second.get(), out);
            put_expr(third.get(), out);
            put_name(name, out);
        }
        Expr::OnNeighbor(first, second, third, fourth) => {
            out.put_u8(0x3b);
            put_expr(first.get(), out);
            put_expr(second.get(), out);
            put_expr(third.get(), out);
            put_expr(fourth.get(), out);
        }
    }
}

/// Puts expressions one after another.
#[cycle(put_exprs)]
#[tactic(auto, using(crate::proofs::Puts::item_kept, crate::proofs::Puts::item_room))]
fn put_exprs(exprs: &[Expr], out: &mut Out)
    requires kept { IsTrue (list_all expr_kept exprs.now) }
    requires room { length (flat_map expr_bytes exprs.now) ≤ out.old.room }
    ensures bytes { out.new.bytes ≡ out.old.bytes ++ flat_map expr_bytes exprs.now }
    ensures room { out.new.room + length (flat_map expr_bytes exprs.now) ≡ out.old.room }
{
    for e in exprs {
        put_expr(e, out);
    }
}

/// Puts a clause.
#[cycle(put_exprs)]
fn put_clause(c: &Clause, out: &mut Out)
    requires kept { IsTrue (clause_kept c.now) }
    requires room { length (clause_bytes c.now) ≤ out.old.room }
    ensures bytes { out.new.bytes ≡ out.old.bytes ++ clause_bytes c.now }
    ensures room { out.new.room + length (clause_bytes c.now) ≡ out.old.room }
{
    match &c.name {
        None => out.put_u8(0x00),
        Some(name) => {
            out.put_u8(0x01);
            put_name(name, out);
        }
    }
    put_expr(&c.body, out);
}

/// Puts clauses one after another.
#[cycle(put_exprs)]
#[tactic(auto, using(crate::proofs::Puts::item_kept, crate::proofs::Puts::item_room))]
fn put_clauses(clauses: &[Clause], out: &mut Out)
    requires kept { IsTrue (list_all clause_kept clauses.now) }
    requires room { length (flat_map clause_bytes clauses.now) ≤ out.old.room }
    ensures bytes { out.new.bytes ≡ out.old.bytes ++ flat_map clause_bytes clauses.now }
    ensures room { out.new.room + length (flat_map clause_bytes clauses.now) ≡ out.old.room }
{
    for c in clauses {
        put_clause(c, out);
    }
}
