//! The public writings: types, values, programs and chunks as bytes.
ghost use Rattle.std.specs.Prelude.{◌≡◌, ◌++◌, ◌+◌, ◌≤◌, ◌<◌, ◌^◌, [], ◌∷◌, length, IsTrue};
ghost use Rattle.std.specs.List.{flat_map, list_all};
ghost use Rattle.chunk_codec_spec.specs.Fields.{name_bytes};
ghost use Rattle.chunk_codec_spec.specs.Types.{type_bytes};
ghost use Rattle.chunk_codec_spec.specs.Programs.{param_bytes, service_bytes, function_bytes, program_bytes};
ghost use Rattle.chunk_codec_spec.specs.Values.{value_bytes, chunk_bytes};
ghost use Rattle.chunk_codec_spec.specs.Kept.{type_kept, param_kept, service_kept, function_kept, program_kept, value_kept, chunk_kept};

use crate::put_fields::{put_flag, put_name, put_sized};
use crate::put_trees::{put_expr, put_ty, put_types};
use plan_base::{Chunk, Fun, Name, Param, Program, Svc, Ty, Value};
use wire_bytes::Out;

/// Appends the spelling of a type. Conditions: its counts fit their fields, and the bytes have room.
pub fn put_type(t: &Ty, out: &mut Out)
    requires kept { IsTrue (type_kept t.now) }
    requires room { length (type_bytes t.now) ≤ out.old.room }
    ensures bytes { out.new.bytes ≡ out.old.bytes ++ type_bytes t.now }
    ensures room { out.new.room + length (type_bytes t.now) ≡ out.old.room }
{
    put_ty(t, out);
}

fn put_param(p: &Param, out: &mut Out)
    requires kept { IsTrue (param_kept p.now) }
    requires room { length (param_bytes p.now) ≤ out.old.room }
    ensures bytes { out.new.bytes ≡ out.old.bytes ++ param_bytes p.now }
    ensures room { out.new.room + length (param_bytes p.now) ≡ out.old.room }
{
    put_name(&p.name, out);
    put_ty(&p.ty, out);
}

/// Puts parameters one after another.
fn put_params(params: &[Param], out: &mut Out)
    requires kept { IsTrue (list_all param_kept params.now) }
    requires room { length (flat_map param_bytes params.now) ≤ out.old.room }
    ensures bytes { out.new.bytes ≡ out.old.bytes ++ flat_map param_bytes params.now }
    ensures room { out.new.room + length (flat_map param_bytes params.now) ≡ out.old.room }
{
    for p in params {
        put_param(p, out);
    }
}

fn put_service(s: &Svc, out: &mut Out)
    requires kept { IsTrue (service_kept s.now) }
    requires room { length (service_bytes s.now) ≤ out.old.room }
    ensures bytes { out.new.bytes ≡ out.old.bytes ++ service_bytes s.now }
    ensures room { out.new.room + length (service_bytes s.now) ≡ out.old.room }
{
    put_name(&s.name, out);
    out.put_u8(s.params.len() as u8);
    put_types(s.params.as_slice(), out);
    put_ty(&s.result, out);
}

/// Puts services one after another.
fn put_services(services: &[Svc], out: &mut Out)
    requires kept { IsTrue (list_all service_kept services.now) }
    requires room { length (flat_map service_bytes services.now) ≤ out.old.room }
    ensures bytes { out.new.bytes ≡ out.old.bytes ++ flat_map service_bytes services.now }
    ensures room { out.new.room + length (flat_map service_bytes services.now) ≡ out.old.room }
{
    for s in services {
        put_service(s, out);
    }
}

fn put_function(f: &Fun, out: &mut Out)
    requires kept { IsTrue (function_kept f.now) }
    requires room { length (function_bytes f.now) ≤ out.old.room }
    ensures bytes { out.new.bytes ≡ out.old.bytes ++ function_bytes f.now }
    ensures room { out.new.room + length (function_bytes f.now) ≡ out.old.room }
{
    put_name(&f.name, out);
    out.put_u8(f.params.len() as u8);
    put_params(f.params.as_slice(), out);
    put_ty(&f.result, out);
    put_expr(&f.body, out);
}

/// Puts functions one after another.
fn put_functions(functions: &[Fun], out: &mut Out)
    requires kept { IsTrue (list_all function_kept functions.now) }
    requires room { length (flat_map function_bytes functions.now) ≤ out.old.room }
    ensures bytes { out.new.bytes ≡ out.old.bytes ++ flat_map function_bytes functions.now }
    ensures room { out.new.room + length (flat_map function_bytes functions.now) ≡ out.old.room }
{
    for f in functions {
        put_function(f, out);
    }
}

/// Puts names one after another.
fn put_names(names: &[Name], out: &mut Out)
    requires { length (flat_map name_bytes names.now) ≤ out.old.room }
    ensures bytes { out.new.bytes ≡ out.old.bytes ++ flat_map name_bytes names.now }
    ensures room { out.new.room + length (flat_map name_bytes names.now) ≡ out.old.room }
{
    for n in names {
        put_name(n, out);
    }
}

/// Appends the spelling of a program. Conditions: its counts and lengths fit their fields, no type is missing, and the bytes have room.
#[tactic(auto, unfolding(chunk_codec_spec::specs::Programs::program_bytes, chunk_codec_spec::specs::Kept::program_kept))]
pub fn put_program(p: &Program, out: &mut Out)
    requires kept { IsTrue (program_kept p.now) }
    requires room { length (program_bytes p.now) ≤ out.old.room }
    ensures bytes { out.new.bytes ≡ out.old.bytes ++ program_bytes p.now }
    ensures room { out.new.room + length (program_bytes p.now) ≡ out.old.room }
{
    out.put_u8(p.svcs.len() as u8);
    put_services(p.svcs.as_slice(), out);
    out.put_u8(p.exns.len() as u8);
    put_names(p.exns.as_slice(), out);
    out.put_u8(p.funs.len() as u8);
    put_functions(p.funs.as_slice(), out);
}

/// Appends the spelling of a value. Conditions: its counts and lengths fit their fields, no type is missing, and the bytes have room.
#[cycle(put_values)]
#[tactic(auto, using(crate::proofs::Puts::values))]
pub fn put_value(v: &Value, out: &mut Out)
    requires kept { IsTrue (value_kept v.now) }
    requires room { length (value_bytes v.now) ≤ out.old.room }
    ensures bytes { out.new.bytes ≡ out.old.bytes ++ value_bytes v.now }
    ensures room { out.new.room + length (value_bytes v.now) ≡ out.old.room }
{
    match v {
        Value::Unit => out.put_u8(0x10),
        Value::Bool(flag) => {
            out.put_u8(0x11);
            put_flag(*flag, out);
        }
        Value::Int(int) => {
            out.put_u8(0x12);
            out.put_i64(*int);
        }
        Value::Char(code) => {
            out.put_u8(0x13);
            out.put_u32(*code);
        }
        Value::Str(text) => {
            out.put_u8(0x14);
            put_sized(text.as_slice(), out);
        }
        Value::Blob(blob) => {
            out.put_u8(0x15);
            put_sized(blob.as_slice(), out);
        }
        Value::Host(host) => {
            out.put_u8(0x16);
            out.put_u32(host.0);
        }
        Value::Dev(dev) => {
            out.put_u8(0x17);
            out.put_u32(dev.0);
        }
        Value::Chunk(chunk) => {
            out.put_u8(0x18);
            put_chunk(chunk.get(), out);
        }
        Value::List(ty, items) => {
            out.put_u8(0x19);
            put_ty(ty.get(), out);
            out.put_u16(items.len() as u16);
            put_values(items.as_slice(), out);
        }
        Value::Tuple(parts) => {
            out.put_u8(0x1a);
            out.put_u8(parts.len() as u8);
            put_values(parts.as_slice(), out);
        }
    }
}

/// Puts values one after another.
#[cycle(put_values)]
#[tactic(auto, using(crate::proofs::Puts::item_kept, crate::proofs::Puts::item_room))]
fn put_values(values: &[Value], out: &mut Out)
    requires kept { IsTrue (list_all value_kept values.now) }
    requires room { length (flat_map value_bytes values.now) ≤ out.old.room }
    ensures bytes { out.new.bytes ≡ out.old.bytes ++ flat_map value_bytes values.now }
    ensures room { out.new.room + length (flat_map value_bytes values.now) ≡ out.old.room }
{
    for v in values {
        put_value(v, out);
    }
}

/// Appends the spelling of a chunk. Conditions: its counts and lengths fit their fields, no type is missing, and the bytes have room.
#[cycle(put_values)]
pub fn put_chunk(c: &Chunk, out: &mut Out)
    requires kept { IsTrue (chunk_kept c.now) }
    requires room { length (chunk_bytes c.now) ≤ out.old.room }
    ensures bytes { out.new.bytes ≡ out.old.bytes ++ chunk_bytes c.now }
    ensures room { out.new.room + length (chunk_bytes c.now) ≡ out.old.room }
{
    put_program(c.code.get(), out);
    put_name(&c.entry, out);
    out.put_u8(c.args.len() as u8);
    put_values(c.args.as_slice(), out);
}
