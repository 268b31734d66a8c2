//! The services of tables.
ghost use Rattle.std.specs.Prelude.{List};
ghost use Rattle.plan_base.specs.declared.tree.Ty.{Ty as AType};
ghost use Rattle.resident_tables.specs.Layers.{IsOver};
ghost use Rattle.resident_tables.specs.Tables.{Table};
ghost use Rattle.service_api.specs.declared.ctx.Ctx.{Ctx as ACtx};
ghost use Rattle.service_registry_spec.specs.Answers as spec;
ghost use Rattle.service_registry.specs.RegistryState.{rows_over};
ghost use Rattle.service_registry.specs.Meets.{Meets};
ghost use Rattle.service_api.specs.declared.row.Row.{Row as ARow};
ghost use Rattle.service_api.specs.Rows.{fresh_key};

use crate::answers::{bad_index, no_such_service, not_found, overflow, table_full};
use crate::arguments::{as_int, as_text};
use plan_base::{NoMemory, Ty, Value};
use resident_tables::{Overlay, TableFault, Tables};
use service_api::{Answer, Ctx};
use service_registry_spec::Service;
use std::alloc::Global;

/// `put`. Condition: the changes were used over `base` alone.
pub fn put(
    alloc: Global,
    base: &Tables,
    changes: &mut Overlay,
    a: &Ty,
    args: &[Value],
    ctx: &Ctx,
) -> Result<Answer, NoMemory>
    requires { IsOver base.now.rows changes.old }
    ensures meets { Meets (spec.serve_as Service.Put a.now args.now ctx.entry.now
        (rows_over base.now changes.old)) (rows_over base.now changes.old) result
        (rows_over base.now changes.new) }
    ensures over { IsOver base.now.rows changes.new }
{
    if args.len() != 4 {
        return no_such_service(alloc);
    }
    let Some(name) = as_text(&args[0]) else {
        return no_such_service(alloc);
    };
    let Some(number) = as_int(&args[1]) else {
        return no_such_service(alloc);
    };
    let value = &args[2];
    let Some(life) = as_int(&args[3]) else {
        return no_such_service(alloc);
    };
    if life < 1 {
        return bad_index(alloc);
    }
    let expiry = ctx.now.saturating_add(life.unsigned_abs());
    match changes.put(alloc, base, name, number, a, value, expiry) {
        Ok(()) => Ok(Answer::Gives(Value::Unit, None)),
        Err(TableFault::TableFull) => table_full(alloc),
        Err(TableFault::NoMemory) => Err(NoMemory),
        Err(TableFault::NotFound) => unreachable!(),
    }
}

/// `get`.
pub fn get(
    alloc: Global,
    base: &Tables,
    changes: &Overlay,
    a: &Ty,
    args: &[Value],
    ctx: &Ctx,
) -> Result<Answer, NoMemory>
    ensures { Meets (spec.serve_as Service.Get a.now args.now ctx.entry.now
        (rows_over base.now changes.now)) (rows_over base.now changes.now) result
        (rows_over base.now changes.now) }
{
    if args.len() != 2 {
        return no_such_service(alloc);
    }
    let Some(name) = as_text(&args[0]) else {
        return no_such_service(alloc);
    };
    let Some(number) = as_int(&args[1]) else {
        return no_such_service(alloc);
    };
    match changes.get(alloc, base, name, number, a, ctx.now) {
        Ok(value) => Ok(Answer::Gives(value, None)),
        Err(TableFault::NotFound) => not_found(alloc),
        Err(TableFault::NoMemory) => Err(NoMemory),
        Err(TableFault::TableFull) => unreachable!(),
    }
}

/// `remove`. Condition: the changes were used over `base` alone.
pub fn remove(
    alloc: Global,
    base: &Tables,
    changes: &mut Overlay,
    a: &Ty,
    args: &[Value],
    ctx: &Ctx,
) -> Result<Answer, NoMemory>
    requires { IsOver base.now.rows changes.old }
    ensures meets { Meets (spec.serve_as Service.Remove a.now args.now ctx.entry.now
        (rows_over base.now changes.old)) (rows_over base.now changes.old) result
        (rows_over base.now changes.new) }
    ensures over { IsOver base.now.rows changes.new }
{
    if args.len() != 2 {
        return no_such_service(alloc);
    }
    let Some(name) = as_text(&args[0]) else {
        return no_such_service(alloc);
    };
    let Some(number) = as_int(&args[1]) else {
        return no_such_service(alloc);
    };
    changes.remove(alloc, base, name, number)?;
    Ok(Answer::Gives(Value::Unit, None))
}

fn fresh_key(alloc: Global, changes: &mut Overlay) -> Result<Answer, NoMemory>
    ensures meets { (base : Table) → Meets (spec.key_answer (fresh_key changes.old.«next»)
        (rows_over base changes.old)) (rows_over base changes.old) result
        (rows_over base changes.new) }
    ensures over { (rows : List ARow) → IsOver rows changes.old → IsOver rows changes.new }
{
    match changes.fresh_key() {
        Some(key) => Ok(Answer::Gives(Value::Int(key), None)),
        None => overflow(alloc),
    }
}

/// `generateKey`.
pub fn generate_key(
    alloc: Global,
    changes: &mut Overlay,
    args: &[Value],
) -> Result<Answer, NoMemory>
    ensures meets { (base : Table) (a : AType) (ctx : ACtx) → Meets
        (spec.serve_as Service.GenerateKey a args.now ctx (rows_over base changes.old))
        (rows_over base changes.old) result (rows_over base changes.new) }
    ensures over { (rows : List ARow) → IsOver rows changes.old → IsOver rows changes.new }
{
    match args {
        [] => fresh_key(alloc, changes),
        [_, ..] => no_such_service(alloc),
    }
}
