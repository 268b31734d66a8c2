//! The services of the owner: `print` and `deliver`.
ghost use Rattle.plan_base.specs.declared.tree.Ty.{Ty as AType};
ghost use Rattle.service_api.specs.declared.ctx.Ctx.{Ctx as ACtx};
ghost use Rattle.service_registry_spec.specs.Answers as spec;
ghost use Rattle.service_registry.specs.Meets.{Tells};

use crate::answers::{bad_index, no_such_service};
use crate::arguments::as_int;
use plan_base::{NoMemory, Value};
use plan_base_copy::TryClone;
use service_api::{Answer, Note};
use service_registry_spec::Service;
use std::alloc::Global;

/// `print`.
pub fn print(alloc: Global, args: &[Value]) -> Result<Answer, NoMemory>
    ensures { (a : AType) (ctx : ACtx) → Tells (spec.serve_as Service.Print a args.now ctx) result }
{
    match args {
        [v] => {
            let copy = v.copy(alloc)?;
            Ok(Answer::Gives(Value::Unit, Some(Note::Print(copy))))
        }
        _ => no_such_service(alloc),
    }
}

fn deliver_to_port(alloc: Global, port: i64, v: &Value) -> Result<Answer, NoMemory>
    ensures { Tells (spec.delivered_answer port v.now) result }
{
    match u16::try_from(port) {
        Ok(port) => {
            let copy = v.copy(alloc)?;
            Ok(Answer::Gives(Value::Unit, Some(Note::Port(port, copy))))
        }
        Err(_) => bad_index(alloc),
    }
}

/// `deliver`.
pub fn deliver(alloc: Global, args: &[Value]) -> Result<Answer, NoMemory>
    ensures { (a : AType) (ctx : ACtx) → Tells
        (spec.serve_as Service.Deliver a args.now ctx) result }
{
    let [port, v] = args else {
        return no_such_service(alloc);
    };
    let Some(port) = as_int(port) else {
        return no_such_service(alloc);
    };
    deliver_to_port(alloc, port, v)
}
