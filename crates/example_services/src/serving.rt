//! What each call of the example does.
ghost use Rattle.std.specs.Prelude.{◌≡◌};
ghost use Rattle.service_registry.specs.Meets.{Meets, Tells};
ghost use Rattle.example_services.specs.Offered as offered;
ghost use Rattle.example_services.specs.Serving as spec;
ghost use Rattle.example_services.specs.Counts.{counting, IsNumber};

use crate::answers::{hello, no_such_service};
use crate::offered::service_of_call;
use crate::service::ExampleService;
use plan_base::{NoMemory, Svc, Value};
use plan_base_copy::TryClone;
use service_api::{Answer, Note};
use std::alloc::Global;

/// Takes the number of this count, and leaves that of the next one: the same where it is the last. Takes no memory.
fn take_number(number: &mut i64) -> i64
    requires { IsNumber number.old }
    ensures number { result ≡ number.old }
    ensures after { number.new ≡ spec.after number.old }
    ensures kept { IsNumber number.new }
{
    let this = *number;
    if this < i64::MAX {
        *number = this + 1;
    }
    this
}

/// `count`.
fn count(alloc: Global, number: &mut i64, args: &[Value]) -> Result<Answer, NoMemory>
    requires { IsNumber number.old }
    ensures meets { Meets (spec.serve_as ExampleService.Count args.now (counting number.old))
        (counting number.old) result (counting number.new) }
    ensures kept { IsNumber number.new }
{
    if args.is_empty() {
        Ok(Answer::Gives(Value::Int(take_number(number)), None))
    } else {
        no_such_service(alloc)
    }
}

/// `greet`.
fn greet(alloc: Global, args: &[Value]) -> Result<Answer, NoMemory>
    ensures { Tells (spec.serve_as ExampleService.Greet args.now) result }
{
    match args {
        [whom] => Ok(Answer::Gives(
            Value::Str(hello(alloc)?),
            Some(Note::Print(whom.copy(alloc)?)),
        )),
        _ => no_such_service(alloc),
    }
}

fn served_as(
    alloc: Global,
    number: &mut i64,
    service: ExampleService,
    args: &[Value],
) -> Result<Answer, NoMemory>
    requires { IsNumber number.old }
    ensures meets { Meets (spec.serve_as service args.now (counting number.old))
        (counting number.old) result (counting number.new) }
    ensures kept { IsNumber number.new }
{
    match service {
        ExampleService::Count => count(alloc, number, args),
        ExampleService::Greet => greet(alloc, args),
    }
}

/// What a call answers, and the number of the next count after it.
pub fn answer_call(
    alloc: Global,
    number: &mut i64,
    svc: &Svc,
    args: &[Value],
) -> Result<Answer, NoMemory>
    requires { IsNumber number.old }
    ensures meets { Meets (spec.serve_called (offered.called_service svc.now) args.now
        (counting number.old)) (counting number.old) result (counting number.new) }
    ensures kept { IsNumber number.new }
{
    match service_of_call(alloc, svc)? {
        Some(service) => served_as(alloc, number, service, args),
        None => no_such_service(alloc),
    }
}
