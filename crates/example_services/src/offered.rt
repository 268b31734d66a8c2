//! Which services the example offers.
ghost use Rattle.std.specs.Prelude.{◌≡◌, IfOk};
ghost use Rattle.example_services.specs.Offered as spec;

use crate::service::ExampleService;
use containers::Items;
use plan_base::{Name, NoMemory, Svc, Ty};
use service_api::{Scheme, SchemeTy, SchemeTys, instance};
use std::alloc::Global;

fn name_of(service: ExampleService) -> &'static [u8]
    ensures { result.now ≡ spec.name_of service }
{
    match service {
        ExampleService::Count => b"count".as_slice(),
        ExampleService::Greet => b"greet".as_slice(),
    }
}

/// The service of the name. Takes no memory.
pub fn service_of_name(name: &Name) -> Option<ExampleService>
    ensures { result ≡ spec.named_service name.now }
{
    if name_of(ExampleService::Count) == name.as_slice() {
        return Some(ExampleService::Count);
    }
    if name_of(ExampleService::Greet) == name.as_slice() {
        return Some(ExampleService::Greet);
    }
    None
}

fn params_of(alloc: Global, service: ExampleService) -> Result<SchemeTys, NoMemory>
    ensures { IfOk result (λ l. l ≡ (spec.type_of service).params) }
{
    let mut list = Items::new(alloc);
    match service {
        ExampleService::Count => Ok(list),
        ExampleService::Greet => {
            list.add(SchemeTy::Is(Ty::Str))?;
            Ok(list)
        }
    }
}

fn result_of(service: ExampleService) -> SchemeTy
    ensures { result ≡ (spec.type_of service).result }
{
    match service {
        ExampleService::Count => SchemeTy::Is(Ty::Int),
        ExampleService::Greet => SchemeTy::Is(Ty::Str),
    }
}

/// The type of the service.
pub fn type_of(alloc: Global, service: ExampleService) -> Result<Scheme, NoMemory>
    ensures { IfOk result (λ s. s ≡ spec.type_of service) }
{
    Ok(Scheme {
        params: params_of(alloc, service)?,
        result: result_of(service),
    })
}

/// Whether the declaration is an instance of the service's type.
fn fits(alloc: Global, service: ExampleService, svc: &Svc) -> Result<bool, NoMemory>
    ensures { IfOk result (λ b. b ≡ spec.fits service svc.now) }
{
    let scheme = type_of(alloc, service)?;
    Ok(instance(alloc, &scheme, svc)?.is_some())
}

/// The service that a declaration calls, and `None` where no service has its name or its type is another one.
pub fn service_of_call(alloc: Global, svc: &Svc) -> Result<Option<ExampleService>, NoMemory>
    ensures { IfOk result (λ s. s ≡ spec.called_service svc.now) }
{
    let Some(service) = service_of_name(&svc.name) else {
        return Ok(None);
    };
    if fits(alloc, service, svc)? {
        Ok(Some(service))
    } else {
        Ok(None)
    }
}
