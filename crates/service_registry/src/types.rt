//! The types of the standard services.
ghost use Rattle.std.specs.Prelude.{◌≡◌, [], IfOk, OnOk};
ghost use Rattle.service_registry_spec.specs.Offered as spec;

use containers::{Boxed, Items};
use plan_base::{NoMemory, Ty};
use service_api::{Scheme, SchemeTy, SchemeTys};
use service_registry_spec::Service;
use std::alloc::{AllocError, Global};

/// The type of a host with the device that leads to it.
pub fn hop_type(alloc: Global) -> Result<Ty, NoMemory>
    ensures { IfOk result (λ t. t ≡ spec.hop_type) }
{
    let mut parts = Items::new(alloc);
    parts.add(Ty::Host)?;
    parts.add(Ty::Dev)?;
    Ok(Ty::Tuple(parts))
}

/// Adds a text and a number, as the name and the number of a row.
fn add_key(params: &mut SchemeTys) -> Result<(), AllocError>
    requires { params.old ≡ [] }
    ensures { OnOk result (params.new ≡ (spec.type_of Service.Get).params) }
{
    params.add(SchemeTy::Is(Ty::Str))?;
    params.add(SchemeTy::Is(Ty::Int))
}

/// Adds what `put` takes.
fn add_put(params: &mut SchemeTys) -> Result<(), AllocError>
    requires { params.old ≡ [] }
    ensures { OnOk result (params.new ≡ (spec.type_of Service.Put).params) }
{
    add_key(params)?;
    params.add(SchemeTy::Any)?;
    params.add(SchemeTy::Is(Ty::Int))
}

/// Adds what `deliver` takes.
fn add_deliver(params: &mut SchemeTys) -> Result<(), AllocError>
    requires { params.old ≡ [] }
    ensures { OnOk result (params.new ≡ (spec.type_of Service.Deliver).params) }
{
    params.add(SchemeTy::Is(Ty::Int))?;
    params.add(SchemeTy::Any)
}

/// Adds what the service takes.
fn add_params(params: &mut SchemeTys, service: Service) -> Result<(), AllocError>
    requires { params.old ≡ [] }
    ensures { OnOk result (params.new ≡ (spec.type_of service).params) }
{
    match service {
        Service::ThisHost
        | Service::GetRb
        | Service::GetSource
        | Service::GetNeighbors
        | Service::GenerateKey => Ok(()),
        Service::ThisHostIs | Service::GetDist | Service::NextHop => {
            params.add(SchemeTy::Is(Ty::Host))
        }
        Service::Put => add_put(params),
        Service::Get | Service::Remove => add_key(params),
        Service::Print => params.add(SchemeTy::Any),
        Service::Deliver => add_deliver(params),
    }
}

/// What the service takes.
fn params_of(alloc: Global, service: Service) -> Result<SchemeTys, NoMemory>
    ensures { IfOk result (λ l. l ≡ (spec.type_of service).params) }
{
    let mut params = Items::new(alloc);
    add_params(&mut params, service)?;
    Ok(params)
}

/// The type of the neighbours of a host.
fn hops_type(alloc: Global) -> Result<SchemeTy, NoMemory>
    ensures { IfOk result (λ t. t ≡ (spec.type_of Service.GetNeighbors).result) }
{
    let item = hop_type(alloc)?;
    Ok(SchemeTy::Is(Ty::List(Boxed::new(alloc, item)?)))
}

/// What the service gives.
fn result_of(alloc: Global, service: Service) -> Result<SchemeTy, NoMemory>
    ensures { IfOk result (λ t. t ≡ (spec.type_of service).result) }
{
    match service {
        Service::ThisHost | Service::GetSource => Ok(SchemeTy::Is(Ty::Host)),
        Service::ThisHostIs => Ok(SchemeTy::Is(Ty::Bool)),
        Service::GetRb | Service::GetDist | Service::GenerateKey => Ok(SchemeTy::Is(Ty::Int)),
        Service::GetNeighbors => hops_type(alloc),
        Service::NextHop => Ok(SchemeTy::Is(hop_type(alloc)?)),
        Service::Put | Service::Remove | Service::Print | Service::Deliver => {
            Ok(SchemeTy::Is(Ty::Unit))
        }
        Service::Get => Ok(SchemeTy::Any),
    }
}

/// The type of the service.
pub fn type_of(alloc: Global, service: Service) -> Result<Scheme, NoMemory>
    ensures { IfOk result (λ s. s ≡ spec.type_of service) }
{
    Ok(Scheme {
        params: params_of(alloc, service)?,
        result: result_of(alloc, service)?,
    })
}
