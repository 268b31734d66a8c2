//! Serves a call by the type at which it was declared.
ghost use Rattle.std.specs.Prelude.{◌≡◌, IfOk, None};
ghost use Rattle.std.specs.Option.{option_copied};
ghost use Rattle.resident_tables.specs.Layers.{IsOver};
ghost use Rattle.service_api.specs.Schemes.{instance};
ghost use Rattle.service_registry_spec.specs.Answers as spec;
ghost use Rattle.service_registry_spec.specs.Offered as offered;
ghost use Rattle.service_registry_spec.specs.Serving.{serve, serve_at};
ghost use Rattle.service_registry.specs.RegistryState.{rows_over};
ghost use Rattle.service_registry.specs.Meets.{Meets};
ghost use Rattle.service_registry.specs.Packages.{present_of};

use crate::answers::no_such_service;
use crate::host::{deliver, print};
use crate::installed_packages::InstalledPackages;
use crate::net::{get_dist, get_neighbors, get_rb, get_source, next_hop, this_host, this_host_is};
use crate::offered::installed_service;
use crate::resident::{generate_key, get, put, remove};
use crate::taken::type_at_hand;
use crate::types::type_of;
use plan_base::{NoMemory, Svc, Ty, Value};
use resident_tables::{Overlay, Tables};
use service_api::{Answer, Ctx, instance};
use service_registry_spec::Service;
use std::alloc::Global;

/// What the service answers where its declaration takes `Any` at the type `a`. Condition: the changes were used over
/// `base` alone.
fn served_as(
    alloc: Global,
    base: &Tables,
    changes: &mut Overlay,
    service: Service,
    a: &Ty,
    args: &[Value],
    ctx: &Ctx,
) -> Result<Answer, NoMemory>
    requires { IsOver base.now.rows changes.old }
    ensures meets { Meets (spec.serve_as service a.now args.now ctx.entry.now
        (rows_over base.now changes.old)) (rows_over base.now changes.old) result
        (rows_over base.now changes.new) }
    ensures over { IsOver base.now.rows changes.new }
{
    match service {
        Service::ThisHost => this_host(alloc, args, ctx),
        Service::ThisHostIs => this_host_is(alloc, args, ctx),
        Service::GetRb => get_rb(alloc, args, ctx),
        Service::GetSource => get_source(alloc, args, ctx),
        Service::GetNeighbors => get_neighbors(alloc, args, ctx),
        Service::GetDist => get_dist(alloc, args, ctx),
        Service::NextHop => next_hop(alloc, args, ctx),
        Service::Put => put(alloc, base, changes, a, args, ctx),
        Service::Get => get(alloc, base, changes, a, args, ctx),
        Service::Remove => remove(alloc, base, changes, a, args, ctx),
        Service::GenerateKey => generate_key(alloc, changes, args),
        Service::Print => print(alloc, args),
        Service::Deliver => deliver(alloc, args),
    }
}

/// The type that the declaration takes for `Any`, or `None` where it is no instance of the service's type.
fn taken_type(alloc: Global, service: Service, svc: &Svc) -> Result<Option<Ty>, NoMemory>
    ensures { IfOk result (λ t. t ≡ instance (offered.type_of service) svc.now) }
{
    let scheme = type_of(alloc, service)?;
    let taken = instance(alloc, &scheme, svc);
    drop(scheme);
    taken
}

/// What the service answers at the type that its declaration takes for `Any`, and a refusal where the declaration is
/// no instance. Condition: the changes were used over `base` alone.
fn served_at(
    alloc: Global,
    base: &Tables,
    changes: &mut Overlay,
    service: Service,
    found: &Option<Ty>,
    args: &[Value],
    ctx: &Ctx,
) -> Result<Answer, NoMemory>
    requires { IsOver base.now.rows changes.old }
    ensures meets { Meets (serve_at found.now service args.now ctx.entry.now
        (rows_over base.now changes.old)) (rows_over base.now changes.old) result
        (rows_over base.now changes.new) }
    ensures over { IsOver base.now.rows changes.new }
{
    match found {
        Some(a) => served_as(alloc, base, changes, service, a, args, ctx),
        None => no_such_service(alloc),
    }
}

/// The same of a type that is lent.
fn served_by(
    alloc: Global,
    base: &Tables,
    changes: &mut Overlay,
    service: Service,
    known: Option<&Ty>,
    args: &[Value],
    ctx: &Ctx,
) -> Result<Answer, NoMemory>
    requires { IsOver base.now.rows changes.old }
    ensures meets { Meets (serve_at (option_copied known.entry) service args.now ctx.entry.now
        (rows_over base.now changes.old)) (rows_over base.now changes.old)
        result (rows_over base.now changes.new) }
    ensures over { IsOver base.now.rows changes.new }
{
    match known {
        Some(a) => served_as(alloc, base, changes, service, a, args, ctx),
        None => no_such_service(alloc),
    }
}

/// What a call answers where these packages are there. Condition: the changes were used over `base` alone.
#[tactic(auto, unfolding(service_registry_spec::specs::Serving::serve))]
pub fn answer_call(
    alloc: Global,
    there: InstalledPackages,
    base: &Tables,
    changes: &mut Overlay,
    svc: &Svc,
    args: &[Value],
    ctx: &Ctx,
) -> Result<Answer, NoMemory>
    requires { IsOver base.now.rows changes.old }
    ensures meets { Meets (serve (present_of there) svc.now args.now ctx.entry.now
        (rows_over base.now changes.old)) (rows_over base.now changes.old) result
        (rows_over base.now changes.new) }
    ensures over { IsOver base.now.rows changes.new }
{
    let Some(service) = installed_service(there, &svc.name) else {
        return no_such_service(alloc);
    };
    let unit = Ty::Unit;
    if let Some(known) = type_at_hand(service, svc, &unit) {
        let answer = served_by(alloc, base, changes, service, known, args, ctx);
        drop(unit);
        return answer;
    }
    drop(unit);
    let found = taken_type(alloc, service, svc)?;
    let answer = served_at(alloc, base, changes, service, &found, args, ctx);
    drop(found);
    answer
}
