//! The services of the network.
ghost use Rattle.std.specs.Prelude.{◌≡◌, IfOk, map};
ghost use Rattle.plan_base.specs.declared.tree.Ty.{Ty as AType};
ghost use Rattle.plan_base.specs.declared.tree.Value.TheVariants as value;
ghost use Rattle.service_api.specs.Routes as hops;
ghost use Rattle.service_registry_spec.specs.Answers as spec;
ghost use Rattle.service_registry_spec.specs.Offered as offered;
ghost use Rattle.service_registry.specs.Meets.{Tells};

use crate::answers::{no_route, no_such_service};
use crate::arguments::as_host;
use crate::types::hop_type;
use containers::{Boxed, Items};
use plan_base::{Dev, Host, Name, NoMemory, Value, Values};
use service_api::{Answer, Ctx, Hop, RouteRow};
use service_registry_spec::Service;
use std::alloc::Global;

/// `thisHost`.
pub fn this_host(alloc: Global, args: &[Value], ctx: &Ctx) -> Result<Answer, NoMemory>
    ensures { (a : AType) → Tells (spec.serve_as Service.ThisHost a args.now ctx.entry.now) result }
{
    match args {
        [] => Ok(Answer::Gives(Value::Host(ctx.here), None)),
        [_, ..] => no_such_service(alloc),
    }
}

/// `thisHostIs`.
pub fn this_host_is(alloc: Global, args: &[Value], ctx: &Ctx) -> Result<Answer, NoMemory>
    ensures { (a : AType) → Tells (spec.serve_as Service.ThisHostIs a args.now ctx.entry.now)
        result }
{
    let [host] = args else {
        return no_such_service(alloc);
    };
    let Some(host) = as_host(host) else {
        return no_such_service(alloc);
    };
    Ok(Answer::Gives(Value::Bool(host.0 == ctx.here.0), None))
}

/// `getRB`.
pub fn get_rb(alloc: Global, args: &[Value], ctx: &Ctx) -> Result<Answer, NoMemory>
    ensures { (a : AType) → Tells (spec.serve_as Service.GetRb a args.now ctx.entry.now) result }
{
    match args {
        [] => Ok(Answer::Gives(Value::Int(i64::from(ctx.purse)), None)),
        [_, ..] => no_such_service(alloc),
    }
}

/// `getSource`.
pub fn get_source(alloc: Global, args: &[Value], ctx: &Ctx) -> Result<Answer, NoMemory>
    ensures { (a : AType) → Tells (spec.serve_as Service.GetSource a args.now ctx.entry.now)
        result }
{
    match args {
        [] => Ok(Answer::Gives(Value::Host(ctx.source), None)),
        [_, ..] => no_such_service(alloc),
    }
}

fn hop_value(alloc: Global, host: Host, dev: Dev) -> Result<Value, NoMemory>
    ensures { IfOk result (λ v. v ≡ spec.hop_value host dev) }
{
    let mut parts = Items::new(alloc);
    parts.add(Value::Host(host))?;
    parts.add(Value::Dev(dev))?;
    Ok(Value::Tuple(parts))
}

fn hop_values(alloc: Global, neighbours: &[(Host, Dev)]) -> Result<Values, NoMemory>
    ensures { IfOk result (λ vs. vs ≡ map (λ n. spec.hop_value n.0 n.1) neighbours.now) }
{
    let mut values = Items::new(alloc);
    for neighbour in neighbours {
        values.add(hop_value(alloc, neighbour.0, neighbour.1)?)?;
    }
    Ok(values)
}

fn neighbours(alloc: Global, ctx: &Ctx) -> Result<Answer, NoMemory>
    ensures { Tells (spec.given_answer (value.List offered.hop_type
        (map (λ n. spec.hop_value n.0 n.1) ctx.entry.now.neighbours))) result }
{
    let values = hop_values(alloc, ctx.neighbours.as_slice())?;
    let item = Boxed::new(alloc, hop_type(alloc)?)?;
    Ok(Answer::Gives(Value::List(item, values), None))
}

/// `getNeighbors`.
pub fn get_neighbors(alloc: Global, args: &[Value], ctx: &Ctx) -> Result<Answer, NoMemory>
    ensures { (a : AType) → Tells (spec.serve_as Service.GetNeighbors a args.now ctx.entry.now)
        result }
{
    match args {
        [] => neighbours(alloc, ctx),
        [_, ..] => no_such_service(alloc),
    }
}

/// The cost of the first route to the host.
fn cost_in(alloc: Global, routes: &[RouteRow], host: Host) -> Result<Answer, NoMemory>
    ensures { Tells (spec.cost_in routes.now host) result }
{
    let mut rest = routes;
    while let [route, later @ ..] = rest {
        if route.host.0 == host.0 {
            return Ok(Answer::Gives(Value::Int(i64::from(route.cost)), None));
        }
        rest = later;
    }
    no_route(alloc)
}

fn distance(alloc: Global, ctx: &Ctx, host: Host) -> Result<Answer, NoMemory>
    ensures { Tells (λ rows. spec.distance ctx.entry.now rows host) result }
{
    if host.0 == ctx.here.0 {
        Ok(Answer::Gives(Value::Int(0), None))
    } else {
        cost_in(alloc, ctx.router.rows(), host)
    }
}

/// `getDist`.
pub fn get_dist(alloc: Global, args: &[Value], ctx: &Ctx) -> Result<Answer, NoMemory>
    ensures { (a : AType) → Tells (spec.serve_as Service.GetDist a args.now ctx.entry.now) result }
{
    let [host] = args else {
        return no_such_service(alloc);
    };
    let Some(host) = as_host(host) else {
        return no_such_service(alloc);
    };
    distance(alloc, ctx, host)
}

fn hop_answer(alloc: Global, hop: Hop) -> Result<Answer, NoMemory>
    ensures { Tells (spec.hop_answer hop) result }
{
    match hop {
        Hop::To(host, dev) => Ok(Answer::Gives(hop_value(alloc, host, dev)?, None)),
        Hop::NoService => no_route(alloc),
        Hop::NoRoute => no_route(alloc),
    }
}

#[tactic(auto, unfolding(plan_base::specs::Words::is_name, plan_base::specs::Words::is_word, plan_base::specs::Words::is_reserved))]
fn default_route(alloc: Global) -> Result<Name, NoMemory>
    ensures { IfOk result (λ n. n ≡ hops.default_route) }
{
    Name::of(alloc, b"defaultRoute")
}

/// `nextHop`.
pub fn next_hop(alloc: Global, args: &[Value], ctx: &Ctx) -> Result<Answer, NoMemory>
    ensures { (a : AType) → Tells (spec.serve_as Service.NextHop a args.now ctx.entry.now) result }
{
    let [host] = args else {
        return no_such_service(alloc);
    };
    let Some(host) = as_host(host) else {
        return no_such_service(alloc);
    };
    let route = default_route(alloc)?;
    let hop = ctx.router.next(&route, ctx.here, host);
    drop(route);
    hop_answer(alloc, hop)
}
