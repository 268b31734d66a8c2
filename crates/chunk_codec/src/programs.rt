//! Reads declarations and whole programs from bytes.
ghost use Rattle.std.specs.Prelude.{◌≡◌};
ghost use Rattle.containers.specs.Reading.{many};
ghost use Rattle.chunk_codec_spec.specs.Scan.{name_field};
ghost use Rattle.chunk_codec_spec.specs.Parts.{counted_at};
ghost use Rattle.chunk_codec_spec.specs.Programs.{program_at};
ghost use Rattle.chunk_codec.specs.Reading.{Gives, type_at, param_at, service_at, function_at, program_fields};

use crate::exprs::expr_of;
use crate::source::Source;
use crate::types::{type_of, types_of};
use chunk_codec_spec::SpellFault;
use containers::Items;
use plan_base::{Fun, Funs, Limit, Names, Param, Params, Program, Svc, Svcs, Tys};
use std::alloc::Global;

/// A parameter of a function.
#[tactic(auto, unfolding(crate::specs::Reading::param_at))]
fn param_of(alloc: Global, s: &mut Source<'_>) -> Result<Param, SpellFault>
    ensures { Gives result s.new (param_at s.old) }
{
    let name = s.name(alloc)?;
    match type_of(alloc, s, 8) {
        Ok(ty) => Ok(Param { name, ty }),
        Err(fault) => Err(fault),
    }
}

/// The types of a service's parameters.
#[tactic(auto, unfolding(chunk_codec_spec::specs::Parts::counted_at))]
fn param_types(alloc: Global, s: &mut Source<'_>) -> Result<Tys, SpellFault>
    ensures { Gives result s.new (counted_at Limit.Parameters 0 8 (type_at 8) s.old) }
{
    let count = s.count(Limit::Parameters, 0, 8)?;
    types_of(alloc, s, 8, count)
}

/// A declared service.
#[tactic(auto, unfolding(crate::specs::Reading::service_at))]
fn service_of(alloc: Global, s: &mut Source<'_>) -> Result<Svc, SpellFault>
    ensures { Gives result s.new (service_at s.old) }
{
    let name = s.name(alloc)?;
    match param_types(alloc, s) {
        Ok(params) => match type_of(alloc, s, 8) {
            Ok(result) => Ok(Svc {
                name,
                params,
                result,
            }),
            Err(fault) => {
                drop(params);
                Err(fault)
            }
        },
        Err(fault) => Err(fault),
    }
}

/// The parameters of a function.
#[tactic(auto, unfolding(chunk_codec_spec::specs::Parts::counted_at))]
fn counted_params(alloc: Global, s: &mut Source<'_>) -> Result<Params, SpellFault>
    ensures { Gives result s.new (counted_at Limit.Parameters 0 8 param_at s.old) }
{
    let count = s.count(Limit::Parameters, 0, 8)?;
    params_of(alloc, s, count)
}

/// A function.
#[tactic(auto, unfolding(crate::specs::Reading::function_at))]
fn function_of(alloc: Global, s: &mut Source<'_>) -> Result<Fun, SpellFault>
    ensures { Gives result s.new (function_at s.old) }
{
    let name = s.name(alloc)?;
    match counted_params(alloc, s) {
        Ok(params) => match type_of(alloc, s, 8) {
            Ok(result) => match expr_of(alloc, s, 64) {
                Ok(body) => Ok(Fun {
                    name,
                    params,
                    result,
                    body,
                }),
                Err(fault) => {
                    drop(params);
                    drop(result);
                    Err(fault)
                }
            },
            Err(fault) => {
                drop(params);
                Err(fault)
            }
        },
        Err(fault) => Err(fault),
    }
}

/// So many parameters.
fn params_of(alloc: Global, s: &mut Source<'_>, count: u8) -> Result<Params, SpellFault>
    ensures { Gives result s.new (many param_at count s.old) }
{
    let mut params = Items::new(alloc);
    for _i in 0..count {
        let param = param_of(alloc, s)?;
        params.add(param)?;
    }
    Ok(params)
}

/// So many services.
fn services_of(alloc: Global, s: &mut Source<'_>, count: u8) -> Result<Svcs, SpellFault>
    ensures { Gives result s.new (many service_at count s.old) }
{
    let mut services = Items::new(alloc);
    for _i in 0..count {
        let service = service_of(alloc, s)?;
        services.add(service)?;
    }
    Ok(services)
}

/// So many functions.
fn functions_of(alloc: Global, s: &mut Source<'_>, count: u8) -> Result<Funs, SpellFault>
    ensures { Gives result s.new (many function_at count s.old) }
{
    let mut functions = Items::new(alloc);
    for _i in 0..count {
        let function = function_of(alloc, s)?;
        functions.add(function)?;
    }
    Ok(functions)
}

/// So many names.
fn names_of(alloc: Global, s: &mut Source<'_>, count: u8) -> Result<Names, SpellFault>
    ensures { Gives result s.new (many name_field count s.old) }
{
    let mut names = Items::new(alloc);
    for _i in 0..count {
        let name = s.name(alloc)?;
        names.add(name)?;
    }
    Ok(names)
}

/// A program before its size is judged.
#[tactic(auto, unfolding(crate::specs::Reading::program_fields, chunk_codec_spec::specs::Parts::counted_at))]
fn fields_of(alloc: Global, s: &mut Source<'_>) -> Result<Program, SpellFault>
    ensures { Gives result s.new (program_fields s.old) }
{
    let count = s.count(Limit::Services, 0, 64)?;
    let svcs = services_of(alloc, s, count)?;
    let count = s.count(Limit::Exceptions, 0, 64)?;
    let exns = names_of(alloc, s, count)?;
    let count = s.count(Limit::Functions, 1, 64)?;
    let funs = functions_of(alloc, s, count)?;
    Ok(Program { svcs, exns, funs })
}

/// A program of at most 4,096 expressions and 16,000 bytes.
#[tactic(auto, using(crate::proofs::ValueSteps::program_goes))]
pub fn program_of(alloc: Global, s: &mut Source<'_>) -> Result<Program, SpellFault>
    ensures { Gives result s.new (program_at s.old) }
{
    let start = s.place();
    let so_far = s.count_anew();
    let program = fields_of(alloc, s)?;
    s.count_on(so_far);
    if s.place().saturating_sub(start) > 16000 {
        return Err(SpellFault::OverLimit(Limit::Code, start));
    }
    Ok(program)
}
