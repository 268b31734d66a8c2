//! Reading the head of a declaration.
ghost use Rattle.std.specs.Prelude.{◌≡◌, ◌≤◌, ◌-◌, ◌∷◌, [], length, Result, Ok, Err};
ghost use Rattle.plan_parser_exprs.specs.Ahead.{Gives, Answers, ◌>>=◌ as and_then, need_symbol};
ghost use Rattle.plan_parser_exprs.specs.Types.{past, more};
ghost use Rattle.plan_parser_exprs.specs.Begins as begins;
ghost use Rattle.plan_parser.specs.Signatures as spec;

use containers::Items;
use plan_base::{Limit, Name, Param, Params, Svc, Ty, Tys};
use plan_lexer::Symbol;
use plan_parser_exprs::{
    Ahead, ParseFault, Wanted, begins_type, name_at, one_type, past_type, type_to,
};
use std::alloc::Global;

/// The constructs that may be open at a place.
pub const MOST_OPEN: u32 = 160;
/// The parameters that a function or a service may have.
const MOST_PARAMETERS: usize = 8;

/// What stands of a function before its body.
#[derive(Drop)]
pub struct Head {
    pub name: Name,
    pub params: Params,
    pub result: Ty,
}

#[tactic(auto, unfolding(crate::specs::Signatures::outer_type))]
fn outer_type(alloc: Global, ahead: &mut Ahead<'_>) -> Result<Ty, ParseFault>
    ensures { Gives (spec.outer_type ahead.old) result ahead.new }
{
    type_to(alloc, MOST_OPEN + 1, ahead)
}

/// A type inside the brackets of a head.
#[tactic(auto, unfolding(crate::specs::Signatures::inner_type))]
fn inner_type(alloc: Global, ahead: &mut Ahead<'_>) -> Result<Ty, ParseFault>
    ensures { Gives (spec.inner_type ahead.old) result ahead.new }
{
    type_to(alloc, MOST_OPEN, ahead)
}

/// Further types behind commas.
#[tactic(auto, using(plan_parser_exprs::proofs::Mores::more_ends, plan_parser_exprs::proofs::Mores::more_past, plan_parser_exprs::proofs::Mores::more_stops, plan_parser_exprs::proofs::Mores::more_steps))]
fn more_types(alloc: Global, ahead: &mut Ahead<'_>, types: Tys) -> Result<Tys, ParseFault>
    requires { length types ≤ 8 }
    ensures { Gives (more spec.inner_type begins.begins_type Symbol.Comma Limit.Parameters
        Wanted.AType (8 - length types) types ahead.old) result ahead.new }
{
    let mut types = types;
    while ahead.is_symbol(Symbol::Comma) {
        ahead.skip();
        if types.len() >= MOST_PARAMETERS {
            return Err(past_type(ahead, Limit::Parameters));
        }
        types.add(inner_type(alloc, ahead)?)?;
    }
    Ok(types)
}

/// The types of a service's arguments, up to the bracket.
#[tactic(auto, unfolding(crate::specs::Signatures::arguments_from))]
fn arguments_from(alloc: Global, ahead: &mut Ahead<'_>) -> Result<Tys, ParseFault>
    ensures { Gives (spec.arguments_from ahead.old) result ahead.new }
{
    let first = inner_type(alloc, ahead)?;
    let types = one_type(alloc, first)?;
    match more_types(alloc, ahead, types) {
        Ok(types) => match ahead.need_symbol(Symbol::ParenClose) {
            Ok(()) => Ok(types),
            Err(fault) => Err(fault),
        },
        Err(fault) => Err(fault),
    }
}

#[tactic(auto, unfolding(crate::specs::Signatures::arguments_behind))]
fn arguments_behind(alloc: Global, ahead: &mut Ahead<'_>) -> Result<Tys, ParseFault>
    ensures { Gives (spec.arguments_behind ahead.old) result ahead.new }
{
    if ahead.is_symbol(Symbol::ParenClose) {
        ahead.skip();
        return Ok(Items::new(alloc));
    }
    if begins_type(ahead) {
        return arguments_from(alloc, ahead);
    }
    Err(ParseFault::Expected(Wanted::Symbol(Symbol::ParenClose), ahead.place()))
}

/// A service, behind its word.
#[tactic(auto, unfolding(crate::specs::Signatures::service_at))]
pub fn service_at(alloc: Global, ahead: &mut Ahead<'_>) -> Result<Svc, ParseFault>
    ensures { Gives (spec.service_at ahead.old) result ahead.new }
{
    let name = name_at(alloc, ahead)?;
    match ahead.need_symbol(Symbol::Colon) {
        Ok(()) => match ahead.need_symbol(Symbol::ParenOpen) {
            Ok(()) => service_of(alloc, ahead, name),
            Err(fault) => Err(fault),
        },
        Err(fault) => Err(fault),
    }
}

/// A service of that name, behind the bracket of its arguments.
fn service_of(alloc: Global, ahead: &mut Ahead<'_>, name: Name) -> Result<Svc, ParseFault>
    ensures { Gives (and_then (spec.arguments_behind ahead.old)
        (λ params. and_then (need_symbol Symbol.Arrow params.1)
        (λ arrow. and_then (spec.outer_type arrow.1)
        (λ t. Ok (record { name = name; params = params.0; result = t.0 }, t.1))))) result
        ahead.new }
{
    match arguments_behind(alloc, ahead) {
        Ok(params) => match ahead.need_symbol(Symbol::Arrow) {
            Ok(()) => match outer_type(alloc, ahead) {
                Ok(result) => Ok(Svc {
                    name,
                    params,
                    result,
                }),
                Err(fault) => Err(fault),
            },
            Err(fault) => Err(fault),
        },
        Err(fault) => Err(fault),
    }
}

#[tactic(auto, unfolding(plan_parser_exprs::specs::Begins::begins_name))]
fn begins_name(ahead: &Ahead<'_>) -> bool
    ensures { result ≡ begins.begins_name ahead.now }
{
    ahead.is_name()
}

/// The fault at the ninth parameter, which the comma before it announces.
#[tactic(auto, unfolding(plan_parser_exprs::specs::Types::past))]
fn past_param(ahead: &Ahead<'_>) -> ParseFault
    ensures { result ≡ past begins.begins_name Limit.Parameters Wanted.AName ahead.now }
{
    if begins_name(ahead) {
        return ParseFault::TooMany(Limit::Parameters, ahead.place());
    }
    ParseFault::Expected(Wanted::AName, ahead.place())
}

/// A parameter with its type.
#[tactic(auto, unfolding(crate::specs::Signatures::param_at))]
fn param_at(alloc: Global, ahead: &mut Ahead<'_>) -> Result<Param, ParseFault>
    ensures { Gives (spec.param_at ahead.old) result ahead.new }
{
    let name = name_at(alloc, ahead)?;
    match ahead.need_symbol(Symbol::Colon) {
        Ok(()) => match inner_type(alloc, ahead) {
            Ok(ty) => Ok(Param { name, ty }),
            Err(fault) => Err(fault),
        },
        Err(fault) => Err(fault),
    }
}

/// Further parameters behind commas.
#[tactic(auto, using(plan_parser_exprs::proofs::Mores::more_ends, plan_parser_exprs::proofs::Mores::more_past, plan_parser_exprs::proofs::Mores::more_stops, plan_parser_exprs::proofs::Mores::more_steps))]
fn more_params(alloc: Global, ahead: &mut Ahead<'_>, params: Params) -> Result<Params, ParseFault>
    requires { length params ≤ 8 }
    ensures { Gives (more spec.param_at begins.begins_name Symbol.Comma Limit.Parameters
        Wanted.AName (8 - length params) params ahead.old) result ahead.new }
{
    let mut params = params;
    while ahead.is_symbol(Symbol::Comma) {
        ahead.skip();
        if params.len() >= MOST_PARAMETERS {
            return Err(past_param(ahead));
        }
        params.add(param_at(alloc, ahead)?)?;
    }
    Ok(params)
}

/// One parameter, as a list.
fn one_param(alloc: Global, param: Param) -> Result<Params, ParseFault>
    ensures { Answers (Ok (param ∷ [])) result }
{
    let mut params = Items::new(alloc);
    params.add(param)?;
    Ok(params)
}

/// The parameters of a function, up to the bracket.
#[tactic(auto, unfolding(crate::specs::Signatures::params_from))]
fn params_from(alloc: Global, ahead: &mut Ahead<'_>) -> Result<Params, ParseFault>
    ensures { Gives (spec.params_from ahead.old) result ahead.new }
{
    let first = param_at(alloc, ahead)?;
    let params = one_param(alloc, first)?;
    match more_params(alloc, ahead, params) {
        Ok(params) => match ahead.need_symbol(Symbol::ParenClose) {
            Ok(()) => Ok(params),
            Err(fault) => Err(fault),
        },
        Err(fault) => Err(fault),
    }
}

#[tactic(auto, unfolding(crate::specs::Signatures::params_behind))]
fn params_behind(alloc: Global, ahead: &mut Ahead<'_>) -> Result<Params, ParseFault>
    ensures { Gives (spec.params_behind ahead.old) result ahead.new }
{
    if ahead.is_symbol(Symbol::ParenClose) {
        ahead.skip();
        return Ok(Items::new(alloc));
    }
    if begins_name(ahead) {
        return params_from(alloc, ahead);
    }
    Err(ParseFault::Expected(Wanted::Symbol(Symbol::ParenClose), ahead.place()))
}

/// What stands of a function before its body, behind its word.
#[tactic(auto, unfolding(crate::specs::Signatures::head_at))]
pub fn head_at(alloc: Global, ahead: &mut Ahead<'_>) -> Result<Head, ParseFault>
    ensures { Gives (spec.head_at ahead.old) result ahead.new }
{
    let name = name_at(alloc, ahead)?;
    match ahead.need_symbol(Symbol::ParenOpen) {
        Ok(()) => match params_behind(alloc, ahead) {
            Ok(params) => head_of(alloc, ahead, name, params),
            Err(fault) => Err(fault),
        },
        Err(fault) => Err(fault),
    }
}

/// A head of that name and with those parameters, behind their bracket.
fn head_of(
    alloc: Global,
    ahead: &mut Ahead<'_>,
    name: Name,
    params: Params,
) -> Result<Head, ParseFault>
    ensures { Gives (and_then (need_symbol Symbol.Colon ahead.old)
        (λ colon. and_then (spec.outer_type colon.1)
        (λ t. and_then (need_symbol Symbol.Equal t.1)
        (λ equal. Ok (record { name = name; params = params; result = t.0 }, equal.1)))))
        result ahead.new }
{
    match ahead.need_symbol(Symbol::Colon) {
        Ok(()) => match outer_type(alloc, ahead) {
            Ok(result) => match ahead.need_symbol(Symbol::Equal) {
                Ok(()) => Ok(Head {
                    name,
                    params,
                    result,
                }),
                Err(fault) => {
                    drop(result);
                    Err(fault)
                }
            },
            Err(fault) => Err(fault),
        },
        Err(fault) => Err(fault),
    }
}
