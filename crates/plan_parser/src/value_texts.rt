//! The public calls for texts of values and arguments.
ghost use Rattle.std.specs.Prelude.{◌≡◌, ◌≤◌, ◌⊎◌, ◌-◌, ◌∷◌, [], List, length, Result, Ok, Err, IfOk, IfErr, IsTrue, MatchResult};
ghost use Rattle.std.specs.List.{list_all};
ghost use Rattle.plan_base.specs.declared.tree.Value.{Value};
ghost use Rattle.plan_base.specs.WellFormed.{IsWellFormedValue, ValueHasTypes, well_formed_value, value_has_types};
ghost use Rattle.plan_parser_exprs.specs.Ahead.{Gives, Answers};
ghost use Rattle.plan_parser_exprs.specs.Types.{more};
ghost use Rattle.plan_parser.specs.Values as spec;
ghost use Rattle.plan_parser.specs.Values.{value_of, args_of};
ghost use Rattle.plan_parser.specs.ReadTexts.{Reads, Fails};

use crate::item::{TypedValue, begins_value, one_value};
use crate::value_fault::ValueFault;
use crate::values::{MOST_NESTED, past_value, value_to};
use containers::Items;
use plan_base::{Limit, Value, Values};
use plan_lexer::{Symbol, Token, lex};
use plan_parser_exprs::{Ahead, MOST_ARGUMENTS, ParseFault, Wanted};
use std::alloc::Global;

/// Refuses what follows.
#[tactic(auto, unfolding(crate::specs::Values::nothing_follows))]
fn need_end(ahead: &Ahead<'_>) -> Result<(), ParseFault>
    ensures { Answers (spec.nothing_follows ahead.now) result }
{
    if ahead.tokens_left() > 0 {
        return Err(ParseFault::Expected(Wanted::AValue, ahead.place()));
    }
    Ok(())
}

#[tactic(auto, unfolding(crate::specs::Values::argument_at))]
fn argument_at(alloc: Global, ahead: &mut Ahead<'_>) -> Result<Value, ParseFault>
    ensures { Gives (spec.argument_at ahead.old) result ahead.new }
{
    match value_to(alloc, 1, MOST_NESTED + 1, ahead) {
        Ok(item) => {
            let TypedValue { value, ty } = item;
            drop(ty);
            Ok(value)
        }
        Err(fault) => Err(fault),
    }
}

/// Further arguments behind commas.
#[tactic(auto, using(plan_parser_exprs::proofs::Mores::more_ends, plan_parser_exprs::proofs::Mores::more_past, plan_parser_exprs::proofs::Mores::more_stops, plan_parser_exprs::proofs::Mores::more_steps))]
fn more_arguments(alloc: Global, ahead: &mut Ahead<'_>, args: Values) -> Result<Values, ParseFault>
    requires { length args ≤ 8 }
    ensures { Gives (more spec.argument_at spec.begins_value Symbol.Comma Limit.Arguments
        Wanted.AValue (8 - length args) args ahead.old) result ahead.new }
{
    let mut args = args;
    while ahead.is_symbol(Symbol::Comma) {
        ahead.skip();
        if args.len() >= MOST_ARGUMENTS {
            return Err(past_value(ahead, Limit::Arguments));
        }
        args.add(argument_at(alloc, ahead)?)?;
    }
    Ok(args)
}

#[tactic(auto, unfolding(crate::specs::Values::arguments_from))]
fn arguments_from(alloc: Global, ahead: &mut Ahead<'_>) -> Result<Values, ParseFault>
    ensures { Gives (spec.arguments_from ahead.old) result ahead.new }
{
    let first = argument_at(alloc, ahead)?;
    let args = one_value(alloc, first)?;
    match more_arguments(alloc, ahead, args) {
        Ok(args) => match ahead.need_symbol(Symbol::ParenClose) {
            Ok(()) => Ok(args),
            Err(fault) => Err(fault),
        },
        Err(fault) => Err(fault),
    }
}

#[tactic(auto, unfolding(crate::specs::Values::arguments_behind))]
fn arguments_behind(alloc: Global, ahead: &mut Ahead<'_>) -> Result<Values, ParseFault>
    ensures { Gives (spec.arguments_behind ahead.old) result ahead.new }
{
    if ahead.is_symbol(Symbol::ParenClose) {
        ahead.skip();
        return Ok(Items::new(alloc));
    }
    if begins_value(ahead) {
        return arguments_from(alloc, ahead);
    }
    Err(ParseFault::Expected(Wanted::Symbol(Symbol::ParenClose), ahead.place()))
}

#[tactic(auto, unfolding(crate::specs::Values::value_of))]
fn value_of(alloc: Global, tokens: &[Token], end: u32) -> Result<Value, ParseFault>
    ensures { Answers (value_of tokens.now end) result }
{
    let mut ahead = Ahead::over(tokens, end);
    let item = value_to(alloc, 0, MOST_NESTED + 1, &mut ahead)?;
    match need_end(&ahead) {
        Ok(()) => {
            let TypedValue { value, ty } = item;
            drop(ty);
            Ok(value)
        }
        Err(fault) => {
            drop(item);
            Err(fault)
        }
    }
}

#[tactic(auto, unfolding(crate::specs::Values::args_of))]
fn args_of(alloc: Global, tokens: &[Token], end: u32) -> Result<Values, ParseFault>
    ensures { Answers (args_of tokens.now end) result }
{
    let mut ahead = Ahead::over(tokens, end);
    ahead.need_symbol(Symbol::ParenOpen)?;
    let args = arguments_behind(alloc, &mut ahead)?;
    match need_end(&ahead) {
        Ok(()) => Ok(args),
        Err(fault) => Err(fault),
    }
}

/// The value that a text of at most 65,536 bytes is: a literal, `()`, a tuple, `[:t]`, or items of one type in
/// brackets. Else the first refusal.
pub fn parse_value(alloc: Global, text: &[u8]) -> Result<Value, ValueFault>
    requires { length text.now ≤ 65536 }
    ensures found { IfOk result (Reads value_of text.now) }
    ensures only { (v : Value) → Reads value_of text.now v → MatchResult result (λ w. w ≡ v)
        (λ e. e ≡ ValueFault.NoMemory) }
    ensures fault { IfErr result (λ e. (e ≡ ValueFault.NoMemory) ⊎ Fails value_of text.now e) }
    ensures formed { IfOk result (λ v. IsWellFormedValue v) }
    ensures full { IfOk result (λ v. ValueHasTypes v) }
{
    let tokens = lex(alloc, text)?;
    Ok(value_of(alloc, tokens.as_slice(), text.len() as u32)?)
}

/// The arguments that a text of at most 65,536 bytes is: values in round brackets, separated by commas, or `()`.
/// Else the first refusal.
pub fn parse_args(alloc: Global, text: &[u8]) -> Result<Values, ValueFault>
    requires { length text.now ≤ 65536 }
    ensures found { IfOk result (Reads args_of text.now) }
    ensures only { (vs : List Value) → Reads args_of text.now vs → MatchResult result
        (λ ws. ws ≡ vs) (λ e. e ≡ ValueFault.NoMemory) }
    ensures fault { IfErr result (λ e. (e ≡ ValueFault.NoMemory) ⊎ Fails args_of text.now e) }
    ensures formed { IfOk result (λ vs. IsTrue (list_all well_formed_value vs)) }
    ensures full { IfOk result (λ vs. IsTrue (list_all value_has_types vs)) }
    ensures few { IfOk result (λ vs. length vs ≤ 8) }
{
    let tokens = lex(alloc, text)?;
    Ok(args_of(alloc, tokens.as_slice(), text.len() as u32)?)
}
