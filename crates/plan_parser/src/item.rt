//! Values with their types.
ghost use Rattle.std.specs.Prelude.{◌≡◌, [], ◌∷◌, ◌++◌, Result, Ok, Err, Some, None, is_some, IfErr, OnOk};
ghost use Rattle.plan_parser_exprs.specs.Ahead.{Gives, Answers, next_kind};
ghost use Rattle.plan_parser.specs.Values as spec;

use containers::{Boxed, Items};
use plan_base::{Dev, Host, Ty, Tys, Value, Values};
use plan_base_copy::TryClone;
use plan_lexer::{Key, Symbol, TokenKind};
use plan_parser_exprs::{Ahead, ParseFault, Wanted};
use std::alloc::Global;

/// A value with its type.
#[derive(Drop)]
pub struct TypedValue {
    pub value: Value,
    pub ty: Ty,
}

pub fn with_type(value: Value, ty: Ty) -> TypedValue
    ensures { result ≡ spec.typed_value value ty }
{
    TypedValue { value, ty }
}

fn literal_key(key: Key) -> Option<TypedValue>
    ensures { result ≡ spec.literal_key key }
{
    match key {
        Key::True => Some(with_type(Value::Bool(true), Ty::Bool)),
        Key::False => Some(with_type(Value::Bool(false), Ty::Bool)),
        _ => None,
    }
}

/// The value that the next token is by itself.
fn literal(alloc: Global, ahead: &Ahead<'_>) -> Result<Option<TypedValue>, ParseFault>
    ensures { Answers (Ok (spec.literal (next_kind ahead.now))) result }
{
    match ahead.next() {
        Some(TokenKind::Int(number)) => Ok(Some(with_type(Value::Int(*number), Ty::Int))),
        Some(TokenKind::Host(number)) => Ok(Some(with_type(Value::Host(Host(*number)), Ty::Host))),
        Some(TokenKind::Dev(number)) => Ok(Some(with_type(Value::Dev(Dev(*number)), Ty::Dev))),
        Some(TokenKind::Char(scalar)) => Ok(Some(with_type(Value::Char(*scalar), Ty::Char))),
        Some(TokenKind::Str(text)) => Ok(Some(with_type(Value::Str(text.copy(alloc)?), Ty::Str))),
        Some(TokenKind::Blob(bytes)) => Ok(Some(with_type(
            Value::Blob(bytes.copy(alloc)?),
            Ty::Blob,
        ))),
        Some(TokenKind::Key(key)) => Ok(literal_key(*key)),
        _ => Ok(None),
    }
}

/// Whether a reserved word is a value by itself.
fn is_literal_key(key: Key) -> bool
    ensures { result ≡ is_some (spec.literal_key key) }
{
    match key {
        Key::True | Key::False => true,
        _ => false,
    }
}

/// Whether the next token is a value by itself.
fn is_literal(ahead: &Ahead<'_>) -> bool
    ensures { result ≡ is_some (spec.literal (next_kind ahead.now)) }
{
    match ahead.next() {
        Some(TokenKind::Int(_)) => true,
        Some(TokenKind::Host(_)) => true,
        Some(TokenKind::Dev(_)) => true,
        Some(TokenKind::Char(_)) => true,
        Some(TokenKind::Str(_)) => true,
        Some(TokenKind::Blob(_)) => true,
        Some(TokenKind::Key(key)) => is_literal_key(*key),
        _ => false,
    }
}

/// Whether a value may begin here.
#[tactic(auto, unfolding(crate::specs::Values::begins_value))]
pub fn begins_value(ahead: &Ahead<'_>) -> bool
    ensures { result ≡ spec.begins_value ahead.now }
{
    is_literal(ahead)
        || (ahead.is_symbol(Symbol::ParenOpen) || ahead.is_symbol(Symbol::BracketOpen))
}

/// Takes the literal that must stand next.
pub fn literal_at(alloc: Global, ahead: &mut Ahead<'_>) -> Result<TypedValue, ParseFault>
    ensures { Gives (spec.literal_from ahead.old (spec.literal (next_kind ahead.old)))
        result ahead.new }
{
    let Some(item) = literal(alloc, ahead)? else {
        return Err(ParseFault::Expected(Wanted::AValue, ahead.place()));
    };
    ahead.skip();
    Ok(item)
}

/// Adds a value and its type.
fn add_item(values: &mut Values, types: &mut Tys, item: TypedValue) -> Result<(), ParseFault>
    ensures whole { OnOk result ((values.new ≡ values.old ++ item.value ∷ []) × (types.new ≡
        types.old ++ item.ty ∷ [])) }
    ensures fault { IfErr result (λ e. e ≡ ParseFault.NoMemory) }
{
    let TypedValue { value, ty } = item;
    match values.add(value) {
        Ok(()) => Ok(types.add(ty)?),
        Err(_refused) => {
            drop(ty);
            Err(ParseFault::NoMemory)
        }
    }
}

/// Several values as a tuple.
#[tactic(auto, using(crate::proofs::Items::values_last, crate::proofs::Items::types_last))]
pub fn tuple_of(alloc: Global, items: Items<TypedValue>) -> Result<TypedValue, ParseFault>
    ensures { Answers (Ok (spec.tuple_of items)) result }
{
    let mut values = Items::new(alloc);
    let mut types = Items::new(alloc);
    for item in items.into_vec() {
        add_item(&mut values, &mut types, item)?;
    }
    Ok(TypedValue {
        value: Value::Tuple(values),
        ty: Ty::Tuple(types),
    })
}

/// Values of one type as a list.
pub fn list_of(alloc: Global, ty: Ty, values: Values) -> Result<TypedValue, ParseFault>
    ensures { Answers (Ok (spec.list_of ty values)) result }
{
    match boxed_twice(alloc, ty) {
        Ok((of, item)) => Ok(TypedValue {
            value: Value::List(of, values),
            ty: Ty::List(item),
        }),
        Err(fault) => Err(fault),
    }
}

/// A type and a copy of it, in boxes.
fn boxed_twice(alloc: Global, ty: Ty) -> Result<(Boxed<Ty>, Boxed<Ty>), ParseFault>
    ensures { Answers (Ok (ty, ty)) result }
{
    match ty.copy(alloc) {
        Ok(copy) => match Boxed::new(alloc, copy) {
            Ok(copy) => match Boxed::new(alloc, ty) {
                Ok(ty) => Ok((copy, ty)),
                Err(_refused) => Err(ParseFault::NoMemory),
            },
            Err(_refused) => {
                drop(ty);
                Err(ParseFault::NoMemory)
            }
        },
        Err(_refused) => {
            drop(ty);
            Err(ParseFault::NoMemory)
        }
    }
}

/// One value, as a list.
pub fn one_value(alloc: Global, value: Value) -> Result<Values, ParseFault>
    ensures { Answers (Ok (value ∷ [])) result }
{
    let mut values = Items::new(alloc);
    values.add(value)?;
    Ok(values)
}
