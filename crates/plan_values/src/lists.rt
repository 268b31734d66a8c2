//! Operators on lists, strings and blobs.
ghost use Rattle.std.specs.Prelude.{◌≡◌, [], ◌∷◌, ◌++◌, IfOk, MatchOption};
ghost use Rattle.plan_base.specs.declared.tree.Value.{out-Value};
ghost use Rattle.plan_base.specs.declared.tree.Value.TheVariants as value;
ghost use Rattle.plan_types_spec.specs.Rules as rules;
ghost use Rattle.plan_values.specs.Answers.{Answers, AnswersUnweighed};

use crate::fault::PrimFault;
use crate::raise::{bad_index, empty, too_large};
use containers::{Boxed, Items};
use plan_base::{Bytes, NoMemory, Text, Ty, Value, Values};
use plan_base_copy::{TryClone, copy_values};
use plan_base_size::weight;
use std::alloc::{AllocError, Global};

/// The value, or `TooLarge` where it weighs more than 16,384 bytes.
#[tactic(auto, unfolding(plan_types_spec::specs::Rules::limited_value))]
fn limit_value(alloc: Global, v: Value) -> Result<Value, PrimFault>
    ensures { Answers (rules.limited_value v) result }
{
    if weight(&v) > 16384 {
        drop(v);
        return Err(too_large(alloc));
    }
    Ok(v)
}

/// `a ^ b`: two strings or two blobs, joined.
pub fn join_values(alloc: Global, a: &Value, b: &Value) -> Result<Value, PrimFault>
    ensures { Answers (rules.joined_values (out-Value a.now) (out-Value b.now)) result }
{
    match a {
        Value::Str(x) => match b {
            Value::Str(y) => limit_value(alloc, Value::Str(joined_text(alloc, x, y)?)),
            _ => Err(PrimFault::Unfit),
        },
        Value::Blob(x) => match b {
            Value::Blob(y) => limit_value(alloc, Value::Blob(joined_bytes(alloc, x, y)?)),
            _ => Err(PrimFault::Unfit),
        },
        Value::Unit
        | Value::Bool(_)
        | Value::Int(_)
        | Value::Char(_)
        | Value::Host(_)
        | Value::Dev(_)
        | Value::Chunk(_)
        | Value::List(_, _)
        | Value::Tuple(_) => Err(PrimFault::Unfit),
    }
}

fn joined_text(alloc: Global, a: &Text, b: &Text) -> Result<Text, NoMemory>
    ensures { IfOk result (λ s. s ≡ a.now ++ b.now) }
{
    let mut s = a.copy(alloc)?;
    s.add_all(b.as_slice())?;
    Ok(s)
}

fn joined_bytes(alloc: Global, a: &Bytes, b: &Bytes) -> Result<Bytes, NoMemory>
    ensures { IfOk result (λ s. s ≡ a.now ++ b.now) }
{
    let mut s = a.copy(alloc)?;
    s.add_all(b.as_slice())?;
    Ok(s)
}

/// `x :: xs`: the list with `x` before its items.
pub fn put_first(alloc: Global, x: &Value, xs: &Value) -> Result<Value, PrimFault>
    ensures { Answers (rules.put_first x.now (out-Value xs.now)) result }
{
    match xs {
        Value::List(t, items) => {
            let t = boxed_copy(alloc, t.get())?;
            match with_first(alloc, x, items.as_slice()) {
                Ok(items) => limit_value(alloc, Value::List(t, items)),
                Err(_) => Err(PrimFault::NoMemory),
            }
        }
        Value::Unit
        | Value::Bool(_)
        | Value::Int(_)
        | Value::Char(_)
        | Value::Str(_)
        | Value::Blob(_)
        | Value::Host(_)
        | Value::Dev(_)
        | Value::Chunk(_)
        | Value::Tuple(_) => Err(PrimFault::Unfit),
    }
}

/// The same type, in a box.
fn boxed_copy(alloc: Global, t: &Ty) -> Result<Boxed<Ty>, NoMemory>
    ensures { IfOk result (λ copied. copied ≡ t.now) }
{
    match t.copy(alloc) {
        Ok(copied) => Ok(Boxed::new(alloc, copied)?),
        Err(fault) => Err(fault),
    }
}

/// A list of one copied value.
fn list_of(alloc: Global, x: &Value) -> Result<Values, NoMemory>
    ensures { IfOk result (λ one. one ≡ x.now ∷ []) }
{
    let mut one = Items::new(alloc);
    match x.copy(alloc) {
        Ok(copied) => {
            one.add(copied)?;
            Ok(one)
        }
        Err(fault) => Err(fault),
    }
}

fn with_first(alloc: Global, x: &Value, items: &[Value]) -> Result<Values, NoMemory>
    ensures { IfOk result (λ all. all ≡ x.now ∷ items.now) }
{
    let mut all = list_of(alloc, x)?;
    all.append(copy_values(alloc, items)?)?;
    Ok(all)
}

/// Items with one more before them.
fn put_before(x: Value, items: Values) -> Result<Values, AllocError>
    ensures { IfOk result (λ all. all ≡ x ∷ items) }
{
    let mut all = items.into_vec();
    all.insert(0, x)?;
    Ok(Items::from_vec(all))
}

/// `x :: xs` of owned values, which isn't weighed yet.
pub fn cons(x: Value, xs: Value) -> Result<Value, PrimFault>
    ensures { AnswersUnweighed (rules.put_first x (out-Value xs)) result }
{
    match xs {
        Value::List(t, items) => match put_before(x, items) {
            Ok(all) => Ok(Value::List(t, all)),
            Err(_) => Err(PrimFault::NoMemory),
        },
        _ => {
            drop(x);
            drop(xs);
            Err(PrimFault::Unfit)
        }
    }
}

/// `hd(xs)`: a copy of the first item.
pub fn first_item(alloc: Global, items: &[Value]) -> Result<Value, PrimFault>
    ensures { Answers (rules.first_item items.now) result }
{
    match items.first() {
        Some(first) => match first.copy(alloc) {
            Ok(copied) => Ok(copied),
            Err(_) => Err(PrimFault::NoMemory),
        },
        None => Err(empty(alloc)),
    }
}

/// `tl(xs)`: a copy of the list without its first item.
pub fn later_items(alloc: Global, t: &Ty, items: &[Value]) -> Result<Value, PrimFault>
    ensures { Answers (rules.later_items t.now items.now) result }
{
    match items {
        [_, later @ ..] => {
            let t = boxed_copy(alloc, t)?;
            match copy_values(alloc, later) {
                Ok(later) => Ok(Value::List(t, later)),
                Err(_) => Err(PrimFault::NoMemory),
            }
        }
        [] => Err(empty(alloc)),
    }
}

/// `blobPart(b, i, n)`: n bytes from place i.
pub fn blob_part(alloc: Global, b: &Bytes, i: i64, n: i64) -> Result<Value, PrimFault>
    ensures { Answers (rules.blob_part b.now i n) result }
{
    match part_between(b.as_slice(), i, n) {
        Some(part) => Ok(Value::Blob(Bytes::of(Vec::from_slice(alloc, part)?))),
        None => Err(bad_index(alloc)),
    }
}

/// The `n` bytes from place `i`, where they are all there.
fn part_between(b: &[u8], i: i64, n: i64) -> Option<&[u8]>
    ensures { MatchOption result (rules.blob_part b.now i n ≡ rules.raises rules.bad_index) (λ p.
        rules.blob_part b.now i n ≡ rules.gives (value.Blob p.now)) }
{
    if i < 0 || n < 0 {
        return None;
    }
    let from = i.unsigned_abs() as usize;
    let count = n.unsigned_abs() as usize;
    if from > b.len() || count > b.len() - from {
        return None;
    }
    Some(&b[from..from + count])
}
