//! How names are found: exceptions, functions and bindings.

ghost use Rattle.std.specs.Prelude.{◌≡◌, not, take, drop};
ghost use Rattle.std.specs.List.{list_any};
ghost use Rattle.std.specs.Option.{option_copied};
ghost use Rattle.plan_types_spec.specs.TypingNames as spec;
ghost use Rattle.plan_types_spec.specs.TypingOrder as order;

use plan_base::{Clause, Fun, Name, Param, Program, Ty};
use plan_types_spec::place_of;

/// Whether a name stands among others.
pub fn has_name(names: &[Name], name: &Name) -> bool
    ensures { result ≡ spec.has_name names.now name.now }
{
    names.iter().any(|n| n.is(name))
}

/// Whether operators and primitives raise an exception of that name.
fn is_of_values(name: &Name) -> bool
    ensures { result ≡ spec.has_name (take 5 spec.built_in) name.now }
{
    let name = name.as_slice();
    b"Overflow".as_slice() == name
        || b"DivByZero".as_slice() == name
        || b"Empty".as_slice() == name
        || b"BadIndex".as_slice() == name
        || b"TooLarge".as_slice() == name
}

/// Whether sends and services raise an exception of that name.
fn is_of_sends(name: &Name) -> bool
    ensures { result ≡ spec.has_name (drop 5 spec.built_in) name.now }
{
    let name = name.as_slice();
    b"NoBound".as_slice() == name
        || b"NoService".as_slice() == name
        || b"NoRoute".as_slice() == name
        || b"NotNeighbor".as_slice() == name
        || b"TableFull".as_slice() == name
        || b"NotFound".as_slice() == name
}

/// Whether an exception of that name is built in.
pub fn is_built_in(name: &Name) -> bool
    ensures { result ≡ spec.has_name spec.built_in name.now }
{
    is_of_values(name) || is_of_sends(name)
}

/// Whether the exception may be raised in the program.
pub fn is_exception(code: &Program, name: &Name) -> bool
    ensures { result ≡ spec.is_exception code.now name.now }
{
    is_built_in(name) || has_name(code.exns.as_slice(), name)
}

/// Whether a clause may catch that.
pub fn may_catch(code: &Program, name: &Option<Name>) -> bool
    ensures { result ≡ spec.may_catch code.now name.now }
{
    match name {
        None => true,
        Some(name) => is_exception(code, name),
    }
}

/// Whether a clause names no exception of the program.
pub fn any_unknown(code: &Program, clauses: &[Clause]) -> bool
    ensures { result ≡ list_any (λ k. not (spec.may_catch code.now k.name)) clauses.now }
{
    clauses.iter().any(|k| !may_catch(code, &k.name))
}

/// The function of that name among the first `seen`.
#[tactic(auto, using(std::proofs::lemmas::List::take_min))]
pub fn earlier<'a>(code: &'a Program, seen: usize, name: &Name) -> Option<&'a Fun>
    ensures { option_copied result ≡ order.earlier code.now seen name.now }
{
    let funs = code.funs.as_slice();
    let before = &funs[..seen.min(funs.len())];
    code.funs.get(place_of(name, before)?)
}

/// The type of the innermost binding of that name.
pub fn binding<'a>(name: &Name, ctx: &'a [Param]) -> Option<&'a Ty>
    ensures { option_copied result ≡ spec.binding name.now ctx.now }
{
    let mut left = ctx.len();
    while left > 0 {
        left -= 1;
        if ctx[left].name.is(name) {
            return Some(&ctx[left].ty);
        }
    }
    None
}
