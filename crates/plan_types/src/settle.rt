//! What comes last at an expression: the depth of its type, and whether it is the wanted one.

ghost use Rattle.std.specs.Prelude.{◌≡◌, ◌≢◌, Some, None, Err, option_and_then, length};
ghost use Rattle.std.specs.Option.{option_copied};
ghost use Rattle.plan_types_spec.specs.TypingOrder as spec;
ghost use Rattle.plan_types_spec.specs.TypingNames as names;
ghost use Rattle.plan_types.specs.Checks.{Meets};

use containers::Boxed;
use plan_base::{Expr, NoMemory, Place, Primitive, Ty, Tys};
use plan_base_copy::TryClone;
use plan_base_eq::SameAs;
use plan_base_size::HasDepth;
use plan_types_spec::TypeFault;
use std::alloc::Global;

/// The refusal of an expression, which is dropped.
pub fn refuse_expr(e: Expr, fault: TypeFault) -> Result<(Expr, Ty), TypeFault>
    ensures { result ≡ Err fault }
{
    drop(e);
    Err(fault)
}

/// The fault where another type is wanted, or memory that was refused for it.
fn mismatch(alloc: Global, at: u32, wanted: &Ty, ty: Ty) -> TypeFault
    ensures { result ≢ TypeFault.NoMemory → result ≡ TypeFault.Mismatch (Place.Node at) wanted.now
        ty }
{
    match wanted.copy(alloc) {
        Ok(wanted) => TypeFault::Mismatch(Place::Node(at), wanted, ty),
        Err(NoMemory) => {
            drop(ty);
            TypeFault::NoMemory
        }
    }
}

/// The answer for an expression of that type, unless another type is wanted.
#[tactic(auto, unfolding(plan_types_spec::specs::TypingOrder::settled_type))]
pub fn settle_type(
    alloc: Global,
    at: u32,
    node: u32,
    want: Option<&Ty>,
    e: Expr,
    ty: Ty,
) -> Result<(Expr, Ty), TypeFault>
    ensures { Meets (spec.settled_type at (option_copied want.entry) e ty node) result node }
{
    match want {
        None => Ok((e, ty)),
        Some(wanted) => {
            if wanted.is(&ty) {
                Ok((e, ty))
            } else {
                refuse_expr(e, mismatch(alloc, at, wanted, ty))
            }
        }
    }
}

/// The same for a type that may be too deep.
#[tactic(auto, unfolding(plan_types_spec::specs::TypingOrder::shallow))]
pub fn shallow(
    alloc: Global,
    at: u32,
    node: u32,
    want: Option<&Ty>,
    e: Expr,
    ty: Ty,
) -> Result<(Expr, Ty), TypeFault>
    ensures { Meets (spec.shallow at (option_copied want.entry) e ty node) result node }
{
    if ty.depth() <= 8 {
        settle_type(alloc, at, node, want, e, ty)
    } else {
        drop(ty);
        refuse_expr(e, TypeFault::TypeTooDeep(Place::Node(at)))
    }
}

/// The type of lists of that item.
pub fn list_of(alloc: Global, item: Ty) -> Result<Ty, NoMemory>
    ensures { Rattle.std.specs.Prelude.IfOk result (λ t. t ≡ Ty.List item) }
{
    Ok(Ty::List(Boxed::new(alloc, item)?))
}

/// The type of the items, where a list is wanted.
#[tactic(auto, using(plan_base::specs::Trees::trees))]
pub fn items_of<'a>(want: Option<&'a Ty>) -> Option<&'a Ty>
    ensures { option_copied result ≡ option_and_then spec.items_of (option_copied want.entry) }
{
    match want {
        Some(Ty::List(item)) => Some(item.get()),
        _ => None,
    }
}

/// The types of the parts, where a tuple of so many parts is wanted.
#[tactic(auto, using(plan_base::specs::Trees::trees))]
pub fn parts_of<'a>(count: usize, want: Option<&'a Ty>) -> Option<&'a Tys>
    ensures { option_copied result ≡ option_and_then (spec.parts_of count) (option_copied
        want.entry) }
{
    match want {
        Some(Ty::Tuple(parts)) if parts.len() == count => Some(parts),
        _ => None,
    }
}

/// The type of a tuple's part with that number, from 1.
#[tactic(auto, using(plan_base::specs::Trees::trees))]
pub fn part_in<'a>(number: u8, ty: &'a Ty) -> Option<&'a Ty>
    ensures { option_copied result ≡ spec.part_in number ty.now }
{
    match ty {
        Ty::Tuple(parts) => part_of(number, parts),
        _ => None,
    }
}

fn part_of<'a>(number: u8, parts: &'a Tys) -> Option<&'a Ty>
    ensures { option_copied result ≡ names.part_of number parts.now }
{
    if number == 0 {
        None
    } else {
        parts.get(number as usize - 1)
    }
}

/// Whether `^` joins values of that type.
#[tactic(auto, using(plan_base::specs::Trees::trees))]
pub fn is_joined(ty: &Ty) -> bool
    ensures { result ≡ names.is_joined ty.now }
{
    matches!(ty, Ty::Str | Ty::Blob)
}

/// Whether `<` and its like compare values of that type.
#[tactic(auto, using(plan_base::specs::Trees::trees))]
pub fn is_ordered(ty: &Ty) -> bool
    ensures { result ≡ names.is_ordered ty.now }
{
    matches!(ty, Ty::Int | Ty::Char | Ty::Str)
}

/// The type that is wanted of the part at that place.
pub fn want_at<'a>(wants: Option<&'a Tys>, i: usize) -> Option<&'a Ty>
    ensures { option_copied result ≡ spec.want_at (option_copied wants.entry) i }
{
    match wants {
        None => None,
        Some(types) => types.get(i),
    }
}
