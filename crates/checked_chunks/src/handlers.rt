//! Functions of a name, and whether they may handle.

ghost use Rattle.std.specs.Prelude.{◌≡◌, Some};
ghost use Rattle.std.specs.Option.{option_copied};
ghost use Rattle.plan_base.specs.declared.tree.Ty as ty;
ghost use Rattle.plan_types_spec.specs.Handlers as spec;
ghost use Rattle.plan_types_spec.specs.TypingOrder as order;

use plan_base::{Fun, Name, Param, Program, Ty};
use plan_types_spec::place_of;

/// The function of that name, wherever it stands.
pub fn fun_of<'a>(code: &'a Program, name: &Name) -> Option<&'a Fun>
    ensures { option_copied result ≡ order.fun_of code.now name.now }
{
    code.funs.get(place_of(name, code.funs.as_slice())?)
}

fn is_string(t: &Ty) -> bool
    ensures { result ≡ spec.is_string (ty.out-Ty t.now) }
{
    matches!(t, Ty::Str)
}

fn is_unit(t: &Ty) -> bool
    ensures { result ≡ spec.is_unit (ty.out-Ty t.now) }
{
    matches!(t, Ty::Unit)
}

fn is_one_string(params: &[Param]) -> bool
    ensures { result ≡ spec.is_one_string params.now }
{
    match params {
        [p] => is_string(&p.ty),
        _ => false,
    }
}

fn handles(d: &Fun) -> bool
    ensures { result ≡ spec.handles (Some d.now) }
{
    is_one_string(d.params.as_slice()) && is_unit(&d.result)
}

/// Whether a name is that of a function which may handle: it takes one string and gives unit.
#[tactic(auto, unfolding(plan_types_spec::specs::Handlers::is_handler))]
pub fn is_handler(code: &Program, name: &Name) -> bool
    ensures { result ≡ spec.is_handler code.now name.now }
{
    match fun_of(code, name) {
        None => false,
        Some(d) => handles(d),
    }
}
