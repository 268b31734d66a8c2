//! The types that declarations take for `Any`, for the services that programs call most: no scheme is made.
ghost use Rattle.std.specs.Prelude.{◌≡◌, ◌↔◌, IfSome, IsTrue};
ghost use Rattle.std.specs.Option.{option_copied};
ghost use Rattle.plan_base.specs.declared.tree.Svc.{Svc as ASvc};
ghost use Rattle.plan_base.specs.declared.tree.Ty.TheVariants as ty;
ghost use Rattle.service_api.specs.Schemes.{instance};
ghost use Rattle.service_registry_spec.specs.Offered.{type_of};

use plan_base::{Svc, Ty};
use service_registry_spec::Service;

#[tactic(auto, using(plan_base::specs::Trees::trees))]
fn is_unit(t: &Ty) -> bool
    ensures { IsTrue result ↔ (t.now ≡ ty.Unit) }
{
    matches!(t, Ty::Unit)
}

#[tactic(auto, using(plan_base::specs::Trees::trees))]
fn is_int(t: &Ty) -> bool
    ensures { IsTrue result ↔ (t.now ≡ ty.Int) }
{
    matches!(t, Ty::Int)
}

#[tactic(auto, using(plan_base::specs::Trees::trees))]
fn is_text(t: &Ty) -> bool
    ensures { IsTrue result ↔ (t.now ≡ ty.Str) }
{
    matches!(t, Ty::Str)
}

/// Whether these are a text and a number, as the name and the number of a row.
fn is_key(name: &Ty, number: &Ty) -> bool
    ensures { IsTrue result ↔ ((name.now ≡ ty.Str) × (number.now ≡ ty.Int)) }
{
    is_text(name) && is_int(number)
}

/// Whether these are a number and unit, which is what comes back.
fn is_act(number: &Ty, back: &Ty) -> bool
    ensures { IsTrue result ↔ ((number.now ≡ ty.Int) × (back.now ≡ ty.Unit)) }
{
    is_int(number) && is_unit(back)
}

fn is_put(name: &Ty, number: &Ty, life: &Ty, back: &Ty) -> bool
    ensures { IsTrue result ↔ (((name.now ≡ ty.Str) × (number.now ≡ ty.Int))
        × ((life.now ≡ ty.Int) × (back.now ≡ ty.Unit))) }
{
    is_key(name, number) && is_act(life, back)
}

fn is_removal(name: &Ty, number: &Ty, back: &Ty) -> bool
    ensures { IsTrue result ↔ ((name.now ≡ ty.Str)
        × ((number.now ≡ ty.Int) × (back.now ≡ ty.Unit))) }
{
    is_text(name) && is_act(number, back)
}

/// The type at which `put` keeps a value.
fn put_type<'a>(params: &'a [Ty], back: &Ty) -> Option<&'a Ty>
    ensures { (svc : ASvc) → svc.params ≡ params.now → svc.result ≡ back.now
        → option_copied result ≡ instance (type_of Service.Put) svc }
{
    if params.len() != 4 {
        return None;
    }
    if is_put(&params[0], &params[1], &params[3], back) {
        return Some(&params[2]);
    }
    None
}

/// The type at which `get` asks for a value.
fn got_type<'a>(params: &[Ty], back: &'a Ty) -> Option<&'a Ty>
    ensures { (svc : ASvc) → svc.params ≡ params.now → svc.result ≡ back.now
        → option_copied result ≡ instance (type_of Service.Get) svc }
{
    if params.len() != 2 {
        return None;
    }
    if is_key(&params[0], &params[1]) {
        return Some(back);
    }
    None
}

/// The unit type, where the declaration is one of `remove`.
fn removed_type<'a>(params: &[Ty], back: &Ty, unit: &'a Ty) -> Option<&'a Ty>
    requires { unit.now ≡ ty.Unit }
    ensures { (svc : ASvc) → svc.params ≡ params.now → svc.result ≡ back.now
        → option_copied result ≡ instance (type_of Service.Remove) svc }
{
    if params.len() != 2 {
        return None;
    }
    if is_removal(&params[0], &params[1], back) {
        return Some(unit);
    }
    None
}

/// The type at which `print` takes a value.
fn printed_type<'a>(params: &'a [Ty], back: &Ty) -> Option<&'a Ty>
    ensures { (svc : ASvc) → svc.params ≡ params.now → svc.result ≡ back.now
        → option_copied result ≡ instance (type_of Service.Print) svc }
{
    if params.len() != 1 {
        return None;
    }
    if is_unit(back) {
        return Some(&params[0]);
    }
    None
}

/// The type at which `deliver` takes a value.
fn delivered_type<'a>(params: &'a [Ty], back: &Ty) -> Option<&'a Ty>
    ensures { (svc : ASvc) → svc.params ≡ params.now → svc.result ≡ back.now
        → option_copied result ≡ instance (type_of Service.Deliver) svc }
{
    if params.len() != 2 {
        return None;
    }
    if is_act(&params[0], back) {
        return Some(&params[1]);
    }
    None
}

/// What the declaration takes for `Any` or that it is no instance, for these services; `None` for the others.
pub fn type_at_hand<'a>(service: Service, svc: &'a Svc, unit: &'a Ty) -> Option<Option<&'a Ty>>
    requires { unit.now ≡ ty.Unit }
    ensures { IfSome result (λ t. option_copied t ≡ instance (type_of service) svc.now) }
{
    let params = svc.params.as_slice();
    let back = &svc.result;
    match service {
        Service::Put => Some(put_type(params, back)),
        Service::Get => Some(got_type(params, back)),
        Service::Remove => Some(removed_type(params, back, unit)),
        Service::Print => Some(printed_type(params, back)),
        Service::Deliver => Some(delivered_type(params, back)),
        _ => None,
    }
}
