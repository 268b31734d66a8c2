//! Matches a declared service with the type of an offered one.
ghost use Rattle.std.specs.Prelude.{◌≡◌, ◌↔◌, Some, IfOk, IsTrue, MatchOption, Option, None, option_copied};
ghost use Rattle.plan_base.specs.declared.tree.Ty.{Ty as AType};
ghost use Rattle.service_api.specs.Schemes as spec;

use crate::scheme::{Scheme, SchemeTy};
use plan_base::{NoMemory, Svc, Ty};
use plan_base_copy::TryClone;
use plan_base_eq::SameAs;
use std::alloc::Global;

/// What a type of the row stands for where `Any` is `a`.
fn stands_for<'a>(a: &'a Ty, s: &'a SchemeTy) -> &'a Ty
    ensures { result.now ≡ spec.stands_for a.now s.now }
{
    match s {
        SchemeTy::Any => a,
        SchemeTy::Is(t) => t,
    }
}

fn taken_by<'a>(s: &SchemeTy, t: &'a Ty, later: Option<&'a Ty>) -> Option<&'a Ty>
    ensures { option_copied result ≡ spec.taken_by s.now t.now (option_copied later.entry) }
{
    match s {
        SchemeTy::Any => Some(t),
        SchemeTy::Is(_) => later,
    }
}

/// The type at the first place of `Any`, else `later`.
fn taken_among<'a>(schemes: &[SchemeTy], types: &'a [Ty], later: Option<&'a Ty>) -> Option<&'a Ty>
    ensures { option_copied result ≡ spec.taken_among schemes.now types.now (option_copied
        later.entry) }
{
    let mut wanted = schemes;
    let mut declared = types;
    while let [s, ss @ ..] = wanted {
        let [t, ts @ ..] = declared else {
            return later;
        };
        match s {
            SchemeTy::Any => return Some(t),
            SchemeTy::Is(_) => {
                wanted = ss;
                declared = ts;
            }
        }
    }
    later
}

fn same_all(a: &Ty, schemes: &[SchemeTy], types: &[Ty]) -> bool
    ensures { result ≡ spec.same_all a.now schemes.now types.now }
{
    let mut wanted = schemes;
    let mut declared = types;
    while let [s, ss @ ..] = wanted {
        let [t, ts @ ..] = declared else {
            return false;
        };
        if !t.is(stands_for(a, s)) {
            return false;
        }
        wanted = ss;
        declared = ts;
    }
    declared.is_empty()
}

fn tests_instance(scheme: &Scheme, svc: &Svc, a: &Ty) -> bool
    ensures { result ≡ spec.tests_instance scheme.now svc.now a.now }
{
    same_all(a, scheme.params.as_slice(), svc.params.as_slice())
        && svc.result.is(stands_for(a, &scheme.result))
}

/// The type that a declared service has for `Any`, or unit where the row has none.
#[tactic(auto, unfolding(crate::specs::Schemes::any_type))]
fn taken_type(alloc: Global, scheme: &Scheme, svc: &Svc) -> Result<Ty, NoMemory>
    ensures { IfOk result (λ t. t ≡ spec.any_type scheme.now svc.now) }
{
    let later = taken_by(&scheme.result, &svc.result, None);
    match taken_among(scheme.params.as_slice(), svc.params.as_slice(), later) {
        Some(t) => t.copy(alloc),
        None => Ok(Ty::Unit),
    }
}

/// The type that `svc` has for `Any`, unit where the row has none, or `None` where it is no instance of `scheme`.
#[tactic(auto, unfolding(crate::specs::Schemes::instance), using(crate::proofs::InstanceLaws::instance_exact))]
pub fn instance(alloc: Global, scheme: &Scheme, svc: &Svc) -> Result<Option<Ty>, NoMemory>
    ensures found { IfOk result (λ t. t ≡ spec.instance scheme.now svc.now) }
    ensures exact { IfOk result (λ t. (a : AType) → (t ≡ Some a)
        ↔ spec.IsInstance scheme.now svc.now a) }
{
    let a = taken_type(alloc, scheme, svc)?;
    if tests_instance(scheme, svc, &a) {
        Ok(Some(a))
    } else {
        Ok(None)
    }
}
