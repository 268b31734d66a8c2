//! A law: which declarations are instances of a service's type.
ghost use Rattle.std.specs.Prelude.{◌≡◌, ◌↔◌, Some};
ghost use Rattle.plan_base.specs.declared.tree.Ty.{Ty};
ghost use Rattle.plan_base.specs.declared.tree.Svc.{Svc};
ghost use Rattle.service_api.specs.declared.scheme.Scheme.{Scheme};
ghost use Rattle.service_api.specs.Schemes.{IsInstance, instance};

/// The written instances of a service's type are exactly those that `instance` finds.
pub fn instances()
    ensures { (scheme : Scheme) (svc : Svc) (a : Ty) → (instance scheme svc ≡ Some a)
        ↔ IsInstance scheme svc a }
{}
