//! A law: which values have a type.
ghost use Rattle.std.specs.Prelude.{◌↔◌, IsTrue};
ghost use Rattle.plan_base.specs.declared.tree.Ty.{Ty};
ghost use Rattle.plan_base.specs.declared.tree.Value.{Value};
ghost use Rattle.plan_base.specs.WellFormed.{IsWellFormedValue, ValueHasTypes};
ghost use Rattle.plan_types_spec.specs.Typing.{HasType};
ghost use Rattle.plan_types_chunks.specs.Chunks.{fits, sound};

/// A value has a type exactly where its shape has it and no chunk inside it is too large or ill.
pub fn values_have_types()
    ensures { (v : Value) (t : Ty) → IsWellFormedValue v → ValueHasTypes v → HasType v t ↔
        (IsTrue (fits v t) × IsTrue (sound v)) }
{}
