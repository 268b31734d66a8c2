//! Laws of operators: from operands that fit comes a value or an exception.
ghost use Rattle.std.specs.Prelude.{◌≡◌, ◌↔◌, ℕ, IsTrue, List, Some};
ghost use Rattle.plan_base.specs.declared.prim.Primitive.{Primitive};
ghost use Rattle.plan_base.specs.declared.tree.Op.{Op};
ghost use Rattle.plan_base.specs.declared.tree.Ty.{Ty};
ghost use Rattle.plan_base.specs.declared.tree.Ty as ty;
ghost use Rattle.plan_base.specs.declared.tree.Value.{Value};
ghost use Rattle.plan_types_spec.specs.Typing.{HasType, HaveTypes};
ghost use Rattle.plan_types_spec.specs.TypingNames.{part_of};
ghost use Rattle.plan_types_spec.specs.Rules as rules;
ghost use Rattle.plan_types_spec.specs.Same.{same_value};
ghost use Rattle.plan_types_spec.specs.Typed.{OperatorTakes, PrimitiveTakes, Fits};

/// `=` says whether two values are the same.
pub fn equality()
    ensures { (a b : Value) → IsTrue (same_value a b) ↔ (a ≡ b) }
{}

/// From operands of the types that they take, operators, parts and primitives give a value of the type that they give, or an
/// exception: the rules have a case.
pub fn operands_fit()
    ensures operators { (o : Op) (a b : Value) (t u r : Ty) → OperatorTakes o t u r → HasType a t
        → HasType b u → Fits r (rules.binary o a b) }
    ensures parts { (i : ℕ) (v : Value) (ts : List Ty) (t : Ty) → HasType v (ty.Tuple ts)
        → part_of i ts ≡ Some t → Fits t (rules.part i v) }
    ensures primitives { (p : Primitive) (vs : List Value) (ts : List Ty) (r : Ty)
        → PrimitiveTakes p ts r → HaveTypes vs ts → Fits r (rules.primitive p vs) }
{}
