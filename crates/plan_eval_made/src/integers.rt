//! Operators of two numbers.
ghost use Rattle.std.specs.Prelude.{◌≡◌, IfSome};
ghost use Rattle.plan_base.specs.declared.tree.Value as value;
ghost use Rattle.plan_types_spec.specs.Rules as rules;

use plan_base::Op;

/// The number that an operator gives of two numbers, where it gives one.
#[tactic(auto, using(plan_values::proofs::NumberLaws::bounded_in, plan_values::proofs::NumberLaws::quotients, plan_values::proofs::NumberLaws::remainders))]
pub fn number_of(op: Op, x: i64, y: i64) -> Option<i64>
    ensures { IfSome result (λ n. rules.computed_number op x y ≡ rules.gives (value.Int n)) }
{
    match op {
        Op::Add => x.checked_add(y),
        Op::Sub => x.checked_sub(y),
        Op::Mul => x.checked_mul(y),
        Op::Div if y != 0 => x.checked_div(y),
        Op::Mod if y != 0 => Some(x.wrapping_rem(y)),
        _ => None,
    }
}

/// What a test of the order of two numbers gives.
#[tactic(auto, using(crate::proofs::Counted::lt_is, crate::proofs::Counted::le_is, crate::proofs::Counted::gt_is, crate::proofs::Counted::ge_is))]
pub fn order_of(op: Op, x: i64, y: i64) -> Option<bool>
    ensures { IfSome result (λ b. rules.binary op (value.Int x) (value.Int y) ≡ rules.gives
        (value.Bool b)) }
{
    match op {
        Op::Lt => Some(x < y),
        Op::Le => Some(!(y < x)),
        Op::Gt => Some(y < x),
        Op::Ge => Some(!(x < y)),
        _ => None,
    }
}
