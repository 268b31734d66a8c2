//! A value with what it weighs.
ghost use Rattle.std.specs.Prelude.{◌≡◌, min, IfOk};
ghost use Rattle.plan_base.specs.declared.tree.Value as value;
ghost use Rattle.plan_base.specs.Sizes as sizes;
ghost use Rattle.plan_meaning.specs.Meaning as spec;

use plan_base::{NoMemory, Value};
use plan_base_copy::TryClone;
use plan_base_size::{nesting, weight};
use std::alloc::Global;
use std::marker::Model;
use visit_state::as_int;

/// A value with its weight and its nesting, which are so never counted again. Contracts see the value.
#[derive(Drop)]
pub struct Slot {
    value: Value,
    weight: u64,
    nesting: u32,
}

impl Model for Slot {
    ghost use Rattle.std.specs.Prelude.{◌≡◌, min};
    ghost use Rattle.plan_base.specs.declared.tree.Value.{Value as AValue};
    ghost use Rattle.plan_base.specs.contracts.tree.Value as value_type;
    ghost use Rattle.plan_base.specs.Sizes as sizes;

    ghost Value = { AValue };

    ghost coded = { value_type.the_row.coded };

    ghost view = { λ s. s.value };

    ghost invariant = { λ s. (s.weight ≡ min (sizes.weight s.value) 18446744073709551615) ×
        (s.nesting ≡ min (sizes.nesting s.value) 4294967295) };
}

impl Slot {
    /// A value, which is weighed.
    pub fn of(value: Value) -> Slot
        ensures { result ≡ value }
    {
        let weight = weight(&value);
        let nesting = nesting(&value);
        Slot {
            value,
            weight,
            nesting,
        }
    }

    /// A value whose weight and nesting are known.
    pub fn weighed(value: Value, weight: u64, nesting: u32) -> Slot
        requires weight { weight ≡ min (sizes.weight value) 18446744073709551615 }
        requires nesting { nesting ≡ min (sizes.nesting value) 4294967295 }
        ensures { result ≡ value }
    {
        Slot {
            value,
            weight,
            nesting,
        }
    }

    /// A number.
    #[tactic(auto, using(plan_base::proofs::SizeLaws::weight_out, plan_base::proofs::SizeLaws::nesting_out, plan_base::specs::Trees::trees))]
    pub fn number(n: i64) -> Slot
        ensures { result ≡ value.Int n }
    {
        Slot::weighed(Value::Int(n), 9, 0)
    }

    /// A truth value.
    #[tactic(auto, using(plan_base::proofs::SizeLaws::weight_out, plan_base::proofs::SizeLaws::nesting_out, plan_base::specs::Trees::trees))]
    pub fn truth(b: bool) -> Slot
        ensures { result ≡ value.Bool b }
    {
        Slot::weighed(Value::Bool(b), 2, 0)
    }

    /// The same value, which isn't weighed again.
    pub fn copy(&self, alloc: Global) -> Result<Slot, NoMemory>
        ensures { IfOk result (λ s. s ≡ self.now) }
    {
        let value = self.value.copy(alloc)?;
        Ok(Slot {
            value,
            weight: self.weight,
            nesting: self.nesting,
        })
    }

    /// The value, lent.
    pub fn get(&self) -> &Value
        ensures { result.now ≡ self.now }
    {
        &self.value
    }

    /// The number that the value is.
    pub fn as_number(&self) -> Option<i64>
        ensures { result ≡ spec.as_int self.now }
    {
        as_int(&self.value)
    }

    /// The value.
    pub fn into_value(self) -> Value
        ensures { result ≡ self }
    {
        let Slot {
            value,
            weight: _weight,
            nesting: _nesting,
        } = self;
        value
    }

    /// What it weighs, or 2^64 - 1 where that is more.
    pub fn weight(&self) -> u64
        ensures { result ≡ min (sizes.weight self.now) 18446744073709551615 }
    {
        self.weight
    }

    /// How deep chunks stand in it, or 2^32 - 1 where that is more.
    pub fn nesting(&self) -> u32
        ensures { result ≡ min (sizes.nesting self.now) 4294967295 }
    {
        self.nesting
    }
}
