//! Values taken off the stack, in the order in which they came onto it.
ghost use Rattle.std.specs.Prelude.{◌≡◌, ◌∷◌, ◌++◌, [], List, length, reverse, min, IfOk, OnOk, OnErr};
ghost use Rattle.std.specs.List.{sum_by};
ghost use Rattle.plan_base.specs.Sizes as sizes;
ghost use Rattle.plan_base.specs.declared.tree.Value.{Value as AValue};
ghost use Rattle.plan_eval_made.specs.Makes.{Stays};

use containers::Items;
use plan_base::{NoMemory, Value, Values};
use plan_eval_state::{Run, Slot};
use std::alloc::{AllocError, Global};
use std::marker::Model;

/// Values in order, of which the last one came first, with what they weigh in sum and how deep chunks stand in them.
/// Contracts see the values.
#[derive(Drop)]
pub struct Row {
    turned: Values,
    weight: u64,
    nesting: u32,
}

impl Model for Row {
    ghost use Rattle.std.specs.Prelude.{◌≡◌, List, min, reverse};
    ghost use Rattle.std.specs.List.{sum_by};
    ghost use Rattle.std.specs.Coded.{coded_list};
    ghost use Rattle.plan_base.specs.declared.tree.Value.{Value as AValue};
    ghost use Rattle.plan_base.specs.contracts.tree.Value as value_type;
    ghost use Rattle.plan_base.specs.Sizes as sizes;

    ghost Value = { List AValue };

    ghost coded = { coded_list value_type.the_row.coded };

    ghost view = { λ r. reverse r.turned };

    ghost invariant = { λ r. (r.weight
        ≡ min (sum_by sizes.weight (reverse r.turned)) 18446744073709551615) ×
        (r.nesting ≡ min (sizes.largest_by sizes.nesting (reverse r.turned)) 4294967295) };
}

impl Row {
    /// No values.
    fn new(alloc: Global) -> Row
        ensures { result ≡ [] }
    {
        Row {
            turned: Items::new(alloc),
            weight: 0,
            nesting: 0,
        }
    }

    /// Puts a value before the others.
    fn put_first(&mut self, slot: Slot) -> Result<(), AllocError>
        ensures ok { OnOk result (self.new ≡ slot ∷ self.old) }
        ensures err { OnErr result (self.new ≡ self.old) }
    {
        let weight = self.weight.saturating_add(slot.weight());
        let nesting = self.nesting.max(slot.nesting());
        self.turned.add(slot.into_value())?;
        self.weight = weight;
        self.nesting = nesting;
        Ok(())
    }

    /// What they weigh in sum, or 2^64 - 1 where that is more.
    pub fn weight(&self) -> u64
        ensures { result ≡ min (sum_by sizes.weight self.now) 18446744073709551615 }
    {
        self.weight
    }

    /// How deep chunks stand in them, or 2^32 - 1 where that is more.
    pub fn nesting(&self) -> u32
        ensures { result ≡ min (sizes.largest_by sizes.nesting self.now) 4294967295 }
    {
        self.nesting
    }

    /// The values.
    pub fn into_values(self) -> Values
        ensures { result ≡ self }
    {
        let Row {
            turned,
            weight: _weight,
            nesting: _nesting,
        } = self;
        let mut values = turned.into_vec();
        values.reverse();
        Items::from_vec(values)
    }
}

/// Takes so many values off the stack.
pub fn take_row(alloc: Global, run: &mut Run, n: usize) -> Result<Row, NoMemory>
    ensures row { (held pre : List AValue) → run.old.stack ≡ held ++ pre → length held ≡ n
        → IfOk result (λ r. r ≡ reverse held) }
    ensures left { (held pre : List AValue) → run.old.stack ≡ held ++ pre → length held ≡ n
        → OnOk result (run.new.stack ≡ pre) }
    ensures stays { Stays run.old run.new }
{
    let mut row = Row::new(alloc);
    let mut left = n;
    while left > 0 {
        left -= 1;
        match run.stack.pop() {
            Some(slot) => row.put_first(slot)?,
            None => return Ok(row),
        }
    }
    Ok(row)
}
