//! A row of a table.
ghost use Rattle.std.specs.Prelude.{◌≡◌, ◌+◌, length, min, IfOk};
ghost use Rattle.service_api.specs.Rows.{row_key, row_size, is_live};

use containers::HasKey;
use plan_base::{NoMemory, Text, Ty, Value};
use plan_base_copy::TryClone;
use plan_base_size::{type_size, weight};
use std::alloc::Global;

/// A value that a table keeps under a name and a number, with the type at which it was kept.
#[derive(Drop)]
pub struct Row {
    /// The name.
    pub name: Text,
    /// The number.
    pub key: i64,
    /// The type at which the value was kept.
    pub ty: Ty,
    /// The value.
    pub value: Value,
    /// The tick at which the row goes.
    pub expiry: u64,
}

impl HasKey for Row {
    ghost key_of = { row_key };

    fn name(&self) -> &[u8] {
        self.name.as_slice()
    }

    fn number(&self) -> i64 {
        self.key
    }
}

impl Row {
    /// An equal row.
    pub fn copy(&self, alloc: Global) -> Result<Row, NoMemory>
        ensures { IfOk result (λ r. r ≡ self.now) }
    {
        Ok(Row {
            name: self.name.copy(alloc)?,
            key: self.key,
            ty: self.ty.copy(alloc)?,
            value: self.value.copy(alloc)?,
            expiry: self.expiry,
        })
    }

    /// The bytes that the row takes of its table, or 2^64 - 1 where there are more: those of the name, eight, and
    /// those of type and value in marshalled form. Takes no memory.
    #[tactic(auto, unfolding(crate::specs::Rows::row_size))]
    pub fn size(&self) -> u64
        ensures { result ≡ min (row_size self.now) 18446744073709551615 }
    {
        (self.name.len() as u64)
            .saturating_add(8)
            .saturating_add(type_size(&self.ty))
            .saturating_add(weight(&self.value))
    }

    /// Whether the row is there at the tick `now`: its expiry lies after it.
    pub fn is_live(&self, now: u64) -> bool
        ensures { result ≡ is_live now self.now }
    {
        now < self.expiry
    }
}
