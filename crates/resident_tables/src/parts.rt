//! The parts of a row that is to be put.
ghost use Rattle.std.specs.Prelude.{◌≡◌, min, IfOk};
ghost use Rattle.service_api.specs.Rows.{row_size};
ghost use Rattle.resident_tables.specs.PartRows.{part_row};

use containers::HasKey;
use plan_base::{NoMemory, Text, Ty, Value};
use plan_base_copy::TryClone;
use plan_base_size::{type_size, weight};
use service_api::Row;
use std::alloc::Global;

/// The parts of a row that is to be put.
#[derive(Clone, Copy)]
pub struct Parts<'a> {
    pub name: &'a Text,
    pub key: i64,
    pub ty: &'a Ty,
    pub value: &'a Value,
    pub expiry: u64,
}

impl HasKey for Parts<'_> {
    ghost key_of = { λ p. record { name = p.name.now; number = p.key } };

    fn name(&self) -> &[u8] {
        self.name.as_slice()
    }

    fn number(&self) -> i64 {
        self.key
    }
}

impl Parts<'_> {
    /// The bytes that the row takes of its table.
    #[tactic(auto, unfolding(service_api::specs::Rows::row_size))]
    pub fn size(&self) -> u64
        ensures { result ≡ min (row_size (part_row self.now)) 18446744073709551615 }
    {
        (self.name.len() as u64)
            .saturating_add(8)
            .saturating_add(type_size(self.ty))
            .saturating_add(weight(self.value))
    }

    /// The row of these parts.
    pub fn row(&self, alloc: Global) -> Result<Row, NoMemory>
        ensures { IfOk result (λ r. r ≡ part_row self.entry.now) }
    {
        let name = self.name.copy(alloc)?;
        match self.ty.copy(alloc) {
            Ok(ty) => self.row_with(alloc, name, ty),
            Err(fault) => Err(fault),
        }
    }

    /// The row of these parts but for its name and type.
    fn row_with(&self, alloc: Global, name: Text, ty: Ty) -> Result<Row, NoMemory>
        ensures { IfOk result (λ r. r ≡ record (part_row self.entry.now) { name = name; ty = ty }) }
    {
        match self.value.copy(alloc) {
            Ok(value) => Ok(Row {
                name,
                key: self.key,
                ty,
                value,
                expiry: self.expiry,
            }),
            Err(fault) => {
                drop(ty);
                Err(fault)
            }
        }
    }
}
