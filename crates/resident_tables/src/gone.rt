//! The key of a row that was removed.
use containers::HasKey;
use plan_base::Text;

/// The key of a row that was removed.
#[derive(Drop)]
pub struct Gone {
    /// The row's name.
    pub name: Text,
    /// The row's number.
    pub key: i64,
}

impl HasKey for Gone {
    ghost key_of = { λ g. record { name = g.name; number = g.key } };

    fn name(&self) -> &[u8] {
        self.name.as_slice()
    }

    fn number(&self) -> i64 {
        self.key
    }
}
