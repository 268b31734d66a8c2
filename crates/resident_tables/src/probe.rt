//! A key to look for.
use containers::HasKey;

/// A key to look for.
#[derive(Clone, Copy)]
pub struct Probe<'a> {
    /// The bytes of the name.
    pub name: &'a [u8],
    /// The number.
    pub number: i64,
}

impl HasKey for Probe<'_> {
    ghost key_of = { λ p. record { name = p.name.now; number = p.number } };

    fn name(&self) -> &[u8] {
        self.name
    }

    fn number(&self) -> i64 {
        self.number
    }
}
