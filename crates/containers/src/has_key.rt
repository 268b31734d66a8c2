//! Items that are found by a name and a number.
ghost use Rattle.std.specs.Prelude.{◌≡◌};
ghost use Rattle.containers.specs.Keys.{Key};

/// An item that is found by a name and a number.
pub trait HasKey {
    ghost key_of: { Self → Key };

    /// The bytes of the name.
    fn name(&self) -> &[u8]
        ensures { result.now ≡ (key_of self.now).name };

    /// The number.
    fn number(&self) -> i64
        ensures { result ≡ (key_of self.now).number };
}
