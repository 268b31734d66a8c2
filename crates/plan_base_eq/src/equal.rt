//! What can be compared whole.
ghost use Rattle.std.specs.Prelude.{◌≡◌, ◌↔◌, IsTrue};

/// Trees that can be compared whole.
pub trait SameAs {
    /// Whether the two trees are the same. Takes no memory.
    fn is(&self, other: &Self) -> bool
        ensures { IsTrue result ↔ (self.now ≡ other.now) };
}
