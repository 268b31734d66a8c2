//! A name with its value.
use containers::Items;
use plan_base::{Name, Value};

/// A name with the value that it is bound to.
#[derive(Drop)]
pub struct Binding {
    /// The name.
    pub name: Name,
    /// The value.
    pub value: Value,
}

/// The bindings that an expression sees, the innermost last.
pub type Env = Items<Binding>;
