//! What a service answers, and what it reports to the owner.
use containers::Items;
use plan_base::{Exn, Value};

/// What a service reports to the node's owner.
#[derive(Drop)]
pub enum Note {
    /// A value that was printed.
    Print(Value),
    /// A value that was delivered to a port.
    Port(u16, Value),
}

/// Notes in the order in which they were made.
pub type Notes = Items<Note>;

/// The answer of a service.
#[derive(Drop)]
pub enum Answer {
    /// A value, and a note where the service made one.
    Gives(Value, Option<Note>),
    /// An exception.
    Raises(Exn),
}
