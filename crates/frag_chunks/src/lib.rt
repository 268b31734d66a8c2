//! Messages in parts: a message is cut into chunks, and the notes that these deliver are gathered again.
#![tactic(auto)]

mod cutting;
mod gather;
mod given;
mod holding;
mod laws;

pub use cutting::{CutFault, Part, PartId, Parts, cut};
pub use gather::{Added, Gather, Held};
pub use laws::{messages_are_gathered, part_is_read};
