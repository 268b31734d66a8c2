//! What `gather` makes of a log: its entries are made again, the notes are gathered for a port, and what is held of
//! each key is written.
#![tactic(auto)]

mod counting;
mod gathered;
mod text;

pub use gathered::gather_text;
