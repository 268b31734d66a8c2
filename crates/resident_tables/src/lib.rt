//! Soft state of a node: tables of rows that expire, over lists that are found by a key.
#![tactic(auto)]

mod counts;
mod edits;
mod fault;
mod gone;
mod list;
mod moves;
mod next;
mod overlay;
mod parts;
mod passes;
mod probe;
mod search;
mod tables;

pub use counts::Counts;
pub use fault::TableFault;
pub use gone::Gone;
pub use list::KeyedList;
pub use overlay::Overlay;
pub use probe::Probe;
pub use tables::Tables;
