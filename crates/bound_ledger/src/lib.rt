//! What each family of a run was granted, paid, has live and has left, kept event by event.
#![tactic(auto)]

mod counting;
mod key;
mod laws;
mod ledger;
mod row;

pub use counting::count_lines;
pub use ledger::Ledger;
pub use row::Row;
