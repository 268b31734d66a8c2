//! The lines of a trace and its ledger, as bytes.
#![tactic(auto)]

mod act_lines;
mod ledger;
mod run_lines;
mod short;

pub use act_lines::{put_act, put_act_line, put_family, put_number};
pub use ledger::put_row;
pub use run_lines::put_all_lines;
pub use short::ShortText;
