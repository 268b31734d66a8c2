//! The log of a node: what a served run writes, as definitions, and its replay.
#![tactic(auto)]

mod fault;
mod laws;
mod lines;
mod replay;

pub use fault::ReplayFault;
pub use laws::{goes_on, lines_again, refused_again};
pub use lines::{lost_lines, step_lines};
pub use replay::{begin_node, config_again, run_log};
pub use trace_text::{put_family, put_number};
