//! The live commands over values that were read: a request that is sent to a serving node, and a fleet of children that
//! are started, waited for and reported.
#![tactic(auto)]

mod ask;
mod fault;
mod fleet;
mod laws;
mod reports;
mod starts;
mod words;

pub use ask::inject;
pub use fault::{AskFault, FleetFault};
pub use fleet::run_fleet;
pub use laws::{ends_by_its_statuses, lines_are_a_prefix};
pub use reports::FleetEnd;
