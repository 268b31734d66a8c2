//! What the services of a node's packages answer, as definitions, and the laws that hold of them: from good rows,
//! good arguments and at most 8 neighbours each answers well and leaves good rows, and whatever isn't offered is
//! refused.
#![tactic(auto)]

mod laws;
mod service;

pub use laws::{answers_are_good, others_are_refused};
pub use service::Service;
