//! The queue of a device, of at most 64 items.
#![tactic(auto)]

mod queue;

pub use queue::{MOST_QUEUED, Queue};
