//! A node: its services and its step.
#![tactic(auto)]

mod idle_services;
mod node;

pub use node::Node;
pub use plan_base::{Stamp, Version};
pub use replay_window::{Took, Window};
