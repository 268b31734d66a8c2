//! Commands that run a network or a node's steps once more: `replay` and `grow`.
#![tactic(auto)]

mod grow;
mod replay;

pub use grow::on_seed;
pub use replay::Replay;
