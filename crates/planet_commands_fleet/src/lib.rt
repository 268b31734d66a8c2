//! The commands around nodes that run: `node`, `inject` and `fleet`, a message in parts, and the audit of their logs, a module each.
#![tactic(auto)]

mod fitting;
mod fleet;
mod gather;
mod inject;
mod logs;
mod node;
mod parts;

pub use fitting::on_audit;
pub use fleet::on_fleet;
pub use gather::Gather;
pub use inject::on_ask;
pub use node::on_node;
pub use parts::Cut;
