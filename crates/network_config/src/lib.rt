//! Plans of networks and nodes: hosts, links and what a node lacks, the events of a schedule and of a node, how a node
//! begins and serves, and the rules that they keep. Readers of texts and models of nodes and networks stand on these
//! types.
#![tactic(auto)]

mod event;
mod fleet;
mod hosts;
mod node;
mod schedule;
mod serve;

pub use event::{Event, LogEvent, LogEvents, WorldEvent, WorldEvents};
pub use fleet::{AskFile, Fleet, Kid, Kids};
pub use hosts::{has_host, has_link, is_listed};
pub use node::{Hosts, Log, NodeConfig, first_link};
pub use schedule::{HostSpec, HostSpecs, Link, Links, Schedule, Topology};
pub use serve::{DevPorts, Inject, Injects, ServeConfig};
