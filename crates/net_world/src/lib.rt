//! A network of nodes as a fold over their steps, and the run of a schedule in it.
#![tactic(auto)]

mod ends;
mod lines;
mod network;
mod nodes;
mod opening;
mod runs;
mod world;

pub use runs::{RunFault, run};
pub use world::World;
