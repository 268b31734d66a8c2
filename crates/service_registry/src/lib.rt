//! The services of a node's packages over its table: [`Registry`].
#![tactic(auto)]

mod answers;
mod arguments;
mod host;
mod installed_packages;
mod net;
mod offered;
mod registry;
mod resident;
mod serving;
mod taken;
mod types;

pub use registry::Registry;
