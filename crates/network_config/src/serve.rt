//! How a node serves, as its file says it.
use crate::node::NodeConfig;
use checked_chunks::CheckedChunk;
use containers::Items;
use plan_base::{Dev, Name, Text};
use service_api::Packages;

/// The ports at which the neighbours listen, each with its device, by device.
pub type DevPorts = Items<(Dev, u16)>;

/// An injection of a serving node.
#[derive(Drop)]
pub struct Inject {
    /// The turn, from 1 to 1,000,000.
    pub turn: u32,
    /// The bound, at most 65,535.
    pub bound: u32,
    /// What is injected.
    pub chunk: CheckedChunk,
    /// Its handler, under version 2 alone.
    pub handler: Option<Name>,
}

/// A list of injections of a serving node.
pub type Injects = Items<Inject>;

/// How a node serves.
pub struct ServeConfig {
    /// How the node begins, with serial number 1.
    pub node: NodeConfig,
    /// The packages of services that it lacks, each once, in the order in which they were named.
    pub missing: Packages,
    /// The port at which it listens. All ports differ, and none is 0.
    pub port: u16,
    /// The port of its owner.
    pub control: u16,
    /// The milliseconds from one tick to the next, from 1 to 60,000.
    pub period: u32,
    /// The name of its log.
    pub log: Text,
    /// The ports of its neighbours, with the devices of `node.neighbours`.
    pub devs: DevPorts,
    /// Its injections in the order of their lines, whose chunks weigh at most 16,777,216 in sum.
    pub at: Injects,
}

impl Drop for ServeConfig {
    fn drop(self) {
        let ServeConfig {
            node: _node,
            missing: _missing,
            port: _port,
            control: _control,
            period: _period,
            log: _log,
            devs: _devs,
            at: _at,
        } = self;
    }
}
