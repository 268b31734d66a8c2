//! How a node begins, and what its log has.
ghost use Rattle.std.specs.Prelude.{◌≡◌};
ghost use Rattle.network_config.specs.NodeRules as spec;

use crate::event::LogEvents;
use containers::Items;
use plan_base::{Host, Version};
use service_api::{Neighbours, Packages};

/// A list of hosts.
pub type Hosts = Items<Host>;

/// How a node begins.
#[derive(Drop)]
pub struct NodeConfig {
    /// Its own host.
    pub here: Host,
    /// The hosts of its network, at most 32, ascending, its own among them.
    pub hosts: Hosts,
    /// Its neighbours, each with the device, from 1 to 8, that leads to it, by device.
    pub neighbours: Neighbours,
    /// The serial number of its next injection.
    pub serial: u64,
    /// Its version.
    pub version: Version,
    /// The moment at which it begins, 0 under version 1.
    pub boot: u64,
    /// The number of the first frame of each device, 0 under version 1.
    pub link: u64,
}

/// The number of the first frame of each device, where a file begins a node.
pub fn first_link(version: Version) -> u64
    ensures { result ≡ spec.first_link version }
{
    match version {
        Version::One => 0,
        Version::Two => 1,
    }
}

/// The log of a node: how it began, with serial number 1, and what happened to it.
pub struct Log {
    /// How it began.
    pub node: NodeConfig,
    /// The packages of services that it lacks, each once, in the order in which they were named.
    pub missing: Packages,
    /// What happened, in order, at most 50,000.
    pub events: LogEvents,
}

impl Drop for Log {
    fn drop(self) {
        let Log {
            node: _node,
            missing: _missing,
            events: _events,
        } = self;
    }
}
