//! A schedule: a network and its events.
use crate::event::WorldEvents;
use containers::Items;
use plan_base::{Dev, Host, Version};
use service_api::Packages;

/// A schedule: a network and what happens to it, one event after the other.
#[derive(Drop)]
pub struct Schedule {
    /// Whether the trace shows the frames that go onto the wire.
    pub frames: bool,
    /// The network.
    pub topology: Topology,
    /// The events in order, at most 50,000.
    pub events: WorldEvents,
}

/// A network: hosts and the links between them.
pub struct Topology {
    /// The hosts in the order of their lines, at most 32, all different.
    pub hosts: HostSpecs,
    /// The links in the order of their lines.
    pub links: Links,
    /// The version of its nodes.
    pub version: Version,
}

impl Drop for Topology {
    fn drop(self) {
        let Topology {
            hosts: _hosts,
            links: _links,
            version: _version,
        } = self;
    }
}

/// A list of hosts.
pub type HostSpecs = Items<HostSpec>;

/// A host of a network.
#[derive(Drop)]
pub struct HostSpec {
    /// Its number.
    pub host: Host,
    /// The packages of services that it lacks, each once, in the order in which they were named.
    pub missing: Packages,
}

/// A link from a device of one host to a device of another.
#[derive(Clone, Copy)]
pub struct Link {
    /// The one host.
    pub from: Host,
    /// Its device.
    pub from_dev: Dev,
    /// The other host.
    pub to: Host,
    /// Its device.
    pub to_dev: Dev,
}

/// A list of links.
pub type Links = Items<Link>;
