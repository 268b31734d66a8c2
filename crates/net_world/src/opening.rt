//! A network in which nothing has happened yet.
ghost use Rattle.std.specs.Prelude.{◌≡◌, map, IfOk};
ghost use Rattle.network_config.specs.Rules.{KeepsNetwork};
ghost use Rattle.node_core.specs.Stands.{NodeStands};
ghost use Rattle.net_world_spec.specs.World as spec;
ghost use Rattle.net_world.specs.Stands.{AllStand};

use crate::ends::neighbours_of;
use containers::Items;
use network_config::{HostSpec, Hosts, NodeConfig, Topology};
use node_core::{Node, Version};
use plan_base::NoMemory;
use service_api::Services;
use std::alloc::Global;

/// The hosts of a network.
fn hosts_of(alloc: Global, hosts: &[HostSpec]) -> Result<Hosts, NoMemory>
    ensures { IfOk result (λ own. own ≡ map (λ s. s.host) hosts.now) }
{
    let mut own = Items::new(alloc);
    for host in hosts {
        own.add(host.host)?;
    }
    Ok(own)
}

/// The moment at which a node of a network begins, and the number of its devices' first frames.
fn first_moment(version: Version) -> u64
    ensures { result ≡ spec.first_moment version }
{
    match version {
        Version::One => 0,
        Version::Two => 1,
    }
}

/// How the node of a host begins.
fn config_of(alloc: Global, topology: &Topology, host: &HostSpec) -> Result<NodeConfig, NoMemory>
    ensures { IfOk result (λ config. config ≡ spec.config_of topology.now host.now) }
{
    let here = host.host;
    let first = first_moment(topology.version);
    Ok(NodeConfig {
        here,
        hosts: hosts_of(alloc, topology.hosts.as_slice())?,
        neighbours: neighbours_of(alloc, topology.links.as_slice(), here)?,
        serial: 1,
        version: topology.version,
        boot: first,
        link: first,
    })
}

/// The node of a host at the beginning, with its services.
#[tactic(auto, unfolding(net_world_spec::specs::World::opening_node))]
fn open_node<S: Services + Drop>(
    alloc: Global,
    topology: &Topology,
    host: &HostSpec,
    services: S,
) -> Result<Node<S>, NoMemory>
    requires rules { KeepsNetwork topology.now }
    requires services { S.stands services ≡ spec.opening_services host.now }
    ensures { IfOk result
        (λ node. NodeStands S.stands node (spec.opening_node topology.now host.now)) }
{
    let config = config_of(alloc, topology, host)?;
    Node::new(alloc, config, services)
}

/// The nodes of all hosts at the beginning. `services`: one for each host, in the order of hosts.
pub fn open_nodes<S: Services + Drop>(
    alloc: Global,
    topology: &Topology,
    services: Items<S>,
) -> Result<Vec<Node<S>>, NoMemory>
    requires rules { KeepsNetwork topology.now }
    requires services { map S.stands services ≡ map spec.opening_services topology.now.hosts }
    ensures { IfOk result
        (λ nodes. AllStand S.stands nodes.items
        (map (spec.opening_node topology.now) topology.now.hosts)) }
{
    let mut nodes = Items::new(alloc);
    for own in services.into_vec() {
        let host = topology.hosts.at(nodes.len());
        nodes.add(open_node(alloc, topology, host, own)?)?;
    }
    Ok(nodes.into_vec())
}
