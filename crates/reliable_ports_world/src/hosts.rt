//! The network of two ends.
ghost use Rattle.std.specs.Prelude.{◌≡◌, ◌++◌, ◌∷◌, [], IfOk, OnOk};
ghost use Rattle.reliable_ports_world.specs.Networks as spec;

use containers::Items;
use network_config::{HostSpec, HostSpecs, Link, Links, Topology};
use plan_base::{Dev, Host, NoMemory, Version};
use std::alloc::Global;

/// Adds a host that lacks no package.
fn add_host(alloc: Global, hosts: &mut HostSpecs, n: u32) -> Result<(), NoMemory>
    ensures { OnOk result (hosts.new ≡ hosts.old ++ spec.whole_host n ∷ []) }
{
    hosts.add(HostSpec {
        host: Host(n),
        missing: Items::new(alloc),
    })?;
    Ok(())
}

/// The hosts of the ends.
fn both_hosts(alloc: Global) -> Result<HostSpecs, NoMemory>
    ensures { IfOk result (λ hosts. hosts ≡ spec.two_hosts.hosts) }
{
    let mut hosts = Items::new(alloc);
    add_host(alloc, &mut hosts, 1)?;
    add_host(alloc, &mut hosts, 2)?;
    Ok(hosts)
}

/// The link between them.
fn the_link(alloc: Global) -> Result<Links, NoMemory>
    ensures { IfOk result (λ links. links ≡ spec.two_hosts.links) }
{
    let mut links = Items::new(alloc);
    let link = Link {
        from: Host(1),
        from_dev: Dev(1),
        to: Host(2),
        to_dev: Dev(1),
    };
    links.add(link)?;
    Ok(links)
}

/// The network of two ends, of version 2: hosts 1 and 2, which lack no package, and a link between their devices 1.
pub fn two_hosts(alloc: Global) -> Result<Topology, NoMemory>
    ensures { IfOk result (λ t. t ≡ spec.two_hosts) }
{
    Ok(Topology {
        hosts: both_hosts(alloc)?,
        links: the_link(alloc)?,
        version: Version::Two,
    })
}
