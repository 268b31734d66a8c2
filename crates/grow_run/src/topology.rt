//! The ring of eight hosts in which the events happen.
ghost use Rattle.std.specs.Prelude.{◌≡◌, ◌++◌, ◌∷◌, [], IfOk, OnOk};
ghost use Rattle.grow_run.specs.Grow as spec;

use containers::Items;
use network_config::{HostSpec, HostSpecs, Link, Links, Topology};
use plan_base::{Dev, Host, NoMemory, Version};
use std::alloc::Global;

/// Adds a host that lacks no package.
fn add_host(alloc: Global, hosts: &mut HostSpecs, n: u32) -> Result<(), NoMemory>
    ensures { OnOk result (hosts.new ≡ hosts.old ++ spec.whole_host n ∷ []) }
{
    hosts.add(HostSpec {
        host: Host(n),
        missing: Items::new(alloc),
    })?;
    Ok(())
}

/// Adds the link from a host's device 1 to another's device 2.
fn add_link(links: &mut Links, n: u32, m: u32) -> Result<(), NoMemory>
    ensures { OnOk result (links.new ≡ links.old ++ spec.ring_link n m ∷ []) }
{
    let link = Link {
        from: Host(n),
        from_dev: Dev(1),
        to: Host(m),
        to_dev: Dev(2),
    };
    links.add(link)?;
    Ok(())
}

/// Adds the hosts 1 to 4.
fn add_first_hosts(alloc: Global, hosts: &mut HostSpecs) -> Result<(), NoMemory>
    ensures { OnOk result (hosts.new
        ≡ hosts.old ++ spec.whole_host 1 ∷ spec.whole_host 2
        ∷ spec.whole_host 3 ∷ spec.whole_host 4 ∷ []) }
{
    add_host(alloc, hosts, 1)?;
    add_host(alloc, hosts, 2)?;
    add_host(alloc, hosts, 3)?;
    add_host(alloc, hosts, 4)
}

/// Adds the hosts 5 to 8.
fn add_last_hosts(alloc: Global, hosts: &mut HostSpecs) -> Result<(), NoMemory>
    ensures { OnOk result (hosts.new
        ≡ hosts.old ++ spec.whole_host 5 ∷ spec.whole_host 6
        ∷ spec.whole_host 7 ∷ spec.whole_host 8 ∷ []) }
{
    add_host(alloc, hosts, 5)?;
    add_host(alloc, hosts, 6)?;
    add_host(alloc, hosts, 7)?;
    add_host(alloc, hosts, 8)
}

/// The hosts of the ring.
fn ring_hosts(alloc: Global) -> Result<HostSpecs, NoMemory>
    ensures { IfOk result (λ hosts. hosts ≡ spec.ring.hosts) }
{
    let mut hosts = Items::new(alloc);
    add_first_hosts(alloc, &mut hosts)?;
    add_last_hosts(alloc, &mut hosts)?;
    Ok(hosts)
}

/// Adds the links of the hosts 1 to 4, each to the next host.
fn add_first_links(links: &mut Links) -> Result<(), NoMemory>
    ensures { OnOk result (links.new
        ≡ links.old ++ spec.ring_link 1 2 ∷ spec.ring_link 2 3
        ∷ spec.ring_link 3 4 ∷ spec.ring_link 4 5 ∷ []) }
{
    add_link(links, 1, 2)?;
    add_link(links, 2, 3)?;
    add_link(links, 3, 4)?;
    add_link(links, 4, 5)
}

/// Adds the links of the hosts 5 to 8, the last of them to host 1.
fn add_last_links(links: &mut Links) -> Result<(), NoMemory>
    ensures { OnOk result (links.new
        ≡ links.old ++ spec.ring_link 5 6 ∷ spec.ring_link 6 7
        ∷ spec.ring_link 7 8 ∷ spec.ring_link 8 1 ∷ []) }
{
    add_link(links, 5, 6)?;
    add_link(links, 6, 7)?;
    add_link(links, 7, 8)?;
    add_link(links, 8, 1)
}

/// The links of the ring.
fn ring_links(alloc: Global) -> Result<Links, NoMemory>
    ensures { IfOk result (λ links. links ≡ spec.ring.links) }
{
    let mut links = Items::new(alloc);
    add_first_links(&mut links)?;
    add_last_links(&mut links)?;
    Ok(links)
}

/// The network that grows, of version 1: the hosts 1 to 8, device 1 of each linked to device 2 of the next, and
/// that of host 8 to host 1.
pub fn ring(alloc: Global) -> Result<Topology, NoMemory>
    ensures { IfOk result (λ t. t ≡ spec.ring) }
{
    Ok(Topology {
        hosts: ring_hosts(alloc)?,
        links: ring_links(alloc)?,
        version: Version::One,
    })
}
