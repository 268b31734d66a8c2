//! Where the columns of hosts stand.
ghost use Rattle.std.specs.Prelude.{◌≡◌, ◌≤◌, ◌<◌, length, OnOk, IfOk, IfErr};
ghost use Rattle.trace_chart_picture.specs.Hosts.{with_host, with_named, hosts_of, hosts_from, column, lanes_of};
ghost use Rattle.trace_chart_picture.specs.Faults.{IsDrawFault};

use crate::drawing::{Lane, MOST_HOSTS};
use crate::line::Entry;
use crate::marks::DrawFault;
use containers::Items;
use plan_base::Host;
use std::alloc::{AllocError, Global};

/// Adds a host to hosts in rising order, or nothing where it is there.
fn add_host(hosts: &mut Vec<u32>, host: u32) -> Result<(), AllocError>
    ensures { OnOk result (hosts.new.items ≡ with_host host hosts.old.items) }
{
    let mut i = 0;
    while i < hosts.len() && hosts[i] < host {
        i += 1;
    }
    if i < hosts.len() && hosts[i] == host {
        return Ok(());
    }
    hosts.insert(i, host)?;
    Ok(())
}

/// Adds the host that a line names, where it names one.
fn add_named(hosts: &mut Vec<u32>, host: Option<Host>) -> Result<(), AllocError>
    ensures { OnOk result (hosts.new.items ≡ with_named host hosts.old.items) }
{
    match host {
        Some(h) => add_host(hosts, h.0),
        None => Ok(()),
    }
}

/// The hosts that the lines name, in rising order.
pub(crate) fn hosts_of(alloc: Global, entries: &[Entry]) -> Result<Vec<u32>, DrawFault>
    ensures hosts { IfOk result (λ hosts. hosts.items ≡ hosts_of entries.now) }
    ensures few { IfOk result (λ hosts. length hosts.items ≤ 64) }
    ensures fault { IfErr result (λ e. IsDrawFault entries.now e) }
{
    let mut hosts = Vec::new(alloc);
    for entry in entries {
        add_named(&mut hosts, entry.line.host())?;
        if hosts.len() > MOST_HOSTS {
            return Err(DrawFault::TooManyHosts);
        }
    }
    Ok(hosts)
}

/// Where a host's column stands.
pub(crate) fn column(hosts: &[u32], host: u32) -> u32
    requires { length hosts.now ≤ 64 }
    ensures { result ≡ column hosts.now host }
{
    let mut across: u32 = 1;
    let mut rest = hosts;
    while let [other, more @ ..] = rest {
        if *other == host {
            return across;
        }
        across += 2;
        rest = more;
    }
    0
}

/// The columns of these hosts.
pub(crate) fn lanes_of(alloc: Global, hosts: &[u32]) -> Result<Items<Lane>, AllocError>
    requires { length hosts.now ≤ 64 }
    ensures { IfOk result (λ lanes. lanes ≡ lanes_of hosts.now) }
{
    let mut lanes = Items::new(alloc);
    let mut across: u32 = 1;
    for host in hosts {
        lanes.add(Lane {
            across,
            host: *host,
        })?;
        across += 2;
    }
    Ok(lanes)
}
