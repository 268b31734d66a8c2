//! Looks up hosts and links.
ghost use Rattle.std.specs.Prelude.{◌≡◌};
ghost use Rattle.network_config.specs.Hosts as spec;

use crate::schedule::{HostSpec, Link};
use plan_base::{Dev, Host};

/// Whether a network has a host.
pub fn has_host(hosts: &[HostSpec], host: Host) -> bool
    ensures { result ≡ spec.has_host host hosts.now }
{
    hosts.iter().any(|h| h.host.0 == host.0)
}

/// Whether a host is in a list of hosts.
pub fn is_listed(hosts: &[Host], host: Host) -> bool
    ensures { result ≡ spec.is_listed host hosts.now }
{
    hosts.iter().any(|h| h.0 == host.0)
}

/// Whether a device of a host is an end of one of these links.
pub fn has_link(links: &[Link], host: Host, dev: Dev) -> bool
    ensures { result ≡ spec.has_link host dev links.now }
{
    links.iter().any(|l| (l.from.0 == host.0 && l.from_dev.0 == dev.0)
        || (l.to.0 == host.0 && l.to_dev.0 == dev.0))
}
