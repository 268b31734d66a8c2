//! Where links lead.
ghost use Rattle.std.specs.Prelude.{◌≡◌, position};
ghost use Rattle.net_world_spec.specs.World as spec;

use crate::lines::LinkEnd;
use network_config::Link;
use plan_base::{Dev, Host};

/// Whether this is one end of a link.
fn has_end(host: Host, dev: Dev, end: Host, at: Dev) -> bool
    ensures { result ≡ spec.has_end host dev end at }
{
    end.0 == host.0 && at.0 == dev.0
}

/// The place of the first link that is on a device of a host.
fn link_place(links: &[Link], host: Host, dev: Dev) -> Option<usize>
    ensures { result ≡ position (spec.is_on host dev) links.now }
{
    links.iter().position(|l| (l.from.0 == host.0 && l.from_dev.0 == dev.0)
        || (l.to.0 == host.0 && l.to_dev.0 == dev.0))
}

/// The end to which a link leads from a device of a host. Takes no memory.
#[tactic(auto, unfolding(crate::specs::World::peer_of))]
pub fn peer_of(links: &[Link], host: Host, dev: Dev) -> Option<LinkEnd>
    ensures { result ≡ spec.peer_of links.now host dev }
{
    let at = link_place(links, host, dev)?;
    let link = links.get(at)?;
    if has_end(host, dev, link.from, link.from_dev) {
        Some(LinkEnd {
            host: link.to,
            dev: link.to_dev,
        })
    } else {
        Some(LinkEnd {
            host: link.from,
            dev: link.from_dev,
        })
    }
}

/// The same for every device; device 0 leads to the node itself. Takes no memory.
#[tactic(auto, unfolding(crate::specs::World::far_end))]
pub fn far_end(links: &[Link], host: Host, dev: Dev) -> Option<LinkEnd>
    ensures { result ≡ spec.far_end links.now host dev }
{
    if dev.0 == 0 {
        Some(LinkEnd { host, dev })
    } else {
        peer_of(links, host, dev)
    }
}
