//! The neighbours of a node by device.
ghost use Rattle.std.specs.Prelude.{◌≡◌};
ghost use Rattle.node_core_spec.specs.State.{neighbour_on, leads_to};

use plan_base::{Dev, Host};

/// The neighbour on a device.
fn neighbour_on(links: &[(Host, Dev)], dev: Dev) -> Option<Host>
    ensures { result ≡ neighbour_on links.now dev }
{
    let mut rest = links;
    while let [link, later @ ..] = rest {
        if link.1.0 == dev.0 {
            return Some(link.0);
        }
        rest = later;
    }
    None
}

/// Whether a device leads to this neighbour.
pub fn leads_to(links: &[(Host, Dev)], dev: Dev, host: Host) -> bool
    ensures { result ≡ leads_to links.now dev host }
{
    if dev.0 == 0 {
        return false;
    }
    match neighbour_on(links, dev) {
        None => false,
        Some(there) => there.0 == host.0,
    }
}
