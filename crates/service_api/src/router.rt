//! The routes of a node by host, and the next hop.
ghost use Rattle.std.specs.Prelude.{◌≡◌, IfOk};
ghost use Rattle.std.specs.Str.{bytes_eq};
ghost use Rattle.service_api.specs.Routes as spec;

use containers::Items;
use plan_base::{Dev, Host, Name, NoMemory, same_bytes};
use std::alloc::Global;
use std::marker::Model;

/// A route to a host.
#[derive(Clone, Copy)]
pub struct RouteRow {
    /// The host.
    pub host: Host,
    /// The neighbour that is next on the way.
    pub next: Host,
    /// The device that leads to that neighbour.
    pub dev: Dev,
    /// The hops to the host.
    pub cost: u32,
}

/// A list of routes.
pub type RouteRows = Items<RouteRow>;

/// Where a packet goes next.
#[derive(Clone, Copy)]
pub enum Hop {
    /// To this neighbour over this device.
    To(Host, Dev),
    /// The routing function isn't offered.
    NoService,
    /// No route to the host is known.
    NoRoute,
}

/// The routes of a node by host, which contracts see as a list.
#[derive(Drop)]
pub struct Router {
    rows: RouteRows,
}

impl Model for Router {
    ghost use Rattle.std.specs.Prelude.{List};
    ghost use Rattle.std.specs.Coded.{coded_list};
    ghost use Rattle.service_api.specs.declared.router.RouteRow.{RouteRow};
    ghost use Rattle.service_api.specs.contracts.router.RouteRow as route_row;

    ghost Value = { List RouteRow };

    ghost coded = { coded_list route_row.the_row.coded };

    ghost view = { λ r. r.rows };
}

fn is_default(route: &Name) -> bool
    ensures { result ≡ bytes_eq route.now spec.default_route }
{
    same_bytes(route.as_slice(), b"defaultRoute".as_slice())
}

impl Router {
    /// The routes `rows`.
    pub fn new(rows: RouteRows) -> Router
        ensures { result ≡ rows }
    {
        Router { rows }
    }

    /// The routes.
    pub fn rows(&self) -> &[RouteRow]
        ensures { result.now ≡ self.now }
    {
        self.rows.as_slice()
    }

    /// An equal list of routes.
    pub fn copy(&self, alloc: Global) -> Result<Router, NoMemory>
        ensures { IfOk result (λ r. r ≡ self.now) }
    {
        Ok(Router {
            rows: Items::from_slice(alloc, self.rows.as_slice())?,
        })
    }

    /// The next hop from `here` to `host`: `NoService` where the routing name isn't `defaultRoute`; the host
    /// itself over device 0 for `here`; else the hop of the host's row, and `NoRoute` where there is none.
    #[tactic(auto, unfolding(crate::specs::Routes::hop))]
    pub fn next(&self, route: &Name, here: Host, host: Host) -> Hop
        ensures { result ≡ spec.hop self.now route.now here host }
    {
        if !is_default(route) {
            return Hop::NoService;
        }
        if here.0 == host.0 {
            return Hop::To(host, Dev(0));
        }
        hop_in(self.rows.as_slice(), host)
    }
}

fn hop_in(rows: &[RouteRow], host: Host) -> Hop
    ensures { result ≡ spec.hop_in rows.now host }
{
    let mut rest = rows;
    while let [row, later @ ..] = rest {
        if row.host.0 == host.0 {
            return Hop::To(row.next, row.dev);
        }
        rest = later;
    }
    Hop::NoRoute
}
