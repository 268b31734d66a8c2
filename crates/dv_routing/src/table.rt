//! The routes of a node by the adverts that it heard.
ghost use Rattle.std.specs.Prelude.{◌≡◌, List, [], ◌∷◌, map, ◌++◌, IfOk, OnOk};
ghost use Rattle.plan_base.specs.declared.ids.Host.{Host as HostOf};
ghost use Rattle.plan_base.specs.declared.ids.Dev.{Dev as DevOf};
ghost use Rattle.std.specs.Option.{option_to_list};
ghost use Rattle.dv_routing.specs.Routing.{Routing, opening_routing, hears, route as the_route, all_routes, route_within, routes_within, is_among, own_advert, own_route, is_better, better as the_better, least as the_least, advert_row};
ghost use Rattle.dv_routing.specs.Stands.{known_of, lane_of, Stands};
ghost use Rattle.dv_routing.specs.Lanes.{told_cost, taken_cost, known_after, lane_after, unknown, fresh_lane, known_cost, lane_cost, lane_route, best_lane};

use containers::Items;
use plan_base::{Dev, Host, NoMemory};
use service_api::{Advert, AdvertRow, AdvertRows, Neighbours, RouteRow, RouteRows, Router};
use std::alloc::{AllocError, Global};

/// The least cost to a host that was heard on one device.
#[derive(Clone, Copy)]
struct Known {
    host: Host,
    least: Option<u16>,
}

/// A neighbour, its device, and what was heard there of each host of the network.
#[derive(Drop)]
struct Lane {
    host: Host,
    dev: Dev,
    known: Items<Known>,
}

/// The routes of a node. It stands for all adverts that it ever heard.
#[derive(Drop)]
pub struct Table {
    here: Host,
    hosts: Items<Host>,
    lanes: Vec<Lane>,
}

/// The lesser of two costs, where there are any.
fn least(a: Option<u16>, b: Option<u16>) -> Option<u16>
    ensures { result ≡ the_least a b }
{
    let Some(x) = a else {
        return b;
    };
    let Some(y) = b else {
        return a;
    };
    if y < x { b } else { a }
}

/// The cost that a row gives for a host. One of 65,535 is skipped, since no row could carry one more.
fn told_cost(row: &AdvertRow, host: Host) -> Option<u16>
    ensures { result ≡ told_cost host row.now }
{
    if row.host.0 == host.0 && row.cost < 65_535 {
        Some(row.cost as u16)
    } else {
        None
    }
}

/// The least cost that rows give for a host.
#[tactic(auto, using(crate::proofs::Costs::least_laws), unfolding(crate::specs::Lanes::taken_cost))]
fn taken_cost(rows: &[AdvertRow], host: Host) -> Option<u16>
    ensures { result ≡ taken_cost host rows.now }
{
    let mut best = None;
    let mut rest = rows;
    while let [row, later @ ..] = rest {
        best = least(best, told_cost(row, host));
        rest = later;
    }
    best
}

impl Known {
    /// With what these rows give.
    fn after(self, rows: &[AdvertRow]) -> Known
        ensures { result ≡ known_after rows.now self }
    {
        Known {
            host: self.host,
            least: least(self.least, taken_cost(rows, self.host)),
        }
    }
}

/// Takes what rows give into what is known.
fn learn(known: &mut Items<Known>, rows: &[AdvertRow])
    ensures { known.new ≡ map (known_after rows.now) known.old }
{
    for i in 0..known.len() {
        let entry = *known.at(i);
        known.set(i, entry.after(rows));
    }
}

/// Nothing is known of these hosts.
fn unknown(alloc: Global, hosts: &[Host]) -> Result<Items<Known>, NoMemory>
    ensures { IfOk result (λ known. known ≡ map unknown hosts.now) }
{
    let mut known = Items::new(alloc);
    for host in hosts {
        known.add(Known {
            host: *host,
            least: None,
        })?;
    }
    Ok(known)
}

/// The cost that is known for a host.
fn known_cost(known: &[Known], host: Host) -> Option<u16>
    ensures { result ≡ known_cost known.now host }
{
    let mut rest = known;
    while let [entry, later @ ..] = rest {
        if entry.host.0 == host.0 {
            return entry.least;
        }
        rest = later;
    }
    None
}

/// The cost of an entry where it is the host's, and else what is known for it.
fn cost_or(entry: Known, known: &[Known], host: Host) -> Option<u16>
    ensures { result ≡ known_cost (entry ∷ known.now) host }
{
    if entry.host.0 == host.0 {
        return entry.least;
    }
    known_cost(known, host)
}

/// The cost that is known for a host, which is sought at a place first.
fn cost_near(known: &[Known], at: usize, host: Host) -> Option<u16>
    ensures { (r : Routing) (d : DevOf) → known.now ≡ map (known_of r d) r.hosts
        → result ≡ known_cost known.now host }
{
    match known.get(at) {
        None => known_cost(known, host),
        Some(entry) => cost_or(*entry, known, host),
    }
}

impl Lane {
    /// Hears rows on a device: they count where it is this lane's.
    fn hear(&mut self, dev: Dev, rows: &[AdvertRow])
        ensures { self.new ≡ lane_after dev rows.now self.old }
    {
        if dev.0 == self.dev.0 {
            learn(&mut self.known, rows);
        }
    }

    /// The least cost for a host at this neighbour, which is 0 for itself; it is sought at a place first.
    fn cost(&self, at: usize, host: Host) -> Option<u16>
        ensures { (r : Routing) (link : HostOf × DevOf) → self.now ≡ lane_of r link
            → result ≡ lane_cost host self.now }
    {
        if self.host.0 == host.0 {
            return Some(0);
        }
        cost_near(self.known.as_slice(), at, host)
    }

    /// The route to a host over this neighbour.
    fn route(&self, at: usize, host: Host) -> Option<RouteRow>
        ensures { (r : Routing) (link : HostOf × DevOf) → self.now ≡ lane_of r link
            → result ≡ lane_route host self.now }
    {
        let cost = self.cost(at, host)?;
        Some(RouteRow {
            host,
            next: self.host,
            dev: self.dev,
            cost: u32::from(cost) + 1,
        })
    }
}

/// Each lane hears the rows.
fn hear_all(lanes: &mut Vec<Lane>, dev: Dev, rows: &[AdvertRow])
    ensures { lanes.new.items ≡ map (lane_after dev rows.now) lanes.old.items }
{
    for i in 0..lanes.len() {
        lanes[i].hear(dev, rows);
    }
}

/// Lanes that have heard nothing, one for each neighbour.
fn fresh_lanes(
    alloc: Global,
    hosts: &[Host],
    neighbours: &[(Host, Dev)],
) -> Result<Vec<Lane>, NoMemory>
    ensures { IfOk result (λ lanes. lanes.items ≡ map (fresh_lane hosts.now) neighbours.now) }
{
    let mut lanes = Vec::new(alloc);
    for link in neighbours {
        let lane = Lane {
            host: link.0,
            dev: link.1,
            known: unknown(alloc, hosts)?,
        };
        match lanes.push(lane) {
            Ok(()) => {}
            Err(refused) => return Err(AllocError::from(refused).into()),
        }
    }
    Ok(lanes)
}

/// Whether the first route costs less, or as much over a lower device.
fn is_better(a: RouteRow, b: RouteRow) -> bool
    ensures { result ≡ is_better a b }
{
    a.cost < b.cost || (a.cost == b.cost && a.dev.0 < b.dev.0)
}

/// The better of two routes, where there are any.
fn better(a: Option<RouteRow>, b: Option<RouteRow>) -> Option<RouteRow>
    ensures { result ≡ the_better a b }
{
    let Some(first) = a else {
        return b;
    };
    let Some(second) = b else {
        return a;
    };
    if is_better(second, first) { b } else { a }
}

/// The best route to a host over lanes, whose costs are sought at a place first.
fn best_route(lanes: &[Lane], at: usize, host: Host) -> Option<RouteRow>
    ensures { (r : Routing) (links : List (HostOf × DevOf)) → lanes.now ≡ map (lane_of r) links
        → result ≡ best_lane host None lanes.now }
{
    let mut best = None;
    for lane in lanes {
        best = better(best, lane.route(at, host));
    }
    best
}

/// Whether a host is one of these.
fn is_among(hosts: &[Host], host: Host) -> bool
    ensures { result ≡ is_among hosts.now host }
{
    hosts.iter().any(|h| h.0 == host.0)
}

/// Adds a route, where there is one.
fn add_row(row: Option<RouteRow>, rows: &mut RouteRows) -> Result<(), NoMemory>
    ensures { OnOk result (rows.new ≡ rows.old ++ option_to_list row) }
{
    if let Some(row) = row {
        rows.add(row)?;
    }
    Ok(())
}

impl Table {
    /// The table of a node that has heard nothing: its own host, the network's hosts in the order of the rows that
    /// it will answer, and its neighbours with their devices.
    pub fn new(
        alloc: Global,
        here: Host,
        hosts: &Items<Host>,
        neighbours: &Neighbours,
    ) -> Result<Table, NoMemory>
        ensures { IfOk result (λ t. Stands (opening_routing here hosts.now neighbours.now) t) }
    {
        let lanes = fresh_lanes(alloc, hosts.as_slice(), neighbours.as_slice())?;
        Ok(Table {
            here,
            hosts: Items::from_slice(alloc, hosts.as_slice())?,
            lanes,
        })
    }

    /// Hears an advert on a device. Takes no memory.
    pub fn hear(&mut self, dev: Dev, advert: &Advert)
        ensures { (r : Routing) → Stands r self.old → Stands (hears r dev advert.now) self.new }
    {
        hear_all(&mut self.lanes, dev, advert.rows.as_slice());
    }

    /// The route to a host, whose costs are sought at a place first.
    fn route_near(&self, at: usize, host: Host) -> Option<RouteRow>
        ensures { (r : Routing) → Stands r self.now → result ≡ the_route r host }
    {
        if self.here.0 == host.0 {
            return Some(RouteRow {
                host: self.here,
                next: self.here,
                dev: Dev(0),
                cost: 0,
            });
        }
        best_route(self.lanes.as_slice(), at, host)
    }

    /// The route to a host, `None` exactly where no cost is known. The node's own host is reached over device 0
    /// with cost 0. Takes no memory.
    pub fn route(&self, host: Host) -> Option<RouteRow>
        ensures { (r : Routing) → Stands r self.now → result ≡ the_route r host }
    {
        self.route_near(0, host)
    }

    fn add_route(&self, at: usize, host: Host, rows: &mut RouteRows) -> Result<(), NoMemory>
        ensures { (r : Routing) → Stands r self.now → OnOk result
            (rows.new ≡ rows.old ++ option_to_list (the_route r host)) }
    {
        add_row(self.route_near(at, host), rows)
    }

    fn routes(&self, alloc: Global) -> Result<RouteRows, NoMemory>
        ensures { (r : Routing) → Stands r self.now → IfOk result (λ rows. rows ≡ all_routes r) }
    {
        let mut rows = Items::new(alloc);
        let mut at: usize = 0;
        for host in self.hosts.as_slice() {
            self.add_route(at, *host, &mut rows)?;
            at = at.saturating_add(1);
        }
        Ok(rows)
    }

    /// The routes to all hosts of the network, in their order.
    pub fn router(&self, alloc: Global) -> Result<Router, NoMemory>
        ensures { (r : Routing) → Stands r self.now → IfOk result (λ rows. rows ≡ all_routes r) }
    {
        Ok(Router::new(self.routes(alloc)?))
    }

    /// The route to a host of the network.
    fn route_within(&self, host: Host) -> Option<RouteRow>
        ensures { (r : Routing) → Stands r self.now → result ≡ route_within r host }
    {
        if !is_among(self.hosts.as_slice(), host) {
            return None;
        }
        self.route(host)
    }

    /// The route to one host of the network in a list, which is empty where there is none.
    pub fn router_to(&self, alloc: Global, host: Host) -> Result<Router, NoMemory>
        ensures { (r : Routing) → Stands r self.now → IfOk result
            (λ rows. rows ≡ routes_within r host) }
    {
        let mut rows = Items::new(alloc);
        add_row(self.route_within(host), &mut rows)?;
        Ok(Router::new(rows))
    }

    /// What the node advertises to its neighbours: a row for each route.
    pub fn advert(&self, alloc: Global) -> Result<Advert, NoMemory>
        ensures { (r : Routing) → Stands r self.now → IfOk result (λ a. a ≡ own_advert r) }
    {
        let routes = self.routes(alloc)?;
        Ok(Advert {
            host: self.here,
            rows: told_rows(alloc, routes.as_slice())?,
        })
    }
}

/// What is advertised of routes.
fn told_rows(alloc: Global, routes: &[RouteRow]) -> Result<AdvertRows, NoMemory>
    ensures { IfOk result (λ rows. rows ≡ map advert_row routes.now) }
{
    let mut rows = Items::new(alloc);
    for route in routes {
        rows.add(AdvertRow {
            host: route.host,
            cost: route.cost,
        })?;
    }
    Ok(rows)
}
