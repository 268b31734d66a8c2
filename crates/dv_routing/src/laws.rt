//! Laws of routes: each is a least one, and no advert raises a cost.
ghost use Rattle.std.specs.Prelude.{◌≡◌, ◌≢◌, ℕ, ◌≤◌, ◌<◌, ◌^◌, true, Some, None, List, [], length};
ghost use Rattle.std.specs.List.{All};
ghost use Rattle.plan_base.specs.declared.ids.Host.{Host};
ghost use Rattle.plan_base.specs.declared.ids.Dev.{Dev};
ghost use Rattle.service_api.specs.declared.advert.Advert.{Advert};
ghost use Rattle.service_api.specs.Adverts.{AdvertFits};
ghost use Rattle.dv_routing.specs.Routing.{Routing, route as the_route, own_route, hears, cost as the_cost, is_among, all_routes, row_for, own_advert};
ghost use Rattle.dv_routing.specs.Laws.{NoRise, IsRouteAnswer, LeadsBy, HostsHold};
ghost use Rattle.service_api.specs.Routes.{hop, default_route};
ghost use Rattle.service_api.specs.declared.router.Hop.TheVariants.{To};
ghost use Rattle.dv_routing.specs.Sorted.{sorted_into, HostsAscend, HostsDiffer};

/// The route to another host is over the neighbour of least cost, at equal costs over the lowest device; a node
/// reaches itself at no cost.
pub fn route_is_least()
    ensures other { (r : Routing) (x : Host) → r.here ≢ x → IsRouteAnswer r x (the_route r x) }
    ensures own { (r : Routing) → the_route r r.here ≡ Some (own_route r.here) }
{}

/// An advert that is heard raises no cost.
pub fn costs_never_rise()
    ensures { (r : Routing) (d : Dev) (a : Advert) (x : Host) → NoRise (the_cost r x)
        (the_cost (hears r d a) x) }
{}

/// A node's list of routes has the route to each host of the network.
pub fn rows_are_routes()
    ensures { (r : Routing) (x : Host) → is_among r.hosts x ≡ true → row_for (all_routes r) x ≡
        the_route r x }
{}

/// The next hop by a node's list of routes is that of its route, by whatever routing function; and where a host has a
/// cost, the default route has a hop.
pub fn hops_are_routes()
    ensures to { (r : Routing) (name : List ℕ) (x m : Host) (d : Dev) → hop (all_routes r) name
        r.here x ≡ To m d → LeadsBy r x m d }
    ensures known { (r : Routing) (x : Host) (c : ℕ) → HostsHold r → the_cost r x ≡ Some c
        → (m : Host) × (d : Dev) × (hop (all_routes r) default_route r.here x ≡ To m d) }
{}

/// An advert keeps its limits where the network's hosts are at most 32 and ascend.
pub fn adverts_fit()
    ensures { (r : Routing) → r.here.0 < 2 ^ 32 → All (λ h. h.0 < 2 ^ 32) r.hosts →
        length r.hosts ≤ 32
        → HostsAscend None r.hosts → AdvertFits (own_advert r) }
{}

/// Sorted hosts are the same hosts, and ascend where no host stands twice.
pub fn sorted_hosts_ascend()
    ensures same { (hosts : List Host) (x : Host) → is_among (sorted_into [] hosts) x ≡
        is_among hosts x }
    ensures ascend { (hosts : List Host) → HostsDiffer hosts → HostsAscend None
        (sorted_into [] hosts) }
    ensures count { (hosts : List Host) → length (sorted_into [] hosts) ≡ length hosts }
{}
