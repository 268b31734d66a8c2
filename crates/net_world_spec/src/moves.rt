//! Laws of routes over all events: costs never rise, and each packet that comes has a route.
ghost use Rattle.std.specs.Prelude.{◌≡◌, ◌≤◌, ℕ, Some, Contains, position, slice_get};
ghost use Rattle.plan_base.specs.declared.ids.Host.{Host};
ghost use Rattle.plan_base.specs.declared.ids.Dev.{Dev};
ghost use Rattle.service_api.specs.declared.router.RouteRow.{RouteRow};
ghost use Rattle.dv_routing.specs.Routing.{Routing, route as the_route};
ghost use Rattle.net_world_spec.specs.Network.{Wiring, Parcel, Node, Network, is_of, IsAt, Goes, routings, routing_at, cost_at};
ghost use Rattle.net_world_spec.specs.Truths.{IsKnown, NoneRises, RoutesHold, IsOpening, IsHop, Falls};
ghost use Rattle.net_world_spec.specs.Walks.{IsReached, IsDist, RouteWay};

/// It holds where nothing has happened yet.
pub fn opening_holds()
    ensures { (far : Wiring) (w : Network) → IsOpening far w → RoutesHold far w }
{}

/// Whatever happens, it goes on to hold, and no cost rises.
pub fn moves_keep()
    ensures holds { (far : Wiring) (v w : Network) → RoutesHold far v → Goes far v w →
        RoutesHold far w }
    ensures rises { (far : Wiring) (v w : Network) → Goes far v w → NoneRises (routings v)
        (routings w) }
{}

/// The node at the first place of a host is the one that the network knows by that host.
pub fn places_are_first()
    ensures { (w : Network) (h : Host) (at : ℕ) (node : Node) → position (is_of h) w.nodes ≡ Some at
        → slice_get w.nodes at ≡ Some node
        → IsAt w at node × (node.routing.here ≡ h) }
{}

/// A packet that comes to a node has a cost there, so it is never dropped for want of a route.
pub fn packets_have_routes()
    ensures { (far : Wiring) (w : Network) (m : Host) (d : Dev) (x : Host) → RoutesHold far w →
        Contains w.wire ((m, d), Parcel x)
        → IsKnown (cost_at (routings w) m x) }
{}

/// Where a node's route to another host leads to a neighbour, that neighbour's cost is lower.
pub fn costs_fall()
    ensures { (far : Wiring) (w : Network) (x n : Host) (row : RouteRow) → RoutesHold far w → IsHop
        w x n row → Falls (routings w) x row }
{}

/// Behind every cost is a walk of at most its length, so a cost is at least the length of a shortest walk.
pub fn costs_reach()
    ensures walk { (far : Wiring) (w : Network) (n x : Host) (c : ℕ) → RoutesHold far w → cost_at
        (routings w) n x ≡ Some c → IsReached far n x c }
    ensures dist { (far : Wiring) (w : Network) (n x : Host) (c d : ℕ) → RoutesHold far w → cost_at
        (routings w) n x ≡ Some c
        → IsDist far n x d → d ≤ c }
{}

/// A way by default routes has at most as many hops as the cost that was read at its start, whatever happens between
/// them.
pub fn cut_ways_are_short()
    ensures { (far : Wiring) (x : Host) (w : Network) (n : Host) (k c : ℕ) → RoutesHold far w →
        cost_at (routings w) n x ≡ Some c → RouteWay far x w n k → k ≤ c }
{}

/// The device of a route leads to its next host, and that of a node's route to itself leads to itself.
pub fn routes_lead()
    ensures other { (far : Wiring) (w : Network) (x n : Host) (row : RouteRow) → RoutesHold far w →
        IsHop w x n row
        → (e : Dev) × (far n row.dev ≡ Some (row.«next», e)) }
    ensures own { (far : Wiring) (w : Network) (n : Host) (r : Routing) (row : RouteRow)
        (end : Host × Dev) → RoutesHold far w
        → routing_at (routings w) n ≡ Some r → the_route r n ≡ Some row → far n row.dev ≡ Some end →
        (row.cost ≡ 0) × (end.0 ≡ n) }
{}
