//! Laws of routes in every network that schedules reach.
ghost use Rattle.std.specs.Prelude.{◌≡◌, ℕ, ◌≤◌, List, Some, All, [], slice_get};
ghost use Rattle.plan_base.specs.declared.ids.Host.{Host};
ghost use Rattle.network_config.specs.Rules.{KeepsNetwork};
ghost use Rattle.network_config.specs.declared.schedule.Topology.{Topology};
ghost use Rattle.network_config.specs.declared.event.WorldEvent.{WorldEvent};
ghost use Rattle.net_world_spec.specs.World.{WorldState, happens, opening};
ghost use Rattle.net_world_spec.specs.Roads.{cost_at, IsDist, BringsNone, WorldWay, Journey};
ghost use Rattle.net_world_spec.specs.Routes.{Reached, RoutesHold, KeepsRoutes, RunKeepsRoutes};
ghost use Rattle.plan_base.specs.declared.tree.Chunk.{Chunk};
ghost use Rattle.plan_meaning.specs.declared.sent.Sent.{Sent};
ghost use Rattle.plan_meaning.specs.State.{VisitState};
ghost use Rattle.plan_meaning.specs.Meaning.{meaning, visited_chunk};
ghost use Rattle.plan_meaning.specs.Laws.{left_by};
ghost use Rattle.dv_routing.specs.Routing.{all_routes};
ghost use Rattle.net_world_spec.specs.Network.{Wiring, RouteFrame, Parcel, Node, Network, IsAt, with_node, queued_frame, Moves};
ghost use Rattle.net_world_spec.specs.Led.{IsLed, IsLedIn};

/// A beginning within the rules is reached.
pub fn openings_are_reached()
    ensures { (t : Topology) → KeepsNetwork t → Reached (opening t) }
{}

/// What an event that brings no packet and no advert from outside makes of a network that is reached is reached.
pub fn events_reach()
    ensures { (w : WorldState) (e : WorldEvent) → Reached w → BringsNone w.version e → Reached
        (happens w e).world }
{}

/// What holds of routes holds in every network that is reached.
pub fn routes_hold()
    ensures { (w : WorldState) → Reached w → RoutesHold w }
{}

/// No event raises a cost, or drops a packet for want of a route.
pub fn events_keep_routes()
    ensures { (w : WorldState) (e : WorldEvent) → Reached w → BringsNone w.version e → KeepsRoutes w
        (happens w e) }
{}

/// The same for every run, after each of its events.
pub fn runs_keep_routes()
    ensures { (t : Topology) (es : List WorldEvent) → KeepsNetwork t → All (BringsNone t.version) es
        → RunKeepsRoutes es (opening t) }
{}

/// A cost is at least the length of a shortest walk.
pub fn costs_are_distances()
    ensures { (w : WorldState) (n x : Host) (c d : ℕ) → Reached w → cost_at w.nodes n x ≡ Some c →
        IsDist w.links n x d → d ≤ c }
{}

/// A way by default routes has at most as many hops as the cost that was read at its start, whatever happens between
/// them.
pub fn ways_are_short()
    ensures { (x : Host) (w : WorldState) (n : Host) (k c : ℕ) → Reached w → cost_at w.nodes n x ≡
        Some c → WorldWay x w n k → k ≤ c }
{}

/// So a packet that is sent to another host is queued at most as often as the cost says that was read at its sender, a last
/// queueing counted that is never sent: frame by frame, it comes over the links to hosts of lower and lower cost.
pub fn journeys_are_short()
    ensures { (x : Host) (w : WorldState) (n : Host) (k c : ℕ) → Reached w → cost_at w.nodes n x ≡
        Some c → Journey x w n k → k ≤ c }
{}

/// What a visit sends is led by its surroundings, however it ends.
pub fn visits_are_led()
    ensures { (k : Chunk) (s : VisitState) → s.outbox ≡ [] → All (IsLedIn s.ctx)
        (left_by (visited_chunk meaning k s).after).outbox }
{}

/// A send that is led by a node's routes and neighbours and is queued there is a move.
pub fn led_sends_move()
    ensures { (far : Wiring) (w : Network) (at : ℕ) (node : Node) (s : Sent)
        (queue : List RouteFrame) → IsAt w at node
        → IsLed node.routing.here node.routing.neighbours (all_routes node.routing) s → slice_get
        node.queues s.dev.0 ≡ Some queue
        → Moves far w (with_node w at (queued_frame node s.dev queue (Parcel s.packet.dest))) }
{}
