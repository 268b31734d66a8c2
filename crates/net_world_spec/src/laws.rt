//! Laws of each run: balance, bounds, and what histories say of the wire.
ghost use Rattle.std.specs.Prelude.{◌≡◌, ℕ, List, length, All};
ghost use Rattle.plan_base.specs.declared.ids.Family.{Family};
ghost use Rattle.network_config.specs.Rules.{HostsDiffer, KeepsNetwork};
ghost use Rattle.network_config.specs.declared.schedule.Topology.{Topology};
ghost use Rattle.network_config.specs.declared.event.WorldEvent.{WorldEvent};
ghost use Rattle.plan_base.specs.declared.tree.Packet.{Packet};
ghost use Rattle.node_core_spec.specs.Contexts.{IsOrdered};
ghost use Rattle.node_core_spec.specs.Visits.{around};
ghost use Rattle.net_world_spec.specs.World.{WorldState, happens, opening, world_after, history_of};
ghost use Rattle.net_world_spec.specs.Counts.{line_sum, is_late, EventInBalance, no_past, past_after, PastAgrees, LeavesByWire, Balanced, IsBounded, IsGranted};
ghost use Rattle.net_world_spec.specs.Visits.{EndsWell, event_visits, line_ends};
ghost use Rattle.net_world_spec.specs.Wires.{IsOnce, WireLeads};
ghost use Rattle.net_world_spec.specs.Sound.{IsSound, event_fits, EventsFit};

/// Each event is in balance, for each family.
pub fn events_balance()
    ensures { (f : Family) (w : WorldState) (e : WorldEvent) → IsSound w → EventInBalance f
        (is_late w e) w (happens w e) }
{}

/// From the beginning on, each run is in balance, for each family.
pub fn runs_balance()
    ensures { (f : Family) (t : Topology) (es : List WorldEvent) → KeepsNetwork t → EventsFit
        t.version es → Balanced f (history_of es (opening t)) (world_after es (opening t)) }
{}

/// What a history says of handings agrees with the wire, so each event leaves what its lines leave by the wire.
pub fn runs_tell_handings()
    ensures past { (t : Topology) (es : List WorldEvent) → KeepsNetwork t → EventsFit t.version es →
        PastAgrees (past_after no_past (history_of es (opening t))) (world_after es (opening t)) }
    ensures left { (f : Family) (t : Topology) (es : List WorldEvent) (e : WorldEvent) →
        KeepsNetwork t → EventsFit t.version es → LeavesByWire f (history_of es (opening t))
        (world_after es (opening t)) e }
{}

/// Each family is injected at most once, and never pays and has more than it was granted.
pub fn runs_are_bounded()
    ensures { (f : Family) (t : Topology) (es : List WorldEvent) → KeepsNetwork t → EventsFit
        t.version es → IsBounded f (history_of es (opening t)) (world_after es (opening t)) }
{}

/// Only a granted family has packets, and serial numbers only grow.
pub fn runs_are_granted()
    ensures { (f : Family) (t : Topology) (es : List WorldEvent) → HostsDiffer t.hosts → EventsFit
        t.version es → IsGranted f (history_of es (opening t)) (world_after es (opening t)) }
{}

/// A network keeps its limits at the beginning.
pub fn openings_are_sound()
    ensures { (t : Topology) → KeepsNetwork t → IsSound (opening t) }
{}

/// Each event keeps what every network keeps.
pub fn events_keep()
    ensures { (w : WorldState) (e : WorldEvent) → event_fits w.version e → IsSound w → IsSound
        (happens w e).world }
{}

/// Each number is sent at most once, and then it is on the wire, or was delivered or lost, once.
pub fn numbers_go_once()
    ensures { (n : ℕ) (t : Topology) (es : List WorldEvent) → IsOnce n (history_of es (opening t))
        (world_after es (opening t)) }
{}

/// Each frame on the wire is to arrive at the other end of the link over which it was sent.
pub fn frames_lead_over_links()
    ensures { (t : Topology) (es : List WorldEvent) → WireLeads t.links
        (world_after es (opening t)).wire }
{}

/// An event's visits are all that end among its lines; none is without a case, and each would end by itself.
pub fn visits_end_well()
    ensures all { (w : WorldState) (e : WorldEvent) → line_sum line_ends (happens w e).lines ≡
        length (event_visits w e) }
    ensures well { (w : WorldState) (e : WorldEvent) → event_fits w.version e → IsSound w → All
        EndsWell (event_visits w e) }
{}

/// The context of each visit of a packet is in order: neighbours by device and routes by host, each once.
pub fn contexts_are_ordered()
    ensures { (w : WorldState) → IsSound w → All
        (λ node. (p : Packet) → IsOrdered (around node p)) w.nodes }
{}
