//! Laws: a network of known packets stays one.
ghost use Rattle.std.specs.Prelude.{◌≡◌, ℤ, ℕ, List, None};
ghost use Rattle.plan_base.specs.declared.ids.Host.{Host};
ghost use Rattle.service_api.specs.Services.{Offer};
ghost use Rattle.reliable_ports.specs.Programs.{data_chunk};
ghost use Rattle.reliable_ports_world.specs.Visits.{data_allowed};
ghost use Rattle.plan_base.specs.declared.tree.Packet.{Packet};
ghost use Rattle.plan_base.specs.declared.ids.Dev.{Dev};
ghost use Rattle.network_config.specs.declared.event.WorldEvent.{WorldEvent};
ghost use Rattle.node_core_spec.specs.State.{NodeState};
ghost use Rattle.node_core_spec.specs.Node.{packet_step};
ghost use Rattle.net_world_spec.specs.World.{WorldState, happens};
ghost use Rattle.reliable_ports_world.specs.Known.{IsClosed, NodeKnown, StepKnown, WorldKnown, EventKnown, ComesKnown};

/// A packet that arrives, carries an allowed chunk and has no handler leaves a node with allowed ones, and notes what is
/// allowed.
pub fn steps_stay_known()
    ensures { (offer : Offer) (dest : Host) (seq : ℤ) (body : List ℕ)
        → (node : NodeState) (d : Dev) (p : Packet)
        → IsClosed (data_allowed offer dest seq body) → p.chunk ≡ data_chunk dest seq body →
        p.handler ≡ None
        → NodeKnown (data_allowed offer dest seq body) node
        → StepKnown (data_allowed offer dest seq body) (packet_step node d p) }
{}

/// Each event of a network of known packets leaves one, and what is noted is allowed.
pub fn events_stay_known()
    ensures { (offer : Offer) (dest : Host) (seq : ℤ) (body : List ℕ)
        → (w : WorldState) (e : WorldEvent)
        → IsClosed (data_allowed offer dest seq body)
        → ComesKnown (data_allowed offer dest seq body) e
        → WorldKnown (data_allowed offer dest seq body) w
        → EventKnown (data_allowed offer dest seq body) (happens w e) }
{}
