//! Laws of visits and steps: each is in balance, and none is without a case.
ghost use Rattle.std.specs.Prelude.{◌≡◌, ℕ, ◌≤◌, ◌<◌, false, Option, length};
ghost use Rattle.plan_base.specs.declared.ids.Dev.{Dev};
ghost use Rattle.packet_frame.specs.declared.frame.PlainStamped.{PlainStamped};
ghost use Rattle.plan_base.specs.declared.stamp.Stamp.{Stamp};
ghost use Rattle.plan_base.specs.declared.stamp.Version.TheVariants.{Two};
ghost use Rattle.replay_window.specs.Seen.{is_fresh};
ghost use Rattle.plan_base.specs.declared.ids.Family.{Family};
ghost use Rattle.plan_base.specs.declared.tree.Packet.{Packet};
ghost use Rattle.service_api.specs.Services.{IsGood, IsGoodChunk, begun_now};
ghost use Rattle.network_config.specs.declared.event.Event.{Event};
ghost use Rattle.node_core_spec.specs.State.{NodeState};
ghost use Rattle.node_core_spec.specs.Visits.{VisitKeeps, HasCase, around, evaluated_packet, visit_at, settled_at};
ghost use Rattle.node_core_spec.specs.Node.{node_step, stamped_step, takes_as};
ghost use Rattle.node_core_spec.specs.Orders.{queue_at, MovesInOrder};
ghost use Rattle.node_core_spec.specs.Contexts.{IsOrdered};
ghost use Rattle.node_core_spec.specs.Fits.{IsMarked, NodeFits, comes_fit};
ghost use Rattle.node_core_spec.specs.Counts.{came, stale, StepBalances};

/// Each visit keeps its balance: the packet's bound is what it paid, left and sent.
pub fn visit_balance()
    ensures { (node : NodeState) (p : Packet) → VisitKeeps p (visit_at node p) }
{}

/// So does each settled visit.
pub fn settled_visit_balance()
    ensures { (node : NodeState) (p : Packet) → VisitKeeps p (settled_at node p).visit }
{}

/// With services that keep their laws and at most 8 neighbours, the visit of a typed chunk never is without a case.
pub fn visit_has_case()
    ensures { (node : NodeState) (p : Packet) → IsGood node.services → length node.neighbours ≤ 8 →
        IsGoodChunk p.chunk → HasCase (evaluated_packet (around node p)
        (begun_now node.services) p) }
{}

/// Each step of a node is in balance, for each family, and what came in with a stale frame stands in its acts.
pub fn step_balance()
    ensures { (f : Family) (node : NodeState) (e : Event) → StepBalances f (came f node e)
        (stale f node e) node (node_step node e) }
{}

/// Each step keeps what every node keeps: queues of at most 64 frames, whose packets are typed and have
/// at most 65,535 and a handler that may handle, if one, rows within their limits, adverts within theirs, and neighbours by
/// device.
pub fn step_keeps()
    ensures { (node : NodeState) (e : Event) → comes_fit node.version e → NodeFits node → NodeFits
        (node_step node e).node }
{}

/// The context of a visit at a node is in order: its neighbours by device, and its routes by host.
pub fn contexts_are_ordered()
    ensures { (node : NodeState) (p : Packet) → NodeFits node → IsOrdered (around node p) }
{}

/// Frames of one device leave in the order in which they were queued: at each step they join its queue at the end, or the
/// first one leaves it.
pub fn queues_move_in_order()
    ensures { (d : ℕ) (node : NodeState) (e : Event) → MovesInOrder (queue_at node.queues d)
        (queue_at (node_step node e).node.queues d) }
{}

/// What isn't fresh on a device isn't fresh there after a frame arrives; under version 2 neither is that frame.
pub fn windows_only_close()
    ensures later { (node : NodeState) (d e : Dev) (x : PlainStamped) (s : Option Stamp) → is_fresh
        (takes_as node.seen e s) ≡ false → is_fresh
        (takes_as (stamped_step node d x).node.seen e s) ≡ false }
    ensures taken { (node : NodeState) (d : Dev) (x : PlainStamped) → IsMarked Two x.stamp → d.0 <
        length node.seen → is_fresh (takes_as (stamped_step node d x).node.seen d x.stamp) ≡ false }
{}
