//! Steps of one node inside a network.
ghost use Rattle.std.specs.Prelude.{◌≡◌, ◌≤◌, ◌<◌, [], List, length, IfOk, IfSome, None};
ghost use Rattle.std.specs.List.{position_from};
ghost use Rattle.std.specs.Prelude.{slice_get, Some};
ghost use Rattle.plan_types_spec.specs.Handlers.{MayHandle};
ghost use Rattle.network_config.specs.Rules.{MayName};
ghost use Rattle.node_core_spec.specs.State.{NodeState, is_host};
ghost use Rattle.node_core_spec.specs.Node.{inject_step, stamped_step, arrive_step, tick_step, take_step};
ghost use Rattle.node_core.specs.Stands.{NodeStands, IsStep};
ghost use Rattle.net_world_spec.specs.World as spec;
ghost use Rattle.net_world.specs.Stands.{AllStand, StepsAt, MayNameAt, IsMarkedAt};

use checked_chunks::CheckedChunk;
use node_core::{Node, Version};
use node_core_spec::Acts;
use packet_frame::EncodedFrame;
use plan_base::{Dev, Host, Name, NoMemory};
use service_api::Services;
use std::alloc::Global;

/// The place of the first node of a host.
fn host_place<S: Services>(nodes: &[Node<S>], host: Host) -> Option<usize>
    ensures place { result ≡ position_from (λ n. is_host n.here host) 0 nodes.now }
    ensures within { IfSome result (λ at. at < length nodes.now) }
{
    let mut at = 0;
    let mut rest = nodes;
    while let [node, later @ ..] = rest {
        if node.here().0 == host.0 {
            return Some(at);
        }
        at += 1;
        rest = later;
    }
    None
}

/// The place of a host's node.
pub fn node_place<S: Services>(nodes: &[Node<S>], host: Host) -> Option<usize>
    ensures place { (states : List NodeState) → AllStand S.stands nodes.now states
        → result ≡ spec.place_of states host }
    ensures within { IfSome result (λ at. at < length nodes.now) }
{
    host_place(nodes, host)
}

/// The version of the node at this place.
pub fn version_at<S: Services>(nodes: &[Node<S>], at: usize) -> Version
    requires { at < length nodes.now }
    ensures { (states : List NodeState) (s : NodeState) → AllStand S.stands nodes.now states
        → slice_get states at ≡ Some s → result ≡ s.version }
{
    nodes[at].version()
}

/// An injection at a node, with a bound of at most 65,535; a node of version 1 takes no handler.
fn inject_one<S: Services>(
    alloc: Global,
    node: &mut Node<S>,
    chunk: CheckedChunk,
    bound: u32,
    handler: Option<Name>,
) -> Result<Acts, NoMemory>
    requires small { bound ≤ 65535 }
    requires handler { MayHandle chunk handler }
    ensures { (s : NodeState) → NodeStands S.stands node.old s
        → MayName s.version chunk handler → IfOk result
        (λ acts. IsStep S.stands (inject_step [] s chunk bound handler) acts node.new) }
{
    match node.version() {
        Version::One => node.inject(alloc, chunk, bound, None),
        Version::Two => node.inject(alloc, chunk, bound, handler),
    }
}

/// An injection at the node at this place, with a bound of at most 65,535.
pub fn inject_at<S: Services>(
    alloc: Global,
    nodes: &mut [Node<S>],
    at: usize,
    chunk: CheckedChunk,
    bound: u32,
    handler: Option<Name>,
) -> Result<Acts, NoMemory>
    requires within { at < length nodes.old }
    requires small { bound ≤ 65535 }
    requires handler { MayHandle chunk handler }
    ensures { (states : List NodeState) → AllStand S.stands nodes.old states
        → MayNameAt states at chunk handler → IfOk result (λ acts. StepsAt S.stands
        (λ node. inject_step [] node chunk bound handler) states at acts nodes.new) }
{
    inject_one(alloc, &mut nodes[at], chunk, bound, handler)
}

/// Bytes arrive at the node at this place.
pub fn arrive_at<S: Services>(
    alloc: Global,
    nodes: &mut [Node<S>],
    at: usize,
    dev: Dev,
    bytes: &[u8],
) -> Result<Acts, NoMemory>
    requires { at < length nodes.old }
    ensures { (states : List NodeState) → AllStand S.stands nodes.old states
        → IfOk result (λ acts. StepsAt S.stands
        (λ node. arrive_step node dev bytes.now) states at acts nodes.new) }
{
    nodes[at].arrive(alloc, dev, bytes)
}

/// A frame of its version arrives at the node at this place.
pub fn hand_to<S: Services>(
    alloc: Global,
    nodes: &mut [Node<S>],
    at: usize,
    dev: Dev,
    frame: &EncodedFrame,
) -> Result<Acts, NoMemory>
    requires { at < length nodes.old }
    ensures { (states : List NodeState) → AllStand S.stands nodes.old states
        → IsMarkedAt states at frame.now.stamp → IfOk result (λ acts. StepsAt S.stands
        (λ node. stamped_step node dev frame.now) states at acts nodes.new) }
{
    nodes[at].arrive_spelled(alloc, dev, frame)
}

/// A tick of the node at this place.
pub fn tick_at<S: Services>(
    alloc: Global,
    nodes: &mut [Node<S>],
    at: usize,
) -> Result<Acts, NoMemory>
    requires { at < length nodes.old }
    ensures { (states : List NodeState) → AllStand S.stands nodes.old states
        → IfOk result (λ acts. StepsAt S.stands tick_step states at acts nodes.new) }
{
    nodes[at].tick(alloc)
}

/// The first frame of a device is taken at the node at this place.
pub fn take_at<S: Services>(
    alloc: Global,
    nodes: &mut [Node<S>],
    at: usize,
    dev: Dev,
) -> Result<Acts, NoMemory>
    requires { at < length nodes.old }
    ensures step { (states : List NodeState) → AllStand S.stands nodes.old states
        → IfOk result
        (λ acts. StepsAt S.stands (λ node. take_step node dev) states at acts nodes.new) }
    ensures same { (states : List NodeState) → AllStand S.stands nodes.old states
        → IfOk result (λ acts. acts.frame ≡ None → AllStand S.stands nodes.new states) }
{
    nodes[at].take(alloc, dev)
}
