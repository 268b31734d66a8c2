//! The queues of a node, one a device.
ghost use Rattle.std.specs.Prelude.{◌≡◌, ◌∷◌, IfOk, IsTrue, slice_get};
ghost use Rattle.node_core_spec.specs.State.{no_queues};
ghost use Rattle.node_core_parts.specs.Queued.{has_first, is_filled, queued_at, TakesFirst};

use containers::Items;
use link_queue::Queue;
use node_core_spec::TxQueue;
use packet_frame::EncodedFrame;
use plan_base::NoMemory;
use std::alloc::Global;

/// The number of devices of a node, with device 0.
pub const DEVICES: usize = 9;

/// Each device with nothing queued, and the number of its first frame.
pub(crate) fn open_lanes(alloc: Global, link: u64) -> Result<Vec<TxQueue>, NoMemory>
    ensures { IfOk result (λ lanes. lanes.items ≡ no_queues link) }
{
    let mut lanes = Items::new(alloc);
    while lanes.len() < DEVICES {
        lanes.add(TxQueue {
            frames: Queue::with_room(alloc)?,
            number: link,
        })?;
    }
    Ok(lanes.into_vec())
}

/// The number of frames that are queued on a device, 0 for one that isn't there. Takes no memory.
pub fn count_frames(lanes: &[TxQueue], at: usize) -> u32
    ensures { result ≡ queued_at (slice_get lanes.now at) }
{
    match lanes.get(at) {
        None => 0,
        Some(lane) => lane.frames.len(),
    }
}

/// Whether a frame is queued on a device. Takes no memory.
pub fn has_frame(lanes: &[TxQueue], at: usize) -> bool
    ensures { result ≡ has_first (slice_get lanes.now at) }
{
    match lanes.get(at) {
        None => false,
        Some(lane) => !lane.frames.is_empty(),
    }
}

/// Takes the first frame off. Condition: there is one.
fn pop_frame(lane: &mut TxQueue) -> EncodedFrame
    requires { IsTrue (is_filled lane.old.frames) }
    ensures first { lane.old.frames ≡ result ∷ lane.new.frames }
    ensures number { lane.new.number ≡ lane.old.number }
{
    lane.frames.pop().unwrap()
}

/// Takes the first frame of a device off. Condition: a frame is queued there. Takes no memory.
pub fn take_first(lanes: &mut [TxQueue], at: usize) -> EncodedFrame
    requires { IsTrue (has_first (slice_get lanes.old at)) }
    ensures { TakesFirst lanes.old at result lanes.new }
{
    pop_frame(&mut lanes[at])
}
