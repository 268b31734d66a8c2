//! Room and numbers of devices, and sending on them.
ghost use Rattle.std.specs.Prelude.{◌≡◌, ◌∷◌, ◌++◌, map, IfOk, vec_len, vec_capacity, ◌≤◌, ◌+◌, length, [], Some, IsTrue, slice_get};
ghost use Rattle.std.specs.Option.{option_to_list};
ghost use Rattle.node_core_spec.specs.declared.acts.Act.TheVariants.{Noted};
ghost use Rattle.node_core_spec.specs.Node as spec;
ghost use Rattle.node_core_parts.specs.Drops as drops;

use crate::leaving::{Leavings, OutgoingFrame};
use node_core_spec::{Act, ActList, TxQueue};
use packet_frame::EncodedFrame;
use plan_base::Dev;
use service_api::Notes;
use std::alloc::AllocError;

/// The number of frames that a device's queue holds.
const MOST_QUEUED: u32 = link_queue::MOST_QUEUED;

/// Whether a device's queue has room.
fn lane_room(lane: &TxQueue) -> bool
    ensures { result ≡ spec.lane_room lane.now }
{
    lane.frames.len() < MOST_QUEUED
}

/// Whether a device has given all its numbers, where the frame needs one.
fn is_spent(lane: &TxQueue, frame: &EncodedFrame) -> bool
    ensures { result ≡ spec.is_spent lane.now frame.now.stamp }
{
    frame.is_stamped() && lane.number == u64::MAX
}

/// Whether a device has room and a number for one more frame.
fn queue_room(lane: &TxQueue, frame: &EncodedFrame) -> bool
    ensures { result ≡ spec.queue_room (Some lane.now) frame.now }
{
    lane_room(lane) && !is_spent(lane, frame)
}

/// Whether a device has room and a number for one more frame.
#[tactic(auto, unfolding(node_core_spec::specs::Node::has_room))]
fn has_room(lanes: &[TxQueue], dev: Dev, frame: &EncodedFrame) -> bool
    ensures { result ≡ spec.has_room lanes.now dev frame.now }
{
    match lanes.get(dev.0 as usize) {
        None => false,
        Some(lane) => queue_room(lane, frame),
    }
}

/// Puts a frame into the queue of a device that has room and a number: the frame gets the next number.
fn add_frame(lane: &mut TxQueue, frame: EncodedFrame)
    requires { IsTrue (spec.queue_room (Some lane.old) frame) }
    ensures { lane.new ≡ spec.lane_with lane.old frame }
{
    let is_stamped = frame.is_stamped();
    let _ = lane.frames.push(frame.with_number(lane.number));
    if is_stamped {
        lane.number += 1;
    }
}

/// Puts a frame into the queue of a device that has room.
#[tactic(auto, unfolding(node_core_spec::specs::Node::has_room))]
fn queue_frame(lanes: &mut [TxQueue], dev: Dev, frame: EncodedFrame)
    requires { IsTrue (spec.has_room lanes.old dev frame) }
    ensures { lanes.new ≡ spec.queue_push lanes.old dev frame (slice_get lanes.old dev.0) }
{
    add_frame(&mut lanes[dev.0 as usize], frame);
}

/// The act of a frame that isn't queued.
fn drop_act(lanes: &[TxQueue], sending: &OutgoingFrame) -> Act
    ensures { result ≡ drops.drop_by (slice_get lanes.now sending.now.dev.0) sending.now.dropped
        sending.now.spent }
{
    match lanes.get(sending.dev().0 as usize) {
        None => sending.dropped(),
        Some(lane) => if lane_room(lane) {
            sending.spent()
        } else {
            sending.dropped()
        },
    }
}

/// Queues a frame, or drops it where its device has no room or no number. Takes no memory.
#[tactic(auto, using(crate::proofs::LeavingLaws::room_so, crate::proofs::LeavingLaws::queued_so, crate::proofs::LeavingLaws::queues_so, crate::proofs::LeavingLaws::dropped_so, crate::proofs::LeavingLaws::stays_so))]
pub fn send_one(lanes: &mut [TxQueue], sending: OutgoingFrame) -> Act
    ensures act { result ≡ spec.send_act lanes.old sending }
    ensures lanes { lanes.new ≡ spec.send_queues lanes.old sending }
{
    let dev = sending.dev();
    if has_room(lanes, dev, sending.frame()) {
        let queued = sending.queued();
        queue_frame(lanes, dev, sending.into_frame());
        queued
    } else {
        drop_act(lanes, &sending)
    }
}

/// Queues frames one after the other, and adds their acts. Takes no memory.
#[tactic(auto, using(crate::proofs::SendLaws::sends_acts_none, crate::proofs::SendLaws::sends_queues_none, crate::proofs::SendLaws::sends_acts_more, crate::proofs::SendLaws::sends_queues_more))]
pub fn send_all(acts: &mut Vec<Act>, lanes: &mut [TxQueue], sends: Leavings)
    requires { vec_len acts.old + length sends ≤ vec_capacity acts.old }
    ensures acts { acts.new.items ≡ acts.old.items ++ spec.sends_acts lanes.old sends }
    ensures lanes { lanes.new ≡ spec.sends_queues lanes.old sends }
{
    for sending in sends.into_vec() {
        let act = send_one(lanes, sending);
        acts.push_reserved(act);
    }
}

/// Adds the notes of a visit. Condition: there is room for them. Takes no memory.
fn note_all(acts: &mut Vec<Act>, notes: Notes)
    requires { vec_len acts.old + length notes ≤ vec_capacity acts.old }
    ensures acts { acts.new.items ≡ acts.old.items ++ map Noted notes }
    ensures len { vec_len acts.new ≡ vec_len acts.old + length notes }
    ensures capacity { vec_capacity acts.new ≡ vec_capacity acts.old }
{
    for note in notes.into_vec() {
        acts.push_reserved(Act::Noted(note));
    }
}

/// Adds the notes of a visit, its end and the act of its handler, if there is one. Condition: there is room for them. Takes no
/// memory.
fn add_end(acts: &mut Vec<Act>, notes: Notes, end: Act, handled: Option<Act>)
    requires { vec_len acts.old + length notes + 2 ≤ vec_capacity acts.old }
    ensures { acts.new.items ≡ acts.old.items ++
        (map Noted notes ++ (end ∷ option_to_list handled)) }
{
    note_all(acts, notes);
    acts.push_reserved(end);
    if let Some(act) = handled {
        acts.push_reserved(act);
    }
}

/// What a step lists: some acts, the notes of a visit, its end and the act of its handler, if there is one, with room for its
/// sends.
pub(crate) fn begin_acts(
    before: ActList,
    notes: Notes,
    end: Act,
    handled: Option<Act>,
    sends: usize,
) -> Result<Vec<Act>, AllocError>
    ensures acts { IfOk result (λ acts. acts.items ≡ before ++
        (map Noted notes ++ (end ∷ option_to_list handled))) }
    ensures room { IfOk result (λ acts. vec_len acts + sends ≤ vec_capacity acts) }
{
    let mut acts = before.into_vec();
    match acts.reserve(notes.len() + 2) {
        Ok(()) => {
            add_end(&mut acts, notes, end, handled);
            acts.reserve(sends)?;
            Ok(acts)
        }
        Err(refused) => {
            drop(notes);
            drop(end);
            drop(handled);
            Err(refused)
        }
    }
}
