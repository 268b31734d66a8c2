//! What a node does in a step: its acts and what it sends.
use containers::Items;
use link_queue::Queue;
use packet_frame::{EncodedFrame, FrameFault, What};
use plan_base::{Dev, Family, Name};
use plan_meaning::Outcome;
use replay_window::Took;
use service_api::Note;

/// Why a packet was dropped.
#[derive(Clone, Copy, PartialEq, Eq)]
pub enum Reason {
    /// It had to go on, and its bound was 0.
    NoBound,
    /// Its routing function isn't there.
    NoService,
    /// No route leads to its destination.
    NoRoute,
    /// 64 frames are queued on its device.
    QueueFull,
    /// All numbers of its device were given.
    LinkSpent,
}

/// A list of acts.
pub type ActList = Items<Act>;

/// One thing that a node did.
pub enum Act {
    /// It took in a chunk as a packet of this family with this bound.
    Injected(Family, u32),
    /// Bytes arrived over this device.
    Arrived(Dev),
    /// Bytes arrived from its owner.
    Asked,
    /// A visit noted this.
    Noted(Note),
    /// A visit of a packet of this family ended so, with these evals paid and this rest of the purse.
    Ended(Family, Outcome, u32, u32),
    /// That visit is reported to its source by a call of this handler, with this bound.
    Handled(Family, Name, u32),
    /// A packet of this family was queued on this device with this bound.
    Queued(Dev, Family, u32),
    /// A packet of this family was dropped with this bound.
    Dropped(Reason, Family, u32),
    /// The bytes that arrived are no frame, for this reason.
    Bad(FrameFault),
    /// The frame that arrived doesn't belong there.
    Misplaced,
    /// Its advert was queued on this device.
    AdvertQueued(Dev),
    /// Its advert was dropped, since 64 frames are queued on this device.
    AdvertDropped(Dev),
    /// Its advert was dropped, since all numbers of this device were given.
    AdvertSpent(Dev),
    /// The frame that arrived was taken before, or is too old, as its stamp says; it held this.
    Stale(Took, What),
    /// It heard the advert of the neighbour on this device.
    Heard(Dev),
    /// Its time went on to this tick.
    Ticked(u64),
    /// The first frame of this device was taken.
    Taken(Dev, What),
    /// An injection was refused, since the node has given all its serial numbers.
    SerialsSpent,
    /// A step was dropped, since it found no memory. No step has this act.
    NoMemory,
}

impl Drop for Act {
    fn drop(self) {
        match self {
            Act::Noted(note) => drop(note),
            Act::Ended(_, outcome, _, _) => drop(outcome),
            Act::Handled(_, name, _) => drop(name),
            Act::Bad(refusal) => drop(refusal),
            Act::Injected(_, _) => {}
            Act::Arrived(_) => {}
            Act::Queued(_, _, _) => {}
            Act::Dropped(_, _, _) => {}
            Act::AdvertQueued(_) => {}
            Act::AdvertDropped(_) => {}
            Act::AdvertSpent(_) => {}
            Act::Stale(_, _) => {}
            Act::Heard(_) => {}
            Act::Ticked(_) => {}
            Act::Taken(_, _) => {}
            Act::Asked | Act::Misplaced | Act::SerialsSpent | Act::NoMemory => {}
        }
    }
}

/// What a step of a node gives.
#[derive(Drop)]
pub struct Acts {
    /// The acts in order.
    pub list: ActList,
    /// The frame that the step took, where it took one.
    pub frame: Option<EncodedFrame>,
}

/// A list of frames to be queued.
pub type Sendings = Items<Sending>;

/// A frame to be queued: on which device, and the act where it is queued or dropped.
#[derive(Drop)]
pub struct Sending {
    /// The device.
    pub dev: Dev,
    /// The frame.
    pub frame: EncodedFrame,
    /// The act where the device has room for it.
    pub queued: Act,
    /// The act where the device has none.
    pub dropped: Act,
    /// The act where all numbers of the device were given.
    pub spent: Act,
}

/// A device of a node: the frames that are queued on it, and the number of the next one.
#[derive(Drop)]
pub struct TxQueue {
    /// The frames.
    pub frames: Queue<EncodedFrame>,
    /// The number of the next one.
    pub number: u64,
}
