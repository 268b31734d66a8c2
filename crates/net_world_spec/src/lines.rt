//! The lines of a trace, and what stands on the wire.
use containers::Items;
use node_core_spec::{Act, What};
use packet_frame::{EncodedFrame, FrameBytes};
use plan_base::{Dev, Family, Host};

/// A list of lines.
pub type Lines = Items<Line>;

/// One line of a trace.
#[derive(Drop)]
pub enum Line {
    /// A host did this.
    At(Host, Act),
    /// Bytes that were never on the wire arrive at this host as a packet of this family with this bound.
    Forged(Host, Family, u32),
    /// A frame was put on the wire under this number, with these bytes.
    Wire(u32, FrameBytes),
    /// The frame with this number was taken off the wire.
    Off(u32),
    /// The frame with this number was handed to its receiving end, and stayed on the wire.
    Again(u32),
    /// A frame was lost.
    Lost(What),
    /// The event changed nothing.
    Nothing,
}

/// A list of entries.
pub type Entries = Items<Entry>;

/// A line with the number of its event, from 1.
#[derive(Drop)]
pub struct Entry {
    /// The number of the event.
    pub event: u32,
    /// The line.
    pub line: Line,
}

/// One end of a link.
#[derive(Clone, Copy, PartialEq, Eq)]
pub struct LinkEnd {
    /// The host.
    pub host: Host,
    /// Its device.
    pub dev: Dev,
}

/// The frames on the wire in the order of their numbers.
pub type Wire = Items<FrameOnWire>;

/// A frame on the wire.
#[derive(Drop)]
pub struct FrameOnWire {
    /// Its number, from 1 in the order of sending.
    pub number: u32,
    /// The end that sent it.
    pub from: LinkEnd,
    /// The end that is to receive it.
    pub to: LinkEnd,
    /// The frame.
    pub frame: EncodedFrame,
    /// Whether it was handed before.
    pub handed: bool,
}

/// How a frame on the wire is handed to its receiving end.
#[derive(Clone, Copy, PartialEq, Eq)]
pub enum Delivery {
    /// It is taken off the wire.
    Taking,
    /// It stays on the wire, as one that was handed.
    Leaving,
}
