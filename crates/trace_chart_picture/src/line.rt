//! The lines of a trace, as a chart reads them.
ghost use Rattle.std.specs.Prelude.{◌≡◌};
ghost use Rattle.trace_chart_picture.specs.Lines as spec;

use containers::Items;
use plan_base::{Bytes, Dev, Family, Host};

/// What a device gave.
#[derive(Clone, Copy, PartialEq, Eq)]
pub enum What {
    /// A packet of this family.
    Packet(Family),
    /// An advert of routes.
    Advert,
}

/// Why a packet was dropped.
#[derive(Clone, Copy, PartialEq, Eq)]
pub enum Reason {
    /// Its bound is 0.
    NoBound,
    /// It asks for a routing function that there is none of.
    NoService,
    /// No route is known.
    NoRoute,
    /// The queue is full.
    QueueFull,
    /// All numbers of the device were given.
    LinkSpent,
    /// Its frame was taken before.
    Repeated,
    /// Its frame is too old.
    TooOld,
}

/// A line of a trace, without the number of its event. Values, notes and refusals are kept as they
/// are printed.
#[derive(Drop)]
pub enum Line {
    /// A packet was injected with this bound.
    Injected(Host, Family, u32),
    /// Bytes that nobody sent were taken for a packet with this bound.
    Forged(Host, Family, u32),
    /// A frame arrived on a device.
    Arrived(Host, Dev),
    /// An ask arrived.
    Asked(Host),
    /// A visit printed a value.
    Printed(Host, Bytes),
    /// A visit handed a value to a port.
    Delivered(Host, u32, Bytes),
    /// A visit ended with a value, after so many evals and with so much left.
    Gave(Host, Family, Bytes, u32, u32),
    /// A visit ended with an exception, likewise.
    Raised(Host, Family, Bytes, u32, u32),
    /// A visit passed its allowance of work, and so much is left.
    Spent(Host, Family, u32),
    /// A visit is reported to the source by a call of this handler, with this bound.
    Handled(Host, Family, Bytes, u32),
    /// A packet was put into a queue with this bound.
    Queued(Host, Dev, Family, u32),
    /// A packet was dropped with this bound.
    Dropped(Host, Reason, Family, u32),
    /// Something else was dropped or refused, as these words say.
    Refused(Host, Bytes),
    /// An advert was queued.
    Advert(Host, Dev),
    /// An advert was heard.
    Heard(Host, Dev),
    /// A node's time is now this.
    Ticked(Host, u64),
    /// A frame left its queue.
    Sent(Host, Dev, What),
    /// The frame that left its queue is on the wire under this number.
    Wire(u32),
    /// The same, with its bytes in hex.
    WireShown(u32, Bytes),
    /// The frame of this number left the wire.
    Off(u32),
    /// The frame of this number arrives, and stays on the wire.
    Again(u32),
    /// A packet with this bound was lost.
    Lost(Family, u32),
    /// An advert was lost.
    LostAdvert,
    /// The event named nothing.
    Nothing,
}

impl Line {
    /// The host at which the line happened, where it names one.
    pub fn host(&self) -> Option<Host>
        ensures { result ≡ spec.host_of self.now }
    {
        match self {
            Line::Injected(h, ..)
            | Line::Forged(h, ..)
            | Line::Arrived(h, _)
            | Line::Asked(h)
            | Line::Printed(h, _)
            | Line::Delivered(h, ..)
            | Line::Gave(h, ..)
            | Line::Raised(h, ..)
            | Line::Spent(h, ..)
            | Line::Handled(h, ..)
            | Line::Queued(h, ..)
            | Line::Dropped(h, ..)
            | Line::Refused(h, _)
            | Line::Advert(h, _)
            | Line::Heard(h, _)
            | Line::Ticked(h, _)
            | Line::Sent(h, ..) => Some(*h),
            Line::Wire(_)
            | Line::WireShown(..)
            | Line::Off(_)
            | Line::Again(_)
            | Line::Lost(..)
            | Line::LostAdvert
            | Line::Nothing => None,
        }
    }

    /// The word that the line begins with.
    pub fn word(&self) -> &'static [u8]
        ensures { result.now ≡ spec.word_text self.now }
    {
        match self {
            Line::Injected(..) => b"inject",
            Line::Forged(..) => b"forged",
            Line::Arrived(..) | Line::Asked(_) => b"arrive",
            Line::Printed(..) => b"print",
            Line::Delivered(..) => b"port",
            Line::Gave(..) => b"value",
            Line::Raised(..) => b"raised",
            Line::Spent(..) => b"spent",
            Line::Handled(..) => b"handler",
            Line::Queued(..) => b"queue",
            Line::Dropped(..) | Line::Refused(..) => b"drop",
            Line::Advert(..) => b"advert",
            Line::Heard(..) => b"heard",
            Line::Ticked(..) => b"tick",
            Line::Sent(..) => b"send",
            Line::Wire(_) | Line::WireShown(..) => b"wire",
            Line::Off(_) => b"off",
            Line::Again(_) => b"again",
            Line::Lost(..) | Line::LostAdvert => b"lost",
            Line::Nothing => b"nothing",
        }
    }
}

/// A line with the number of its event.
pub struct Entry {
    /// The number of the event, from 1.
    pub event: u64,
    /// What happened.
    pub line: Line,
}

// (with its own `Drop`, so that what drops an entry need not work out how each line is dropped)
impl Drop for Entry {
    fn drop(self) {
        let Entry {
            event: _event,
            line: _line,
        } = self;
    }
}

/// A row of a ledger.
#[derive(Clone, Copy, PartialEq, Eq)]
pub struct Row {
    /// The family.
    pub family: Family,
    /// The bounds that it was granted.
    pub granted: u64,
    /// Its frames queued.
    pub hops: u64,
    /// The evals of its visits.
    pub evals: u64,
    /// The bounds of its packets that are under way.
    pub live: u64,
    /// What its visits left, and the bounds of its dropped and lost packets.
    pub left: u64,
}

/// A trace: its lines, and the rows of its ledger. The trace of a log has no ledger.
pub struct Trace {
    /// The lines in order.
    pub entries: Items<Entry>,
    /// The ledger's rows in order.
    pub ledger: Option<Items<Row>>,
}

// (with its own `Drop`, as an entry)
impl Drop for Trace {
    fn drop(self) {
        let Trace {
            entries: _entries,
            ledger: _ledger,
        } = self;
    }
}
