//! Places, lines and marks of a picture.
use crate::line::Row;
use containers::Items;
use plan_base::Bytes;

/// The most hosts that a chart has columns for.
pub const MOST_HOSTS: usize = 64;

/// A place in the picture: half columns across, and rows down.
#[derive(Clone, Copy)]
pub struct Point {
    /// Half columns from the left margin. Hosts stand at odd numbers.
    pub across: u32,
    /// Rows from the top, from 1.
    pub row: u32,
}

/// What a line is drawn as.
#[derive(Clone, Copy)]
pub enum Kind {
    /// An arrow: a frame on the wire.
    Frame,
    /// A frame came in. It is the head of an arrow, and drawn by itself only where it came from
    /// outside.
    Arrival,
    /// A frame left its queue. It is the tail of an arrow, and drawn by itself only in a log.
    Sending,
    /// A cross: a frame was lost.
    Loss,
    /// A visit that ended with a value.
    Value,
    /// A visit that ended with an exception.
    Exception,
    /// A visit that passed its allowance of work.
    Spent,
    /// Something was dropped or refused.
    Dropped,
    /// What a visit printed or handed to a port.
    Note,
    /// A packet was injected.
    Start,
    /// A packet was forged.
    Forgery,
    /// A faint remark: queues, ticks, adverts, asks, calls of handlers, frames that stay on the wire, and events that named nothing.
    Aside,
    /// Nothing is drawn.
    Unseen,
}

/// How an arrow is drawn.
#[derive(Clone, Copy)]
pub enum LineStyle {
    /// A packet.
    Packet,
    /// An advert: faint.
    Advert,
    /// A frame that was lost: dashed.
    Lost,
    /// A frame that is still on the wire at the end: dotted.
    Open,
    /// A frame that nobody sent.
    Forged,
}

/// A line of a trace as it is drawn.
pub struct Mark {
    /// What it is drawn as.
    pub kind: Kind,
    /// Its label, not yet escaped. Empty: none.
    pub label: Bytes,
    /// The number of its event.
    pub event: u64,
    /// Whether it is the first line of its event.
    pub begins: bool,
    /// Where it stands; of an arrow, its tail.
    pub at: Point,
    /// The head of an arrow.
    pub to: Point,
    /// How an arrow is drawn.
    pub stroke: LineStyle,
    /// Whether the frame comes from outside the network or goes there.
    pub is_outside: bool,
}

// (with its own `Drop`, so that what drops a mark need not work out how its label is dropped)
impl Drop for Mark {
    fn drop(self) {
        let Mark {
            kind: _kind,
            label: _label,
            event: _event,
            begins: _begins,
            at: _at,
            to: _to,
            stroke: _stroke,
            is_outside: _is_outside,
        } = self;
    }
}

/// The column of a host.
#[derive(Clone, Copy)]
pub struct Lane {
    /// Where it stands.
    pub across: u32,
    /// The number of the host.
    pub host: u32,
}

/// A whole chart before it is written.
pub struct Drawing {
    /// The columns, by host.
    pub lanes: Items<Lane>,
    /// A mark for each line of the trace.
    pub marks: Items<Mark>,
    /// The row below the last line.
    pub bottom: u32,
    /// The rows of the ledger, where there is one.
    pub ledger: Option<Items<Row>>,
    /// The width in pixels.
    pub width: u64,
    /// The height in pixels.
    pub height: u64,
}

// (with its own `Drop`, as a mark)
impl Drop for Drawing {
    fn drop(self) {
        let Drawing {
            lanes: _lanes,
            marks: _marks,
            bottom: _bottom,
            ledger: _ledger,
            width: _width,
            height: _height,
        } = self;
    }
}
