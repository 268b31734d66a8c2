//! Reads the file of two ends of a reliable port.
ghost use Rattle.std.specs.Prelude.{◌≡◌};
ghost use Rattle.command_files.specs.PortFiles.{event_word, nothing_read};

use containers::Items;
use line_reader::is;
use plan_base::{Bytes, Dev, Host};
use std::alloc::Global;

/// A list of events of two ends.
pub type PortEvents = Items<PortEvent>;

/// What happens to two ends and to the network between them.
#[derive(Drop)]
pub enum PortEvent {
    /// A body of 1 to 4,096 bytes is offered.
    Offer(Bytes),
    /// The message with this number is transmitted.
    Transmit(u64),
    /// A host, 1 or 2, sends the first frame queued on a device, from 0 to 8.
    Send(Host, Dev),
    /// The frame with this number is taken off the wire and arrives.
    Deliver(u32),
    /// The frame with this number is taken off the wire and is lost.
    Lose(u32),
    /// The frame with this number arrives, and stays on the wire.
    Repeat(u32),
}

/// What two ends of a port do.
pub struct PortFile {
    /// The purse of the end that offers messages, at most 65,535.
    pub first: u32,
    /// The purse of the end that delivers them, at most 65,535.
    pub second: u32,
    /// The events, at most 50,000.
    pub events: PortEvents,
}

impl Drop for PortFile {
    fn drop(self) {
        let PortFile {
            first: _first,
            second: _second,
            events: _events,
        } = self;
    }
}

/// The first word of an event.
#[derive(Clone, Copy)]
pub enum PortWord {
    /// `offer`
    Offer,
    /// `transmit`
    Transmit,
    /// `send`
    Send,
    /// `deliver`
    Deliver,
    /// `lose`
    Lose,
    /// `repeat`
    Repeat,
}

impl PortWord {
    /// The first word that a word is, or none.
    pub fn of(word: &[u8]) -> Option<PortWord>
        ensures { result ≡ event_word word.now }
    {
        if is(word, b"offer") {
            Some(PortWord::Offer)
        } else if is(word, b"transmit") {
            Some(PortWord::Transmit)
        } else if is(word, b"send") {
            Some(PortWord::Send)
        } else if is(word, b"deliver") {
            Some(PortWord::Deliver)
        } else if is(word, b"lose") {
            Some(PortWord::Lose)
        } else if is(word, b"repeat") {
            Some(PortWord::Repeat)
        } else {
            None
        }
    }
}

/// Which line comes next.
#[derive(Clone, Copy)]
pub enum PortStage {
    /// The header.
    Header,
    /// The purses.
    Purses,
    /// The line `events`.
    Begin,
    /// An event.
    Events,
}

/// What the lines have said so far.
#[derive(Drop)]
pub struct PortReading {
    /// Which line comes next.
    pub stage: PortStage,
    /// The first end's purse, 0 until its line is read.
    pub first: u32,
    /// The second end's purse, 0 until its line is read.
    pub second: u32,
    /// The events.
    pub events: PortEvents,
}

impl PortReading {
    /// Nothing read yet. Takes no memory.
    pub fn nothing(alloc: Global) -> PortReading
        ensures { result ≡ nothing_read }
    {
        PortReading {
            stage: PortStage::Header,
            first: 0,
            second: 0,
            events: Items::new(alloc),
        }
    }
}
