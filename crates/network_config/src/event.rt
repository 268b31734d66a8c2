//! What may happen to a network, to a node, and what a log has of it.
use checked_chunks::CheckedChunk;
use containers::Items;
use plan_base::{Bytes, Dev, Host, Name};

/// A list of events of a network.
pub type WorldEvents = Items<WorldEvent>;

/// What happens to a network at one moment.
#[derive(Drop)]
pub enum WorldEvent {
    /// A typed chunk is injected at a host with a bound of at most 65,535 and its handler, under version 2 alone.
    Inject(Host, CheckedChunk, u32, Option<Name>),
    /// A host sends the first frame queued on a device, from 0 to 8.
    Send(Host, Dev),
    /// The frame with this number is taken off the wire and arrives.
    Deliver(u32),
    /// The frame with this number arrives, and stays on the wire: in a network of version 2 alone.
    Repeat(u32),
    /// The frame with this number is taken off the wire and is lost.
    Lose(u32),
    /// A host's time goes on by one.
    Tick(Host),
    /// These bytes, 1 to 16,513, arrive at a host on a device, from 0 to 8. They were never on the wire.
    Raw(Host, Dev, Bytes),
}

/// What happens to one node at one moment.
#[derive(Drop)]
pub enum Event {
    /// A typed chunk is injected with a bound of at most 65,535 and its handler, under version 2 alone.
    Inject(CheckedChunk, u32, Option<Name>),
    /// These bytes, 1 to 16,513, arrive on a device, from 0 to 8.
    Frame(Dev, Bytes),
    /// These bytes, 1 to 16,513, arrive from the node's owner.
    Control(Bytes),
    /// The node's time goes on by one.
    Tick,
    /// The first frame queued on a device, from 0 to 8, is taken.
    Take(Dev),
}

/// A list of entries of a node's log.
pub type LogEvents = Items<LogEvent>;

/// One entry of a node's log.
#[derive(Drop)]
pub enum LogEvent {
    /// An event that the node took.
    Step(Event),
    /// An event for which an allocation failed, so that it changed nothing.
    Lost,
}
