//! Which kind of event a draw gives.
use plan_base::{Dev, Host};

/// What is to happen next.
#[derive(Clone, Copy, PartialEq, Eq)]
pub enum RandomEvent {
    /// The first host injects a ping to the second.
    Inject(Host, Host),
    /// A host sends the first frame queued on a device, from 0 to 2.
    Send(Host, Dev),
    /// The frame with this number arrives.
    Deliver(u32),
    /// The frame with this number is lost.
    Lose(u32),
    /// A host's time goes on by one.
    Tick(Host),
}
