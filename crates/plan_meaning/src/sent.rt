//! A packet that a visit sends.
use checked_chunks::CheckedPacket;
use containers::Items;
use plan_base::Dev;

/// A packet that a visit sends, with the device that it leaves by.
#[derive(Drop)]
pub struct Sent {
    /// The device.
    pub dev: Dev,
    /// The packet, whose chunk is typed; its bound was paid.
    pub packet: CheckedPacket,
}

/// What a visit sends, in order.
pub type Outbox = Items<Sent>;
