//! What carries frames between neighbours.
ghost use Rattle.std.specs.Prelude.{◌≡◌, length};
ghost use Rattle.node_io.specs.Links.{LinkState, HasPeer, Binds, Hears, Sends};

use crate::outside::Failed;
use containers::Items;
use plan_base::{Bytes, Dev};

/// The bytes that a receiving has room for: one more than the longest frame.
pub const MOST_RECEIVED: usize = 16_513;

/// What a receiving answers.
#[derive(Clone, Copy, PartialEq, Eq)]
pub enum Got {
    /// So many bytes came on this device.
    Frame(Dev, usize),
    /// Nothing came.
    Nothing,
    /// The link failed; its count of faults rose.
    Failed,
}

/// A neighbour of a link: the device that leads to it, and its port.
#[derive(Clone, Copy, PartialEq, Eq)]
pub struct Peer {
    /// The device. Device 0 is the control peer.
    pub dev: Dev,
    /// The port on which the peer receives.
    pub port: u16,
}

/// The neighbours of a link.
pub type Peers = Items<Peer>;

/// An entry of the script of a link in memory.
#[derive(Drop)]
pub enum Arrival {
    /// Nothing comes.
    Quiet,
    /// These bytes come on this device.
    On(Dev, Bytes),
}

/// The script of a link in memory.
pub type Arrivals = Items<Arrival>;

/// Frames that were sent, each with its device.
pub type SentFrames = Items<(Dev, Bytes)>;

/// What carries frames between neighbours.
pub trait Link {
    ghost state: { Self → LinkState };

    /// Takes the node's own port and its peers. After a failure there are no peers. Each call stands among the
    /// binds, also where it fails for another cause than memory.
    fn bind(&mut self, port: u16, peers: &Peers) -> Result<(), Failed>
        ensures binds { Binds (port, peers.now) (state self.old) (state self.new) result };

    /// Takes the next frame into `buf`. What comes empty or from no peer's device is passed over,
    /// as if nothing had come; of more than 16,513 bytes only the first 16,513 are taken. Condition:
    /// `buf` has 16,513 bytes.
    fn recv(&mut self, buf: &mut [u8]) -> Got
        requires { length buf.old ≡ 16513 }
        ensures hears { Hears buf.new (state self.old) (state self.new) result }
        ensures room { length buf.new ≡ length buf.old };

    /// Sends a frame on this device; where it fails nothing was sent. Condition: the device is among the peers.
    fn send(&mut self, dev: Dev, bytes: &[u8]) -> Result<(), Failed>
        requires { HasPeer (state self.old).bound dev }
        ensures sends { Sends (dev, bytes.now) (state self.old) (state self.new) result };
}
