//! Queues a frame that a node sends, or says why it is dropped.
ghost use Rattle.std.specs.Prelude.{◌≡◌};
ghost use Rattle.node_core_parts.specs.Leaving as spec;

use containers::Items;
use node_core_spec::{Act, Reason};
use packet_frame::{EncodedFrame, What};
use plan_base::Dev;
use std::marker::Model;

/// A list of frames to be queued.
pub type Leavings = Items<OutgoingFrame>;

/// A frame to be queued: on which device, and the bound that was paid, where it holds a packet. Contracts see it with the act
/// where it is queued or dropped; only the one that comes true is made.
pub struct OutgoingFrame {
    dev: Dev,
    frame: EncodedFrame,
    bound: u32,
}

impl Drop for OutgoingFrame {
    fn drop(self) {
        let OutgoingFrame {
            dev: _dev,
            frame: _frame,
            bound: _bound,
        } = self;
    }
}

impl Model for OutgoingFrame {
    ghost use Rattle.node_core_spec.specs.declared.acts.Sending.{Sending};
    ghost use Rattle.node_core_spec.specs.contracts.acts.Sending as whole;
    ghost use Rattle.node_core_parts.specs.Leaving.{sending_of};

    ghost Value = { Sending };

    ghost coded = { whole.the_row.coded };

    ghost view = { λ x. sending_of x.dev x.frame x.bound };
}

/// The act of a frame that is queued.
fn queued_act(dev: Dev, what: What) -> Act
    ensures { result ≡ spec.queued_act dev what }
{
    match what {
        What::Packet(family, left) => Act::Queued(dev, family, left),
        What::Advert => Act::AdvertQueued(dev),
    }
}

/// The act of a frame for which its device has no room.
fn dropped_act(dev: Dev, bound: u32, what: What) -> Act
    ensures { result ≡ spec.dropped_act dev bound what }
{
    match what {
        What::Packet(family, _) => Act::Dropped(Reason::QueueFull, family, bound),
        What::Advert => Act::AdvertDropped(dev),
    }
}

/// The act of a frame for which its device has no number.
fn spent_act(dev: Dev, bound: u32, what: What) -> Act
    ensures { result ≡ spec.spent_act dev bound what }
{
    match what {
        What::Packet(family, _) => Act::Dropped(Reason::LinkSpent, family, bound),
        What::Advert => Act::AdvertSpent(dev),
    }
}

impl OutgoingFrame {
    /// A frame to be queued on this device. Takes no memory.
    pub(crate) fn of(dev: Dev, frame: EncodedFrame, bound: u32) -> OutgoingFrame
        ensures { result ≡ spec.sending_of dev frame bound }
    {
        OutgoingFrame { dev, frame, bound }
    }

    /// The device. Takes no memory.
    pub(crate) fn dev(&self) -> Dev
        ensures { result ≡ self.now.dev }
    {
        self.dev
    }

    /// The frame, lent. Takes no memory.
    pub(crate) fn frame(&self) -> &EncodedFrame
        ensures { result.now ≡ self.now.frame }
    {
        &self.frame
    }

    /// The frame itself. Takes no memory.
    pub(crate) fn into_frame(self) -> EncodedFrame
        ensures { result ≡ self.frame }
    {
        let OutgoingFrame {
            dev: _dev,
            frame,
            bound: _bound,
        } = self;
        frame
    }

    /// The act where its device has room. Takes no memory.
    #[tactic(auto, using(crate::proofs::LeavingLaws::queued_is))]
    pub(crate) fn queued(&self) -> Act
        ensures { result ≡ self.now.queued }
    {
        queued_act(self.dev, self.frame.what())
    }

    /// The act where its device has none. Takes no memory.
    #[tactic(auto, using(crate::proofs::LeavingLaws::dropped_is))]
    pub(crate) fn dropped(&self) -> Act
        ensures { result ≡ self.now.dropped }
    {
        dropped_act(self.dev, self.bound, self.frame.what())
    }

    /// The act where all numbers of its device were given. Takes no memory.
    #[tactic(auto, using(crate::proofs::LeavingLaws::spent_is))]
    pub(crate) fn spent(&self) -> Act
        ensures { result ≡ self.now.spent }
    {
        spent_act(self.dev, self.bound, self.frame.what())
    }
}
