//! A frame that was taken off a queue, with its bytes.
ghost use Rattle.std.specs.Prelude.{◌≡◌, IfOk};
ghost use Rattle.packet_frame.specs.Spelled.{version_of};
ghost use Rattle.packet_frame.specs.Stamped.{AcceptsBy};

use packet_frame::EncodedFrame;
use plan_base::{Bytes, NoMemory};
use std::alloc::Global;
use std::marker::Model;

/// A frame with its bytes, which contracts see as that frame.
pub(crate) struct TakenFrame {
    frame: EncodedFrame,
    bytes: Bytes,
}

impl Drop for TakenFrame {
    fn drop(self) {
        let TakenFrame {
            frame: _frame,
            bytes: _bytes,
        } = self;
    }
}

impl Model for TakenFrame {
    ghost use Rattle.packet_frame.specs.declared.frame.PlainStamped.{PlainStamped};
    ghost use Rattle.packet_frame.specs.contracts.frame.PlainStamped as whole;
    ghost use Rattle.packet_frame.specs.Spelled.{version_of};
    ghost use Rattle.packet_frame.specs.Stamped.{AcceptsBy};

    ghost Value = { PlainStamped };

    ghost coded = { whole.the_row.coded };

    ghost view = { λ t. t.frame };

    ghost invariant = { λ t. AcceptsBy (version_of t.frame.stamp) t.bytes t.frame };
}

impl TakenFrame {
    /// A frame, with its bytes.
    fn of(alloc: Global, frame: EncodedFrame) -> Result<TakenFrame, NoMemory>
        ensures { IfOk result (λ t. t ≡ frame) }
    {
        let bytes = frame.to_bytes(alloc)?;
        Ok(TakenFrame { frame, bytes })
    }

    /// The bytes. Takes no memory.
    pub(crate) fn bytes(&self) -> &[u8]
        ensures { AcceptsBy (version_of self.now.stamp) result.now self.now }
    {
        self.bytes.as_slice()
    }

    /// The bytes. Takes no memory.
    pub(crate) fn into_bytes(self) -> Bytes
        ensures { AcceptsBy (version_of self.stamp) result self }
    {
        let TakenFrame { frame, bytes } = self;
        drop(frame);
        bytes
    }
}

/// The frame that a step took, where it took one, with its bytes.
pub(crate) fn taken_frame(
    alloc: Global,
    frame: Option<EncodedFrame>,
) -> Result<Option<TakenFrame>, NoMemory>
    ensures { IfOk result (λ t. t ≡ frame) }
{
    match frame {
        Some(frame) => Ok(Some(TakenFrame::of(alloc, frame)?)),
        None => Ok(None),
    }
}
