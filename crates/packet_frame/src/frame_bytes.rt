//! The bytes of a frame that was sent, which are spelled where they are shown.
ghost use Rattle.std.specs.Prelude.{◌≡◌, IfOk};
ghost use Rattle.packet_frame.specs.Stamped.{stamped_bytes};

use crate::spelled::EncodedFrame;
use plan_base::{Bytes, NoMemory};
use std::alloc::Global;
use std::marker::Model;

/// The bytes of a frame, kept as that frame, which contracts see as these bytes.
pub struct FrameBytes {
    frame: EncodedFrame,
}

// (with its own `Drop`, as the frame)
impl Drop for FrameBytes {
    fn drop(self) {
        let FrameBytes { frame: _frame } = self;
    }
}

impl Model for FrameBytes {
    ghost use Rattle.std.specs.Prelude.{List, ℕ};
    ghost use Rattle.std.specs.Coded.{coded_list, coded_ℕ};
    ghost use Rattle.packet_frame.specs.Stamped.{stamped_bytes};

    ghost Value = { List ℕ };

    ghost coded = { coded_list coded_ℕ };

    ghost view = { λ b. stamped_bytes b.frame };
}

impl FrameBytes {
    /// The bytes of this frame. Takes no memory, and fails only where the count of its owners is full.
    pub fn of(frame: &EncodedFrame) -> Result<FrameBytes, NoMemory>
        ensures { IfOk result (λ b. b ≡ stamped_bytes frame.now) }
    {
        Ok(FrameBytes {
            frame: frame.share()?,
        })
    }

    /// The bytes themselves.
    pub fn spell(&self, alloc: Global) -> Result<Bytes, NoMemory>
        ensures { IfOk result (λ b. b ≡ self.now) }
    {
        self.frame.to_bytes(alloc)
    }
}
