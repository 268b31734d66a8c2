//! Programs, chunks and packets that are typed: each keeps that fact, so that nothing above tests it again. None of them is
//! checked here.
#![tactic(auto)]

mod checked;
mod checked_chunk;
mod checked_packet;
mod handlers;
mod weighed;

pub use checked::Checked;
pub use checked_chunk::CheckedChunk;
pub use checked_packet::CheckedPacket;
pub use handlers::{fun_of, is_handler};
pub use weighed::is_small_with;
