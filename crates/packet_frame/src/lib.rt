//! Frames as bytes: read with their faults, written, and kept as they are on their way between nodes.
#![tactic(auto)]

mod checked;
mod fault;
mod frame;
mod frame_bytes;
mod get;
mod get_stamped;
mod kind;
mod laws;
mod put;
mod put_stamped;
mod spelled;

pub use checked::{Frame, Stamped, get_frame, get_frame2};
pub use checked_chunks::CheckedPacket;
pub use fault::FrameFault;
pub use frame::{PlainFrame, PlainStamped};
pub use frame_bytes::FrameBytes;
pub use laws::{frame_laws, reading_laws, stamped_laws, version_laws};
pub use plan_base::{Stamp, Version};
pub use put::{put_advert, put_ask, put_packet};
pub use put_stamped::{put_advert2, put_packet2};
pub use service_api::{Advert, AdvertRow, AdvertRows};
pub use spelled::{EncodedFrame, What, copy_packet, with_handler};
