//! The two ends of a reliable port: a sender that holds what isn't acknowledged, and a receiver that delivers in order.
//!
//! Below them stand the port's program, as a tree and read from its text, and the chunks that carry its messages and acks.
#![tactic(auto)]

mod checked;
mod chunks;
mod ends;
mod laws;
mod number;
mod receiver;
mod sender;

pub use checked::{chunks_are_checked, port_is_checked, port_is_read};
pub use chunks::{ack_chunk, data_chunk, port_code};
pub use laws::scripts_deliver_in_order;
pub use receiver::{AckFault, Bodies, Came, Receiver};
pub use sender::{Ack, OfferFault, Sender, TransmitFault};
