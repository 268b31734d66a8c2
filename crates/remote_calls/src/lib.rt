//! What an evaluation may still pay, and the two ways in which it sends a chunk.
//!
//! A send pays its bound, of at least 1, and puts one packet with that bound behind those that are to be sent; or it is
//! refused and changes nothing. Both sends are a way, which may be refused, and then the sending of a packet on that way.
#![tactic(auto)]

mod fault;
mod purse;
mod sends;
mod way;

pub use fault::{NoBound, SendFault};
pub use purse::Purse;
pub use sends::{default_route, on_neighbor, on_remote, send};
pub use way::{SendWay, neighbour_way, remote_way};
