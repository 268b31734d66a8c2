//! An example of services of one's own over the libraries: a counter and a greeting, and a node that has no links.
//!
//! [`ExampleServices`] offers `count` and `greet` over the trait `Services`, [`packet_of`] makes a packet of a program's text,
//! and [`visit_once`] visits it. `docs/develop/embedding.md` goes through them clause by clause.
#![tactic(auto)]

mod answers;
mod fault;
mod laws;
mod offered;
mod packets;
mod service;
mod services;
mod serving;
mod visits;

pub use fault::PacketFault;
pub use laws::{answers_are_good, others_are_refused};
pub use packets::packet_of;
pub use service::ExampleService;
pub use services::ExampleServices;
pub use visits::visit_once;
