//! All that touches the machine: files, outputs, a link over UDP on loopback, the system's clock, child processes, and the words of the call.
//!
//! None of them reports what it holds. Each counts its faults, and fails only where its count rose.
#![tactic(auto)]

mod arguments;
mod host_clock;
mod host_files;
mod host_sink;
mod host_spawner;
mod stack;
mod udp_link;
mod words;

pub use arguments::{Argument, Arguments, arguments_of};
pub use host_clock::HostClock;
pub use host_files::HostFiles;
pub use host_sink::HostSink;
pub use host_spawner::HostSpawner;
pub use stack::take_stack;
pub use udp_link::UdpLink;
pub use words::{program_of, words_of};
