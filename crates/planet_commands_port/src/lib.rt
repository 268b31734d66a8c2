//! The command of two ends of a reliable port: `port`.
#![tactic(auto)]

mod port;

pub use port::Port;
