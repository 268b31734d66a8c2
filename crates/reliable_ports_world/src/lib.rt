//! A reliable port between two hosts of a network: its schedule, its run, and what it keeps.
#![tactic(auto)]

mod ends;
mod hosts;
mod known_laws;
mod laws;
mod nodes;
mod notes;
mod ports;
mod run;
mod told;
mod visits;

pub use hosts::two_hosts;
pub use known_laws::{opening_is_known, port_is_paid, port_law, registry_serves};
pub use laws::{ports_deliver_in_order, ports_keep_purses};
pub use nodes::{events_stay_known, steps_stay_known};
pub use notes::{Given, HostNote};
pub use ports::Ports;
pub use run::port_text;
pub use told::PortLine;
pub use visits::{ack_visits, data_visits};
