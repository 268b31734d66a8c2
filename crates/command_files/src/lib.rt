//! The files of the commands `audit`, `cut` and `port`, read from their lines.
#![tactic(auto)]

mod audit;
mod audit_laws;
mod cut;
mod keys;
mod port;
mod port_events;
mod port_laws;
mod port_reading;
mod text;

pub use audit::{AuditFile, AuditReading, AuditWord, LogNames, read_audit};
pub use audit_laws::one_audit;
pub use cut::{CutFile, one_cut, read_cut};
pub use port::{PortEvent, PortEvents, PortFile, PortReading, PortStage, PortWord};
pub use port_laws::one_port;
pub use port_reading::read_port;
pub use text::cut_text;
