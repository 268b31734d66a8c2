//! The top call `planet`: a command by its words, over files, outputs, a link, a clock and children.
#![tactic(auto)]

mod by_words;
mod call_laws;
mod command_laws;
mod kinds;
mod top;
mod words;

pub use by_words::run;
pub use call_laws::{
    accepted, asked, complete, cut_notes, explained, files, fleet_lines, fleet_stops, front,
    grow_ends, link_fault, made, no_arrivals, no_frames, no_link_fault, no_moments,
    no_nodes_failed, no_spawn_fault, no_starts, note, own, read_fault, refused, refused_always,
    silent, spawn_fault, statuses, unserved, usage, usage_always, whole, write_fault,
};
pub use command_laws::{
    audit_asked, audited, checked, failed_keeps, fleet, fleet_accepts_once, fleet_adds_up,
    fleet_complete, fleet_front, fleet_only, fleet_starts, gathered, grown, grown_whole, in_order,
    injected, injected_line, injects, log_keeps, logged, logs_are_ordered, logs_replay, messages,
    node_complete, node_keeps_files, node_makes_its_log, paid, parted, ported, replayed,
    replays_are_whole, runs_are_ordered, served, served_agrees, served_keeps, serves, shown,
    shown_only, shown_whole, unbound, waited,
};
pub use kinds::Kind;
pub use planet_commands::{Cause, Refusal, Status};
pub use top::planet;
pub use words::{Command, read_words};
