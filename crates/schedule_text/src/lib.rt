//! Schedules: read from their lines, each refused line by its number, and what holds of a schedule that is written.
#![tactic(auto)]

mod events;
mod keyword;
mod law;
mod line_laws;
mod network;
mod parts;
mod read;
mod reading;

pub use law::one_answer;
pub use line_laws::{
    lines_before_a_refusal_are_inside, skipped_lines_only_count, written_schedules_are_read,
};
pub use read::read_schedule;
