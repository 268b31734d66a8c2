//! The readers of node files: requests, fleets, configurations of serving nodes and logs. Each answers the value of a
//! file or its first line outside the format. A log is also written, line by line, and what is written reads again.
#![tactic(auto)]

mod answers;
mod ask;
mod chunk_words;
mod config;
mod fleet;
mod log;
mod log_text;
mod nodes;
mod parts;

pub use answers::{one_answer, refusals_are_of_lines_read};
pub use ask::read_ask;
pub use config::read_config;
pub use fleet::read_fleet;
pub use log::read_log;
pub use log_text::{log_reads_again, put_log_head, put_log_line, put_lost_line};
