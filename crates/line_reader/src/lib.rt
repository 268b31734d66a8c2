//! Files of lines: what all of them share. Lines and words, numbers, hosts, packages, file names, bytes in hex,
//! programs and what is injected, and the reading of a whole file line by line up to its first refusal.
#![tactic(auto)]

mod fault;
mod file_names;
mod files;
mod handlers;
mod headers;
mod hex_words;
mod host_lists;
mod laws;
mod numbers;
mod package_words;
mod programs;
mod words;

pub use fault::{LineError, LineFault, LineReason};
pub use file_names::{as_file_name, file_name};
pub use files::{LineFile, read_file};
pub use handlers::handler;
pub use headers::version_of;
pub use hex_words::{bytes_of_hex, hex_bytes};
pub use host_lists::hosts;
pub use laws::{
    lines_before_a_refusal_are_inside, refusals_stand_at_lines, skipped_lines_only_count,
};
pub use numbers::{decimal, number, number_of, wide_number};
pub use package_words::{package, packages};
pub use programs::{OpenProgram, add_weight, call, injection, name_of, program};
pub use words::{Words, allow, is, says_nothing, stopped_at};
