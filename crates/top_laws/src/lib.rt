//! Laws that nothing stands on: of what files say, and of texts that are printed and read again.
#![tactic(auto)]

mod again;
mod counts;
mod expressions;
mod lines;
mod printed;
mod programs;
mod rules;
mod values;
mod written;

pub use again::{
    printed_expr_reads, printed_program_again, printed_program_reads, printed_type_reads,
    printed_value_again, printed_value_reads,
};
pub use counts::{files_only_count, skipped_lines_only_move};
pub use lines::ends_are_visits;
pub use printed::{printed_program_lexes, printed_type_lexes, printed_value_lexes};
pub use programs::program_reads_again;
pub use rules::values_keep_rules;
pub use values::arguments_read_again;
pub use written::{
    written_configurations_are_read, written_fleets_are_read, written_requests_are_read,
};
