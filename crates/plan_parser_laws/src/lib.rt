//! What programs, types and values are by the grammar and by the rules of types, apart from their readers; what is refused is refused for the first thing that is wrong with it, and never for a failed allocation.
#![tactic(auto)]

mod grammar;
mod programs;
mod tokens;
mod typing;
mod values;

pub use grammar::{
    one_answer, one_reading, refusals_are_first, refusals_hold_no_memory, what_is_read_is_written,
    what_is_written_is_read,
};
pub use programs::{
    bodies_are_judged_as_written, program_refusals_are_first, program_refusals_hold_no_memory,
    programs_have_one_answer, programs_have_one_reading, programs_read_are_written,
    programs_written_are_read, trees_are_written, what_is_judged,
};
pub use tokens::{
    blobs_are_refused, chars_are_refused, comments_are_passed, strays_are_refused,
    strings_are_refused, token_refusals_hold_no_memory,
};
pub use typing::{
    chunk_refusals_hold_no_memory, expressions_fail_first, first_failing_call_is_answered,
    first_failing_is_answered, programs_fail_first, typing_refusals_hold_no_memory,
};
pub use values::{
    texts_are_refused_first, value_refusals_are_first, value_refusals_hold_no_memory,
    values_have_one_answer, values_have_one_reading, values_read_are_written,
};
