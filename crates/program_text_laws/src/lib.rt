//! How the tokens of a program are read, whatever wrote them, and what stands on it: a text that is given by its tree is
//! that program.
#![tactic(auto)]

mod laws;

pub use laws::written_programs_are_read;
