//! The printed form of types, values and programs.
#![tactic(auto)]

mod pieces;
mod programs;
mod types;
mod values;

pub use pieces::put;
pub use programs::print_program;
pub use types::print_type;
pub use values::{print_value, put_values};
