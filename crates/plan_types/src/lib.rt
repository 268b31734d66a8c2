//! The checking of programs.
#![tactic(auto)]

mod body;
mod call;
mod checker;
mod form;
mod names;
mod operation;
mod program;
mod settle;
mod state;
mod typed;

pub use plan_types_spec::{TypeFault, checking_is_typing, full_programs_stay, types_are_unique};
pub use typed::{annotate, check, first_refusal};
