//! Evaluation over one stack: one recursion over the forms of an expression, down to a depth, where what is left waits.
//!
//! An operation gathers the values of its operands on the stack and makes something of them; what waits goes on at an operand, at
//! the next step of a fold, or at what a `try` raised.
#![tactic(auto)]

mod bodies;
mod choice;
mod folds;
mod forms;
mod tries;

pub use folds::fold;
pub use forms::{evaluate, form};
pub use tries::caught;
