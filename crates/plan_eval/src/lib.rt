//! Visits: the evaluation of a packet's chunk, by recursion to a depth and on a stack.
#![tactic(auto)]

mod allowances;
mod place;
mod start;
mod task;
mod turns;
mod visiting;

pub use allowances::greater_allowances;
pub use visiting::visit;
