//! Sizes of trees: the bytes that they take in marshalled form, their depths and their expressions.
#![tactic(auto)]

mod depths;
mod measures;
mod sizes;

pub use depths::{chunk_nesting, nesting, values_nesting};
pub use measures::{CountsNodes, HasDepth};
pub use sizes::{chunk_weight, code_size, type_size, values_weight, weight};
