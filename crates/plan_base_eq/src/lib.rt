//! Whether two trees are the same.
#![tactic(auto)]

mod equal;
mod same;

pub use equal::SameAs;
