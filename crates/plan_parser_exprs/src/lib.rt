//! How types and expressions are read from tokens, each with its first refusal.
#![tactic(auto)]

mod ahead;
mod atoms;
mod begins;
mod builder;
mod codes;
mod fault;
mod forms;
mod joint;
mod level;
mod levels;
mod node;
mod reader;
mod start;
mod types;

pub use ahead::Ahead;
pub use atoms::{MOST_ARGUMENTS, MOST_ITEMS};
pub use fault::{ParseFault, Wanted};
pub use level::Level;
pub use levels::expr_to;
pub use node::{MOST_DEPTH, Node};
pub use reader::name_at;
pub use types::{MOST_PARTS, begins_type, one_type, opens, past_type, type_to};
