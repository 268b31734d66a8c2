//! Copies of trees, each equal to its original.
#![tactic(auto)]

mod copied;
mod copies;

pub use copied::TryClone;
pub use copies::{
    copy_clauses, copy_exprs, copy_funs, copy_handler, copy_names, copy_params, copy_places,
    copy_svcs, copy_types, copy_values,
};
