//! When programs, values and chunks are typed: the rules, the order in which they are checked, and the names that they look up.
//!
//! Beside them stands what operators and primitives give: for each the value or the exception (`specs/Rules.antt`), the
//! test that `=` makes (`specs/Same.antt`), and which types they take (`specs/Typed.antt`).
#![tactic(auto)]

mod laws;
mod names;
mod operands;
mod type_fault;

pub use laws::{checking_is_typing, full_programs_stay, types_are_unique};
pub use names::{place_of, prim_of, service_of};
pub use operands::{equality, operands_fit};
pub use type_fault::TypeFault;
