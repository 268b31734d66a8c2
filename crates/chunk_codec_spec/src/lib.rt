//! How types, values, expressions, programs and chunks are spelled in bytes: the tags, the faults of
//! a reading, and the definitions and laws that the readers and writers are proved against.
#![tactic(auto)]

mod fault;
mod sizes;
mod tags;

pub use fault::SpellFault;
pub use sizes::{form_laws, size_laws};
pub use tags::{EXPR_TAGS, ExprTag, OPERATORS, TYPE_TAGS, TypeTag, VALUE_TAGS, ValueTag};
