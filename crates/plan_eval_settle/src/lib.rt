//! What is made of a visit's end: the packet's handler goes on with what the visit sends, and a visit is reported to the source
//! that gave no value.
//!
//! `specs/Settles.antt` says it; docs/language/meaning.md says it in words.
#![tactic(auto)]

mod settling;
mod telling;

pub use settling::{Settled, settle};
