//! Fields of bytes: a [`Cursor`] reads the next one or says where it is cut off, an [`Out`] puts
//! bytes into room that was taken before.
#![tactic(auto)]

mod cursor;
mod out;

pub use cursor::{Cursor, Truncated};
pub use out::Out;
