//! The checking of values and chunks.
#![tactic(auto)]

mod fault;
mod ill;
mod laws;
mod shape;
mod typed_chunk;

pub use fault::{ChunkFault, Ill};
pub use laws::values_have_types;
pub use shape::fits;
pub use typed_chunk::{check_chunk, chunk_of};
