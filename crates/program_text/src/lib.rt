//! Programs read from their texts: tokens, then the grammar, then the types that are missing.
#![tactic(auto)]

mod fault;
mod laws;
mod reading;
mod reason;

pub use fault::TextFault;
pub use laws::one_pass;
pub use reading::{read_args, read_program};
pub use reason::{place_of, put_reason};
