//! The operators, parts and primitives of the packet language on values.
//!
//! Each answers the value or the exception of the language's rules, `TooLarge` exactly where the joined or lengthened
//! value would weigh more than 16,384 bytes. Operands of other types than typed code has are `Unfit`.
#![tactic(auto)]

mod fault;
mod lists;
mod numbers;
mod operators;
mod order;
mod parts;
mod primitives;
mod raise;

pub use fault::PrimFault;
pub use lists::cons;
pub use operators::binary;
pub use parts::part;
pub use primitives::primitive;
