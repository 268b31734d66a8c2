//! Containers that contracts see as what they hold: [`Items`] as a list, [`Boxed`] and [`Shared`]
//! as a value.
//!
//! A tree built of them has no pointer and no capacity in its value, so a contract can say that a
//! copy equals its original, or that a result equals a tree that a definition names.
//!
//! Beside them stand small laws on tests, options and lists that many crates cite, and those of reading: a reader is a
//! function of what is still to be read, one after another is a `do` block, and the first fault of an agenda says where a
//! reading stops.
#![tactic(auto)]

mod boxed;
mod has_key;
mod items;
mod shared;

pub use boxed::Boxed;
pub use has_key::HasKey;
pub use items::Items;
pub use shared::Shared;
