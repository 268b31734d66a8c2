//! Which numbered frames a device has taken, of all that it ever took: a window over the greatest number.
#![tactic(auto)]

mod laws;
mod window;

pub use laws::stamps_stay_taken;
pub use window::{Took, Window};
