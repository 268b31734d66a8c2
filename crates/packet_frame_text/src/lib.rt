//! Frames in words: what a frame says, and why bytes are none.
#![tactic(auto)]

mod frames;
mod reasons;

pub use frames::print_frame;
pub use reasons::put_reason;
