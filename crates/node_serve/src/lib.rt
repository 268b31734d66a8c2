//! A node that serves: its turns over a link, a clock, files and an output, with a log of each step.
#![tactic(auto)]

mod back;
mod fault;
mod flush;
mod heard;
mod laws;
mod opening;
mod run;
mod server;
mod serving;
mod steps;
mod taken;
mod turns;

pub use fault::ServeFault;
pub use laws::{
    frames_again, link_has_failed, log_is_made, nothing_is_read, reads_again, writing_has_failed,
};
pub use serving::serve;
