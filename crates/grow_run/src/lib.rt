//! A network that grows by itself: its events are drawn and made one after the other, what happens is counted as it
//! comes, and the summary of it is written.
#![tactic(auto)]

mod choice;
mod draws;
mod events;
mod growth;
mod laws;
mod pings;
mod run;
mod summary;
mod sums;
mod text;
mod topology;

pub use choice::RandomEvent;
pub use draws::{begin, choose};
pub use run::grow;
pub use summary::Summary;
pub use sums::{Totals, sum_rows};
pub use text::put_summary;
pub use topology::ring;
