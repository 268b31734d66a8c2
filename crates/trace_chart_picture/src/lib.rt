//! The lines of a trace, read, and the picture that is drawn of them.
#![tactic(auto)]

mod charts;
mod cuts;
mod drawing;
mod entry;
mod escape;
mod events;
mod lanes;
mod laws;
mod ledger;
mod line;
mod marks;
mod number;
mod picture;
mod pieces;
mod rest;
mod sights;
mod signs;
mod styles;
mod trace;
mod walk;
mod ways;
mod words;
mod write;

pub use charts::{ChartFault, MOST_BYTES, chart};
pub use drawing::{Drawing, Kind, Lane, LineStyle, MOST_HOSTS, Mark, Point};
pub use escape::put_escaped;
pub use laws::{marks_lie_inside, strokes_agree};
pub use line::{Entry, Line, Reason, Row, Trace, What};
pub use marks::{DrawFault, draw};
pub use number::put_number;
pub use picture::put_picture;
pub use trace::{TraceFault, read_trace};
pub use write::{put_family, put_rest};
