//! The outside of a node: files, sinks, links, clocks and child processes as traits, their forms in
//! memory, which report what they hold, and adapters over the real files and outputs, which don't.
//!
//! Every call that can fail answers [`Failed`] only where a count of faults rose in it.
#![tactic(auto)]

mod children;
mod clock;
mod counts;
mod file_list;
mod link;
mod mem_files;
mod mem_link;
mod mem_sink;
mod mem_spawner;
mod outside;
mod read;
mod reading;
mod spawner;
mod text;
mod write;

pub use clock::{Clock, MemClock, Moments};
pub use counts::raise;
pub use file_list::FileList;
pub use link::{Arrival, Arrivals, Got, Link, MOST_RECEIVED, Peer, Peers, SentFrames};
pub use mem_files::MemFiles;
pub use mem_link::MemLink;
pub use mem_sink::MemSink;
pub use mem_spawner::MemSpawner;
pub use outside::{Calls, Failed, Files, Sink};
pub use read::{ReadError, read_whole};
pub use spawner::{Child, Spawner, Statuses};
pub use write::{put_all, put_file};
