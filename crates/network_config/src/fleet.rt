//! Requests and fleets, as their files say them.
use checked_chunks::CheckedChunk;
use containers::Items;
use plan_base::{Host, Text};

/// A request to inject a chunk at a serving node.
pub struct AskFile {
    /// The port to which it is sent, not 0.
    pub to: u16,
    /// The port from which it is sent, not 0.
    pub from: u16,
    /// The bound of the injection, at most 65,535.
    pub bound: u32,
    /// What is injected.
    pub chunk: CheckedChunk,
}

impl Drop for AskFile {
    fn drop(self) {
        let AskFile {
            to: _to,
            from: _from,
            bound: _bound,
            chunk: _chunk,
        } = self;
    }
}

/// Several nodes and requests that are started together.
pub struct Fleet {
    /// What is started, in order, 1 to 64.
    pub children: Kids,
}

impl Drop for Fleet {
    fn drop(self) {
        let Fleet {
            children: _children,
        } = self;
    }
}

/// A list of children.
pub type Kids = Items<Kid>;

/// A child of a fleet.
#[derive(Drop)]
pub enum Kid {
    /// A node, with the file of its configuration and its number of turns, from 1 to 1,000,000.
    Node(Host, Text, u32),
    /// A request for a node, with its file.
    Ask(Host, Text),
}
