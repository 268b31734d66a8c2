//! What takes bytes, and what holds files.
ghost use Rattle.std.specs.Prelude.{◌<◌, length, IsTrue};
ghost use Rattle.node_io.specs.Sinks.{SinkState, Pushes};
ghost use Rattle.node_io.specs.FileStates.{FilesState, BeginsReading, Pulls, BeginsWriting, AddResult};

use containers::Items;

/// The answer of a call of the environment that failed. A count of faults rose in that call.
#[derive(Clone, Copy, PartialEq, Eq)]
pub struct Failed;

/// The numbers, counted from 1, of the calls of a form in memory that are to fail.
pub type Calls = Items<u64>;

/// What takes bytes: an output.
pub trait Sink {
    ghost state: { Self → SinkState };

    /// Appends a prefix of `piece` and answers its length, at least 1 for a nonempty piece.
    fn push(&mut self, piece: &[u8]) -> Result<usize, Failed>
        ensures pushes { Pushes piece.now (state self.old) (state self.new) result };
}

/// Files by name, of which one is read and one is written at a time.
pub trait Files {
    ghost state: { Self → FilesState };

    /// Begins to read the file `name` at its first byte. A missing file is a fault. After a failure
    /// no reading is begun.
    fn read_from(&mut self, name: &str) -> Result<(), Failed>
        ensures begins { BeginsReading name.now (state self.old) (state self.new) result };

    /// Copies the next bytes to the front of `buf` and answers their number, 0 only at the end of
    /// the file. Conditions: a reading is begun, and `buf` isn't empty.
    fn pull(&mut self, buf: &mut [u8]) -> Result<usize, Failed>
        requires begun { IsTrue (state self.old).reading }
        requires room { 0 < length buf.old }
        ensures pulls { Pulls buf.new (state self.old) (state self.new) result };

    /// Makes the file `name` empty and begins to write it. After a failure no writing is begun.
    fn write_to(&mut self, name: &str) -> Result<(), Failed>
        ensures begins { BeginsWriting name.now (state self.old) (state self.new) result };

    /// Appends a prefix of `piece` to the file being written and answers its length, at least 1 for a
    /// nonempty piece. A failed push takes nothing. Condition: a writing is begun.
    fn push(&mut self, piece: &[u8]) -> Result<usize, Failed>
        requires { IsTrue (state self.old).writing }
        ensures adds { AddResult piece.now (state self.old) (state self.new) result };
}
