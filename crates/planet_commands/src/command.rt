//! What a command on a file is.
ghost use Rattle.std.specs.Prelude.{◌≡◌, ◌^◌, ◌<◌, ◌≤◌, List, ℕ, length};
ghost use Rattle.planet_commands.specs.Said.{Said};
ghost use Rattle.planet_commands.specs.Renders.{Prints, Renders};

use crate::status::Cause;
use node_io::{Sink, put_all};
use std::alloc::Global;

/// A command that reads one file and writes one text.
pub trait FileCommand {
    // the most bytes of the file, and what its bytes say: a text to write, or the first refusal
    ghost limit: { ℕ };

    ghost said: { Self → List ℕ → Said (List ℕ) };

    /// The most bytes of the file.
    fn limit() -> usize
        ensures is { result ≡ limit }
        ensures fits { result < 2 ^ 62 };

    /// Writes the text that the file's bytes say, or refuses them before anything is written.
    fn write<K: Sink>(&self, alloc: Global, bytes: &[u8], out: &mut K) -> Cause
        requires { length bytes.now ≤ limit }
        ensures { Renders (said self.now bytes.now) result (K.state out.old) (K.state out.new) };
}

/// Writes a text that is whole.
pub fn print<K: Sink>(text: &[u8], out: &mut K) -> Cause
    ensures { Prints text.now result (K.state out.old) (K.state out.new) }
{
    match put_all(out, text) {
        Ok(()) => Cause::Done,
        Err(_) => Cause::WriteFault,
    }
}
