//! Runs a command that reads one file and writes one text.
ghost use Rattle.planet_commands.specs.Said.{all_of, said_in};
ghost use Rattle.planet_commands.specs.Takes.{TakesAndActs};
ghost use Rattle.planet_commands.specs.Renders.{RendersBy};

use crate::command::FileCommand;
use crate::lines::bytes_of;
use crate::status::Cause;
use node_io::{Files, Sink};
use std::alloc::Global;

/// Reads the file `name` and writes the output of a command.
pub fn on_file<R: FileCommand, F: Files, K: Sink>(
    alloc: Global,
    files: &mut F,
    command: &R,
    name: &str,
    out: &mut K,
) -> Cause
    ensures { TakesAndActs (said_in R.limit all_of name.now) (RendersBy (R.said command.now))
        name.now (F.state files.old) (F.state files.new) result
        (K.state out.old) (K.state out.new) }
{
    match bytes_of(alloc, files, name, R::limit()) {
        Ok(bytes) => command.write(alloc, bytes.as_slice(), out),
        Err(cause) => cause,
    }
}
