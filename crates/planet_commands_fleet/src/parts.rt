//! The command `cut`.
ghost use Rattle.command_files.specs.Cuts.{KeepsCut};
ghost use Rattle.command_files.specs.Texts.{cut_output};
ghost use Rattle.planet_commands.specs.Said.{line_limit};
ghost use Rattle.planet_commands.specs.Renders.{Prints};
ghost use Rattle.planet_commands_fleet.specs.Messages.{parts_said};

use command_files::{CutFile, cut_text};
use node_io::Sink;
use planet_commands::{Cause, FileCommand, MOST_FILE_BYTES, print, value_in};
use std::alloc::Global;

/// `cut FILE`: the asks of the parts of the message that the file names.
pub struct Cut;

// Writes the asks of the parts of a message that was read.
#[tactic(auto, using(node_io::proofs::SinkLaws::prefix_none))]
fn print_parts<K: Sink>(alloc: Global, message: &CutFile, out: &mut K) -> Cause
    requires { KeepsCut message.now }
    ensures { Prints (cut_output message.now) result (K.state out.old) (K.state out.new) }
{
    match cut_text(alloc, message) {
        Ok(text) => print(text.as_slice(), out),
        Err(_) => Cause::NoMemory,
    }
}

impl FileCommand for Cut {
    ghost limit = { line_limit };

    ghost said = { λ command. parts_said };

    fn limit() -> usize {
        MOST_FILE_BYTES
    }

    #[tactic(auto, using(planet_commands::proofs::Rendering::renders_value, planet_commands::proofs::Rendering::renders_no_value))]
    fn write<K: Sink>(&self, alloc: Global, bytes: &[u8], out: &mut K) -> Cause {
        match value_in::<CutFile>(alloc, bytes) {
            Ok(message) => print_parts(alloc, &message, out),
            Err(cause) => cause,
        }
    }
}
