//! The command `gather`.
ghost use Rattle.network_config.specs.NodeRules.{KeepsLog};
ghost use Rattle.planet_commands.specs.Said.{line_limit};
ghost use Rattle.planet_commands.specs.Renders.{Prints};
ghost use Rattle.planet_commands_fleet.specs.Messages.{messages_text, messages_said};

use frag_chunks_log::gather_text;
use network_config::Log;
use node_io::Sink;
use planet_commands::{Cause, FileCommand, MOST_FILE_BYTES, print, value_in};
use service_registry::Registry;
use std::alloc::Global;

/// `gather PORT FILE`: what is held of the messages that the log in the file notes for a port.
#[derive(Clone, Copy)]
pub struct Gather {
    pub port: u16,
}

// Writes the messages of a log that was read.
#[tactic(auto, using(node_log::proofs::Resting::new_rests, node_io::proofs::SinkLaws::prefix_none))]
fn print_messages<K: Sink>(alloc: Global, port: u16, log: &Log, out: &mut K) -> Cause
    requires { KeepsLog log.now }
    ensures { Prints (messages_text port log.now) result (K.state out.old) (K.state out.new) }
{
    let services = Registry::new(alloc, log.missing.as_slice());
    match gather_text(alloc, port, log, services) {
        Ok(text) => print(text.as_slice(), out),
        Err(_) => Cause::NoMemory,
    }
}

impl FileCommand for Gather {
    ghost limit = { line_limit };

    ghost said = { λ command. messages_said command.port };

    fn limit() -> usize {
        MOST_FILE_BYTES
    }

    #[tactic(auto, using(planet_commands::proofs::Rendering::renders_value, planet_commands::proofs::Rendering::renders_no_value))]
    fn write<K: Sink>(&self, alloc: Global, bytes: &[u8], out: &mut K) -> Cause {
        match value_in::<Log>(alloc, bytes) {
            Ok(log) => print_messages(alloc, self.port, &log, out),
            Err(cause) => cause,
        }
    }
}
