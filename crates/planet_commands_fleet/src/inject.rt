//! The command `inject`.
ghost use Rattle.network_config.specs.NodeRules.{KeepsAsk};
ghost use Rattle.planet_commands.specs.Takes.{TakesAndActs};
ghost use Rattle.planet_commands_fleet.specs.Asks.{AsksAs, ask_said, wire};

use fleet_run::{AskFault, inject};
use network_config::AskFile;
use node_io::{Files, Link, Sink};
use planet_commands::{Cause, value_of};
use std::alloc::Global;

// Sends a request and writes its line.
fn send_ask<L: Link, K: Sink>(alloc: Global, ask: &AskFile, link: &mut L, out: &mut K) -> Cause
    requires { KeepsAsk ask.now }
    ensures { AsksAs ask.now result (wire (L.state link.old) (K.state out.old))
        (wire (L.state link.new) (K.state out.new)) }
{
    match inject(alloc, ask, link, out) {
        Ok(()) => Cause::Done,
        Err(AskFault::LinkFault) => Cause::LinkFault,
        Err(AskFault::WriteFault) => Cause::WriteFault,
        Err(AskFault::NoMemory) => Cause::NoMemory,
    }
}

/// `inject FILE`: sends the request that the file says to a serving node.
pub fn on_ask<F: Files, L: Link, K: Sink>(
    alloc: Global,
    files: &mut F,
    name: &str,
    link: &mut L,
    out: &mut K,
) -> Cause
    ensures { TakesAndActs (ask_said name.now) AsksAs name.now
        (F.state files.old) (F.state files.new) result
        (wire (L.state link.old) (K.state out.old)) (wire (L.state link.new) (K.state out.new)) }
{
    match value_of::<AskFile, F>(alloc, files, name) {
        Ok(ask) => send_ask(alloc, &ask, link, out),
        Err(cause) => cause,
    }
}
