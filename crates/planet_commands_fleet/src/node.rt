//! The command `node`.
ghost use Rattle.network_config.specs.NodeRules.{KeepsServe};
ghost use Rattle.node_serve.specs.Desks.{serving};
ghost use Rattle.planet_commands_fleet.specs.Nodes.{ServesAs, ServesFile};

use network_config::ServeConfig;
use node_io::{Clock, Files, Link, Sink};
use node_serve::{ServeFault, serve};
use planet_commands::{Cause, value_of};
use service_registry::Registry;
use std::alloc::Global;

// Serves as the node of a configuration that was read.
#[tactic(auto, using(node_log::proofs::Resting::new_rests))]
fn serve_read<F: Files, L: Link, C: Clock, K: Sink>(
    alloc: Global,
    cfg: &ServeConfig,
    turns: u32,
    files: &mut F,
    link: &mut L,
    clock: &mut C,
    out: &mut K,
) -> Cause
    requires { KeepsServe cfg.now }
    ensures { ServesAs turns cfg.now result
        (serving (F.state files.old) (K.state out.old) (L.state link.old) (C.state clock.old))
        (serving (F.state files.new) (K.state out.new) (L.state link.new) (C.state clock.new)) }
{
    let services = Registry::new(alloc, cfg.missing.as_slice());
    match serve(alloc, cfg, services, link, clock, files, out, turns) {
        Ok(()) => Cause::Done,
        Err(ServeFault::LinkFault) => Cause::LinkFault,
        Err(ServeFault::WriteFault) => Cause::WriteFault,
        Err(ServeFault::NoMemory) => Cause::NoMemory,
    }
}

/// `node FILE TURNS`: serves as the node of the configuration that the file says, for so many turns.
pub fn on_node<F: Files, L: Link, C: Clock, K: Sink>(
    alloc: Global,
    files: &mut F,
    name: &str,
    turns: u32,
    link: &mut L,
    clock: &mut C,
    out: &mut K,
) -> Cause
    ensures { ServesFile turns name.now result
        (serving (F.state files.old) (K.state out.old) (L.state link.old) (C.state clock.old))
        (serving (F.state files.new) (K.state out.new) (L.state link.new) (C.state clock.new)) }
{
    match value_of::<ServeConfig, F>(alloc, files, name) {
        Ok(cfg) => serve_read(alloc, &cfg, turns, files, link, clock, out),
        Err(cause) => cause,
    }
}
