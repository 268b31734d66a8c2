//! The public call: serves by a configuration for so many turns.
ghost use Rattle.std.specs.Prelude.{◌≡◌, ◌<◌, ◌^◌, IfOk};
ghost use Rattle.network_config.specs.NodeRules.{KeepsServe};
ghost use Rattle.node_core.specs.Turns.{IsResting};
ghost use Rattle.node_core_spec.specs.State.{new_node};
ghost use Rattle.node_log.specs.Runs.{opened_run};
ghost use Rattle.node_serve.specs.Desks.{serving};
ghost use Rattle.node_serve.specs.Goes.{CanServe, CanTurn};
ghost use Rattle.node_serve.specs.Moments as moments;
ghost use Rattle.node_serve.specs.Moments.{KeepsTwo, ServesFrom};
ghost use Rattle.node_serve.specs.Serves.{Finishes, Serves, ServesAs};
ghost use Rattle.node_serve.specs.Stays.{StandsFor};

use crate::fault::ServeFault;
use crate::opening::{begin, room};
use crate::server::Server;
use containers::Items;
use network_config::{DevPorts, Inject, Injects, ServeConfig};
use node_io::{Clock, Files, Link, Sink, put_all};
use node_log::{begin_node, config_again};
use plan_base::{NoMemory, Text, Version};
use plan_base_copy::copy_handler;
use service_api::{Packages, Services};
use std::alloc::Global;

impl<S: Services> Server<S> {
    /// So many turns, and then the trace's last line.
    fn finish<L: Link, C: Clock, F: Files, K: Sink>(
        &mut self,
        alloc: Global,
        cfg: &ServeConfig,
        link: &mut L,
        clock: &mut C,
        files: &mut F,
        out: &mut K,
        room: &mut [u8],
        turns: u32,
    ) -> Result<(), ServeFault>
        requires { CanTurn cfg.now (F.state files.old) (L.state link.old) room.old }
        ensures { Finishes S.stands cfg.now turns self.old
            (serving (F.state files.old) (K.state out.old) (L.state link.old) (C.state clock.old))
            (serving (F.state files.new) (K.state out.new) (L.state link.new) (C.state clock.new))
            result }
    {
        if let Err(fault) = self.run_turns(alloc, cfg, link, clock, files, out, room, turns) {
            return Err(fault);
        }
        match put_all(out, b"end\n") {
            Ok(()) => Ok(()),
            Err(_) => Err(ServeFault::WriteFault),
        }
    }

    /// All that a node does that was made, from the binding of its link on.
    fn begin_and_run<L: Link, C: Clock, F: Files, K: Sink>(
        &mut self,
        alloc: Global,
        cfg: &ServeConfig,
        link: &mut L,
        clock: &mut C,
        files: &mut F,
        out: &mut K,
        room: &mut [u8],
        turns: u32,
    ) -> Result<(), ServeFault>
        requires { CanServe cfg.now room.old }
        ensures { ServesAs S.stands cfg.now self.old turns
            (serving (F.state files.old) (K.state out.old) (L.state link.old) (C.state clock.old))
            (serving (F.state files.new) (K.state out.new) (L.state link.new) (C.state clock.new))
            result }
    {
        if let Err(fault) = begin(alloc, cfg, link, files, out) {
            return Err(fault);
        }
        self.finish(alloc, cfg, link, clock, files, out, room, turns)
    }
}

/// A server of a new node. Conditions: the configuration keeps its rules, and no `begin` of the services is open.
fn open<S: Services + Drop>(
    alloc: Global,
    cfg: &ServeConfig,
    services: S,
) -> Result<Server<S>, NoMemory>
    requires keeps { KeepsServe cfg.now }
    requires services { IsResting (S.stands services) }
    ensures { IfOk result
        (λ server. StandsFor S.stands server
        (opened_run (new_node cfg.now.node (S.stands services)))) }
{
    Ok(Server {
        node: begin_node(alloc, &cfg.node, services)?,
        last: 0,
        held: false,
        steps: 0,
    })
}

/// Serves with this configuration as it stands: what `serve` does, behind the moment at which the node begins. What comes of
/// it is the run of the node, or a prefix of it; only the log is made and written, and a fault comes only where its count rose.
fn serve_as<S: Services + Drop, L: Link, C: Clock, F: Files, K: Sink>(
    alloc: Global,
    cfg: &ServeConfig,
    services: S,
    link: &mut L,
    clock: &mut C,
    files: &mut F,
    out: &mut K,
    turns: u32,
) -> Result<(), ServeFault>
    requires keeps { KeepsServe cfg.now }
    requires services { IsResting (S.stands services) }
    ensures { Serves cfg.now (new_node cfg.now.node (S.stands services)) turns
        (serving (F.state files.old) (K.state out.old) (L.state link.old) (C.state clock.old))
        (serving (F.state files.new) (K.state out.new) (L.state link.new) (C.state clock.new))
        result }
{
    let Ok(mut server) = open(alloc, cfg, services) else {
        return Err(ServeFault::NoMemory);
    };
    let Ok(mut room) = room(alloc) else {
        return Err(ServeFault::NoMemory);
    };
    server.begin_and_run(alloc, cfg, link, clock, files, out, &mut room, turns)
}

/// An injection once more.
fn inject_again(alloc: Global, inject: &Inject) -> Result<Inject, NoMemory>
    ensures { IfOk result (λ copy. copy ≡ inject.now) }
{
    let chunk = inject.chunk.copy(alloc)?;
    let handler = copy_handler(alloc, &inject.handler)?;
    Ok(Inject {
        turn: inject.turn,
        bound: inject.bound,
        chunk,
        handler,
    })
}

/// The injections of a configuration once more.
fn injects_again(alloc: Global, at: &[Inject]) -> Result<Injects, NoMemory>
    ensures { IfOk result (λ copy. copy ≡ at.now) }
{
    let mut copy = Items::new(alloc);
    for inject in at {
        copy.add(inject_again(alloc, inject)?)?;
    }
    Ok(copy)
}

/// The packages that a configuration lacks, the name of its log, and the ports of its neighbours, once more.
fn outside_again(alloc: Global, cfg: &ServeConfig) -> Result<(Packages, Text, DevPorts), NoMemory>
    ensures missing { IfOk result (λ parts. parts.0 ≡ cfg.now.missing) }
    ensures log { IfOk result (λ parts. parts.1 ≡ cfg.now.log) }
    ensures devs { IfOk result (λ parts. parts.2 ≡ cfg.now.devs) }
{
    let missing = Items::from_slice(alloc, cfg.missing.as_slice())?;
    let log = cfg.log.copy(alloc)?;
    let devs = Items::from_slice(alloc, cfg.devs.as_slice())?;
    Ok((missing, log, devs))
}

/// This configuration with another moment at which the node begins. Conditions: it keeps the rules, and is of version 2.
fn with_boot(alloc: Global, cfg: &ServeConfig, boot: u64) -> Result<ServeConfig, NoMemory>
    requires { KeepsTwo cfg.now }
    ensures fits { boot < 2 ^ 64 }
    ensures is { IfOk result (λ c. c ≡ moments.booted_config boot cfg.now) }
    ensures keeps { IfOk result KeepsServe }
{
    let mut node = config_again(alloc, &cfg.node)?;
    node.boot = boot;
    let (missing, log, devs) = outside_again(alloc, cfg)?;
    let at = injects_again(alloc, cfg.at.as_slice())?;
    Ok(ServeConfig {
        node,
        missing,
        port: cfg.port,
        control: cfg.control,
        period: cfg.period,
        log,
        devs,
        at,
    })
}

/// Serves as a node of version 2.
fn serve_booted<S: Services + Drop, L: Link, C: Clock, F: Files, K: Sink>(
    alloc: Global,
    cfg: &ServeConfig,
    services: S,
    link: &mut L,
    clock: &mut C,
    files: &mut F,
    out: &mut K,
    turns: u32,
) -> Result<(), ServeFault>
    requires config { KeepsTwo cfg.now }
    requires services { IsResting (S.stands services) }
    ensures { ServesFrom cfg.now (S.stands services) turns
        (serving (F.state files.old) (K.state out.old) (L.state link.old) (C.state clock.old))
        (serving (F.state files.new) (K.state out.new) (L.state link.new) (C.state clock.new))
        result }
{
    let boot = clock.now();
    let Ok(cfg) = with_boot(alloc, cfg, boot) else {
        return Err(ServeFault::NoMemory);
    };
    serve_as(alloc, &cfg, services, link, clock, files, out, turns)
}

/// Serves as a node for so many turns. A node of version 2 begins at the clock's first answer, for which the clock is asked
/// before all else. Before the first turn the link is bound at the node's port with its owner and its
/// neighbours as peers, the log is begun, and the trace's first line is written; after the last one `end`. In each turn the
/// node ticks where its period is over, takes the injections of this turn, hears one frame, takes what it sent to itself, and
/// sends what is queued for its neighbours. Each step writes its line of the log, and then its lines of the trace. A step that
/// finds no memory is logged as lost, changes nothing, and doesn't end the run. Conditions: the configuration keeps its rules,
/// and no `begin` of the services is open. Where it fails, what was written and sent are prefixes of what the run writes and
/// sends, and belong to steps that the log has. Only the log is made and written, and a fault comes only where its count rose.
pub fn serve<S: Services + Drop, L: Link, C: Clock, F: Files, K: Sink>(
    alloc: Global,
    cfg: &ServeConfig,
    services: S,
    link: &mut L,
    clock: &mut C,
    files: &mut F,
    out: &mut K,
    turns: u32,
) -> Result<(), ServeFault>
    requires keeps { KeepsServe cfg.now }
    requires services { IsResting (S.stands services) }
    ensures { ServesFrom cfg.now (S.stands services) turns
        (serving (F.state files.old) (K.state out.old) (L.state link.old) (C.state clock.old))
        (serving (F.state files.new) (K.state out.new) (L.state link.new) (C.state clock.new))
        result }
{
    match cfg.node.version {
        Version::One => serve_as(alloc, cfg, services, link, clock, files, out, turns),
        Version::Two => serve_booted(alloc, cfg, services, link, clock, files, out, turns),
    }
}
