//! How serving begins: peers, room, the link and the head of the log.
ghost use Rattle.std.specs.Prelude.{◌≡◌, ◌∷◌, map, IfOk, length};
ghost use Rattle.network_config.specs.NodeRules.{KeepsServe};
ghost use Rattle.network_config.specs.Hosts.{dev_of};
ghost use Rattle.node_files.specs.LogTexts.{head_text};
ghost use Rattle.node_log.specs.Runs.{peer, peers_of};
ghost use Rattle.node_serve.specs.Desks.{desk};
ghost use Rattle.node_serve.specs.Openings.{BindsNode, BeginsLog, Opens};

use crate::fault::ServeFault;
use network_config::ServeConfig;
use node_files::put_log_head;
use node_io::{Files, Link, MOST_RECEIVED, Peer, Peers, Sink, put_all, put_file};
use plan_base::{Bytes, Dev, NoMemory};
use std::alloc::Global;

/// The peers of a node: its owner on device 0, at this port, and its neighbours.
fn peers_at(alloc: Global, control: u16, ports: &[(Dev, u16)]) -> Result<Peers, NoMemory>
    ensures { IfOk result
        (λ peers. peers ≡ peer (dev_of 0) control ∷ map (λ p. peer p.0 p.1) ports.now) }
{
    let mut peers = Peers::new(alloc);
    peers.add(Peer {
        dev: Dev(0),
        port: control,
    })?;
    for port in ports {
        peers.add(Peer {
            dev: port.0,
            port: port.1,
        })?;
    }
    Ok(peers)
}

/// Room for what the link hears.
pub(crate) fn room(alloc: Global) -> Result<Vec<u8>, NoMemory>
    ensures { IfOk result (λ room. length room.items ≡ 16513) }
{
    Ok(vec![in alloc; 0; MOST_RECEIVED]?)
}

/// Binds the link at the node's own port, with its peers.
#[tactic(auto, unfolding(node_log::specs::Runs::peers_of))]
fn bind<L: Link>(alloc: Global, cfg: &ServeConfig, link: &mut L) -> Result<(), ServeFault>
    ensures { BindsNode cfg.now (L.state link.old) (L.state link.new) result }
{
    let Ok(peers) = peers_at(alloc, cfg.control, cfg.devs.as_slice()) else {
        return Err(ServeFault::NoMemory);
    };
    match link.bind(cfg.port, &peers) {
        Ok(()) => Ok(()),
        Err(_) => Err(ServeFault::LinkFault),
    }
}

/// The log's lines up to `events`.
fn log_head(alloc: Global, cfg: &ServeConfig) -> Result<Bytes, NoMemory>
    ensures { IfOk result (λ text. text ≡ head_text cfg.now.node cfg.now.missing) }
{
    let mut text = Bytes::new(alloc);
    put_log_head(alloc, &cfg.node, cfg.missing.as_slice(), &mut text)?;
    Ok(text)
}

/// Makes the log, and writes its lines up to `events`.
fn begin_log<F: Files>(alloc: Global, cfg: &ServeConfig, files: &mut F) -> Result<(), ServeFault>
    requires { KeepsServe cfg.now }
    ensures { BeginsLog cfg.now (F.state files.old) (F.state files.new) result }
{
    let Ok(head) = log_head(alloc, cfg) else {
        return Err(ServeFault::NoMemory);
    };
    let Ok(()) = files.write_to(cfg.log.as_str()) else {
        return Err(ServeFault::WriteFault);
    };
    match put_file(files, head.as_slice()) {
        Ok(()) => Ok(()),
        Err(_) => Err(ServeFault::WriteFault),
    }
}

/// Binds the link, begins the log and begins the trace, in this order.
pub(crate) fn begin<L: Link, F: Files, K: Sink>(
    alloc: Global,
    cfg: &ServeConfig,
    link: &mut L,
    files: &mut F,
    out: &mut K,
) -> Result<(), ServeFault>
    requires { KeepsServe cfg.now }
    ensures { Opens cfg.now
        (desk (F.state files.old) (K.state out.old) (L.state link.old))
        (desk (F.state files.new) (K.state out.new) (L.state link.new)) result }
{
    if let Err(fault) = bind(alloc, cfg, link) {
        return Err(fault);
    }
    if let Err(fault) = begin_log(alloc, cfg, files) {
        return Err(fault);
    }
    match put_all(out, b"planet trace 1\n") {
        Ok(()) => Ok(()),
        Err(_) => Err(ServeFault::WriteFault),
    }
}
