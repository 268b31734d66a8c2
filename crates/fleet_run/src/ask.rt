//! Sends a request to a serving node.
ghost use Rattle.std.specs.Prelude.{◌≡◌, IfOk};
ghost use Rattle.std.specs.String.{string_bytes};
ghost use Rattle.network_config.specs.Hosts.{dev_of};
ghost use Rattle.network_config.specs.NodeRules.{KeepsAsk};
ghost use Rattle.node_io.specs.Links.{HasPeer};
ghost use Rattle.fleet_run.specs.Asks.{ask_peers, asked_line, IsPrepared, SendsOne, Asks};

use crate::fault::AskFault;
use containers::Items;
use network_config::AskFile;
use node_io::{Failed, Link, Peer, Peers, Sink, put_all};
use packet_frame::put_ask;
use plan_base::{Bytes, Dev, NoMemory};
use std::alloc::Global;

// The peer of a request.
fn peers_of(alloc: Global, ask: &AskFile) -> Result<Peers, NoMemory>
    ensures { IfOk result (λ peers. peers ≡ ask_peers ask.now) }
{
    let peer = Peer {
        dev: Dev(0),
        port: ask.to,
    };
    let mut peers = Items::new(alloc);
    peers.add(peer)?;
    Ok(peers)
}

// The line of a request whose frame has so many bytes.
fn line_of(alloc: Global, port: u16, bytes: usize) -> Result<String, NoMemory>
    ensures { IfOk result (λ line. string_bytes line ≡ asked_line port bytes) }
{
    Ok(format!(in alloc; "asked {port} bytes {bytes}\n")?)
}

// What a request needs before anything is done for it.
#[derive(Drop)]
struct Prepared {
    frame: Bytes,
    peers: Peers,
    line: String,
}

fn prepare(alloc: Global, ask: &AskFile) -> Result<Prepared, NoMemory>
    requires { KeepsAsk ask.now }
    ensures { IfOk result (λ made. IsPrepared ask.now made) }
{
    let frame = put_ask(alloc, ask.bound, &ask.chunk)?;
    let peers = peers_of(alloc, ask)?;
    let line = line_of(alloc, ask.to, frame.len())?;
    Ok(Prepared { frame, peers, line })
}

// Binds a port with its peers and sends one frame on device 0, which is among them.
fn send_one<L: Link>(link: &mut L, port: u16, peers: &Peers, frame: &[u8]) -> Result<(), Failed>
    requires { HasPeer peers.now (dev_of 0) }
    ensures { SendsOne (port, peers.now) (dev_of 0, frame.now)
        (L.state link.old) (L.state link.new) result }
{
    let Ok(()) = link.bind(port, peers) else {
        return Err(Failed);
    };
    link.send(Dev(0), frame)
}

/// Sends a request: binds its port with device 0 at the port of the node as the one peer, sends the one frame on
/// device 0, and writes `asked PORT bytes N`. Condition: the request keeps its rules. What takes memory comes before
/// the binding.
pub fn inject<L: Link, K: Sink>(
    alloc: Global,
    ask: &AskFile,
    link: &mut L,
    out: &mut K,
) -> Result<(), AskFault>
    requires { KeepsAsk ask.now }
    ensures { Asks ask.now (L.state link.old) (L.state link.new)
        (K.state out.old) (K.state out.new) result }
{
    let Ok(made) = prepare(alloc, ask) else {
        return Err(AskFault::NoMemory);
    };
    let Ok(()) = send_one(link, ask.from, &made.peers, made.frame.as_slice()) else {
        return Err(AskFault::LinkFault);
    };
    match put_all(out, made.line.as_bytes()) {
        Ok(()) => Ok(()),
        Err(_) => Err(AskFault::WriteFault),
    }
}
