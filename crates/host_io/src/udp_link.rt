//! Frames between neighbours by UDP over loopback.
ghost use Rattle.std.specs.Prelude.{◌≡◌, [], ◌≤◌, ◌<◌, false, length, None, IfOk, IfSome, IsTrue};
ghost use Rattle.node_io.specs.Links.{has_peer, HasPeer};

use node_io::{Failed, Got, Link, Peer, Peers, raise};
use plan_base::Dev;
use std::alloc::Global;
use std::io;
use std::io::ErrorKind;
use std::net::{Ipv4Addr, Net, UdpSocket};
use std::time::Duration;

/// How many milliseconds a receiving waits for a datagram.
const WAIT: u64 = 10;

/// A link over UDP on loopback: one socket at the node's port, and peers known by their ports.
///
/// A receiving waits up to 10 milliseconds. Nothing has come where a datagram is empty, comes from no peer's port, or
/// where a peer refused an earlier one. A datagram that no longer fits is cut. A frame to a peer that doesn't listen is
/// lost without a fault.
#[derive(Drop)]
pub struct UdpLink<'a, R: Net> {
    alloc: Global,
    system: &'a R,
    socket: Option<UdpSocket>,
    peers: Peers,
    faults: u64,
}

impl<'a, R: Net> UdpLink<'a, R> {
    /// A link of this system with no socket yet: no fault is counted, and there are no peers.
    pub fn new(alloc: Global, system: &'a R) -> UdpLink<'a, R>
        ensures faults { result.faults ≡ 0 }
        ensures peers { result.peers ≡ [] }
    {
        UdpLink {
            alloc,
            system,
            socket: None,
            peers: Peers::new(alloc),
            faults: 0,
        }
    }
}

// A socket at this port of loopback, whose receivings wait for a short time.
fn open<R: Net>(system: &R, port: u16) -> io::Result<UdpSocket> {
    let socket = UdpSocket::bind(system, (Ipv4Addr::LOCALHOST, port))?;
    socket.set_read_timeout(Some(Duration::from_millis(WAIT)))?;
    Ok(socket)
}

// The first peer with this port.
fn peer_at(peers: &[Peer], port: u16) -> Option<Dev>
    ensures { IfSome result (HasPeer peers.now) }
{
    let at = peers.iter().position(|peer| peer.port == port)?;
    Some(peers[at].dev)
}

// The port of the first peer on this device.
fn port_of(peers: &[Peer], dev: Dev) -> Option<u16> {
    let at = peers.iter().position(|peer| peer.dev.0 == dev.0)?;
    Some(peers[at].port)
}

// Whether an error is none of the link: nothing came in time, or a peer doesn't listen.
fn is_quiet(error: &io::Error) -> bool {
    matches!(
        error.kind(),
        ErrorKind::WouldBlock
            | ErrorKind::TimedOut
            | ErrorKind::Interrupted
            | ErrorKind::ConnectionRefused
    )
}

// What an error of a receiving means: nothing came, or the link failed.
fn nothing_or_fault(error: &io::Error) -> Result<Option<(Dev, usize)>, Failed>
    ensures { IfOk result (λ got. got ≡ None) }
{
    if is_quiet(error) {
        Ok(None)
    } else {
        Err(Failed)
    }
}

// The device of a frame of so many bytes from this port, with their number, where it comes from a peer.
fn frame_from(peers: &[Peer], port: u16, count: usize) -> Option<(Dev, usize)>
    ensures peer { IfSome result (λ frame. HasPeer peers.now frame.0) }
    ensures count { IfSome result (λ frame. (0 < frame.1) × (frame.1 ≤ count)) }
{
    match peer_at(peers, port) {
        Some(dev) if count > 0 => Some((dev, count)),
        _ => None,
    }
}

// Receives a frame: the device of its peer, and its length.
fn receive(
    socket: &UdpSocket,
    peers: &[Peer],
    buf: &mut [u8],
) -> Result<Option<(Dev, usize)>, Failed>
    ensures peer { IfOk result (λ got. IfSome got (λ frame. HasPeer peers.now frame.0)) }
    ensures count { IfOk result
        (λ got. IfSome got (λ frame. (0 < frame.1) × (frame.1 ≤ length buf.new))) }
    ensures room { length buf.new ≡ length buf.old }
{
    match socket.recv_from(buf) {
        Ok((count, from)) => Ok(frame_from(peers, from.port(), count)),
        Err(error) => nothing_or_fault(&error),
    }
}

// Sends a frame to the peer on this device, and answers whether the link didn't fail.
fn send_to(socket: &Option<UdpSocket>, peers: &[Peer], dev: Dev, bytes: &[u8]) -> bool {
    let Some(socket) = socket else {
        return false;
    };
    let Some(port) = port_of(peers, dev) else {
        return false;
    };
    match socket.send_to(bytes, (Ipv4Addr::LOCALHOST, port)) {
        Ok(_) => true,
        Err(error) => is_quiet(&error),
    }
}

// A socket at this port, with a copy of the peers.
fn open_with<R: Net>(
    alloc: Global,
    system: &R,
    port: u16,
    peers: &Peers,
) -> Option<(UdpSocket, Peers)>
    ensures { IfSome result (λ opened. opened.1 ≡ peers.now) }
{
    let copy = Peers::from_slice(alloc, peers.as_slice()).ok()?;
    let socket = open(system, port).ok()?;
    Some((socket, copy))
}

impl<R: Net> Link for UdpLink<'_, R> {
    ghost state = { λ l. record {
      observable = false;
      script = [];
      sent = [];
      binds = [];
      bound = l.peers;
      faults = l.faults;
    } };

    fn bind(&mut self, port: u16, peers: &Peers) -> Result<(), Failed> {
        // The port is free again before it is bound again.
        self.socket = None;
        match open_with(self.alloc, self.system, port, peers) {
            Some((socket, peers)) => {
                self.socket = Some(socket);
                self.peers = peers;
                Ok(())
            }
            None => {
                self.peers = Peers::new(self.alloc);
                raise(&mut self.faults);
                Err(Failed)
            }
        }
    }

    fn recv(&mut self, buf: &mut [u8]) -> Got {
        let Some(socket) = &self.socket else {
            return Got::Nothing;
        };
        match receive(socket, self.peers.as_slice(), buf) {
            Ok(Some((dev, count))) => Got::Frame(dev, count),
            Ok(None) => Got::Nothing,
            Err(_) => {
                raise(&mut self.faults);
                Got::Failed
            }
        }
    }

    fn send(&mut self, dev: Dev, bytes: &[u8]) -> Result<(), Failed> {
        if !send_to(&self.socket, self.peers.as_slice(), dev, bytes) {
            raise(&mut self.faults);
            return Err(Failed);
        }
        Ok(())
    }
}
