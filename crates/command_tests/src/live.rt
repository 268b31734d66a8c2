//! Tests of links, clocks and children of the machine itself.
ghost use Rattle.std.specs.Prelude.{◌≡◌, ◌∷◌, [], IfSome};
ghost use Rattle.node_io.specs.Links.{HasPeer};

use host_io::{HostClock, HostSpawner, UdpLink};
use node_io::{Clock, Got, Link, MOST_RECEIVED, Peer, Peers, Spawner};
use plan_base::{Bytes, Dev, Text, Texts};
use std::alloc::Global;
use std::net::{Ipv4Addr, UdpSocket};

/// How often a quiet receiving is made again.
const TRIES: u32 = 50;

// The port of a socket, where the system gives it.
fn port_of(socket: &UdpSocket) -> Option<u16> {
    match socket.local_addr() {
        Ok(address) => Some(address.port()),
        Err(_) => None,
    }
}

// A port of loopback that was free a moment ago.
fn free_port(rt: &HostRuntime) -> Option<u16> {
    match UdpSocket::bind(rt, (Ipv4Addr::LOCALHOST, 0)) {
        Ok(socket) => port_of(&socket),
        Err(_) => None,
    }
}

// What comes first within some receivings.
fn first<L: Link>(link: &mut L, buf: &mut [u8; 16_513]) -> Got {
    for _ in 0..TRIES {
        let got = link.recv(buf);
        if got != Got::Nothing {
            return got;
        }
    }
    Got::Nothing
}

// Whether a link hears so many bytes of a frame that it sends itself.
fn hears<L: Link>(
    link: &mut L,
    buf: &mut [u8; 16_513],
    dev: Dev,
    frame: &[u8],
    count: usize,
) -> bool
    requires { HasPeer (L.state link.old).bound dev }
{
    link.send(dev, frame).is_ok() && first(link, buf) == Got::Frame(dev, count)
}

fn begins(buf: &[u8; 16_513], frame: &[u8]) -> bool {
    match buf.get(..frame.len()) {
        Some(front) => front == frame,
        None => false,
    }
}

// Whether a link that is bound again is quiet, an empty datagram is nothing, and a frame comes whole.
fn hears_itself<L: Link>(link: &mut L, port: u16, peers: &Peers, dev: Dev, frame: &[u8]) -> bool
    requires { HasPeer peers.now dev }
{
    let mut buf = [0; MOST_RECEIVED];
    link.bind(port, peers).is_ok()
        && link.bind(port, peers).is_ok()
        && link.recv(&mut buf) == Got::Nothing
        && link.send(dev, b"").is_ok()
        && hears(link, &mut buf, dev, frame, frame.len())
        && begins(&buf, frame)
}

// Adds so many bytes.
fn add_sevens(bytes: &mut Bytes, count: u32) -> bool {
    for _ in 0..count {
        if bytes.add(7).is_err() {
            return false;
        }
    }
    true
}

// Whether a link that sends itself a longer frame hears as many bytes of it as may come.
fn cuts<L: Link>(link: &mut L, port: u16, peers: &Peers, dev: Dev, frame: &[u8]) -> bool
    requires { HasPeer peers.now dev }
{
    let mut buf = [0; MOST_RECEIVED];
    link.bind(port, peers).is_ok() && hears(link, &mut buf, dev, frame, MOST_RECEIVED)
}

// A peer on a device at a port.
fn peers_at(alloc: Global, dev: Dev, port: u16) -> Option<Peers>
    ensures { IfSome result (λ peers. peers ≡ (record { dev = dev; port = port }) ∷ []) }
{
    match Peers::from_slice(alloc, &[Peer { dev, port }]) {
        Ok(peers) => Some(peers),
        Err(_) => None,
    }
}

fn hears_at(rt: &HostRuntime, port: u16, frame: &[u8]) -> bool {
    match peers_at(rt.alloc(), Dev(3), port) {
        Some(peers) => hears_itself(
            &mut UdpLink::new(rt.alloc(), rt),
            port,
            &peers,
            Dev(3),
            frame,
        ),
        None => false,
    }
}

fn cuts_at(rt: &HostRuntime, port: u16, frame: &[u8]) -> bool {
    match peers_at(rt.alloc(), Dev(3), port) {
        Some(peers) => cuts(
            &mut UdpLink::new(rt.alloc(), rt),
            port,
            &peers,
            Dev(3),
            frame,
        ),
        None => false,
    }
}

fn hears_over_loopback(rt: &HostRuntime, frame: &[u8]) -> bool {
    match free_port(rt) {
        Some(port) => hears_at(rt, port, frame),
        None => false,
    }
}

fn cuts_over_loopback(rt: &HostRuntime, count: u32) -> bool {
    let mut frame = Bytes::new(rt.alloc());
    match free_port(rt) {
        Some(port) => add_sevens(&mut frame, count) && cuts_at(rt, port, frame.as_slice()),
        None => false,
    }
}

#[test]
fn a_link_hears_itself_over_loopback(rt: HostRuntime) {
    assert!(rt; hears_over_loopback(&rt, b"frame"));
}

#[test]
fn a_long_datagram_is_cut(rt: HostRuntime) {
    assert!(rt; cuts_over_loopback(&rt, 20_000));
}

// Whether a clock gives more milliseconds than these, and then no fewer.
fn goes_on<C: Clock>(clock: &mut C, past: u64) -> bool {
    let first = clock.now();
    first > past && clock.now() >= first
}

#[test]
fn a_clock_goes_on_from_1970(rt: HostRuntime) {
    assert!(rt; goes_on(&mut HostClock::new(&rt), 1_600_000_000_000));
}

fn add_word(alloc: Global, words: &mut Texts, word: &[u8]) -> bool {
    let mut text = Text::new(alloc);
    text.add_all(word).is_ok() && words.add(text).is_ok()
}

// Whether a child that is given words ends with this status, or isn't there where there is none.
fn ends<S: Spawner>(spawner: &mut S, words: &Texts, status: Option<u8>) -> bool {
    match spawner.start(words) {
        Ok(child) => spawner.wait(child).ok() == status && status.is_some(),
        Err(_) => status.is_none(),
    }
}

// The same of a child of the program with this path.
fn ends_at(rt: &HostRuntime, path: &[u8], words: &Texts, status: Option<u8>) -> bool {
    let mut program = Text::new(rt.alloc());
    program.add_all(path).is_ok()
        && ends(
            &mut HostSpawner::new(rt.alloc(), rt, program),
            words,
            status,
        )
}

// The same of a child that is given these two words.
fn ends_with(
    rt: &HostRuntime,
    path: &[u8],
    option: &[u8],
    command: &[u8],
    status: Option<u8>,
) -> bool {
    let mut words = Texts::new(rt.alloc());
    add_word(rt.alloc(), &mut words, option)
        && add_word(rt.alloc(), &mut words, command)
        && ends_at(rt, path, &words, status)
}

#[test]
fn a_child_has_its_status(rt: HostRuntime) {
    assert!(rt; ends_with(&rt, b"sh", b"-c", b"exit 2", Some(2)));
    assert!(rt; ends_with(&rt, b"/nowhere/planet", b"-c", b"exit 2", None));
}
