// What the forms in memory do: sinks, files, a link, a clock and children.

ghost use Rattle.std.specs.Prelude.{◌≤◌};

use crate::objects::{children, link, one_file, sink};
use node_io::{
    Clock, Files, Got, Link, MemClock, MemFiles, MemLink, MemSink, MemSpawner, Moments, Peer,
    Peers, ReadError, Sink, Spawner, put_all, read_whole,
};
use plan_base::{Dev, Texts};
use std::alloc::Global;

fn takes_pieces(sink: &mut MemSink) -> bool {
    sink.push(b"abc") == Ok(3)
        && sink.push(b"de").is_err()
        && put_all(sink, b"fg").is_ok()
        && sink.taken().as_slice() == b"abcfg".as_slice()
}

fn fails_at_its_call(alloc: Global) -> bool {
    match sink(alloc, &[2]) {
        Ok(mut sink) => takes_pieces(&mut sink),
        Err(_) => false,
    }
}

#[test]
fn a_sink_takes_pieces_and_fails_at_its_calls(rt: HostRuntime) {
    assert!(rt; fails_at_its_call(rt.alloc()));
}

fn stops(alloc: Global) -> bool {
    match MemSink::stopping(alloc, 4) {
        Ok(mut sink) => put_all(&mut sink, b"abcdef").is_err()
            && sink.taken().as_slice() == b"abcd".as_slice(),
        Err(_) => false,
    }
}

#[test]
fn a_stopping_sink_takes_so_many_bytes(rt: HostRuntime) {
    assert!(rt; stops(rt.alloc()));
}

/// A name, how many bytes may be read, the number of the call that fails, and how many bytes are read.
type Read = (
    &'static str,
    usize,
    &'static [u64],
    Result<usize, ReadError>,
);

static READS: [Read; 7] = [
    ("a", 5, &[], Ok(5)),
    ("a", 4, &[], Err(ReadError::TooLong)),
    ("b", 5, &[], Err(ReadError::Fault)),
    ("a", 5, &[1], Err(ReadError::Fault)),
    ("a", 5, &[2], Err(ReadError::Fault)),
    ("a", 5, &[3], Err(ReadError::Fault)),
    ("a", 5, &[4], Ok(5)),
];

fn count_of(
    alloc: Global,
    files: &mut MemFiles,
    name: &str,
    limit: usize,
) -> Result<usize, ReadError>
    requires { limit ≤ 1000 }
{
    match read_whole(alloc, files, name, limit) {
        Ok(all) => Ok(all.len()),
        Err(error) => Err(error),
    }
}

fn is_read(alloc: Global, read: &Read) -> bool {
    match one_file(alloc, "a", b"hello", read.2) {
        Ok(mut files) => {
            read.1 <= 1_000 && count_of(alloc, &mut files, read.0, read.1) == read.3
        }
        Err(_) => false,
    }
}

#[test]
fn a_file_is_read_to_its_limit(rt: HostRuntime) {
    for read in &READS {
        assert!(rt; is_read(rt.alloc(), read));
    }
}

fn holds(files: &MemFiles, name: &str, bytes: &[u8]) -> bool {
    match files.files().get(name.as_bytes()) {
        Some(all) => all.as_slice() == bytes,
        None => false,
    }
}

// Whether a file that is made, and may be there already, holds what was written to it.
fn is_made(alloc: Global, name: &str, piece: &[u8]) -> bool {
    match one_file(alloc, "a", b"hello", &[]) {
        Ok(mut files) => {
            files.write_to(name).is_ok() && files.push(piece).is_ok() && holds(&files, name, piece)
        }
        Err(_) => false,
    }
}

#[test]
fn a_file_is_made_empty_and_grows(rt: HostRuntime) {
    assert!(rt; is_made(rt.alloc(), "a", b"xy"));
    assert!(rt; is_made(rt.alloc(), "b", b"zw"));
}

/// The peer of a link.
static PEERS: [Peer; 1] = [Peer {
    dev: Dev(1),
    port: 7001,
}];

fn is_bound(alloc: Global, link: &mut MemLink) -> bool {
    match Peers::from_slice(alloc, &PEERS) {
        Ok(peers) => link.bind(7000, &peers).is_ok(),
        Err(_) => false,
    }
}

fn gives(link: &mut MemLink) -> bool {
    let mut buf = [0u8; 16_513];
    link.recv(&mut buf) == Got::Frame(Dev(1), 5)
        && link.recv(&mut buf) == Got::Nothing
        && link.recv(&mut buf) == Got::Failed
        && link.recv(&mut buf) == Got::Nothing
        && link.recv(&mut buf) == Got::Nothing
}

// A frame of a peer, one of a stranger, a quiet time, and a call that fails.
fn follows(alloc: Global) -> bool {
    match link(
        alloc,
        &[(1, "6672616d65"), (2, "737472616e676572"), (0, "")],
        &[4],
    ) {
        Ok(mut link) => is_bound(alloc, &mut link) && gives(&mut link),
        Err(_) => false,
    }
}

#[test]
fn a_link_follows_its_script(rt: HostRuntime) {
    assert!(rt; follows(rt.alloc()));
}

fn tells(alloc: Global, moments: Moments) -> bool {
    match MemClock::new(alloc, moments) {
        Ok(mut clock) => clock.now() == 3 && clock.now() == 5 && clock.now() == 5,
        Err(_) => false,
    }
}

fn answers(alloc: Global) -> bool {
    match Moments::from_slice(alloc, &[3, 5]) {
        Ok(moments) => tells(alloc, moments),
        Err(_) => false,
    }
}

#[test]
fn a_clock_answers_its_list(rt: HostRuntime) {
    assert!(rt; answers(rt.alloc()));
}

fn status(spawner: &mut MemSpawner, words: &Texts) -> Option<u8> {
    let child = spawner.start(words).ok()?;
    spawner.wait(child).ok()
}

fn have_statuses(alloc: Global) -> bool {
    let words = Texts::new(alloc);
    match children(alloc, &[7], &[]) {
        Ok(mut children) => {
            status(&mut children, &words) == Some(7) && status(&mut children, &words).is_none()
        }
        Err(_) => false,
    }
}

#[test]
fn children_have_their_statuses(rt: HostRuntime) {
    assert!(rt; have_statuses(rt.alloc()));
}
