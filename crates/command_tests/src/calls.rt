// How calls end.

use crate::objects::{Failing, Machine, NONE, Streams, Task, bytes, code, machine_of, streams_of};
use plan_base::{Bytes, Dev};
use std::alloc::Global;

/// Bytes, and how many of them are there: all, where this is more than they are.
type Front = (&'static [u8], usize);

/// All of some bytes.
pub const ALL: usize = usize::MAX;

/// How a call ends: its code, its output, its note, the frame that it sends, in hex and with nothing for none, with its
/// device, and the bytes of `node.log`, none where it isn't made.
#[derive(Clone, Copy)]
pub struct End {
    pub code: u8,
    pub out: Front,
    pub note: &'static [u8],
    pub sent: (u32, &'static str),
    pub log: Front,
}

/// Nothing was done.
pub const NOTHING: End = End {
    code: 0,
    out: (b"", ALL),
    note: b"",
    sent: (0, ""),
    log: (b"", ALL),
};

fn is_front(bytes: &[u8], wanted: Front) -> bool {
    match wanted.0.get(..wanted.1) {
        Some(front) => bytes == front,
        None => bytes == wanted.0,
    }
}

fn is_hex(alloc: Global, frame: &[u8], hex: &str) -> bool {
    match bytes(alloc, hex) {
        Ok(bytes) => bytes.as_slice() == frame,
        Err(_) => false,
    }
}

fn is_sent(alloc: Global, sent: &[(Dev, Bytes)], wanted: (u32, &str)) -> bool {
    for one in sent {
        if one.0.0 != wanted.0 || !is_hex(alloc, one.1.as_slice(), wanted.1) {
            return false;
        }
    }
    sent.len() == usize::from(!wanted.1.is_empty())
}

// Whether a node logged so.
fn is_logged(machine: &Machine, wanted: Front) -> bool {
    match machine.files.files().get(b"node.log") {
        Some(log) => is_front(log.as_slice(), wanted),
        None => is_front(b"", wanted),
    }
}

fn is_told(alloc: Global, streams: &Streams, end: &End) -> bool {
    streams.notes.taken().as_slice() == end.note
        && is_front(streams.out.taken().as_slice(), end.out)
        && is_sent(alloc, streams.link.sent().as_slice(), end.sent)
}

/// Whether a task ends so over these objects.
pub fn ends_over(
    alloc: Global,
    task: &Task,
    machine: &mut Machine,
    streams: &mut Streams,
    end: &End,
) -> bool {
    code(alloc, task.words, machine, streams) == Ok(end.code)
        && is_logged(machine, end.log)
        && is_told(alloc, streams, end)
}

fn ends_on(alloc: Global, task: &Task, machine: &mut Machine, fails: &Failing, end: &End) -> bool {
    match streams_of(alloc, task, fails) {
        Ok(mut streams) => ends_over(alloc, task, machine, &mut streams, end),
        Err(_) => false,
    }
}

/// Whether a task ends so where these calls fail.
pub fn ends_once(alloc: Global, task: &Task, fails: &Failing, end: &End) -> bool {
    match machine_of(alloc, task, fails) {
        Ok(mut machine) => ends_on(alloc, task, &mut machine, fails, end),
        Err(_) => false,
    }
}

/// Whether a task ends as `end` where these calls fail, and made again on the same machine ends as `again`.
pub fn ends(alloc: Global, task: &Task, fails: &Failing, end: &End, again: &End) -> bool {
    match machine_of(alloc, task, fails) {
        Ok(mut machine) => ends_on(alloc, task, &mut machine, fails, end)
            && ends_on(alloc, task, &mut machine, &NONE, again),
        Err(_) => false,
    }
}

/// Whether a task ends so, and so again, where no call fails.
pub fn ends_twice(alloc: Global, task: &Task, end: &End) -> bool {
    ends(alloc, task, &NONE, end, end)
}
