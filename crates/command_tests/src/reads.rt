// Commands of one file, with each call of its reading failing in turn.

use crate::calls::{ALL, End, NOTHING, ends};
use crate::fleets::{REPORTED, STARTS};
use crate::objects::{Failing, NONE, Task};
use crate::requests::{ASKS, SENT};
use crate::rows::{
    FRAME, LOG, MESSAGE, PART_HELD, PART_LOG, PARTED, PORT, PORTED, PROGRAM, RUN, SCHEDULE, SHOWN,
    SIZES, TRACE,
};
use std::alloc::Global;

/// Nothing was read.
pub const UNREAD: End = End {
    code: 3,
    note: b"planet: read fault\n",
    ..NOTHING
};

/// The opening of a file, and its two pulls.
static CALLS: [Failing; 3] = [
    Failing {
        files: &[1],
        ..NONE
    },
    Failing {
        files: &[2],
        ..NONE
    },
    Failing {
        files: &[3],
        ..NONE
    },
];

/// Whether nothing is done where the opening of a task's file or one of its two pulls fails, and the next call ends as
/// `whole`.
pub fn reads_fail(alloc: Global, task: &Task, whole: &End) -> bool {
    for fails in &CALLS {
        if !ends(alloc, task, fails, &UNREAD, whole) {
            return false;
        }
    }
    true
}

/// The words of a command on `file.txt`, what that holds, and what is written.
type Reads = (&'static [&'static str], &'static [u8], &'static [u8]);

/// A command on `file.txt`.
pub fn reads(words: &'static [&'static str], bytes: &'static [u8]) -> Task {
    Task {
        words,
        file: "file.txt",
        bytes,
        arrivals: &[],
        statuses: &[],
    }
}

fn reads_so(alloc: Global, row: &Reads) -> bool {
    let whole = End {
        out: (row.2, ALL),
        ..NOTHING
    };
    reads_fail(alloc, &reads(row.0, row.1), &whole)
}

static READS: [Reads; 7] = [
    (&["check", "file.txt"], PROGRAM, SIZES),
    (&["show", "file.txt"], FRAME, SHOWN),
    (&["replay", "file.txt"], LOG, TRACE),
    (&["replay", "file.txt"], SCHEDULE, RUN),
    (&["cut", "file.txt"], MESSAGE, PARTED),
    (&["gather", "7", "file.txt"], PART_LOG, PART_HELD),
    (&["port", "file.txt"], PORT, PORTED),
];

#[test]
fn each_call_of_the_reading_fails(rt: HostRuntime) {
    for row in &READS {
        assert!(rt; reads_so(rt.alloc(), row));
    }
    assert!(rt; reads_fail(rt.alloc(), &ASKS, &SENT));
    assert!(rt; reads_fail(rt.alloc(), &STARTS, &REPORTED));
}
