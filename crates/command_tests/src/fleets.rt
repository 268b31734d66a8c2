// Fleets, with each call of the children and the output failing in turn.

use crate::calls::{ALL, End, NOTHING, ends, ends_twice};
use crate::objects::{At, Task, fails_at};
use crate::rows::{FAILED, FLEET, REPORT};
use std::alloc::Global;

/// The row's fleet, whose children end with 0 and 2.
pub static STARTS: Task = Task {
    words: &["fleet", "fleet.txt"],
    file: "fleet.txt",
    bytes: FLEET,
    arrivals: &[],
    statuses: &[0, 2, 0, 2],
};

/// That fleet ends so.
pub const REPORTED: End = End {
    code: 8,
    out: (REPORT, ALL),
    note: FAILED,
    ..NOTHING
};

const NODE_AND_REQUEST: &[u8] = b"planet fleet 1\nnode 1 a.cfg 300\nask 1 b.ask\n";

// A fleet whose file holds these bytes, with the statuses of its children.
fn starts(bytes: &'static [u8], statuses: &'static [u8]) -> Task {
    Task {
        bytes,
        statuses,
        ..STARTS
    }
}

/// A fleet, the statuses of its children, twice, its code, its output and its note.
type Ended = (
    &'static [u8],
    &'static [u8],
    u8,
    &'static [u8],
    &'static [u8],
);

static ENDED: [Ended; 4] = [
    (FLEET, &[0, 2, 0, 2], 8, REPORT, FAILED),
    (
        FLEET,
        &[0, 0, 0, 0],
        0,
        b"node @1 status 0\nnode @2 status 0\n",
        b"",
    ),
    (
        FLEET,
        &[3, 2, 3, 2],
        8,
        b"node @1 status 3\nnode @2 status 2\n",
        b"planet: node @1 failed with 3\n",
    ),
    (
        NODE_AND_REQUEST,
        &[0, 5, 0, 5],
        8,
        b"node @1 status 0\nask @1 status 5\n",
        b"planet: node @1 failed with 5\n",
    ),
];

fn reports(alloc: Global, row: &Ended) -> bool {
    let end = End {
        code: row.2,
        out: (row.3, ALL),
        note: row.4,
        ..NOTHING
    };
    ends_twice(alloc, &starts(row.0, row.1), &end)
}

#[test]
fn fleets_report_each_child_and_the_first_failed_one_decides(rt: HostRuntime) {
    for row in &ENDED {
        assert!(rt; reports(rt.alloc(), row));
    }
}

const UNSPAWNED: End = End {
    code: 6,
    note: b"planet: spawn fault\n",
    ..NOTHING
};

// The first child was reported before.
const UNREPORTED: End = End {
    out: (REPORT, 17),
    ..UNSPAWNED
};

const UNWRITTEN: End = End {
    code: 4,
    note: b"planet: write fault\n",
    ..NOTHING
};

/// The calls that fail, the statuses of the children that are started, in this fleet and the next one, and how the two end.
type Failed = (At, &'static [u8], End, End);

fn fails(alloc: Global, row: &Failed) -> bool {
    ends(
        alloc,
        &starts(FLEET, row.1),
        &fails_at(row.0),
        &row.2,
        &row.3,
    )
}

// Two starts, and two waitings; and the ninth call, which is the first one of a third fleet.
static CHILD_FAULTS: [Failed; 5] = [
    (At::Children(&[1]), &[0, 2], UNSPAWNED, REPORTED),
    (At::Children(&[2]), &[0, 0, 2], UNSPAWNED, REPORTED),
    (At::Children(&[3]), &[0, 0, 0, 2], UNSPAWNED, REPORTED),
    (At::Children(&[4]), &[0, 0, 0, 2], UNREPORTED, REPORTED),
    (At::Children(&[9]), &[0, 2, 0, 2], REPORTED, REPORTED),
];

#[test]
fn each_call_of_the_children_fails(rt: HostRuntime) {
    for row in &CHILD_FAULTS {
        assert!(rt; fails(rt.alloc(), row));
    }
}

// The first fleet makes three calls of the children, the last of which waits for the child that was started, so the
// seventh call waits for the second child of the second fleet.
static SECOND_START: Failed = (At::Children(&[2, 7]), &[0, 0, 2], UNSPAWNED, UNREPORTED);

#[test]
fn a_failing_second_start_waits_for_the_first_child(rt: HostRuntime) {
    assert!(rt; fails(rt.alloc(), &SECOND_START));
}

static OUTPUT_FAULTS: [Failed; 2] = [
    (At::Out(&[1]), &[0, 2, 0, 2], UNWRITTEN, REPORTED),
    (
        At::Out(&[2]),
        &[0, 2, 0, 2],
        End {
            out: (REPORT, 17),
            ..UNWRITTEN
        },
        REPORTED,
    ),
];

#[test]
fn each_push_of_the_output_fails(rt: HostRuntime) {
    for row in &OUTPUT_FAULTS {
        assert!(rt; fails(rt.alloc(), row));
    }
}
