// Requests, with each call of the link and the output failing in turn.

use crate::calls::{ALL, End, NOTHING, ends, ends_twice};
use crate::objects::{At, Task, fails_at};
use crate::rows::{ASK, ASKED, REQUEST};
use std::alloc::Global;

/// The row's request.
pub static ASKS: Task = Task {
    words: &["inject", "ask.txt"],
    file: "ask.txt",
    bytes: REQUEST,
    arrivals: &[],
    statuses: &[],
};

/// That request is sent.
pub const SENT: End = End {
    out: (ASKED, ALL),
    sent: (0, ASK),
    ..NOTHING
};

const NO_LINK: End = End {
    code: 5,
    note: b"planet: link fault\n",
    ..NOTHING
};

// The frame is sent before its line is written.
const NO_LINE: End = End {
    code: 4,
    note: b"planet: write fault\n",
    sent: (0, ASK),
    ..NOTHING
};

#[test]
fn a_request_is_sent_once(rt: HostRuntime) {
    assert!(rt; ends_twice(rt.alloc(), &ASKS, &SENT));
}

/// Calls that fail, and how the request then ends.
type Failed = (At, End);

fn fails(alloc: Global, row: &Failed) -> bool {
    ends(alloc, &ASKS, &fails_at(row.0), &row.1, &SENT)
}

// The binding and the sending.
static LINK_FAULTS: [Failed; 3] = [
    (At::Link(&[1]), NO_LINK),
    (At::Link(&[2]), NO_LINK),
    (At::Link(&[3]), SENT),
];

#[test]
fn each_call_of_the_link_fails(rt: HostRuntime) {
    for row in &LINK_FAULTS {
        assert!(rt; fails(rt.alloc(), row));
    }
}

static OUTPUT_FAULTS: [Failed; 2] = [(At::Out(&[1]), NO_LINE), (At::Out(&[2]), SENT)];

#[test]
fn each_push_of_the_output_fails(rt: HostRuntime) {
    for row in &OUTPUT_FAULTS {
        assert!(rt; fails(rt.alloc(), row));
    }
}
