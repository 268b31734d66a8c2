// A node that serves, with each call of its objects failing in turn.

use crate::calls::{ALL, End, NOTHING, ends, ends_twice};
use crate::objects::{At, Failing, NONE, Task, fails_at};
use crate::reads::{UNREAD, reads_fail};
use crate::rows::{
    ALONE, ANSWER, ANSWERER, ANSWERER_LOG, ANSWERER_TRACE, ASK, ASK_LOG, ASK_TRACE, FOR_HOST_1,
    LOG, NODE, PART, PART_LOG, PART_TRACE, PING, SENDER, SENDER_LOG, SENDER_TRACE, SENT_ON,
    THROUGH_HOST_1, TRACE,
};
use std::alloc::Global;

/// The row's node for four turns.
static SERVES: Task = Task {
    words: &["node", "node.cfg", "4"],
    file: "node.cfg",
    bytes: NODE,
    arrivals: &[(1, FOR_HOST_1), (1, THROUGH_HOST_1), (1, ""), (1, "ff")],
    statuses: &[],
};

static SERVED: End = End {
    out: (TRACE, ALL),
    sent: (1, SENT_ON),
    log: (LOG, ALL),
    ..NOTHING
};

/// A configuration, what arrives in one turn, and the trace, the frame and the log that come of it.
type Logged = (
    &'static [u8],
    &'static [(u32, &'static str)],
    &'static [u8],
    &'static str,
    &'static [u8],
);

// A ping to the neighbour, its answer by that one, an ask of the owner, and a part that is delivered to a port.
static LOGGED: [Logged; 4] = [
    (SENDER, &[], SENDER_TRACE, PING, SENDER_LOG),
    (ANSWERER, &[(1, PING)], ANSWERER_TRACE, ANSWER, ANSWERER_LOG),
    (NODE, &[(0, ASK)], ASK_TRACE, "", ASK_LOG),
    (ALONE, &[(0, PART)], PART_TRACE, "", PART_LOG),
];

fn logs(alloc: Global, row: &Logged) -> bool {
    let task = Task {
        words: &["node", "node.cfg", "1"],
        bytes: row.0,
        arrivals: row.1,
        ..SERVES
    };
    let end = End {
        out: (row.2, ALL),
        sent: (1, row.3),
        log: (row.4, ALL),
        ..NOTHING
    };
    ends_twice(alloc, &task, &end)
}

#[test]
fn nodes_write_the_logs_of_their_turns(rt: HostRuntime) {
    assert!(rt; ends_twice(rt.alloc(), &SERVES, &SERVED));
    for row in &LOGGED {
        assert!(rt; logs(rt.alloc(), row));
    }
}

/// The call that fails, the code and the note of the end, the places up to which the log and the trace are then written, and
/// whether the frame was sent before.
type Stop = (At, (u8, &'static [u8]), usize, usize, bool);

const LINK_FAULT: (u8, &[u8]) = (5, b"planet: link fault\n");

const WRITE_FAULT: (u8, &[u8]) = (4, b"planet: write fault\n");

fn end_at_stop(stop: &Stop) -> End {
    End {
        code: stop.1.0,
        note: stop.1.1,
        log: (LOG, stop.2),
        out: (TRACE, stop.3),
        sent: (1, if stop.4 { SENT_ON } else { "" }),
    }
}

// Whether the node ends so where a call fails, and afterwards serves whole.
fn stops(alloc: Global, stop: &Stop) -> bool {
    ends(
        alloc,
        &SERVES,
        &fails_at(stop.0),
        &end_at_stop(stop),
        &SERVED,
    )
}

// The binding, two receivings, the sending, and two receivings.
static LINK_FAULTS: [Stop; 6] = [
    (At::Link(&[1]), LINK_FAULT, 0, 0, false),
    (At::Link(&[2]), LINK_FAULT, 45, 15, false),
    (At::Link(&[3]), LINK_FAULT, 154, 63, false),
    (At::Link(&[4]), LINK_FAULT, 270, 121, false),
    (At::Link(&[5]), LINK_FAULT, 270, 121, true),
    (At::Link(&[6]), LINK_FAULT, 270, 121, true),
];

#[test]
fn each_call_of_the_link_fails(rt: HostRuntime) {
    for stop in &LINK_FAULTS {
        assert!(rt; stops(rt.alloc(), stop));
    }
}

#[test]
fn the_reading_of_its_file_fails(rt: HostRuntime) {
    assert!(rt; reads_fail(rt.alloc(), &SERVES, &SERVED));
}

// The making of the log, its lines up to `events`, and the line of each step, behind the three calls of the reading.
static LOG_FAULTS: [Stop; 6] = [
    (At::Files(&[4]), WRITE_FAULT, 0, 0, false),
    (At::Files(&[5]), WRITE_FAULT, 0, 0, false),
    (At::Files(&[6]), WRITE_FAULT, 45, 15, false),
    (At::Files(&[7]), WRITE_FAULT, 154, 63, false),
    (At::Files(&[8]), WRITE_FAULT, 263, 104, false),
    (At::Files(&[9]), WRITE_FAULT, 270, 121, true),
];

#[test]
fn each_call_of_the_log_fails(rt: HostRuntime) {
    for stop in &LOG_FAULTS {
        assert!(rt; stops(rt.alloc(), stop));
    }
}

// The first line, the lines of each step, and the last line.
static OUTPUT_FAULTS: [Stop; 6] = [
    (At::Out(&[1]), WRITE_FAULT, 45, 0, false),
    (At::Out(&[2]), WRITE_FAULT, 154, 15, false),
    (At::Out(&[3]), WRITE_FAULT, 263, 63, false),
    (At::Out(&[4]), WRITE_FAULT, 270, 104, false),
    (At::Out(&[5]), WRITE_FAULT, 281, 121, true),
    (At::Out(&[6]), WRITE_FAULT, 281, 167, true),
];

#[test]
fn each_push_of_the_output_fails(rt: HostRuntime) {
    for stop in &OUTPUT_FAULTS {
        assert!(rt; stops(rt.alloc(), stop));
    }
}

/// The calls behind the last one of each object; the tenth call of the files is the first one of the next run.
const BEHIND: Failing = Failing {
    files: &[10],
    link: &[7],
    out: &[7],
    ..NONE
};

#[test]
fn behind_the_last_call_nothing_fails(rt: HostRuntime) {
    let again = End {
        log: (LOG, ALL),
        ..UNREAD
    };
    assert!(rt; ends(rt.alloc(), &SERVES, &BEHIND, &SERVED, &again));
}
