// Outputs that stop behind some bytes, and notes that fail.

use crate::calls::{End, NOTHING, ends_once, ends_over};
use crate::objects::{Failing, Machine, NONE, Task, machine_of, streams_of};
use crate::reads::reads;
use crate::rows::{PORT, PORTED, RUN, SCHEDULE};
use std::alloc::Global;

// Whether a call, over an output that takes so many bytes, writes these and ends with a write fault.
fn stops_behind(alloc: Global, task: &Task, out: (&'static [u8], usize)) -> bool {
    let fails = Failing {
        room: Some(out.1 as u64),
        ..NONE
    };
    let end = End {
        code: 4,
        out,
        note: b"planet: write fault\n",
        ..NOTHING
    };
    ends_once(alloc, task, &fails, &end)
}

// Whether a call that writes a text stops so behind each number of its bytes.
fn stops(alloc: Global, task: &Task, text: &'static [u8]) -> bool {
    for count in 0..text.len() {
        if !stops_behind(alloc, task, (text, count)) {
            return false;
        }
    }
    true
}

#[test]
fn a_stopping_output_has_taken_a_prefix(rt: HostRuntime) {
    let alloc = rt.alloc();
    assert!(rt; stops(alloc, &reads(&["replay", "file.txt"], SCHEDULE), RUN));
    assert!(rt; stops(alloc, &reads(&["port", "file.txt"], PORT), PORTED));
}

static UNKNOWN: Task = Task {
    words: &["replay", "file.txt"],
    file: "file.txt",
    bytes: b"planet schedule 9\n",
    arrivals: &[],
    statuses: &[],
};

/// The first push of a note fails.
static SILENT: Failing = Failing {
    notes: &[1],
    ..NONE
};

static UNNOTED: End = End { code: 4, ..NOTHING };

static NOTED: End = End {
    code: 2,
    note: b"planet: line 1: BadHeader\n",
    ..NOTHING
};

fn notes_over(
    alloc: Global,
    task: &Task,
    machine: &mut Machine,
    fails: &Failing,
    ends: (&End, &End),
) -> bool {
    match streams_of(alloc, task, fails) {
        Ok(mut streams) => ends_over(alloc, task, machine, &mut streams, ends.0)
            && ends_over(alloc, task, machine, &mut streams, ends.1),
        Err(_) => false,
    }
}

// Whether two calls over the same notes, of which these pushes fail, end so.
fn notes(alloc: Global, task: &Task, fails: &Failing, ends: (&End, &End)) -> bool {
    match machine_of(alloc, task, fails) {
        Ok(mut machine) => notes_over(alloc, task, &mut machine, fails, ends),
        Err(_) => false,
    }
}

// A note whose first push fails is a write fault, and the next call notes what is wrong with the file.
#[test]
fn a_note_that_fails_is_a_write_fault(rt: HostRuntime) {
    assert!(rt; notes(rt.alloc(), &UNKNOWN, &SILENT, (&UNNOTED, &NOTED)));
}
