// Logs are written again as they were read.

use network_config::{Log, LogEvent};
use node_files::{put_log_head, put_log_line, put_lost_line, read_log};
use plan_base::Bytes;
use std::alloc::Global;

/// A log with each kind of entry.
const EACH_KIND: &[u8] =
    b"planet log 1\nhost 2\nhosts 1 2 3 4294967295\ndev 1 3\ndev 8 4294967295\nwithout resident\nwithout net\nevents\ninject 65535 0000010166000020016600\ntick\nlost\ntake 0\ntake 8\nframe 8 00ff10\ncontrol 0a\n";

/// The log of a node of version 2, with an injection that has a handler.
const SECOND: &[u8] =
    b"planet log 2\nhost 1\nboot 18446744073709551615\nhosts 1 2\ndev 1 2\nevents\ninject 3 00000201660000200168010178040020016600 handler h\ninject 0 0000010166000020016600\ntake 0\n";

fn put_entries(alloc: Global, entries: &[LogEvent], out: &mut Bytes) -> bool {
    for entry in entries {
        let put = match entry {
            LogEvent::Step(event) => put_log_line(alloc, event, out),
            LogEvent::Lost => put_lost_line(out),
        };
        if put.is_err() {
            return false;
        }
    }
    true
}

fn put_log(alloc: Global, log: &Log, out: &mut Bytes) -> bool {
    put_log_head(alloc, &log.node, log.missing.as_slice(), out).is_ok()
        && put_entries(alloc, log.events.as_slice(), out)
}

fn is_written_as(alloc: Global, log: &Log, text: &[u8]) -> bool {
    let mut out = Bytes::new(alloc);
    put_log(alloc, log, &mut out) && out.as_slice() == text
}

// Whether a text is a log that is written as the same text.
fn is_written_again(alloc: Global, text: &[u8]) -> bool {
    text.len() <= 1_000
        && match read_log(alloc, text) {
            Ok(log) => is_written_as(alloc, &log, text),
            Err(_) => false,
        }
}

#[test]
fn logs_are_written_as_they_were_read(rt: HostRuntime) {
    assert!(rt; is_written_again(rt.alloc(), EACH_KIND));
    assert!(rt; is_written_again(rt.alloc(), SECOND));
}
