// Steps of a node that no log has: with the last serial numbers, with the last numbers of frames, and over frames without a byte.

ghost use Rattle.std.specs.Prelude.{◌≡◌, true};
ghost use Rattle.plan_base.specs.declared.stamp.Version.{Version};
ghost use Rattle.node_core_spec.specs.Fits.{comes_within};

use containers::Items;
use network_config::{Event, LogEvent, NodeConfig};
use node_core::{Node, Version};
use node_core_spec::Act;
use node_files::read_log;
use plan_base::{Bytes, Dev, Host};
use service_registry::Registry;
use std::alloc::Global;
use trace_text::put_act;

/// Three injections of a function that gives unit, with bound 5.
const INJECTIONS: &[u8] =
    b"planet log 1\nhost 1\nhosts 1\nevents\ninject 5 0000010166000020016600\ninject 5 0000010166000020016600\ninject 5 0000010166000020016600\n";

/// Two ticks.
const TICKS: &[u8] = b"planet log 2\nhost 1\nboot 0\nhosts 1\nevents\ntick\ntick\n";

/// A frame of version 2 with boot 7 and number 9: packet 3.1 for host 2 with bound 3.
const PASSING: &[u8] =
    b"planet log 2\nhost 1\nboot 0\nhosts 1\nevents\nframe 0 504c414e02010000000000000007000000000000000900000003000000000000000100000002000000030c64656661756c74526f7574650000010166000020016600\n";

// Host 1 of the network of hosts 3, 1 and 2, with host 2 on device 1, whose next numbers are these.
fn node_of(alloc: Global, version: Version, serial: u64, link: u64) -> Option<Node<Registry>> {
    let hosts = Items::from_slice(alloc, &[Host(3), Host(1), Host(2)]).ok()?;
    let neighbours = Items::from_slice(alloc, &[(Host(2), Dev(1))]).ok()?;
    let config = NodeConfig {
        here: Host(1),
        hosts,
        neighbours,
        serial,
        version,
        boot: 0,
        link,
    };
    Node::new(alloc, config, Registry::new(alloc, &[])).ok()
}

// Whether an event may come to a node of either version: a bound of at most 65,535 and no handler, a device of at most 8.
fn comes(event: &Event) -> bool
    ensures { (v : Version) → result ≡ true → comes_within v event.now }
{
    match event {
        Event::Inject(_, bound, handler) => *bound <= 65_535 && handler.is_none(),
        Event::Frame(dev, _) => dev.0 <= 8,
        _ => true,
    }
}

fn put_lines(alloc: Global, acts: &[Act], text: &mut Bytes) -> bool {
    for act in acts {
        if put_act(alloc, 1, Host(1), act, text).is_err() {
            return false;
        }
    }
    true
}

// Whether acts have these lines, at event 1.
fn have_lines(alloc: Global, acts: &[Act], lines: &str) -> bool {
    let mut text = Bytes::new(alloc);
    put_lines(alloc, acts, &mut text) && text.as_slice() == lines.as_bytes()
}

// Whether a step's acts have these lines.
fn says(alloc: Global, node: &mut Node<Registry>, event: &Event, lines: &str) -> bool {
    comes(event)
        && match node.step(alloc, event) {
            Ok(acts) => have_lines(alloc, acts.list.as_slice(), lines),
            Err(_) => false,
        }
}

fn says_at(alloc: Global, node: &mut Node<Registry>, entry: &LogEvent, lines: &str) -> bool {
    match entry {
        LogEvent::Step(event) => says(alloc, node, event, lines),
        LogEvent::Lost => false,
    }
}

fn says_each(
    alloc: Global,
    node: &mut Node<Registry>,
    entries: &[LogEvent],
    lines: &[&str],
) -> bool {
    for (entry, line) in entries.iter().zip(lines) {
        if !says_at(alloc, node, entry, line) {
            return false;
        }
    }
    entries.len() == lines.len()
}

// Whether the steps of a log's entries have these lines at a node.
fn makes(alloc: Global, node: &mut Node<Registry>, log: &[u8], lines: &[&str]) -> bool {
    log.len() <= 1_000
        && match read_log(alloc, log) {
            Ok(log) => says_each(alloc, node, log.events.as_slice(), lines),
            Err(_) => false,
        }
}

// The same at a node of version 1 with this next serial number.
fn makes_from(alloc: Global, serial: u64, log: &[u8], lines: &[&str]) -> bool {
    match node_of(alloc, Version::One, serial, 0) {
        Some(mut node) => makes(alloc, &mut node, log, lines),
        None => false,
    }
}

// The same at a node of version 2 with this next number on each device.
fn makes_at(alloc: Global, link: u64, log: &[u8], lines: &[&str]) -> bool {
    match node_of(alloc, Version::Two, 1, link) {
        Some(mut node) => makes(alloc, &mut node, log, lines),
        None => false,
    }
}

#[test]
fn the_last_serial_number(rt: HostRuntime) {
    let first =
        "1 inject @1 1.18446744073709551614 bound 5\n1 value @1 1.18446744073709551614 () evals 0 left 5\n";
    let spent = "1 drop @1 SerialsSpent\n";
    assert!(rt;
        makes_from(
            rt.alloc(),
            18_446_744_073_709_551_614,
            INJECTIONS,
            &[first, spent, spent],
        )
    );
}

#[test]
fn the_last_number_of_a_device(rt: HostRuntime) {
    let last = 18_446_744_073_709_551_614;
    let first = "1 tick @1 now 1\n1 advert @1 %1\n";
    let spent = "1 tick @1 now 2\n1 drop @1 LinkSpent advert\n";
    assert!(rt; makes_at(rt.alloc(), last, TICKS, &[first, spent]));
    let none = "1 tick @1 now 1\n1 drop @1 LinkSpent advert\n";
    assert!(rt; makes_at(rt.alloc(), last + 1, TICKS, &[none, spent]));
}

#[test]
fn a_packet_without_a_number(rt: HostRuntime) {
    let lines = "1 arrive @1 %0\n1 drop @1 LinkSpent 3.1 bound 3\n";
    assert!(rt; makes_at(rt.alloc(), 18_446_744_073_709_551_615, PASSING, &[lines]));
}

/// What a node says of a frame without a byte, on each device.
static DROPPED: [&str; 9] = [
    "1 arrive @1 %0\n1 drop @1 BadFrame Truncated 0\n",
    "1 arrive @1 %1\n1 drop @1 BadFrame Truncated 0\n",
    "1 arrive @1 %2\n1 drop @1 BadFrame Truncated 0\n",
    "1 arrive @1 %3\n1 drop @1 BadFrame Truncated 0\n",
    "1 arrive @1 %4\n1 drop @1 BadFrame Truncated 0\n",
    "1 arrive @1 %5\n1 drop @1 BadFrame Truncated 0\n",
    "1 arrive @1 %6\n1 drop @1 BadFrame Truncated 0\n",
    "1 arrive @1 %7\n1 drop @1 BadFrame Truncated 0\n",
    "1 arrive @1 %8\n1 drop @1 BadFrame Truncated 0\n",
];

fn are_dropped(alloc: Global, node: &mut Node<Registry>) -> bool {
    for (dev, lines) in (0..9).zip(&DROPPED) {
        if !says(
            alloc,
            node,
            &Event::Frame(Dev(dev), Bytes::new(alloc)),
            lines,
        ) {
            return false;
        }
    }
    true
}

fn are_dropped_everywhere(alloc: Global, node: &mut Node<Registry>) -> bool {
    let lines = "1 arrive @1 control\n1 drop @1 BadFrame Truncated 0\n";
    are_dropped(alloc, node)
        && says(alloc, node, &Event::Control(Bytes::new(alloc)), lines)
        && node.queued(Dev(1)) == 0
}

fn drops(alloc: Global) -> bool {
    match node_of(alloc, Version::One, 1, 0) {
        Some(mut node) => are_dropped_everywhere(alloc, &mut node),
        None => false,
    }
}

#[test]
fn no_byte_is_no_frame(rt: HostRuntime) {
    assert!(rt; drops(rt.alloc()));
}
