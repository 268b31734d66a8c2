//! Makes the entries of a log again, and writes their lines.
ghost use Rattle.std.specs.Prelude.{◌≡◌, IfOk};
ghost use Rattle.network_config.specs.declared.event.LogEvent.TheVariants as logged;
ghost use Rattle.network_config.specs.NodeRules.{KeepsEntry, KeepsLog, KeepsNode, KeepsNodeEvent};
ghost use Rattle.node_log.specs.Entries.{IsNewNode, KeepsEntries, GivesLines, PrintsEntry};
ghost use Rattle.node_log.specs.Replays.{Prints};
ghost use Rattle.node_core_spec.specs.State.{NodeState, new_node};
ghost use Rattle.node_core.specs.Stands.{version_of, NodeStands};
ghost use Rattle.node_core.specs.Turns.{IsResting};
ghost use Rattle.node_log.specs.Runs.{played_entries};
ghost use Rattle.node_log.specs.Texts.{lines_text, whole_trace};

use crate::fault::ReplayFault;
use crate::lines::{lost_lines, step_lines};
use containers::Items;
use network_config::{Event, Log, LogEvent, NodeConfig};
use node_core::Node;
use node_io::{Sink, put_all};
use plan_base::{Bytes, NoMemory};
use service_api::Services;
use std::alloc::Global;

/// Makes a step again, and gives its lines.
#[tactic(auto, using(crate::proofs::Within::comes_so))]
fn event_lines<S: Services>(
    alloc: Global,
    node: &mut Node<S>,
    config: &NodeConfig,
    number: u64,
    event: &Event,
) -> Result<Bytes, NoMemory>
    requires event { KeepsNodeEvent config.now.version event.now }
    requires version { version_of node.old ≡ config.now.version }
    ensures { GivesLines S.stands config.now.here number (logged.Step event.now)
        node.old node.new result }
{
    let acts = node.step(alloc, event)?;
    let text = step_lines(alloc, number, config.here, acts.list.as_slice());
    drop(acts);
    text
}

/// Makes an entry again, and gives its lines.
fn entry_lines<S: Services>(
    alloc: Global,
    node: &mut Node<S>,
    config: &NodeConfig,
    number: u64,
    entry: &LogEvent,
) -> Result<Bytes, NoMemory>
    requires entry { KeepsEntry config.now.version entry.now }
    requires version { version_of node.old ≡ config.now.version }
    ensures { GivesLines S.stands config.now.here number entry.now node.old node.new result }
{
    match entry {
        LogEvent::Step(event) => event_lines(alloc, node, config, number, event),
        LogEvent::Lost => lost_lines(alloc, number, config.here),
    }
}

#[tactic(auto, using(node_io::proofs::SinkLaws::prefix_none))]
/// Makes an entry again, and writes its lines.
fn write_entry<S: Services, K: Sink>(
    alloc: Global,
    node: &mut Node<S>,
    config: &NodeConfig,
    number: u64,
    entry: &LogEvent,
    out: &mut K,
) -> Result<(), ReplayFault>
    requires entry { KeepsEntry config.now.version entry.now }
    requires version { version_of node.old ≡ config.now.version }
    ensures { PrintsEntry S.stands config.now.here number entry.now node.old node.new
        (K.state out.old) (K.state out.new) result }
{
    let Ok(text) = entry_lines(alloc, node, config, number, entry) else {
        return Err(ReplayFault::NoMemory);
    };
    match put_all(out, text.as_slice()) {
        Ok(()) => Ok(()),
        Err(_) => Err(ReplayFault::WriteFault),
    }
}

/// Makes the entries of a log again, and writes their lines.
fn write_entries<S: Services, K: Sink>(
    alloc: Global,
    node: &mut Node<S>,
    config: &NodeConfig,
    entries: &[LogEvent],
    out: &mut K,
) -> Result<(), ReplayFault>
    requires keeps { KeepsEntries config.now.version entries.now }
    requires version { version_of node.old ≡ config.now.version }
    ensures { (s : NodeState) → NodeStands S.stands node.old s
        → Prints (lines_text config.now.here (played_entries 0 s entries.now))
        (K.state out.old) (K.state out.new) result }
{
    let mut number = 0;
    for entry in entries {
        number += 1;
        if let Err(fault) = write_entry(alloc, node, config, number, entry, out) {
            return Err(fault);
        }
    }
    Ok(())
}

/// How a node begins, once more.
pub fn config_again(alloc: Global, node: &NodeConfig) -> Result<NodeConfig, NoMemory>
    ensures { IfOk result (λ copy. copy ≡ node.now) }
{
    let hosts = Items::from_slice(alloc, node.hosts.as_slice())?;
    let neighbours = Items::from_slice(alloc, node.neighbours.as_slice())?;
    Ok(NodeConfig {
        here: node.here,
        hosts,
        neighbours,
        serial: node.serial,
        version: node.version,
        boot: node.boot,
        link: node.link,
    })
}

/// A node at its beginning, by its plan. Conditions: the plan keeps its rules, and no `begin` of the services is open.
pub fn begin_node<S: Services + Drop>(
    alloc: Global,
    config: &NodeConfig,
    services: S,
) -> Result<Node<S>, NoMemory>
    requires keeps { KeepsNode config.now }
    requires services { IsResting (S.stands services) }
    ensures { IfOk result (λ node. IsNewNode S.stands config.now (S.stands services) node) }
{
    let config = config_again(alloc, config)?;
    Node::new(alloc, config, services)
}

/// Writes the trace of a log at a new node: its first line, the lines of the entries, and `end`.
#[tactic(auto, using(node_io::proofs::SinkLaws::prefix_none, crate::proofs::ReplayLaws::trace_begun))]
fn write_log<S: Services, K: Sink>(
    alloc: Global,
    node: &mut Node<S>,
    log: &Log,
    out: &mut K,
) -> Result<(), ReplayFault>
    requires keeps { KeepsLog log.now }
    requires version { version_of node.old ≡ log.now.node.version }
    ensures { (s : NodeState) → NodeStands S.stands node.old s
        → Prints (whole_trace log.now.node.here (played_entries 0 s log.now.events))
        (K.state out.old) (K.state out.new) result }
{
    let Ok(()) = put_all(out, b"planet trace 1\n") else {
        return Err(ReplayFault::WriteFault);
    };
    if let Err(fault) = write_entries(alloc, node, &log.node, log.events.as_slice(), out) {
        return Err(fault);
    }
    match put_all(out, b"end\n") {
        Ok(()) => Ok(()),
        Err(_) => Err(ReplayFault::WriteFault),
    }
}

#[tactic(auto, using(node_io::proofs::SinkLaws::prefix_none))]
/// Writes the trace of a log: its first line, the lines of each entry's step at a new node with these services, with
/// `drop @H NoMemory` for one that found no memory, and `end`. Conditions: the log keeps its rules, and no `begin` of the
/// services is open. Where it fails, what was written is a prefix of the trace.
pub fn run_log<S: Services + Drop, K: Sink>(
    alloc: Global,
    log: &Log,
    services: S,
    out: &mut K,
) -> Result<(), ReplayFault>
    requires keeps { KeepsLog log.now }
    requires services { IsResting (S.stands services) }
    ensures { Prints
        (whole_trace log.now.node.here
        (played_entries 0 (new_node log.now.node (S.stands services)) log.now.events))
        (K.state out.old) (K.state out.new) result }
{
    let Ok(mut node) = begin_node(alloc, &log.node, services) else {
        return Err(ReplayFault::NoMemory);
    };
    write_log(alloc, &mut node, log, out)
}
