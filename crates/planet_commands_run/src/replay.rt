//! The command `replay`.
ghost use Rattle.std.specs.Prelude.{◌≡◌, ◌≤◌, ◌⊎◌, Err, length};
ghost use Rattle.network_config.specs.Rules.{KeepsRules};
ghost use Rattle.network_config.specs.NodeRules.{KeepsLog};
ghost use Rattle.schedule_text.specs.Schedules.{schedule_of};
ghost use Rattle.node_files.specs.Logs.{log_of};
ghost use Rattle.planet_commands.specs.Said.{line_limit};
ghost use Rattle.planet_commands.specs.Renders.{Prints, Renders};
ghost use Rattle.planet_commands_run.specs.Schedules.{schedule_said, is_header_fault, replayed_of, as_log, replay_text, log_trace};

use line_reader::{LineFault, LineReason};
use net_world::{RunFault, run};
use network_config::{Log, Schedule};
use node_files::read_log;
use node_io::Sink;
use node_log::{ReplayFault, run_log};
use planet_commands::{Cause, FileCommand, MOST_FILE_BYTES, services_of};
use schedule_text::read_schedule;
use service_registry::Registry;
use std::alloc::Global;

/// `replay FILE`: the trace and the ledger of a schedule, or the trace of a node's log.
pub struct Replay;

// Writes the trace and the ledger of a schedule that was read.
#[tactic(auto, using(node_io::proofs::SinkLaws::prefix_none))]
fn run_read<K: Sink>(alloc: Global, schedule: Schedule, out: &mut K) -> Cause
    requires { KeepsRules schedule }
    ensures { Prints (replay_text schedule) result (K.state out.old) (K.state out.new) }
{
    let Ok(services) = services_of(alloc, schedule.topology.hosts.as_slice()) else {
        drop(schedule);
        return Cause::NoMemory;
    };
    match run(alloc, schedule, services, out) {
        Ok(()) => Cause::Done,
        Err(RunFault::WriteFault) => Cause::WriteFault,
        Err(RunFault::NoMemory) => Cause::NoMemory,
    }
}

// Whether a file begins as no schedule.
fn is_header_fault(fault: &LineFault) -> bool
    ensures { result ≡ is_header_fault fault.now }
{
    match fault {
        LineFault::Line(_, LineReason::BadHeader) => true,
        _ => false,
    }
}

// Writes the trace of a log that was read.
#[tactic(auto, using(node_log::proofs::Resting::new_rests))]
fn run_log_read<K: Sink>(alloc: Global, log: &Log, out: &mut K) -> Cause
    requires { KeepsLog log.now }
    ensures { Prints (log_trace log.now) result (K.state out.old) (K.state out.new) }
{
    let services = Registry::new(alloc, log.missing.as_slice());
    match run_log(alloc, log, services, out) {
        Ok(()) => Cause::Done,
        Err(ReplayFault::WriteFault) => Cause::WriteFault,
        Err(ReplayFault::NoMemory) => Cause::NoMemory,
    }
}

// Writes the trace of the log that bytes say. Conditions: at most 4,194,304 bytes, and they begin as no schedule.
#[tactic(auto, using(crate::proofs::Replaying::log_printed))]
fn replay_log<K: Sink>(alloc: Global, bytes: &[u8], out: &mut K) -> Cause
    requires few { length bytes.now ≤ 4194304 }
    requires other { replayed_of bytes.now ≡ as_log (log_of bytes.now) }
    ensures { Renders (schedule_said bytes.now) result (K.state out.old) (K.state out.new) }
{
    match read_log(alloc, bytes) {
        Ok(log) => run_log_read(alloc, &log, out),
        Err(fault) => Cause::from(fault),
    }
}

// Replays the log that bytes say that aren't read as a schedule, or refuses them. Condition: at most 4,194,304 bytes.
#[tactic(auto, using(crate::proofs::Replaying::other_header))]
fn replay_other<K: Sink>(alloc: Global, bytes: &[u8], fault: LineFault, out: &mut K) -> Cause
    requires few { length bytes.now ≤ 4194304 }
    requires fault { (fault ≡ LineFault.NoMemory) ⊎ (schedule_of bytes.now ≡ Err fault) }
    ensures { Renders (schedule_said bytes.now) result (K.state out.old) (K.state out.new) }
{
    if is_header_fault(&fault) {
        drop(fault);
        replay_log(alloc, bytes, out)
    } else {
        Cause::from(fault)
    }
}

impl FileCommand for Replay {
    ghost limit = { line_limit };

    ghost said = { λ command. schedule_said };

    fn limit() -> usize {
        MOST_FILE_BYTES
    }

    #[tactic(auto, using(crate::proofs::Replaying::schedule_printed))]
    fn write<K: Sink>(&self, alloc: Global, bytes: &[u8], out: &mut K) -> Cause {
        match read_schedule(alloc, bytes) {
            Ok(schedule) => run_read(alloc, schedule, out),
            Err(fault) => replay_other(alloc, bytes, fault, out),
        }
    }
}
