//! Reads the logs that an audit names.
ghost use Rattle.std.specs.Prelude.{◌≡◌, ◌≤◌, true, length, IfOk};
ghost use Rattle.std.specs.List.{All};
ghost use Rattle.network_config.specs.NodeRules.{KeepsLog};
ghost use Rattle.network_config.specs.FileNames.{is_file_name};
ghost use Rattle.network_config.specs.Hosts as host_spec;
ghost use Rattle.node_files.specs.Logs.{log_of};
ghost use Rattle.planet_commands.specs.Said.{lines_said};
ghost use Rattle.planet_commands.specs.Takes.{Takes};
ghost use Rattle.planet_commands_fleet.specs.Audits as spec;
ghost use Rattle.planet_commands_fleet.specs.Audits.{TakesLogs, said_of, log_said};

use ledger_audit::{AuditState, nothing_reckoned, reckon_log};
use line_reader::LineReason;
use network_config::{Link, Log};
use node_io::Files;
use plan_base::{Host, Text};
use planet_commands::{Cause, Refusal, value_of};
use std::alloc::Global;

/// The refusal of a file of lines, reported as that of the log with this number.
fn refusal_of(number: u32, refusal: Refusal) -> Refusal
    ensures { result ≡ spec.refusal_of number refusal }
{
    match refusal {
        Refusal::Line(line, reason) => Refusal::Log(number, line, reason),
        Refusal::TooLong => Refusal::LogTooLong(number),
        other => other,
    }
}

/// The cause of a file of lines that wasn't taken, reported as that of the log with this number.
fn cause_of(number: u32, cause: Cause) -> Cause
    ensures { result ≡ spec.cause_of number cause }
{
    match cause {
        Cause::Refused(refusal) => Cause::Refused(refusal_of(number, refusal)),
        other => other,
    }
}

/// Reads the file `name` as the log with this number.
#[tactic(auto, using(crate::proofs::LogTaking::takes_numbered, crate::proofs::LogTaking::takes_not))]
fn read_log_of<F: Files>(
    alloc: Global,
    files: &mut F,
    number: u32,
    name: &str,
) -> Result<Log, Cause>
    ensures takes { Takes (λ held. said_of number (lines_said log_of name.now held)) name.now
        (F.state files.old) (F.state files.new) result }
    ensures rules { IfOk result KeepsLog }
{
    match value_of::<Log, F>(alloc, files, name) {
        Ok(log) => Ok(log),
        Err(cause) => Err(cause_of(number, cause)),
    }
}

/// Whether a host is in a list of hosts.
fn is_listed(host: Host, hosts: &[Host]) -> bool
    ensures { result ≡ host_spec.is_listed host hosts.now }
{
    hosts.iter().any(|h| h.0 == host.0)
}

/// Reads the file `name` as the log with this number, which is of none of these hosts.
#[tactic(auto, using(crate::proofs::LogTaking::takes_new, crate::proofs::LogTaking::takes_twice, crate::proofs::LogTaking::takes_unread))]
fn take_log<F: Files>(
    alloc: Global,
    files: &mut F,
    number: u32,
    hosts: &[Host],
    name: &str,
) -> Result<Log, Cause>
    ensures takes { Takes (log_said number hosts.now name.now) name.now
        (F.state files.old) (F.state files.new) result }
    ensures rules { IfOk result KeepsLog }
{
    match read_log_of(alloc, files, number, name) {
        Ok(log) => {
            if is_listed(log.node.here, hosts) {
                let twice = Refusal::Log(number, 2, LineReason::TwiceNamed);
                Err(Cause::Refused(twice))
            } else {
                Ok(log)
            }
        }
        Err(cause) => Err(cause),
    }
}

/// Reads the logs of these names, at most 16, one after the other, and makes the steps of each again before the next is
/// read. Condition: the names are names of files.
pub fn reckon_logs<F: Files>(
    alloc: Global,
    files: &mut F,
    links: &[Link],
    names: &[Text],
) -> Result<AuditState, Cause>
    requires few { length names.now ≤ 16 }
    requires names { All (λ n. is_file_name n ≡ true) names.now }
    ensures { TakesLogs links.now names.now (F.state files.old) (F.state files.new) result }
{
    let mut reckoning = nothing_reckoned(alloc);
    let mut number = 0;
    for name in names {
        number += 1;
        let log = take_log(
            alloc,
            files,
            number,
            reckoning.hosts.as_slice(),
            name.as_str(),
        )?;
        let Ok(()) = reckon_log(alloc, links, number, &log, &mut reckoning) else {
            return Err(Cause::NoMemory);
        };
    }
    Ok(reckoning)
}
