//! The command `audit`: the answer of logs that were read.
ghost use Rattle.std.specs.Prelude.{◌≡◌, List, IfOk};
ghost use Rattle.net_world_spec.specs.World.{Cables};
ghost use Rattle.ledger_audit.specs.Audits.{Logged};
ghost use Rattle.ledger_audit.specs.Pasts.{IsReckoned, IsReckoning};
ghost use Rattle.ledger_audit.specs.Ledgers.{verdict_of};
ghost use Rattle.ledger_audit.specs.Texts.{audit_text};
ghost use Rattle.command_files.specs.AuditRules.{KeepsAudit};
ghost use Rattle.planet_commands.specs.Renders.{Prints};
ghost use Rattle.planet_commands_fleet.specs.Audits.{AuditsFile, AuditsRead, TakesLogs};

use crate::logs::reckon_logs;
use command_files::AuditFile;
use ledger_audit::{AuditState, judge, verdict_text};
use node_io::{Files, Sink};
use plan_base::{Bytes, NoMemory};
use planet_commands::{Cause, print, value_of};
use std::alloc::Global;

/// The text of what is answered of logs.
fn answer_text(alloc: Global, reckoning: AuditState) -> Result<Bytes, NoMemory>
    requires { IsReckoning reckoning }
    ensures { (links : Cables) (ls : List Logged) → IsReckoned links ls reckoning
        → IfOk result (λ text. text ≡ audit_text (verdict_of links ls)) }
{
    let verdict = judge(alloc, reckoning)?;
    let text = verdict_text(alloc, &verdict);
    drop(verdict);
    text
}

/// Writes what is answered of logs.
#[tactic(auto, using(node_io::proofs::SinkLaws::prefix_none))]
fn print_answer<K: Sink>(alloc: Global, reckoning: AuditState, out: &mut K) -> Cause
    requires { IsReckoning reckoning }
    ensures { (links : Cables) (ls : List Logged) → IsReckoned links ls reckoning
        → Prints (audit_text (verdict_of links ls)) result (K.state out.old) (K.state out.new) }
{
    match answer_text(alloc, reckoning) {
        Ok(text) => print(text.as_slice(), out),
        Err(_) => Cause::NoMemory,
    }
}

/// Reads the logs that a file names, and makes their steps again.
fn take_logs<F: Files>(alloc: Global, files: &mut F, a: &AuditFile) -> Result<AuditState, Cause>
    requires { KeepsAudit a.now }
    ensures { TakesLogs a.now.links a.now.logs (F.state files.old) (F.state files.new) result }
{
    reckon_logs(alloc, files, a.links.as_slice(), a.logs.as_slice())
}

/// Reads the logs that a file names, and writes what is answered of them.
fn audit_read<F: Files, K: Sink>(alloc: Global, files: &mut F, a: &AuditFile, out: &mut K) -> Cause
    requires { KeepsAudit a.now }
    ensures { AuditsRead a.now (F.state files.old) (F.state files.new) result
        (K.state out.old) (K.state out.new) }
{
    match take_logs(alloc, files, a) {
        Ok(reckoning) => print_answer(alloc, reckoning, out),
        Err(cause) => cause,
    }
}

/// `audit FILE`: whether the logs that the file names fit together, and if so the ledger of the whole fleet.
pub fn on_audit<F: Files, K: Sink>(alloc: Global, files: &mut F, name: &str, out: &mut K) -> Cause
    ensures { AuditsFile name.now (F.state files.old) (F.state files.new) result
        (K.state out.old) (K.state out.new) }
{
    match value_of::<AuditFile, F>(alloc, files, name) {
        Ok(a) => audit_read(alloc, files, &a, out),
        Err(cause) => cause,
    }
}
