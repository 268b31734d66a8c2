//! Values that files say line by line, and how a command reads them.
ghost use Rattle.std.specs.Prelude.{◌≡◌, ◌≤◌, ◌<◌, ◌^◌, ◌⊎◌, List, ℕ, Result, Ok, Err, IfOk, IfErr, length};
ghost use Rattle.line_reader.specs.declared.fault.LineFault.{LineFault as Fault};
ghost use Rattle.file_laws.specs.Refusals.{FaultHolds};
ghost use Rattle.planet_commands.specs.Said.{all_of, said_by, said_in, lines_said};
ghost use Rattle.planet_commands.specs.Takes.{Reads, Takes};

use crate::status::{Cause, Refusal};
use command_files::{AuditFile, CutFile, PortFile, read_audit, read_cut, read_port};
use line_reader::LineFault;
use network_config::{AskFile, Fleet, Log, ServeConfig};
use node_files::{read_ask, read_config, read_fleet, read_log};
use node_io::{Files, ReadError, read_whole};
use plan_base::Bytes;
use std::alloc::Global;

/// The most bytes of a file of lines.
pub const MOST_FILE_BYTES: usize = 4_194_304;

/// Reads the file `name`, which may have at most so many bytes.
pub fn bytes_of<F: Files>(
    alloc: Global,
    files: &mut F,
    name: &str,
    limit: usize,
) -> Result<Bytes, Cause>
    requires { limit < 2 ^ 62 }
    ensures within { IfOk result (λ bytes. length bytes ≤ limit) }
    ensures takes { Takes (said_in limit all_of name.now) name.now
        (F.state files.old) (F.state files.new) result }
{
    match read_whole(alloc, files, name, limit) {
        Ok(bytes) => Ok(bytes),
        Err(ReadError::Fault) => Err(Cause::ReadFault),
        Err(ReadError::TooLong) => Err(Cause::Refused(Refusal::TooLong)),
        Err(ReadError::NoMemory) => Err(Cause::NoMemory),
    }
}

/// A value that a file says line by line.
pub trait LineValue: Drop + Sized {
    // what bytes say: the value, or the first line outside its format; and what such a value keeps
    ghost said: { List ℕ → Result Self Fault };

    ghost keeps: { Self → Type 0 };

    // no first refusal of such a file is or holds `NoMemory`
    ghost own: { (bytes : List ℕ) (e : Fault) → said bytes ≡ Err e → FaultHolds e };

    /// Reads the value. Condition: at most 4,194,304 bytes.
    fn read(alloc: Global, bytes: &[u8]) -> Result<Self, LineFault>
        requires { length bytes.now ≤ 4194304 }
        ensures found { IfOk result (λ v. said bytes.now ≡ Ok v) }
        ensures fault { IfErr result (λ e. (e ≡ LineFault.NoMemory) ⊎ (said bytes.now ≡ Err e)) }
        ensures rules { IfOk result keeps };
}

impl LineValue for AskFile {
    ghost use Rattle.network_config.specs.NodeRules.{KeepsAsk};
    ghost use Rattle.file_laws.proofs.AskHolds.{ask_holds};
    ghost use Rattle.node_files.specs.Asks.{ask_of};

    ghost said = { ask_of };

    ghost keeps = { KeepsAsk };

    ghost own = { ask_holds };

    fn read(alloc: Global, bytes: &[u8]) -> Result<AskFile, LineFault> {
        read_ask(alloc, bytes)
    }
}

impl LineValue for Fleet {
    ghost use Rattle.network_config.specs.NodeRules.{KeepsFleet};
    ghost use Rattle.file_laws.proofs.FleetHolds.{fleet_holds};
    ghost use Rattle.node_files.specs.Fleets.{fleet_of};

    ghost said = { fleet_of };

    ghost keeps = { KeepsFleet };

    ghost own = { fleet_holds };

    fn read(alloc: Global, bytes: &[u8]) -> Result<Fleet, LineFault> {
        read_fleet(alloc, bytes)
    }
}

impl LineValue for ServeConfig {
    ghost use Rattle.network_config.specs.NodeRules.{KeepsServe};
    ghost use Rattle.file_laws.proofs.ConfigHolds.{config_holds};
    ghost use Rattle.node_files.specs.Configs.{config_of};

    ghost said = { config_of };

    ghost keeps = { KeepsServe };

    ghost own = { config_holds };

    fn read(alloc: Global, bytes: &[u8]) -> Result<ServeConfig, LineFault> {
        read_config(alloc, bytes)
    }
}

impl LineValue for Log {
    ghost use Rattle.network_config.specs.NodeRules.{KeepsLog};
    ghost use Rattle.file_laws.proofs.LogHolds.{log_holds};
    ghost use Rattle.node_files.specs.Logs.{log_of};

    ghost said = { log_of };

    ghost keeps = { KeepsLog };

    ghost own = { log_holds };

    fn read(alloc: Global, bytes: &[u8]) -> Result<Log, LineFault> {
        read_log(alloc, bytes)
    }
}

impl LineValue for CutFile {
    ghost use Rattle.file_laws.proofs.CutHolds.{cut_holds};
    ghost use Rattle.command_files.specs.Cuts.{cut_of, KeepsCut};

    ghost said = { cut_of };

    ghost keeps = { KeepsCut };

    ghost own = { cut_holds };

    fn read(alloc: Global, bytes: &[u8]) -> Result<CutFile, LineFault> {
        read_cut(alloc, bytes)
    }
}

impl LineValue for AuditFile {
    ghost use Rattle.command_files.specs.AuditFiles.{audit_of};
    ghost use Rattle.file_laws.proofs.AuditHolds.{audit_holds};
    ghost use Rattle.command_files.specs.AuditRules.{KeepsAudit};

    ghost said = { audit_of };

    ghost keeps = { KeepsAudit };

    ghost own = { audit_holds };

    fn read(alloc: Global, bytes: &[u8]) -> Result<AuditFile, LineFault> {
        read_audit(alloc, bytes)
    }
}

impl LineValue for PortFile {
    ghost use Rattle.file_laws.proofs.PortHolds.{port_holds};
    ghost use Rattle.command_files.specs.PortFiles.{port_of};
    ghost use Rattle.command_files.specs.PortRules.{KeepsPort};

    ghost said = { port_of };

    ghost keeps = { KeepsPort };

    ghost own = { port_holds };

    fn read(alloc: Global, bytes: &[u8]) -> Result<PortFile, LineFault> {
        read_port(alloc, bytes)
    }
}

/// The value that bytes say. Condition: at most 4,194,304 bytes.
#[tactic(auto, using(crate::proofs::Refusing::lines_refuse))]
pub fn value_in<V: LineValue>(alloc: Global, bytes: &[u8]) -> Result<V, Cause>
    requires { length bytes.now ≤ 4194304 }
    ensures reads { Reads (said_by (V.said bytes.now)) result }
    ensures rules { IfOk result V.keeps }
{
    match V::read(alloc, bytes) {
        Ok(value) => Ok(value),
        Err(fault) => Err(Cause::from(fault)),
    }
}

/// Reads the file `name` and answers the value that it says.
#[tactic(auto, using(crate::proofs::Taking::takes_none, crate::proofs::Taking::takes_read))]
pub fn value_of<V: LineValue, F: Files>(
    alloc: Global,
    files: &mut F,
    name: &str,
) -> Result<V, Cause>
    ensures takes { Takes (lines_said V.said name.now) name.now
        (F.state files.old) (F.state files.new) result }
    ensures rules { IfOk result V.keeps }
{
    match bytes_of(alloc, files, name, MOST_FILE_BYTES) {
        Ok(bytes) => value_in(alloc, bytes.as_slice()),
        Err(cause) => Err(cause),
    }
}
