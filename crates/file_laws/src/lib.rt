//! The law that running out of memory is no first refusal of a file of lines, nor inside of one; and what else is refused
//! for the first thing that is wrong with it, which is never running out of memory: texts of programs, and bytes of frames.
//!
//! Each law stands on a function without code, so that contracts of other crates can name it.
#![tactic(auto)]

mod flat;
mod frames;
mod programs;

ghost use Rattle.std.specs.Prelude.{◌≡◌, ℕ, List, Err};
ghost use Rattle.line_reader.specs.declared.fault.LineFault.{LineFault};
ghost use Rattle.schedule_text.specs.Schedules.{schedule_of};
ghost use Rattle.node_files.specs.Asks.{ask_of};
ghost use Rattle.node_files.specs.Configs.{config_of};
ghost use Rattle.node_files.specs.Fleets.{fleet_of};
ghost use Rattle.node_files.specs.Logs.{log_of};
ghost use Rattle.command_files.specs.Cuts.{cut_of};
ghost use Rattle.command_files.specs.PortFiles.{port_of};
ghost use Rattle.command_files.specs.AuditFiles.{audit_of};
ghost use Rattle.file_laws.specs.Refusals.{FaultHolds};

pub use flat::{frame_faults_are_flat, readings_fail_first, stamped_faults_are_flat};
pub use frames::{
    frame_refusals_hold_no_memory, frames_are_refused_first, stamped_frames_are_refused_first,
};
pub use programs::{program_refusals_hold_no_memory, texts_are_refused_first};

/// No first refusal of a file of lines is or holds `NoMemory`.
#[tactic(auto, using(crate::proofs::ScheduleHolds::schedule_holds, crate::proofs::ConfigHolds::config_holds, crate::proofs::LogHolds::log_holds, crate::proofs::AskHolds::ask_holds, crate::proofs::FleetHolds::fleet_holds, crate::proofs::CutHolds::cut_holds, crate::proofs::PortHolds::port_holds, crate::proofs::AuditHolds::audit_holds))]
pub fn refusals_hold_no_memory()
    ensures schedules { (bytes : List ℕ) (e : LineFault) → schedule_of bytes ≡ Err e →
        FaultHolds e }
    ensures configurations { (bytes : List ℕ) (e : LineFault) → config_of bytes ≡ Err e →
        FaultHolds e }
    ensures logs { (bytes : List ℕ) (e : LineFault) → log_of bytes ≡ Err e → FaultHolds e }
    ensures requests { (bytes : List ℕ) (e : LineFault) → ask_of bytes ≡ Err e → FaultHolds e }
    ensures fleets { (bytes : List ℕ) (e : LineFault) → fleet_of bytes ≡ Err e → FaultHolds e }
    ensures cuts { (bytes : List ℕ) (e : LineFault) → cut_of bytes ≡ Err e → FaultHolds e }
    ensures ports { (bytes : List ℕ) (e : LineFault) → port_of bytes ≡ Err e → FaultHolds e }
    ensures audits { (bytes : List ℕ) (e : LineFault) → audit_of bytes ≡ Err e → FaultHolds e }
{}
