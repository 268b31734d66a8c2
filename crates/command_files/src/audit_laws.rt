//! A law: an audit's file has one answer.
ghost use Rattle.std.specs.Prelude.{◌⊎◌, ℕ, List};
ghost use Rattle.node_files.specs.Answers.{Accepted, Refused};
ghost use Rattle.command_files.specs.AuditFiles.{audit_of};

/// Each file names logs and links or has a first line outside the format, which is one of its lines or the one behind its
/// last.
#[tactic(auto, using(crate::proofs::AuditLaws::audit_answered))]
pub fn one_audit()
    ensures { (bytes : List ℕ) → Accepted audit_of bytes ⊎ Refused audit_of bytes }
{}
