//! A law: a file of two ends has one answer.
ghost use Rattle.std.specs.Prelude.{◌⊎◌, ℕ, List};
ghost use Rattle.node_files.specs.Answers.{Accepted, Refused};
ghost use Rattle.command_files.specs.PortFiles.{port_of};

/// Each file says what two ends do or has a first line outside the format, which is one of its lines or the one behind its
/// last.
#[tactic(auto, using(crate::proofs::PortLaws::port_answered))]
pub fn one_port()
    ensures { (bytes : List ℕ) → Accepted port_of bytes ⊎ Refused port_of bytes }
{}
