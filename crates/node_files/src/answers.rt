//! Laws: each file of a node has one answer.
ghost use Rattle.std.specs.Prelude.{◌⊎◌, ℕ, List};
ghost use Rattle.line_reader.specs.Inside.{RefusesRead};
ghost use Rattle.node_files.specs.Asks.{ask_format, nothing_asked, ask_of};
ghost use Rattle.node_files.specs.Configs.{config_format, nothing_read, config_of};
ghost use Rattle.node_files.specs.Fleets.{fleet_format, no_children, fleet_of};
ghost use Rattle.node_files.specs.Logs.{log_format, nothing_logged, log_of};
ghost use Rattle.node_files.specs.Answers.{Accepted, Refused};

/// Each file says a value or has a first line outside its format, which is one of its lines or the one behind its last.
#[tactic(auto, using(crate::proofs::AskLaws::ask_answered, crate::proofs::FleetLaws::fleet_answered, crate::proofs::ConfigLaws::config_answered, crate::proofs::LogLaws::log_answered))]
pub fn one_answer()
    ensures asks { (bytes : List ℕ) → Accepted ask_of bytes ⊎ Refused ask_of bytes }
    ensures fleets { (bytes : List ℕ) → Accepted fleet_of bytes ⊎ Refused fleet_of bytes }
    ensures configurations { (bytes : List ℕ) → Accepted config_of bytes ⊎ Refused config_of bytes }
    ensures logs { (bytes : List ℕ) → Accepted log_of bytes ⊎ Refused log_of bytes }
{}

/// Each of these formats refuses lines that were read, so that all lines before a refused one are inside the format.
#[tactic(auto, using(crate::proofs::AskLaws::ask_refuses, crate::proofs::FleetLaws::fleet_refuses, crate::proofs::ConfigLaws::config_refuses, crate::proofs::LogLaws::log_refuses))]
pub fn refusals_are_of_lines_read()
    ensures asks { RefusesRead ask_format nothing_asked }
    ensures fleets { RefusesRead fleet_format no_children }
    ensures configurations { RefusesRead config_format nothing_read }
    ensures logs { RefusesRead log_format nothing_logged }
{}
