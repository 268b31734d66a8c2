//! Laws of the formats of node files, on their definitions alone: what is written of a value reads as that value.
//!
//! Each law stands on a function without code, so that contracts of other crates can name it.

ghost use Rattle.std.specs.Prelude.{◌≡◌, ℕ, List, Option, Ok};
ghost use Rattle.plan_base.specs.declared.tree.Chunk.{Chunk};
ghost use Rattle.network_config.specs.declared.fleet.AskFile.{AskFile};
ghost use Rattle.network_config.specs.declared.fleet.Fleet.{Fleet};
ghost use Rattle.network_config.specs.declared.serve.ServeConfig.{ServeConfig};
ghost use Rattle.node_files.specs.Asks.{ask_of};
ghost use Rattle.node_files.specs.Configs.{config_of};
ghost use Rattle.node_files.specs.Fleets.{fleet_of};
ghost use Rattle.top_laws.specs.Asks.{ask_text, IsAsk};
ghost use Rattle.top_laws.specs.Configs.{ProgramText, config_text, IsConfig};
ghost use Rattle.top_laws.specs.Fleets.{fleet_text, IsFleet};

/// A configuration within its limits that is written, with its program and arguments as texts that say them, reads as
/// itself.
#[tactic(auto, using(crate::proofs::ConfigRead::config_again))]
pub fn written_configurations_are_read()
    ensures { (program : Option ProgramText) (by : Chunk → List ℕ) (c : ServeConfig) → IsConfig
        program by c → config_of (config_text program by c) ≡ Ok c }
{}

/// A request within its limits that is written, with its program and arguments as texts that say them, reads as itself.
#[tactic(auto, using(crate::proofs::AskRead::ask_again))]
pub fn written_requests_are_read()
    ensures { (text : List (List ℕ)) (args : List ℕ) (a : AskFile) → IsAsk text args a → ask_of
        (ask_text text args a) ≡ Ok a }
{}

/// A fleet within its limits that is written reads as itself.
#[tactic(auto, using(crate::proofs::FleetRead::fleet_again))]
pub fn written_fleets_are_read()
    ensures { (f : Fleet) → IsFleet f → fleet_of (fleet_text f) ≡ Ok f }
{}
