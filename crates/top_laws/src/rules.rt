//! The law that what a file of lines says keeps the rules of its kind, whoever reads it.
//!
//! Each law stands on a function without code, so that contracts of other crates can name it.

ghost use Rattle.std.specs.Prelude.{◌≡◌, ℕ, List, Ok};
ghost use Rattle.network_config.specs.Rules.{KeepsRules};
ghost use Rattle.network_config.specs.NodeRules.{KeepsServe, KeepsLog, KeepsAsk, KeepsFleet};
ghost use Rattle.network_config.specs.declared.schedule.Schedule.{Schedule};
ghost use Rattle.network_config.specs.declared.serve.ServeConfig.{ServeConfig};
ghost use Rattle.network_config.specs.declared.node.Log.{Log};
ghost use Rattle.network_config.specs.declared.fleet.AskFile.{AskFile};
ghost use Rattle.network_config.specs.declared.fleet.Fleet.{Fleet};
ghost use Rattle.schedule_text.specs.Schedules.{schedule_of};
ghost use Rattle.node_files.specs.Configs.{config_of};
ghost use Rattle.node_files.specs.Logs.{log_of};
ghost use Rattle.node_files.specs.Asks.{ask_of};
ghost use Rattle.node_files.specs.Fleets.{fleet_of};
ghost use Rattle.command_files.specs.declared.audit.AuditFile.{AuditFile};
ghost use Rattle.command_files.specs.AuditFiles.{audit_of};
ghost use Rattle.command_files.specs.AuditRules.{KeepsAudit};
ghost use Rattle.command_files.specs.declared.cut.CutFile.{CutFile};
ghost use Rattle.command_files.specs.Cuts.{cut_of, KeepsCut};
ghost use Rattle.command_files.specs.declared.port.PortFile.{PortFile};
ghost use Rattle.command_files.specs.PortFiles.{port_of};
ghost use Rattle.command_files.specs.PortRules.{KeepsPort};

/// What a file says keeps the rules of its kind.
pub fn values_keep_rules()
    ensures schedules { (bytes : List ℕ) (s : Schedule) → schedule_of bytes ≡ Ok s → KeepsRules s }
    ensures configurations { (bytes : List ℕ) (c : ServeConfig) → config_of bytes ≡ Ok c →
        KeepsServe c }
    ensures logs { (bytes : List ℕ) (l : Log) → log_of bytes ≡ Ok l → KeepsLog l }
    ensures requests { (bytes : List ℕ) (a : AskFile) → ask_of bytes ≡ Ok a → KeepsAsk a }
    ensures fleets { (bytes : List ℕ) (f : Fleet) → fleet_of bytes ≡ Ok f → KeepsFleet f }
    ensures audits { (bytes : List ℕ) (a : AuditFile) → audit_of bytes ≡ Ok a → KeepsAudit a }
    ensures messages { (bytes : List ℕ) (m : CutFile) → cut_of bytes ≡ Ok m → KeepsCut m }
    ensures ports { (bytes : List ℕ) (p : PortFile) → port_of bytes ≡ Ok p → KeepsPort p }
{}
