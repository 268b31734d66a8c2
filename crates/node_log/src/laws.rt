//! Laws: a log gives the lines of its run again.
ghost use Rattle.std.specs.Prelude.{◌≡◌, ◌+◌, ℕ, List};
ghost use Rattle.network_config.specs.declared.event.LogEvent.{LogEvent};
ghost use Rattle.network_config.specs.declared.serve.ServeConfig.{ServeConfig};
ghost use Rattle.node_io.specs.declared.link.Arrival.{Arrival};
ghost use Rattle.node_core_spec.specs.State.{NodeState};
ghost use Rattle.node_log.specs.Runs.{Running, played_entries, turns, node_run};
ghost use Rattle.node_log.specs.Follow.{Ext, Fits, lost_places};

/// The lines of a run are those of the entries of its log.
pub fn lines_again()
    ensures { (cfg : ServeConfig) (node : NodeState) (script : List Arrival) (last : ℕ)
        (answers : List ℕ) (n : ℕ) (refused : List ℕ)
        → (node_run cfg node script last answers n refused).entries ≡ played_entries 0 node
        (node_run cfg node script last answers n refused).events }
{}

/// More turns only go on from fewer: log, lines and frames sent are prefixes.
pub fn goes_on()
    ensures { (cfg : ServeConfig) (script : List Arrival) (last : ℕ) (answers : List ℕ)
        (refused : List ℕ) (r : Running) (n more : ℕ)
        → Ext (turns cfg script last answers n refused r)
        (turns cfg script last answers (n + more) refused r) }
{}

/// The steps that a log says were refused are the places of `lost` in it.
pub fn refused_again()
    ensures { (events : List LogEvent) → Fits (lost_places events) events }
{}
