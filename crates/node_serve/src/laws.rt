//! What follows from the record of a node's serving.
ghost use Rattle.std.specs.Prelude.{◌≡◌, ◌≤◌, ◌⊎◌, ℕ, IsTrue, IsErrOf, List, Result, length};
ghost use Rattle.network_config.specs.NodeRules.{KeepsServe};
ghost use Rattle.network_config.specs.declared.serve.ServeConfig.{ServeConfig};
ghost use Rattle.node_io.specs.Causes.{HasRisen};
ghost use Rattle.node_io.specs.FileMaps.{Names};
ghost use Rattle.node_io.specs.declared.link.Arrival.{Arrival};
ghost use Rattle.node_core_spec.specs.State.{NodeState};
ghost use Rattle.node_log.specs.Runs.{node_run};
ghost use Rattle.node_serve.specs.Again.{ReadsAgain};
ghost use Rattle.node_serve.specs.Desks.{Serving};
ghost use Rattle.node_serve.specs.Sendings.{frames_of};
ghost use Rattle.node_serve.specs.Served.{Served, run_in};
ghost use Rattle.node_serve.specs.Serves.{Serves};
ghost use Rattle.node_serve.specs.declared.fault.ServeFault.{ServeFault as Fault};

/// The log is made once, or at most once where the run fails.
pub fn log_is_made()
    ensures { (cfg : ServeConfig) (node : NodeState) (turns : ℕ) (old new : Serving)
        (result : Result (Unit {0}) Fault)
        → Serves cfg node turns old new result
        → IsTrue old.files.observable
        → Names old.files.made new.files.made cfg.log result }
{}

/// Nothing is read.
pub fn nothing_is_read()
    ensures { (cfg : ServeConfig) (node : NodeState) (turns : ℕ) (old new : Serving)
        (result : Result (Unit {0}) Fault)
        → Serves cfg node turns old new result
        → (new.files.asked ≡ old.files.asked) × (new.files.reading ≡ old.files.reading)
        × (new.files.read_faults ≡ old.files.read_faults) }
{}

/// The link's fault comes only where its count rose.
pub fn link_has_failed()
    ensures { (cfg : ServeConfig) (node : NodeState) (turns : ℕ) (old new : Serving)
        (result : Result (Unit {0}) Fault)
        → Serves cfg node turns old new result
        → IsErrOf result Fault.LinkFault
        → HasRisen old.link.faults new.link.faults }
{}

/// A fault of writing comes only where the count of the log's faults or of the output's rose.
pub fn writing_has_failed()
    ensures { (cfg : ServeConfig) (node : NodeState) (turns : ℕ) (old new : Serving)
        (result : Result (Unit {0}) Fault)
        → Serves cfg node turns old new result
        → IsErrOf result Fault.WriteFault
        → HasRisen old.files.write_faults new.files.write_faults
        ⊎ HasRisen old.out.faults new.out.faults }
{}

/// The frames of a run are those that the entries of its log send.
pub fn frames_again()
    ensures { (cfg : ServeConfig) (node : NodeState) (script : List Arrival) (last : ℕ)
        (answers : List ℕ) (n : ℕ) (refused : List ℕ)
        → (node_run cfg node script last answers n refused).sent
        ≡ frames_of node (node_run cfg node script last answers n refused).events }
{}

/// The log of a whole run of at most 50,000 entries reads as the log of a node that began so, and the trace of its entries is
/// the trace of that run.
pub fn reads_again()
    ensures { (cfg : ServeConfig) (node : NodeState) (turns : ℕ) (old new : Serving)
        (s : Served cfg node turns old new)
        → KeepsServe cfg
        → length (run_in cfg node turns old s.refused).events ≤ 50000
        → ReadsAgain cfg node old new }
{}
