//! What follows from the record of a fleet's run, where the spawner is observable.
ghost use Rattle.std.specs.Prelude.{◌≡◌, List, ℕ, Result, Ok, IsTrue, drop};
ghost use Rattle.network_config.specs.declared.fleet.Kid.{Kid};
ghost use Rattle.node_io.specs.Sinks.{SinkState, WritesPrefix};
ghost use Rattle.node_io.specs.Spawners.{SpawnerState};
ghost use Rattle.fleet_run.specs.Fleets.{fleet_text, fleet_end};
ghost use Rattle.fleet_run.specs.Runs.{RunsFleet};
ghost use Rattle.fleet_run.specs.declared.reports.FleetEnd.{FleetEnd as End};
ghost use Rattle.fleet_run.specs.declared.fault.FleetFault.{FleetFault as Fault};

/// After every answer the output is a prefix of the lines of the statuses that the spawner gives.
pub fn lines_are_a_prefix()
    ensures { (kids : List Kid) (old new : SpawnerState) (a b : SinkState)
        (result : Result End Fault)
        → RunsFleet kids old new a b result
        → IsTrue old.observable
        → WritesPrefix a b (fleet_text kids (drop old.started old.statuses)) }
{}

/// A fleet that ended did so by these statuses.
pub fn ends_by_its_statuses()
    ensures { (kids : List Kid) (old new : SpawnerState) (a b : SinkState) (end : End)
        → RunsFleet kids old new a b (Ok end)
        → IsTrue old.observable
        → end ≡ fleet_end kids (drop old.started old.statuses) }
{}
