//! The command `fleet`.
ghost use Rattle.planet_commands.specs.Takes.{TakesAndActs};
ghost use Rattle.planet_commands_fleet.specs.Fleets.{RunsAs, fleet_said, shop};

use fleet_run::{FleetEnd, FleetFault, run_fleet};
use network_config::Fleet;
use node_io::{Files, Sink, Spawner};
use planet_commands::{Cause, value_of};
use std::alloc::Global;

// Runs a fleet that was read.
fn run_read<P: Spawner, K: Sink>(alloc: Global, fleet: &Fleet, spawn: &mut P, out: &mut K) -> Cause
    ensures { RunsAs fleet.now result (shop (P.state spawn.old) (K.state out.old))
        (shop (P.state spawn.new) (K.state out.new)) }
{
    match run_fleet(alloc, fleet, spawn, out) {
        Ok(FleetEnd::Well) => Cause::Done,
        Ok(FleetEnd::Failed(host, status)) => Cause::NodesFailed(host, status),
        Err(FleetFault::StartFault) => Cause::SpawnFault,
        Err(FleetFault::WaitFault) => Cause::SpawnFault,
        Err(FleetFault::WriteFault) => Cause::WriteFault,
        Err(FleetFault::NoMemory) => Cause::NoMemory,
    }
}

/// `fleet FILE`: starts the children that the file says, waits for them and writes a line for each.
pub fn on_fleet<F: Files, P: Spawner, K: Sink>(
    alloc: Global,
    files: &mut F,
    name: &str,
    spawn: &mut P,
    out: &mut K,
) -> Cause
    ensures { TakesAndActs (fleet_said name.now) RunsAs name.now
        (F.state files.old) (F.state files.new) result
        (shop (P.state spawn.old) (K.state out.old)) (shop (P.state spawn.new) (K.state out.new)) }
{
    match value_of::<Fleet, F>(alloc, files, name) {
        Ok(fleet) => run_read(alloc, &fleet, spawn, out),
        Err(cause) => cause,
    }
}
