//! Runs a fleet: starts its children, waits for them, and writes how each ended.
ghost use Rattle.std.specs.Prelude.{◌≡◌, IfOk, [], length, vec_capacity};
ghost use Rattle.fleet_run.specs.Fleets.{fleet_starts};
ghost use Rattle.fleet_run.specs.Runs.{RunsFleet};

use crate::fault::FleetFault;
use crate::reports::{FleetEnd, end_of, report_all};
use crate::starts::{start_all, wait_all};
use crate::words::starts_of;
use containers::Items;
use network_config::{Fleet, Kid};
use node_io::{Child, Sink, Spawner};
use plan_base::{NoMemory, Texts};
use std::alloc::Global;

// What a fleet needs before its first start: the words of the starts, and room for its children and their statuses.
#[derive(Drop)]
struct Prepared {
    starts: Items<Texts>,
    started: Vec<Child>,
    statuses: Vec<u8>,
}

fn prepare(alloc: Global, kids: &[Kid]) -> Result<Prepared, NoMemory>
    ensures starts { IfOk result (λ made. made.starts ≡ fleet_starts kids.now) }
    ensures none { IfOk result (λ made. (made.started.items ≡ []) × (made.statuses.items ≡ [])) }
    ensures room { IfOk result
        (λ made. (vec_capacity made.started ≡ length kids.now)
        × (vec_capacity made.statuses ≡ length kids.now)) }
{
    let starts = starts_of(alloc, kids)?;
    let started = Vec::with_capacity(alloc, kids.len())?;
    let statuses = Vec::with_capacity(alloc, kids.len())?;
    Ok(Prepared {
        starts,
        started,
        statuses,
    })
}

/// Starts the children of a fleet, in order, waits for each, in order, and writes `node @H status S` or `ask @H status S`
/// for each. After a failed start those already started are waited for, without lines. A failed wait, a line that isn't
/// written, and `NoMemory` end the waiting.
pub fn run_fleet<P: Spawner, K: Sink>(
    alloc: Global,
    fleet: &Fleet,
    spawn: &mut P,
    out: &mut K,
) -> Result<FleetEnd, FleetFault>
    ensures { RunsFleet fleet.now.children (P.state spawn.old) (P.state spawn.new)
        (K.state out.old) (K.state out.new) result }
{
    let kids = fleet.children.as_slice();
    let Ok(mut made) = prepare(alloc, kids) else {
        return Err(FleetFault::NoMemory);
    };
    if start_all(made.starts.as_slice(), spawn, &mut made.started).is_err() {
        wait_all(&made.started, spawn);
        return Err(FleetFault::StartFault);
    }
    match report_all(alloc, kids, &made.started, spawn, out, &mut made.statuses) {
        Ok(()) => Ok(end_of(kids, &made.statuses)),
        Err(fault) => Err(fault),
    }
}
