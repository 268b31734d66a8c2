//! Waits for children and writes a line for each.
ghost use Rattle.std.specs.Prelude.{◌≡◌, length, vec_capacity};
ghost use Rattle.fleet_run.specs.Children.{AreStarted, HasRoomFor};
ghost use Rattle.fleet_run.specs.Fleets.{fleet_end};
ghost use Rattle.fleet_run.specs.Runs.{ReportsEach};

use crate::fault::FleetFault;
use crate::words::{kid_host, kid_line};
use network_config::Kid;
use node_io::{Child, Sink, Spawner, put_all};
use plan_base::Host;
use std::alloc::Global;

/// How the children of a fleet ended.
#[derive(Clone, Copy, PartialEq, Eq)]
pub enum FleetEnd {
    /// All with status 0.
    Well,
    /// The first child whose status wasn't 0: its host and the status.
    Failed(Host, u8),
}

/// Waits for these children, in order, and writes the line of each, until one of this fails. Conditions: each of `kids`
/// was started, the children are open, each apart from all others, and there is room for their statuses.
pub fn report_all<P: Spawner, K: Sink>(
    alloc: Global,
    kids: &[Kid],
    started: &[Child],
    spawn: &mut P,
    out: &mut K,
    statuses: &mut Vec<u8>,
) -> Result<(), FleetFault>
    requires started { AreStarted kids.now (P.state spawn.old).children started.now }
    requires room { HasRoomFor kids.now statuses.old.items (vec_capacity statuses.old) }
    ensures { ReportsEach kids.now started.now statuses.new.items
        (P.state spawn.old) (P.state spawn.new) (K.state out.old) (K.state out.new) result }
{
    for (i, kid) in kids.iter().enumerate() {
        let Ok(status) = spawn.wait(started[i]) else {
            return Err(FleetFault::WaitFault);
        };
        let Ok(line) = kid_line(alloc, kid, status) else {
            return Err(FleetFault::NoMemory);
        };
        statuses.push_reserved(status);
        if put_all(out, line.as_bytes()).is_err() {
            return Err(FleetFault::WriteFault);
        }
    }
    Ok(())
}

/// How a fleet ended whose children gave these statuses. Condition: there is one of each child.
pub fn end_of(kids: &[Kid], statuses: &[u8]) -> FleetEnd
    requires { length statuses.now ≡ length kids.now }
    ensures { result ≡ fleet_end kids.now statuses.now }
{
    for (i, kid) in kids.iter().enumerate() {
        let status = statuses[i];
        if status != 0 {
            return FleetEnd::Failed(kid_host(kid), status);
        }
    }
    FleetEnd::Well
}
