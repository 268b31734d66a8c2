//! Counts the lines of an event in a ledger, by the families that they name.
ghost use Rattle.std.specs.Prelude.{◌≡◌, ◌++◌, ℕ, List, map, OnOk};
ghost use Rattle.net_world_spec.specs.declared.lines.Entry.{Entry};
ghost use Rattle.net_world_spec.specs.World.{entry_at};
ghost use Rattle.bound_ledger.specs.Counting.{granting, leaving, act_moving, moving, CanGrant, CanLeave, CanMove, ActCanMove, Granted, Moved, GrantsFit, MovesFit, LinesFit, Leaves};
ghost use Rattle.bound_ledger.specs.Stands.{Stands};

use crate::ledger::Ledger;
use net_world_spec::Line;
use node_core_spec::{Act, What};
use plan_base::{Family, NoMemory};

/// Counts what a line grants.
fn grant_line(ledger: &mut Ledger, line: &Line) -> Result<(), NoMemory>
    requires fits { CanGrant ledger.old line.now }
    ensures { OnOk result (ledger.new ≡ granting ledger.old line.now) }
{
    match line {
        Line::At(_, Act::Injected(f, bound)) => ledger.grant(*f, *bound),
        Line::Forged(_, f, bound) => ledger.grant(*f, *bound),
        _ => Ok(()),
    }
}

/// Counts what the lines of an event grant.
fn grant_lines(ledger: &mut Ledger, lines: &[Line]) -> Result<(), NoMemory>
    requires fits { GrantsFit ledger.old lines.now }
    ensures { OnOk result (Granted lines.now ledger.old ledger.new) }
{
    for line in lines {
        grant_line(ledger, line)?;
    }
    Ok(())
}

/// Counts the bound of a frame that is stale or lost, unless it was counted when the frame was handed before.
fn leave_first(ledger: &mut Ledger, late: bool, family: Family, bound: u32)
    requires fits { CanLeave late family bound ledger.old }
    ensures { ledger.new ≡ leaving late family bound ledger.old }
{
    if !late {
        ledger.leave(family, bound);
    }
}

/// Counts what an act pays and leaves.
fn move_act(ledger: &mut Ledger, late: bool, act: &Act)
    requires fits { ActCanMove late ledger.old act.now }
    ensures { ledger.new ≡ act_moving late ledger.old act.now }
{
    match act {
        Act::Queued(_, f, _) => ledger.hop(*f),
        Act::Ended(f, _, evals, left) => ledger.end(*f, *evals, *left),
        Act::Dropped(_, f, bound) => ledger.leave(*f, *bound),
        Act::Stale(_, What::Packet(f, bound)) => leave_first(ledger, late, *f, *bound),
        _ => {}
    }
}

/// Counts what a line pays and leaves.
fn move_line(ledger: &mut Ledger, late: bool, line: &Line)
    requires fits { CanMove late ledger.old line.now }
    ensures { ledger.new ≡ moving late ledger.old line.now }
{
    match line {
        Line::At(_, act) => move_act(ledger, late, act),
        Line::Lost(What::Packet(f, bound)) => leave_first(ledger, late, *f, *bound),
        _ => {}
    }
}

/// Counts what the lines of an event pay and leave.
fn move_lines(ledger: &mut Ledger, late: bool, lines: &[Line])
    requires fits { MovesFit late ledger.old lines.now }
    ensures { Moved late lines.now ledger.old ledger.new }
{
    for line in lines {
        move_line(ledger, late, line);
    }
}

/// Counts the lines of an event: first what they grant, then what they pay and leave. `late`: whether the event hands
/// or loses a frame that was handed before, of which nothing is left again. Condition: no family pays and leaves more
/// than it has with what they grant, and the counts and the rows keep their limits.
pub fn count_lines(ledger: &mut Ledger, lines: &[Line], late: bool) -> Result<(), NoMemory>
    requires fits { LinesFit late ledger.old lines.now }
    ensures { OnOk result ((h : List Entry) (n : ℕ) → Leaves late h n lines.now
        → Stands h ledger.old → Stands (h ++ map (entry_at n) lines.now) ledger.new) }
{
    grant_lines(ledger, lines)?;
    move_lines(ledger, late, lines);
    Ok(())
}
