//! Runs a schedule: makes its events, counts them, and writes their lines.
ghost use Rattle.std.specs.Prelude.{◌≡◌, ◌++◌, [], List, codes, OnOk};
ghost use Rattle.plan_base.specs.declared.ids.Family.{Family as FamilyOf};
ghost use Rattle.network_config.specs.Rules.{KeepsRules};
ghost use Rattle.net_world_spec.specs.World as spec;
ghost use Rattle.net_world_spec.specs.World.{WorldState, opening};
ghost use Rattle.net_world_spec.specs.declared.lines.Entry.{Entry as EntryOf};
ghost use Rattle.net_world_spec.specs.Texts.{entries_text, ledger_text, run_text};
ghost use Rattle.bound_ledger.specs.Stands.{Stands};
ghost use Rattle.bound_ledger.specs.Rows.{OneEach};
ghost use Rattle.trace_text.specs.Printed.{printed_row, all_printed};
ghost use Rattle.net_world.specs.Stands.{WorldStands};
ghost use Rattle.net_world_spec.specs.Counts.{Balanced};
ghost use Rattle.net_world.specs.Running.{CanRun};
ghost use Rattle.net_world.specs.Happening.{CanCount, Counts};
ghost use Rattle.net_world.specs.Printing.{Prints, WaitsFor, PutsPiece};
ghost use Rattle.net_world.specs.Keeping.{KeepsRun};

use crate::world::World;
use bound_ledger::{Ledger, Row, count_lines};
use containers::Items;
use network_config::{Schedule, WorldEvent};
use node_io::{Failed, Sink, put_all};
use plan_base::{Bytes, Family, NoMemory};
use service_api::Services;
use std::alloc::Global;
use trace_text::{put_all_lines, put_row};

/// The bytes of text that are written at once.
const PIECE: usize = 8_192;

/// Why a run ended early.
#[derive(Clone, Copy, PartialEq, Eq)]
pub enum RunFault {
    /// A push to the sink failed.
    WriteFault,
    /// Memory was refused.
    NoMemory,
}

/// Makes an event, counts its lines, and adds their text.
fn make_event<S: Services>(
    alloc: Global,
    world: &mut World<S>,
    ledger: &mut Ledger,
    frames: bool,
    event: WorldEvent,
    text: &mut Bytes,
) -> Result<(), NoMemory>
    requires { CanCount S.stands world.old event ledger.old }
    ensures text { (w : WorldState) → WorldStands S.stands world.old w
        → OnOk result (text.new ≡ text.old ++ entries_text frames (spec.entries w event)) }
    ensures counts { Counts S.stands event world.old world.new ledger.old ledger.new result }
{
    let number = world.event_count() + 1;
    let late = world.is_late(&event);
    let lines = world.step(alloc, event)?;
    count_lines(ledger, lines.as_slice(), late)?;
    put_all_lines(alloc, text, frames, number, lines.as_slice())?;
    Ok(())
}

#[tactic(auto, using(crate::proofs::RunLaws::waits_none, crate::proofs::RunLaws::waits_written))]
/// Writes a text that has grown to a piece; a shorter one waits.
fn write_piece<K: Sink>(alloc: Global, text: Bytes, out: &mut K) -> Result<Bytes, Failed>
    ensures { PutsPiece text (K.state out.old) (K.state out.new) result }
{
    if text.len() < PIECE {
        return Ok(text);
    }
    match put_all(out, text.as_slice()) {
        Ok(()) => Ok(Bytes::new(alloc)),
        Err(failed) => Err(failed),
    }
}

#[tactic(auto, using(node_io::proofs::SinkLaws::prefix_none))]
/// Makes an event, counts its lines and adds their text to what waits to be written; what still waits.
fn run_event<S: Services, K: Sink>(
    alloc: Global,
    world: &mut World<S>,
    ledger: &mut Ledger,
    frames: bool,
    event: WorldEvent,
    text: Bytes,
    out: &mut K,
) -> Result<Bytes, RunFault>
    requires { CanCount S.stands world.old event ledger.old }
    ensures waits { (w : WorldState) → WorldStands S.stands world.old w
        → WaitsFor (text ++ entries_text frames (spec.entries w event))
        (K.state out.old) (K.state out.new) result }
    ensures counts { Counts S.stands event world.old world.new ledger.old ledger.new result }
{
    let mut waiting = text;
    let Ok(()) = make_event(alloc, world, ledger, frames, event, &mut waiting) else {
        return Err(RunFault::NoMemory);
    };
    match write_piece(alloc, waiting, out) {
        Ok(left) => Ok(left),
        Err(_) => Err(RunFault::WriteFault),
    }
}

/// Makes the events of a schedule in order, counts their lines and writes them. Conditions: nothing has happened in
/// the network, and nothing was counted.
fn run_events<S: Services, K: Sink>(
    alloc: Global,
    schedule: Schedule,
    world: &mut World<S>,
    ledger: &mut Ledger,
    out: &mut K,
) -> Result<(), RunFault>
    requires rules { KeepsRules schedule }
    requires opening { WorldStands S.stands world.old (opening schedule.topology) }
    requires empty { Stands [] ledger.old }
    ensures lines { Prints
        (entries_text schedule.frames
        (spec.history_of schedule.events (opening schedule.topology)))
        (K.state out.old) (K.state out.new) result }
    ensures ledger { OnOk result
        (Stands (spec.history_of schedule.events (opening schedule.topology)) ledger.new) }
{
    let Schedule { frames, events, .. } = schedule;
    let mut text = Bytes::new(alloc);
    for event in events.into_vec() {
        match run_event(alloc, world, ledger, frames, event, text, out) {
            Ok(left) => text = left,
            Err(fault) => return Err(fault),
        }
    }
    match put_all(out, text.as_slice()) {
        Ok(()) => Ok(()),
        Err(_) => Err(RunFault::WriteFault),
    }
}

/// Adds a row of a ledger to what waits to be written; what still waits.
#[tactic(auto, using(node_io::proofs::SinkLaws::prefix_none))]
fn write_row<K: Sink>(
    alloc: Global,
    f: Family,
    row: Row,
    text: Bytes,
    out: &mut K,
) -> Result<Bytes, RunFault>
    ensures { WaitsFor (text ++ printed_row (f, row)) (K.state out.old) (K.state out.new) result }
{
    let mut waiting = text;
    let Ok(()) = put_row(&mut waiting, f, row) else {
        return Err(RunFault::NoMemory);
    };
    match write_piece(alloc, waiting, out) {
        Ok(left) => Ok(left),
        Err(_) => Err(RunFault::WriteFault),
    }
}

/// Adds the rows of a ledger to what waits to be written; what still waits.
fn write_rows<K: Sink>(
    alloc: Global,
    ledger: &Ledger,
    text: Bytes,
    out: &mut K,
) -> Result<Bytes, RunFault>
    ensures rows { WaitsFor (text ++ all_printed ledger.now)
        (K.state out.old) (K.state out.new) result }
    ensures once { OneEach ledger.now }
{
    let mut waiting = text;
    for i in 0..ledger.len() {
        let (f, row) = ledger.at(i);
        match write_row(alloc, f, row, waiting, out) {
            Ok(left) => waiting = left,
            Err(fault) => return Err(fault),
        }
    }
    Ok(waiting)
}

/// Writes the end of a ledger behind what waits.
#[tactic(auto, using(node_io::proofs::SinkLaws::prefix_none))]
fn write_end<K: Sink>(text: Bytes, out: &mut K) -> Result<(), RunFault>
    ensures { Prints (text ++ codes "end\n") (K.state out.old) (K.state out.new) result }
{
    let mut waiting = text;
    let Ok(()) = waiting.add_all(b"end\n") else {
        return Err(RunFault::NoMemory);
    };
    match put_all(out, waiting.as_slice()) {
        Ok(()) => Ok(()),
        Err(_) => Err(RunFault::WriteFault),
    }
}

/// Writes a ledger, piece by piece.
#[tactic(auto, using(node_io::proofs::SinkLaws::prefix_none))]
fn write_ledger<K: Sink>(alloc: Global, ledger: &Ledger, out: &mut K) -> Result<(), RunFault>
    ensures { (h : List EntryOf) (w : WorldState) → Stands h ledger.now
        → ((f : FamilyOf) → Balanced f h w)
        → Prints (ledger_text h w) (K.state out.old) (K.state out.new) result }
{
    let mut text = Bytes::new(alloc);
    let Ok(()) = text.add_all(b"ledger\n") else {
        return Err(RunFault::NoMemory);
    };
    let rows = match write_rows(alloc, ledger, text, out) {
        Ok(left) => left,
        Err(fault) => return Err(fault),
    };
    match write_end(rows, out) {
        Ok(()) => Ok(()),
        Err(fault) => Err(fault),
    }
}

/// Writes the trace and the ledger of a schedule's events. Condition: nothing has happened in the network.
fn write_run<S: Services, K: Sink>(
    alloc: Global,
    schedule: Schedule,
    world: &mut World<S>,
    out: &mut K,
) -> Result<(), RunFault>
    requires rules { KeepsRules schedule }
    requires opening { WorldStands S.stands world.old (opening schedule.topology) }
    ensures { Prints
        (run_text schedule.frames schedule.events (opening schedule.topology))
        (K.state out.old) (K.state out.new) result }
{
    let Ok(mut ledger) = Ledger::new(alloc) else {
        return Err(RunFault::NoMemory);
    };
    let Ok(()) = put_all(out, b"planet trace 1\n") else {
        return Err(RunFault::WriteFault);
    };
    if let Err(fault) = run_events(alloc, schedule, world, &mut ledger, out) {
        return Err(fault);
    }
    match write_ledger(alloc, &ledger, out) {
        Ok(()) => Ok(()),
        Err(fault) => Err(fault),
    }
}

/// Runs a schedule and writes its trace and its ledger to `out`; no event's lines are kept. After each prefix of its
/// events: each family is in balance, is bounded and granted; each frame's number went once, and each frame on the
/// wire leads over its link; the network keeps what every network keeps; the visits of the event behind it are never
/// without a case, and would end by themselves; and as long as no packet and no advert came
/// from outside, the law of routes holds.
/// `services`: one for each host, in the order of hosts. Condition: the schedule keeps its rules.
#[tactic(auto, using(node_io::proofs::SinkLaws::prefix_none))]
pub fn run<S: Services + Drop, K: Sink>(
    alloc: Global,
    schedule: Schedule,
    services: Items<S>,
    out: &mut K,
) -> Result<(), RunFault>
    requires { CanRun S.stands schedule services }
    ensures prints { Prints
        (run_text schedule.frames schedule.events (opening schedule.topology))
        (K.state out.old) (K.state out.new) result }
    ensures keeps { KeepsRun schedule }
{
    let Ok(mut world) = World::new(alloc, &schedule.topology, services) else {
        return Err(RunFault::NoMemory);
    };
    write_run(alloc, schedule, &mut world, out)
}
