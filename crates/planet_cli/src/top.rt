//! The top call, `planet`, with the promise of the program.
ghost use Rattle.std.specs.Prelude.{◌≡◌, ℕ, List, Ok};
ghost use Rattle.network_config.specs.declared.schedule.Schedule.{Schedule};
ghost use Rattle.node_io.specs.Outsides.{outside};
ghost use Rattle.node_io.specs.Sinks.{Writes};
ghost use Rattle.net_world_spec.specs.World.{opening};
ghost use Rattle.net_world_spec.specs.Texts.{run_text};
ghost use Rattle.net_world.specs.Keeping.{KeepsRun};
ghost use Rattle.planet_commands.specs.Causes.{code_of};
ghost use Rattle.planet_cli.specs.Requests.{request_of};
ghost use Rattle.planet_cli.specs.Calls.{Calls};
ghost use Rattle.planet_cli.specs.Replays.{Replays};
ghost use Rattle.schedule_text.specs.Schedules.{schedule_of};

use crate::by_words::run;
use node_io::{Clock, Files, Link, Sink, Spawner};
use plan_base::Texts;
use planet_commands::{Cause, Status, settle};
use std::alloc::Global;

fn exit_code(cause: &Cause) -> u8
    ensures { result ≡ code_of cause.now }
{
    match cause {
        Cause::Done => 0,
        Cause::Usage => 1,
        Cause::Refused(_) => 2,
        Cause::ReadFault => 3,
        Cause::WriteFault => 4,
        Cause::LinkFault => 5,
        Cause::SpawnFault => 6,
        Cause::NoMemory => 7,
        Cause::NodesFailed(..) => 8,
    }
}

/// Does what the words after the program's name ask for, over these files, this output, these notes,
/// link, clock and children. Each cause but `Done` writes one line to the notes.
pub fn planet<F: Files, K: Sink, N: Sink, L: Link, C: Clock, P: Spawner>(
    alloc: Global,
    words: &Texts,
    files: &mut F,
    out: &mut K,
    notes: &mut N,
    link: &mut L,
    clock: &mut C,
    spawn: &mut P,
) -> Status
    // The exit code is that of the cause.
    ensures code { result.code ≡ code_of result.cause }
    // The headline: a replay that is done wrote the trace and the ledger of the written meaning of
    // its schedule ..
    ensures replayed { (s : Schedule) → Replays words.now (F.state files.old) s
        → result.cause ≡ Cause.Done
        → Writes (K.state out.old) (K.state out.new)
        (run_text s.frames s.events (opening s.topology)) }
    // .. and whatever bytes say a schedule: after every event of it the counts are in balance, and no
    // visit is without a case.
    ensures keeps { (bytes : List ℕ) (s : Schedule) → schedule_of bytes ≡ Ok s → KeepsRun s }
    // What the words ask for was done, and the notes say how it ended.
    ensures does { Calls (request_of words.now) result.cause
        (outside (F.state files.old) (K.state out.old) (L.state link.old) (C.state clock.old)
        (P.state spawn.old))
        (outside (F.state files.new) (K.state out.new) (L.state link.new) (C.state clock.new)
        (P.state spawn.new))
        (N.state notes.old) (N.state notes.new) }
{
    let found = run(alloc, words, files, out, link, clock, spawn);
    let cause = settle(alloc, found, notes);
    Status {
        code: exit_code(&cause),
        cause,
    }
}
