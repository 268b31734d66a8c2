//! Does what words ask for.
ghost use Rattle.node_io.specs.Outsides.{outside};
ghost use Rattle.planet_cli.specs.Requests.{request_of};
ghost use Rattle.planet_cli.specs.Does.{Does};

use crate::kinds::on_kind;
use crate::words::{Command, read_words};
use node_io::{Clock, Files, Link, Sink, Spawner};
use plan_base::Texts;
use planet_commands::Cause;
use planet_commands_fleet::{on_ask, on_audit, on_fleet, on_node};
use planet_commands_run::on_seed;
use std::alloc::Global;

/// Does what the words ask for, and writes no note.
pub fn run<F: Files, K: Sink, L: Link, C: Clock, P: Spawner>(
    alloc: Global,
    words: &Texts,
    files: &mut F,
    out: &mut K,
    link: &mut L,
    clock: &mut C,
    spawn: &mut P,
) -> Cause
    ensures { Does (request_of words.now) result
        (outside (F.state files.old) (K.state out.old) (L.state link.old) (C.state clock.old)
        (P.state spawn.old))
        (outside (F.state files.new) (K.state out.new) (L.state link.new) (C.state clock.new)
        (P.state spawn.new)) }
{
    match read_words(words) {
        None => Cause::Usage,
        Some(Command::OnFile(kind, file)) => on_kind(alloc, files, kind, file, out),
        Some(Command::Inject(file)) => on_ask(alloc, files, file, link, out),
        Some(Command::Fleet(file)) => on_fleet(alloc, files, file, spawn, out),
        Some(Command::Audit(file)) => on_audit(alloc, files, file, out),
        Some(Command::Node(file, turns)) => on_node(alloc, files, file, turns, link, clock, out),
        Some(Command::Grow(seed, events)) => on_seed(alloc, seed, events, out),
    }
}
