//! The commands that read one file and write one text: their words, and what has each done.
ghost use Rattle.std.specs.Prelude.{◌≡◌};
ghost use Rattle.planet_commands.specs.Said.{all_of, said_in};
ghost use Rattle.planet_commands.specs.Takes.{TakesAndActs};
ghost use Rattle.planet_commands.specs.Renders.{RendersBy};
ghost use Rattle.planet_cli.specs.Kinds.{kind_named, limit_of, text_said};

use line_reader::is;
use node_io::{Files, Sink};
use planet_commands::{Cause, Check, Show, on_file};
use planet_commands_fleet::{Cut, Gather};
use planet_commands_port::Port;
use planet_commands_run::Replay;
use std::alloc::Global;

/// A command that reads one file and writes one text.
#[derive(Clone, Copy)]
pub enum Kind {
    /// `replay FILE`
    Replay,
    /// `check FILE`
    Check,
    /// `show FILE`
    Show,
    /// `cut FILE`
    Cut,
    /// `port FILE`
    Port,
    /// `gather PORT FILE`
    Gather(u16),
}

/// The command of that name with no word but its file, or none.
pub fn kind_named(name: &[u8]) -> Option<Kind>
    ensures { result ≡ kind_named name.now }
{
    if is(name, b"replay") {
        Some(Kind::Replay)
    } else if is(name, b"check") {
        Some(Kind::Check)
    } else if is(name, b"show") {
        Some(Kind::Show)
    } else if is(name, b"cut") {
        Some(Kind::Cut)
    } else if is(name, b"port") {
        Some(Kind::Port)
    } else {
        None
    }
}

/// Reads the file, and writes what it says to the command.
pub fn on_kind<F: Files, K: Sink>(
    alloc: Global,
    files: &mut F,
    kind: Kind,
    file: &str,
    out: &mut K,
) -> Cause
    ensures { TakesAndActs (said_in (limit_of kind) all_of file.now) (RendersBy (text_said kind))
        file.now (F.state files.old) (F.state files.new) result
        (K.state out.old) (K.state out.new) }
{
    match kind {
        Kind::Replay => on_file(alloc, files, &Replay, file, out),
        Kind::Check => on_file(alloc, files, &Check, file, out),
        Kind::Show => on_file(alloc, files, &Show, file, out),
        Kind::Cut => on_file(alloc, files, &Cut, file, out),
        Kind::Port => on_file(alloc, files, &Port, file, out),
        Kind::Gather(port) => on_file(alloc, files, &Gather { port }, file, out),
    }
}
