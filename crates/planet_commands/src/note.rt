//! Writes the note of a call that was refused or failed.
ghost use Rattle.std.specs.Prelude.{◌≡◌, ◌++◌, IfOk, OnOk};
ghost use Rattle.planet_commands.specs.Notes.{reason_name, refused_text, reason_text, refusal_text, note_text, Notes, Pushed};

use crate::status::{Cause, Refusal};
use line_reader::LineReason;
use node_io::{Sink, put_all};
use packet_frame::FrameFault;
use plan_base::{Bytes, Host, NoMemory};
use program_text::{TextFault, place_of, put_reason};
use std::alloc::Global;

// The name of a reason, but for a refused program.
fn reason_name(reason: &LineReason) -> &'static [u8]
    ensures { result.now ≡ reason_name reason.now }
{
    match reason {
        LineReason::BadHeader => b"BadHeader",
        LineReason::BadWord => b"BadWord",
        LineReason::BadNumber => b"BadNumber",
        LineReason::UnknownHost => b"UnknownHost",
        LineReason::UnknownProgram => b"UnknownProgram",
        LineReason::TwiceNamed => b"TwiceNamed",
        LineReason::TooMany => b"TooMany",
        LineReason::ProgramRefused(_) => b"ProgramRefused",
        LineReason::BadArgument => b"BadArgument",
    }
}

// Appends where a program is refused, and why.
fn put_refused(alloc: Global, why: &TextFault, note: &mut Bytes) -> Result<(), NoMemory>
    ensures { OnOk result (note.new ≡ note.old ++ refused_text why.now) }
{
    let at = place_of(why);
    let head = format!(in alloc; " at {at}: ")?;
    note.add_all(head.as_bytes())?;
    put_reason(alloc, why, note)
}

// Appends a reason.
fn put_line_reason(alloc: Global, reason: &LineReason, note: &mut Bytes) -> Result<(), NoMemory>
    ensures { OnOk result (note.new ≡ note.old ++ reason_text reason.now) }
{
    note.add_all(reason_name(reason))?;
    match reason {
        LineReason::ProgramRefused(why) => put_refused(alloc, why.get(), note),
        _ => Ok(()),
    }
}

// The note of a refused line with its line feed.
fn line_note(alloc: Global, line: u32, reason: &LineReason) -> Result<Bytes, NoMemory>
    ensures { IfOk result (λ note. note ≡ refusal_text (Refusal.Line line reason.now)) }
{
    let head = format!(in alloc; "planet: line {line}: ")?;
    let mut note = bytes_of(alloc, head.as_bytes())?;
    put_line_reason(alloc, reason, &mut note)?;
    note.add_all(b"\n")?;
    Ok(note)
}

// The note of a refused line of a log with its line feed.
fn log_note(alloc: Global, log: u32, line: u32, reason: &LineReason) -> Result<Bytes, NoMemory>
    ensures { IfOk result (λ note. note ≡ refusal_text (Refusal.Log log line reason.now)) }
{
    let head = format!(in alloc; "planet: log {log} line {line}: ")?;
    let mut note = bytes_of(alloc, head.as_bytes())?;
    put_line_reason(alloc, reason, &mut note)?;
    note.add_all(b"\n")?;
    Ok(note)
}

// The note of a log that is too long with its line feed.
fn long_note(alloc: Global, log: u32) -> Result<Bytes, NoMemory>
    ensures { IfOk result (λ note. note ≡ refusal_text (Refusal.LogTooLong log)) }
{
    let text = format!(in alloc; "planet: log {log} TooLong\n")?;
    bytes_of(alloc, text.as_bytes())
}

// The note of a refused text with its line feed.
fn text_note(alloc: Global, byte: u32, fault: &TextFault) -> Result<Bytes, NoMemory>
    ensures { IfOk result (λ note. note ≡ refusal_text (Refusal.At byte fault.now)) }
{
    let head = format!(in alloc; "planet: at {byte}: ")?;
    let mut note = bytes_of(alloc, head.as_bytes())?;
    put_reason(alloc, fault, &mut note)?;
    note.add_all(b"\n")?;
    Ok(note)
}

// The note of a refused frame with its line feed.
fn frame_note(alloc: Global, refused: &FrameFault) -> Result<Bytes, NoMemory>
    ensures { IfOk result (λ note. note ≡ refusal_text (Refusal.Frame refused.now)) }
{
    let mut note = bytes_of(alloc, b"planet: frame ")?;
    packet_frame_text::put_reason(alloc, refused, &mut note)?;
    note.add_all(b"\n")?;
    Ok(note)
}

fn bytes_of(alloc: Global, text: &[u8]) -> Result<Bytes, NoMemory>
    ensures { IfOk result (λ bytes. bytes ≡ text.now) }
{
    let mut bytes = Bytes::new(alloc);
    bytes.add_all(text)?;
    Ok(bytes)
}

// The note of a refusal with its line feed.
fn refusal_note(alloc: Global, refusal: &Refusal) -> Result<Bytes, NoMemory>
    ensures { IfOk result (λ note. note ≡ refusal_text refusal.now) }
{
    match refusal {
        Refusal::Line(line, reason) => line_note(alloc, *line, reason),
        Refusal::At(byte, fault) => text_note(alloc, *byte, fault),
        Refusal::Frame(refused) => frame_note(alloc, refused),
        Refusal::BadHex => bytes_of(alloc, b"planet: BadHex\n"),
        Refusal::TooLong => bytes_of(alloc, b"planet: TooLong\n"),
        Refusal::Log(log, line, reason) => log_note(alloc, *log, *line, reason),
        Refusal::LogTooLong(log) => long_note(alloc, *log),
    }
}

// The note of a failed child with its line feed.
fn node_note(alloc: Global, host: &Host, status: u8) -> Result<Bytes, NoMemory>
    ensures { IfOk result (λ note. note ≡ note_text (Cause.NodesFailed host.now status)) }
{
    let text = format!(in alloc; "planet: node @{} failed with {status}\n", host.0)?;
    bytes_of(alloc, text.as_bytes())
}

// The note of a cause with its line feed; `Done` has none.
fn note_of(alloc: Global, cause: &Cause) -> Result<Bytes, NoMemory>
    ensures { IfOk result (λ note. note ≡ note_text cause.now) }
{
    match cause {
        Cause::Done => Ok(Bytes::new(alloc)),
        Cause::Usage => bytes_of(
            alloc,
            b"planet: usage: check FILE | show FILE | replay FILE | node FILE TURNS | inject FILE | fleet FILE | grow SEED N | cut FILE | gather PORT FILE | port FILE | audit FILE\n",
        ),
        Cause::Refused(refusal) => refusal_note(alloc, refusal),
        Cause::ReadFault => bytes_of(alloc, b"planet: read fault\n"),
        Cause::WriteFault => bytes_of(alloc, b"planet: write fault\n"),
        Cause::LinkFault => bytes_of(alloc, b"planet: link fault\n"),
        Cause::SpawnFault => bytes_of(alloc, b"planet: spawn fault\n"),
        Cause::NoMemory => bytes_of(alloc, b"planet: no memory\n"),
        Cause::NodesFailed(host, status) => node_note(alloc, host, *status),
    }
}

// Pushes a note and answers its cause, or `WriteFault` where the notes failed.
#[tactic(auto, using(crate::proofs::Telling::pushed_whole, crate::proofs::Telling::pushed_cut))]
fn push_note<N: Sink>(notes: &mut N, cause: Cause, note: &[u8]) -> Cause
    requires { note.now ≡ note_text cause }
    ensures { Pushed cause (N.state notes.old) (N.state notes.new) result }
{
    let Ok(()) = put_all(notes, note) else {
        drop(cause);
        return Cause::WriteFault;
    };
    cause
}

/// Writes the note of a cause and answers the cause. Where there is no memory for the note, the cause
/// is `NoMemory`, with its note; where the notes fail, it is `WriteFault`.
#[tactic(auto, using(crate::proofs::Telling::notes_found, crate::proofs::Telling::notes_poor))]
pub fn settle<N: Sink>(alloc: Global, cause: Cause, notes: &mut N) -> Cause
    ensures { Notes cause (N.state notes.old) (N.state notes.new) result }
{
    match note_of(alloc, &cause) {
        Ok(note) => push_note(notes, cause, note.as_slice()),
        Err(_) => {
            drop(cause);
            push_note(notes, Cause::NoMemory, b"planet: no memory\n")
        }
    }
}
