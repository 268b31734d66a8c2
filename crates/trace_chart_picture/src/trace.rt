//! Reads the bytes of a trace.
ghost use Rattle.std.specs.Prelude.{◌≡◌, ◌++◌, ◌<◌, codes, length, [], true, IfOk, IfErr, IfSome, OnOk, None};
ghost use Rattle.trace_chart_picture.specs.Reads as reads;
ghost use Rattle.trace_chart_picture.specs.Reads.{IfLine, IsEntryLine, IsRowLine, lacks};
ghost use Rattle.std.specs.List.{All};
ghost use Rattle.trace_chart_picture.specs.Traces as whole;
ghost use Rattle.trace_chart_picture.specs.declared.trace.TraceFault.TheVariants as fault;

use crate::cuts::{after, before};
use crate::entry::{read_entry, read_row};
use crate::line::{Entry, Row, Trace};
use containers::Items;
use plan_base::NoMemory;
use std::alloc::{AllocError, Global};

/// Why bytes are no trace.
#[derive(Clone, Copy, PartialEq, Eq)]
pub enum TraceFault {
    /// The first line that is no line of a trace there, from 1.
    BadLine(u64),
    /// Memory was refused.
    NoMemory,
}

impl From<AllocError> for TraceFault {
    ghost from_gives = { λ _ r. r ≡ fault.NoMemory };

    fn from(_refused: AllocError) -> TraceFault {
        TraceFault::NoMemory
    }
}

impl From<NoMemory> for TraceFault {
    ghost from_gives = { λ _ r. r ≡ fault.NoMemory };

    fn from(_refused: NoMemory) -> TraceFault {
        TraceFault::NoMemory
    }
}

/// The bytes in front of the first line feed and those behind it, or none where there is no line feed.
#[tactic(auto, using(crate::proofs::Fronts::no_line, crate::proofs::Fronts::next, crate::proofs::Fronts::next_shorter))]
fn next_line(bytes: &[u8]) -> Option<(&[u8], &[u8])>
    ensures next { IfSome result (λ p. reads.IsNext bytes.now p.0.now p.1.now) }
    ensures none { result ≡ None → reads.HasNoLine bytes.now }
    ensures shorter { IfSome result (λ p. length p.1.now < length bytes.now) }
{
    let line = before(bytes, b'\n');
    if line.len() == bytes.len() {
        return None;
    }
    Some((line, after(bytes, b'\n')))
}

/// What stands behind this line, or none where the bytes don't begin with it. Condition: it is one line.
fn behind<'a>(bytes: &'a [u8], text: &[u8]) -> Option<&'a [u8]>
    requires { lacks 10 text.now ≡ true }
    ensures is { IfSome result (λ r. whole.as_line text.now ++ r.now ≡ bytes.now) }
    ensures other { result ≡ None → reads.NotFirst text.now bytes.now }
{
    let (line, rest) = next_line(bytes)?;
    if line == text { Some(rest) } else { None }
}

/// Adds the entries that the bytes begin with, and answers what stands behind them, and the number
/// of the line there.
fn add_entries<'a>(
    alloc: Global,
    entries: &mut Items<Entry>,
    bytes: &'a [u8],
    first: u64,
) -> Result<(&'a [u8], u64), NoMemory>
    ensures { IfOk result (λ p. reads.AddsEntries entries.old entries.new bytes.now first
        p.0.now p.1) }
{
    let mut rest = bytes;
    let mut number = first;
    while let Some((line, more)) = next_line(rest) {
        let Some(entry) = read_entry(alloc, line)? else {
            return Ok((rest, number));
        };
        entries.add(entry)?;
        rest = more;
        number = number.saturating_add(1);
    }
    Ok((rest, number))
}

/// Adds the rows of a ledger that the bytes begin with, likewise.
fn add_rows<'a>(
    alloc: Global,
    rows: &mut Items<Row>,
    bytes: &'a [u8],
    first: u64,
) -> Result<(&'a [u8], u64), NoMemory>
    ensures { IfOk result (λ p. reads.AddsRows rows.old rows.new bytes.now first p.0.now p.1) }
{
    let mut rest = bytes;
    let mut number = first;
    while let Some((line, more)) = next_line(rest) {
        let Some(row) = read_row(alloc, line)? else {
            return Ok((rest, number));
        };
        rows.add(row)?;
        rest = more;
        number = number.saturating_add(1);
    }
    Ok((rest, number))
}

/// Whether the bytes are the last line of a trace, whose number this is.
fn end_at(bytes: &[u8], number: u64) -> Result<(), TraceFault>
    ensures ends { OnOk result (whole.as_line (codes "end") ≡ bytes.now) }
    ensures wrong { IfErr result (λ e. IfLine e (reads.EndsWrong bytes.now number)) }
{
    match behind(bytes, b"end") {
        Some(b"") => Ok(()),
        Some(_) => Err(TraceFault::BadLine(number.saturating_add(1))),
        None => Err(TraceFault::BadLine(number)),
    }
}

/// The rows of a ledger, behind which the trace ends.
fn read_rows(alloc: Global, bytes: &[u8], first: u64) -> Result<Items<Row>, TraceFault>
    ensures read { IfOk result (λ rows. whole.rows_text rows ++ whole.as_line (codes "end")
        ≡ bytes.now) }
    ensures lines { IfOk result (All IsRowLine) }
    ensures wrong { IfErr result (λ e. IfLine e (reads.RowsWrong bytes.now first)) }
{
    let mut rows = Items::new(alloc);
    let (rest, number) = add_rows(alloc, &mut rows, bytes, first)?;
    end_at(rest, number)?;
    Ok(rows)
}

/// The ledger where the bytes begin with one. Behind it the trace ends.
fn read_ledger(alloc: Global, bytes: &[u8], first: u64) -> Result<Option<Items<Row>>, TraceFault>
    ensures read { IfOk result (λ rows. whole.ledger_text rows ++ whole.as_line (codes "end")
        ≡ bytes.now) }
    ensures lines { IfOk result (λ rows. IfSome rows (All IsRowLine)) }
    ensures wrong { IfErr result (λ e. IfLine e (reads.LedgerWrong bytes.now first)) }
{
    match behind(bytes, b"ledger") {
        Some(more) => Ok(Some(read_rows(alloc, more, first.saturating_add(1))?)),
        None => {
            end_at(bytes, first)?;
            Ok(None)
        }
    }
}

/// Adds the entries that the bytes begin with, from the second line on, and answers the ledger behind
/// them. Behind it the trace ends. Condition: there are no entries yet.
fn read_body(
    alloc: Global,
    entries: &mut Items<Entry>,
    bytes: &[u8],
) -> Result<Option<Items<Row>>, TraceFault>
    requires { entries.old ≡ [] }
    ensures read { IfOk result (λ rows. whole.entries_text entries.new ++ (whole.ledger_text rows
        ++ whole.as_line (codes "end")) ≡ bytes.now) }
    ensures lines { IfOk result (λ rows. All IsEntryLine entries.new
        × IfSome rows (All IsRowLine)) }
    ensures wrong { IfErr result (λ e. IfLine e (reads.BodyWrong bytes.now)) }
{
    let (rest, number) = add_entries(alloc, entries, bytes, 2)?;
    read_ledger(alloc, rest, number)
}

/// The trace that these bytes are, of a schedule or of a log. What is read prints as exactly these
/// bytes, and nothing else does; else the first line that goes wrong is reported, the line behind the last one where the trace
/// ends too early. Bytes that a trace prints as are read.
#[tactic(auto, using(crate::proofs::NoTrace::body_bad))]
pub fn read_trace(alloc: Global, bytes: &[u8]) -> Result<Trace, TraceFault>
    ensures read { IfOk result (λ t. reads.IsTraceOf bytes.now t) }
    ensures wrong { IfErr result (λ e. IfLine e (reads.IsBadLine bytes.now)) }
{
    let Some(rest) = behind(bytes, b"planet trace 1") else {
        return Err(TraceFault::BadLine(1));
    };
    let mut entries = Items::new(alloc);
    match read_body(alloc, &mut entries, rest) {
        Ok(ledger) => Ok(Trace { entries, ledger }),
        Err(fault) => Err(fault),
    }
}
