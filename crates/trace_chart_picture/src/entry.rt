//! Reads an entry of a trace.
ghost use Rattle.std.specs.Prelude.{◌≡◌, ◌≢◌, IfOk, IfSome, None};
ghost use Rattle.std.specs.Str.{bytes_eq};
ghost use Rattle.trace_chart_picture.specs.Guesses.{named_of, guessed_entry, guessed_row};
ghost use Rattle.trace_chart_picture.specs.Lines as spec;
ghost use Rattle.trace_chart_picture.specs.Reads as reads;
ghost use Rattle.trace_chart_picture.specs.Traces as whole;

use crate::cuts::{behind_two, first, rest};
use crate::line::{Entry, Row};
use crate::number::long;
use crate::rest::{family_of, line_of};
use crate::write::{put_entry, put_row};
use plan_base::{Bytes, NoMemory};
use std::alloc::Global;
use std::str;

/// The entry that a line may be.
#[tactic(auto, unfolding(crate::specs::Guesses::guessed_entry))]
fn guess_entry(alloc: Global, line: &[u8]) -> Result<Entry, NoMemory>
    ensures { IfOk result (λ e. e ≡ guessed_entry line.now) }
{
    let event = long(first(line));
    let line = line_of(alloc, rest(line))?;
    Ok(Entry { event, line })
}

/// Whether a line is the text of an entry.
fn is_entry(alloc: Global, entry: &Entry, line: &[u8]) -> Result<bool, NoMemory>
    ensures { IfOk result (λ same. same ≡ bytes_eq (spec.entry_text entry.now) line.now) }
{
    let mut text = Bytes::new(alloc);
    put_entry(alloc, &mut text, entry)?;
    Ok(text.as_slice() == line)
}

/// This entry if the line is its text. Condition: it is the one that the line may be.
fn if_entry(alloc: Global, entry: Entry, line: &[u8]) -> Result<Option<Entry>, NoMemory>
    requires { entry ≡ guessed_entry line.now }
    ensures is { IfOk result (λ r. IfSome r (λ e. reads.IsReadAs line.now e)) }
    ensures other { IfOk result (λ r. r ≡ None → reads.IsNoEntry line.now) }
{
    match is_entry(alloc, &entry, line) {
        Ok(true) => Ok(Some(entry)),
        Ok(false) => Ok(None),
        Err(fault) => Err(fault),
    }
}

/// The entry whose text a line is, where it is one's. It is guessed, printed and compared.
#[tactic(auto, using(crate::proofs::Again::no_text))]
pub(crate) fn read_entry(alloc: Global, line: &[u8]) -> Result<Option<Entry>, NoMemory>
    ensures is { IfOk result (λ r. IfSome r (λ e. reads.IsReadAs line.now e)) }
    ensures other { IfOk result (λ r. r ≡ None → reads.IsNoEntry line.now) }
{
    if str::from_utf8(line).is_err() {
        return Ok(None);
    }
    let entry = guess_entry(alloc, line)?;
    if_entry(alloc, entry, line)
}

/// The number behind a word.
fn named(text: &[u8]) -> u64
    ensures { result ≡ named_of text.now }
{
    long(first(rest(text)))
}

/// The row that a line may be.
#[tactic(auto, unfolding(crate::specs::Guesses::guessed_row))]
fn guess_row(line: &[u8]) -> Row
    ensures { result ≡ guessed_row line.now }
{
    let granted = rest(line);
    let hops = behind_two(granted);
    let evals = behind_two(hops);
    let live = behind_two(evals);
    Row {
        family: family_of(first(line)),
        granted: named(granted),
        hops: named(hops),
        evals: named(evals),
        live: named(live),
        left: named(behind_two(live)),
    }
}

/// Whether a line is the text of a row.
fn is_row(alloc: Global, row: Row, line: &[u8]) -> Result<bool, NoMemory>
    ensures { IfOk result (λ same. same ≡ bytes_eq (whole.row_text row) line.now) }
{
    let mut text = Bytes::new(alloc);
    put_row(alloc, &mut text, row)?;
    Ok(text.as_slice() == line)
}

/// The row whose text a line is, where it is one's. It is guessed, printed and compared.
#[tactic(auto, using(crate::proofs::Rows::no_row, crate::proofs::Rows::only_row))]
pub(crate) fn read_row(alloc: Global, line: &[u8]) -> Result<Option<Row>, NoMemory>
    ensures is { IfOk result (λ r. IfSome r (λ row. reads.IsReadRow line.now row)) }
    ensures other { IfOk result (λ r. r ≡ None → reads.IsNoRow line.now) }
{
    let row = guess_row(line);
    if is_row(alloc, row, line)? {
        Ok(Some(row))
    } else {
        Ok(None)
    }
}
