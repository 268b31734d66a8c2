//! Writes what an audit answers.
ghost use Rattle.std.specs.Prelude.{◌≡◌, ◌++◌, IfOk, OnOk};
ghost use Rattle.std.specs.Fmt.{decimal};
ghost use Rattle.ledger_audit.specs.Texts as spec;

use crate::verdict::Verdict;
use bound_ledger::Row;
use node_log::{put_family, put_number};
use plan_base::{Bytes, Family, NoMemory};
use std::alloc::Global;

/// A word and a count.
fn put_count(out: &mut Bytes, word: &[u8], n: u64) -> Result<(), NoMemory>
    ensures { OnOk result (out.new ≡ out.old ++ (word.now ++ decimal n)) }
{
    out.add_all(word)?;
    put_number(out, n)?;
    Ok(())
}

/// A row of a ledger.
fn put_row(out: &mut Bytes, f: Family, row: Row) -> Result<(), NoMemory>
    ensures { OnOk result (out.new ≡ out.old ++ spec.row_text (f, row)) }
{
    put_family(out, f)?;
    put_count(out, b" granted ", row.granted)?;
    put_count(out, b" hops ", row.hops)?;
    put_count(out, b" evals ", row.evals)?;
    put_count(out, b" live ", row.live)?;
    put_count(out, b" left ", row.left)?;
    out.add_all(b"\n")?;
    Ok(())
}

/// The rows of a ledger.
fn put_rows(out: &mut Bytes, rows: &[(Family, Row)]) -> Result<(), NoMemory>
    ensures { OnOk result (out.new ≡ out.old ++ spec.rows_text rows.now) }
{
    for row in rows {
        put_row(out, row.0, row.1)?;
    }
    Ok(())
}

/// The frame that doesn't fit.
#[tactic(auto, unfolding(crate::specs::Texts::no_text))]
fn put_no(out: &mut Bytes, log: u32, event: u32, accepted: u32, sent: u32) -> Result<(), NoMemory>
    ensures { OnOk result (out.new ≡ out.old ++ spec.no_text log event accepted sent) }
{
    put_count(out, b"no log ", u64::from(log))?;
    put_count(out, b" event ", u64::from(event))?;
    put_count(out, b" accepted ", u64::from(accepted))?;
    put_count(out, b" sent ", u64::from(sent))?;
    out.add_all(b"\n")?;
    Ok(())
}

/// The answer.
fn put_answer(out: &mut Bytes, verdict: &Verdict) -> Result<(), NoMemory>
    ensures { OnOk result (out.new ≡ out.old ++ spec.answer_text verdict.now) }
{
    match verdict {
        Verdict::Yes(rows) => {
            out.add_all(b"yes\n")?;
            put_rows(out, rows.as_slice())
        }
        Verdict::No {
            log,
            event,
            accepted,
            sent,
        } => put_no(out, *log, *event, *accepted, *sent),
    }
}

/// What is written of an audit's answer.
#[tactic(auto, unfolding(crate::specs::Texts::audit_text))]
pub fn verdict_text(alloc: Global, verdict: &Verdict) -> Result<Bytes, NoMemory>
    ensures { IfOk result (λ text. text ≡ spec.audit_text verdict.now) }
{
    let mut out = Bytes::new(alloc);
    out.add_all(b"planet audit 1\n")?;
    put_answer(&mut out, verdict)?;
    out.add_all(b"end\n")?;
    Ok(out)
}
