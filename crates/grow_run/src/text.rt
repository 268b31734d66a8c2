//! Writes a summary.
ghost use Rattle.std.specs.Prelude.{◌≡◌, ◌++◌, OnOk, OnErr};
ghost use Rattle.std.specs.Fmt.{decimal};
ghost use Rattle.grow_run.specs.Summaries as spec;

use crate::summary::Summary;
use crate::sums::Totals;
use itoa::Buffer;
use plan_base::{Bytes, NoMemory};
use std::alloc::Global;

/// A word and a number.
fn put_count(out: &mut Bytes, word: &[u8], n: u128) -> Result<(), NoMemory>
    ensures { OnOk result (out.new ≡ out.old ++ (word.now ++ decimal n)) }
{
    out.add_all(word)?;
    let mut digits = Buffer::new();
    out.add_all(digits.format(n).as_bytes())?;
    Ok(())
}

fn put_asked(out: &mut Bytes, seed: u64, events: u64) -> Result<(), NoMemory>
    ensures { OnOk result (out.new ≡ out.old ++ spec.asked_text seed events) }
{
    put_count(out, b"planet grow ", u128::from(seed))?;
    put_count(out, b" ", u128::from(events))?;
    out.add_all(b"\n")?;
    Ok(())
}

fn put_size(out: &mut Bytes, events: u64) -> Result<(), NoMemory>
    ensures { OnOk result (out.new ≡ out.old ++ spec.size_text events) }
{
    put_count(out, b"hosts 8 links 8 events ", u128::from(events))?;
    out.add_all(b"\n")?;
    Ok(())
}

fn put_happened(out: &mut Bytes, summary: Summary) -> Result<(), NoMemory>
    ensures { OnOk result (out.new ≡ out.old ++ spec.happened_text summary) }
{
    put_count(out, b"lines ", summary.lines)?;
    put_count(out, b"\nvisits ", summary.visits)?;
    put_count(out, b" drops ", summary.drops)?;
    put_count(out, b" lost ", summary.lost)?;
    out.add_all(b"\n")?;
    Ok(())
}

fn put_sums(out: &mut Bytes, sums: Totals) -> Result<(), NoMemory>
    ensures { OnOk result (out.new ≡ out.old ++ spec.sums_text sums) }
{
    put_count(out, b"granted ", sums.granted)?;
    put_count(out, b" hops ", sums.hops)?;
    put_count(out, b" evals ", sums.evals)?;
    put_count(out, b" live ", sums.live)?;
    put_count(out, b" left ", sums.left)?;
    out.add_all(b"\n")?;
    Ok(())
}

/// The summary of a network that grew by itself.
#[tactic(auto, unfolding(crate::specs::Summaries::summary_text))]
fn put_summary_text(
    out: &mut Bytes,
    seed: u64,
    events: u64,
    summary: Summary,
    sums: Totals,
) -> Result<(), NoMemory>
    ensures { OnOk result (out.new ≡ out.old ++ spec.summary_text seed events summary sums) }
{
    put_asked(out, seed, events)?;
    put_size(out, events)?;
    put_happened(out, summary)?;
    put_sums(out, sums)?;
    out.add_all(b"end\n")?;
    Ok(())
}

/// Appends the summary of a network that grew by itself: what was asked, what happened, and the sums over
/// all families. Where an allocation fails, `out` stays.
pub fn put_summary(
    alloc: Global,
    out: &mut Bytes,
    seed: u64,
    events: u64,
    summary: Summary,
    sums: Totals,
) -> Result<(), NoMemory>
    ensures whole { OnOk result
        (out.new ≡ out.old ++ spec.summary_text seed events summary sums) }
    ensures stays { OnErr result (out.new ≡ out.old) }
{
    let mut text = Bytes::new(alloc);
    put_summary_text(&mut text, seed, events, summary, sums)?;
    out.add_all(text.as_slice())?;
    Ok(())
}
