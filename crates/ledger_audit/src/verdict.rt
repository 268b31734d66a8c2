//! What an audit answers: that the logs fit, with their ledger, or the first frame that doesn't.
ghost use Rattle.std.specs.Prelude.{◌≡◌, ◌∷◌, ◌++◌, ◌≤◌, List, [], map, length, IfOk, OnOk};
ghost use Rattle.std.specs.List.{All, filter};
ghost use Rattle.plan_base.specs.declared.ids.Family.{Family as FamilyOf};
ghost use Rattle.dv_routing.specs.Sorted.{sorted_into};
ghost use Rattle.network_config.specs.NodeRules.{KeepsLog};
ghost use Rattle.net_world_spec.specs.World.{Cables};
ghost use Rattle.ledger_audit.specs.Crossings.{Crossing, first_over};
ghost use Rattle.ledger_audit.specs.Audits.{Logged, AddsUp};
ghost use Rattle.ledger_audit.specs.Tallies.{AreFew, Tallied};
ghost use Rattle.ledger_audit.specs.Books.{counts_in};
ghost use Rattle.ledger_audit.specs.Pasts.{IsReckoned, IsReckoning, arrivals_of, logged_of};
ghost use Rattle.ledger_audit.specs.Ledgers as spec;
ghost use Rattle.ledger_audit.specs.Ledgers.{Pays, over_in, row_in, by_hosts, verdict_of, IsYes};

use crate::book::{Counts, FamilyTotals};
use crate::judging::{Over, first_over_of};
use crate::reckoning::{Arrived, AuditState, nothing_reckoned, reckon_log};
use crate::tally::Tallies;
use bound_ledger::Row;
use containers::Items;
use dv_routing::sorted_hosts;
use network_config::{Link, Log};
use plan_base::{Family, Host, NoMemory};
use std::alloc::Global;

/// The rows of families, by source and serial number.
pub type LedgerRows = Items<(Family, Row)>;

/// What an audit answers.
#[derive(Drop)]
pub enum Verdict {
    /// The logs fit together; the ledger has a row for each family that they inject.
    Yes(LedgerRows),
    /// They don't: the first accepted frame that stands more often than it was sent.
    No {
        /// The number of its log, from 1.
        log: u32,
        /// The number of its entry, from 1.
        event: u32,
        /// How often it was accepted up to there.
        accepted: u32,
        /// How often it was sent.
        sent: u32,
    },
}

/// The row of a family's counts. Condition: it paid and left at most what it was granted. Takes no memory.
fn counted_row(counts: Counts) -> Row
    requires { Pays counts }
    ensures { result ≡ spec.counted_row counts }
{
    Row {
        granted: counts.granted,
        hops: counts.hops,
        evals: counts.evals,
        live: counts.granted - (counts.hops + counts.evals + counts.left),
        left: counts.left,
    }
}

/// Adds the row of a family, where it was injected at a host.
#[tactic(auto, using(crate::proofs::VerdictLaws::row_apart, crate::proofs::VerdictLaws::row_own))]
fn add_row(
    book: &FamilyTotals,
    host: Host,
    family: Family,
    rows: &mut LedgerRows,
) -> Result<(), NoMemory>
    requires { (f : FamilyOf) → Pays (counts_in f book.now) }
    ensures { OnOk result
        (rows.new ≡ rows.old ++ map (row_in book.now) (filter (spec.is_from host) (family ∷ []))) }
{
    if family.source.0 != host.0 {
        return Ok(());
    }
    rows.add((family, counted_row(book.of(family))))?;
    Ok(())
}

/// Adds the rows of those families that were injected at a host.
fn add_rows(
    book: &FamilyTotals,
    host: Host,
    families: &[Family],
    rows: &mut LedgerRows,
) -> Result<(), NoMemory>
    requires { (f : FamilyOf) → Pays (counts_in f book.now) }
    ensures { OnOk result
        (rows.new ≡ rows.old ++ map (row_in book.now) (filter (spec.is_from host) families.now)) }
{
    for family in families {
        add_row(book, host, *family, rows)?;
    }
    Ok(())
}

/// The rows of families, host by host.
fn rows_by(
    alloc: Global,
    book: &FamilyTotals,
    hosts: &[Host],
    families: &[Family],
) -> Result<LedgerRows, NoMemory>
    requires { (f : FamilyOf) → Pays (counts_in f book.now) }
    ensures { IfOk result (λ rows. rows ≡ map (row_in book.now) (by_hosts hosts.now families.now)) }
{
    let mut rows = Items::new(alloc);
    for host in hosts {
        add_rows(book, *host, families, &mut rows)?;
    }
    Ok(rows)
}

/// The rows of families, by source and serial number.
fn ledger_rows(
    alloc: Global,
    book: &FamilyTotals,
    hosts: &Items<Host>,
    families: &Items<Family>,
) -> Result<LedgerRows, NoMemory>
    requires { (f : FamilyOf) → Pays (counts_in f book.now) }
    ensures { IfOk result
        (λ rows. rows ≡ map (row_in book.now) (by_hosts (sorted_into [] hosts.now) families.now)) }
{
    let sorted = sorted_hosts(alloc, hosts.as_slice())?;
    rows_by(alloc, book, sorted.as_slice(), families.as_slice())
}

/// The first accepted frame that doesn't fit, in the order of acceptance.
fn misfit_in(
    alloc: Global,
    tallies: &mut Tallies,
    arrived: &Items<Arrived>,
) -> Result<Option<Over>, NoMemory>
    ensures { (sent : List Crossing) → AreFew sent (arrivals_of arrived.now)
        → Tallied sent [] tallies.old
        → IfOk result (λ over. over_in over ≡ first_over sent [] (arrivals_of arrived.now)) }
{
    first_over_of(alloc, tallies, arrived.as_slice())
}

/// What the audit answers of the logs so far. Condition: they were reckoned, from nothing on.
pub fn judge(alloc: Global, reckoning: AuditState) -> Result<Verdict, NoMemory>
    requires { IsReckoning reckoning }
    ensures { (links : Cables) (ls : List Logged) → IsReckoned links ls reckoning
        → IfOk result (λ v. v ≡ verdict_of links ls) }
{
    let mut reckoning = reckoning;
    match misfit_in(alloc, &mut reckoning.tallies, &reckoning.arrived)? {
        Some(over) => Ok(Verdict::No {
            log: over.log,
            event: over.event,
            accepted: over.accepted,
            sent: over.sent,
        }),
        None => {
            let rows = ledger_rows(
                alloc,
                &reckoning.book,
                &reckoning.hosts,
                &reckoning.injected,
            )?;
            Ok(Verdict::Yes(rows))
        }
    }
}

/// Adds logs, in order.
fn reckon_logs(alloc: Global, links: &[Link], logs: &[Log]) -> Result<AuditState, NoMemory>
    requires few { length logs.now ≤ 16 }
    requires rules { All KeepsLog logs.now }
    ensures { IfOk result (IsReckoned links.now (map logged_of logs.now)) }
{
    let mut reckoning = nothing_reckoned(alloc);
    let mut number = 0;
    for log in logs {
        number += 1;
        reckon_log(alloc, links, number, log, &mut reckoning)?;
    }
    Ok(reckoning)
}

/// Whether the logs of a fleet fit together: whether each frame that a node accepted was sent so often by the other end of
/// its link, one of `links`. Where they do, the answer has the counts of each family over all of them. Conditions: at most
/// 16 logs, each of which keeps its rules. See `docs/use/audit.md`.
pub fn audit(alloc: Global, links: &[Link], logs: &[Log]) -> Result<Verdict, NoMemory>
    requires few { length logs.now ≤ 16 }
    requires rules { All KeepsLog logs.now }
    // What is answered is what the logs make of it.
    ensures verdict { IfOk result (λ v. v ≡ verdict_of links.now (map logged_of logs.now)) }
    // Where they fit, each family was granted what it paid, what is live and what was left.
    ensures ledger { IfOk result (λ v. IsYes v
        → (f : FamilyOf) → AddsUp f links.now (map logged_of logs.now)) }
{
    let reckoning = reckon_logs(alloc, links, logs)?;
    let verdict = judge(alloc, reckoning)?;
    Ok(verdict)
}
