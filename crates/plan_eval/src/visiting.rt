//! The visit of a packet.
ghost use Rattle.std.specs.Prelude.{◌≡◌, ◌≢◌, ◌↔◌, ◌+◌, ◌≤◌, List, ℕ, length, All, IfOk, OnOk, IsSome, Some, min};
ghost use Rattle.plan_base.specs.declared.ids.Family.{Family as AFamily};
ghost use Rattle.plan_base.specs.declared.tree.Chunk.{Chunk as AChunk};
ghost use Rattle.plan_base.specs.declared.tree.Fun.{Fun as AFun};
ghost use Rattle.plan_base.specs.declared.tree.Value.{Value as AValue};
ghost use Rattle.plan_base.specs.Sizes.{code_size};
ghost use Rattle.plan_types_spec.specs.TypingOrder.{fun_of};
ghost use Rattle.service_api.specs.declared.ctx.Ctx.{Ctx as ACtx};
ghost use Rattle.service_api.specs.Services.{AreGoodRows, ServiceState};
ghost use Rattle.plan_meaning.specs.Visit.{IsVisit, IsGoodEnd, NoteHasTypes, allowance, begun_state, bounds, spent_visit};
ghost use Rattle.plan_meaning.specs.declared.outcome.Outcome.TheVariants as outcome;
ghost use Rattle.plan_meaning.specs.Meaning.{meaning, visited_chunk};
ghost use Rattle.plan_meaning.specs.Safe.{AreGoodNotes, AreGoodPackets};
ghost use Rattle.plan_meaning.specs.Laws.{VisitEnds, VisitsAlike, NoneSuffices};
ghost use Rattle.plan_eval.specs.Given.{GivesAlone};
ghost use Rattle.plan_eval.specs.Start.{IsStart, begun_own};
ghost use Rattle.plan_eval.specs.Turns.{Ends, IsRightEnd};

use crate::start::{first_run, run_entry, taken};
use checked_chunks::CheckedPacket;
use containers::Items;
use plan_base::{Chunk, Family, NoMemory};
use plan_eval_state::{Progress, Run};
use plan_meaning::{EvalStop, Outcome, Visit};
use service_api::{Ctx, Services};
use std::alloc::Global;
use visit_state::{ALLOWANCE, EvalState};

/// A visit that has no effect at all.
fn visit_without_effect(alloc: Global, bound: u32) -> Visit
    ensures { result ≡ spent_visit allowance bound }
{
    Visit {
        outcome: Outcome::WorkSpent,
        evals: 0,
        left: bound,
        outbox: Items::new(alloc),
        notes: Items::new(alloc),
        work: ALLOWANCE,
    }
}

/// A visit as it begins in these surroundings.
fn begun(
    alloc: Global,
    chunk: &Chunk,
    size: u64,
    family: Family,
    ctx: &Ctx,
) -> Result<Run, NoMemory>
    requires size { size ≡ min (code_size chunk.now.code) 18446744073709551615 }
    requires purse { ctx.now.purse ≤ 65535 }
    requires near { length ctx.now.neighbours ≤ 8 }
    ensures { IfOk result (λ run. IsStart chunk.now (begun_own ctx.entry.now family) run) }
{
    let around = ctx.copy(alloc)?;
    let state = EvalState::new(alloc, around, family, ALLOWANCE);
    first_run(alloc, chunk, size, state)
}

/// What a visit ends with that came so far.
fn visited(alloc: Global, run: Run, came: Progress, bound: u32) -> Result<Visit, NoMemory>
    requires right { IsRightEnd came run }
    ensures { IfOk result (λ r. (k : AChunk) (ctx : ACtx) (family : AFamily) (old n : ServiceState)
        (pre : List AValue) → ctx.purse ≡ bound → Ends pre (visited_chunk meaning k
        (begun_state allowance ctx family old)) came run n
        → IsVisit allowance k ctx family old r n) }
{
    let (state, given) = taken(run, came);
    match given {
        Ok(v) => Ok(state.into_visit(Outcome::Value(v))),
        Err(EvalStop::Raised(x)) => Ok(state.into_visit(Outcome::Raised(x))),
        Err(EvalStop::WorkSpent) => {
            drop(state);
            Ok(visit_without_effect(alloc, bound))
        }
        Err(EvalStop::NoMemory) => {
            drop(state);
            Err(NoMemory)
        }
        Err(EvalStop::Wrong) => unreachable!(),
    }
}

/// What the visit of a packet ends with. It recurses over expressions, calls and evals on the native stack, at most 256 levels
/// deep, and what stands deeper waits on a stack of its own.
///
/// Conditions: the purse of the surroundings is the packet's bound and their source the family's host, there are at most 8
/// neighbours, a `begin` is open, and the rows are good, as `begin` says that they are. Whatever it answers, the `begin` is
/// still open and the rows at it are as before. After `WorkSpent` and `NoMemory` the caller abandons.
///
/// Every visit would end by itself: some allowance of work suffices (`ends`), any two that suffice give the same (`alike`), and
/// `WorkSpent` comes exactly where none up to 4,000,000 does (`spent`). Where it doesn't come, every greater allowance gives the
/// same, and nothing else (`greater`).
#[tactic(auto, using(crate::proofs::Visits::good_chunk))]
pub fn visit<S: Services>(
    alloc: Global,
    p: &CheckedPacket,
    svc: &mut S,
    ctx: &Ctx,
) -> Result<Visit, NoMemory>
    requires bound { ctx.now.purse ≡ p.now.bound }
    requires source { ctx.now.source ≡ p.now.family.source }
    requires near { length ctx.now.neighbours ≤ 8 }
    requires rows { AreGoodRows (S.stands svc.old).rows }
    requires open { IsSome (S.stands svc.old).begun }
    ensures visits { IfOk result (λ r. IsVisit allowance p.now.chunk ctx.entry.now p.now.family
        (S.stands svc.old) r (S.stands svc.new)) }
    ensures value { IfOk result (λ r. (d : AFun) → fun_of p.now.chunk.code p.now.chunk.entry ≡ Some
        d → IsGoodEnd d.result r.outcome) }
    ensures notes { IfOk result (λ r. AreGoodNotes r.notes) }
    ensures note_types { IfOk result (λ r. All NoteHasTypes r.notes) }
    ensures sends { IfOk result (λ r. AreGoodPackets r.outbox) }
    ensures balance { IfOk result (λ r. r.evals + r.left + bounds r.outbox ≡ p.now.bound) }
    ensures kept { OnOk result (AreGoodRows (S.stands svc.new).rows) }
    ensures ends { VisitEnds p.now.chunk ctx.entry.now p.now.family (S.stands svc.old) }
    ensures alike { VisitsAlike p.now.chunk ctx.entry.now p.now.family (S.stands svc.old) }
    ensures greater { IfOk result (λ r. r.outcome ≢ outcome.WorkSpent → (w : ℕ) → allowance ≤ w
        → GivesAlone w p.now.chunk ctx.entry.now p.now.family (S.stands svc.old) r
        (S.stands svc.new)) }
    ensures spent { IfOk result (λ r. (r.outcome ≡ outcome.WorkSpent) ↔ NoneSuffices allowance
        p.now.chunk ctx.entry.now p.now.family (S.stands svc.old)) }
    ensures offer { (S.stands svc.new).offer ≡ (S.stands svc.old).offer }
    ensures begun { (S.stands svc.new).begun ≡ (S.stands svc.old).begun }
    ensures still { IsSome (S.stands svc.new).begun }
{
    let chunk = p.chunk();
    let size = chunk.program_size();
    let chunk = chunk.chunk();
    let bound = p.bound();
    let mut run = begun(alloc, chunk, size, p.family(), ctx)?;
    let came = run_entry(alloc, &mut run, chunk, size, svc);
    visited(alloc, run, came, bound)
}
