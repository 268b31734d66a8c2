//! Visits that are settled.
ghost use Rattle.std.specs.Prelude.{◌≡◌, ◌≤◌, ◌+◌, ◌++◌, ◌∷◌, [], map, All, IfOk, OnOk};
ghost use Rattle.std.specs.Option.{option_to_list};
ghost use Rattle.plan_meaning.specs.Visit.{bounds};
ghost use Rattle.plan_eval_settle.specs.Settles as spec;

use crate::telling::telling_of;
use checked_chunks::{CheckedPacket, is_handler};
use containers::Items;
use plan_base::{Name, NoMemory};
use plan_base_copy::copy_handler;
use plan_meaning::{Outbox, Sent, Visit};
use service_api::Ctx;
use std::alloc::Global;

/// A visit that is settled.
#[derive(Drop)]
pub struct Settled {
    /// The visit, with the packet that reports to the source, if there is one, sent last and paid from what was left.
    pub visit: Visit,
    /// The handler that this packet calls.
    pub handled: Option<Name>,
}

/// A packet that is sent, with the handler where its own code has such a function. Condition: it has none yet.
fn with_handler(alloc: Global, handler: &Option<Name>, sent: Sent) -> Result<Sent, NoMemory>
    requires { spec.IsPlain sent }
    ensures { IfOk result (λ s. s ≡ spec.handed_packet handler.now sent) }
{
    let Some(name) = handler else {
        return Ok(sent);
    };
    if !is_handler(sent.packet.chunk().chunk().code.get(), name) {
        return Ok(sent);
    }
    let name = name.copy(alloc)?;
    let Sent { dev, packet } = sent;
    Ok(Sent {
        dev,
        packet: packet.handled_by(name),
    })
}

/// Adds a packet that is sent, with the handler where its own code has such a function. Condition: it has none yet.
fn add_handed(
    alloc: Global,
    handler: &Option<Name>,
    sends: &mut Outbox,
    sent: Sent,
) -> Result<(), NoMemory>
    requires { spec.IsPlain sent }
    ensures { OnOk result (sends.new ≡ sends.old ++ spec.handed_packet handler.now sent ∷ []) }
{
    sends.add(with_handler(alloc, handler, sent)?)?;
    Ok(())
}

/// All that a visit sends, with the handler. Condition: none of it has one yet.
#[tactic(auto, using(crate::proofs::Sends::none_handed))]
fn all_handed(alloc: Global, handler: &Option<Name>, outbox: Outbox) -> Result<Outbox, NoMemory>
    requires { All spec.IsPlain outbox }
    ensures { IfOk result (λ sends. sends ≡ map (spec.handed_packet handler.now) outbox) }
{
    let Some(_) = handler else {
        return Ok(outbox);
    };
    let mut sends = Items::new(alloc);
    for sent in outbox.into_vec() {
        add_handed(alloc, handler, &mut sends, sent)?;
    }
    Ok(sends)
}

/// What is sent, with the packet that reports to the source, if there is one, last.
fn with_last(outbox: Outbox, told: Option<Sent>) -> Result<Outbox, NoMemory>
    ensures { IfOk result (λ sends. sends ≡ outbox ++ option_to_list told) }
{
    let mut outbox = outbox;
    if let Some(sent) = told {
        outbox.add(sent)?;
    }
    Ok(outbox)
}

/// What is left beside the packet that reports to the source.
fn left_beside(left: u32, told: &Option<Sent>) -> u32
    ensures { result ≡ spec.left_beside left told.now }
{
    match told {
        None => left,
        Some(_) => 0,
    }
}

/// The handler that is called by that packet.
fn handled_by(
    alloc: Global,
    handler: &Option<Name>,
    told: &Option<Sent>,
) -> Result<Option<Name>, NoMemory>
    ensures { IfOk result (λ h. h ≡ spec.handled_by handler.now told.now) }
{
    match told {
        None => Ok(None),
        Some(_) => copy_handler(alloc, handler),
    }
}

/// All that a visit sends, with the handler, and the packet that reports to the source, if there is one, last. Condition: what the
/// visit sends has no handler yet.
fn handed_with_last(
    alloc: Global,
    handler: &Option<Name>,
    outbox: Outbox,
    told: Option<Sent>,
) -> Result<Outbox, NoMemory>
    requires { All spec.IsPlain outbox }
    ensures { IfOk result (λ sends. sends
        ≡ map (spec.handed_packet handler.now) outbox ++ option_to_list told) }
{
    match all_handed(alloc, handler, outbox) {
        Ok(sends) => with_last(sends, told),
        Err(NoMemory) => {
            drop(told);
            Err(NoMemory)
        }
    }
}

/// A visit with the packet that reports to the source, if there is one, and the handler that it calls. Condition: what the visit
/// sends has no handler yet.
fn told_visit(
    alloc: Global,
    handler: &Option<Name>,
    v: Visit,
    told: Option<Sent>,
    handled: Option<Name>,
) -> Result<Settled, NoMemory>
    requires { All spec.IsPlain v.outbox }
    ensures { IfOk result (λ s. s ≡ record {
      visit = record v {
        left = spec.left_beside v.left told;
        outbox = map (spec.handed_packet handler.now) v.outbox ++ option_to_list told;
      };
      handled = handled;
    }) }
{
    let left = left_beside(v.left, &told);
    let Visit {
        outcome,
        evals,
        outbox,
        notes,
        work,
        ..
    } = v;
    match handed_with_last(alloc, handler, outbox, told) {
        Ok(outbox) => Ok(Settled {
            visit: Visit {
                outcome,
                evals,
                left,
                outbox,
                notes,
                work,
            },
            handled,
        }),
        Err(NoMemory) => {
            drop(outcome);
            drop(notes);
            drop(handled);
            Err(NoMemory)
        }
    }
}

/// A visit with the packet that reports to the source, if there is one. Condition: what it sends has no handler yet.
fn with_telling(
    alloc: Global,
    handler: &Option<Name>,
    v: Visit,
    told: Option<Sent>,
) -> Result<Settled, NoMemory>
    requires { All spec.IsPlain v.outbox }
    ensures { IfOk result (λ s. s ≡ spec.with_telling handler.now v told) }
{
    match handled_by(alloc, handler, &told) {
        Ok(handled) => told_visit(alloc, handler, v, told, handled),
        Err(NoMemory) => {
            drop(v);
            drop(told);
            Err(NoMemory)
        }
    }
}

/// Settles the visit of a packet by its parts. Conditions: those of `settle`.
#[tactic(auto, unfolding(crate::specs::Settles::visit_settled))]
fn settle_parts(alloc: Global, p: &CheckedPacket, v: Visit, ctx: &Ctx) -> Result<Settled, NoMemory>
    requires plain { All spec.IsPlain v.outbox }
    requires left { v.left ≤ 65535 }
    ensures { IfOk result (λ s. s ≡ spec.visit_settled p.now ctx.entry.now v) }
{
    match telling_of(alloc, p, ctx, v.left, &v.outcome) {
        Ok(told) => with_telling(alloc, p.handler(), v, told),
        Err(NoMemory) => {
            drop(v);
            Err(NoMemory)
        }
    }
}

/// The same, where the visit of a packet without a handler is settled as it is.
#[tactic(auto, using(crate::proofs::Sends::settled_alone))]
fn settle_by(alloc: Global, p: &CheckedPacket, v: Visit, ctx: &Ctx) -> Result<Settled, NoMemory>
    requires plain { All spec.IsPlain v.outbox }
    requires left { v.left ≤ 65535 }
    ensures { IfOk result (λ s. s ≡ spec.visit_settled p.now ctx.entry.now v) }
{
    let Some(_) = p.handler() else {
        return Ok(Settled {
            visit: v,
            handled: None,
        });
    };
    settle_parts(alloc, p, v, ctx)
}

/// Settles the visit of a packet: what it sends has the packet's handler where its own code has such a function, and where the
/// visit gave no value, that handler is called at the source with the exception's name, or with `WorkSpent`, by a packet
/// that is sent last and has all that was left. That is so where the packet has a handler, something is left, and the
/// source is this host or has a route; `handled` then names it.
///
/// Conditions: nothing that the visit sends has a handler, at most 65,535 is left, and the source of the surroundings is the
/// family's host. What was paid, is left and is sent is the same in sum (docs/language/meaning.md).
pub fn settle(alloc: Global, p: &CheckedPacket, v: Visit, ctx: &Ctx) -> Result<Settled, NoMemory>
    requires plain { All spec.IsPlain v.outbox }
    requires left { v.left ≤ 65535 }
    requires source { ctx.now.source ≡ p.now.family.source }
    ensures settled { IfOk result (λ s. s ≡ spec.visit_settled p.now ctx.entry.now v) }
    ensures balance { IfOk result (λ s. s.visit.evals + s.visit.left + bounds s.visit.outbox ≡
        v.evals + v.left + bounds v.outbox) }
{
    settle_by(alloc, p, v, ctx)
}
