//! The packet that reports to the source why a visit gave no value.
ghost use Rattle.std.specs.Prelude.{◌≡◌, ◌≤◌, ◌∷◌, [], length, codes, true, IfOk, IfSome, None, Some};
ghost use Rattle.std.specs.Str.{is_utf8};
ghost use Rattle.plan_base.specs.declared.tree.Value.TheVariants as value;
ghost use Rattle.plan_base.specs.Words.{IsName};
ghost use Rattle.checked_chunks.specs.Kept.{IsCheckedChunk};
ghost use Rattle.service_api.specs.Routes.{hop, default_route};
ghost use Rattle.plan_types_spec.specs.Handlers.{is_handler};
ghost use Rattle.plan_eval_settle.specs.Settles as spec;

use checked_chunks::{CheckedChunk, CheckedPacket};
use containers::Items;
use plan_base::{Chunk, Dev, Name, NoMemory, Text, Value, Values};
use plan_meaning::{Outcome, Sent};
use remote_calls::default_route;
use service_api::{Ctx, Hop};
use std::alloc::Global;

/// A reason as a text. Condition: it is a name.
#[tactic(auto, using(plan_base::proofs::WordLaws::is_name_within, crate::proofs::Handlers::name_utf8))]
fn reason_text(alloc: Global, name: &[u8]) -> Result<Text, NoMemory>
    requires { IsName name.now }
    ensures is { IfOk result (λ t. t ≡ name.now) }
    ensures utf8 { IfOk result (λ t. is_utf8 t ≡ true) }
    ensures short { IfOk result (λ t. length t ≤ 32) }
{
    Ok(Text::of(Vec::from_slice(alloc, name)?))
}

/// The reason of a visit whose work was spent.
#[tactic(auto, unfolding(plan_base::specs::Words::is_name, plan_base::specs::Words::is_word, plan_base::specs::Words::is_reserved))]
fn work_spent(alloc: Global) -> Result<Text, NoMemory>
    ensures is { IfOk result (λ t. t ≡ codes "WorkSpent") }
    ensures utf8 { IfOk result (λ t. is_utf8 t ≡ true) }
    ensures short { IfOk result (λ t. length t ≤ 32) }
{
    reason_text(alloc, b"WorkSpent")
}

/// Why a visit gave no value: a text of at most 32 bytes.
fn reason_of(alloc: Global, outcome: &Outcome) -> Result<Option<Text>, NoMemory>
    ensures is { IfOk result (λ r. r ≡ spec.reason_of outcome.now) }
    ensures utf8 { IfOk result (λ r. IfSome r (λ t. is_utf8 t ≡ true)) }
    ensures short { IfOk result (λ r. IfSome r (λ t. length t ≤ 32)) }
{
    match outcome {
        Outcome::Value(_) => Ok(None),
        Outcome::Raised(x) => Ok(Some(reason_text(alloc, x.0.as_slice())?)),
        Outcome::WorkSpent => Ok(Some(work_spent(alloc)?)),
    }
}

/// A reason as the one argument of a handler.
fn reason_args(alloc: Global, reason: Text) -> Result<Values, NoMemory>
    ensures { IfOk result (λ args. args ≡ value.Str reason ∷ []) }
{
    let mut args = Items::new(alloc);
    args.add(Value::Str(reason))?;
    Ok(args)
}

/// The call of a handler of that code.
fn handler_call(
    alloc: Global,
    chunk: &CheckedChunk,
    name: &Name,
    args: Values,
) -> Result<Chunk, NoMemory>
    ensures call { IfOk result (λ k. k ≡ record {
      code = chunk.now.code;
      entry = name.now;
      args = args;
    }) }
    ensures kept { IsCheckedChunk chunk.now }
    ensures named { IsName name.now }
{
    let word = name.as_slice();
    let code = chunk.chunk().code.share()?;
    let entry = Name::of(alloc, word)?;
    Ok(Chunk { code, entry, args })
}

/// The call of a handler with a reason, which isn't checked again. Conditions: the code has such a handler, and the reason is a
/// text of at most 32 bytes.
#[tactic(auto, using(crate::proofs::Handlers::handler_checked))]
fn handler_chunk(
    alloc: Global,
    chunk: &CheckedChunk,
    name: &Name,
    reason: Text,
) -> Result<CheckedChunk, NoMemory>
    requires handler { is_handler chunk.now.code name.now ≡ true }
    requires utf8 { is_utf8 reason ≡ true }
    requires short { length reason ≤ 32 }
    ensures { IfOk result (λ k. k ≡ spec.handler_chunk chunk.now name.now reason) }
{
    let args = reason_args(alloc, reason)?;
    let call = handler_call(alloc, chunk, name, args)?;
    Ok(CheckedChunk::of(call))
}

/// The packet to the source with that chunk. Condition: at most 65,535 is left.
fn packet_home(
    alloc: Global,
    p: &CheckedPacket,
    left: u32,
    chunk: CheckedChunk,
) -> Result<CheckedPacket, NoMemory>
    requires { left ≤ 65535 }
    ensures { IfOk result (λ q. q ≡ record {
      family = p.now.family;
      dest = p.now.family.source;
      bound = left;
      route = default_route;
      chunk = chunk;
      handler = None;
    }) }
{
    let route = default_route(alloc)?;
    let family = p.family();
    let packet = CheckedPacket::of(family, family.source, left, route, chunk);
    Ok(packet)
}

/// The packet that reports to the source, by a device. Conditions: those of `handler_chunk`, and that at most 65,535 is left.
fn telling_on(
    alloc: Global,
    p: &CheckedPacket,
    name: &Name,
    reason: Text,
    left: u32,
    dev: Dev,
) -> Result<Option<Sent>, NoMemory>
    requires handler { is_handler p.now.chunk.code name.now ≡ true }
    requires utf8 { is_utf8 reason ≡ true }
    requires short { length reason ≤ 32 }
    requires left { left ≤ 65535 }
    ensures { IfOk result (λ t. t ≡ Some (spec.telling p.now name.now reason left dev)) }
{
    let chunk = handler_chunk(alloc, p.chunk(), name, reason)?;
    let packet = packet_home(alloc, p, left, chunk)?;
    Ok(Some(Sent { dev, packet }))
}

/// The packet that reports to the source, on a hop. Conditions: those of `handler_chunk`, and that at most 65,535 is left.
fn telling_over(
    alloc: Global,
    p: &CheckedPacket,
    name: &Name,
    reason: Text,
    left: u32,
    hop: Hop,
) -> Result<Option<Sent>, NoMemory>
    requires handler { is_handler p.now.chunk.code name.now ≡ true }
    requires utf8 { is_utf8 reason ≡ true }
    requires short { length reason ≤ 32 }
    requires left { left ≤ 65535 }
    ensures { IfOk result (λ t. t ≡ spec.telling_over p.now name.now reason left hop) }
{
    match hop {
        Hop::To(_, dev) => telling_on(alloc, p, name, reason, left, dev),
        _ => {
            drop(reason);
            Ok(None)
        }
    }
}

/// The hop to the source.
fn hop_home(alloc: Global, p: &CheckedPacket, ctx: &Ctx) -> Result<Hop, NoMemory>
    ensures { IfOk result (λ h. h ≡ hop ctx.entry.now.router default_route ctx.entry.now.here
        p.now.family.source) }
{
    let route = default_route(alloc)?;
    Ok(ctx.router.next(&route, ctx.here, p.family().source))
}

/// The packet that reports that reason to the source. Conditions: those of `handler_chunk`, and that at most 65,535 is left.
fn telling_reason(
    alloc: Global,
    p: &CheckedPacket,
    name: &Name,
    ctx: &Ctx,
    left: u32,
    reason: Text,
) -> Result<Option<Sent>, NoMemory>
    requires handler { is_handler p.now.chunk.code name.now ≡ true }
    requires utf8 { is_utf8 reason ≡ true }
    requires short { length reason ≤ 32 }
    requires left { left ≤ 65535 }
    ensures { IfOk result (λ t. t ≡ spec.telling_why p.now name.now ctx.entry.now left
        (Some reason)) }
{
    if left == 0 {
        drop(reason);
        return Ok(None);
    }
    match hop_home(alloc, p, ctx) {
        Ok(hop) => telling_over(alloc, p, name, reason, left, hop),
        Err(NoMemory) => {
            drop(reason);
            Err(NoMemory)
        }
    }
}

/// The packet that reports to the source by that handler. Conditions: the packet's code has it, and at most 65,535 is left.
fn telling_why(
    alloc: Global,
    p: &CheckedPacket,
    name: &Name,
    ctx: &Ctx,
    left: u32,
    outcome: &Outcome,
) -> Result<Option<Sent>, NoMemory>
    requires handler { is_handler p.now.chunk.code name.now ≡ true }
    requires left { left ≤ 65535 }
    ensures { IfOk result (λ t. t ≡ spec.telling_why p.now name.now ctx.entry.now left
        (spec.reason_of outcome.now)) }
{
    match reason_of(alloc, outcome)? {
        Some(reason) => telling_reason(alloc, p, name, ctx, left, reason),
        None => Ok(None),
    }
}

/// The packet that reports a visit without a value to the source, if there is one: where the packet has a handler, something is
/// left, and the source is this host or has a route. Condition: at most 65,535 is left.
pub fn telling_of(
    alloc: Global,
    p: &CheckedPacket,
    ctx: &Ctx,
    left: u32,
    outcome: &Outcome,
) -> Result<Option<Sent>, NoMemory>
    requires { left ≤ 65535 }
    ensures { IfOk result (λ t. t ≡ spec.telling_by p.now p.now.handler ctx.entry.now left
        outcome.now) }
{
    let Some(name) = p.handler() else {
        return Ok(None);
    };
    // (its bytes are a name, which the definition tests)
    let _is_name = name.as_slice();
    telling_why(alloc, p, name, ctx, left, outcome)
}
