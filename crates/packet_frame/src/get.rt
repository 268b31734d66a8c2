//! Reads the fields of frames of version 1.
ghost use Rattle.std.specs.Prelude.{◌≡◌, ◌⊎◌, ◌≤◌, length, IfOk, IfErr, MatchResult};
ghost use Rattle.std.specs.Int.{w32, w64};
ghost use Rattle.wire_bytes.specs.Fields.{IsBytes};
ghost use Rattle.packet_frame.specs.Fields.{number, magic_at, version_at, kind_at, bound_at, route_at, carried_at, count_at, row_host_at, cost_at, rows_from, rows_at};
ghost use Rattle.packet_frame.specs.Forms.{reads, forms, frame_of_fields, frame_at};
ghost use Rattle.packet_frame.specs.declared.kind.Kind.{Kind as TheKind};
ghost use Rattle.packet_frame.specs.Frames.{SpellsFrame, SpellingFault, begins};
ghost use Rattle.chunk_codec_spec.specs.Spelling.{from_front};
ghost use Rattle.packet_frame.specs.Reading.{Gives};
ghost use Rattle.packet_frame.specs.declared.frame.PlainFrame.{PlainFrame as Plain};

use crate::fault::FrameFault;
use crate::frame::PlainFrame;
use crate::kind::Kind;
use chunk_codec::{get_chunk, get_name};
use chunk_codec_spec::SpellFault;
use containers::Items;
use plan_base::{Chunk, Family, Host, Limit, Name, Packet};
use service_api::{Advert, AdvertRow, AdvertRows};
use std::alloc::Global;
use wire_bytes::Cursor;

/// A number of four bytes.
#[tactic(auto, unfolding(chunk_codec_spec::specs::Scan::number_field))]
pub fn word_of(c: &mut Cursor<'_>) -> Result<u32, FrameFault>
    ensures { Gives result c.new (number w32 (from_front c.old)) }
{
    Ok(c.u32()?)
}

/// A number of eight bytes.
#[tactic(auto, unfolding(chunk_codec_spec::specs::Scan::number_field))]
pub fn serial_of(c: &mut Cursor<'_>) -> Result<u64, FrameFault>
    ensures { Gives result c.new (number w64 (from_front c.old)) }
{
    Ok(c.u64()?)
}

/// The letters PLAN.
#[tactic(auto, unfolding(crate::specs::Fields::magic_at))]
pub fn magic_of(c: &mut Cursor<'_>) -> Result<u32, FrameFault>
    ensures { Gives result c.new (magic_at (from_front c.old)) }
{
    let number = word_of(c)?;
    if number != 0x504c_414e {
        return Err(FrameFault::BadMagic);
    }
    Ok(number)
}

/// The version, which is 1.
#[tactic(auto, unfolding(crate::specs::Fields::version_at, chunk_codec_spec::specs::Scan::number_field))]
fn version_of(c: &mut Cursor<'_>) -> Result<u8, FrameFault>
    ensures { Gives result c.new (version_at (from_front c.old)) }
{
    let number = c.u8()?;
    if number != 1 {
        return Err(FrameFault::BadVersion);
    }
    Ok(number)
}

/// The kind.
#[tactic(auto, unfolding(crate::specs::Fields::kind_at, chunk_codec_spec::specs::Scan::number_field))]
fn kind_of(c: &mut Cursor<'_>) -> Result<Kind, FrameFault>
    ensures { Gives result c.new (kind_at (from_front c.old)) }
{
    match c.u8()? {
        1 => Ok(Kind::Packet),
        2 => Ok(Kind::Advert),
        3 => Ok(Kind::Ask),
        _ => Err(FrameFault::BadKind),
    }
}

/// A bound.
#[tactic(auto, unfolding(crate::specs::Fields::bound_at))]
pub fn bound_of(c: &mut Cursor<'_>) -> Result<u32, FrameFault>
    ensures { Gives result c.new (bound_at (from_front c.old)) }
{
    let bound = word_of(c)?;
    if bound > 65535 {
        return Err(FrameFault::BoundTooLarge);
    }
    Ok(bound)
}

/// The name of a routing function.
pub fn route_of(alloc: Global, c: &mut Cursor<'_>) -> Result<Name, FrameFault>
    ensures { Gives result c.new (route_at (from_front c.old)) }
{
    Ok(get_name(alloc, c)?)
}

/// The chunk that a frame carries.
pub fn chunk_of(alloc: Global, c: &mut Cursor<'_>) -> Result<Chunk, FrameFault>
    ensures { Gives result c.new (carried_at (from_front c.old)) }
{
    Ok(get_chunk(alloc, c)?)
}

/// A packet.
pub fn packet_of(alloc: Global, c: &mut Cursor<'_>) -> Result<PlainFrame, FrameFault>
    ensures { Gives result c.new (reads (forms TheKind.Packet) (frame_of_fields TheKind.Packet)
        (from_front c.old)) }
{
    let source = Host(word_of(c)?);
    let serial = serial_of(c)?;
    let dest = Host(word_of(c)?);
    let bound = bound_of(c)?;
    let route = route_of(alloc, c)?;
    match chunk_of(alloc, c) {
        Ok(chunk) => Ok(PlainFrame::Packet(Packet {
            family: Family { source, serial },
            dest,
            bound,
            route,
            chunk,
            handler: None,
        })),
        Err(fault) => Err(fault),
    }
}

/// How many rows an advert has.
#[tactic(auto, unfolding(crate::specs::Fields::count_at, chunk_codec_spec::specs::Scan::number_field))]
pub fn count_of(c: &mut Cursor<'_>) -> Result<u16, FrameFault>
    ensures { Gives result c.new (count_at (from_front c.old)) }
{
    let at = c.at();
    let count = c.u16()?;
    if count > 32 {
        return Err(FrameFault::Spell(SpellFault::OverLimit(Limit::Hosts, at)));
    }
    Ok(count)
}

/// The cost of a row.
#[tactic(auto, unfolding(crate::specs::Fields::cost_at))]
fn cost_of(c: &mut Cursor<'_>) -> Result<u32, FrameFault>
    ensures { Gives result c.new (cost_at (from_front c.old)) }
{
    let at = c.at();
    let cost = word_of(c)?;
    if cost > 65535 {
        return Err(FrameFault::Spell(SpellFault::OverLimit(Limit::Cost, at)));
    }
    Ok(cost)
}

/// The host of a row, above the one before.
#[tactic(auto, unfolding(crate::specs::Fields::row_host_at))]
fn row_host_of(c: &mut Cursor<'_>, before: Option<u32>) -> Result<u32, FrameFault>
    ensures { Gives result c.new (row_host_at before (from_front c.old)) }
{
    let at = c.at();
    let host = word_of(c)?;
    match before {
        None => Ok(host),
        Some(low) => {
            if low < host {
                Ok(host)
            } else {
                Err(FrameFault::BadOrder(at))
            }
        }
    }
}

/// So many rows, whose hosts are above `before` and ascend.
pub fn rows_of(alloc: Global, c: &mut Cursor<'_>, count: u16) -> Result<AdvertRows, FrameFault>
    ensures { Gives result c.new (rows_from None count (from_front c.old)) }
{
    let mut rows = Items::new(alloc);
    let mut before = None;
    for _i in 0..count {
        let host = row_host_of(c, before)?;
        let cost = cost_of(c)?;
        rows.add(AdvertRow {
            host: Host(host),
            cost,
        })?;
        before = Some(host);
    }
    Ok(rows)
}

/// An advert.
#[tactic(auto, unfolding(crate::specs::Fields::rows_at))]
pub fn advert_of(alloc: Global, c: &mut Cursor<'_>) -> Result<PlainFrame, FrameFault>
    ensures { Gives result c.new (reads (forms TheKind.Advert) (frame_of_fields TheKind.Advert)
        (from_front c.old)) }
{
    let host = Host(word_of(c)?);
    let count = count_of(c)?;
    let rows = rows_of(alloc, c, count)?;
    Ok(PlainFrame::Advert(Advert { host, rows }))
}

/// An ask.
pub fn ask_of(alloc: Global, c: &mut Cursor<'_>) -> Result<PlainFrame, FrameFault>
    ensures { Gives result c.new (reads (forms TheKind.Ask) (frame_of_fields TheKind.Ask)
        (from_front c.old)) }
{
    let bound = bound_of(c)?;
    match chunk_of(alloc, c) {
        Ok(chunk) => Ok(PlainFrame::Ask(bound, chunk)),
        Err(fault) => Err(fault),
    }
}

/// The form of a kind.
fn form_of(alloc: Global, c: &mut Cursor<'_>, kind: Kind) -> Result<PlainFrame, FrameFault>
    ensures { Gives result c.new (reads (forms kind) (frame_of_fields kind) (from_front c.old)) }
{
    match kind {
        Kind::Packet => packet_of(alloc, c),
        Kind::Advert => advert_of(alloc, c),
        Kind::Ask => ask_of(alloc, c),
    }
}

/// A frame, and what is behind it.
#[tactic(auto, unfolding(crate::specs::Forms::frame_at))]
fn frame_of(alloc: Global, c: &mut Cursor<'_>) -> Result<PlainFrame, FrameFault>
    ensures { Gives result c.new (frame_at (from_front c.old)) }
{
    magic_of(c)?;
    version_of(c)?;
    let kind = kind_of(c)?;
    form_of(alloc, c, kind)
}

/// A cursor at the first of the bytes, which are bytes.
pub fn first_of(bytes: &[u8]) -> Cursor<'_>
    requires { length bytes.now ≤ 16512 }
    ensures at { result.at ≡ 0 }
    ensures rest { result.rest ≡ bytes.now }
    ensures bytes { IsBytes bytes.now }
{
    Cursor::over(bytes)
}

/// Reads a frame whose chunk isn't checked.
///
/// Ok exactly where all the bytes, at most 16,512, are its spelling; otherwise the first fault.
pub fn get_plain_frame(alloc: Global, bytes: &[u8]) -> Result<PlainFrame, FrameFault>
    ensures found { IfOk result (λ x. SpellsFrame bytes.now x) }
    ensures only { (x : Plain) → SpellsFrame bytes.now x → MatchResult result (λ y. y ≡ x)
        (λ e. e ≡ FrameFault.NoMemory) }
    ensures fault { IfErr result (λ e. (e ≡ FrameFault.NoMemory) ⊎ SpellingFault e bytes.now) }
{
    if bytes.len() > 16512 {
        return Err(FrameFault::TooLong);
    }
    let mut c = first_of(bytes);
    let frame = frame_of(alloc, &mut c)?;
    let end = c.at();
    if (end as usize) < bytes.len() {
        drop(frame);
        return Err(FrameFault::Trailing(end));
    }
    Ok(frame)
}
