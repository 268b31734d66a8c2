//! Frames whose chunk is typed, and how they are read.
ghost use Rattle.plan_types_spec.specs.Handlers.{is_handler as handles_by, MayHandle};
ghost use Rattle.std.specs.Prelude.{◌≡◌, ◌⊎◌, ◌≤◌, true, None, Some, IfOk, IfErr, MatchResult};
ghost use Rattle.plan_types_spec.specs.Typing.{IsTypedChunk};
ghost use Rattle.plan_types_chunks.specs.Chunks.{illness};
ghost use Rattle.plan_types_chunks.specs.declared.fault.Ill.{Ill as Wrong};
ghost use Rattle.chunk_codec_spec.specs.Spelling.{a_whole_chunk};
ghost use Rattle.packet_frame.specs.Forms.{FrameFits};
ghost use Rattle.packet_frame.specs.Typed.{plain_of, CarriesTyped, CarriesHandler, CarriesIll, CarriesNoHandler, Accepts, FrameFirst};
ghost use Rattle.packet_frame.specs.declared.frame.PlainFrame.{PlainFrame as Plain};
ghost use Rattle.packet_frame.specs.declared.frame.PlainStamped.{PlainStamped as PlainOne};
ghost use Rattle.packet_frame.specs.Stamped.{stamped_plain, AcceptsBy, StampedFirst};
ghost use Rattle.plan_base.specs.declared.stamp.Version.TheVariants.{Two};

use crate::fault::FrameFault;
use crate::frame::{PlainFrame, PlainStamped};
use crate::get::get_plain_frame;
use crate::get_stamped::get_plain_stamped;
use checked_chunks::{Checked, CheckedChunk, CheckedPacket, is_handler};
use plan_base::{Chunk, Name, Packet, Stamp};
use plan_types_chunks::{ChunkFault, check_chunk};
use service_api::Advert;
use std::alloc::Global;

/// A frame whose chunk is typed.
#[derive(Drop)]
pub enum Frame {
    /// A packet on its way.
    Packet(CheckedPacket),
    /// The routes of a neighbour.
    Advert(Advert),
    /// A bound, and a chunk to be injected with it.
    Ask(u32, CheckedChunk),
}

/// A frame whose chunk is typed, with its stamp.
#[derive(Drop)]
pub struct Stamped {
    /// Its stamp: there under version 2, and not under version 1.
    pub stamp: Option<Stamp>,
    /// The frame.
    pub frame: Frame,
}

/// A chunk that was read, where it is typed.
fn typed_chunk(
    alloc: Global,
    chunk: Chunk,
    known: Option<&Checked>,
) -> Result<CheckedChunk, FrameFault>
    requires { a_whole_chunk.Fits chunk }
    ensures found { IfOk result (λ k. (k ≡ chunk) × IsTypedChunk chunk) }
    ensures only { IsTypedChunk chunk → MatchResult result (λ k. k ≡ chunk)
        (λ e. e ≡ FrameFault.NoMemory) }
    ensures fault { IfErr result (λ e. (e ≡ FrameFault.NoMemory) ⊎
        ((i : Wrong) × (illness chunk ≡ Some i) × (e ≡ FrameFault.IllTyped i))) }
{
    match check_chunk(alloc, chunk, known) {
        Ok(k) => Ok(k),
        Err(ChunkFault::Ill(ill)) => Err(FrameFault::IllTyped(ill)),
        Err(_) => Err(FrameFault::NoMemory),
    }
}

/// A packet with the handler of this name, where that may handle.
fn with_named_handler(packet: CheckedPacket, name: Name) -> Result<CheckedPacket, FrameFault>
    ensures found { IfOk result (λ k. (k ≡ record packet { handler = Some name }) ×
        (handles_by packet.chunk.code name ≡ true)) }
    ensures only { handles_by packet.chunk.code name ≡ true → IfErr result (λ e. ⊥) }
    ensures fault { IfErr result (λ e. (handles_by packet.chunk.code name ≡ true → ⊥) ×
        (e ≡ FrameFault.IllHandler)) }
{
    if !is_handler(packet.chunk().chunk().code.get(), &name) {
        return Err(FrameFault::IllHandler);
    }
    Ok(packet.handled_by(name))
}

/// A packet without a handler, with the handler that was read, where that may handle.
fn with_handler(packet: CheckedPacket, handler: Option<Name>) -> Result<CheckedPacket, FrameFault>
    requires { packet.handler ≡ None }
    ensures found { IfOk result (λ k. (k ≡ record packet { handler = handler }) × MayHandle
        packet.chunk handler) }
    ensures only { MayHandle packet.chunk handler → IfErr result (λ e. ⊥) }
    ensures fault { IfErr result (λ e. (MayHandle packet.chunk handler → ⊥) ×
        (e ≡ FrameFault.IllHandler)) }
{
    match handler {
        None => Ok(packet),
        Some(name) => with_named_handler(packet, name),
    }
}

/// A packet that was read, where its chunk is typed and its handler may handle.
fn checked_packet(
    alloc: Global,
    p: Packet,
    known: Option<&Checked>,
) -> Result<CheckedPacket, FrameFault>
    requires fits { a_whole_chunk.Fits p.chunk }
    requires bound { p.bound ≤ 65535 }
    ensures found { IfOk result (λ k. (k ≡ p) × (IsTypedChunk p.chunk × MayHandle
        p.chunk p.handler)) }
    ensures only { IsTypedChunk p.chunk → MayHandle p.chunk p.handler → MatchResult result
        (λ k. k ≡ p) (λ e. e ≡ FrameFault.NoMemory) }
    ensures fault { IfErr result (λ e. (e ≡ FrameFault.NoMemory) ⊎
        (((i : Wrong) × (illness p.chunk ≡ Some i) × (e ≡ FrameFault.IllTyped i)) ⊎
        (IsTypedChunk p.chunk × ((MayHandle p.chunk p.handler → ⊥) ×
        (e ≡ FrameFault.IllHandler))))) }
{
    let Packet {
        family,
        dest,
        bound,
        route,
        chunk,
        handler,
    } = p;
    match typed_chunk(alloc, chunk, known) {
        Ok(chunk) => with_handler(
            CheckedPacket::of(family, dest, bound, route, chunk),
            handler,
        ),
        Err(fault) => Err(fault),
    }
}

/// A frame that was read, where its chunk is typed and its handler may handle.
fn checked_frame(
    alloc: Global,
    plain: PlainFrame,
    known: Option<&Checked>,
) -> Result<Frame, FrameFault>
    requires { FrameFits plain }
    ensures found { IfOk result (λ x. (plain_of x ≡ plain) ×
        (CarriesTyped plain × CarriesHandler plain)) }
    ensures only { CarriesTyped plain → CarriesHandler plain → MatchResult result
        (λ x. plain_of x ≡ plain) (λ e. e ≡ FrameFault.NoMemory) }
    ensures fault { IfErr result (λ e. (e ≡ FrameFault.NoMemory) ⊎
        (CarriesIll plain e ⊎ CarriesNoHandler plain e)) }
{
    match plain {
        PlainFrame::Packet(p) => match checked_packet(alloc, p, known) {
            Ok(packet) => Ok(Frame::Packet(packet)),
            Err(fault) => Err(fault),
        },
        PlainFrame::Advert(a) => Ok(Frame::Advert(a)),
        PlainFrame::Ask(bound, chunk) => match typed_chunk(alloc, chunk, known) {
            Ok(chunk) => Ok(Frame::Ask(bound, chunk)),
            Err(fault) => Err(fault),
        },
    }
}

/// Reads a frame.
///
/// Ok exactly where all the bytes, at most 16,512, are its spelling and its chunk is typed; otherwise the first fault:
/// that of the spelling, and then what is wrong with the chunk's types. Code that is the same as a `known` program isn't
/// checked again, which changes no answer.
pub fn get_frame(alloc: Global, bytes: &[u8], known: Option<&Checked>) -> Result<Frame, FrameFault>
    ensures found { IfOk result (λ x. Accepts bytes.now (plain_of x)) }
    ensures only { (x : Plain) → Accepts bytes.now x → MatchResult result (λ y. plain_of y ≡ x)
        (λ e. e ≡ FrameFault.NoMemory) }
    ensures fault { IfErr result (λ e. (e ≡ FrameFault.NoMemory) ⊎ FrameFirst e bytes.now) }
{
    match get_plain_frame(alloc, bytes) {
        Ok(plain) => checked_frame(alloc, plain, known),
        Err(fault) => Err(fault),
    }
}

/// A frame of version 2 that was read, where its chunk is typed and its handler may handle.
fn checked_stamped(
    alloc: Global,
    plain: PlainStamped,
    known: Option<&Checked>,
) -> Result<Stamped, FrameFault>
    requires { FrameFits plain.frame }
    ensures found { IfOk result (λ x. (stamped_plain x ≡ plain) ×
        (CarriesTyped plain.frame × CarriesHandler plain.frame)) }
    ensures only { CarriesTyped plain.frame → CarriesHandler plain.frame → MatchResult result
        (λ x. stamped_plain x ≡ plain) (λ e. e ≡ FrameFault.NoMemory) }
    ensures fault { IfErr result (λ e. (e ≡ FrameFault.NoMemory) ⊎
        (CarriesIll plain.frame e ⊎ CarriesNoHandler plain.frame e)) }
{
    let PlainStamped { stamp, frame } = plain;
    match checked_frame(alloc, frame, known) {
        Ok(frame) => Ok(Stamped { stamp, frame }),
        Err(fault) => Err(fault),
    }
}

/// Reads a frame as a node of version 2 does.
///
/// Ok exactly where all the bytes, at most 16,512, are its spelling, its chunk is typed, and the code of that chunk has the
/// function that its handler names, if any, which may handle; otherwise the first fault.
pub fn get_frame2(
    alloc: Global,
    bytes: &[u8],
    known: Option<&Checked>,
) -> Result<Stamped, FrameFault>
    ensures found { IfOk result (λ x. AcceptsBy Two bytes.now (stamped_plain x)) }
    ensures only { (x : PlainOne) → AcceptsBy Two bytes.now x → MatchResult result
        (λ y. stamped_plain y ≡ x) (λ e. e ≡ FrameFault.NoMemory) }
    ensures fault { IfErr result (λ e. (e ≡ FrameFault.NoMemory) ⊎ StampedFirst e bytes.now) }
{
    match get_plain_stamped(alloc, bytes) {
        Ok(plain) => checked_stamped(alloc, plain, known),
        Err(fault) => Err(fault),
    }
}
