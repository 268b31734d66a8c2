//! A frame on its way, as it is kept and as it is spelled.
ghost use Rattle.std.specs.Prelude.{◌≡◌, ◌≢◌, ◌≤◌, ◌↔◌, IsTrue, IfOk, MatchOption, None};
ghost use Rattle.plan_types_spec.specs.Handlers.{MayHandle};
ghost use Rattle.service_api.specs.Adverts.{AdvertFits};
ghost use Rattle.packet_frame.specs.declared.frame.PlainFrame.{PlainFrame};
ghost use Rattle.packet_frame.specs.Stamped.{AcceptsBy};
ghost use Rattle.packet_frame.specs.Typed.{plain_of};
ghost use Rattle.packet_frame.specs.Spelled as spec;
ghost use Rattle.packet_frame.specs.Spelled.{MayCarry, MayLeave};

use crate::checked::Frame;
use crate::put::{put_advert, put_packet};
use crate::put_stamped::{put_advert2, put_packet2};
use checked_chunks::{CheckedChunk, CheckedPacket};
use containers::Shared;
use plan_base::{Bytes, Family, Name, NoMemory, Stamp, Version};
use plan_base_copy::copy_handler;
use service_api::Advert;
use std::alloc::Global;
use std::marker::Model;

/// What a frame on its way holds.
#[derive(Clone, Copy)]
pub enum What {
    /// A packet of this family with this bound.
    Packet(Family, u32),
    /// An advert.
    Advert,
}

/// A packet with a typed chunk or an advert, with its stamp, whose bytes are spelled where they are wanted. Contracts see
/// it as that frame.
pub struct EncodedFrame {
    stamp: Option<Stamp>,
    frame: Shared<Frame>,
}

// (with its own `Drop`, so that what drops one need not prove again how a packet is dropped)
impl Drop for EncodedFrame {
    fn drop(self) {
        let EncodedFrame {
            stamp: _stamp,
            frame: _frame,
        } = self;
    }
}

impl Model for EncodedFrame {
    ghost use Rattle.packet_frame.specs.declared.frame.PlainStamped.{PlainStamped};
    ghost use Rattle.packet_frame.specs.contracts.frame.PlainStamped as whole;
    ghost use Rattle.packet_frame.specs.Typed.{plain_of};
    ghost use Rattle.packet_frame.specs.Spelled.{MayLeave};

    ghost Value = { PlainStamped };

    ghost coded = { whole.the_row.coded };

    ghost view = { λ s. record { stamp = s.stamp; frame = plain_of s.frame } };

    ghost invariant = { λ s. MayLeave s.stamp (plain_of s.frame) };
}

/// The version of the frames that bear this stamp, or none. Takes no memory.
fn version_of(mark: Option<Stamp>) -> Version
    ensures { result ≡ spec.version_of mark }
{
    match mark {
        None => Version::One,
        Some(_) => Version::Two,
    }
}

/// The bytes of a packet's frame.
#[tactic(auto, using(crate::proofs::Reading::one_accepted, crate::proofs::Reading::two_accepted))]
fn packet_bytes(
    alloc: Global,
    packet: &CheckedPacket,
    mark: Option<Stamp>,
) -> Result<Bytes, NoMemory>
    requires { MayCarry mark packet.now.handler }
    ensures { IfOk result (λ b. AcceptsBy (spec.version_of mark) b
        (record { stamp = mark; frame = PlainFrame.Packet packet.now })) }
{
    // The chunk of a checked packet is typed, and its handler may handle.
    let _typed = packet.chunk();
    let _handler = packet.handler();
    match mark {
        None => put_packet(alloc, packet, packet.bound()),
        Some(stamp) => put_packet2(alloc, packet, packet.bound(), stamp),
    }
}

/// The bytes of an advert's frame.
#[tactic(auto, using(crate::proofs::Reading::one_accepted, crate::proofs::Reading::two_accepted))]
fn advert_bytes(alloc: Global, advert: &Advert, mark: Option<Stamp>) -> Result<Bytes, NoMemory>
    requires { AdvertFits advert.now }
    ensures { IfOk result (λ b. AcceptsBy (spec.version_of mark) b
        (record { stamp = mark; frame = PlainFrame.Advert advert.now })) }
{
    match mark {
        None => put_advert(alloc, advert),
        Some(stamp) => put_advert2(alloc, advert, stamp),
    }
}

/// The packet with this handler, if there is one. Conditions: it has none, and the handler may handle. Takes no memory.
pub fn with_handler(packet: CheckedPacket, handler: Option<Name>) -> CheckedPacket
    requires plain { packet.handler ≡ None }
    requires handler { MayHandle packet.chunk handler }
    ensures { result ≡ record packet { handler = handler } }
{
    match handler {
        None => packet,
        Some(name) => packet.handled_by(name),
    }
}

/// The packet with this chunk in place of its own and no handler, copied but for the chunk.
fn bare_copy(
    alloc: Global,
    packet: &CheckedPacket,
    chunk: CheckedChunk,
) -> Result<CheckedPacket, NoMemory>
    ensures { IfOk result (λ p. p ≡ record packet.now { chunk = chunk; handler = None }) }
{
    let route = packet.route().copy(alloc)?;
    let (family, dest, bound) = (packet.family(), packet.dest(), packet.bound());
    Ok(CheckedPacket::of(family, dest, bound, route, chunk))
}

/// The same packet.
pub fn copy_packet(alloc: Global, packet: &CheckedPacket) -> Result<CheckedPacket, NoMemory>
    ensures { IfOk result (λ p. p ≡ packet.now) }
{
    let handler = copy_handler(alloc, packet.handler())?;
    let chunk = packet.chunk().copy(alloc)?;
    match bare_copy(alloc, packet, chunk) {
        Ok(bare) => Ok(with_handler(bare, handler)),
        Err(fault) => Err(fault),
    }
}

/// Whether this is the same version.
fn is_same(a: Version, b: Version) -> bool
    ensures { IsTrue result ↔ (a ≡ b) }
{
    match a {
        Version::One => match b {
            Version::One => true,
            Version::Two => false,
        },
        Version::Two => match b {
            Version::One => false,
            Version::Two => true,
        },
    }
}

/// A stamp, where there is one, with this number.
fn stamp_with(link: u64, stamp: Option<Stamp>) -> Option<Stamp>
    ensures { result ≡ spec.stamp_with link stamp }
{
    match stamp {
        None => None,
        Some(s) => Some(Stamp { boot: s.boot, link }),
    }
}

impl EncodedFrame {
    /// The frame of a packet with another bound and this stamp, under version 2, or with none, under version 1. Conditions:
    /// the bound is at most 65,535, and without a stamp the packet has no handler.
    pub fn of_packet(
        alloc: Global,
        packet: CheckedPacket,
        bound: u32,
        mark: Option<Stamp>,
    ) -> Result<EncodedFrame, NoMemory>
        requires bound { bound ≤ 65535 }
        requires handler { MayCarry mark packet.handler }
        ensures { IfOk result (λ s. s ≡ spec.packet_frame mark packet bound) }
    {
        let frame = Shared::new(alloc, Frame::Packet(packet.with_bound(bound)))?;
        Ok(EncodedFrame { stamp: mark, frame })
    }

    /// The frame of an advert with this stamp, under version 2, or with none, under version 1. Condition: the advert keeps its
    /// limits.
    pub fn of_advert(
        alloc: Global,
        advert: Advert,
        mark: Option<Stamp>,
    ) -> Result<EncodedFrame, NoMemory>
        requires { AdvertFits advert }
        ensures { IfOk result (λ s. s ≡ record { stamp = mark; frame = PlainFrame.Advert advert }) }
    {
        let frame = Shared::new(alloc, Frame::Advert(advert))?;
        Ok(EncodedFrame { stamp: mark, frame })
    }

    /// The same frame, of which both are owners. Takes no memory, and fails only where the count of owners is full.
    pub fn share(&self) -> Result<EncodedFrame, NoMemory>
        ensures { IfOk result (λ s. s ≡ self.now) }
    {
        Ok(EncodedFrame {
            stamp: self.stamp,
            frame: self.frame.share()?,
        })
    }

    /// What it holds. Takes no memory.
    pub fn what(&self) -> What
        ensures { result ≡ spec.what_of self.now.frame }
    {
        match self.frame.get() {
            Frame::Packet(packet) => What::Packet(packet.family(), packet.bound()),
            _ => What::Advert,
        }
    }

    /// Its stamp, where it bears one. Takes no memory.
    pub fn stamp(&self) -> Option<Stamp>
        ensures { result ≡ self.now.stamp }
    {
        self.stamp
    }

    /// The frame itself, where its bytes are read by this version. Takes no memory.
    pub fn frame(&self, version: Version) -> Option<&Frame>
        ensures frame { MatchOption result (version ≢ spec.version_of self.now.stamp)
            (λ x. (plain_of x.now ≡ self.now.frame) × (version ≡ spec.version_of self.now.stamp)) }
        ensures leaves { MayLeave self.now.stamp self.now.frame }
    {
        if is_same(version, self.version()) {
            Some(self.frame.get())
        } else {
            None
        }
    }

    /// Whether it bears a stamp. Takes no memory.
    pub fn is_stamped(&self) -> bool
        ensures { result ≡ spec.is_stamped self.now.stamp }
    {
        match self.stamp {
            None => false,
            Some(_) => true,
        }
    }

    /// The version that its bytes are read by: the second where it bears a stamp. Takes no memory.
    pub fn version(&self) -> Version
        ensures { result ≡ spec.version_of self.now.stamp }
    {
        version_of(self.stamp)
    }

    /// The bytes of the frame, at most 16,512.
    pub fn to_bytes(&self, alloc: Global) -> Result<Bytes, NoMemory>
        ensures { IfOk result (λ b. AcceptsBy (spec.version_of self.now.stamp) b self.now) }
    {
        match self.frame.get() {
            Frame::Packet(packet) => packet_bytes(alloc, packet, self.stamp),
            Frame::Advert(advert) => advert_bytes(alloc, advert, self.stamp),
            Frame::Ask(_, _) => unreachable!(),
        }
    }

    /// The frame with this number, where it bears a stamp. Takes no memory.
    pub fn with_number(self, link: u64) -> EncodedFrame
        ensures { result ≡ spec.numbered_frame link self }
    {
        let EncodedFrame { stamp, frame } = self;
        EncodedFrame {
            stamp: stamp_with(link, stamp),
            frame,
        }
    }
}
