//! Makes the frames of visits and of adverts.
ghost use Rattle.std.specs.Prelude.{◌≡◌, map, All, IfOk};
ghost use Rattle.service_api.specs.Adverts.{AdvertFits};
ghost use Rattle.packet_frame.specs.Spelled.{MayCarry};
ghost use Rattle.node_core_spec.specs.Node as spec;
ghost use Rattle.node_core_parts.specs.Carried.{Carries};
ghost use Rattle.node_core_parts.specs.Leaving.{sending_of};

use crate::leaving::{Leavings, OutgoingFrame};
use checked_chunks::CheckedPacket;
use containers::Items;
use packet_frame::{EncodedFrame, copy_packet};
use plan_base::{Dev, Host, NoMemory, Stamp};
use plan_meaning::Outbox;
use service_api::Advert;
use std::alloc::Global;

/// The sending of a packet that is handed over. Condition: without a mark it has no handler.
#[tactic(auto, using(crate::proofs::LeavingLaws::packet_leaves))]
fn own_sending(
    alloc: Global,
    mark: Option<Stamp>,
    dev: Dev,
    packet: CheckedPacket,
) -> Result<OutgoingFrame, NoMemory>
    requires { MayCarry mark packet.handler }
    ensures { IfOk result (λ s. s ≡ spec.packet_sending mark
        (record { dev = dev; packet = packet })) }
{
    let bound = packet.bound();
    let left = bound.saturating_sub(1);
    let frame = EncodedFrame::of_packet(alloc, packet, left, mark)?;
    Ok(OutgoingFrame::of(dev, frame, bound))
}

/// The sending of a packet over a device: it goes on with 1 paid for the hop, or is dropped with the bound that was paid.
/// Condition: without a mark it has no handler.
#[tactic(auto, using(crate::proofs::LeavingLaws::copy_carries, crate::proofs::LeavingLaws::copy_leaves))]
pub fn packet_sending(
    alloc: Global,
    mark: Option<Stamp>,
    dev: Dev,
    packet: &CheckedPacket,
) -> Result<OutgoingFrame, NoMemory>
    requires { MayCarry mark packet.now.handler }
    ensures { IfOk result (λ s. s ≡ spec.packet_sending mark
        (record { dev = dev; packet = packet.now })) }
{
    let own = copy_packet(alloc, packet)?;
    own_sending(alloc, mark, dev, own)
}

/// The sendings of a visit. Condition: without a mark none has a handler.
#[tactic(auto, unfolding(node_core_spec::specs::Node::visit_sends))]
pub(crate) fn visit_sendings(
    alloc: Global,
    mark: Option<Stamp>,
    outbox: Outbox,
) -> Result<Leavings, NoMemory>
    requires { All (Carries mark) outbox }
    ensures { IfOk result (λ sends. sends ≡ map (spec.packet_sending mark) outbox) }
{
    let mut sends = Vec::with_capacity(alloc, outbox.len())?;
    for sent in outbox.into_vec() {
        sends.push_reserved(own_sending(alloc, mark, sent.dev, sent.packet)?);
    }
    Ok(Items::from_vec(sends))
}

/// The sending of an advert's frame to a neighbour.
fn advert_sending(frame: &EncodedFrame, link: (Host, Dev)) -> Result<OutgoingFrame, NoMemory>
    ensures { IfOk result (λ s. s ≡ sending_of link.1 frame.now 0) }
{
    Ok(OutgoingFrame::of(link.1, frame.share()?, 0))
}

/// The sendings of an advert to neighbours, who share its rows. Condition: it keeps its limits.
#[tactic(auto, using(crate::proofs::LeavingLaws::advert_leaves))]
pub fn advert_sendings(
    alloc: Global,
    mark: Option<Stamp>,
    advert: Advert,
    neighbours: &[(Host, Dev)],
) -> Result<Leavings, NoMemory>
    requires { AdvertFits advert }
    ensures { IfOk result (λ sends. sends ≡ map (spec.advert_sending mark advert)
        neighbours.now) }
{
    let frame = EncodedFrame::of_advert(alloc, advert, mark)?;
    let mut sends = Items::from_vec(Vec::with_capacity(alloc, neighbours.len())?);
    for link in neighbours {
        sends.add(advert_sending(&frame, *link)?)?;
    }
    Ok(sends)
}
