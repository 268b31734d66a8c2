//! Writes frames of version 2.
ghost use Rattle.std.specs.Prelude.{◌≡◌, ◌++◌, ◌+◌, ◌≤◌, ◌<◌, ◌∷◌, [], length, None, Some, IfOk};
ghost use Rattle.std.specs.Int.{w16, w32, w64, to_be_bytes};
ghost use Rattle.packet_frame.specs.Forms.{FrameFits};
ghost use Rattle.packet_frame.specs.Stamped.{stamped_head, StampFits, SpellsStamped};
ghost use Rattle.packet_frame.specs.declared.frame.PlainFrame.{PlainFrame as Plain};

use crate::put::{put_carried, put_rows, put_way, size_of, spellable};
use checked_chunks::CheckedPacket;
use chunk_codec::put_name;
use plan_base::{Bytes, Name, NoMemory, Stamp};
use service_api::Advert;
use std::alloc::Global;
use wire_bytes::Out;

/// Puts the letters PLAN, version 2, a kind and a stamp.
fn put_stamped_head(kind: u8, s: Stamp, out: &mut Out)
    requires { 22 ≤ out.old.room }
    ensures bytes { out.new.bytes ≡ out.old.bytes ++ stamped_head kind s }
    ensures room { out.new.room + 22 ≡ out.old.room }
    ensures fits { StampFits s }
{
    out.put_u32(0x504c_414e);
    out.put_u8(2);
    out.put_u8(kind);
    out.put_u64(s.boot);
    out.put_u64(s.link);
}

/// The frame of an advert under version 2. Conditions: at most 32 rows, whose hosts ascend and whose costs are at most 65,535.
pub fn put_advert2(alloc: Global, a: &Advert, s: Stamp) -> Result<Bytes, NoMemory>
    requires { FrameFits (Plain.Advert a.now) }
    ensures { IfOk result (λ b. SpellsStamped b (record
        { stamp = Some s; frame = Plain.Advert a.now })) }
{
    let rows = a.rows.as_slice();
    let mut out = Out::with_room(alloc, 28 + 8 * rows.len() as u32)?;
    put_stamped_head(2, s, &mut out);
    out.put_u32(a.host.0);
    out.put_u16(rows.len() as u16);
    put_rows(rows, &mut out);
    Ok(Bytes::of(out.into_vec()))
}

/// The frame of a packet without a handler.
fn put_plain2(
    alloc: Global,
    packet: &CheckedPacket,
    new_bound: u32,
    s: Stamp,
) -> Result<Bytes, NoMemory>
    requires bound { new_bound ≤ 65535 }
    requires plain { packet.now.handler ≡ None }
    ensures { IfOk result (λ b. SpellsStamped b (record
        { stamp = Some s; frame = Plain.Packet (record packet.now { bound = new_bound }) })) }
{
    let chunk = spellable(packet.chunk());
    let route = packet.route();
    let size = 43 + route.as_slice().len() as u32 + size_of(packet.chunk());
    let mut out = Out::with_room(alloc, size)?;
    put_stamped_head(1, s, &mut out);
    put_way(packet.family(), packet.dest(), &mut out);
    out.put_u32(new_bound);
    put_name(route, &mut out);
    put_carried(chunk, &mut out);
    Ok(Bytes::of(out.into_vec()))
}

/// The frame of a packet with a handler.
fn put_handled(
    alloc: Global,
    packet: &CheckedPacket,
    name: &Name,
    new_bound: u32,
    s: Stamp,
) -> Result<Bytes, NoMemory>
    requires bound { new_bound ≤ 65535 }
    requires handler { packet.now.handler ≡ Some name.now }
    ensures { IfOk result (λ b. SpellsStamped b (record
        { stamp = Some s; frame = Plain.Packet (record packet.now { bound = new_bound }) })) }
{
    let chunk = spellable(packet.chunk());
    let route = packet.route();
    let size = 44
        + route.as_slice().len() as u32
        + name.as_slice().len() as u32
        + size_of(packet.chunk());
    let mut out = Out::with_room(alloc, size)?;
    put_stamped_head(4, s, &mut out);
    put_way(packet.family(), packet.dest(), &mut out);
    out.put_u32(new_bound);
    put_name(route, &mut out);
    put_name(name, &mut out);
    put_carried(chunk, &mut out);
    Ok(Bytes::of(out.into_vec()))
}

/// The frame of a packet with another bound under version 2. Condition: that bound is at most 65,535.
pub fn put_packet2(
    alloc: Global,
    packet: &CheckedPacket,
    new_bound: u32,
    s: Stamp,
) -> Result<Bytes, NoMemory>
    requires { new_bound ≤ 65535 }
    ensures { IfOk result (λ b. SpellsStamped b (record
        { stamp = Some s; frame = Plain.Packet (record packet.now { bound = new_bound }) })) }
{
    match packet.handler() {
        None => put_plain2(alloc, packet, new_bound, s),
        Some(name) => put_handled(alloc, packet, name, new_bound, s),
    }
}
