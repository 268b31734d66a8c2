//! Writes frames of version 1.
ghost use Rattle.std.specs.Prelude.{◌≡◌, ◌++◌, ◌+◌, ◌≤◌, ◌<◌, ◌^◌, ◌∷◌, [], length, IsTrue, IfOk};
ghost use Rattle.std.specs.List.{flat_map};
ghost use Rattle.std.specs.Int.{w16, w32, w64, to_be_bytes};
ghost use Rattle.chunk_codec_spec.specs.Values.{chunk_bytes};
ghost use Rattle.chunk_codec_spec.specs.Spelling.{a_whole_chunk};
ghost use Rattle.packet_frame.specs.Bytes.{head_bytes, row_bytes, rows_bytes, packet_bytes, frame_bytes};
ghost use Rattle.packet_frame.specs.Forms.{FrameFits};
ghost use Rattle.packet_frame.specs.Frames.{SpellsFrame};
ghost use Rattle.packet_frame.specs.declared.frame.PlainFrame.{PlainFrame as Plain};

use checked_chunks::{CheckedChunk, CheckedPacket};
use chunk_codec::{may_be_spelled, put_chunk, put_name};
use plan_base::{Bytes, Chunk, Family, Host, NoMemory};
use service_api::{Advert, AdvertRow};
use std::alloc::Global;
use wire_bytes::Out;

/// Puts the letters PLAN, the version and a kind.
fn put_head(kind: u8, out: &mut Out)
    requires { 6 ≤ out.old.room }
    ensures bytes { out.new.bytes ≡ out.old.bytes ++ head_bytes kind }
    ensures room { out.new.room + 6 ≡ out.old.room }
{
    out.put_u32(0x504c_414e);
    out.put_u8(1);
    out.put_u8(kind);
}

/// Puts a row of an advert.
fn put_row(r: &AdvertRow, out: &mut Out)
    requires { length (row_bytes r.now) ≤ out.old.room }
    ensures bytes { out.new.bytes ≡ out.old.bytes ++ row_bytes r.now }
    ensures room { out.new.room + length (row_bytes r.now) ≡ out.old.room }
{
    out.put_u32(r.host.0);
    out.put_u32(r.cost);
}

/// Puts rows one after another.
pub fn put_rows(rows: &[AdvertRow], out: &mut Out)
    requires { length (flat_map row_bytes rows.now) ≤ out.old.room }
    ensures bytes { out.new.bytes ≡ out.old.bytes ++ flat_map row_bytes rows.now }
    ensures room { out.new.room + length (flat_map row_bytes rows.now) ≡ out.old.room }
{
    for r in rows {
        put_row(r, out);
    }
}

/// The number of bytes of a chunk. Condition: it keeps the limits of its spelling.
pub fn size_of(c: &CheckedChunk) -> u32
    requires { a_whole_chunk.Fits c.now }
    ensures size { result ≡ length (chunk_bytes c.now) }
    ensures small { result ≤ 16383 }
{
    c.weight() as u32
}

/// Puts a chunk. Conditions: it keeps the limits of its spelling, and the bytes have room.
pub fn put_carried(c: &Chunk, out: &mut Out)
    requires fits { a_whole_chunk.Fits c.now }
    requires room { length (chunk_bytes c.now) ≤ out.old.room }
    ensures bytes { out.new.bytes ≡ out.old.bytes ++ chunk_bytes c.now }
    ensures room { out.new.room + length (chunk_bytes c.now) ≡ out.old.room }
{
    put_chunk(c, out);
}

/// The frame of an advert. Conditions: at most 32 rows, whose hosts ascend and whose costs are at most 65,535.
pub fn put_advert(alloc: Global, a: &Advert) -> Result<Bytes, NoMemory>
    requires { FrameFits (Plain.Advert a.now) }
    ensures { IfOk result (λ b. SpellsFrame b (Plain.Advert a.now)) }
{
    let rows = a.rows.as_slice();
    let mut out = Out::with_room(alloc, 12 + 8 * rows.len() as u32)?;
    put_head(2, &mut out);
    out.put_u32(a.host.0);
    out.put_u16(rows.len() as u16);
    put_rows(rows, &mut out);
    Ok(Bytes::of(out.into_vec()))
}

/// The chunk of a checked one, which keeps the limits of its spelling.
pub fn spellable(c: &CheckedChunk) -> &Chunk
    ensures value { result.now ≡ c.now }
    ensures fits { a_whole_chunk.Fits result.now }
{
    let chunk = c.chunk();
    may_be_spelled(chunk);
    chunk
}

/// Puts what a packet has before its bound: its family and its destination.
pub fn put_way(family: Family, dest: Host, out: &mut Out)
    requires { 16 ≤ out.old.room }
    ensures bytes { out.new.bytes ≡ ((out.old.bytes ++ to_be_bytes w32 family.source.0) ++
        to_be_bytes w64 family.serial) ++ to_be_bytes w32 dest.0 }
    ensures room { out.new.room + 16 ≡ out.old.room }
    ensures ranges { (family.source.0 < 2 ^ 32) × (family.serial < 2 ^ 64) × (dest.0 < 2 ^ 32) }
{
    out.put_u32(family.source.0);
    out.put_u64(family.serial);
    out.put_u32(dest.0);
}

/// The frame of a packet with another bound. Conditions: that bound is at most 65,535, and it has no handler.
pub fn put_packet(alloc: Global, packet: &CheckedPacket, new_bound: u32) -> Result<Bytes, NoMemory>
    requires bound { new_bound ≤ 65535 }
    requires plain { packet.now.handler ≡ None }
    ensures { IfOk result (λ b. SpellsFrame b (Plain.Packet
        (record packet.now { bound = new_bound }))) }
{
    let chunk = spellable(packet.chunk());
    let route = packet.route();
    let size = 27 + route.as_slice().len() as u32 + size_of(packet.chunk());
    let mut out = Out::with_room(alloc, size)?;
    put_head(1, &mut out);
    put_way(packet.family(), packet.dest(), &mut out);
    out.put_u32(new_bound);
    put_name(route, &mut out);
    put_carried(chunk, &mut out);
    Ok(Bytes::of(out.into_vec()))
}

/// The frame of an ask. Condition: the bound is at most 65,535.
pub fn put_ask(alloc: Global, bound: u32, c: &CheckedChunk) -> Result<Bytes, NoMemory>
    requires { bound ≤ 65535 }
    ensures { IfOk result (λ b. SpellsFrame b (Plain.Ask bound c.now)) }
{
    let chunk = spellable(c);
    let mut out = Out::with_room(alloc, 10 + size_of(c))?;
    put_head(3, &mut out);
    out.put_u32(bound);
    put_carried(chunk, &mut out);
    Ok(Bytes::of(out.into_vec()))
}
