//! Writes what a frame says, in words.
ghost use Rattle.std.specs.Prelude.{◌≡◌, ◌++◌, [], None, codes, IfOk, OnOk, OnErr};
ghost use Rattle.std.specs.Fmt.{decimal};
ghost use Rattle.std.specs.String.{string_bytes};
ghost use Rattle.std.specs.List.{flat_map};
ghost use Rattle.plan_printer_spec.specs.Pieces.{listed_pieces, commas};
ghost use Rattle.plan_printer_spec.specs.Printed.{value_text, program_text};
ghost use Rattle.packet_frame.specs.Stamped.{stamped_plain};
ghost use Rattle.packet_frame.specs.declared.frame.PlainFrame.{PlainFrame as Plain};
ghost use Rattle.packet_frame_text.specs.Frames.{chunk_text, packet_head as head_text, stamp_text, handler_text, packet_line, row_line, text_with, frame_text};

use packet_frame::{Advert, AdvertRow, CheckedPacket, Frame, Stamped};
use plan_base::{Bytes, Chunk, Name, NoMemory, Stamp};
use plan_printer::{print_program, put, put_values};
use std::alloc::{AllocError, Global};

/// The call that a chunk stands for, and its program.
#[tactic(auto, using(std::proofs::Common::append_assoc))]
fn put_chunk(alloc: Global, c: &Chunk, out: &mut Bytes) -> Result<(), NoMemory>
    ensures { OnOk result (out.new ≡ out.old ++ chunk_text c.now) }
{
    put(out, b"|")?;
    put(out, c.entry.as_slice())?;
    put(out, b"|(")?;
    put_values(alloc, c.args.as_slice(), out)?;
    put(out, b")\n")?;
    print_program(alloc, c.code.get(), out)
}

/// What a packet's line says before its routing function.
#[tactic(auto, unfolding(crate::specs::Frames::packet_head))]
fn packet_head(
    alloc: Global,
    source: u32,
    serial: u64,
    dest: u32,
    bound: u32,
) -> Result<String, AllocError>
    ensures { IfOk result (λ text. string_bytes text ≡ head_text source serial dest bound) }
{
    format!(in alloc; "packet {source}.{serial} dest @{dest} bound {bound} route ")
}

/// A stamp, if there is one.
#[tactic(auto, using(crate::proofs::Ends::nothing_behind, std::proofs::Common::append_assoc))]
fn put_stamp(alloc: Global, stamp: &Option<Stamp>, out: &mut Bytes) -> Result<(), NoMemory>
    ensures { OnOk result (out.new ≡ out.old ++ stamp_text stamp.now) }
{
    match stamp {
        None => Ok(()),
        Some(Stamp { boot, link }) => {
            let text = format!(in alloc; " boot {boot} link {link}")?;
            put(out, text.as_bytes())
        }
    }
}

/// A handler, if there is one.
#[tactic(auto, using(crate::proofs::Ends::nothing_behind, std::proofs::Common::append_assoc))]
fn put_handler(handler: &Option<Name>, out: &mut Bytes) -> Result<(), NoMemory>
    ensures { OnOk result (out.new ≡ out.old ++ handler_text handler.now) }
{
    match handler {
        None => Ok(()),
        Some(name) => {
            put(out, b" handler ")?;
            put(out, name.as_slice())
        }
    }
}

/// The line of a packet.
#[tactic(auto, using(std::proofs::Common::append_assoc))]
fn put_packet_line(
    alloc: Global,
    stamp: &Option<Stamp>,
    p: &CheckedPacket,
    out: &mut Bytes,
) -> Result<(), NoMemory>
    ensures { OnOk result (out.new ≡ out.old ++ packet_line stamp.now p.now) }
{
    let family = p.family();
    let head = packet_head(alloc, family.source.0, family.serial, p.dest().0, p.bound())?;
    put(out, head.as_bytes())?;
    put(out, p.route().as_slice())?;
    put_stamp(alloc, stamp, out)?;
    put_handler(p.handler(), out)?;
    put(out, b"\n")
}

/// The line of a row of an advert.
fn put_row(alloc: Global, r: &AdvertRow, out: &mut Bytes) -> Result<(), NoMemory>
    ensures { OnOk result (out.new ≡ out.old ++ row_line r.now) }
{
    let host = r.host.0;
    let cost = r.cost;
    let line = format!(in alloc; "@{host} {cost}\n")?;
    put(out, line.as_bytes())
}

/// The lines of rows.
fn put_rows(alloc: Global, rows: &[AdvertRow], out: &mut Bytes) -> Result<(), NoMemory>
    ensures { OnOk result (out.new ≡ out.old ++ flat_map row_line rows.now) }
{
    for r in rows {
        put_row(alloc, r, out)?;
    }
    Ok(())
}

/// An advert.
#[tactic(auto, using(std::proofs::Common::append_assoc))]
fn put_advert(
    alloc: Global,
    stamp: &Option<Stamp>,
    a: &Advert,
    out: &mut Bytes,
) -> Result<(), NoMemory>
    ensures { OnOk result (out.new ≡ out.old ++ text_with stamp.now (Plain.Advert a.now)) }
{
    let host = a.host.0;
    let line = format!(in alloc; "advert @{host}")?;
    put(out, line.as_bytes())?;
    put_stamp(alloc, stamp, out)?;
    put(out, b"\n")?;
    put_rows(alloc, a.rows.as_slice(), out)
}

/// An ask, which bears no stamp.
#[tactic(auto, using(std::proofs::Common::append_assoc))]
fn put_ask(alloc: Global, bound: u32, c: &Chunk, out: &mut Bytes) -> Result<(), NoMemory>
    ensures { OnOk result (out.new ≡ out.old ++ text_with None (Plain.Ask bound c.now)) }
{
    let line = format!(in alloc; "ask bound {bound}\n")?;
    put(out, line.as_bytes())?;
    put_chunk(alloc, c, out)
}

/// A frame.
#[tactic(auto, unfolding(crate::specs::Frames::frame_text), using(std::proofs::Common::append_assoc))]
fn put_frame(alloc: Global, x: &Stamped, out: &mut Bytes) -> Result<(), NoMemory>
    ensures { OnOk result (out.new ≡ out.old ++ frame_text (stamped_plain x.now)) }
{
    match &x.frame {
        Frame::Packet(p) => {
            put_packet_line(alloc, &x.stamp, p, out)?;
            put_chunk(alloc, p.chunk().chunk(), out)
        }
        Frame::Advert(a) => put_advert(alloc, &x.stamp, a, out),
        Frame::Ask(bound, c) => put_ask(alloc, *bound, c.chunk(), out),
    }
}

/// Appends what a frame says: a packet or an ask with the call of its chunk and the printed program, an advert with its
/// rows, and at the end of the first line its stamp, if it bears one, and its handler, if it has one. Where an allocation
/// fails, `out` stays.
pub fn print_frame(alloc: Global, x: &Stamped, out: &mut Bytes) -> Result<(), NoMemory>
    ensures whole { OnOk result (out.new ≡ out.old ++ frame_text (stamped_plain x.now)) }
    ensures stays { OnErr result (out.new ≡ out.old) }
{
    let mut text = Bytes::new(alloc);
    put_frame(alloc, x, &mut text)?;
    out.add_all(text.as_slice())?;
    Ok(())
}
