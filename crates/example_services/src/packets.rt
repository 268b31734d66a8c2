//! The packet of a program's text.
ghost use Rattle.std.specs.Prelude.{◌≡◌, ◌≤◌, length, IfOk, MatchResult, Ok};
ghost use Rattle.plan_base.specs.declared.tree.Program.{Program};
ghost use Rattle.plan_types_spec.specs.Typing.{IsTypedChunk};
ghost use Rattle.program_text.specs.Texts.{program_of};
ghost use Rattle.example_services.specs.Packets.{chunk_with, first_packet, IsPacketOf};

use crate::fault::PacketFault;
use checked_chunks::{Checked, CheckedChunk, CheckedPacket};
use containers::Items;
use plan_base::{Family, Host, Name};
use plan_types_chunks::{ChunkFault, chunk_of};
use program_text::{TextFault, read_program};
use remote_calls::default_route;
use std::alloc::Global;

/// The typed program that a text is.
fn program_in(alloc: Global, text: &[u8]) -> Result<Checked, PacketFault>
    requires { length text.now ≤ 65536 }
    ensures found { IfOk result (λ k. program_of text.now ≡ Ok k) }
    ensures only { (p : Program) → program_of text.now ≡ Ok p → MatchResult result (λ k. k ≡ p)
        (λ f. f ≡ PacketFault.NoMemory) }
{
    match read_program(alloc, text) {
        Ok(program) => Ok(program),
        Err(TextFault::NoMemory) => Err(PacketFault::NoMemory),
        Err(fault) => Err(PacketFault::Text(fault)),
    }
}

/// The chunk of a program with that entry and no arguments.
fn chunk_in(alloc: Global, program: &Checked, entry: &Name) -> Result<CheckedChunk, PacketFault>
    ensures found { IfOk result (λ k. k ≡ chunk_with program.now entry.now) }
    ensures only { IsTypedChunk (chunk_with program.now entry.now) → MatchResult result
        (λ k. k ≡ chunk_with program.now entry.now) (λ f. f ≡ PacketFault.NoMemory) }
{
    match chunk_of(alloc, program, entry, Items::new(alloc)) {
        Ok(chunk) => Ok(chunk),
        Err(ChunkFault::NoMemory) => Err(PacketFault::NoMemory),
        Err(fault) => Err(PacketFault::Chunk(fault)),
    }
}

/// The first packet that host `here` injects to itself: the program that a text of at most 65,536 bytes is, with that entry, no
/// arguments, and a bound of at most 65,535.
pub fn packet_of(
    alloc: Global,
    text: &[u8],
    entry: &Name,
    here: Host,
    bound: u32,
) -> Result<CheckedPacket, PacketFault>
    requires text { length text.now ≤ 65536 }
    requires bound { bound ≤ 65535 }
    ensures found { IfOk result (IsPacketOf text.now entry.now here bound) }
    ensures only { (p : Program) → program_of text.now ≡ Ok p → IsTypedChunk
        (chunk_with p entry.now)
        → MatchResult result (λ k. k ≡ first_packet here bound (chunk_with p entry.now))
        (λ f. f ≡ PacketFault.NoMemory) }
    ensures starts { IfOk result (λ p. (p.bound ≡ bound) × (p.family.source ≡ here)) }
{
    let program = program_in(alloc, text)?;
    let chunk = chunk_in(alloc, &program, entry)?;
    let route = default_route(alloc)?;
    let family = Family {
        source: here,
        serial: 1,
    };
    Ok(CheckedPacket::of(family, here, bound, route, chunk))
}
