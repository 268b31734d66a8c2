//! Reads chunks in hex, and checks their types.
ghost use Rattle.std.specs.Prelude.{◌≡◌, ◌≢◌, ◌≤◌, Some, IfOk, IfSome, OnOk, OnErr, length};
ghost use Rattle.chunk_codec_spec.specs.Spelling.{a_whole_chunk};
ghost use Rattle.line_reader.specs.Reads.{Finds, GivesWith};
ghost use Rattle.node_files.specs.ChunkWords as spec;
ghost use Rattle.node_files.specs.ChunkWords.{spelled_chunk, if_typed, typed_chunk};

use checked_chunks::CheckedChunk;
use chunk_codec::get_chunk;
use chunk_codec_spec::SpellFault;
use line_reader::{LineError, LineReason, Words, hex_bytes};
use plan_base::{Chunk, NoMemory};
use plan_types_chunks::{ChunkFault, check_chunk};
use std::alloc::Global;
use wire_bytes::Cursor;

/// Goes on where bytes were refused for what they are. Only where an allocation failed, nothing is known of them.
fn not_memory(fault: &SpellFault) -> Result<(), NoMemory>
    ensures ok { OnOk result (fault.now ≢ SpellFault.NoMemory) }
    ensures err { OnErr result (fault.now ≡ SpellFault.NoMemory) }
{
    match fault {
        SpellFault::NoMemory => Err(NoMemory),
        _ => Ok(()),
    }
}

/// The chunk that bytes spell, or none. Condition: at most 16,383 bytes.
fn chunk_of_bytes(alloc: Global, bytes: &[u8]) -> Result<Option<Chunk>, NoMemory>
    requires { length bytes.now ≤ 16383 }
    ensures value { Finds result (spelled_chunk bytes.now) }
    ensures fits { IfOk result (λ o. IfSome o a_whole_chunk.Fits) }
{
    let mut cursor = Cursor::over(bytes);
    match get_chunk(alloc, &mut cursor) {
        Ok(chunk) => {
            if bytes.len() <= cursor.at() as usize {
                Ok(Some(chunk))
            } else {
                Ok(None)
            }
        }
        Err(fault) => {
            not_memory(&fault)?;
            Ok(None)
        }
    }
}

#[tactic(auto, using(packet_frame::proofs::Carried::chunk_is_formed, packet_frame::proofs::Carried::chunk_is_full, packet_frame::proofs::Carried::chunk_is_small))]
/// A chunk that was read, where it is typed. Condition: it keeps the limits of a spelling.
fn checked_chunk(alloc: Global, chunk: Chunk) -> Result<Option<CheckedChunk>, NoMemory>
    requires { a_whole_chunk.Fits chunk }
    ensures { Finds result (if_typed (Some chunk)) }
{
    match check_chunk(alloc, chunk, None) {
        Ok(chunk) => Ok(Some(chunk)),
        Err(ChunkFault::NoMemory) => Err(NoMemory),
        Err(fault) => {
            drop(fault);
            Ok(None)
        }
    }
}

/// The typed chunk that bytes spell, or none. Condition: at most 16,383 bytes.
fn chunk_in(alloc: Global, bytes: &[u8]) -> Result<Option<CheckedChunk>, NoMemory>
    requires { length bytes.now ≤ 16383 }
    ensures { Finds result (typed_chunk bytes.now) }
{
    match chunk_of_bytes(alloc, bytes)? {
        Some(chunk) => checked_chunk(alloc, chunk),
        None => Ok(None),
    }
}

/// The next word as a typed chunk in hex. Reasons: `BadWord` where the line has ended, else `BadArgument`.
#[tactic(auto, unfolding(crate::specs::ChunkWords::chunk_at))]
pub fn chunk(alloc: Global, words: &mut Words<'_>) -> Result<CheckedChunk, LineError>
    ensures { GivesWith (λ k. k) result words.new (spec.chunk_at words.old) }
{
    let bytes = hex_bytes(alloc, words, 1, 16_383)?;
    let chunk = chunk_in(alloc, bytes.as_slice())?;
    let chunk = chunk.ok_or(LineReason::BadArgument)?;
    Ok(chunk)
}
