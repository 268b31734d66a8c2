//! Cuts a message into parts, and makes the chunk and the bound of each.
ghost use Rattle.std.specs.Prelude.{◌≡◌, ◌*◌, ◌≤ℤ◌, ◌<◌, ◌≤◌, length, pos, IfOk, OnOk, OnErr, Ok, Err, ◌↔◌, false, All, IsTrue};
ghost use Rattle.std.specs.List.{list_all};
ghost use Rattle.plan_base.specs.WellFormed.{well_formed_value, value_has_types};
ghost use Rattle.plan_types_spec.specs.Typing.{IsTypedChunk};
ghost use Rattle.plan_meaning.specs.Meaning.{is_paid, bound_of};
ghost use Rattle.program_text.specs.Texts.{program_of};
ghost use Rattle.frag_chunks.specs.Parts as spec;
ghost use Rattle.frag_chunks.specs.Programs.{part_program};

use checked_chunks::{Checked, CheckedChunk};
use containers::Items;
use plan_base::{Bytes, Host, Name, NoMemory, Value, Values};
use plan_types_chunks::{ChunkFault, chunk_of};
use program_text::{TextFault, read_program};
use remote_calls::{NoBound, Purse};
use std::alloc::{AllocError, Global};

/// The most bytes of a part.
pub const MOST_PART_BYTES: usize = 8192;

/// A part of a message: a chunk, and the bound that it is sent with.
#[derive(Drop)]
pub struct Part {
    /// The hops and evals that it may pay.
    pub bound: u32,
    /// What is sent.
    pub chunk: CheckedChunk,
}

/// Parts in order of index.
pub type Parts = Items<Part>;

/// Why a message isn't cut.
#[derive(Clone, Copy, PartialEq, Eq)]
pub enum CutFault {
    /// The purse doesn't pay the bound.
    NoBound,
    /// An allocation failed.
    NoMemory,
}

impl From<NoBound> for CutFault {
    ghost use Rattle.frag_chunks.specs.declared.cutting.CutFault.TheVariants as fault;

    ghost from_gives = { λ _ r. r ≡ fault.NoBound };

    fn from(_refused: NoBound) -> CutFault {
        CutFault::NoBound
    }
}

impl From<NoMemory> for CutFault {
    ghost use Rattle.frag_chunks.specs.declared.cutting.CutFault.TheVariants as fault;

    ghost from_gives = { λ _ r. r ≡ fault.NoMemory };

    fn from(_refused: NoMemory) -> CutFault {
        CutFault::NoMemory
    }
}

impl From<AllocError> for CutFault {
    ghost use Rattle.frag_chunks.specs.declared.cutting.CutFault.TheVariants as fault;

    ghost from_gives = { λ _ r. r ≡ fault.NoMemory };

    fn from(_refused: AllocError) -> CutFault {
        CutFault::NoMemory
    }
}

/// The text of a part's program.
#[tactic(auto, unfolding(crate::specs::Parts::part_text))]
fn part_text() -> &'static [u8]
    ensures text { result.now ≡ spec.part_text }
    ensures short { length result.now ≤ 65536 }
{
    b"svc thisHostIs : (host) -> bool\nsvc getRB : () -> int\nsvc deliver : (int, (int * int * int * blob)) -> unit\nfun part(dest : host, port : int, key : int, index : int, count : int, data : blob) : unit =\n  if thisHostIs(dest) then deliver(port, (key, index, count, data))\n  else OnRemote(|part|(dest, port, key, index, count, data), dest, getRB(), defaultRoute)\n"
}

/// The program of a part, read from its text, which is that program's.
#[tactic(auto, using(crate::proofs::PartText::part_says))]
fn part_program(alloc: Global) -> Result<Checked, NoMemory>
    ensures text { IfOk result (λ code. program_of spec.part_text ≡ Ok code) }
    ensures tree { IfOk result (λ code. code ≡ part_program) }
{
    match read_program(alloc, part_text()) {
        Ok(code) => Ok(code),
        Err(TextFault::NoMemory) => Err(NoMemory),
        Err(TextFault::Lex(_)) | Err(TextFault::Parse(_)) => unreachable!(),
        Err(TextFault::Ty(_, _)) => unreachable!(),
    }
}

/// Where the parts of a message go, and its key.
#[derive(Clone, Copy)]
pub struct PartId {
    /// The host that gathers them.
    pub dest: Host,
    /// Its port.
    pub port: u16,
    /// The key.
    pub key: i64,
}

/// The arguments of a part's chunk.
fn part_args(
    alloc: Global,
    to: &PartId,
    index: u32,
    count: u32,
    piece: &[u8],
) -> Result<Values, NoMemory>
    requires { length piece.now ≤ 8192 }
    ensures { IfOk result (λ vs. vs ≡ spec.part_args to.now index count piece.now) }
{
    let mut bytes = Bytes::new(alloc);
    bytes.add_all(piece)?;
    let mut args = Items::new(alloc);
    args.add(Value::Host(to.dest))?;
    args.add(Value::Int(i64::from(to.port)))?;
    args.add(Value::Int(to.key))?;
    args.add(Value::Int(i64::from(index)))?;
    args.add(Value::Int(i64::from(count)))?;
    args.add(Value::Blob(bytes))?;
    Ok(args)
}

/// A chunk that is typed. Condition: it is.
fn typed_chunk(
    alloc: Global,
    code: &Checked,
    entry: &Name,
    args: Values,
) -> Result<CheckedChunk, NoMemory>
    requires formed { IsTrue (list_all well_formed_value args) }
    requires full { IsTrue (list_all value_has_types args) }
    requires typed { IsTypedChunk (record { code = code.now; entry = entry.now; args = args }) }
    ensures { IfOk result (λ chunk. chunk ≡ record {
      code = code.now;
      entry = entry.now;
      args = args;
    }) }
{
    match chunk_of(alloc, code, entry, args) {
        Ok(chunk) => Ok(chunk),
        Err(ChunkFault::NoMemory) => Err(NoMemory),
        Err(ChunkFault::Ill(_)) => unreachable!(),
        Err(ChunkFault::TooLarge) => unreachable!(),
    }
}

/// The chunk of a part. Condition: the code is a part's.
#[tactic(auto, using(crate::proofs::Arguments::args_formed, crate::proofs::Arguments::args_full, crate::proofs::PartTyping::part_typed), unfolding(plan_base::specs::Words::is_name, plan_base::specs::Words::is_word, plan_base::specs::Words::is_reserved))]
fn part_chunk(
    alloc: Global,
    code: &Checked,
    to: &PartId,
    index: u32,
    count: u32,
    piece: &[u8],
) -> Result<CheckedChunk, NoMemory>
    requires code { code.now ≡ part_program }
    requires short { length piece.now ≤ 8192 }
    ensures { IfOk result (λ chunk. chunk ≡ spec.part_chunk code.now to.now index count piece.now) }
{
    let entry = Name::of(alloc, b"part")?;
    let args = part_args(alloc, to, index, count, piece)?;
    typed_chunk(alloc, code, &entry, args)
}

/// The bytes of the part with this index.
#[tactic(auto, using(crate::proofs::Shares::last_piece))]
fn piece_of(bytes: &[u8], index: usize) -> &[u8]
    requires { 8192 * index ≤ length bytes.now }
    ensures piece { result.now ≡ spec.piece_of bytes.now index }
    ensures few { length result.now ≤ 8192 }
{
    let rest = &bytes[MOST_PART_BYTES * index..];
    if rest.len() < MOST_PART_BYTES {
        rest
    } else {
        &rest[..MOST_PART_BYTES]
    }
}

/// The bound of the part with this index, of `count` that share `bound`.
fn share(bound: u32, count: u32, index: u32) -> u32
    requires some { 1 ≤ count }
    requires small { bound ≤ 65535 }
    ensures { result ≡ spec.share bound count index }
{
    let more = u32::from(index < bound % count);
    bound / count + more
}

/// The part with this index. Condition: the code is a part's.
fn one_part(
    alloc: Global,
    code: &Checked,
    bound: u32,
    to: &PartId,
    bytes: &[u8],
    count: u32,
    index: u32,
) -> Result<Part, NoMemory>
    requires code { code.now ≡ part_program }
    requires small { bound ≤ 65535 }
    requires within { index < count }
    requires some { 8192 * index ≤ length bytes.now }
    ensures { IfOk result (λ p. p ≡ spec.part code.now bound to.now bytes.now count index) }
{
    let piece = piece_of(bytes, index as usize);
    let chunk = part_chunk(alloc, code, to, index, count, piece)?;
    let bound = share(bound, count, index);
    Ok(Part { bound, chunk })
}

/// How many parts a message has.
fn count_of(bytes: &[u8]) -> u32
    requires { spec.IsMessage bytes.now }
    ensures { result ≡ spec.parts_in (length bytes.now) }
{
    ((bytes.len() + (MOST_PART_BYTES - 1)) / MOST_PART_BYTES) as u32
}

/// All parts of a message. Condition: the code is a part's.
#[tactic(auto, using(crate::proofs::Shares::part_step, crate::proofs::Shares::part_end), unfolding(crate::specs::Parts::cut_of))]
fn parts_of(
    alloc: Global,
    code: &Checked,
    bound: u32,
    to: &PartId,
    bytes: &[u8],
) -> Result<Parts, NoMemory>
    requires code { code.now ≡ part_program }
    requires message { spec.IsMessage bytes.now }
    requires small { bound ≤ 65535 }
    ensures { IfOk result (λ parts. parts ≡ spec.cut_of code.now bound to.now bytes.now) }
{
    let count = count_of(bytes);
    let mut parts = Items::new(alloc);
    for index in 0..count {
        let part = one_part(alloc, code, bound, to, bytes, count, index)?;
        parts.add(part)?;
    }
    Ok(parts)
}

/// Cuts a message into parts of 8,192 bytes, the last one with the rest. They share the bound `n`, which the purse pays.
/// Refused as `NoBound` exactly where the purse doesn't pay it. After a refusal the purse is as before. Conditions: the
/// message has 1 to 262,144 bytes, and the key is at least 0.
#[tactic(auto, using(crate::proofs::Shares::parts_are, crate::proofs::Shares::bounds_all, crate::proofs::Shares::bounds_small, remote_calls::proofs::Paying::is_within))]
pub fn cut(
    alloc: Global,
    purse: &mut Purse,
    n: i64,
    dest: Host,
    port: u16,
    key: i64,
    bytes: &Bytes,
) -> Result<Parts, CutFault>
    requires message { spec.IsMessage bytes.now }
    requires key { pos 0 ≤ℤ key }
    ensures paid { OnOk result (spec.Pays n purse.old purse.new) }
    ensures parts { IfOk result (λ parts. parts ≡ spec.parts_for n dest port key bytes.now) }
    ensures small { IfOk result (λ parts. All spec.HasBound parts) }
    ensures sum { IfOk result (λ parts. spec.bounds parts ≡ bound_of n) }
    ensures no_bound { (result ≡ Err CutFault.NoBound) ↔ (is_paid n purse.old ≡ false) }
    ensures err { OnErr result (purse.new ≡ purse.old) }
{
    let Some(bound) = purse.bound_for(n) else {
        return Err(CutFault::NoBound);
    };
    let code = part_program(alloc)?;
    let to = PartId { dest, port, key };
    let parts = parts_of(alloc, &code, bound, &to, bytes.as_slice())?;
    purse.take(bound);
    Ok(parts)
}
