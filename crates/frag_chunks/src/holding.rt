//! What is kept of a message until it is whole.
ghost use Rattle.std.specs.Prelude.{◌≡◌, ◌∷◌, [], ◌<◌, ◌≤◌, length, pos, Some, None, slice_get, slice_set, replicate, IfOk, OnOk, OnErr, IsTrue, true};
ghost use Rattle.std.specs.List.{list_all};
ghost use Rattle.std.specs.Option.{is_some};
ghost use Rattle.frag_chunks.specs.Gathers as spec;
ghost use Rattle.frag_chunks.specs.Saying.{as_said, FewIn, FewPlaces};
ghost use Rattle.frag_chunks.specs.declared.holding.PartialMessage.TheVariants as Shape;
ghost use Rattle.frag_chunks.specs.declared.gather.Added.TheVariants as Verdict;

use crate::cutting::MOST_PART_BYTES;
use crate::gather::{Added, Held};
use crate::given::Given;
use containers::Items;
use plan_base::{Bytes, NoMemory};
use std::alloc::Global;

/// The places of a message's parts, with the piece of those that came.
pub type Slots = Items<Option<Bytes>>;

/// What is kept of one key.
#[derive(Drop)]
pub enum PartialMessage {
    /// Its notes are no parts of one message.
    Spoiled,
    /// A place for each part.
    Open(Slots),
}

/// A key with what is kept of it.
#[derive(Drop)]
pub struct Entry {
    /// The key.
    pub key: i64,
    /// What is kept of it.
    pub holding: PartialMessage,
}

/// The most parts of a message.
const MOST_PARTS: i64 = 32;

/// Whether the numbers and the size are those of a part.
fn is_part(given: Given<'_>) -> bool
    ensures { result ≡
        spec.is_part given.entry.index given.entry.count (length given.entry.piece.now) }
{
    if given.count < 1
        || given.count > MOST_PARTS
        || given.index < 0
        || given.index >= given.count
    {
        return false;
    }
    let size = given.piece.len();
    if given.index + 1 < given.count {
        size == MOST_PART_BYTES
    } else {
        1 <= size && size <= MOST_PART_BYTES
    }
}

/// So many places without piece.
fn places(alloc: Global, count: usize) -> Result<Slots, NoMemory>
    ensures { IfOk result (λ slots. slots ≡ replicate count None) }
{
    let mut slots = Items::new(alloc);
    for _at in 0..count {
        slots.add(None)?;
    }
    Ok(slots)
}

/// A piece beside what is at its place.
#[tactic(auto, using(crate::proofs::Judging::piece_new, crate::proofs::Judging::piece_same, crate::proofs::Judging::piece_other))]
fn judged_piece(slots: &Slots, place: usize, piece: &Bytes) -> Added
    requires { place < length slots.now }
    ensures { result ≡ spec.judged_piece (spec.at_place (slice_get slots.now place)) piece.now }
{
    match slots.at(place) {
        None => Added::Kept,
        Some(there) => {
            if there.is(piece) {
                Added::Again
            } else {
                Added::Spoiled
            }
        }
    }
}

/// A right part beside the places of its key.
#[tactic(auto, using(crate::proofs::Judging::open_same, crate::proofs::Judging::open_other))]
fn judged_open(slots: &Slots, place: usize, count: usize, piece: &Bytes) -> Added
    requires { place < count }
    ensures { result ≡ spec.judged_in (Some (Shape.Open slots.now)) place count piece.now }
{
    if slots.len() == count {
        judged_piece(slots, place, piece)
    } else {
        Added::Spoiled
    }
}

/// A part of a new key.
#[tactic(auto, using(crate::proofs::Judging::new_part, crate::proofs::Judging::no_part))]
fn judged_new(given: Given<'_>) -> Added
    ensures { result ≡ spec.judged_part None (as_said given.entry) }
{
    if is_part(given) {
        Added::Kept
    } else {
        Added::Spoiled
    }
}

/// A part beside what is kept of its key.
#[tactic(auto, using(crate::proofs::Judging::spoiled_part, crate::proofs::Judging::open_part, crate::proofs::Judging::no_part))]
fn judge_part(holding: &PartialMessage, given: Given<'_>) -> Added
    ensures { result ≡ spec.judged_part (Some holding.now) (as_said given.entry) }
{
    if !is_part(given) {
        return Added::Spoiled;
    }
    match holding {
        PartialMessage::Spoiled => Added::Spoiled,
        PartialMessage::Open(slots) => judged_open(
            slots,
            given.place(),
            given.places(),
            given.piece,
        ),
    }
}

/// Puts a part that was judged new into its place.
#[tactic(auto, using(crate::proofs::Judging::kept_within, crate::proofs::Judging::kept_put, crate::proofs::Judging::kept_not_spoiled, std::proofs::lemmas::List::places))]
fn put_part(alloc: Global, holding: &mut PartialMessage, given: Given<'_>) -> Result<(), NoMemory>
    requires { spec.judged_part (Some holding.old) (as_said given) ≡ Verdict.Kept }
    ensures ok { OnOk result
        (holding.new ≡ spec.with_part (Some holding.old) (as_said given.entry)) }
    ensures few { FewIn holding.old → FewIn holding.new }
    ensures err { OnErr result (holding.new ≡ holding.old) }
{
    match holding {
        PartialMessage::Open(slots) => {
            let piece = given.piece.copy(alloc)?;
            slots.set(given.place(), Some(piece));
            Ok(())
        }
        PartialMessage::Spoiled => Ok(()),
    }
}

/// Adds a part to what is kept of its key.
#[tactic(auto, unfolding(crate::specs::Gathers::holding_after))]
pub fn add_to(
    alloc: Global,
    holding: &mut PartialMessage,
    given: Given<'_>,
) -> Result<Added, NoMemory>
    ensures answer { IfOk result (λ a. a ≡ spec.judged_part (Some holding.old)
        (as_said given.entry)) }
    ensures holding { IfOk result
        (λ a. holding.new ≡ spec.holding_after a (Some holding.old) (as_said given.entry)
        holding.old) }
    ensures few { FewIn holding.old → FewIn holding.new }
    ensures err { OnErr result (holding.new ≡ holding.old) }
{
    let answer = judge_part(holding, given);
    match answer {
        Added::Kept => put_part(alloc, holding, given)?,
        Added::Spoiled => *holding = PartialMessage::Spoiled,
        Added::Again | Added::Stranger | Added::Full => {}
    }
    Ok(answer)
}

/// What is kept of a new key after its first part, which was judged new.
#[tactic(auto, using(crate::proofs::Judging::new_within, crate::proofs::Judging::new_put))]
fn first_part(alloc: Global, given: Given<'_>) -> Result<PartialMessage, NoMemory>
    requires { spec.judged_part None (as_said given) ≡ Verdict.Kept }
    ensures part { IfOk result (λ h. h ≡ spec.with_part None (as_said given.entry)) }
    ensures few { IfOk result FewIn }
{
    let mut slots = places(alloc, given.places())?;
    let piece = given.piece.copy(alloc)?;
    slots.set(given.place(), Some(piece));
    Ok(PartialMessage::Open(slots))
}

/// A new key after its first note.
#[tactic(auto, using(crate::proofs::Judging::after_kept, crate::proofs::Judging::after_other))]
pub fn begin(alloc: Global, given: Given<'_>) -> Result<(Added, PartialMessage), NoMemory>
    ensures answer { IfOk result (λ r. r.0 ≡ spec.judged_part None (as_said given.entry)) }
    ensures holding { IfOk result
        (λ r. r.1 ≡ spec.holding_after r.0 None (as_said given.entry) Shape.Spoiled) }
    ensures few { IfOk result (λ r. FewIn r.1) }
{
    match judged_new(given) {
        Added::Kept => Ok((Added::Kept, first_part(alloc, given)?)),
        answer => Ok((answer, PartialMessage::Spoiled)),
    }
}

/// How many parts are there.
fn count_there(slots: &[Option<Bytes>]) -> usize
    requires { length slots.now ≤ 32 }
    ensures { result ≡ spec.filled_parts slots.now }
{
    let mut count = 0usize;
    for i in 0..slots.len() {
        if slots[i].is_some() {
            count += 1;
        }
    }
    count
}

/// The pieces that are there, in order.
fn join_pieces(alloc: Global, slots: &[Option<Bytes>]) -> Result<Bytes, NoMemory>
    ensures { IfOk result (λ bytes. bytes ≡ spec.joined_pieces slots.now) }
{
    let mut all = Bytes::new(alloc);
    for slot in slots {
        if let Some(piece) = slot {
            all.add_all(piece.as_slice())?;
        }
    }
    Ok(all)
}

/// What is held of a key.
#[tactic(auto, using(crate::proofs::Holdings::all_there, crate::proofs::Holdings::not_all, crate::proofs::Holdings::filled_few))]
pub fn held_of(alloc: Global, entry: &Entry) -> Result<Held, NoMemory>
    requires { FewPlaces entry.now }
    ensures { IfOk result (λ h. h ≡ spec.held_of entry.now.key entry.now.holding) }
{
    match &entry.holding {
        PartialMessage::Spoiled => Ok(Held::Spoiled(entry.key)),
        PartialMessage::Open(slots) => {
            let there = count_there(slots.as_slice());
            if there == slots.len() {
                Ok(Held::Whole(entry.key, join_pieces(alloc, slots.as_slice())?))
            } else {
                Ok(Held::Missing(entry.key, there as u32, slots.len() as u32))
            }
        }
    }
}
