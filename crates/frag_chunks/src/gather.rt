//! Gathers the parts of messages by their keys.
ghost use Rattle.std.specs.Prelude.{◌≡◌, ◌+◌, ◌<◌, ◌≤◌, ◌∷◌, [], ◌++◌, length, Some, None, slice_get, slice_set, IfOk, OnOk, OnErr, MatchOption, All, if◌then◌else◌, IfSome};
ghost use Rattle.frag_chunks.specs.Gathers as spec;
ghost use Rattle.frag_chunks.specs.Saying.{as_said, FewPlaces};
ghost use Rattle.frag_chunks.specs.Places.{position, entry_held};
ghost use Rattle.frag_chunks.specs.declared.holding.PartialMessage.{PartialMessage as Kept};
ghost use Rattle.frag_chunks.specs.declared.holding.PartialMessage.TheVariants as Shape;

use crate::given::{Given, said_in};
use crate::holding::{Entry, PartialMessage, add_to, begin, held_of};
use plan_base::{Bytes, NoMemory};
use service_api::Note;
use std::alloc::Global;
use std::marker::Model;

/// The most keys that are kept.
const MOST_KEYS: usize = 64;

/// What a note is to a gatherer.
#[derive(Clone, Copy, PartialEq, Eq)]
pub enum Added {
    /// Its part is new, and is kept.
    Kept,
    /// Its part is kept already.
    Again,
    /// It is for another port, or is no part.
    Stranger,
    /// Its key is new, and 64 keys are kept.
    Full,
    /// It is no part of one message with the others of its key.
    Spoiled,
}

/// What is held of a key.
#[derive(Drop)]
pub enum Held {
    /// Every part: the key and the message.
    Whole(i64, Bytes),
    /// Some parts: the key, how many, and of how many.
    Missing(i64, u32, u32),
    /// Its notes are no parts of one message.
    Spoiled(i64),
}

/// What is gathered of the notes for one port, which contracts see as the keys with what is kept of each, in order of
/// their first notes.
#[derive(Drop)]
pub struct Gather {
    port: u16,
    entries: Vec<Entry>,
}

impl Model for Gather {
    ghost use Rattle.std.specs.Prelude.{◌≤◌, length, All};
    ghost use Rattle.frag_chunks.specs.Gathers.{Gathering};
    ghost use Rattle.frag_chunks.specs.Saying.{FewPlaces};

    ghost Value = { Gathering };

    ghost view = { λ g. record { port = g.port; entries = g.entries.items } };

    ghost invariant = { λ g. (length g.entries.items ≤ 64) × All FewPlaces g.entries.items };
}

/// The place of a key.
fn position(entries: &[Entry], given: &Given<'_>) -> Option<usize>
    ensures place { result ≡ position given.now.key entries.now }
    ensures within { IfSome result (λ i. i < length entries.now) }
{
    for i in 0..entries.len() {
        if entries[i].key == given.key {
            return Some(i);
        }
    }
    None
}

/// Adds a part to what is kept of all keys.
#[tactic(auto, using(crate::proofs::Entries::placed_judged, crate::proofs::Entries::placed_after, crate::proofs::Entries::unplaced_has_none))]
fn add_part(alloc: Global, entries: &mut Vec<Entry>, given: Given<'_>) -> Result<Added, NoMemory>
    requires few { length entries.old.items ≤ 64 }
    requires places { All FewPlaces entries.old.items }
    ensures few { length entries.new.items ≤ 64 }
    ensures places { All FewPlaces entries.new.items }
    ensures answer { IfOk result
        (λ a. a ≡ spec.judged_all (as_said given.entry) entries.old.items) }
    ensures entries { IfOk result
        (λ a. entries.new.items ≡ spec.after a (as_said given.entry) entries.old.items) }
    ensures err { OnErr result (entries.new.items ≡ entries.old.items) }
{
    match position(entries, &given) {
        Some(i) => add_to(alloc, &mut entries[i].holding, given),
        None => add_new(alloc, entries, given),
    }
}

/// Adds the first part of a new key.
#[tactic(auto, using(crate::proofs::Entries::full_new, crate::proofs::Entries::room_new, crate::proofs::Entries::after_full, crate::proofs::Entries::after_new))]
fn add_new(alloc: Global, entries: &mut Vec<Entry>, given: Given<'_>) -> Result<Added, NoMemory>
    requires few { length entries.old.items ≤ 64 }
    requires places { All FewPlaces entries.old.items }
    requires new { spec.holding_of given.key entries.old.items ≡ None }
    ensures few { length entries.new.items ≤ 64 }
    ensures places { All FewPlaces entries.new.items }
    ensures answer { IfOk result
        (λ a. a ≡ spec.judged_all (as_said given.entry) entries.old.items) }
    ensures entries { IfOk result
        (λ a. entries.new.items ≡ spec.after a (as_said given.entry) entries.old.items) }
    ensures err { OnErr result (entries.new.items ≡ entries.old.items) }
{
    if entries.len() >= MOST_KEYS {
        return Ok(Added::Full);
    }
    let (answer, holding) = begin(alloc, given)?;
    let key = given.key();
    push_entry(entries, Entry { key, holding })?;
    Ok(answer)
}

/// Puts a key behind the others.
fn push_entry(entries: &mut Vec<Entry>, entry: Entry) -> Result<(), NoMemory>
    ensures ok { OnOk result (entries.new.items ≡ entries.old.items ++ entry ∷ []) }
    ensures err { OnErr result (entries.new.items ≡ entries.old.items) }
{
    match entries.push(entry) {
        Ok(()) => Ok(()),
        Err(_) => Err(NoMemory),
    }
}

impl Gather {
    /// A gatherer for a port that has no note.
    pub fn new(alloc: Global, port: u16) -> Result<Gather, NoMemory>
        ensures { IfOk result (λ g. g ≡ record { port = port; entries = [] }) }
    {
        Ok(Gather {
            port,
            entries: Vec::new(alloc),
        })
    }

    /// The number of keys. Takes no memory.
    pub fn len(&self) -> u32
        ensures { result ≡ length self.now.entries }
    {
        self.entries.len() as u32
    }

    /// What is held of the key at a place, from 0. Condition: there are more than `i` keys.
    pub fn held(&self, alloc: Global, i: u32) -> Result<Held, NoMemory>
        requires { i < length self.now.entries }
        ensures { IfOk result (λ h. Some h ≡ entry_held (slice_get self.now.entries i)) }
    {
        held_of(alloc, &self.entries[i as usize])
    }

    /// Adds a note, and answers what it is. After `NoMemory` all is as before.
    #[tactic(auto, unfolding(crate::specs::Gathers::added_note))]
    pub fn add(&mut self, alloc: Global, note: &Note) -> Result<Added, NoMemory>
        ensures answer { IfOk result (λ a. a ≡ spec.answer_of note.now self.old) }
        ensures ok { OnOk result (self.new ≡ spec.with_note note.now self.old) }
        ensures err { OnErr result (self.new ≡ self.old) }
    {
        match said_in(self.port, note) {
            Some(given) => add_part(alloc, &mut self.entries, given),
            None => Ok(Added::Stranger),
        }
    }
}
