//! An output in memory.
ghost use Rattle.std.specs.Prelude.{◌≡◌, ◌++◌, ◌-◌, ◌<◌, ◌≤◌, ◌⊎◌, [], true, take, length, IsNone, IfNone, IfSome, IsErr, OnErr, IfOk, MatchOption, MatchResult, option_map};
ghost use Rattle.node_io.specs.Sinks.{Pushes};
ghost use Rattle.node_io.specs.Memory.{sink_state, room_of, IsDuePush, IsFull, LacksRoom, CountsPush};

use crate::counts::{is_due, raise};
use crate::outside::{Calls, Failed, Sink};
use plan_base::{Bytes, NoMemory};
use std::alloc::Global;

/// A sink in memory, which keeps the bytes that it took.
#[derive(Drop)]
pub struct MemSink {
    taken: Bytes,
    fails: Calls,
    // the pushes so far, the growths that found no memory, and the faults
    calls: u64,
    refused: u64,
    faults: u64,
    // the bytes that may still be taken, where there is an end
    room: Option<u64>,
}

impl MemSink {
    /// A sink that fails at the pushes whose numbers, from 1, are in `fails`.
    pub fn new(alloc: Global, fails: Calls) -> Result<MemSink, NoMemory>
        ensures { IfOk result
            (λ s. (s.taken ≡ []) × (s.fails ≡ fails) × (s.calls ≡ 0) × (s.refused ≡ 0)
            × (s.faults ≡ 0) × (s.room ≡ None)) }
    {
        Ok(MemSink {
            taken: Bytes::new(alloc),
            fails,
            calls: 0,
            refused: 0,
            faults: 0,
            room: None,
        })
    }

    /// A sink that takes `n` bytes and then fails.
    pub fn stopping(alloc: Global, n: u64) -> Result<MemSink, NoMemory>
        ensures { IfOk result
            (λ s. (s.taken ≡ []) × (s.fails ≡ []) × (s.calls ≡ 0) × (s.refused ≡ 0) × (s.faults ≡ 0)
            × (s.room ≡ Some n)) }
    {
        Ok(MemSink {
            taken: Bytes::new(alloc),
            fails: Calls::new(alloc),
            calls: 0,
            refused: 0,
            faults: 0,
            room: Some(n),
        })
    }

    /// The bytes taken so far.
    pub fn taken(&self) -> &Bytes
        ensures { result.now ≡ (⟦<MemSink as Sink>⟧.state self.now).taken }
    {
        &self.taken
    }

    // Takes a prefix of `piece` and answers its length, or `None` where the push is to fail.
    fn take(&mut self, piece: &[u8]) -> Option<usize>
        ensures count { IfSome result
            (λ n. (n ≤ length piece.now) × (0 < length piece.now → 0 < n)) }
        ensures bytes { MatchOption result (self.new.taken ≡ self.old.taken)
            (λ n. self.new.taken ≡ self.old.taken ++ take n piece.now) }
        ensures room { MatchOption result (self.new.room ≡ self.old.room)
            (λ n. self.new.room ≡ option_map (λ r. r - n) self.old.room) }
        ensures due { IsDuePush self.old → IsNone result }
        ensures full { IsFull self.old piece.now → IsNone result }
        ensures only { IfNone result (IsDuePush self.old ⊎ IsFull self.old piece.now
            ⊎ LacksRoom self.old self.new) }
        ensures counted { CountsPush self.old self.new }
        ensures kept { self.new.faults ≡ self.old.faults }
    {
        raise(&mut self.calls);
        if is_due(self.fails.as_slice(), self.calls) {
            return None;
        }
        let count = room_for(self.room, piece.len());
        if count == 0 && !piece.is_empty() {
            return None;
        }
        if self.taken.add_all(&piece[..count]).is_err() {
            raise(&mut self.refused);
            return None;
        }
        self.room = less(self.room, count);
        Some(count)
    }
}

// How many of `len` bytes there is room for.
fn room_for(room: Option<u64>, len: usize) -> usize
    ensures within { result ≤ len }
    ensures room { IfSome room (λ r. result ≤ r) }
    ensures spent { result ≡ 0 → 0 < len → room ≡ Some 0 }
{
    match room {
        Some(room) if room < len as u64 => room as usize,
        _ => len,
    }
}

// The room that is left after `count` bytes. Condition: there was room for them.
fn less(room: Option<u64>, count: usize) -> Option<u64>
    requires { IfSome room (λ r. count ≤ r) }
    ensures { result ≡ option_map (λ r. r - count) room }
{
    room.map(|room| room - count as u64)
}

impl Sink for MemSink {
    ghost state = { sink_state };

    fn push(&mut self, piece: &[u8]) -> Result<usize, Failed>
        ensures pushes { Pushes piece.now (sink_state self.old) (sink_state self.new) result }
        ensures room { MatchResult result
            (λ n. room_of self.new ≡ option_map (λ r. r - n) (room_of self.old))
            (λ _. room_of self.new ≡ room_of self.old) }
        ensures due { IsDuePush self.old → IsErr result }
        ensures full { IsFull self.old piece.now → IsErr result }
        ensures only { OnErr result (IsDuePush self.old ⊎ IsFull self.old piece.now
            ⊎ LacksRoom self.old self.new) }
        ensures counted { CountsPush self.old self.new }
    {
        match self.take(piece) {
            Some(count) => Ok(count),
            None => {
                raise(&mut self.faults);
                Err(Failed)
            }
        }
    }
}
