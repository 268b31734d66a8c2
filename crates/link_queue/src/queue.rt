//! A queue of at most 64 items, first in, first out.
ghost use Rattle.std.specs.Prelude.{◌≡◌, [], ◌∷◌, ◌++◌, ◌<◌, ◌≤◌, length, ◌↔◌, IsTrue, IsOk, IfOk, OnOk, IfErr, MatchOption};

use circular_buffer::HeapCircularBuffer;
use plan_base::NoMemory;
use std::alloc::Global;
use std::marker::Model;

/// The number of items that a queue has room for.
pub const MOST_QUEUED: u32 = 64;

/// A queue of at most 64 items, which contracts see as the list of its items from front to end.
#[derive(Drop)]
pub struct Queue<T> {
    ring: HeapCircularBuffer<T>,
}

impl<T> Model for Queue<T> {
    ghost use Rattle.std.specs.Prelude.{◌≡◌, ◌≤◌, List, length};
    ghost use Rattle.std.specs.Coded.{coded_list};

    ghost Value = { List T };

    ghost coded = { coded_list T.code };

    ghost view = { λ q. q.ring.items };

    ghost invariant = { λ q. (q.ring.capacity ≡ 64) × (length q.ring.items ≤ 64) };
}

impl<T: Drop> Queue<T> {
    /// An empty queue with room for 64 items, or `NoMemory` where that room is refused.
    pub fn with_room(alloc: Global) -> Result<Queue<T>, NoMemory>
        ensures { IfOk result (λ q. q ≡ []) }
    {
        let ring = HeapCircularBuffer::with_capacity(alloc, MOST_QUEUED as usize)?;
        Ok(Queue { ring })
    }

    /// Puts `item` at the end, or gives it back exactly where 64 items are queued. Takes no memory.
    pub fn push(&mut self, item: T) -> Result<(), T>
        ensures variant { IsOk result ↔ (length self.old < 64) }
        ensures ok { OnOk result (self.new ≡ self.old ++ item ∷ []) }
        ensures err { IfErr result (λ back. (back ≡ item) × (self.new ≡ self.old)) }
        ensures within { length self.new ≤ 64 }
    {
        self.ring.try_push_back(item)
    }

    /// Takes the first item off, or answers `None` exactly where there is none. Takes no memory.
    pub fn pop(&mut self) -> Option<T>
        ensures { MatchOption result ((self.old ≡ []) × (self.new ≡ []))
            (λ first. self.old ≡ first ∷ self.new) }
    {
        self.ring.pop_front()
    }

    /// The number of items, 0 to 64. Takes no memory.
    pub fn len(&self) -> u32
        ensures len { result ≡ length self.now }
        ensures within { result ≤ 64 }
    {
        self.ring.len() as u32
    }

    /// Whether there is no item. Takes no memory.
    pub fn is_empty(&self) -> bool
        ensures { IsTrue result ↔ (self.now ≡ []) }
    {
        self.ring.is_empty()
    }
}
