//! Children in memory, whose statuses are a script.
ghost use Rattle.std.specs.Prelude.{◌≡◌, ◌++◌, ◌∷◌, ◌+◌, ◌⊎◌, [], None, Some, true, filter, Contains, IsErr, IfOk, OnOk, OnErr, MatchResult, slice_get};
ghost use Rattle.node_io.specs.Spawners.{Starts, Waits};
ghost use Rattle.node_io.specs.Memory.{spawner_state, IsDueAtSpawner, SpawnerLacksMemory, HasAllChildren, CountsAtSpawner};

use crate::children::Children;
use crate::counts::{is_due, raise};
use crate::outside::{Calls, Failed};
use crate::spawner::{Child, Spawner, Statuses};
use crate::text::text_of;
use containers::Items;
use plan_base::{NoMemory, Text, Texts};
use std::alloc::{AllocError, Global};

/// A spawner in memory: the k-th child started has the k-th status.
#[derive(Drop)]
pub struct MemSpawner {
    alloc: Global,
    statuses: Statuses,
    starts: Items<Texts>,
    children: Children,
    fails: Calls,
    // the calls so far, the growths that found no memory, and the faults
    calls: u64,
    refused: u64,
    faults: u64,
}

impl MemSpawner {
    /// A spawner with these statuses, whose calls with the numbers in `fails`, from 1, fail.
    pub fn new(alloc: Global, statuses: Statuses, fails: Calls) -> Result<MemSpawner, NoMemory>
        ensures { IfOk result
            (λ s. (s.statuses ≡ statuses) × (s.starts ≡ []) × (s.children.0 ≡ 0)
            × (s.children.1 ≡ []) × (s.fails ≡ fails) × (s.calls ≡ 0)
            × (s.refused ≡ 0) × (s.faults ≡ 0)) }
    {
        Ok(MemSpawner {
            alloc,
            statuses,
            starts: Items::new(alloc),
            children: Children::none(alloc),
            fails,
            calls: 0,
            refused: 0,
            faults: 0,
        })
    }
}

fn copy_words(alloc: Global, words: &[Text]) -> Result<Texts, AllocError>
    ensures { IfOk result (λ copy. copy ≡ words.now) }
{
    let mut copy = Texts::new(alloc);
    for word in words {
        copy.add(text_of(alloc, word.as_slice())?)?;
    }
    Ok(copy)
}

// Adds the words of a start to those asked.
fn note_start(alloc: Global, starts: &mut Items<Texts>, words: &Texts) -> Result<(), AllocError>
    ensures ok { OnOk result (starts.new ≡ starts.old ++ words.now ∷ []) }
    ensures err { OnErr result (starts.new ≡ starts.old) }
{
    let copy = copy_words(alloc, words.as_slice())?;
    starts.add(copy)
}

impl Spawner for MemSpawner {
    ghost state = { spawner_state };

    fn start(&mut self, words: &Texts) -> Result<Child, Failed>
        ensures starts { Starts words.now (spawner_state self.old) (spawner_state self.new) result }
        ensures due { IsDueAtSpawner self.old → IsErr result }
        ensures only { OnErr result (IsDueAtSpawner self.old ⊎ HasAllChildren self.old
            ⊎ SpawnerLacksMemory self.old self.new) }
        ensures asked { OnErr result
            ((self.new.starts ≡ self.old.starts ++ words.now ∷ [])
            ⊎ SpawnerLacksMemory self.old self.new) }
        ensures counted { CountsAtSpawner self.old self.new }
    {
        raise(&mut self.calls);
        let due = is_due(self.fails.as_slice(), self.calls);
        if note_start(self.alloc, &mut self.starts, words).is_err() {
            raise(&mut self.refused);
            raise(&mut self.faults);
            return Err(Failed);
        }
        if due || self.children.is_full() {
            raise(&mut self.faults);
            return Err(Failed);
        }
        match self.children.open_next() {
            Ok(child) => Ok(child),
            Err(_) => {
                raise(&mut self.refused);
                raise(&mut self.faults);
                Err(Failed)
            }
        }
    }

    fn wait(&mut self, child: Child) -> Result<u8, Failed>
        requires { Contains self.old.children.1 child }
        ensures waits { Waits child (spawner_state self.old) (spawner_state self.new) result }
        ensures due { IsDueAtSpawner self.old → IsErr result }
        ensures past { slice_get self.old.statuses child.0 ≡ None → IsErr result }
        ensures only { OnErr result (IsDueAtSpawner self.old
            ⊎ (slice_get self.old.statuses child.0 ≡ None)) }
        ensures counted { CountsAtSpawner self.old self.new }
    {
        raise(&mut self.calls);
        let due = is_due(self.fails.as_slice(), self.calls);
        self.children.close(child);
        match self.statuses.get(child.0 as usize) {
            Some(status) if !due => Ok(*status),
            _ => {
                raise(&mut self.faults);
                Err(Failed)
            }
        }
    }
}
