//! Gathers the notes of a log's acts.
ghost use Rattle.std.specs.Prelude.{◌≡◌, IfOk, OnOk};
ghost use Rattle.std.specs.List.{All};
ghost use Rattle.network_config.specs.NodeRules.{KeepsEntry, KeepsNodeEvent};
ghost use Rattle.node_core_spec.specs.State.{NodeState};
ghost use Rattle.node_core_spec.specs.Node.{node_step};
ghost use Rattle.node_core.specs.Stands.{version_of, NodeStands};
ghost use Rattle.node_log.specs.Runs.{acts_of, node_by};
ghost use Rattle.frag_chunks_log.specs.Counting as spec;

use frag_chunks::{Added, Gather};
use network_config::{Event, LogEvent};
use node_core::Node;
use node_core_spec::Act;
use plan_base::NoMemory;
use service_api::{Note, Services};
use std::alloc::Global;

/// What was gathered so far, and how many notes found no room.
pub struct Counting {
    /// What was gathered.
    pub gather: Gather,
    /// How many notes found no room; the count stands still at 2^64 - 1.
    pub skipped: u64,
}

impl Drop for Counting {
    fn drop(self) {
        let Counting {
            gather: _gather,
            skipped: _skipped,
        } = self;
    }
}

impl Counting {
    /// Nothing gathered for a port.
    pub fn nothing(alloc: Global, port: u16) -> Result<Counting, NoMemory>
        ensures { IfOk result (λ c. c ≡ spec.nothing port) }
    {
        let gather = Gather::new(alloc, port)?;
        Ok(Counting { gather, skipped: 0 })
    }

    /// Adds a note.
    #[tactic(auto, unfolding(crate::specs::Counting::with_note))]
    fn note(&mut self, alloc: Global, note: &Note) -> Result<(), NoMemory>
        ensures { OnOk result (self.new ≡ spec.with_note note.now self.old) }
    {
        let answer = self.gather.add(alloc, note)?;
        match answer {
            Added::Full => self.skipped = self.skipped.saturating_add(1),
            Added::Kept | Added::Again | Added::Stranger | Added::Spoiled => {}
        }
        Ok(())
    }

    /// Adds the note of an act, if it has one.
    fn act(&mut self, alloc: Global, act: &Act) -> Result<(), NoMemory>
        ensures { OnOk result (self.new ≡ spec.with_act act.now self.old) }
    {
        match act {
            Act::Noted(note) => self.note(alloc, note),
            _ => Ok(()),
        }
    }
}

/// Adds the notes of acts.
fn count_acts(alloc: Global, acts: &[Act], counting: &mut Counting) -> Result<(), NoMemory>
    ensures { OnOk result (counting.new ≡ spec.with_acts acts.now counting.old) }
{
    for act in acts {
        counting.act(alloc, act)?;
    }
    Ok(())
}

/// Makes a step again, and adds its notes.
#[tactic(auto, using(node_log::proofs::Within::comes_as))]
fn count_event<S: Services>(
    alloc: Global,
    node: &mut Node<S>,
    event: &Event,
    counting: &mut Counting,
) -> Result<(), NoMemory>
    requires { KeepsNodeEvent (version_of node.old) event.now }
    ensures same { version_of node.new ≡ version_of node.old }
    ensures notes { (s : NodeState) → NodeStands S.stands node.old s
        → OnOk result (counting.new ≡ spec.with_acts (node_step s event.now).acts counting.old) }
    ensures after { (s : NodeState) → NodeStands S.stands node.old s
        → OnOk result (NodeStands S.stands node.new (node_step s event.now).node) }
{
    let acts = node.step(alloc, event)?;
    let counted = count_acts(alloc, acts.list.as_slice(), counting);
    drop(acts);
    counted
}

/// Makes an entry again, and adds its notes; one that found no memory has none.
fn count_entry<S: Services>(
    alloc: Global,
    node: &mut Node<S>,
    entry: &LogEvent,
    counting: &mut Counting,
) -> Result<(), NoMemory>
    requires { KeepsEntry (version_of node.old) entry.now }
    ensures same { version_of node.new ≡ version_of node.old }
    ensures notes { (s : NodeState) → NodeStands S.stands node.old s
        → OnOk result (counting.new ≡ spec.with_acts (acts_of s entry.now) counting.old) }
    ensures after { (s : NodeState) → NodeStands S.stands node.old s
        → OnOk result (NodeStands S.stands node.new (node_by s entry.now)) }
{
    match entry {
        LogEvent::Step(event) => count_event(alloc, node, event, counting),
        LogEvent::Lost => Ok(()),
    }
}

/// Makes the entries of a log again, and adds their notes.
pub fn count_entries<S: Services>(
    alloc: Global,
    node: &mut Node<S>,
    entries: &[LogEvent],
    counting: &mut Counting,
) -> Result<(), NoMemory>
    requires { All (KeepsEntry (version_of node.old)) entries.now }
    ensures { (s : NodeState) → NodeStands S.stands node.old s
        → OnOk result (counting.new ≡ spec.with_entries s entries.now counting.old) }
{
    for entry in entries {
        count_entry(alloc, node, entry, counting)?;
    }
    Ok(())
}
