//! What the logs so far sent, accepted and did.
ghost use Rattle.std.specs.Prelude.{◌≡◌, ◌+◌, ◌≤◌, List, [], ◌∷◌, ◌++◌, length, Some, OnOk};
ghost use Rattle.std.specs.List.{All, list_any};
ghost use Rattle.network_config.specs.NodeRules.{KeepsEntry, KeepsNodeEvent, KeepsLog};
ghost use Rattle.network_config.specs.declared.event.LogEvent.TheVariants.{Step};
ghost use Rattle.node_core_spec.specs.State.{NodeState};
ghost use Rattle.node_core.specs.Stands.{version_of, NodeStands};
ghost use Rattle.net_world_spec.specs.World.{Cables};
ghost use Rattle.ledger_audit.specs.Runs as runs;
ghost use Rattle.ledger_audit.specs.Audits.{Logged};
ghost use Rattle.ledger_audit.specs.Spelling.{FrameReads, EntriesRead};
ghost use Rattle.ledger_audit.specs.Reckonings.{ReckonsEntry};
ghost use Rattle.ledger_audit.specs.Pasts as spec;
ghost use Rattle.ledger_audit.specs.Pasts.{Past, Holds, IsReckoned, TakenReads, logged_of};

use crate::book::FamilyTotals;
use crate::keys::CrossingKey;
use crate::tally::Tallies;
use containers::Items;
use net_world_spec::{LinkEnd, far_end};
use network_config::{Event, Link, Log, LogEvent};
use node_core::Node;
use node_core_spec::{Act, Acts};
use node_log::begin_node;
use packet_frame::EncodedFrame;
use plan_base::{Dev, Family, Host, NoMemory};
use service_api::Services;
use service_registry::Registry;
use std::alloc::Global;

/// Where an accepted frame stands: the number of its log and that of its entry, each from 1.
#[derive(Clone, Copy, PartialEq, Eq)]
pub struct LogPosition {
    /// The number of the log.
    pub log: u32,
    /// The number of the entry.
    pub event: u32,
}

/// A frame that was accepted.
#[derive(Drop)]
pub struct Arrived {
    /// The number of its log, from 1.
    pub log: u32,
    /// The number of its entry, from 1.
    pub event: u32,
    /// The end that must have sent it, and its bytes.
    pub key: CrossingKey,
}

/// What the logs so far sent, accepted and did: the frames sent with their counts, the frames accepted in order, what each
/// family was granted, paid and left, the families injected in order, and the hosts.
pub struct AuditState {
    /// The frames sent, with their counts.
    pub tallies: Tallies,
    /// The frames accepted, in order.
    pub arrived: Items<Arrived>,
    /// The counts of families.
    pub book: FamilyTotals,
    /// The families injected, in order.
    pub injected: Items<Family>,
    /// The hosts of the logs, in order.
    pub hosts: Items<Host>,
}

// (with its own `Drop`, so that what drops one need not prove again how its parts are dropped)
impl Drop for AuditState {
    fn drop(self) {
        let AuditState {
            tallies: _tallies,
            arrived: _arrived,
            book: _book,
            injected: _injected,
            hosts: _hosts,
        } = self;
    }
}

/// The family that an act injects, if it does.
fn injected_by(act: &Act) -> Option<Family>
    ensures { result ≡ spec.injected_by act.now }
{
    match act {
        Act::Injected(family, _) => Some(*family),
        _ => None,
    }
}

/// Adds what an act counts, and the family that it injects.
fn reckon_act(act: &Act, reckoning: &mut AuditState) -> Result<(), NoMemory>
    ensures { (p : Past) → Holds reckoning.old p
        → OnOk result (Holds reckoning.new (spec.with_acts (act.now ∷ []) p)) }
{
    reckoning.book.act(act)?;
    match injected_by(act) {
        Some(family) => {
            reckoning.injected.add(family)?;
            Ok(())
        }
        None => Ok(()),
    }
}

/// Adds what acts count, and the families that they inject.
fn reckon_acts(acts: &[Act], reckoning: &mut AuditState) -> Result<(), NoMemory>
    ensures { (p : Past) → Holds reckoning.old p
        → OnOk result (Holds reckoning.new (spec.with_acts acts.now p)) }
{
    for act in acts {
        reckon_act(act, reckoning)?;
    }
    Ok(())
}

/// Whether an act refuses the frame that arrived.
fn is_refusal(act: &Act) -> bool
    ensures { result ≡ runs.is_refusal act.now }
{
    match act {
        Act::Bad(_) => true,
        Act::Misplaced => true,
        Act::Stale(_, _) => true,
        _ => false,
    }
}

/// Whether one of these acts refuses the frame that arrived.
fn is_refused(acts: &[Act]) -> bool
    ensures { result ≡ list_any runs.is_refusal acts.now }
{
    acts.iter().any(|act| is_refusal(act))
}

/// Whether an arrival with these acts was accepted.
fn is_accepted(acts: &[Act]) -> bool
    ensures { result ≡ runs.is_accepted acts.now }
{
    !is_refused(acts)
}

/// Adds a frame that arrived from an end, where its acts don't refuse it.
#[tactic(auto, using(crate::proofs::PastLaws::arrived_not))]
fn reckon_arrival(
    alloc: Global,
    mark: LogPosition,
    from: Option<LinkEnd>,
    bytes: &[u8],
    acts: &[Act],
    reckoning: &mut AuditState,
) -> Result<(), NoMemory>
    ensures { (p : Past) → Holds reckoning.old p
        → OnOk result (Holds reckoning.new
        (spec.with_accepted
        (runs.numbered_arrivals mark.log mark.event (spec.arrived_from from bytes.now acts.now))
        p)) }
{
    if !is_accepted(acts) {
        return Ok(());
    }
    let key = CrossingKey::of(alloc, from, bytes)?;
    let LogPosition { log, event } = mark;
    reckoning.arrived.add(Arrived { log, event, key })?;
    Ok(())
}

/// Adds a frame that was taken off a queue.
fn reckon_sent(
    alloc: Global,
    here: Host,
    dev: Dev,
    frame: &EncodedFrame,
    reckoning: &mut AuditState,
) -> Result<(), NoMemory>
    ensures holds { (p : Past) → Holds reckoning.old p
        → OnOk result
        (Holds reckoning.new (spec.with_sent (runs.sends_frame here dev (Some frame.now)) p)) }
    ensures reads { OnOk result (FrameReads (Some frame.now)) }
{
    let end = LinkEnd { host: here, dev };
    let bytes = frame.to_bytes(alloc)?;
    let key = CrossingKey::of(alloc, Some(end), bytes.as_slice())?;
    reckoning.tallies.send(key)?;
    Ok(())
}

/// Adds a frame that was taken off a queue, where one was.
#[tactic(auto, using(crate::proofs::PastLaws::no_taking))]
fn reckon_taken(
    alloc: Global,
    here: Host,
    dev: Dev,
    frame: &Option<EncodedFrame>,
    reckoning: &mut AuditState,
) -> Result<(), NoMemory>
    ensures holds { (p : Past) → Holds reckoning.old p
        → OnOk result
        (Holds reckoning.new (spec.with_sent (runs.sends_frame here dev frame.now) p)) }
    ensures reads { OnOk result (FrameReads frame.now) }
{
    match frame {
        Some(frame) => reckon_sent(alloc, here, dev, frame, reckoning),
        None => Ok(()),
    }
}

/// Adds the frame that an event accepted or took.
#[tactic(auto, using(crate::proofs::PastLaws::only_accepted, crate::proofs::PastLaws::only_sent, crate::proofs::PastLaws::neither))]
fn reckon_frames(
    alloc: Global,
    links: &[Link],
    mark: LogPosition,
    here: Host,
    event: &Event,
    acts: &Acts,
    reckoning: &mut AuditState,
) -> Result<(), NoMemory>
    ensures holds { (p : Past) → Holds reckoning.old p
        → OnOk result (Holds reckoning.new
        (spec.with_frames links.now mark.log mark.event here event.now
        acts.now.list acts.now.frame p)) }
    ensures reads { OnOk result (TakenReads event.now acts.now.frame) }
{
    match event {
        Event::Frame(dev, bytes) => {
            let from = far_end(links, here, *dev);
            reckon_arrival(
                alloc,
                mark,
                from,
                bytes.as_slice(),
                acts.list.as_slice(),
                reckoning,
            )?;
            Ok(())
        }
        Event::Take(dev) => {
            reckon_taken(alloc, here, *dev, &acts.frame, reckoning)?;
            Ok(())
        }
        _ => Ok(()),
    }
}

/// Adds what a step did, accepted and sent, by its acts.
fn reckon_step(
    alloc: Global,
    links: &[Link],
    mark: LogPosition,
    here: Host,
    event: &Event,
    acts: &Acts,
    reckoning: &mut AuditState,
) -> Result<(), NoMemory>
    ensures holds { (p : Past) → Holds reckoning.old p
        → OnOk result (Holds reckoning.new
        (spec.with_frames links.now mark.log mark.event here event.now
        acts.now.list acts.now.frame (spec.with_acts acts.now.list p))) }
    ensures reads { OnOk result (TakenReads event.now acts.now.frame) }
{
    reckon_acts(acts.list.as_slice(), reckoning)?;
    reckon_frames(alloc, links, mark, here, event, acts, reckoning)?;
    Ok(())
}

/// Makes a step again, and adds what it sent, accepted and did.
#[tactic(auto, using(node_log::proofs::Within::comes_as))]
fn reckon_event<S: Services>(
    alloc: Global,
    links: &[Link],
    mark: LogPosition,
    node: &mut Node<S>,
    event: &Event,
    reckoning: &mut AuditState,
) -> Result<(), NoMemory>
    requires { KeepsNodeEvent (version_of node.old) event.now }
    ensures { ReckonsEntry S.stands links.now mark (Step event.now) node.old node.new
        reckoning.old reckoning.new result }
{
    let here = node.here();
    let acts = node.step(alloc, event)?;
    reckon_step(alloc, links, mark, here, event, &acts, reckoning)?;
    Ok(())
}

/// Makes an entry again, and adds what it sent, accepted and did: nothing, where it found no memory.
#[tactic(auto, using(crate::proofs::PastLaws::lost_held))]
fn reckon_entry<S: Services>(
    alloc: Global,
    links: &[Link],
    mark: LogPosition,
    node: &mut Node<S>,
    entry: &LogEvent,
    reckoning: &mut AuditState,
) -> Result<(), NoMemory>
    requires { KeepsEntry (version_of node.old) entry.now }
    ensures { ReckonsEntry S.stands links.now mark entry.now node.old node.new
        reckoning.old reckoning.new result }
{
    match entry {
        LogEvent::Step(event) => reckon_event(alloc, links, mark, node, event, reckoning),
        LogEvent::Lost => Ok(()),
    }
}

/// Makes the entries of a log again, and adds what they sent, accepted and did.
fn reckon_entries<S: Services>(
    alloc: Global,
    links: &[Link],
    log: u32,
    node: &mut Node<S>,
    entries: &[LogEvent],
    reckoning: &mut AuditState,
) -> Result<(), NoMemory>
    requires keeps { All (KeepsEntry (version_of node.old)) entries.now }
    requires few { length entries.now ≤ 50000 }
    ensures holds { (s : NodeState) → NodeStands S.stands node.old s
        → (p : Past) → Holds reckoning.old p
        → OnOk result (Holds reckoning.new (spec.with_entries links.now log 0 s entries.now p)) }
    ensures reads { (s : NodeState) → NodeStands S.stands node.old s
        → OnOk result (EntriesRead s entries.now) }
{
    let mut event = 0;
    for entry in entries {
        event += 1;
        reckon_entry(
            alloc,
            links,
            LogPosition { log, event },
            node,
            entry,
            reckoning,
        )?;
    }
    Ok(())
}

/// Nothing so far. Takes no memory.
pub fn nothing_reckoned(alloc: Global) -> AuditState
    ensures { (links : Cables) → IsReckoned links [] result }
{
    AuditState {
        tallies: Tallies::new(alloc),
        arrived: Items::new(alloc),
        book: FamilyTotals::new(alloc),
        injected: Items::new(alloc),
        hosts: Items::new(alloc),
    }
}

/// Makes the steps of a log again with its node at the beginning, and adds what they sent, accepted and did, and the host.
fn reckon_node<S: Services>(
    alloc: Global,
    links: &[Link],
    number: u32,
    log: &Log,
    node: &mut Node<S>,
    reckoning: &mut AuditState,
) -> Result<(), NoMemory>
    requires keeps { All (KeepsEntry (version_of node.old)) log.now.events }
    requires few { length log.now.events ≤ 50000 }
    ensures holds { (s : NodeState) → NodeStands S.stands node.old s
        → (p : Past) → Holds reckoning.old p
        → OnOk result (Holds reckoning.new (spec.with_host log.now.node.here
        (spec.with_entries links.now number 0 s log.now.events p))) }
    ensures reads { (s : NodeState) → NodeStands S.stands node.old s
        → OnOk result (EntriesRead s log.now.events) }
{
    reckon_entries(alloc, links, number, node, log.events.as_slice(), reckoning)?;
    reckoning.hosts.add(log.node.here)?;
    Ok(())
}

/// Makes the steps of a log again, from its node's beginning, and adds what they sent, accepted and did. The number is that
/// of the log, from 1 to 16. Condition: the log keeps its rules.
#[tactic(auto, using(node_log::proofs::Resting::new_rests))]
pub fn reckon_log(
    alloc: Global,
    links: &[Link],
    number: u32,
    log: &Log,
    reckoning: &mut AuditState,
) -> Result<(), NoMemory>
    requires { KeepsLog log.now }
    ensures { (ls : List Logged) → IsReckoned links.now ls reckoning.old
        → length ls + 1 ≡ number → number ≤ 16
        → OnOk result (IsReckoned links.now (ls ++ logged_of log.now ∷ []) reckoning.new) }
{
    let services = Registry::new(alloc, log.missing.as_slice());
    let mut node = begin_node(alloc, &log.node, services)?;
    reckon_node(alloc, links, number, log, &mut node, reckoning)
}
