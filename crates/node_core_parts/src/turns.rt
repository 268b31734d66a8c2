//! A visit that was made and settled, of which nothing stands yet: what it lists, and what it sends.
ghost use Rattle.std.specs.Prelude.{◌≡◌, ◌≤◌, ◌+◌, ◌∷◌, ◌++◌, map, All, length, vec_len, vec_capacity, IfOk, IsSome, IsTrue};
ghost use Rattle.std.specs.Option.{option_to_list};
ghost use Rattle.node_core_spec.specs.Node as spec;
ghost use Rattle.node_core_spec.specs.declared.acts.Act.TheVariants.{Noted, Ended};
ghost use Rattle.node_core_parts.specs.Turns.{is_spent as spent, closed_services, IsListing};
ghost use Rattle.node_core_parts.specs.Carried.{Carries};

use crate::leaving::Leavings;
use crate::outgoing::visit_sendings;
use crate::sends::{begin_acts, send_all};
use containers::Items;
use node_core_spec::{Act, ActList, TxQueue};
use plan_base::{Family, Name, NoMemory, Stamp};
use plan_eval_settle::Settled;
use plan_meaning::{Outbox, Outcome, Visit};
use service_api::{Notes, Services};
use std::alloc::{AllocError, Global};

/// A settled visit that was made, of which nothing stands yet: the acts up to its sends with room for theirs, the sends as they
/// go on, and whether its work was spent.
pub struct Turn {
    /// The acts, with room for those of the sends.
    pub acts: Vec<Act>,
    /// The sends, as they go on.
    pub sends: Leavings,
    /// Whether its work was spent.
    pub is_spent: bool,
}

impl Drop for Turn {
    fn drop(self) {
        let Turn {
            acts: _acts,
            sends: _sends,
            is_spent: _is_spent,
        } = self;
    }
}

impl Turn {
    /// Its acts, with its sends queued. Condition: there is room for their acts. Takes no memory.
    pub fn end(self, lanes: &mut [TxQueue]) -> ActList
        requires { vec_len self.acts + length self.sends ≤ vec_capacity self.acts }
        ensures acts { result ≡ self.acts.items ++ spec.sends_acts lanes.old self.sends }
        ensures lanes { lanes.new ≡ spec.sends_queues lanes.old self.sends }
    {
        let Turn {
            mut acts,
            sends,
            is_spent: _is_spent,
        } = self;
        send_all(&mut acts, lanes, sends);
        Items::from_vec(acts)
    }
}

/// Whether an outcome is that of spent work.
pub fn is_spent(outcome: &Outcome) -> bool
    ensures { result ≡ spent outcome.now }
{
    match outcome {
        Outcome::WorkSpent => true,
        _ => false,
    }
}

/// Makes the changes of a visit stand, or undoes them where its work was spent. Takes no memory.
pub fn close<S: Services>(services: &mut S, is_spent: bool)
    requires open { IsSome (S.stands services.old).begun }
    requires ready { IsTrue (S.stands services.old).ready }
    ensures { S.stands services.new ≡ closed_services is_spent (S.stands services.old) }
{
    if is_spent {
        services.abandon();
    } else {
        services.keep();
    }
}

/// The act of a handler that is called with this bound.
fn handled_act(family: Family, handled: Option<Name>, bound: u32) -> Option<Act>
    ensures { option_to_list result ≡ spec.handled_acts family handled bound }
{
    match handled {
        None => None,
        Some(name) => Some(Act::Handled(family, name, bound)),
    }
}

/// What a settled visit lists before its sends, behind some acts: its notes, how it ended, the evals that it paid, what is left,
/// and the handler that is called.
struct Listing {
    before: ActList,
    notes: Notes,
    outcome: Outcome,
    evals: u32,
    rest: u32,
    handled: Option<Name>,
}

impl Drop for Listing {
    fn drop(self) {
        let Listing {
            before: _before,
            notes: _notes,
            outcome: _outcome,
            evals: _evals,
            rest: _rest,
            handled: _handled,
        } = self;
    }
}

impl Listing {
    /// Its acts, with room for so many sends.
    fn acts(self, family: Family, left: u32, sends: usize) -> Result<Vec<Act>, AllocError>
        ensures acts { IfOk result (λ acts. acts.items ≡ self.before ++
            (map Noted self.notes ++ (Ended family self.outcome self.evals self.rest
            ∷ spec.handled_acts family self.handled left))) }
        ensures room { IfOk result (λ acts. vec_len acts + sends ≤ vec_capacity acts) }
    {
        let Listing {
            before,
            notes,
            outcome,
            evals,
            rest,
            handled,
        } = self;
        let end = Act::Ended(family, outcome, evals, rest);
        let handled = handled_act(family, handled, left);
        begin_acts(before, notes, end, handled, sends)
    }
}

/// What a settled visit lists after some acts, and what it sends.
fn listing_of(settled: Settled, before: ActList) -> (Listing, Outbox)
    ensures { IsListing settled before result }
{
    let Settled { visit, handled } = settled;
    let Visit {
        outcome,
        evals,
        left: rest,
        outbox,
        notes,
        work: _work,
    } = visit;
    let listing = Listing {
        before,
        notes,
        outcome,
        evals,
        rest,
        handled,
    };
    (listing, outbox)
}

/// What a settled visit lists and sends, with all the room that it needs. Condition: without a mark nothing that it sends has a
/// handler.
#[tactic(auto, unfolding(node_core_spec::specs::Node::visit_sends))]
pub fn turn_of(
    alloc: Global,
    mark: Option<Stamp>,
    family: Family,
    left: u32,
    settled: Settled,
    before: ActList,
) -> Result<(Vec<Act>, Leavings), NoMemory>
    requires { All (Carries mark) settled.visit.outbox }
    ensures acts { IfOk result (λ t. t.0.items ≡ before ++
        (map Noted settled.visit.notes ++ (Ended family settled.visit.outcome settled.visit.evals
        settled.visit.left ∷ spec.handled_acts family settled.handled left))) }
    ensures sends { IfOk result (λ t. t.1 ≡ spec.visit_sends mark settled.visit) }
    ensures room { IfOk result (λ t. vec_len t.0 + length t.1 ≤ vec_capacity t.0) }
{
    let (listing, outbox) = listing_of(settled, before);
    let sends = visit_sendings(alloc, mark, outbox)?;
    let acts = listing.acts(family, left, sends.len())?;
    Ok((acts, sends))
}
