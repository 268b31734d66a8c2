//! Moves bodies between what came and what was delivered.
ghost use Rattle.std.specs.Prelude.{◌≡◌, ◌+◌, ◌<◌, ◌≤◌, ◌∷◌, [], ◌++◌, length, drop, slice_get, OnOk, OnErr, vec_len, vec_capacity};
ghost use Rattle.std.specs.Option.{option_copied};
ghost use Rattle.std.specs.VecDeque.{deque_capacity};
ghost use Rattle.reliable_ports.specs.Ends as spec;

use plan_base::{Bytes, NoMemory};
use std::collections::VecDeque;

/// Puts a body behind the others.
pub fn push_last(bodies: &mut VecDeque<Bytes>, body: Bytes) -> Result<(), NoMemory>
    ensures ok { OnOk result (bodies.new.items ≡ bodies.old.items ++ body ∷ []) }
    ensures err { OnErr result (bodies.new.items ≡ bodies.old.items) }
{
    match bodies.push_back(body) {
        Ok(()) => Ok(()),
        Err(_) => Err(NoMemory),
    }
}

/// The body at a place.
#[tactic(auto, using(crate::proofs::Held::item_is))]
pub fn body_in(bodies: &VecDeque<Bytes>, place: usize) -> Option<&Bytes>
    ensures { option_copied result ≡ slice_get bodies.now.items place }
{
    bodies.get(place)
}

/// Drops the first bodies, so many.
pub fn drop_front(bodies: &mut VecDeque<Bytes>, count: usize)
    ensures { bodies.new.items ≡ drop count bodies.old.items }
{
    for _dropped in 0..count {
        let _body = bodies.pop_front();
    }
}

/// Moves the bodies at the front that came to the delivered ones, drops the place of the one that is missing, and
/// answers how many moved. Condition: the delivered ones have room for them.
pub fn move_ready(early: &mut VecDeque<Option<Bytes>>, delivered: &mut Vec<Bytes>) -> u32
    requires room { vec_len delivered.old + length early.old.items ≤ vec_capacity delivered.old }
    requires few { length early.old.items ≤ 63 }
    ensures count { result ≡ length (spec.ready early.old.items) }
    ensures delivered { delivered.new.items ≡ delivered.old.items ++ spec.ready early.old.items }
    ensures early { early.new.items ≡ spec.behind early.old.items }
{
    let mut count = 0;
    while let Some(slot) = early.pop_front() {
        match slot {
            Some(body) => {
                delivered.push_reserved(body);
                count += 1;
            }
            None => return count,
        }
    }
    count
}

/// Makes places without a body, up to one that isn't there yet.
fn pad(early: &mut VecDeque<Option<Bytes>>, place: usize)
    requires within { length early.old.items ≤ place }
    requires room { place ≤ deque_capacity early.old }
    ensures items { early.new.items ≡ spec.padded_bodies place early.old.items }
    ensures len { length early.new.items ≡ place }
    ensures room { deque_capacity early.new ≡ deque_capacity early.old }
{
    for _at in early.len()..place {
        early.push_back_reserved(None);
    }
}

/// Keeps a body at its place, unless one is there. Where an allocation fails, all is as before.
#[tactic(auto, using(crate::proofs::Counts::kept_here, crate::proofs::Counts::kept_there, crate::proofs::Counts::kept_past))]
pub fn keep(early: &mut VecDeque<Option<Bytes>>, place: usize, body: Bytes) -> Result<(), NoMemory>
    requires { place < 63 }
    ensures ok { OnOk result (early.new.items ≡ spec.kept_bodies place body early.old.items) }
    ensures err { OnErr result (early.new.items ≡ early.old.items) }
{
    let places = early.len();
    if place < places {
        if early[place].is_none() {
            early[place] = Some(body);
        }
        return Ok(());
    }
    early.reserve(place + 1 - places)?;
    pad(early, place);
    early.push_back_reserved(Some(body));
    Ok(())
}
