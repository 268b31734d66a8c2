//! The lists of what a step does.
ghost use Rattle.std.specs.Prelude.{◌≡◌, ◌≢◌, ◌++◌, ◌+◌, ◌≤◌, IfOk, OnErr, [], ◌∷◌, None, Some, vec_len, vec_capacity};
ghost use Rattle.node_core_spec.specs.declared.acts.Act.TheVariants as act;
ghost use Rattle.packet_frame.specs.declared.fault.FrameFault.TheVariants as faults;
ghost use Rattle.packet_frame.specs.Spelled as spelled;

use containers::Items;
use node_core_spec::{Act, ActList, Acts};
use packet_frame::{EncodedFrame, FrameFault};
use plan_base::{Dev, NoMemory};
use std::alloc::{AllocError, Global};

/// The acts of most steps are no more than these.
const MOST_ACTS: usize = 4;

/// Room for the acts of most steps.
pub fn acts_room(alloc: Global) -> Result<Vec<Act>, NoMemory>
    ensures none { IfOk result (λ room. room.items ≡ []) }
    ensures room { IfOk result (λ room. vec_len room + 1 ≤ vec_capacity room) }
{
    Ok(Vec::with_capacity(alloc, MOST_ACTS)?)
}

/// A list of one act. Condition: there is room for it.
pub fn one_act(room: Vec<Act>, act: Act) -> ActList
    requires none { room.items ≡ [] }
    requires room { vec_len room + 1 ≤ vec_capacity room }
    ensures { result ≡ act ∷ [] }
{
    let mut acts = room;
    acts.push_reserved(act);
    Items::from_vec(acts)
}

/// Acts and one more.
pub fn with_act(before: ActList, act: Act) -> Result<ActList, NoMemory>
    ensures { IfOk result (λ acts. acts ≡ before ++ act ∷ []) }
{
    let mut acts = before;
    acts.add(act)?;
    Ok(acts)
}

/// Room for two acts.
pub fn two_room(alloc: Global) -> Result<Vec<Act>, NoMemory>
    ensures none { IfOk result (λ room. room.items ≡ []) }
    ensures room { IfOk result (λ room. vec_len room + 2 ≤ vec_capacity room) }
{
    Ok(Vec::with_capacity(alloc, 2)?)
}

/// What a step gives that lists two acts and does nothing. Condition: there is room for them.
pub fn only_acts(room: Vec<Act>, first: Act, second: Act) -> Acts
    requires none { room.items ≡ [] }
    requires room { vec_len room + 2 ≤ vec_capacity room }
    ensures list { result.list ≡ first ∷ second ∷ [] }
    ensures frame { result.frame ≡ None }
{
    let mut list = room;
    list.push_reserved(first);
    list.push_reserved(second);
    Acts {
        list: Items::from_vec(list),
        frame: None,
    }
}

/// The refusal of bytes that are no frame, which a step reports; only where an allocation failed the step is refused.
pub fn refusal_of(fault: FrameFault) -> Result<FrameFault, NoMemory>
    ensures ok { IfOk result (λ refusal. (refusal ≡ fault) × (fault ≢ faults.NoMemory)) }
    ensures err { OnErr result (fault ≡ faults.NoMemory) }
{
    match fault {
        FrameFault::NoMemory => Err(NoMemory),
        refusal => Ok(refusal),
    }
}

/// The act of a tick, with room for those of so many sends.
pub fn ticked(alloc: Global, now: u64, sends: usize) -> Result<Vec<Act>, AllocError>
    requires { sends + 1 ≤ 18446744073709551615 }
    ensures acts { IfOk result (λ acts. acts.items ≡ act.Ticked now ∷ []) }
    ensures room { IfOk result (λ acts. vec_len acts + sends ≤ vec_capacity acts) }
{
    let mut acts = Vec::with_capacity(alloc, sends + 1)?;
    acts.push_reserved(Act::Ticked(now));
    Ok(acts)
}

/// What a step gives that takes a frame of a device. Condition: there is room for an act.
pub fn taken(room: Vec<Act>, dev: Dev, frame: EncodedFrame) -> Acts
    requires none { room.items ≡ [] }
    requires room { vec_len room + 1 ≤ vec_capacity room }
    ensures list { result.list ≡ act.Taken dev (spelled.what_of frame.frame) ∷ [] }
    ensures frame { result.frame ≡ Some frame }
{
    let mut list = room;
    list.push_reserved(Act::Taken(dev, frame.what()));
    Acts {
        list: Items::from_vec(list),
        frame: Some(frame),
    }
}

/// What a step gives that finds no frame.
pub fn none_taken(room: Vec<Act>) -> Acts
    requires { room.items ≡ [] }
    ensures list { result.list ≡ [] }
    ensures frame { result.frame ≡ None }
{
    Acts {
        list: Items::from_vec(room),
        frame: None,
    }
}
