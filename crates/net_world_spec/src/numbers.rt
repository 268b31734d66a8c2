//! The lowest and the highest number on the wire.
ghost use Rattle.std.specs.Prelude.{◌≡◌};
ghost use Rattle.net_world_spec.specs.Numbers as spec;

use crate::lines::FrameOnWire;

/// A number, or the one before it where that is lower.
fn at_most(number: u32, before: Option<u32>) -> u32
    ensures { result ≡ spec.at_most number before }
{
    match before {
        None => number,
        Some(lowest) => number.min(lowest),
    }
}

/// A number, or the one before it where that is higher.
fn at_least(number: u32, before: Option<u32>) -> u32
    ensures { result ≡ spec.at_least number before }
{
    match before {
        None => number,
        Some(highest) => number.max(highest),
    }
}

/// The lowest number of a frame on the wire, or `None` where it is empty. Takes no memory.
#[tactic(auto, using(crate::proofs::WireEnds::lowest_all))]
pub fn lowest(wire: &[FrameOnWire]) -> Option<u32>
    ensures { result ≡ spec.lowest wire.now }
{
    let mut found = None;
    for frame in wire {
        found = Some(at_most(frame.number, found));
    }
    found
}

/// The highest number of a frame on the wire, or `None` where it is empty. Takes no memory.
#[tactic(auto, using(crate::proofs::WireEnds::highest_all))]
pub fn highest(wire: &[FrameOnWire]) -> Option<u32>
    ensures { result ≡ spec.highest wire.now }
{
    let mut found = None;
    for frame in wire {
        found = Some(at_least(frame.number, found));
    }
    found
}
