//! The ends of links, and frames that are handed off the wire.
ghost use Rattle.std.specs.Prelude.{◌≡◌, ◌++◌, ◌<◌, length, slice_get, slice_set, Some, IfOk, IfSome, OnOk};
ghost use Rattle.net_world_spec.specs.declared.lines.FrameOnWire.{FrameOnWire as WiredOf};
ghost use Rattle.net_world_spec.specs.Counts.{late_at};
ghost use Rattle.net_world_spec.specs.World as spec;

use containers::Items;
use net_world_spec::{Delivery, FrameOnWire, Wire, peer_of};
use network_config::Link;
use plan_base::{Dev, Host, NoMemory};
use service_api::Neighbours;
use std::alloc::Global;
use std::mem;

/// The number of devices of a node that links may use.
const LINK_DEVICES: u32 = 8;

/// Adds the neighbour on a device, where there is one.
fn add_neighbour(
    neighbours: &mut Neighbours,
    links: &[Link],
    host: Host,
    dev: Dev,
) -> Result<(), NoMemory>
    ensures { OnOk result (neighbours.new
        ≡ neighbours.old ++ spec.neighbour_at dev (spec.peer_of links.now host dev)) }
{
    if let Some(far) = peer_of(links, host, dev) {
        neighbours.add((far.host, dev))?;
    }
    Ok(())
}

/// The neighbours of a host, by device.
#[tactic(auto, using(crate::proofs::StandLaws::neighbours_none, crate::proofs::StandLaws::neighbours_more))]
pub fn neighbours_of(alloc: Global, links: &[Link], host: Host) -> Result<Neighbours, NoMemory>
    ensures { IfOk result (λ neighbours. neighbours ≡ spec.neighbours_to links.now host 8) }
{
    let mut neighbours = Items::new(alloc);
    for before in 0..LINK_DEVICES {
        add_neighbour(&mut neighbours, links, host, Dev(before + 1))?;
    }
    Ok(neighbours)
}

/// Marks the frame at a place of the wire as one that was handed. Takes no memory.
fn mark_handed(alloc: Global, wire: &mut Wire, place: usize)
    requires { place < length wire.old }
    ensures { (x : WiredOf) → slice_get wire.old place ≡ Some x
        → wire.new ≡ slice_set wire.old place (spec.as_handed x) }
{
    let mut frames = mem::replace(wire, Items::new(alloc)).into_vec();
    frames[place].handed = true;
    *wire = Items::from_vec(frames);
}

/// Takes a frame that is handed off the wire, or leaves it there as one that was handed. Takes no memory.
pub fn hand_off(alloc: Global, wire: &mut Wire, how: Delivery, place: usize)
    requires { place < length wire.old }
    ensures { (x : WiredOf) → slice_get wire.old place ≡ Some x
        → wire.new ≡ spec.wire_after how wire.old place x }
{
    match how {
        Delivery::Taking => {
            let _taken = wire.remove(place);
        }
        Delivery::Leaving => mark_handed(alloc, wire, place),
    }
}

/// Whether the frame of a number is on the wire and was handed before. Takes no memory.
pub fn was_handed(wire: &[FrameOnWire], number: u32) -> bool
    ensures { result ≡ late_at wire.now (spec.wire_place wire.now number) }
{
    let Some(place) = wire_place(wire, number) else {
        return false;
    };
    wire[place].handed
}

/// The place of a frame number on the wire.
pub fn wire_place(wire: &[FrameOnWire], number: u32) -> Option<usize>
    ensures place { result ≡ spec.wire_place wire.now number }
    ensures within { IfSome result (λ at. at < length wire.now) }
{
    wire.iter().position(|x| x.number == number)
}
