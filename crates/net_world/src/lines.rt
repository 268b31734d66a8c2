//! The lines of an event, as acts of a node give them.
ghost use Rattle.std.specs.Prelude.{◌≡◌, ◌≢◌, ◌∷◌, ◌++◌, [], IfOk, OnErr};
ghost use Rattle.packet_frame.specs.declared.fault.FrameFault.TheVariants as refusal;
ghost use Rattle.packet_frame.specs.Typed.{plain_of};
ghost use Rattle.packet_frame.specs.Stamped.{stamped_bytes};
ghost use Rattle.packet_frame.specs.Decoding.{read_by};
ghost use Rattle.net_world_spec.specs.World as spec;
ghost use Rattle.net_world_spec.specs.declared.lines.Line.TheVariants as line;

use containers::Items;
use net_world_spec::{Delivery, Line, Lines};
use node_core::Version;
use node_core_parts::read_as;
use node_core_spec::ActList;
use packet_frame::{EncodedFrame, Frame, FrameBytes, FrameFault};
use plan_base::{Host, NoMemory};
use std::alloc::Global;

/// No lines.
pub fn no_lines(alloc: Global) -> Lines
    ensures { result ≡ [] }
{
    Items::new(alloc)
}

/// One line. The list has room for four, and most events have no more.
pub fn one_line(alloc: Global, line: Line) -> Result<Lines, NoMemory>
    ensures { IfOk result (λ lines. lines ≡ line ∷ []) }
{
    let mut lines = Items::new(alloc);
    lines.add(line)?;
    Ok(lines)
}

/// Lines, and then those of a node's acts.
pub fn with_acts(before: Lines, host: Host, acts: ActList) -> Result<Lines, NoMemory>
    ensures { IfOk result (λ lines. lines ≡ before ++ spec.lines_at host acts) }
{
    let mut lines = before.into_vec();
    lines.reserve(acts.len())?;
    for act in acts.into_vec() {
        lines.push_reserved(Line::At(host, act));
    }
    Ok(Items::from_vec(lines))
}

/// The lines of a frame from outside before it arrives: a packet grants its bound.
fn lines_of(alloc: Global, host: Host, frame: &Frame) -> Result<Lines, NoMemory>
    ensures { IfOk result (λ lines. lines ≡ spec.forged_frame host (plain_of frame.now)) }
{
    match frame {
        Frame::Packet(p) => one_line(alloc, Line::Forged(host, p.family(), p.bound())),
        _ => Ok(no_lines(alloc)),
    }
}

/// The lines of bytes from outside that are refused with a fault: none; only where an allocation failed, nothing is known of
/// them.
fn refused_lines(alloc: Global, fault: &FrameFault) -> Result<Lines, NoMemory>
    ensures ok { IfOk result (λ lines. (lines ≡ []) × (fault.now ≢ refusal.NoMemory)) }
    ensures err { OnErr result (fault.now ≡ refusal.NoMemory) }
{
    match fault {
        FrameFault::NoMemory => Err(NoMemory),
        _ => Ok(no_lines(alloc)),
    }
}

/// The lines of bytes from outside before they arrive at a node of a version: those that it accepts as a packet grant its
/// bound.
pub fn forged_lines(
    alloc: Global,
    host: Host,
    version: Version,
    bytes: &[u8],
) -> Result<Lines, NoMemory>
    ensures { IfOk result (λ lines. lines ≡ spec.forged_lines host (read_by version bytes.now)) }
{
    match read_as(alloc, bytes, version, None) {
        Ok(stamped) => lines_of(alloc, host, &stamped.frame),
        Err(fault) => refused_lines(alloc, &fault),
    }
}

/// Lines, and then that of a frame that goes onto the wire.
fn with_wire(before: Lines, number: u32, frame: &EncodedFrame) -> Result<Lines, NoMemory>
    ensures { IfOk result
        (λ lines. lines ≡ before ++ line.Wire number (stamped_bytes frame.now) ∷ []) }
{
    let mut lines = before;
    lines.add(Line::Wire(number, FrameBytes::of(frame)?))?;
    Ok(lines)
}

/// The lines of a frame that a node took and that goes onto the wire: those of the node's acts, and then its own.
pub fn sent_lines(
    alloc: Global,
    host: Host,
    acts: ActList,
    number: u32,
    frame: &EncodedFrame,
) -> Result<Lines, NoMemory>
    ensures { IfOk result (λ lines. lines
        ≡ spec.lines_at host acts ++ line.Wire number (stamped_bytes frame.now) ∷ []) }
{
    let before = with_acts(no_lines(alloc), host, acts)?;
    with_wire(before, number, frame)
}

/// The line of a frame that is handed to its receiving end.
pub fn hand_line(how: Delivery, number: u32) -> Line
    ensures { result ≡ spec.hand_line how number }
{
    match how {
        Delivery::Taking => Line::Off(number),
        Delivery::Leaving => Line::Again(number),
    }
}
