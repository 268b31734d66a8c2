//! Reads frames as a node of a version does.
ghost use Rattle.std.specs.Prelude.{◌≡◌, ◌⊎◌, IfOk, IfErr, Err};
ghost use Rattle.wire_bytes.specs.Fields.{IsBytes};
ghost use Rattle.plan_base.specs.declared.stamp.Version.TheVariants.{One, Two};
ghost use Rattle.packet_frame.specs.declared.fault.FrameFault.{FrameFault};
ghost use Rattle.packet_frame.specs.Typed.{plain_of};
ghost use Rattle.packet_frame.specs.Stamped.{AcceptsBy, stamped_plain};
ghost use Rattle.packet_frame.specs.Decoding.{read_by};
ghost use Rattle.packet_frame.specs.Spelled as spelled;
ghost use Rattle.node_core_parts.specs.Reading.{ComesTo};

use checked_chunks::Checked;
use node_core_spec::What;
use packet_frame::{Frame, FrameFault, Stamped, get_frame, get_frame2};
use plan_base::Version;
use std::alloc::Global;

/// Shows that bytes are numbers below 256, and changes nothing. Takes no memory.
pub fn are_bytes(bytes: &[u8])
    ensures { IsBytes bytes.now }
{
    let _count = bytes.len();
}

/// Reads a frame of version 1.
fn read_first(alloc: Global, bytes: &[u8], known: Option<&Checked>) -> Result<Stamped, FrameFault>
    ensures found { IfOk result (λ x. AcceptsBy One bytes.now (stamped_plain x)) }
    ensures fault { IfErr result (λ e. (e ≡ FrameFault.NoMemory) ⊎
        (read_by One bytes.now ≡ Err e)) }
{
    are_bytes(bytes);
    let frame = get_frame(alloc, bytes, known)?;
    Ok(Stamped { stamp: None, frame })
}

/// Reads a frame of version 2.
fn read_second(alloc: Global, bytes: &[u8], known: Option<&Checked>) -> Result<Stamped, FrameFault>
    ensures found { IfOk result (λ x. AcceptsBy Two bytes.now (stamped_plain x)) }
    ensures fault { IfErr result (λ e. (e ≡ FrameFault.NoMemory) ⊎
        (read_by Two bytes.now ≡ Err e)) }
{
    are_bytes(bytes);
    get_frame2(alloc, bytes, known)
}

/// Reads a frame as a node of a version does; the answer is that of the definition, where memory is there, whatever program is
/// known. An ask has a bound of at most 65,535, a packet may go on from such a node, and no frame bears a stamp under version 1.
pub fn read_as(
    alloc: Global,
    bytes: &[u8],
    version: Version,
    known: Option<&Checked>,
) -> Result<Stamped, FrameFault>
    ensures { ComesTo version bytes.now result }
{
    match version {
        Version::One => read_first(alloc, bytes, known),
        Version::Two => read_second(alloc, bytes, known),
    }
}

/// The program of a frame's chunk, for one more owner, or `None` where there is none or it has too many owners.
pub fn code_of(frame: &Frame) -> Option<Checked> {
    match frame {
        Frame::Packet(packet) => packet.chunk().code().ok(),
        Frame::Advert(_) => None,
        Frame::Ask(_, chunk) => chunk.code().ok(),
    }
}

/// What a frame holds, an ask as an advert. Takes no memory.
pub fn what_of(frame: &Frame) -> What
    ensures { result ≡ spelled.what_of (plain_of frame.now) }
{
    match frame {
        Frame::Packet(packet) => What::Packet(packet.family(), packet.bound()),
        _ => What::Advert,
    }
}
