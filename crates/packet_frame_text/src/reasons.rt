//! Writes why bytes are no frame.
ghost use Rattle.std.specs.Prelude.{◌≡◌, ◌++◌, codes, IfOk, OnOk, OnErr};
ghost use Rattle.std.specs.String.{string_bytes};
ghost use Rattle.packet_frame.specs.Reasons.{spelling_text, ill_text, reason_text};

use chunk_codec_spec::SpellFault;
use packet_frame::FrameFault;
use plan_base::{Bytes, NoMemory};
use plan_types_chunks::Ill;
use std::alloc::{AllocError, Global};

// A fault of a name, a chunk or a limit.
fn spelling_reason(alloc: Global, fault: &SpellFault) -> Result<String, AllocError>
    ensures { IfOk result (λ text. string_bytes text ≡ spelling_text fault.now) }
{
    match fault {
        SpellFault::Truncated(at) => format!(in alloc; "Truncated {at}"),
        SpellFault::BadTag(at) => format!(in alloc; "BadTag {at}"),
        SpellFault::BadName(at) => format!(in alloc; "BadName {at}"),
        SpellFault::BadUtf8(at) => format!(in alloc; "BadUtf8 {at}"),
        SpellFault::OverLimit(limit, at) => {
            let word = limit.word();
            format!(in alloc; "OverLimit {word} {at}")
        }
        SpellFault::NoMemory => String::from_str(alloc, "NoMemory"),
    }
}

// What is wrong with a chunk's types.
fn ill_reason(alloc: Global, ill: &Ill) -> Result<String, AllocError>
    ensures { IfOk result (λ text. string_bytes text ≡ ill_text ill.now) }
{
    match ill {
        Ill::Code(_) => String::from_str(alloc, "IllTyped Code"),
        Ill::Entry => String::from_str(alloc, "IllTyped Entry"),
        Ill::Count => String::from_str(alloc, "IllTyped Count"),
        Ill::Argument(number) => format!(in alloc; "IllTyped Argument {number}"),
    }
}

#[tactic(auto, unfolding(packet_frame::specs::Reasons::reason_text))]
fn reason_of(alloc: Global, fault: &FrameFault) -> Result<String, AllocError>
    ensures { IfOk result (λ text. string_bytes text ≡ reason_text fault.now) }
{
    match fault {
        FrameFault::TooLong => String::from_str(alloc, "TooLong"),
        FrameFault::Truncated(at) => format!(in alloc; "Truncated {at}"),
        FrameFault::BadMagic => String::from_str(alloc, "BadMagic"),
        FrameFault::BadVersion => String::from_str(alloc, "BadVersion"),
        FrameFault::BadKind => String::from_str(alloc, "BadKind"),
        FrameFault::Spell(fault) => spelling_reason(alloc, fault),
        FrameFault::BoundTooLarge => String::from_str(alloc, "BoundTooLarge"),
        FrameFault::BadOrder(at) => format!(in alloc; "BadOrder {at}"),
        FrameFault::Trailing(at) => format!(in alloc; "Trailing {at}"),
        FrameFault::IllTyped(ill) => ill_reason(alloc, ill),
        FrameFault::IllHandler => String::from_str(alloc, "IllTyped Handler"),
        FrameFault::NoMemory => String::from_str(alloc, "NoMemory"),
    }
}

/// Appends why bytes are no frame, as a note says it. Where an allocation fails, `out` stays.
pub fn put_reason(alloc: Global, fault: &FrameFault, out: &mut Bytes) -> Result<(), NoMemory>
    ensures whole { OnOk result (out.new ≡ out.old ++ reason_text fault.now) }
    ensures stays { OnErr result (out.new ≡ out.old) }
{
    let text = reason_of(alloc, fault)?;
    out.add_all(text.as_bytes())?;
    Ok(())
}
