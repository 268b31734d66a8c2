//! Reads the fields of frames of either version, with their stamps.
ghost use Rattle.std.specs.Prelude.{◌≡◌, ◌⊎◌, ◌≤◌, length, Some, IfOk, IfErr, MatchResult};
ghost use Rattle.chunk_codec_spec.specs.Spelling.{from_front};
ghost use Rattle.packet_frame.specs.Reading.{Gives};
ghost use Rattle.packet_frame.specs.Forms.{reads};
ghost use Rattle.packet_frame.specs.Versions.{either_version_at, form_of, form_at, stamped_forms, stamped_of_fields, stamped_at};
ghost use Rattle.packet_frame.specs.Stamped.{SpellsStamped, StampedFault};
ghost use Rattle.packet_frame.specs.declared.kind.Form.{Form as TheForm};
ghost use Rattle.packet_frame.specs.declared.frame.PlainStamped.{PlainStamped as PlainOne};

use crate::fault::FrameFault;
use crate::frame::{PlainFrame, PlainStamped};
use crate::get::{
    bound_of, chunk_of, count_of, first_of, magic_of, route_of, rows_of, serial_of, word_of,
};
use crate::kind::Form;
use plan_base::{Family, Host, Packet, Stamp};
use service_api::Advert;
use std::alloc::Global;
use wire_bytes::Cursor;

/// The version, which is 1 or 2.
#[tactic(auto, unfolding(crate::specs::Versions::either_version_at, chunk_codec_spec::specs::Scan::number_field))]
fn either_version_of(c: &mut Cursor<'_>) -> Result<u8, FrameFault>
    ensures { Gives result c.new (either_version_at (from_front c.old)) }
{
    let number = c.u8()?;
    if number != 1 && number != 2 {
        return Err(FrameFault::BadVersion);
    }
    Ok(number)
}

/// The form of a version and a kind.
fn form_with(version: u8, kind: u8) -> Option<Form>
    ensures { result ≡ form_of version kind }
{
    if version == 1 {
        if kind == 3 { Some(Form::Ask) } else { None }
    } else if kind == 1 {
        Some(Form::Packet)
    } else if kind == 2 {
        Some(Form::Advert)
    } else if kind == 4 {
        Some(Form::Handled)
    } else {
        None
    }
}

/// The kind behind a version.
#[tactic(auto, unfolding(crate::specs::Versions::form_at, chunk_codec_spec::specs::Scan::number_field))]
fn form_behind(c: &mut Cursor<'_>, version: u8) -> Result<Form, FrameFault>
    ensures { Gives result c.new (form_at version (from_front c.old)) }
{
    match form_with(version, c.u8()?) {
        Some(form) => Ok(form),
        None => Err(FrameFault::BadKind),
    }
}

/// An ask, which bears no stamp.
fn plain_ask(alloc: Global, c: &mut Cursor<'_>) -> Result<PlainStamped, FrameFault>
    ensures { Gives result c.new (reads (stamped_forms TheForm.Ask) (stamped_of_fields TheForm.Ask)
        (from_front c.old)) }
{
    let bound = bound_of(c)?;
    match chunk_of(alloc, c) {
        Ok(chunk) => Ok(PlainStamped {
            stamp: None,
            frame: PlainFrame::Ask(bound, chunk),
        }),
        Err(fault) => Err(fault),
    }
}

/// A packet behind its stamp.
fn stamped_packet(alloc: Global, c: &mut Cursor<'_>) -> Result<PlainStamped, FrameFault>
    ensures { Gives result c.new (reads (stamped_forms TheForm.Packet)
        (stamped_of_fields TheForm.Packet) (from_front c.old)) }
{
    let boot = serial_of(c)?;
    let link = serial_of(c)?;
    let source = Host(word_of(c)?);
    let serial = serial_of(c)?;
    let dest = Host(word_of(c)?);
    let bound = bound_of(c)?;
    let route = route_of(alloc, c)?;
    match chunk_of(alloc, c) {
        Ok(chunk) => Ok(PlainStamped {
            stamp: Some(Stamp { boot, link }),
            frame: PlainFrame::Packet(Packet {
                family: Family { source, serial },
                dest,
                bound,
                route,
                chunk,
                handler: None,
            }),
        }),
        Err(fault) => Err(fault),
    }
}

/// A packet with a handler behind its stamp.
fn stamped_handled(alloc: Global, c: &mut Cursor<'_>) -> Result<PlainStamped, FrameFault>
    ensures { Gives result c.new (reads (stamped_forms TheForm.Handled)
        (stamped_of_fields TheForm.Handled) (from_front c.old)) }
{
    let boot = serial_of(c)?;
    let link = serial_of(c)?;
    let source = Host(word_of(c)?);
    let serial = serial_of(c)?;
    let dest = Host(word_of(c)?);
    let bound = bound_of(c)?;
    let route = route_of(alloc, c)?;
    let handler = route_of(alloc, c)?;
    match chunk_of(alloc, c) {
        Ok(chunk) => Ok(PlainStamped {
            stamp: Some(Stamp { boot, link }),
            frame: PlainFrame::Packet(Packet {
                family: Family { source, serial },
                dest,
                bound,
                route,
                chunk,
                handler: Some(handler),
            }),
        }),
        Err(fault) => Err(fault),
    }
}

/// An advert behind its stamp.
#[tactic(auto, unfolding(crate::specs::Fields::rows_at))]
fn stamped_advert(alloc: Global, c: &mut Cursor<'_>) -> Result<PlainStamped, FrameFault>
    ensures { Gives result c.new (reads (stamped_forms TheForm.Advert)
        (stamped_of_fields TheForm.Advert) (from_front c.old)) }
{
    let boot = serial_of(c)?;
    let link = serial_of(c)?;
    let host = Host(word_of(c)?);
    let count = count_of(c)?;
    let rows = rows_of(alloc, c, count)?;
    Ok(PlainStamped {
        stamp: Some(Stamp { boot, link }),
        frame: PlainFrame::Advert(Advert { host, rows }),
    })
}

/// What stands behind a form's kind.
fn behind_form(alloc: Global, c: &mut Cursor<'_>, form: Form) -> Result<PlainStamped, FrameFault>
    ensures { Gives result c.new (reads (stamped_forms form) (stamped_of_fields form)
        (from_front c.old)) }
{
    match form {
        Form::Ask => plain_ask(alloc, c),
        Form::Packet => stamped_packet(alloc, c),
        Form::Advert => stamped_advert(alloc, c),
        Form::Handled => stamped_handled(alloc, c),
    }
}

/// A frame that a node of version 2 reads, and what is behind it.
#[tactic(auto, unfolding(crate::specs::Versions::stamped_at))]
fn stamped_of(alloc: Global, c: &mut Cursor<'_>) -> Result<PlainStamped, FrameFault>
    ensures { Gives result c.new (stamped_at (from_front c.old)) }
{
    magic_of(c)?;
    let version = either_version_of(c)?;
    let form = form_behind(c, version)?;
    behind_form(alloc, c, form)
}

/// Reads a frame as a node of version 2 does, whose chunk isn't checked.
///
/// Ok exactly where all the bytes, at most 16,512, are its spelling; otherwise the first fault.
pub fn get_plain_stamped(alloc: Global, bytes: &[u8]) -> Result<PlainStamped, FrameFault>
    ensures found { IfOk result (λ x. SpellsStamped bytes.now x) }
    ensures only { (x : PlainOne) → SpellsStamped bytes.now x → MatchResult result (λ y. y ≡ x)
        (λ e. e ≡ FrameFault.NoMemory) }
    ensures fault { IfErr result (λ e. (e ≡ FrameFault.NoMemory) ⊎ StampedFault e bytes.now) }
{
    if bytes.len() > 16512 {
        return Err(FrameFault::TooLong);
    }
    let mut c = first_of(bytes);
    let frame = stamped_of(alloc, &mut c)?;
    let end = c.at();
    if (end as usize) < bytes.len() {
        drop(frame);
        return Err(FrameFault::Trailing(end));
    }
    Ok(frame)
}
