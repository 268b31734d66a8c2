//! The command `show`.
ghost use Rattle.std.specs.Prelude.{◌≡◌, IfOk, MatchResult, Ok};
ghost use Rattle.hex.specs.Hex.{decode_of, IsBytes};
ghost use Rattle.plan_base.specs.declared.stamp.Version.TheVariants.{One, Two};
ghost use Rattle.packet_frame.specs.Stamped.{stamped_plain};
ghost use Rattle.packet_frame.specs.Decoding.{read_by};
ghost use Rattle.planet_commands.specs.Said.{says};
ghost use Rattle.planet_commands.specs.Takes.{Refuses, Reads};
ghost use Rattle.planet_commands.specs.Shows.{frame_limit, without_feed, bytes_said, version_shown, framed_said, frame_said};

use crate::command::{FileCommand, print};
use crate::status::{Cause, Refusal};
use hex::FromHexError;
use node_io::Sink;
use packet_frame::{Stamped, get_frame, get_frame2};
use packet_frame_text::print_frame;
use plan_base::{Bytes, Version};
use std::alloc::Global;

/// The most bytes of a frame in hex: two digits for each byte of the longest frame, and a line feed.
const MOST_HEX_BYTES: usize = 33_025;

/// `show FILE`: what a frame in hex says.
pub struct Show;

// The text without the line feed that it may have at its end.
#[tactic(auto, using(crate::proofs::ShowLemmas::no_text, crate::proofs::ShowLemmas::feed_off, crate::proofs::ShowLemmas::no_feed))]
fn trim_feed(text: &[u8]) -> &[u8]
    ensures { result.now ≡ without_feed text.now }
{
    if text.is_empty() {
        return text;
    }
    let last = text.len() - 1;
    if text[last] == b'\n' {
        &text[..last]
    } else {
        text
    }
}

// The bytes that hex digits of either case stand for.
#[tactic(auto, using(crate::proofs::ShowLemmas::decoded_bytes))]
fn bytes_of_hex(alloc: Global, text: &[u8]) -> Result<Bytes, Cause>
    ensures reads { Reads (bytes_said (decode_of (without_feed text.now))) result }
    ensures bytes { IfOk result IsBytes }
{
    match hex::decode(alloc, trim_feed(text)) {
        Ok(bytes) => Ok(Bytes::of(bytes)),
        Err(FromHexError::OutOfMemory) => Err(Cause::NoMemory),
        Err(_) => Err(Cause::Refused(Refusal::BadHex)),
    }
}

// The version by which bytes are read.
fn version_of(bytes: &[u8]) -> Version
    ensures { result ≡ version_shown bytes.now }
{
    if bytes.starts_with(b"PLAN\x02") {
        Version::Two
    } else {
        Version::One
    }
}

// The frame that the bytes spell in version 1.
fn first_framed(alloc: Global, bytes: &[u8]) -> Result<Stamped, Cause>
    requires { IsBytes bytes.now }
    ensures { MatchResult result (λ x. read_by One bytes.now ≡ Ok (stamped_plain x))
        (λ why. Refuses (framed_said (read_by One bytes.now)) why) }
{
    match get_frame(alloc, bytes, None) {
        Ok(frame) => Ok(Stamped { stamp: None, frame }),
        Err(fault) => Err(Cause::from(fault)),
    }
}

// The frame that the bytes spell in version 2.
fn second_framed(alloc: Global, bytes: &[u8]) -> Result<Stamped, Cause>
    requires { IsBytes bytes.now }
    ensures { MatchResult result (λ x. read_by Two bytes.now ≡ Ok (stamped_plain x))
        (λ why. Refuses (framed_said (read_by Two bytes.now)) why) }
{
    match get_frame2(alloc, bytes, None) {
        Ok(frame) => Ok(frame),
        Err(fault) => Err(Cause::from(fault)),
    }
}

// The frame that the bytes spell in their version.
fn frame_of_bytes(alloc: Global, bytes: &[u8]) -> Result<Stamped, Cause>
    requires { IsBytes bytes.now }
    ensures { MatchResult result
        (λ x. read_by (version_shown bytes.now) bytes.now ≡ Ok (stamped_plain x))
        (λ why. Refuses (framed_said (read_by (version_shown bytes.now) bytes.now)) why) }
{
    match version_of(bytes) {
        Version::One => first_framed(alloc, bytes),
        Version::Two => second_framed(alloc, bytes),
    }
}

// What a frame says.
fn text_of(alloc: Global, frame: &Stamped) -> Result<Bytes, Cause>
    ensures { Reads (framed_said (Ok (stamped_plain frame.now))) result }
{
    let mut text = Bytes::new(alloc);
    match print_frame(alloc, frame, &mut text) {
        Ok(()) => Ok(text),
        Err(_) => Err(Cause::NoMemory),
    }
}

// What the frame says that the bytes spell.
fn bytes_text(alloc: Global, bytes: &[u8]) -> Result<Bytes, Cause>
    requires { IsBytes bytes.now }
    ensures { Reads (framed_said (read_by (version_shown bytes.now) bytes.now)) result }
{
    match frame_of_bytes(alloc, bytes) {
        Ok(frame) => {
            let text = text_of(alloc, &frame);
            drop(frame);
            text
        }
        Err(cause) => Err(cause),
    }
}

// What a frame in hex says.
#[tactic(auto, using(crate::proofs::Refusing::decoding_still_refuses), unfolding(crate::specs::Shows::frame_said))]
fn hex_text(alloc: Global, text: &[u8]) -> Result<Bytes, Cause>
    ensures { Reads (frame_said text.now) result }
{
    match bytes_of_hex(alloc, text) {
        Ok(bytes) => bytes_text(alloc, bytes.as_slice()),
        Err(cause) => Err(cause),
    }
}

impl FileCommand for Show {
    ghost limit = { frame_limit };

    ghost said = { λ command. frame_said };

    fn limit() -> usize {
        MOST_HEX_BYTES
    }

    #[tactic(auto, using(crate::proofs::Rendering::renders_none, crate::proofs::Rendering::renders_text))]
    fn write<K: Sink>(&self, alloc: Global, bytes: &[u8], out: &mut K) -> Cause {
        match hex_text(alloc, bytes) {
            Ok(text) => print(text.as_slice(), out),
            Err(cause) => cause,
        }
    }
}
