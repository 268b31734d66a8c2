//! Reads what stands behind the number of a line's event.
ghost use Rattle.std.specs.Prelude.{◌≡◌, drop, IfOk};
ghost use Rattle.std.specs.List.{list_all};
ghost use Rattle.std.specs.Char.{is_ascii_hexdigit};
ghost use Rattle.std.specs.Str.{bytes_eq};
ghost use Rattle.trace_chart_picture.specs.Cuts as cuts;
ghost use Rattle.trace_chart_picture.specs.Guesses as spec;

use crate::cuts::{after, before, behind_two, first, front, front_of_four, last, rest};
use crate::line::{Line, Reason, What};
use crate::number::{long, short};
use plan_base::{Bytes, Dev, Family, Host, NoMemory};
use std::alloc::Global;

// Each text is taken apart as if it were right. The caller prints what comes out and compares, so what stands for a text that
// is no line does no harm.

/// The family that a word may be, as `1.1`.
#[tactic(auto, unfolding(crate::specs::Guesses::family_of))]
pub(crate) fn family_of(word: &[u8]) -> Family
    ensures { result ≡ spec.family_of word.now }
{
    Family {
        source: Host(short(before(word, b'.'))),
        serial: long(after(word, b'.')),
    }
}

/// Whether two texts are the same.
fn is(text: &[u8], word: &[u8]) -> bool
    ensures { result ≡ bytes_eq text.now word.now }
{
    text == word
}

/// The text behind a sign, as in `@1` and `%1`.
fn behind_sign(word: &[u8]) -> &[u8]
    ensures { result.now ≡ drop 1 word.now }
{
    if word.is_empty() {
        return word;
    }
    &word[1..]
}

/// The device that the first word names.
#[tactic(auto, unfolding(crate::specs::Guesses::device_of))]
fn device_at(text: &[u8]) -> Dev
    ensures { result ≡ spec.device_of (cuts.first text.now) }
{
    Dev(short(behind_sign(first(text))))
}

/// The host that a word names.
#[tactic(auto, unfolding(crate::specs::Guesses::host_of))]
fn host_of(word: &[u8]) -> Host
    ensures { result ≡ spec.host_of word.now }
{
    Host(short(behind_sign(word)))
}

/// The family of the first word.
fn family_at(text: &[u8]) -> Family
    ensures { result ≡ spec.family_at text.now }
{
    family_of(first(text))
}

/// The number of the third word.
fn bound_at(text: &[u8]) -> u32
    ensures { result ≡ spec.bound_at text.now }
{
    short(first(behind_two(text)))
}

/// The number of the last word but two, as in `evals 1 left 2`.
fn evals_at(text: &[u8]) -> u32
    ensures { result ≡ spec.evals_at text.now }
{
    short(last(front(front(text))))
}

/// The number of the last word.
fn left_at(text: &[u8]) -> u32
    ensures { result ≡ spec.left_at text.now }
{
    short(last(text))
}

/// The reason that a word names.
#[tactic(auto, unfolding(crate::specs::Guesses::reason_of))]
fn reason_of(word: &[u8]) -> Reason
    ensures { result ≡ spec.reason_of word.now }
{
    if is(word, b"NoService") {
        Reason::NoService
    } else if is(word, b"NoRoute") {
        Reason::NoRoute
    } else if is(word, b"QueueFull") {
        Reason::QueueFull
    } else if is(word, b"LinkSpent") {
        Reason::LinkSpent
    } else if is(word, b"Repeated") {
        Reason::Repeated
    } else if is(word, b"TooOld") {
        Reason::TooOld
    } else {
        Reason::NoBound
    }
}

/// Whether these words refuse bytes that are no frame.
fn is_bad_frame(text: &[u8]) -> bool
    ensures { result ≡ spec.is_bad_frame text.now }
{
    if text.len() > 9 {
        return is(&text[..9], b"BadFrame ");
    }
    false
}

/// Whether these words say what else may be dropped or refused.
#[tactic(auto, unfolding(crate::specs::Guesses::is_refusal))]
fn is_refusal(text: &[u8]) -> bool
    ensures { result ≡ spec.is_refusal text.now }
{
    if is(text, b"SerialsSpent") {
        true
    } else if is(text, b"NoMemory") {
        true
    } else if is(text, b"QueueFull advert") {
        true
    } else if is(text, b"LinkSpent advert") {
        true
    } else if is(text, b"Repeated advert") {
        true
    } else if is(text, b"TooOld advert") {
        true
    } else {
        is_bad_frame(text)
    }
}

/// Whether a visit ended by this word, with a value or an exception.
fn is_end(word: &[u8]) -> bool
    ensures { result ≡ spec.is_end word.now }
{
    if is(word, b"value") {
        return true;
    }
    is(word, b"raised")
}

/// The text that a line at a host keeps as it is printed, of what stands behind the host: nothing where it keeps none.
#[tactic(auto, unfolding(crate::specs::Guesses::kept_of))]
fn kept_of<'a>(word: &[u8], text: &'a [u8]) -> &'a [u8]
    ensures { result.now ≡ spec.kept_of word.now text.now }
{
    if is(word, b"print") {
        text
    } else if is(word, b"drop") {
        if is_refusal(text) { text } else { b"" }
    } else if is(word, b"port") {
        if short(first(text)) <= 65_535 {
            rest(text)
        } else {
            b""
        }
    } else if is_end(word) {
        front_of_four(rest(text))
    } else if is(word, b"handler") {
        first(rest(text))
    } else {
        b""
    }
}

/// The line at a host that keeps a text.
#[tactic(auto, unfolding(crate::specs::Guesses::keeping_line))]
fn keeping_line(word: &[u8], h: Host, text: &[u8], kept: Bytes) -> Line
    ensures { result ≡ spec.keeping_line word.now h text.now kept }
{
    if is(word, b"print") {
        Line::Printed(h, kept)
    } else if is(word, b"port") {
        Line::Delivered(h, short(first(text)), kept)
    } else if is(word, b"value") {
        Line::Gave(h, family_at(text), kept, evals_at(text), left_at(text))
    } else if is(word, b"raised") {
        Line::Raised(h, family_at(text), kept, evals_at(text), left_at(text))
    } else if is(word, b"handler") {
        Line::Handled(h, family_at(text), kept, bound_at(rest(text)))
    } else {
        Line::Refused(h, kept)
    }
}

/// What left a queue.
#[tactic(auto, unfolding(crate::specs::Guesses::what_of))]
fn what_of(text: &[u8]) -> What
    ensures { result ≡ spec.what_of text.now }
{
    if is(text, b"advert") {
        What::Advert
    } else {
        What::Packet(family_of(text))
    }
}

/// The line of a packet at a host.
#[tactic(auto, unfolding(crate::specs::Guesses::packet_line))]
fn packet_line(word: &[u8], h: Host, text: &[u8]) -> Line
    ensures { result ≡ spec.packet_line word.now h text.now }
{
    if is(word, b"inject") {
        Line::Injected(h, family_at(text), bound_at(text))
    } else if is(word, b"forged") {
        Line::Forged(h, family_at(text), bound_at(text))
    } else if is(word, b"spent") {
        Line::Spent(h, family_at(text), bound_at(text))
    } else if is(word, b"queue") {
        let more = rest(text);
        Line::Queued(h, device_at(text), family_at(more), bound_at(more))
    } else if is(word, b"drop") {
        let more = rest(text);
        Line::Dropped(h, reason_of(first(text)), family_at(more), bound_at(more))
    } else {
        Line::Nothing
    }
}

/// What arrived at a host.
#[tactic(auto, unfolding(crate::specs::Guesses::arrival))]
fn arrival(h: Host, text: &[u8]) -> Line
    ensures { result ≡ spec.arrival h text.now }
{
    if is(text, b"control") {
        Line::Asked(h)
    } else {
        Line::Arrived(h, device_at(text))
    }
}

/// The line at a host that keeps no text.
#[tactic(auto, unfolding(crate::specs::Guesses::plain_line))]
fn plain_line(word: &[u8], h: Host, text: &[u8]) -> Line
    ensures { result ≡ spec.plain_line word.now h text.now }
{
    if is(word, b"arrive") {
        arrival(h, text)
    } else if is(word, b"send") {
        Line::Sent(h, device_at(text), what_of(rest(text)))
    } else if is(word, b"advert") {
        Line::Advert(h, device_at(text))
    } else if is(word, b"heard") {
        Line::Heard(h, device_at(text))
    } else if is(word, b"tick") {
        Line::Ticked(h, long(first(rest(text))))
    } else {
        packet_line(word, h, text)
    }
}

/// The line that a word makes at a host with what stands behind.
#[tactic(auto, unfolding(crate::specs::Guesses::at_host, crate::specs::Guesses::line_by))]
fn at_host(alloc: Global, word: &[u8], h: Host, text: &[u8]) -> Result<Line, NoMemory>
    ensures { IfOk result (λ line. line ≡ spec.at_host word.now h text.now) }
{
    let kept = kept_of(word, text);
    if kept.is_empty() {
        return Ok(plain_line(word, h, text));
    }
    let kept = Bytes::of(Vec::from_slice(alloc, kept)?);
    Ok(keeping_line(word, h, text, kept))
}

/// Whether a text has digits of hex alone.
fn is_hex(text: &[u8]) -> bool
    ensures { result ≡ list_all is_ascii_hexdigit text.now }
{
    text.iter().all(|b| b.is_ascii_hexdigit())
}

/// The line of a frame on the wire, with its bytes in hex.
#[tactic(auto, unfolding(crate::specs::Guesses::shown_line))]
fn shown_line(alloc: Global, number: u32, hex: &[u8]) -> Result<Line, NoMemory>
    ensures { IfOk result (λ line. line ≡ spec.shown_line number hex.now) }
{
    if !is_hex(hex) {
        return Ok(Line::Nothing);
    }
    let hex = Bytes::of(Vec::from_slice(alloc, hex)?);
    Ok(Line::WireShown(number, hex))
}

/// The line of what was lost.
#[tactic(auto, unfolding(crate::specs::Guesses::loss))]
fn loss(text: &[u8]) -> Line
    ensures { result ≡ spec.loss text.now }
{
    if is(text, b"advert") {
        Line::LostAdvert
    } else {
        Line::Lost(family_at(text), bound_at(text))
    }
}

/// The line that a word makes without a host.
#[tactic(auto, unfolding(crate::specs::Guesses::without_host))]
fn without_host(word: &[u8], text: &[u8]) -> Line
    ensures { result ≡ spec.without_host word.now text.now }
{
    if is(word, b"wire") {
        Line::Wire(short(first(text)))
    } else if is(word, b"off") {
        Line::Off(short(text))
    } else if is(word, b"again") {
        Line::Again(short(text))
    } else if is(word, b"lost") {
        loss(text)
    } else {
        Line::Nothing
    }
}

/// The same, which shows bytes where something stands behind the number of a frame.
#[tactic(auto, unfolding(crate::specs::Guesses::wired))]
fn wired(alloc: Global, word: &[u8], text: &[u8]) -> Result<Line, NoMemory>
    ensures { IfOk result (λ line. line ≡ spec.wired word.now text.now (cuts.rest text.now)) }
{
    let shown = rest(text);
    if shown.is_empty() {
        return Ok(without_host(word, text));
    }
    if is(word, b"wire") {
        return shown_line(alloc, short(first(text)), shown);
    }
    Ok(without_host(word, text))
}

/// Whether a word begins with the sign of hosts.
fn is_host(word: &[u8]) -> bool
    ensures { result ≡ spec.is_host word.now }
{
    match word {
        [] => false,
        [b, ..] => *b == b'@',
    }
}

/// The line that a text may be, behind the number of its event.
#[tactic(auto, unfolding(crate::specs::Guesses::guessed_line))]
pub(crate) fn line_of(alloc: Global, text: &[u8]) -> Result<Line, NoMemory>
    ensures { IfOk result (λ line. line ≡ spec.guessed_line text.now) }
{
    let word = first(text);
    let more = rest(text);
    let second = first(more);
    if is_host(second) {
        return at_host(alloc, word, host_of(second), rest(more));
    }
    wired(alloc, word, more)
}
