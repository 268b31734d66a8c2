//! The first words of a schedule's lines.
ghost use Rattle.std.specs.Prelude.{◌≡◌};
ghost use Rattle.schedule_text.specs.Schedules as spec;
ghost use Rattle.schedule_text.specs.Schedules.{network_word, event_word};

use line_reader::is;
use plan_base::Version;

/// The first word of a line of the network.
#[derive(Clone, Copy, PartialEq, Eq)]
pub enum NetworkWord {
    /// `frames`
    Frames,
    /// `host`
    Host,
    /// `link`
    Link,
    /// `program`
    Program,
    /// `events`
    Events,
}

/// The first word of an event.
#[derive(Clone, Copy, PartialEq, Eq)]
pub enum EventWord {
    /// `inject`
    Inject,
    /// `send`
    Send,
    /// `deliver`
    Deliver,
    /// `repeat`, under version 2
    Repeat,
    /// `lose`
    Lose,
    /// `tick`
    Tick,
    /// `raw`
    Raw,
}

impl NetworkWord {
    /// The first word that a word is, or none.
    pub fn of(word: &[u8]) -> Option<NetworkWord>
        ensures { result ≡ network_word word.now }
    {
        if is(word, b"frames") {
            Some(NetworkWord::Frames)
        } else if is(word, b"host") {
            Some(NetworkWord::Host)
        } else if is(word, b"link") {
            Some(NetworkWord::Link)
        } else if is(word, b"program") {
            Some(NetworkWord::Program)
        } else if is(word, b"events") {
            Some(NetworkWord::Events)
        } else {
            None
        }
    }
}

/// Whether a word is `repeat`, which version 2 alone knows.
fn is_repeat(version: Version, word: &[u8]) -> bool
    ensures { result ≡ spec.is_repeat version word.now }
{
    match version {
        Version::One => false,
        Version::Two => is(word, b"repeat"),
    }
}

impl EventWord {
    /// The first word that a word is under a version, or none.
    pub fn of(version: Version, word: &[u8]) -> Option<EventWord>
        ensures { result ≡ event_word version word.now }
    {
        if is(word, b"inject") {
            Some(EventWord::Inject)
        } else if is(word, b"send") {
            Some(EventWord::Send)
        } else if is(word, b"deliver") {
            Some(EventWord::Deliver)
        } else if is(word, b"lose") {
            Some(EventWord::Lose)
        } else if is(word, b"tick") {
            Some(EventWord::Tick)
        } else if is(word, b"raw") {
            Some(EventWord::Raw)
        } else if is_repeat(version, word) {
            Some(EventWord::Repeat)
        } else {
            None
        }
    }
}
