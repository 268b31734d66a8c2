//! How a call of the program ended, and the status that it gives.
ghost use Rattle.std.specs.Prelude.{◌≡◌};

use line_reader::{LineFault, LineReason};
use packet_frame::FrameFault;
use plan_base::Host;
use program_text::{TextFault, place_of};

/// How a call of the product ended.
#[derive(Drop)]
pub struct Status {
    /// The exit code: 0 for `Done`, and then the causes in order.
    pub code: u8,
    /// Why.
    pub cause: Cause,
}

/// Why a call of the product ended.
#[derive(Drop)]
pub enum Cause {
    /// The command did all of its work. Code 0.
    Done,
    /// The words are none of the commands. Code 1.
    Usage,
    /// The file, or a log that it names, is outside its format, or too long. Code 2.
    Refused(Refusal),
    /// A file wasn't read. Code 3.
    ReadFault,
    /// The output, the notes or a file weren't written. Code 4.
    WriteFault,
    /// The link failed. Code 5.
    LinkFault,
    /// A child wasn't started or ended without a status. Code 6.
    SpawnFault,
    /// Memory was refused. Code 7.
    NoMemory,
    /// The first child with a nonzero status: its host and the status. Code 8.
    NodesFailed(Host, u8),
}

impl From<LineFault> for Cause {
    ghost use Rattle.planet_commands.specs.Causes.{cause_of};

    ghost from_gives = { λ f c. c ≡ cause_of f };

    fn from(fault: LineFault) -> Cause {
        match fault {
            LineFault::Line(line, reason) => Cause::Refused(Refusal::Line(line, reason)),
            LineFault::NoMemory => Cause::NoMemory,
        }
    }
}

impl From<FrameFault> for Cause {
    ghost use Rattle.planet_commands.specs.Causes.{frame_cause};

    ghost from_gives = { λ f c. c ≡ frame_cause f };

    fn from(fault: FrameFault) -> Cause {
        match fault {
            FrameFault::NoMemory => Cause::NoMemory,
            other => Cause::Refused(Refusal::Frame(other)),
        }
    }
}

impl From<TextFault> for Cause {
    ghost use Rattle.planet_commands.specs.Causes.{text_cause};

    ghost from_gives = { λ f c. c ≡ text_cause f };

    fn from(fault: TextFault) -> Cause {
        match fault {
            TextFault::NoMemory => Cause::NoMemory,
            other => {
                let at = place_of(&other);
                Cause::Refused(Refusal::At(at, other))
            }
        }
    }
}

/// Why a file is refused.
#[derive(Drop)]
pub enum Refusal {
    /// The first line outside the format, from 1, and the reason.
    Line(u32, LineReason),
    /// The text is no typed program: the byte of the first refusal, from 0, and the refusal.
    At(u32, TextFault),
    /// The bytes are no frame whose chunk is typed.
    Frame(FrameFault),
    /// The file is no hex.
    BadHex,
    /// The file has more bytes than its limit.
    TooLong,
    /// The log with this number, from 1: the first line outside the format, from 1, and the reason.
    Log(u32, u32, LineReason),
    /// The log with this number, from 1, has more bytes than its limit.
    LogTooLong(u32),
}
