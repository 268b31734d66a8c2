//! Why a file of lines has no value: the line and its reason.
ghost use Rattle.std.specs.Prelude.{◌≡◌};

use containers::Boxed;
use plan_base::NoMemory;
use program_text::TextFault;
use std::alloc::AllocError;

/// Why a line is outside a format.
pub enum LineReason {
    /// The first line is not the header.
    BadHeader,
    /// A word is missing, extra or unknown.
    BadWord,
    /// A number is wrongly spelled or out of its range.
    BadNumber,
    /// A number names no host of a line above.
    UnknownHost,
    /// A name is that of no program above.
    UnknownProgram,
    /// A host, a program or a device of a host is named a second time.
    TwiceNamed,
    /// One more than the format allows, or a program's text or the injected chunks over their limit.
    TooMany,
    /// A program's text is refused for this, in a box, so that a reason is small to hand on.
    ProgramRefused(Boxed<TextFault>),
    /// An entry, arguments or a combination of numbers that don't fit.
    BadArgument,
}

impl Drop for LineReason {
    fn drop(self) {
        match self {
            LineReason::ProgramRefused(why) => drop(why),
            LineReason::BadHeader
            | LineReason::BadWord
            | LineReason::BadNumber
            | LineReason::UnknownHost
            | LineReason::UnknownProgram
            | LineReason::TwiceNamed
            | LineReason::TooMany
            | LineReason::BadArgument => {}
        }
    }
}

/// Why a file of lines has no value.
#[derive(Drop)]
pub enum LineFault {
    /// The first line outside the format, from 1, and the reason.
    Line(u32, LineReason),
    /// Memory was refused.
    NoMemory,
}

impl From<AllocError> for LineFault {
    ghost use Rattle.line_reader.specs.declared.fault.LineFault.TheVariants.{NoMemory};

    ghost from_gives = { λ _ e. e ≡ NoMemory };

    fn from(_refused: AllocError) -> LineFault {
        LineFault::NoMemory
    }
}

/// Why the reading of a line stopped.
#[derive(Drop)]
pub enum LineError {
    /// The line is outside the format for this reason.
    Reason(LineReason),
    /// Memory was refused.
    NoMemory,
}

impl From<AllocError> for LineError {
    ghost use Rattle.line_reader.specs.declared.fault.LineError.TheVariants.{NoMemory};

    ghost from_gives = { λ _ e. e ≡ NoMemory };

    fn from(_refused: AllocError) -> LineError {
        LineError::NoMemory
    }
}

impl From<LineReason> for LineError {
    ghost use Rattle.line_reader.specs.declared.fault.LineError.TheVariants.{Reason};

    ghost from_gives = { λ r e. e ≡ Reason r };

    fn from(reason: LineReason) -> LineError {
        LineError::Reason(reason)
    }
}

impl From<NoMemory> for LineError {
    ghost use Rattle.line_reader.specs.declared.fault.LineError.TheVariants as stops;

    ghost from_gives = { λ _ e. e ≡ stops.NoMemory };

    fn from(_refused: NoMemory) -> LineError {
        LineError::NoMemory
    }
}
