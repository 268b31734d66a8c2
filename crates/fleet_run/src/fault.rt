/// Why a request wasn't sent, or why its line wasn't written.
#[derive(Clone, Copy, PartialEq, Eq)]
pub enum AskFault {
    /// The link failed. No frame was sent.
    LinkFault,
    /// The output failed. The frame was sent.
    WriteFault,
    /// Memory was refused. Nothing was bound, sent or written.
    NoMemory,
}

/// Why a fleet ended early.
#[derive(Clone, Copy, PartialEq, Eq)]
pub enum FleetFault {
    /// A child wasn't started. Those started before were waited for, and no line was written.
    StartFault,
    /// A child ended without a status. The children behind it weren't waited for.
    WaitFault,
    /// The output failed. The children behind the line weren't waited for.
    WriteFault,
    /// Memory was refused: before the first start, or for a line, and then the children behind it weren't waited for.
    NoMemory,
}
