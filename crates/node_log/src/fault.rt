/// Why the replay of a log ended early.
#[derive(Clone, Copy, PartialEq, Eq)]
pub enum ReplayFault {
    /// A push to the sink failed.
    WriteFault,
    /// Memory was refused.
    NoMemory,
}
