/// Why a node stopped serving before the last turn was made and written.
#[derive(Clone, Copy, PartialEq, Eq)]
pub enum ServeFault {
    /// The link failed; its count of faults rose.
    LinkFault,
    /// The log or the output could not be written; a count of faults rose.
    WriteFault,
    /// Memory was refused at the opening or in writing a line.
    NoMemory,
}
