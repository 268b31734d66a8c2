/// Why a table didn't do what it was asked.
#[derive(Clone, Copy, PartialEq, Eq)]
pub enum TableFault {
    /// More than 1,024 rows or 1,048,576 bytes would result.
    TableFull,
    /// No row of that name, key and type is there.
    NotFound,
    /// Memory was refused.
    NoMemory,
}
