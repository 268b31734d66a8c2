//! How far an expression came.

/// How far an expression came.
#[derive(Clone, Copy)]
pub enum Progress {
    /// It gave a value, which is the last of the stack.
    Done,
    /// It waits, since the native stack is used up.
    Wait,
    /// It raised an exception, which is kept beside the stack.
    Raised,
    /// The work would pass what the visit is allowed.
    Spent,
    /// No case of the meaning applies. A typed chunk never comes here.
    Wrong,
    /// An allocation failed.
    NoMemory,
}
