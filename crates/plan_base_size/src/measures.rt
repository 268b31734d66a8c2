/// Trees with a depth.
pub trait HasDepth {
    /// The depth, by the impl's clause. It stops at 2^32 - 1. Takes no memory.
    fn depth(&self) -> u32;
}

/// Trees with expressions in them.
pub trait CountsNodes {
    /// The number of expressions, by the impl's clause. It stops at 2^32 - 1. Takes no memory.
    fn nodes(&self) -> u32;
}
