//! What the checking of an expression reads, and what it keeps on the way.

use plan_base::{Params, Program};

/// Where an expression stands: the program, and how many of its functions are earlier.
#[derive(Clone, Copy)]
pub struct Scope<'a> {
    /// The whole program.
    pub code: &'a Program,
    /// The number of the function that the expression belongs to, so that this many are earlier.
    pub seen: usize,
}

/// What the checking keeps on its way through a body.
#[derive(Drop)]
pub struct TypingState {
    /// The parameters and bindings in scope, the innermost last.
    pub ctx: Params,
    /// The number of the next expression, at most 2^32 - 1.
    pub node: u32,
}
