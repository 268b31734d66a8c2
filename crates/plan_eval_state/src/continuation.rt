//! What waits for a value.

/// The evaluation of a function's body.
#[derive(Clone, Copy)]
pub struct Activation {
    /// The number of its program among those that are open.
    pub number: usize,
    /// The function's place in it.
    pub fun: usize,
    /// The place on the stack from which the arguments stand.
    pub base: usize,
}

/// What waits for a value: an open expression, for the part that is being evaluated.
#[derive(Clone, Copy)]
pub enum Continuation {
    /// For the operand of that number, from 0; the values of those before stand on the stack.
    Part(usize),
    /// For the branch of that number, from 0, whose value is its own.
    Last(usize),
    /// A `try` for its expression, where the stack was so high.
    Try(usize),
    /// A `let` for its body; the value that its name is bound to stands at that place.
    Bound(usize),
    /// A call for the body of a function.
    Call(Activation),
    /// A fold for a step; below the arguments stand the list and how many of its items were taken.
    Step(Activation),
    /// An `eval` for the entry of a chunk.
    Chunk(Activation),
}
