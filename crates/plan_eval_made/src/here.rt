//! Where an expression is evaluated.

use containers::Shared;
use plan_base::{Fun, Name, Program};

/// A name that a `let` binds.
#[derive(Clone, Copy)]
pub struct Binding<'a> {
    /// The name.
    pub name: &'a Name,
    /// The place of its value on the stack.
    pub at: usize,
}

/// Where an expression is evaluated, but for the expression.
#[derive(Clone, Copy)]
pub struct Here<'a> {
    /// The program.
    pub code: &'a Shared<Program>,
    /// Its number among those that are open.
    pub number: usize,
    /// The bytes of its marshalled form, or 2^64 - 1 where there are more.
    pub size: u64,
    /// The place of the function in it, whose body sees the functions before.
    pub fun: usize,
    /// The function.
    pub function: &'a Fun,
    /// The place on the stack from which its arguments stand.
    pub base: usize,
    /// The names that are bound inside, the innermost last.
    pub bindings: &'a [Binding<'a>],
}
