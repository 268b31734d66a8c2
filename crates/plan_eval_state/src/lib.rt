//! The state of an evaluation whose values stand on one stack, what waits in it, and what that means.
//!
//! `specs/Forms.antt` has the parts of each form, `specs/Spots.antt` where an expression is evaluated and how it goes on,
//! `specs/Flow.antt` how far one came, `specs/Loop.antt` what waits on the second stack.
#![tactic(auto)]

mod continuation;
mod laws;
mod open_program;
mod parts;
mod progress;
mod run;
mod slot;
mod stack;

pub use continuation::{Activation, Continuation};
pub use laws::{fold_steps, forms, names, operands, steps, stops, turns, work};
pub use open_program::{OpenProgram, OpenPrograms};
pub use parts::{branch, operand, tried};
pub use progress::Progress;
pub use run::{Run, answer, back, ended, give, move_over, put, stopped};
pub use slot::Slot;
pub use stack::Stack;
