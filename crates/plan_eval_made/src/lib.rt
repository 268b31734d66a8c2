//! What an evaluation over one stack does where it calls no other: names, literals, operators, calls of primitives and
//! services, tuples, chunks, sends, the items of folds, and how bodies end.
//!
//! `specs/Where.antt` has where an expression is evaluated, `specs/Comes.antt` what is said of one that is, `specs/Makes.antt`
//! what is said of what a form makes of the values on the stack.
#![tactic(auto)]

mod calls;
mod catching;
mod ends;
mod folds;
mod here;
mod integers;
mod leaves;
mod names;
mod opening;
mod operators;
mod packed;
mod row;
mod sends;

pub use calls::{primitive_call, service_call};
pub use catching::clause_for;
pub use ends::{body_ended, chunk_ended, copied, number, truth};
pub use folds::{Taking, begin_fold, next_item};
pub use here::{Binding, Here};
pub use leaves::{constant, leaf_number, variable};
pub use names::place;
pub use opening::{Opened, open_chunk};
pub use operators::{negate, numbers, operate, operate_on, pop_test, select};
pub use packed::{make_chunk, make_tuple};
pub use row::Row;
pub use sends::{send_near, send_remote};
