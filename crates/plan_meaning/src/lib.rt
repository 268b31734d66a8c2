//! The meaning of the language: what an expression gives and does, as definitions in `specs/`, and what a visit ends with.
//!
//! `specs/Meaning.antt` has one case for each form, `specs/Visit.antt` a visit. The types of what they speak of are here.
#![tactic(auto)]

mod binding;
mod laws;
mod outcome;
mod sent;
mod stop;

pub use binding::{Binding, Env};
pub use laws::{
    allowance, balance, depth, endings, fixed, growth, soundness, steadiness, types_are_there,
    visits_by_allowance,
};
pub use outcome::{Outcome, Visit};
pub use sent::{Outbox, Sent};
pub use stop::EvalStop;
