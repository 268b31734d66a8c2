//! What an evaluation carries: its state, the names that it looks up, and what operators, services and sends answer.
#![tactic(auto)]

mod bindings;
mod found;
mod operate;
mod raised;
mod serving;
mod shapes;
mod state;
mod weighing;

pub use bindings::{bound, value_of};
pub use found::{catches, handler, place_among};
pub use operate::{binary, cons, part, primitive};
pub use raised::{no_bound, no_route, no_service, not_neighbour, too_large};
pub use serving::ask_service;
pub use shapes::{as_bool, as_chunk, as_dev, as_host, as_int, as_items};
pub use state::{ALLOWANCE, EvalState};
pub use weighing::Weighing;
