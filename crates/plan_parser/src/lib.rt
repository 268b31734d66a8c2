//! Programs and values read from their texts, exactly as the grammar has them and else with the first refusal.
#![tactic(auto)]

mod declarations;
mod item;
mod laws;
mod parsing;
mod program;
mod signature;
mod value_fault;
mod value_texts;
mod values;

pub use laws::one_answer;
pub use parsing::parse;
pub use plan_parser_exprs::{ParseFault, Wanted};
pub use value_fault::ValueFault;
pub use value_texts::{parse_args, parse_value};
