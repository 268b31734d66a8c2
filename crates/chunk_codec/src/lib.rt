//! Chunks as bytes: read with their faults, written, and which values may be written at all.
#![tactic(auto)]

mod exprs;
mod laws;
mod programs;
mod put_fields;
mod put_trees;
mod range_exprs;
mod range_values;
mod read;
mod shapes;
mod source;
mod tags;
mod types;
mod values;
mod write;
mod write_laws;

pub use chunk_codec_spec::SpellFault;
pub use laws::{chunk_laws, program_laws, type_laws, value_laws};
pub use put_fields::put_name;
pub use range_exprs::{range_catch, range_dev, range_host, range_int, range_name};
pub use range_values::{may_be_spelled, range_names, range_params, range_services};
pub use read::{get_chunk, get_name, get_program, get_type, get_value};
pub use write::{put_chunk, put_program, put_type, put_value};
pub use write_laws::writing_laws;
