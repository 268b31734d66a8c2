//! The printed forms of literals, types, values and programs: definitions alone.
#![tactic(auto)]
