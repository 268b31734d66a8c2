//! The tokens of program texts: each is the longest prefix of what is left that is a token.
#![tactic(auto)]

mod fault;
mod gap;
mod hexed;
mod item;
mod laws;
mod lexing;
mod numeral;
mod quoted;
mod scan;
mod tables;
mod text;
mod token;
mod word;

pub use fault::LexFault;
pub use laws::{longest_tokens, one_answer, printed_tokens, spelled_tokens};
pub use lexing::lex;
pub use token::{Key, Symbol, Token, TokenKind, Tokens};
