//! Cuts a line of glyphs into tokens.
#![tactic(auto)]

mod constant;
mod first_fault;
mod front;
pub mod laws;
mod number;
mod quoted;
mod refused;
mod role;
mod scanning;
mod token;
mod token_list;

pub use refused::ScanRefused;
pub use scanning::scan;
pub use token::{Token, TokenKind, Tokens};
pub use token_list::TokenList;
