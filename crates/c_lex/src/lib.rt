//! Preprocessing tokens of a C text, with their places (C11 6.4).
#![tactic(auto)]

mod bytes;
mod find;
mod kind;
mod lexer;
mod piece;
mod punctuator;
mod refusal;
mod runs;
mod scan;
#[cfg(test)]
mod tests;

pub use kind::kind_of;
pub use lexer::{LexFault, Lexer};
