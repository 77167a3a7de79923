//! The conditions of `#if` and `#elif`: whether the tokens of one are true.
#![tactic(auto)]

mod characters;
mod choices;
mod conditions;
mod numbers;
mod outcome;
mod reader;
mod symbol;
#[cfg(test)]
mod tests;
mod tokens;

pub use conditions::{CondFault, condition};
pub use outcome::Outcome;
pub use symbol::{Infix, Symbol};
