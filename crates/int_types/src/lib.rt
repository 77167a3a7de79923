//! C's integer types: their conversions, and the value of an operator on two integers or on one.
//! Values are mathematical integers, each with the type that holds it.
#![tactic(auto)]

mod arithmetic;
mod constants;
mod kinds;
mod operations;
mod ranges;
#[cfg(test)]
mod tests;
mod values;

pub use constants::constant_type;
pub use kinds::{is_signed, promote, usual, width};
pub use operations::{apply, apply_unary};
pub use ranges::holds;
pub use values::{Value, convert};
