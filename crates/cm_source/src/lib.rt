//! The text of a C source file after translation phases 1 and 2, with the place in the file of each
//! of its bytes.
#![tactic(auto)]

mod draft;
mod places;
mod position;
mod step;
#[cfg(test)]
mod tests;
mod text;

pub use position::Position;
pub use text::{Text, TextFault};
