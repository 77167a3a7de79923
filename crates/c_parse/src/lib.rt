//! The declarations of C: how the tokens of an owner are cut into the pieces that are read as one
//! external declaration each.
#![tactic(auto)]

mod cut;
mod laws;
mod role;
#[cfg(test)]
mod tests;

pub use cut::Cut;
pub use laws::{ends_are_as_stated, pieces_are_as_stated, pieces_keep_with_more_names};
