//! The printed lines of diagnostics: the text of each number, and the line of a diagnostic at its
//! place.
#![tactic(auto)]

mod laws;
mod line;
mod rows;
mod severity;
#[cfg(test)]
mod tests;

pub use laws::each_row_is_shown;
pub use line::render;
