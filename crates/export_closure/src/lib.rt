//! What an import makes visible: the closure of a submodule over its submodules that are not
//! explicit and the imports that are exported.
#![tactic(auto)]

mod children;
mod exports;
mod laws;
mod members;
mod rows;
#[cfg(test)]
mod tests;
mod visible_set;
mod work_list;

pub use laws::{closure_is_the_least, rounds_settle, sets_are_read_back};
pub use rows::{ExportRow, Pattern};
pub use visible_set::VisibleSet;
pub use work_list::closure;
