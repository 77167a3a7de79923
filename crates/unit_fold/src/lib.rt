//! The fold of one owner, a unit or a submodule, over the tokens of its texts: it cuts them into pieces, stands still at each
//! include, and goes on from what it is given.
#![tactic(auto)]

mod at;
mod blocks;
mod declare;
mod directive;
mod fold;
mod forms;
mod given;
mod include_at;
mod item;
mod lexed;
pub mod line_fault;
pub mod lines;
pub mod names;
mod open_piece;
mod progress;
mod read;
#[cfg(test)]
mod tests;

pub use at::At;
pub use blocks::{fault_args, fault_number, has_fault, push_fault, push_unit};
pub use fold::{Event, Fold, FoldFault, Owned, Stage};
pub use given::Given;
pub use include_at::IncludeAt;
pub use item::{FaultAt, FaultKind, Imported, Item, Named};
