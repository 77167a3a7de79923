//! The base types of the front end: lists and texts that contracts see as plain data, paths, the
//! numbers that tables hand out, and the plain types that several crates exchange.
#![tactic(auto)]

mod declarations;
mod diag;
mod files;
mod integers;
mod list;
mod macros;
mod names;
mod no_memory;
mod numbers;
mod path;
mod status;
mod steps;
mod str;
mod sub_list;
mod texts;
mod token;
mod tool_status;
mod try_copy;
mod types;
mod view;

pub use declarations::{Content, DeclKind, DeclNode, Member, NameRow, Space, Storage, TagKind};
pub use diag::Diag;
pub use files::Files;
pub use integers::{BinOp, IntKind, UnOp};
pub use list::List;
pub use macros::{BodyToken, Define, MacroBody, MacroNode};
pub use names::Names;
pub use no_memory::NoMemory;
pub use numbers::{DeclNo, DeclRef, FileNo, MacroNo, MacroRef, NameNo, Owner, Place, SubNo};
pub use path::{PathFault, PathText};
pub use status::Status;
pub use steps::Steps;
pub use str::Str;
pub use sub_list::SubList;
pub use token::{Token, TokenKind};
pub use tool_status::ToolStatus;
pub use try_copy::TryCopy;
pub use types::{Qual, Signature, Ty};
pub use view::{Sees, ViewFault, Visible};

#[cfg(test)]
mod tests;
