//! The language of module maps: the declarations that a map's text spells, and their spelling.
#![tactic(auto)]

mod cursor;
mod cut;
mod declaration;
mod fault;
mod inferred;
mod laws;
mod lex;
mod members;
mod modules;
mod names;
mod parse;
mod parts;
mod refusal;
mod spell;
#[cfg(test)]
mod tests;
mod word;

pub use declaration::{Feature, MapDecl, MapMember, MapModule};
pub use fault::MapFault;
pub use laws::{no_map_refused, one_map, one_tree, spelled_as_read};
pub use parse::parse_map;
pub use spell::spell_map;
