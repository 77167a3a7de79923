//! The bytes of module files: numbers, tags, bytes and texts, put one after another and read back,
//! and the digest that seals them.
#![tactic(auto)]

mod digest;
mod fault;
mod laws;
mod put;
mod reader;

pub use digest::{matches, seal};
pub use fault::WireFault;
pub use laws::{nothing_else_is_read, reading_gives_back_what_was_put};
pub use put::{put_bytes, put_digest, put_text, put_u8, put_u32, put_u64};
pub use reader::Reader;

#[cfg(test)]
mod tests;
