use crate::no_memory::NoMemory;
use crate::numbers::{NameNo, Place};
use crate::try_copy::TryCopy;
use std::alloc::Global;

/// What a preprocessing token is, after C11 6.4.
#[derive(Clone, Copy, Debug, PartialEq, Eq)]
pub enum TokenKind {
    Ident,
    Number,
    CharConst,
    Str,
    Punct,
    HeaderName,
    /// A byte that begins no other token.
    Other,
    /// The end of a source line.
    LineEnd,
}

/// A preprocessing token with its spelling and its place.
#[derive(Clone, Copy, Debug, PartialEq, Eq)]
pub struct Token {
    pub kind: TokenKind,
    /// The spelling.
    pub name: NameNo,
    pub place: Place,
    /// Whether white space stands before it.
    pub spaced: bool,
}

impl TryCopy for Token {
    fn try_copy(&self, _alloc: Global) -> Result<Token, NoMemory> {
        Ok(*self)
    }
}
