//! What one step of reading a text comes to.

use crate::at::At;
use crate::item::FaultAt;
use cm_core::{Str, Token};

/// What a lexer gives next.
#[derive(Drop)]
pub(crate) enum Lexed {
    /// The text has no more tokens.
    End,
    /// The file ends at a fault.
    Fault(FaultAt),
    LineEnd,
    Token(Token),
}

/// What an owner takes next.
#[derive(Clone, Copy)]
pub(crate) enum Taken {
    /// The text has no more tokens.
    End,
    /// The file has ended at a fault, which is told.
    FileEnds,
    /// The owner has ended.
    OwnerEnds,
    LineEnd,
    /// A token, which is counted.
    Token(Token),
}

/// An include, and where its text goes on behind it.
#[derive(Drop)]
pub(crate) struct Include {
    pub name: Str,
    /// The place of the `#`.
    pub at: At,
    /// In bytes of the text, from 0.
    pub next: usize,
}

/// How an owner goes on in a text after a token or a directive.
#[derive(Drop)]
pub(crate) enum Step {
    /// With the next token; true says that it is the first of its line.
    Goes(bool),
    /// The text has ended.
    Ends,
    /// The owner has ended.
    Stops,
    Includes(Include),
}

/// What reading a text comes to.
#[derive(Drop)]
pub(crate) enum TextEnd {
    /// The text has ended.
    Ends,
    /// The owner has ended.
    Stops,
    Includes(Include),
}
