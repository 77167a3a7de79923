use cm_core::TokenKind;

/// What the front of a text is: a preprocessing token, or what stands between tokens.
#[derive(Clone, Copy, Debug, PartialEq, Eq)]
pub(crate) enum Piece {
    /// A character of white space that ends no line, or a comment.
    Blank,
    /// A block comment that the text doesn't close.
    OpenComment,
    Token(TokenKind),
}

/// A piece, and how many bytes it has.
#[derive(Clone, Copy, Debug, PartialEq, Eq)]
pub(crate) struct Cut {
    pub(crate) piece: Piece,
    pub(crate) length: usize,
}
