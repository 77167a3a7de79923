ghost use Rattle.std.specs.Prelude.{◌≡◌, Some};
ghost use Rattle.c_lex.specs.Tokens.{kind_of, short_kind, token_kind};

use crate::piece::Piece;
use crate::refusal::is_long_name;
use crate::scan::first_cut;
use cm_core::TokenKind;

/// The kind of the one token that the text is, as it stands: no trigraph is replaced and no line
/// joined. None where the text isn't one token, or is an identifier of more than 4096 bytes.
pub fn kind_of(text: &str) -> Option<TokenKind>
    ensures { result ≡ kind_of text.now }
{
    let cut = first_cut(text.as_bytes())?;
    if cut.length < text.len() {
        return None;
    }
    token_kind(cut.piece, text.len())
}

fn token_kind(piece: Piece, length: usize) -> Option<TokenKind>
    ensures { result ≡ token_kind (Some piece) length }
{
    match piece {
        Piece::Token(kind) => short_kind(kind, length),
        Piece::Blank | Piece::OpenComment => None,
    }
}

fn short_kind(kind: TokenKind, length: usize) -> Option<TokenKind>
    ensures { result ≡ short_kind kind length }
{
    if is_long_name(kind, length) {
        None
    } else {
        Some(kind)
    }
}
