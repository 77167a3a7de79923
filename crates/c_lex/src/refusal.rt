ghost use Rattle.std.specs.Prelude.{◌≡◌, ◌==◌, ◌+◌, ◌^◌, ◌<◌, IfSome, length, position};
ghost use Rattle.c_lex.specs.Tokens.{is_long_name, long_name, refusal_in, zero_in};

use crate::piece::Piece;
use cm_core::TokenKind;

/// Why a piece ends the tokens of a text.
#[derive(Clone, Copy)]
pub(crate) enum Cause {
    Unclosed,
    BadByte,
    LongName,
}

/// A cause, and the number of the byte in the text that it stands at.
#[derive(Clone, Copy)]
pub(crate) struct Refusal {
    pub(crate) cause: Cause,
    pub(crate) at: usize,
}

/// The most bytes that an identifier has.
const NAME_LIMIT: usize = 4096;

pub(crate) fn is_long_name(kind: TokenKind, length: usize) -> bool
    ensures { result ≡ is_long_name kind length }
{
    matches!(kind, TokenKind::Ident) && length > NAME_LIMIT
}

/// The number of the first zero byte.
fn zero_at(spelling: &[u8]) -> Option<usize>
    ensures place { result ≡ position (λ b. b == 0) spelling.now }
    ensures within { IfSome result (λ count. count < length spelling.now) }
{
    spelling.iter().position(|byte| *byte == 0)
}

/// The first zero byte of a piece that begins at `at`.
fn zero_in(at: usize, spelling: &[u8]) -> Option<Refusal>
    requires { at + length spelling.now < 2 ^ 64 }
    ensures { result ≡ zero_in at spelling.now }
{
    match zero_at(spelling) {
        Some(count) => Some(Refusal {
            cause: Cause::BadByte,
            at: at + count,
        }),
        None => None,
    }
}

/// What is wrong with the piece that begins at `at`.
pub(crate) fn refusal_in(at: usize, piece: Piece, spelling: &[u8]) -> Option<Refusal>
    requires { at + length spelling.now < 2 ^ 64 }
    ensures { result ≡ refusal_in at piece spelling.now }
{
    let zero = zero_in(at, spelling);
    match piece {
        Piece::OpenComment => Some(Refusal {
            cause: Cause::Unclosed,
            at,
        }),
        Piece::Blank => zero,
        Piece::Token(kind) => match zero {
            Some(refusal) => Some(refusal),
            None => long_name(at, kind, spelling.len()),
        },
    }
}

fn long_name(at: usize, kind: TokenKind, length: usize) -> Option<Refusal>
    ensures { result ≡ long_name at kind length }
{
    if is_long_name(kind, length) {
        Some(Refusal {
            cause: Cause::LongName,
            at,
        })
    } else {
        None
    }
}
