ghost use Rattle.std.specs.Prelude.{◌≡◌, ◌≤◌, IfSome, length, drop};
ghost use Rattle.std.specs.Str.{IsUtf8, IsCharBoundary};
ghost use Rattle.c_lex.specs.Cuts.{IsInside};
ghost use Rattle.c_lex.specs.Tokens.{cut_in, follows_line_end, next_at, HasBounds};

use crate::bytes::byte_at;
use crate::piece::{Cut, Piece};
use crate::refusal::{Refusal, refusal_in};
use crate::scan::{first_cut, first_header_cut};
use cm_core::TokenKind;

/// Whether a header name comes before all other pieces.
#[derive(Clone, Copy)]
pub(crate) enum Mode {
    Plain,
    Header,
}

/// A token by its kind and the bytes of the text that spell it, from number `from` up to `to`.
#[derive(Clone, Copy)]
pub(crate) struct Spelled {
    pub(crate) kind: TokenKind,
    pub(crate) from: usize,
    pub(crate) to: usize,
    pub(crate) spaced: bool,
}

/// What a text goes on with.
#[derive(Clone, Copy)]
pub(crate) enum Found {
    End,
    Refused(Refusal),
    Named(Spelled),
}

fn cut_at(bytes: &[u8], at: usize, mode: Mode) -> Option<Cut>
    requires { at ≤ length bytes.now }
    ensures cut { result ≡ cut_in mode (drop at bytes.now) }
    ensures inside { IfSome result (IsInside (drop at bytes.now)) }
{
    let (_, rest) = bytes.split_at(at);
    match mode {
        Mode::Plain => first_cut(rest),
        Mode::Header => first_header_cut(rest),
    }
}

/// Whether a line end stands directly before byte number `at`.
#[tactic(auto, unfolding(crate::specs::Tokens::follows_line_end))]
fn follows_line_end(bytes: &[u8], at: usize) -> bool
    ensures { result ≡ follows_line_end bytes.now at }
{
    at > 0 && byte_at(bytes, at - 1) == b'\n'
}

/// The next token from byte number `start` on.
pub(crate) fn next_at(bytes: &[u8], start: usize, mode: Mode) -> Found
    requires utf8 { IsUtf8 bytes.now }
    requires boundary { IsCharBoundary bytes.now start }
    ensures found { result ≡ next_at mode bytes.now start }
    ensures bounds { HasBounds bytes.now result }
{
    let mut at = start;
    let mut spaced = follows_line_end(bytes, start);
    while let Some(cut) = cut_at(bytes, at, mode) {
        let (_, rest) = bytes.split_at(at);
        let (spelling, _) = rest.split_at(cut.length);
        let to = at + cut.length;
        if let Some(refusal) = refusal_in(at, cut.piece, spelling) {
            return Found::Refused(refusal);
        }
        if let Piece::Token(kind) = cut.piece {
            return Found::Named(Spelled {
                kind,
                from: at,
                to,
                spaced,
            });
        }
        spaced = true;
        at = to;
    }
    Found::End
}
