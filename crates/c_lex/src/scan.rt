ghost use Rattle.std.specs.Prelude.{◌≡◌, ◌==◌, ◌||◌, ◌&&◌, ◌∷◌, [], true, Some, IfNone, IfSome, length, MatchOption};
ghost use Rattle.std.specs.Char.{is_ascii_digit};
ghost use Rattle.c_lex.specs.Pieces.{begins, begins_digit, header_end, header_of, is_blank, piece_of};
ghost use Rattle.c_lex.specs.Cuts.{cut_of, header_cut_of, IsCut, IsInside, IsNoHeader, IsQuote, IsSymbol};

use crate::piece::{Cut, Piece};
use crate::punctuator::{is_mark, punctuator_length};
use crate::runs::{
    closed_length, continue_length, is_nondigit, line_length, named_length, number_length,
    quoted_length, word_length,
};
use cm_core::TokenKind;

fn token(kind: TokenKind, length: usize) -> Cut
    ensures { result ≡ record { piece = Piece.Token kind; length = length } }
{
    Cut {
        piece: Piece::Token(kind),
        length,
    }
}

fn blank(length: usize) -> Cut
    ensures { result ≡ record { piece = Piece.Blank; length = length } }
{
    Cut {
        piece: Piece::Blank,
        length,
    }
}

fn begins(bytes: &[u8], byte: u8) -> bool
    ensures { result ≡ begins byte bytes.now }
{
    match bytes.first() {
        Some(first) => *first == byte,
        None => false,
    }
}

fn begins_digit(rest: &[u8]) -> bool
    ensures { result ≡ begins_digit rest.now }
{
    match rest.first() {
        Some(byte) => byte.is_ascii_digit(),
        None => false,
    }
}

/// Whether a preprocessing number begins with `first` and then `rest`.
fn begins_number(first: u8, rest: &[u8]) -> bool
    ensures { result ≡ (is_ascii_digit first || (first == 46 && begins_digit rest.now)) }
{
    first.is_ascii_digit() || first == b'.' && begins_digit(rest)
}

/// A character constant or a string literal, if the quote has its partner in the line.
fn quoted(kind: TokenKind, quote: u8, rest: &[u8]) -> Cut
    requires { IsQuote quote kind }
    ensures { IsCut piece_of (quote ∷ rest.now) result }
{
    match quoted_length(quote, rest) {
        Some(length) => token(kind, length + 1),
        None => token(TokenKind::Other, 1),
    }
}

/// What begins with `/` and then the `*` of `rest`.
fn block_comment(rest: &[u8]) -> Cut
    requires { begins 42 rest.now ≡ true }
    ensures { IsCut piece_of (47 ∷ rest.now) result }
{
    let (_, inside) = rest.split_at(1);
    let Some((first, more)) = inside.split_first() else {
        return Cut {
            piece: Piece::OpenComment,
            length: 2,
        };
    };
    match closed_length(*first, more) {
        Some(length) => blank(length + 3),
        None => Cut {
            piece: Piece::OpenComment,
            length: more.len() + 3,
        },
    }
}

/// A punctuator, or a character that begins no token.
fn symbol(first: u8, rest: &[u8]) -> Cut
    requires { IsSymbol first rest.now }
    ensures { IsCut piece_of (first ∷ rest.now) result }
{
    if is_mark(first) {
        return token(TokenKind::Punct, punctuator_length(first, rest));
    }
    if first < 128 {
        return token(TokenKind::Other, 1);
    }
    token(TokenKind::Other, continue_length(rest) + 1)
}

/// What begins with `/`.
fn slash(rest: &[u8]) -> Cut
    ensures { IsCut piece_of (47 ∷ rest.now) result }
{
    if begins(rest, b'*') {
        return block_comment(rest);
    }
    if begins(rest, b'/') {
        return blank(line_length(rest) + 1);
    }
    symbol(b'/', rest)
}

fn is_blank(byte: u8) -> bool
    ensures { result ≡ is_blank byte }
{
    byte == b' ' || byte == b'\t' || byte == b'\x0b' || byte == b'\x0c'
}

/// The first piece of the text that is `first` and then `rest`.
fn cut_after(first: u8, rest: &[u8]) -> Cut
    ensures { IsCut piece_of (first ∷ rest.now) result }
{
    if is_nondigit(first) {
        return token(TokenKind::Ident, word_length(rest) + 1);
    }
    if begins_number(first, rest) {
        return token(TokenKind::Number, number_length(first, rest) + 1);
    }
    if first == b'\'' {
        return quoted(TokenKind::CharConst, first, rest);
    }
    if first == b'"' {
        return quoted(TokenKind::Str, first, rest);
    }
    if first == b'/' {
        return slash(rest);
    }
    if first == b'\n' {
        return token(TokenKind::LineEnd, 1);
    }
    if is_blank(first) {
        return blank(1);
    }
    symbol(first, rest)
}

/// The first piece of the text, if it isn't empty.
pub(crate) fn first_cut(text: &[u8]) -> Option<Cut>
    ensures cut { result ≡ cut_of text.now }
    ensures inside { IfSome result (IsInside text.now) }
    ensures longest { IfSome result (IsCut piece_of text.now) }
    ensures none { IfNone result (length text.now ≡ 0) }
{
    let (first, rest) = text.split_first()?;
    Some(cut_after(*first, rest))
}

/// What ends a header name that begins with the byte.
fn header_end(first: u8) -> Option<u8>
    ensures { result ≡ header_end first }
{
    match first {
        b'<' => Some(b'>'),
        b'"' => Some(b'"'),
        _ => None,
    }
}

/// A header name of `first` and `rest` that ends with `end`.
fn named(first: u8, end: u8, rest: &[u8]) -> Option<Cut>
    requires { header_end first ≡ Some end }
    ensures { MatchOption result (IsNoHeader (first ∷ rest.now)) (IsCut header_of (first ∷ rest.now)) }
{
    if rest.is_empty() {
        return None;
    }
    if begins(rest, end) {
        return None;
    }
    match named_length(end, rest) {
        Some(length) => Some(token(TokenKind::HeaderName, length + 1)),
        None => None,
    }
}

/// The header name that `first` and `rest` begin with.
fn header_name(first: u8, rest: &[u8]) -> Option<Cut>
    ensures { MatchOption result (IsNoHeader (first ∷ rest.now)) (IsCut header_of (first ∷ rest.now)) }
{
    match header_end(first) {
        Some(end) => named(first, end, rest),
        None => None,
    }
}

/// The first piece of the text, a header name before all others.
pub(crate) fn first_header_cut(text: &[u8]) -> Option<Cut>
    ensures cut { result ≡ header_cut_of text.now }
    ensures inside { IfSome result (IsInside text.now) }
{
    let (first, rest) = text.split_first()?;
    match header_name(*first, rest) {
        Some(cut) => Some(cut),
        None => Some(cut_after(*first, rest)),
    }
}
