ghost use Rattle.std.specs.Prelude.{◌≡◌, true};
ghost use Rattle.c_lex.specs.Pieces.{is_mark, is_pair, is_quadruple, is_triple};
ghost use Rattle.c_lex.specs.Punctuators.{IsPunctuatorLength};

use crate::bytes::byte_at;

/// The punctuators of two bytes (C11 6.4.6).
const PAIRS: [(u8, u8); 25] = [
    (b'-', b'>'),
    (b'+', b'+'),
    (b'-', b'-'),
    (b'<', b'<'),
    (b'>', b'>'),
    (b'<', b'='),
    (b'>', b'='),
    (b'=', b'='),
    (b'!', b'='),
    (b'&', b'&'),
    (b'|', b'|'),
    (b'*', b'='),
    (b'/', b'='),
    (b'%', b'='),
    (b'+', b'='),
    (b'-', b'='),
    (b'&', b'='),
    (b'^', b'='),
    (b'|', b'='),
    (b'#', b'#'),
    (b'<', b':'),
    (b':', b'>'),
    (b'<', b'%'),
    (b'%', b'>'),
    (b'%', b':'),
];

/// Whether the byte is a punctuator.
#[tactic(auto, unfolding(crate::specs::Pieces::is_mark))]
pub(crate) fn is_mark(byte: u8) -> bool
    ensures { result ≡ is_mark byte }
{
    b"[](){}.&*+-~!/%<>^|?:;=,#".contains(&byte)
}

#[tactic(auto, unfolding(crate::specs::Pieces::is_pair))]
fn is_pair(first: u8, second: u8) -> bool
    ensures { result ≡ is_pair first second }
{
    PAIRS.contains(&(first, second))
}

#[tactic(auto, unfolding(crate::specs::Pieces::is_triple))]
fn is_triple(first: u8, second: u8, third: u8) -> bool
    ensures { result ≡ is_triple first second third }
{
    first == b'.' && second == b'.' && third == b'.'
        || first == b'<' && second == b'<' && third == b'='
        || first == b'>' && second == b'>' && third == b'='
}

#[tactic(auto, unfolding(crate::specs::Pieces::is_quadruple))]
fn is_quadruple(first: u8, second: u8, third: u8, fourth: u8) -> bool
    ensures { result ≡ is_quadruple first second third fourth }
{
    first == b'%' && second == b':' && third == b'%' && fourth == b':'
}

/// The length of the longest punctuator that begins with `first` and goes on with `rest`.
pub(crate) fn punctuator_length(first: u8, rest: &[u8]) -> usize
    requires { is_mark first ≡ true }
    ensures { IsPunctuatorLength first rest.now result }
{
    let second = byte_at(rest, 0);
    let third = byte_at(rest, 1);
    if !is_mark(second) {
        return 1;
    }
    if is_quadruple(first, second, third, byte_at(rest, 2)) {
        return 4;
    }
    if is_triple(first, second, third) {
        return 3;
    }
    if is_pair(first, second) { 2 } else { 1 }
}
