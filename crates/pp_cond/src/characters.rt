ghost use Rattle.std.specs.Prelude.{◌≡◌, ◌<◌, ◌≤◌, pos, length};
ghost use Rattle.int_types.specs.Values.{IsValid};
ghost use Rattle.pp_cond.specs.Characters.{closes, is_plain, is_octal, byte_of, char_outcome, simple_escape, numeric_escape, escape, character, character_of};

use crate::numbers::{back, digit_count, front, number};
use crate::outcome::Outcome;
use cm_core::IntKind;
use int_types::{Value, convert};

/// The outcome of a character constant; `None` where it is not one ASCII character or one escape
/// sequence of value at most 255.
#[tactic(auto, unfolding(crate::specs::Characters::character_of))]
pub(crate) fn character_constant(text: &[u8]) -> Option<Outcome>
    ensures { result ≡ character_of text.now }
{
    match text {
        [b'\'', body @ ..] => match character(body) {
            Some(code) => Some(char_outcome(code)),
            None => None,
        },
        _ => None,
    }
}

/// The outcome of a char with the code.
#[tactic(auto, unfolding(crate::specs::Characters::char_outcome))]
fn char_outcome(code: u8) -> Outcome
    ensures { result ≡ char_outcome code }
{
    let value = int_value(code);
    Outcome::seen_as(false, Some(convert(value, IntKind::Char)))
}

#[tactic(auto, using(crate::proofs::OutcomeLemmas::byte_held))]
fn int_value(code: u8) -> Value
    ensures value { result ≡ record { kind = IntKind.Int; number = pos code } }
    ensures valid { IsValid result }
{
    Value {
        kind: IntKind::Int,
        number: i128::from(code),
    }
}

/// The code of what stands before the closing quote.
#[tactic(auto, unfolding(crate::specs::Characters::character))]
fn character(body: &[u8]) -> Option<u8>
    ensures { result ≡ character body.now }
{
    match body {
        [] => None,
        [first, rest @ ..] => {
            if *first == b'\\' {
                escape(rest)
            } else if closes(rest) && is_plain(*first) {
                Some(*first)
            } else {
                None
            }
        }
    }
}

fn is_plain(byte: u8) -> bool
    ensures { result ≡ is_plain byte }
{
    byte < 128 && !(byte == b'\'' || byte == b'\\' || byte == b'\n')
}

/// The code of an escape sequence, after its backslash.
#[tactic(auto, unfolding(crate::specs::Characters::escape))]
fn escape(text: &[u8]) -> Option<u8>
    ensures { result ≡ escape text.now }
{
    match text {
        [] => None,
        [first, rest @ ..] => {
            if *first == b'x' {
                numeric_escape(16, digit_count(16, rest), rest)
            } else if closes(rest) && !is_octal(*first) {
                simple_escape(*first)
            } else {
                numeric_escape(8, digit_count(8, text).min(3), text)
            }
        }
    }
}

fn is_octal(byte: u8) -> bool
    ensures { result ≡ is_octal byte }
{
    b'0' <= byte && byte < b'8'
}

/// The code that the first `count` bytes are, if the closing quote follows them.
#[tactic(auto, unfolding(crate::specs::Characters::numeric_escape))]
fn numeric_escape(base: u8, count: usize, text: &[u8]) -> Option<u8>
    requires least { 0 < base }
    requires most { base ≤ 16 }
    requires count { count ≤ length text.now }
    ensures { result ≡ numeric_escape base count text.now }
{
    if count == 0 || !closes(back(text, count)) {
        return None;
    }
    match number(base, front(text, count)) {
        Some(code) => byte_of(code),
        None => None,
    }
}

fn byte_of(code: u64) -> Option<u8>
    ensures { result ≡ byte_of code }
{
    if code < 256 { Some(code as u8) } else { None }
}

fn closes(text: &[u8]) -> bool
    ensures { result ≡ closes text.now }
{
    matches!(text, [b'\''])
}

fn simple_escape(byte: u8) -> Option<u8>
    ensures { result ≡ simple_escape byte }
{
    match byte {
        b'\'' | b'"' | b'?' | b'\\' => Some(byte),
        b'a' => Some(7),
        b'b' => Some(8),
        b'f' => Some(12),
        b'n' => Some(10),
        b'r' => Some(13),
        b't' => Some(9),
        b'v' => Some(11),
        _ => None,
    }
}
