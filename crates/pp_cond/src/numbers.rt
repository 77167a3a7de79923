ghost use Rattle.std.specs.Prelude.{◌≡◌, ◌^◌, ◌<◌, ◌≤◌, ◌⊎◌, length, take, drop, nat_lt, ◌==◌, if◌then◌else◌};
ghost use Rattle.pp_cond.specs.Numbers.{digit, is_digit, digit_count, digits_onto, is_u, is_l, is_ll, suffix_of, typed_constant, based_constant, integer_of, is_x, small};

use crate::outcome::Outcome;
use int_types::{Value, constant_type, is_signed};

/// The outcome of an integer constant; `None` where the bytes are none, or no type holds it.
#[tactic(auto, unfolding(crate::specs::Numbers::integer_of))]
pub(crate) fn integer(text: &[u8]) -> Option<Outcome>
    ensures { result ≡ integer_of text.now }
{
    match text {
        [] => None,
        [first] => based(if *first == b'0' { 8 } else { 10 }, text),
        [first, second, digits @ ..] => {
            if *first == b'0' && is_x(*second) {
                based(16, digits)
            } else if *first == b'0' {
                based(8, text)
            } else {
                based(10, text)
            }
        }
    }
}

/// The outcome of digits of the base and a suffix.
#[tactic(auto, unfolding(crate::specs::Numbers::based_constant))]
fn based(base: u8, text: &[u8]) -> Option<Outcome>
    requires { (base ≡ 8) ⊎ (base ≡ 10) ⊎ (base ≡ 16) }
    ensures { result ≡ based_constant base text.now }
{
    let count = digit_count(base, text);
    if count == 0 {
        return None;
    }
    let Some(unsigned) = suffix(back(text, count)) else {
        return None;
    };
    match number(base, front(text, count)) {
        Some(number) => typed(base, unsigned, number),
        None => None,
    }
}

/// The outcome of a constant's number.
#[tactic(auto, unfolding(crate::specs::Numbers::typed_constant))]
fn typed(base: u8, unsigned: bool, number: u64) -> Option<Outcome>
    requires { (base ≡ 8) ⊎ (base ≡ 10) ⊎ (base ≡ 16) }
    ensures { result ≡ typed_constant base unsigned number }
{
    match constant_type(u128::from(number), base, unsigned, 1) {
        Some(kind) => {
            let value = Value {
                kind,
                number: i128::from(number),
            };
            Some(Outcome::seen_as(!is_signed(kind), Some(value)))
        }
        None => None,
    }
}

/// The number that the digits are, if it is below 2^64.
pub(crate) fn number(base: u8, digits: &[u8]) -> Option<u64>
    requires least { 0 < base }
    requires most { base ≤ 16 }
    ensures { result ≡ small (digits_onto base 0 digits.now) }
{
    let mut number = 0u64;
    for byte in digits {
        let next = u128::from(number) * u128::from(base) + u128::from(digit(*byte));
        if u128::from(u64::MAX) < next {
            return None;
        }
        number = next as u64;
    }
    Some(number)
}

/// How many digits of the base stand at the front.
pub(crate) fn digit_count(base: u8, text: &[u8]) -> usize
    ensures value { result ≡ digit_count base text.now }
    ensures within { result ≤ length text.now }
{
    let mut count = 0;
    while count < text.len() && is_digit(base, text[count]) {
        count += 1;
    }
    count
}

fn is_digit(base: u8, byte: u8) -> bool
    ensures { result ≡ is_digit base byte }
{
    digit(byte) < base
}

/// What the digit is worth; 16 for a byte that is no digit.
fn digit(byte: u8) -> u8
    ensures value { result ≡ digit byte }
    ensures bound { result ≤ 16 }
{
    match byte {
        b'0'..=b'9' => byte - b'0',
        b'a'..=b'f' => byte - b'a' + 10,
        b'A'..=b'F' => byte - b'A' + 10,
        _ => 16,
    }
}

/// Whether the suffix of a constant has a `u`; `None` where it is no suffix.
#[tactic(auto, unfolding(crate::specs::Numbers::suffix_of))]
fn suffix(text: &[u8]) -> Option<bool>
    ensures { result ≡ suffix_of text.now }
{
    match text {
        [] => Some(false),
        [a] => {
            if is_u(*a) {
                Some(true)
            } else if is_l(*a) {
                Some(false)
            } else {
                None
            }
        }
        [a, b] => {
            if is_u(*a) && is_l(*b) || is_l(*a) && is_u(*b) {
                Some(true)
            } else if is_ll(*a, *b) {
                Some(false)
            } else {
                None
            }
        }
        [a, b, c] => {
            if is_u(*a) && is_ll(*b, *c) || is_ll(*a, *b) && is_u(*c) {
                Some(true)
            } else {
                None
            }
        }
        _ => None,
    }
}

fn is_u(byte: u8) -> bool
    ensures { result ≡ is_u byte }
{
    byte == b'u' || byte == b'U'
}

fn is_l(byte: u8) -> bool
    ensures { result ≡ is_l byte }
{
    byte == b'l' || byte == b'L'
}

fn is_ll(first: u8, second: u8) -> bool
    ensures { result ≡ is_ll first second }
{
    is_l(first) && first == second
}

fn is_x(byte: u8) -> bool
    ensures { result ≡ is_x byte }
{
    byte == b'x' || byte == b'X'
}

pub(crate) fn front(text: &[u8], end: usize) -> &[u8]
    requires { end ≤ length text.now }
    ensures { result.now ≡ take end text.now }
{
    &text[..end]
}

pub(crate) fn back(text: &[u8], start: usize) -> &[u8]
    requires { start ≤ length text.now }
    ensures { result.now ≡ drop start text.now }
{
    &text[start..]
}
