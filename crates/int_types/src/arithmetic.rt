ghost use Rattle.std.specs.Prelude.{◌≡◌, ◌^◌, ◌<◌, ◌+ℤ◌, ◌-ℤ◌, ◌*ℤ◌, neg_ℤ, pos, bit_and, bit_or, bit_xor, IsTrue, IsFalse, IfSome};
ghost use Rattle.int_types.specs.Kinds.{width, is_signed, holds};
ghost use Rattle.int_types.specs.Values.{wrapped};
ghost use Rattle.int_types.specs.Operations.{fitted, pattern, quotient, remainder, shifted_left, shifted_right};

use crate::kinds::{is_signed, width};
use crate::ranges::{holds, modulus, power_of_two};
use crate::values::wrapped;
use cm_core::IntKind;

/// The exact result of an operation, in the type: unsigned types wrap.
#[tactic(auto, using(crate::proofs::RangeLemmas::least_unsigned), unfolding(crate::specs::Operations::fitted))]
pub(crate) fn fitted(kind: IntKind, number: i128) -> Option<i128>
    ensures value { result ≡ fitted kind number }
    ensures valid { IfSome result (λ z. IsTrue (holds kind z)) }
{
    if !is_signed(kind) {
        Some(wrapped(kind, number))
    } else if holds(kind, number) {
        Some(number)
    } else {
        None
    }
}

pub(crate) fn product(kind: IntKind, x: i128, y: i128) -> Option<i128>
    requires left { IsTrue (holds kind x) }
    requires right { IsTrue (holds kind y) }
    ensures value { result ≡ fitted kind (x *ℤ y) }
    ensures valid { IfSome result (λ z. IsTrue (holds kind z)) }
{
    if is_signed(kind) {
        fitted(kind, x * y)
    } else {
        Some(unsigned_product(kind, x, y))
    }
}

/// The product in an unsigned type. It may be past an `i128` before it wraps.
fn unsigned_product(kind: IntKind, x: i128, y: i128) -> i128
    requires left { IsTrue (holds kind x) }
    requires right { IsTrue (holds kind y) }
    requires unsigned { IsFalse (is_signed kind) }
    ensures value { result ≡ wrapped kind (x *ℤ y) }
    ensures valid { IsTrue (holds kind result) }
{
    let product = x as u128 * y as u128;
    (product % modulus(kind) as u128) as i128
}

pub(crate) fn sum(kind: IntKind, x: i128, y: i128) -> Option<i128>
    requires left { IsTrue (holds kind x) }
    requires right { IsTrue (holds kind y) }
    ensures value { result ≡ fitted kind (x +ℤ y) }
    ensures valid { IfSome result (λ z. IsTrue (holds kind z)) }
{
    fitted(kind, x + y)
}

pub(crate) fn difference(kind: IntKind, x: i128, y: i128) -> Option<i128>
    requires left { IsTrue (holds kind x) }
    requires right { IsTrue (holds kind y) }
    ensures value { result ≡ fitted kind (x -ℤ y) }
    ensures valid { IfSome result (λ z. IsTrue (holds kind z)) }
{
    fitted(kind, x - y)
}

pub(crate) fn negation(kind: IntKind, x: i128) -> Option<i128>
    requires { IsTrue (holds kind x) }
    ensures value { result ≡ fitted kind (neg_ℤ x) }
    ensures valid { IfSome result (λ z. IsTrue (holds kind z)) }
{
    fitted(kind, -x)
}

/// The number whose bits are those that the number has not.
pub(crate) fn flipped(kind: IntKind, x: i128) -> i128
    requires { IsTrue (holds kind x) }
    ensures value { result ≡ wrapped kind (neg_ℤ x -ℤ pos 1) }
    ensures valid { IsTrue (holds kind result) }
{
    wrapped(kind, -x - 1)
}

pub(crate) fn bits_and(kind: IntKind, x: i128, y: i128) -> i128
    ensures value { result ≡ wrapped kind (pos (bit_and (pattern kind x) (pattern kind y))) }
    ensures valid { IsTrue (holds kind result) }
{
    of_pattern(kind, pattern(kind, x) & pattern(kind, y))
}

#[tactic(auto, using(std::proofs::lemmas::Nat::xor_lt))]
pub(crate) fn bits_xor(kind: IntKind, x: i128, y: i128) -> i128
    ensures value { result ≡ wrapped kind (pos (bit_xor (pattern kind x) (pattern kind y))) }
    ensures valid { IsTrue (holds kind result) }
{
    of_pattern(kind, pattern(kind, x) ^ pattern(kind, y))
}

#[tactic(auto, using(std::proofs::lemmas::Nat::or_lt))]
pub(crate) fn bits_or(kind: IntKind, x: i128, y: i128) -> i128
    ensures value { result ≡ wrapped kind (pos (bit_or (pattern kind x) (pattern kind y))) }
    ensures valid { IsTrue (holds kind result) }
{
    of_pattern(kind, pattern(kind, x) | pattern(kind, y))
}

#[tactic(auto, unfolding(crate::specs::Operations::quotient))]
pub(crate) fn quotient(kind: IntKind, x: i128, y: i128) -> Option<i128>
    requires left { IsTrue (holds kind x) }
    requires right { IsTrue (holds kind y) }
    ensures value { result ≡ quotient kind x y }
    ensures valid { IfSome result (λ z. IsTrue (holds kind z)) }
{
    if y == 0 { None } else { fitted(kind, x / y) }
}

#[tactic(auto, unfolding(crate::specs::Operations::remainder))]
pub(crate) fn remainder(kind: IntKind, x: i128, y: i128) -> Option<i128>
    requires left { IsTrue (holds kind x) }
    requires right { IsTrue (holds kind y) }
    ensures value { result ≡ remainder kind x y }
    ensures valid { IfSome result (λ z. IsTrue (holds kind z)) }
{
    match quotient(kind, x, y) {
        Some(_) => Some(x % y),
        None => None,
    }
}

#[tactic(auto, unfolding(crate::specs::Operations::shifted_left, crate::specs::Operations::is_count))]
pub(crate) fn shift_left(kind: IntKind, x: i128, count: i128) -> Option<i128>
    requires { IsTrue (holds kind x) }
    ensures value { result ≡ shifted_left kind x count }
    ensures valid { IfSome result (λ z. IsTrue (holds kind z)) }
{
    if 0 <= count && count < i128::from(width(kind)) && 0 <= x {
        fitted(kind, x * power_of_two(count as u32))
    } else {
        None
    }
}

#[tactic(auto, unfolding(crate::specs::Operations::shifted_right, crate::specs::Operations::is_count))]
pub(crate) fn shift_right(kind: IntKind, x: i128, count: i128) -> Option<i128>
    requires { IsTrue (holds kind x) }
    ensures value { result ≡ shifted_right kind x count }
    ensures valid { IfSome result (λ z. IsTrue (holds kind z)) }
{
    if 0 <= count && count < i128::from(width(kind)) {
        Some(x >> count as u32)
    } else {
        None
    }
}

/// The bits of the number, the highest that of its sign.
#[tactic(auto, unfolding(crate::specs::Operations::pattern))]
fn pattern(kind: IntKind, number: i128) -> u128
    ensures value { result ≡ pattern kind number }
    ensures bound { result < 2 ^ width kind }
{
    number.rem_euclid(modulus(kind)) as u128
}

/// The number whose bits these are.
#[tactic(auto, using(crate::proofs::RangeLemmas::width_bound, crate::proofs::RangeLemmas::least_bound))]
fn of_pattern(kind: IntKind, bits: u128) -> i128
    requires { bits < 2 ^ width kind }
    ensures value { result ≡ wrapped kind (pos bits) }
    ensures valid { IsTrue (holds kind result) }
{
    wrapped(kind, bits as i128)
}
