ghost use Rattle.std.specs.Prelude.{◌≡◌, ◌-ℤ◌, FitsSigned, IsTrue};
ghost use Rattle.std.specs.Int.{w128};
ghost use Rattle.int_types.specs.Kinds.{least, holds};
ghost use Rattle.int_types.specs.Values.{IsValid, wrapped, converted};

use crate::ranges::{holds, least, modulus};
use cm_core::IntKind;

/// An integer and its type. It is valid where the type holds the number.
#[derive(Clone, Copy, Debug, PartialEq, Eq)]
pub struct Value {
    pub kind: IntKind,
    pub number: i128,
}

/// The value in another type: unchanged where that type holds it, 1 for `_Bool` where it is not 0,
/// and else what is left of it in the type's bits.
pub fn convert(value: Value, kind: IntKind) -> Value
    requires { IsValid value }
    ensures value { result ≡ record { kind = kind; number = converted kind value.number } }
    ensures valid { IsValid result }
{
    Value {
        kind,
        number: converted(kind, value.number, value.kind),
    }
}

/// The number in the type, of a number that `from` holds.
#[tactic(auto, using(crate::proofs::RangeLemmas::small_holds, crate::proofs::RangeLemmas::least_bound), unfolding(crate::specs::Values::converted, crate::specs::Kinds::holds, crate::specs::Kinds::least, crate::specs::Kinds::greatest))]
pub(crate) fn converted(kind: IntKind, number: i128, from: IntKind) -> i128
    requires { IsTrue (holds from number) }
    ensures value { result ≡ converted kind number }
    ensures valid { IsTrue (holds kind result) }
{
    if holds(kind, number) {
        number
    } else if kind == IntKind::Bool {
        1
    } else {
        wrapped(kind, number)
    }
}

/// The number of the type that has the same lowest bits.
pub(crate) fn wrapped(kind: IntKind, number: i128) -> i128
    requires { FitsSigned w128 (number -ℤ least kind) }
    ensures value { result ≡ wrapped kind number }
    ensures valid { IsTrue (holds kind result) }
{
    let least = least(kind);
    least + (number - least).rem_euclid(modulus(kind))
}
