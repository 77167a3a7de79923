ghost use Rattle.std.specs.Prelude.{◌≡◌, ◌^◌, ◌<◌, pos};
ghost use Rattle.int_types.specs.Kinds.{width, least, greatest, holds};

use crate::kinds::width;
use cm_core::IntKind;

/// Whether the type holds the number: the test for a valid `Value`.
#[tactic(auto, unfolding(crate::specs::Kinds::holds))]
pub fn holds(kind: IntKind, number: i128) -> bool
    ensures { result ≡ holds kind number }
{
    least(kind) <= number && number <= greatest(kind)
}

/// The least number that the type holds.
#[tactic(auto, unfolding(crate::specs::Kinds::least))]
pub(crate) fn least(kind: IntKind) -> i128
    ensures { result ≡ least kind }
{
    match kind {
        IntKind::Char | IntKind::SChar => i8::MIN as i128,
        IntKind::Short => i16::MIN as i128,
        IntKind::Int => i32::MIN as i128,
        IntKind::Long | IntKind::LLong => i64::MIN as i128,
        IntKind::Bool
        | IntKind::UChar
        | IntKind::UShort
        | IntKind::UInt
        | IntKind::ULong
        | IntKind::ULLong => 0,
    }
}

/// The greatest number that the type holds.
#[tactic(auto, unfolding(crate::specs::Kinds::greatest))]
pub(crate) fn greatest(kind: IntKind) -> i128
    ensures { result ≡ greatest kind }
{
    match kind {
        IntKind::Bool => 1,
        IntKind::Char | IntKind::SChar => i8::MAX as i128,
        IntKind::UChar => u8::MAX as i128,
        IntKind::Short => i16::MAX as i128,
        IntKind::UShort => u16::MAX as i128,
        IntKind::Int => i32::MAX as i128,
        IntKind::UInt => u32::MAX as i128,
        IntKind::Long | IntKind::LLong => i64::MAX as i128,
        IntKind::ULong | IntKind::ULLong => u64::MAX as i128,
    }
}

/// How many numbers the type holds.
pub(crate) fn modulus(kind: IntKind) -> i128
    ensures { result ≡ pos (2 ^ width kind) }
{
    power_of_two(width(kind))
}

pub(crate) fn power_of_two(exponent: u32) -> i128
    requires { exponent < 127 }
    ensures { result ≡ pos (2 ^ exponent) }
{
    1 << exponent
}
