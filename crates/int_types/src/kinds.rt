ghost use Rattle.std.specs.Prelude.{◌≡◌, IsTrue, IsFalse};
ghost use Rattle.int_types.specs.Kinds.{width, is_signed, rank, promoted, unsigned_of, common_of, usual};

use cm_core::IntKind;

/// How many bits a value of the type is held in, its sign included: 1 for `_Bool`, else 8 to 64.
pub fn width(kind: IntKind) -> u32
    ensures { result ≡ width kind }
{
    match kind {
        IntKind::Bool => 1,
        IntKind::Char | IntKind::SChar | IntKind::UChar => 8,
        IntKind::Short | IntKind::UShort => 16,
        IntKind::Int | IntKind::UInt => 32,
        IntKind::Long | IntKind::ULong | IntKind::LLong | IntKind::ULLong => 64,
    }
}

/// Whether the type holds negative numbers. `char` does.
pub fn is_signed(kind: IntKind) -> bool
    ensures { result ≡ is_signed kind }
{
    match kind {
        IntKind::Char
        | IntKind::SChar
        | IntKind::Short
        | IntKind::Int
        | IntKind::Long
        | IntKind::LLong => true,
        IntKind::Bool
        | IntKind::UChar
        | IntKind::UShort
        | IntKind::UInt
        | IntKind::ULong
        | IntKind::ULLong => false,
    }
}

/// The type that a value of the type is promoted to.
#[tactic(auto, unfolding(crate::specs::Kinds::promoted, crate::specs::Kinds::represents_all, crate::specs::Kinds::least, crate::specs::Kinds::greatest))]
pub fn promote(kind: IntKind) -> IntKind
    ensures { result ≡ promoted kind }
{
    match kind {
        IntKind::Bool
        | IntKind::Char
        | IntKind::SChar
        | IntKind::UChar
        | IntKind::Short
        | IntKind::UShort => IntKind::Int,
        IntKind::Int
        | IntKind::UInt
        | IntKind::Long
        | IntKind::ULong
        | IntKind::LLong
        | IntKind::ULLong => kind,
    }
}

/// The common type of two operands, after their promotion.
#[tactic(auto, unfolding(crate::specs::Kinds::usual, crate::specs::Kinds::common))]
pub fn usual(left: IntKind, right: IntKind) -> IntKind
    ensures { result ≡ usual left right }
{
    let left = promote(left);
    let right = promote(right);
    match (is_signed(left), is_signed(right)) {
        (true, false) => common(left, right),
        (false, true) => common(right, left),
        _ if rank(left) < rank(right) => right,
        _ => left,
    }
}

/// The common type of a signed and an unsigned operand, both promoted.
#[tactic(auto, unfolding(crate::specs::Kinds::common_of, crate::specs::Kinds::represents_all, crate::specs::Kinds::least, crate::specs::Kinds::greatest))]
fn common(signed: IntKind, unsigned: IntKind) -> IntKind
    requires signed { IsTrue (is_signed signed) }
    requires unsigned { IsFalse (is_signed unsigned) }
    ensures { result ≡ common_of signed unsigned }
{
    if rank(signed) <= rank(unsigned) {
        unsigned
    } else if width(unsigned) < width(signed) {
        signed
    } else {
        unsigned_of(signed)
    }
}

/// The place of the type in the order of conversion ranks.
fn rank(kind: IntKind) -> u8
    ensures { result ≡ rank kind }
{
    match kind {
        IntKind::Bool => 0,
        IntKind::Char | IntKind::SChar | IntKind::UChar => 1,
        IntKind::Short | IntKind::UShort => 2,
        IntKind::Int | IntKind::UInt => 3,
        IntKind::Long | IntKind::ULong => 4,
        IntKind::LLong | IntKind::ULLong => 5,
    }
}

/// The unsigned type of the same size.
#[tactic(auto, unfolding(crate::specs::Kinds::unsigned_of))]
fn unsigned_of(kind: IntKind) -> IntKind
    ensures { result ≡ unsigned_of kind }
{
    match kind {
        IntKind::Char | IntKind::SChar => IntKind::UChar,
        IntKind::Short => IntKind::UShort,
        IntKind::Int => IntKind::UInt,
        IntKind::Long => IntKind::ULong,
        IntKind::LLong => IntKind::ULLong,
        IntKind::Bool
        | IntKind::UChar
        | IntKind::UShort
        | IntKind::UInt
        | IntKind::ULong
        | IntKind::ULLong => kind,
    }
}
