ghost use Rattle.std.specs.Prelude.{◌≡◌, ◌≤◌, ◌*◌, ◌==◌, ◌⊎◌};
ghost use Rattle.int_types.specs.Constants.{candidates, represents, constant_kind};

use crate::ranges::greatest;
use cm_core::IntKind;

const SIGNED: [IntKind; 3] = [IntKind::Int, IntKind::Long, IntKind::LLong];

const UNSIGNED: [IntKind; 3] = [IntKind::UInt, IntKind::ULong, IntKind::ULLong];

const ALL: [IntKind; 6] = [
    IntKind::Int,
    IntKind::UInt,
    IntKind::Long,
    IntKind::ULong,
    IntKind::LLong,
    IntKind::ULLong,
];

/// The type of an integer constant: the first of those that its base and suffix allow that holds the
/// number, or `None` where none of them does. `base` is 8, 10 or 16; `unsigned` says that the suffix
/// has a `u`, and `longs` is the number of its `l`.
pub fn constant_type(number: u128, base: u8, unsigned: bool, longs: u8) -> Option<IntKind>
    requires base { (base ≡ 8) ⊎ (base ≡ 10) ⊎ (base ≡ 16) }
    requires longs { longs ≤ 2 }
    ensures { result ≡ constant_kind (base == 10) unsigned longs number }
{
    candidates(base == 10, unsigned, usize::from(longs))
        .iter()
        .copied()
        .find(|kind| represents(number, *kind))
}

/// The types that a constant may have, lowest rank first.
fn candidates(decimal: bool, unsigned: bool, longs: usize) -> &'static [IntKind]
    requires { longs ≤ 2 }
    ensures { result.now ≡ candidates decimal unsigned longs }
{
    if unsigned {
        &UNSIGNED[longs..]
    } else if decimal {
        &SIGNED[longs..]
    } else {
        &ALL[2 * longs..]
    }
}

#[tactic(auto, unfolding(crate::specs::Kinds::greatest))]
fn represents(number: u128, kind: IntKind) -> bool
    ensures { result ≡ represents number kind }
{
    number <= greatest(kind) as u128
}
