ghost use Rattle.std.specs.Prelude.{◌≡◌};
ghost use Rattle.map_grammar.specs.declared.refusal.Refusal.TheVariants.{NoMemory as OutOfMemory};

use cm_core::NoMemory;
use std::alloc::{AllocError, AllocFailed};

/// Why nothing of the wanted form is read.
#[derive(Clone, Copy, Debug, PartialEq, Eq)]
pub(crate) enum Refusal {
    NotInGrammar,
    NoMemory,
}

impl From<NoMemory> for Refusal {
    ghost from_gives = { λ _ fault. fault ≡ OutOfMemory };

    fn from(_error: NoMemory) -> Refusal {
        Refusal::NoMemory
    }
}

impl From<AllocError> for Refusal {
    ghost from_gives = { λ _ fault. fault ≡ OutOfMemory };

    fn from(_error: AllocError) -> Refusal {
        Refusal::NoMemory
    }
}

impl<T: Drop> From<AllocFailed<T>> for Refusal {
    ghost from_gives = { λ _ fault. fault ≡ OutOfMemory };

    fn from(_error: AllocFailed<T>) -> Refusal {
        Refusal::NoMemory
    }
}
