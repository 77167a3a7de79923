ghost use Rattle.std.specs.Prelude.{◌≡◌};
ghost use Rattle.map_grammar.specs.Faults.{fault_from};
ghost use Rattle.map_grammar.specs.declared.fault.MapFault.TheVariants.{NoMemory as OutOfMemory};

use c_lex::LexFault;
use cm_core::{NoMemory, Place};
use std::alloc::{AllocError, AllocFailed};

/// Why a text is no module map.
#[derive(Clone, Copy, Debug, PartialEq, Eq)]
pub enum MapFault {
    /// The lexer refuses the text; the fault isn't `LexFault::NoMemory`.
    Lex(LexFault),
    /// The place of the first brace that is nested 257 deep.
    TooDeep(Place),
    /// The place of the first token of the first top-level declaration that isn't in the grammar.
    NotInGrammar(Place),
    NoMemory,
}

impl From<LexFault> for MapFault {
    ghost from_gives = { λ fault given. given ≡ fault_from fault };

    fn from(fault: LexFault) -> MapFault {
        match fault {
            LexFault::NoMemory => MapFault::NoMemory,
            fault => MapFault::Lex(fault),
        }
    }
}

impl From<NoMemory> for MapFault {
    ghost from_gives = { λ _ fault. fault ≡ OutOfMemory };

    fn from(_error: NoMemory) -> MapFault {
        MapFault::NoMemory
    }
}

impl From<AllocError> for MapFault {
    ghost from_gives = { λ _ fault. fault ≡ OutOfMemory };

    fn from(_error: AllocError) -> MapFault {
        MapFault::NoMemory
    }
}

impl<T: Drop> From<AllocFailed<T>> for MapFault {
    ghost from_gives = { λ _ fault. fault ≡ OutOfMemory };

    fn from(_error: AllocFailed<T>) -> MapFault {
        MapFault::NoMemory
    }
}
