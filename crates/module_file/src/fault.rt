ghost use Rattle.std.specs.Prelude.{◌≡◌};

use cm_core::NoMemory;
use cm_wire::WireFault;
use std::alloc::AllocError;

/// Why a module file could not be read.
#[derive(Clone, Copy, Debug, PartialEq, Eq)]
pub enum FileFault {
    /// The file has this other version.
    OtherVersion(u32),
    /// The file was cut, changed or never was one.
    Damaged,
    NoMemory,
}

/// Why a part of a module file could not be read.
#[derive(Clone, Copy, Debug, PartialEq, Eq)]
pub enum PartFault {
    /// The bytes are outside the grammar.
    Damaged,
    NoMemory,
}

impl From<NoMemory> for PartFault {
    ghost use Rattle.module_file.specs.declared.fault.PartFault.TheVariants.{NoMemory as NoRoom};

    ghost from_gives = { λ _ e. e ≡ NoRoom };

    fn from(_error: NoMemory) -> PartFault {
        PartFault::NoMemory
    }
}

impl From<AllocError> for PartFault {
    ghost use Rattle.module_file.specs.declared.fault.PartFault.TheVariants.{NoMemory as NoRoom};

    ghost from_gives = { λ _ e. e ≡ NoRoom };

    fn from(_error: AllocError) -> PartFault {
        PartFault::NoMemory
    }
}

impl From<WireFault> for PartFault {
    ghost use Rattle.module_file.specs.declared.fault.PartFault.TheVariants.{Damaged as IsDamaged};

    ghost from_gives = { λ _ e. e ≡ IsDamaged };

    fn from(_error: WireFault) -> PartFault {
        PartFault::Damaged
    }
}
