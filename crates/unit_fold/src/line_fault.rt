ghost use Rattle.std.specs.Prelude.{◌≡◌};

use cm_core::NoMemory;

/// Why a file does not have its form.
#[derive(Clone, Copy, Debug, PartialEq, Eq)]
pub enum LineFault {
    /// The number of the line at fault, from 1.
    At(u32),
    NoMemory,
}

impl From<NoMemory> for LineFault {
    ghost use Rattle.unit_fold.specs.declared.line_fault.LineFault.TheVariants.{NoMemory as NoRoom};

    ghost from_gives = { λ _ e. e ≡ NoRoom };

    fn from(_error: NoMemory) -> LineFault {
        LineFault::NoMemory
    }
}
