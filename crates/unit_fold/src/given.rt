ghost use Rattle.std.specs.Prelude.{◌≡◌, IfOk};

use crate::item::{FaultKind, Imported};
use cm_core::{List, NoMemory, PathText, Str};
use std::alloc::Global;

/// What a fold is given for what it asked for last.
#[derive(Debug, Drop)]
pub enum Given {
    /// Begins the first step.
    Again,
    /// The bytes and the path of the owner's next file.
    Text(List<u8>, PathText),
    /// An import, with the names of the objects that it makes visible.
    Imported(Imported, List<Str>),
    /// A diagnostic, after which the fold goes on: at the include, or at the first place of the owner's next file.
    Refused(FaultKind),
    /// Nothing: an include that has no effect, or no file that is left.
    Skip,
    /// What is included isn't built yet; the owner ends there.
    NotBuilt,
}

impl Given {
    pub fn copy(&self, alloc: Global) -> Result<Given, NoMemory>
        ensures { IfOk result (λ copied. copied ≡ self.now) }
    {
        match self {
            Given::Again => Ok(Given::Again),
            Given::Text(bytes, path) => Ok(Given::Text(bytes.copy(alloc)?, path.copy(alloc)?)),
            Given::Imported(imported, names) => {
                Ok(Given::Imported(imported.copy(alloc)?, names.copy(alloc)?))
            }
            Given::Refused(kind) => Ok(Given::Refused(kind.copy(alloc)?)),
            Given::Skip => Ok(Given::Skip),
            Given::NotBuilt => Ok(Given::NotBuilt),
        }
    }
}
