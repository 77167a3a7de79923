ghost use Rattle.std.specs.Prelude.{◌≡◌, IfOk};

use crate::list::List;
use crate::no_memory::NoMemory;
use crate::numbers::Place;
use crate::str::Str;
use crate::try_copy::TryCopy;
use std::alloc::Global;

/// A diagnostic: the number of its text, its place and the parts that the text leaves open.
#[derive(Debug, Drop)]
pub struct Diag {
    /// The number of an error, or 1000 more than that of a warning.
    pub number: u32,
    pub place: Place,
    pub args: List<Str>,
}

impl Diag {
    pub fn copy(&self, alloc: Global) -> Result<Diag, NoMemory>
        ensures { IfOk result (λ copied. copied ≡ self.now) }
    {
        Ok(Diag {
            number: self.number,
            place: self.place,
            args: self.args.copy(alloc)?,
        })
    }
}

impl TryCopy for Diag {
    fn try_copy(&self, alloc: Global) -> Result<Diag, NoMemory> {
        self.copy(alloc)
    }
}
