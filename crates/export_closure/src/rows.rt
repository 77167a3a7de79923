ghost use Rattle.std.specs.Prelude.{◌≡◌, IfOk};

use cm_core::{List, NoMemory, SubNo, TryCopy};
use std::alloc::Global;

/// Which imports of a submodule an `export` line exports.
#[derive(Clone, Copy, Debug, PartialEq, Eq)]
pub enum Pattern {
    /// `export *`: all of them.
    All,
    /// `export X` and `export X.*`: those that are `X` or lie inside it.
    Under(SubNo),
}

/// What decides which submodules become visible with a submodule.
#[derive(Debug, Drop)]
pub struct ExportRow {
    /// The submodule or module that it stands in; `None` for a top-level module.
    pub parent: Option<SubNo>,
    /// Whether it stays hidden where its parent becomes visible.
    pub explicit: bool,
    /// Its `export` lines.
    pub exports: List<Pattern>,
    /// The submodules that it imports.
    pub imports: List<SubNo>,
}

impl TryCopy for Pattern {
    fn try_copy(&self, _alloc: Global) -> Result<Pattern, NoMemory> {
        Ok(*self)
    }
}

impl ExportRow {
    pub fn copy(&self, alloc: Global) -> Result<ExportRow, NoMemory>
        ensures { IfOk result (λ copied. copied ≡ self.now) }
    {
        Ok(ExportRow {
            parent: self.parent,
            explicit: self.explicit,
            exports: self.exports.copy(alloc)?,
            imports: self.imports.copy(alloc)?,
        })
    }
}

impl TryCopy for ExportRow {
    fn try_copy(&self, alloc: Global) -> Result<ExportRow, NoMemory> {
        self.copy(alloc)
    }
}
