ghost use Rattle.std.specs.Prelude.{◌≡◌, ◌<◌, IfOk, IfSome, length};
ghost use Rattle.build_store.specs.Search.{owner_of};
ghost use Rattle.build_store.specs.Targets.{number_of};

use cm_core::{List, NoMemory, PathText, Str, TryCopy};
use std::alloc::Global;

/// Which of its imports a module exports.
#[derive(Debug, Drop)]
pub enum Export {
    Nothing,
    All,
    /// The imports of the module of this name.
    Module(Str),
}

impl Export {
    pub fn copy(&self, alloc: Global) -> Result<Export, NoMemory>
        ensures { IfOk result (λ copied. copied ≡ self.now) }
    {
        match self {
            Export::Nothing => Ok(Export::Nothing),
            Export::All => Ok(Export::All),
            Export::Module(name) => Ok(Export::Module(name.copy(alloc)?)),
        }
    }
}

/// A module that a map declares.
#[derive(Debug, Drop)]
pub struct Target {
    pub name: Str,
    pub header: PathText,
    pub export: Export,
}

impl Target {
    pub fn copy(&self, alloc: Global) -> Result<Target, NoMemory>
        ensures { IfOk result (λ copied. copied ≡ self.now) }
    {
        Ok(Target {
            name: self.name.copy(alloc)?,
            header: self.header.copy(alloc)?,
            export: self.export.copy(alloc)?,
        })
    }
}

impl TryCopy for Target {
    fn try_copy(&self, alloc: Global) -> Result<Target, NoMemory> {
        self.copy(alloc)
    }
}

/// The first line of a map that is at fault.
#[derive(Debug, Drop)]
pub struct MapFault {
    pub map: PathText,
    /// The number of the line, from 1.
    pub line: u32,
}

impl MapFault {
    pub fn copy(&self, alloc: Global) -> Result<MapFault, NoMemory>
        ensures { IfOk result (λ copied. copied ≡ self.now) }
    {
        Ok(MapFault {
            map: self.map.copy(alloc)?,
            line: self.line,
        })
    }
}

impl TryCopy for MapFault {
    fn try_copy(&self, alloc: Global) -> Result<MapFault, NoMemory> {
        self.copy(alloc)
    }
}

/// The modules that the maps of a job declare.
#[derive(Debug, Drop)]
pub struct Table {
    /// The number of a module is its place in this list.
    pub targets: List<Target>,
    /// One for each map at fault, in the order of the maps.
    pub faults: List<MapFault>,
}

impl Table {
    /// The number of the module of this name.
    pub fn number_of(&self, name: &str) -> Option<usize>
        ensures { result ≡ number_of self.now name.now }
    {
        self.targets
            .items()
            .iter()
            .position(|target| target.name.is(name))
    }

    /// The number of the module whose header the path is.
    pub fn owner_of(&self, path: &PathText) -> Option<usize>
        ensures owner { result ≡ owner_of self.now path.now }
        ensures within { IfSome result (λ m. m < length self.now.targets) }
    {
        self.targets
            .items()
            .iter()
            .position(|target| target.header == *path)
    }

    pub fn copy(&self, alloc: Global) -> Result<Table, NoMemory>
        ensures { IfOk result (λ copied. copied ≡ self.now) }
    {
        Ok(Table {
            targets: self.targets.copy(alloc)?,
            faults: self.faults.copy(alloc)?,
        })
    }
}
