use crate::no_memory::NoMemory;
use crate::try_copy::TryCopy;
use std::alloc::Global;

/// The number of a name in a table of names, counted from 0.
#[derive(Clone, Copy, Debug, PartialEq, Eq)]
pub struct NameNo {
    pub index: u64,
}

/// The number of a file in a table of paths, counted from 0.
#[derive(Clone, Copy, Debug, PartialEq, Eq)]
pub struct FileNo {
    pub index: u64,
}

/// The number of a submodule in a list of submodules, counted from 0.
#[derive(Clone, Copy, Debug, PartialEq, Eq)]
pub struct SubNo {
    pub index: u64,
}

/// The number of a declaration among those of its owner, counted from 1.
#[derive(Clone, Copy, Debug, PartialEq, Eq)]
pub struct DeclNo {
    pub number: u64,
}

/// The number of a macro definition or `#undef` among those of its owner, counted from 1.
#[derive(Clone, Copy, Debug, PartialEq, Eq)]
pub struct MacroNo {
    pub number: u64,
}

/// What declares a name or defines a macro.
#[derive(Clone, Copy, Debug, PartialEq, Eq)]
pub enum Owner {
    /// The translation unit itself.
    Unit,
    /// A submodule.
    Sub(SubNo),
    /// The macros that the job file defines.
    Job,
    /// The macros that the front end predefines.
    Builtin,
}

/// A declaration, by its owner and its number there.
#[derive(Clone, Copy, Debug, PartialEq, Eq)]
pub struct DeclRef {
    pub owner: Owner,
    pub no: DeclNo,
}

/// A macro definition or `#undef`, by its owner and its number there.
#[derive(Clone, Copy, Debug, PartialEq, Eq)]
pub struct MacroRef {
    pub owner: Owner,
    pub no: MacroNo,
}

/// A place in an original file: line and column count from 1, and columns count bytes.
#[derive(Clone, Copy, Debug, PartialEq, Eq)]
pub struct Place {
    pub file: FileNo,
    pub line: u32,
    pub col: u32,
}

impl TryCopy for SubNo {
    fn try_copy(&self, _alloc: Global) -> Result<SubNo, NoMemory> {
        Ok(*self)
    }
}

impl TryCopy for DeclNo {
    fn try_copy(&self, _alloc: Global) -> Result<DeclNo, NoMemory> {
        Ok(*self)
    }
}

impl TryCopy for DeclRef {
    fn try_copy(&self, _alloc: Global) -> Result<DeclRef, NoMemory> {
        Ok(*self)
    }
}

impl TryCopy for MacroRef {
    fn try_copy(&self, _alloc: Global) -> Result<MacroRef, NoMemory> {
        Ok(*self)
    }
}

impl TryCopy for NameNo {
    fn try_copy(&self, _alloc: Global) -> Result<NameNo, NoMemory> {
        Ok(*self)
    }
}

impl TryCopy for FileNo {
    fn try_copy(&self, _alloc: Global) -> Result<FileNo, NoMemory> {
        Ok(*self)
    }
}

impl TryCopy for Owner {
    fn try_copy(&self, _alloc: Global) -> Result<Owner, NoMemory> {
        Ok(*self)
    }
}
