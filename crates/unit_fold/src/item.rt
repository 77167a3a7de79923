ghost use Rattle.std.specs.Prelude.{◌≡◌, IfOk};
ghost use Rattle.unit_fold.specs.Owners.{is_object_of};

use crate::at::At;
use cm_core::{NoMemory, Str, SubNo, TryCopy};
use std::alloc::Global;

/// A name that an owner declares.
#[derive(Debug, Drop)]
pub struct Named {
    pub name: Str,
    pub at: At,
}

/// A submodule that an owner imports.
#[derive(Debug, Drop)]
pub struct Imported {
    pub sub: SubNo,
    /// Its full name.
    pub name: Str,
}

/// What a diagnostic says.
#[derive(Debug, Drop)]
pub enum FaultKind {
    /// What no finished form covers.
    NotBuilt,
    /// There is no such file.
    Absent,
    /// The file has so many bytes, more than are read.
    TooLarge(u64),
    /// The file isn't UTF-8: its longest front that is has so many bytes.
    NotUtf8(u64),
    /// A block comment that its file doesn't close.
    Unclosed,
    /// A zero byte.
    BadByte,
    /// An identifier of more than 4,096 bytes.
    LongName,
    /// A token past the most of an owner.
    ManyTokens,
    /// An import of a module, by its name, that comes back to itself.
    CyclicModule(Str),
    /// A use of a name of which no declaration is visible.
    NotDeclared(Str),
}

/// A diagnostic of an owner.
#[derive(Debug, Drop)]
pub struct FaultAt {
    pub at: At,
    pub kind: FaultKind,
}

/// What a piece or a directive of an owner comes to.
#[derive(Debug, Drop)]
pub enum Item {
    /// An object of type `int`.
    Object(Named),
    /// An object of type `int *`.
    Pointer(Named),
    /// An import that was done, at its `#`.
    Import(Imported, At),
    Fault(FaultAt),
}

impl Named {
    pub fn copy(&self, alloc: Global) -> Result<Named, NoMemory>
        ensures { IfOk result (λ copied. copied ≡ self.now) }
    {
        Ok(Named {
            name: self.name.copy(alloc)?,
            at: self.at,
        })
    }
}

impl Imported {
    pub fn copy(&self, alloc: Global) -> Result<Imported, NoMemory>
        ensures { IfOk result (λ copied. copied ≡ self.now) }
    {
        Ok(Imported {
            sub: self.sub,
            name: self.name.copy(alloc)?,
        })
    }
}

impl FaultKind {
    pub fn copy(&self, alloc: Global) -> Result<FaultKind, NoMemory>
        ensures { IfOk result (λ copied. copied ≡ self.now) }
    {
        match self {
            FaultKind::NotBuilt => Ok(FaultKind::NotBuilt),
            FaultKind::Absent => Ok(FaultKind::Absent),
            FaultKind::TooLarge(size) => Ok(FaultKind::TooLarge(*size)),
            FaultKind::NotUtf8(at) => Ok(FaultKind::NotUtf8(*at)),
            FaultKind::Unclosed => Ok(FaultKind::Unclosed),
            FaultKind::BadByte => Ok(FaultKind::BadByte),
            FaultKind::LongName => Ok(FaultKind::LongName),
            FaultKind::ManyTokens => Ok(FaultKind::ManyTokens),
            FaultKind::CyclicModule(name) => Ok(FaultKind::CyclicModule(name.copy(alloc)?)),
            FaultKind::NotDeclared(name) => Ok(FaultKind::NotDeclared(name.copy(alloc)?)),
        }
    }
}

impl FaultAt {
    pub fn copy(&self, alloc: Global) -> Result<FaultAt, NoMemory>
        ensures { IfOk result (λ copied. copied ≡ self.now) }
    {
        Ok(FaultAt {
            at: self.at,
            kind: self.kind.copy(alloc)?,
        })
    }
}

impl Item {
    pub fn copy(&self, alloc: Global) -> Result<Item, NoMemory>
        ensures { IfOk result (λ copied. copied ≡ self.now) }
    {
        match self {
            Item::Object(named) => Ok(Item::Object(named.copy(alloc)?)),
            Item::Pointer(named) => Ok(Item::Pointer(named.copy(alloc)?)),
            Item::Import(imported, at) => Ok(Item::Import(imported.copy(alloc)?, *at)),
            Item::Fault(fault) => Ok(Item::Fault(fault.copy(alloc)?)),
        }
    }

    /// Whether it is an object of type `int` of this name.
    pub(crate) fn is_object(&self, name: &str) -> bool
        ensures { result ≡ is_object_of name.now self.now }
    {
        match self {
            Item::Object(named) => named.name.text() == name,
            Item::Pointer(_) | Item::Import(..) | Item::Fault(_) => false,
        }
    }
}

impl TryCopy for Item {
    fn try_copy(&self, alloc: Global) -> Result<Item, NoMemory> {
        self.copy(alloc)
    }
}
