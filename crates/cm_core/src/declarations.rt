ghost use Rattle.std.specs.Prelude.{◌≡◌, IfOk};

use crate::list::List;
use crate::no_memory::NoMemory;
use crate::numbers::{DeclNo, Place};
use crate::str::Str;
use crate::try_copy::TryCopy;
use crate::types::Qual;
use std::alloc::Global;

/// A name space of C11 6.2.3, apart from those of labels and members.
#[derive(Clone, Copy, Debug, PartialEq, Eq)]
pub enum Space {
    Ordinary,
    Tag,
}

/// The storage-class specifier of a declaration at file scope, C11 6.7.1.
#[derive(Clone, Copy, Debug, PartialEq, Eq)]
pub enum Storage {
    None,
    Extern,
    Static,
    Typedef,
}

/// Which keyword a tag goes with, C11 6.7.2.3.
#[derive(Clone, Copy, Debug, PartialEq, Eq)]
pub enum TagKind {
    Struct,
    Union,
    Enum,
}

/// A member of a structure or union, C11 6.7.2.1.
#[derive(Debug, Drop)]
pub struct Member {
    pub name: Option<Str>,
    pub ty: Qual,
    /// The width of a bit-field.
    pub width: Option<u64>,
}

/// What the braces of a tag's definition hold.
#[derive(Debug, Drop)]
pub enum Content {
    Members(List<Member>),
    Enumerators(List<DeclNo>),
}

/// What a name is declared as.
#[derive(Debug, Drop)]
pub enum DeclKind {
    /// An object, with the spellings of its initialiser.
    Object(Qual, Option<List<Str>>),
    /// A function, whether it is inline, and the spellings of its body.
    Function(Qual, bool, Option<List<Str>>),
    Typedef(Qual),
    /// A tag, with its content where it is complete.
    Tag(TagKind, Option<Content>),
    /// An enumeration constant, with its value and its enumeration.
    Enumerator(i32, DeclNo),
}

/// A declaration at file scope.
#[derive(Debug, Drop)]
pub struct DeclNode {
    pub name: Str,
    pub place: Place,
    pub space: Space,
    pub storage: Storage,
    pub kind: DeclKind,
}

/// A name of a submodule's declaration or macro, with its number there.
#[derive(Debug, Drop)]
pub struct NameRow {
    pub name: Str,
    /// The name space of a declaration; that of a macro is `Ordinary`.
    pub space: Space,
    pub no: u64,
}

impl Member {
    pub fn copy(&self, alloc: Global) -> Result<Member, NoMemory>
        ensures { IfOk result (λ copied. copied ≡ self.now) }
    {
        Ok(Member {
            name: self.name.try_copy(alloc)?,
            ty: self.ty.copy(alloc)?,
            width: self.width,
        })
    }
}

impl TryCopy for Member {
    fn try_copy(&self, alloc: Global) -> Result<Member, NoMemory> {
        self.copy(alloc)
    }
}

impl Content {
    pub fn copy(&self, alloc: Global) -> Result<Content, NoMemory>
        ensures { IfOk result (λ copied. copied ≡ self.now) }
    {
        match self {
            Content::Members(members) => Ok(Content::Members(members.copy(alloc)?)),
            Content::Enumerators(numbers) => Ok(Content::Enumerators(numbers.copy(alloc)?)),
        }
    }
}

impl TryCopy for Content {
    fn try_copy(&self, alloc: Global) -> Result<Content, NoMemory> {
        self.copy(alloc)
    }
}

impl DeclKind {
    pub fn copy(&self, alloc: Global) -> Result<DeclKind, NoMemory>
        ensures { IfOk result (λ copied. copied ≡ self.now) }
    {
        match self {
            DeclKind::Object(ty, spelling) => {
                let ty = ty.copy(alloc)?;
                Ok(DeclKind::Object(ty, spelling.try_copy(alloc)?))
            }
            DeclKind::Function(ty, inline, spelling) => {
                let ty = ty.copy(alloc)?;
                Ok(DeclKind::Function(ty, *inline, spelling.try_copy(alloc)?))
            }
            DeclKind::Typedef(ty) => Ok(DeclKind::Typedef(ty.copy(alloc)?)),
            DeclKind::Tag(kind, content) => Ok(DeclKind::Tag(*kind, content.try_copy(alloc)?)),
            DeclKind::Enumerator(value, of) => Ok(DeclKind::Enumerator(*value, *of)),
        }
    }
}

impl TryCopy for DeclKind {
    fn try_copy(&self, alloc: Global) -> Result<DeclKind, NoMemory> {
        self.copy(alloc)
    }
}

impl DeclNode {
    pub fn copy(&self, alloc: Global) -> Result<DeclNode, NoMemory>
        ensures { IfOk result (λ copied. copied ≡ self.now) }
    {
        Ok(DeclNode {
            name: self.name.copy(alloc)?,
            place: self.place,
            space: self.space,
            storage: self.storage,
            kind: self.kind.copy(alloc)?,
        })
    }
}

impl TryCopy for DeclNode {
    fn try_copy(&self, alloc: Global) -> Result<DeclNode, NoMemory> {
        self.copy(alloc)
    }
}

impl NameRow {
    pub fn copy(&self, alloc: Global) -> Result<NameRow, NoMemory>
        ensures { IfOk result (λ copied. copied ≡ self.now) }
    {
        Ok(NameRow {
            name: self.name.copy(alloc)?,
            space: self.space,
            no: self.no,
        })
    }
}

impl TryCopy for NameRow {
    fn try_copy(&self, alloc: Global) -> Result<NameRow, NoMemory> {
        self.copy(alloc)
    }
}
