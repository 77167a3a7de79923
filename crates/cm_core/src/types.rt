ghost use Rattle.std.specs.Prelude.{◌≡◌, IfOk};

use crate::integers::IntKind;
use crate::no_memory::NoMemory;
use crate::numbers::DeclRef;
use crate::try_copy::TryCopy;
use sqlite_items::{Boxed, Items};
use std::alloc::Global;

/// A type of C11 6.2.5 without its qualifiers.
#[cycle(types)]
#[derive(Debug, Drop)]
pub enum Ty {
    Void,
    Int(IntKind),
    Float,
    Double,
    LongDouble,
    Pointer(Boxed<Qual>),
    /// An array and its length, where that is known.
    Array(Boxed<Qual>, Option<u64>),
    Function(Boxed<Signature>),
    /// A structure, union or enumeration, by the declaration of its tag.
    Tag(DeclRef),
    /// The type of what an error has left without one.
    Unknown,
}

/// A type with its qualifiers, C11 6.7.3.
#[cycle(types)]
#[derive(Debug, Drop)]
pub struct Qual {
    pub ty: Ty,
    /// The sum of 1 for `const`, 2 for `volatile` and 4 for `restrict`.
    pub quals: u8,
}

/// The type of a function, C11 6.7.6.3.
#[cycle(types)]
#[derive(Debug, Drop)]
pub struct Signature {
    pub result: Qual,
    /// Whether the parameters were declared.
    pub prototype: bool,
    /// Whether the parameters end with `...`.
    pub variadic: bool,
    pub params: Items<Qual>,
}

impl Ty {
    #[cycle(copy)]
    pub fn copy(&self, alloc: Global) -> Result<Ty, NoMemory>
        ensures { IfOk result (λ copied. copied ≡ self.now) }
    {
        Ok(match self {
            Ty::Void => Ty::Void,
            Ty::Int(kind) => Ty::Int(*kind),
            Ty::Float => Ty::Float,
            Ty::Double => Ty::Double,
            Ty::LongDouble => Ty::LongDouble,
            Ty::Pointer(to) => Ty::Pointer(Boxed::new(alloc, to.get().copy(alloc)?)?),
            Ty::Array(of, length) => Ty::Array(Boxed::new(alloc, of.get().copy(alloc)?)?, *length),
            Ty::Function(signature) => {
                Ty::Function(Boxed::new(alloc, signature.get().copy(alloc)?)?)
            }
            Ty::Tag(at) => Ty::Tag(*at),
            Ty::Unknown => Ty::Unknown,
        })
    }
}

impl Qual {
    #[cycle(copy)]
    pub fn copy(&self, alloc: Global) -> Result<Qual, NoMemory>
        ensures { IfOk result (λ copied. copied ≡ self.now) }
    {
        Ok(Qual {
            ty: self.ty.copy(alloc)?,
            quals: self.quals,
        })
    }
}

impl Signature {
    #[cycle(copy)]
    pub fn copy(&self, alloc: Global) -> Result<Signature, NoMemory>
        ensures { IfOk result (λ copied. copied ≡ self.now) }
    {
        Ok(Signature {
            result: self.result.copy(alloc)?,
            prototype: self.prototype,
            variadic: self.variadic,
            params: copy_all(alloc, self.params.as_slice())?,
        })
    }
}

#[cycle(copy)]
fn copy_all(alloc: Global, types: &[Qual]) -> Result<Items<Qual>, NoMemory>
    ensures { IfOk result (λ copied. copied ≡ types.now) }
{
    let mut copied = Items::new(alloc);
    for ty in types {
        copied.push(ty.copy(alloc)?)?;
    }
    Ok(copied)
}

impl TryCopy for Qual {
    fn try_copy(&self, alloc: Global) -> Result<Qual, NoMemory> {
        self.copy(alloc)
    }
}
