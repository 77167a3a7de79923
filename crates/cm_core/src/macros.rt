ghost use Rattle.std.specs.Prelude.{◌≡◌, IfOk};

use crate::list::List;
use crate::no_memory::NoMemory;
use crate::numbers::{MacroRef, Place};
use crate::str::Str;
use crate::try_copy::TryCopy;
use std::alloc::Global;

/// A token of a macro's replacement list, C11 6.10.3.
#[derive(Debug, Drop)]
pub struct BodyToken {
    /// The spelling.
    pub text: Str,
    /// Whether white space stands before it.
    pub spaced: bool,
}

/// What a macro is replaced by, C11 6.10.3.
#[derive(Debug, Drop)]
pub struct MacroBody {
    /// The parameters of a function-like macro; an object-like macro has none.
    pub params: Option<List<Str>>,
    /// Whether the parameters end with `...`.
    pub variadic: bool,
    pub tokens: List<BodyToken>,
}

/// A `#define` or `#undef` in its history.
#[derive(Debug, Drop)]
pub struct MacroNode {
    pub at: MacroRef,
    pub name: Str,
    pub place: Place,
    /// The replacement of a `#define`; an `#undef` has none.
    pub body: Option<MacroBody>,
    /// The entities of this name that it takes the place of.
    pub overrides: List<MacroRef>,
}

/// A macro definition of a job file.
#[derive(Debug, Drop)]
pub struct Define {
    pub name: Str,
    pub body: MacroBody,
}

impl BodyToken {
    pub fn copy(&self, alloc: Global) -> Result<BodyToken, NoMemory>
        ensures { IfOk result (λ copied. copied ≡ self.now) }
    {
        Ok(BodyToken {
            text: self.text.copy(alloc)?,
            spaced: self.spaced,
        })
    }
}

impl TryCopy for BodyToken {
    fn try_copy(&self, alloc: Global) -> Result<BodyToken, NoMemory> {
        self.copy(alloc)
    }
}

impl MacroBody {
    pub fn copy(&self, alloc: Global) -> Result<MacroBody, NoMemory>
        ensures { IfOk result (λ copied. copied ≡ self.now) }
    {
        Ok(MacroBody {
            params: self.params.try_copy(alloc)?,
            variadic: self.variadic,
            tokens: self.tokens.copy(alloc)?,
        })
    }
}

impl TryCopy for MacroBody {
    fn try_copy(&self, alloc: Global) -> Result<MacroBody, NoMemory> {
        self.copy(alloc)
    }
}

impl MacroNode {
    pub fn copy(&self, alloc: Global) -> Result<MacroNode, NoMemory>
        ensures { IfOk result (λ copied. copied ≡ self.now) }
    {
        Ok(MacroNode {
            at: self.at,
            name: self.name.copy(alloc)?,
            place: self.place,
            body: self.body.try_copy(alloc)?,
            overrides: self.overrides.copy(alloc)?,
        })
    }
}

impl TryCopy for MacroNode {
    fn try_copy(&self, alloc: Global) -> Result<MacroNode, NoMemory> {
        self.copy(alloc)
    }
}

impl Define {
    pub fn copy(&self, alloc: Global) -> Result<Define, NoMemory>
        ensures { IfOk result (λ copied. copied ≡ self.now) }
    {
        Ok(Define {
            name: self.name.copy(alloc)?,
            body: self.body.copy(alloc)?,
        })
    }
}

impl TryCopy for Define {
    fn try_copy(&self, alloc: Global) -> Result<Define, NoMemory> {
        self.copy(alloc)
    }
}
