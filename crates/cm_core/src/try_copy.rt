ghost use Rattle.std.specs.Prelude.{◌≡◌, IfOk};

use crate::list::List;
use crate::no_memory::NoMemory;
use std::alloc::Global;

/// A value that can be copied where there is memory for the copy.
pub trait TryCopy: Drop {
    fn try_copy(&self, alloc: Global) -> Result<Self, NoMemory>
        ensures { IfOk result (λ copied. copied ≡ self.now) };
}

impl TryCopy for u8 {
    fn try_copy(&self, _alloc: Global) -> Result<u8, NoMemory> {
        Ok(*self)
    }
}

impl TryCopy for u64 {
    fn try_copy(&self, _alloc: Global) -> Result<u64, NoMemory> {
        Ok(*self)
    }
}

impl<T: TryCopy> TryCopy for Option<T> {
    fn try_copy(&self, alloc: Global) -> Result<Option<T>, NoMemory> {
        match self {
            None => Ok(None),
            Some(value) => Ok(Some(value.try_copy(alloc)?)),
        }
    }
}

impl<A: TryCopy, B: TryCopy> TryCopy for (A, B) {
    fn try_copy(&self, alloc: Global) -> Result<(A, B), NoMemory> {
        let first = self.0.try_copy(alloc)?;
        let second = self.1.try_copy(alloc)?;
        Ok((first, second))
    }
}

impl<T: TryCopy> List<T> {
    pub fn copy(&self, alloc: Global) -> Result<List<T>, NoMemory>
        ensures { IfOk result (λ copied. copied ≡ self.now) }
    {
        let mut copied = List::new(alloc);
        for item in self.items() {
            copied.push(item.try_copy(alloc)?)?;
        }
        Ok(copied)
    }
}

impl<T: TryCopy> TryCopy for List<T> {
    fn try_copy(&self, alloc: Global) -> Result<List<T>, NoMemory> {
        self.copy(alloc)
    }
}
