ghost use Rattle.std.specs.Prelude.{◌≡◌, ◌<◌, ◌↔◌, [], ◌∷◌, ◌++◌, length, slice_get, slice_set, IsTrue, OnOk, OnErr};
ghost use Rattle.std.specs.Option.{option_copied};

use crate::no_memory::NoMemory;
use std::alloc::Global;
use std::marker::Model;
use std::mem;

/// A growable list that contracts see as the list of its items, so that structs that hold one are
/// plain data in a clause.
#[derive(Debug, Drop)]
pub struct List<T> {
    vec: Vec<T>,
}

impl<T> Model for List<T> {
    ghost use Rattle.std.specs.Prelude.{List as Seq};
    ghost use Rattle.std.specs.Coded.{coded_list};

    ghost Value = { Seq T };

    ghost coded = { coded_list T.code };

    ghost view = { λ l. l.vec.items };
}

impl<T> List<T> {
    pub fn new(alloc: Global) -> List<T>
        ensures { result ≡ [] }
    {
        List {
            vec: Vec::new(alloc),
        }
    }

    pub fn from_vec(items: Vec<T>) -> List<T>
        ensures { result ≡ items.items }
    {
        List { vec: items }
    }

    pub fn into_vec(self) -> Vec<T>
        ensures { result.items ≡ self }
    {
        let List { vec } = self;
        vec
    }

    /// Puts `item` in the place of the item at `at`, which it returns.
    pub fn replace(&mut self, at: usize, item: T) -> T
        requires { at < length self.old }
        ensures item { slice_get self.old at ≡ Some result }
        ensures after { self.new ≡ slice_set self.old at item }
    {
        mem::replace(&mut self.vec[at], item)
    }

    pub fn get(&self, at: usize) -> Option<&T>
        ensures { option_copied result ≡ slice_get self.now at }
    {
        self.vec.get(at)
    }

    pub fn items(&self) -> &[T]
        ensures { result.now ≡ self.now }
    {
        self.vec.as_slice()
    }

    pub fn len(&self) -> usize
        ensures { result ≡ length self.now }
    {
        self.vec.len()
    }

    pub fn is_empty(&self) -> bool
        ensures { IsTrue result ↔ (self.now ≡ []) }
    {
        self.vec.is_empty()
    }
}

impl<T: Drop> List<T> {
    /// Adds `item` at the end; without memory for it the list stays as it was.
    pub fn push(&mut self, item: T) -> Result<(), NoMemory>
        ensures ok { OnOk result (self.new ≡ self.old ++ item ∷ []) }
        ensures err { OnErr result (self.new ≡ self.old) }
    {
        self.vec.push(item)?;
        Ok(())
    }
}
