ghost use Rattle.std.specs.Prelude.{◌≡◌, ◌<◌, [], length, slice_get, IfOk, OnOk, OnErr};
ghost use Rattle.std.specs.List.{IsDistinct};
ghost use Rattle.std.specs.Str.{bytes_eq};
ghost use Rattle.cm_core.specs.Tables.{numbered, number_of, Extends};

use crate::no_memory::NoMemory;
use crate::numbers::FileNo;
use crate::path::PathText;
use indexmap::IndexSet;
use std::alloc::Global;
use std::marker::Model;

/// The files of a build by number; a clause sees the paths that have numbers. A number names one
/// path for good.
#[derive(Drop)]
pub struct Files {
    paths: IndexSet<PathText>,
}

impl Model for Files {
    ghost use Rattle.std.specs.Prelude.{List, ℕ};
    ghost use Rattle.std.specs.List.{IsDistinct};
    ghost use Rattle.std.specs.Str.{bytes_eq};

    ghost Value = { List (List ℕ) };

    ghost view = { λ f. f.paths.keys };

    ghost invariant = { λ f. IsDistinct bytes_eq f.paths.keys };
}

impl Files {
    pub fn new(alloc: Global) -> Files
        ensures { result ≡ [] }
    {
        Files {
            paths: IndexSet::new(alloc),
        }
    }

    /// The number of `path`, which is the next one where the path is new.
    pub fn number(&mut self, path: &PathText) -> Result<FileNo, NoMemory>
        ensures number { IfOk result (λ no. no.index ≡ number_of self.old path.now) }
        ensures files { OnOk result (self.new ≡ numbered self.old path.now) }
        ensures err { OnErr result (self.new ≡ self.old) }

        // What follows from these: the number gives the path, and no number changes its path.
        ensures given { IfOk result (λ no. slice_get self.new no.index ≡ Some path.now) }
        ensures kept { Extends self.old self.new }
        ensures distinct { IsDistinct bytes_eq self.new }
    {
        if let Some(at) = self.paths.get_index_of(path) {
            return Ok(FileNo { index: at as u64 });
        }
        let copied = path.copy(*self.paths.allocator())?;
        let (at, _) = self.paths.insert_full(copied)?;
        Ok(FileNo { index: at as u64 })
    }

    /// The path of a number that this table gave.
    pub fn path(&self, no: FileNo) -> &PathText
        requires { no.index < length self.now }
        ensures path { slice_get self.now no.index ≡ Some result.now }
        ensures distinct { IsDistinct bytes_eq self.now }
    {
        self.paths.get_index(no.index as usize).unwrap()
    }
}
