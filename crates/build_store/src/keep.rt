ghost use Rattle.std.specs.Prelude.{◌≡◌, ◌⊎◌, ◌<◌, ◌≤◌, IfOk, OnOk, IsSome, IsNone, Some, length};
ghost use Rattle.std.specs.List.{AllByRecursion};
ghost use Rattle.cm_outside.specs.Caches.{with_file};
ghost use Rattle.cm_outside.specs.Faults.{Rose};
ghost use Rattle.cm_outside.specs.Trees.{Files};
ghost use Rattle.module_file.specs.ModuleFile.{IsAnswered, IsWellFormed, file_name_of, spelling};
ghost use Rattle.build_store.specs.Kept.{LeavesKept, largest_kept};

use cm_core::NoMemory;
use cm_outside::{Cache, CacheFault};
use module_file::{Index, encode, file_name};
use std::alloc::Global;

/// The most bytes of a module file that is kept.
const LARGEST_KEPT: usize = 67_108_864;

/// Puts the file that says this into a cache, unless it is too large. A file that can't be written is
/// passed over.
pub fn keep_file<C: Cache>(alloc: Global, cache: &mut C, index: &Index) -> Result<(), NoMemory>
    ensures later { C.faults cache.old ≤ C.faults cache.new }
    ensures back { IsNone (C.files cache.old) → C.honest cache.new → C.honest cache.old }

    // Only its file may be another, and that is the one which says this, or what a refused call left.
    ensures left { AllByRecursion IsAnswered index.now.records → LeavesKept index.now (C.files cache.old) (C.files cache.new) }
    ensures put { (fs : Files) → C.files cache.old ≡ Some fs → length (spelling index.now) ≤ largest_kept
        → OnOk result ((C.files cache.new ≡ Some (with_file (file_name_of index.now.key) (spelling index.now) fs)) ⊎ Rose (C.faults cache.old) (C.faults cache.new)) }
    ensures too_large { largest_kept < length (spelling index.now) → cache.new ≡ cache.old }

    ensures stays { IsSome (C.files cache.old) → C.honest cache.old → AllByRecursion IsAnswered index.now.records
        → (IsWellFormed index.now → C.Named.is_image (spelling index.now)) → C.honest cache.new }
{
    let name = file_name(alloc, &index.key)?;
    let bytes = encode(alloc, index)?;
    if bytes.len() > LARGEST_KEPT {
        return Ok(());
    }
    match cache.replace(name.as_str(), &bytes) {
        Ok(()) | Err(CacheFault::Failed) => Ok(()),
        Err(CacheFault::NoMemory) => Err(NoMemory),
    }
}
