ghost use Rattle.std.specs.Prelude.{◌≡◌, ◌≢◌, ◌≤◌, ◌++◌, ℕ, IfOk, IsSome, Some, List as Seq, length, take};
ghost use Rattle.cm_outside.specs.Trees.{Files, file_at};
ghost use Rattle.cm_outside.specs.Faults.{Rose};
ghost use Rattle.cm_outside.specs.declared.cache.CallKind.TheVariants.{Size as SizeOf, ReadAt as ReadOf};
ghost use Rattle.cm_outside.specs.declared.cache.CallAnswer.TheVariants.{Size as SizeIs, Read as PartIs};
ghost use Rattle.module_file.specs.ModuleFile.{file_name_of};
ghost use Rattle.build_store.specs.Kept.{IsDecoded, IsOpened, IsOpenedFrom, NamesSealed};

use crate::origin::Reason;
use cm_core::NoMemory;
use cm_outside::{Cache, CacheFault};
use module_file::{FileFault, Index, Key, file_name, index_len, read_file};
use std::alloc::Global;

/// The bytes of a module file's head.
const HEAD: u64 = 56;

/// What the file of a key in a cache is.
#[derive(Debug, Drop)]
pub enum Opened {
    /// A sealed file of the asked key.
    Sealed(Index),
    Not(Reason),
}

/// What the bytes of a whole file say.
fn decoded(
    alloc: Global,
    key: &Key,
    size: u64,
    head: &[u8],
    index: &[u8],
) -> Result<Opened, NoMemory>
    ensures decoded { IfOk result (IsDecoded key.now (head.now ++ index.now)) }
    ensures readable { IfOk result (λ o. o ≢ Opened.Not Reason.Unreadable) }
    ensures told { (file : Seq ℕ) → file ≡ head.now ++ index.now → head.now ≡ take 56 file → size ≡ length file → length head.now ≡ 56 → IfOk result (IsOpenedFrom ⊥ key.now (Some file)) }
{
    match read_file(alloc, size, head, index) {
        Ok(index) => {
            if index.key.is(key) {
                Ok(Opened::Sealed(index))
            } else {
                Ok(Opened::Not(Reason::OtherKey))
            }
        }
        Err(FileFault::OtherVersion(_)) => Ok(Opened::Not(Reason::OtherVersion)),
        Err(FileFault::Damaged) => Ok(Opened::Not(Reason::Damaged)),
        Err(FileFault::NoMemory) => Err(NoMemory),
    }
}

/// What a file is whose size and head were given.
fn open_index<C: Cache>(
    alloc: Global,
    cache: &mut C,
    key: &Key,
    name: &str,
    size: u64,
    head: &[u8],
) -> Result<Opened, NoMemory>
    ensures opened { C.given cache.old (record { call = SizeOf name.now; answer = SizeIs (Some size) })
        → C.given cache.old (record { call = ReadOf name.now 0 56; answer = PartIs (Some head.now) })
        → NamesSealed C.Named.is_sealed → IfOk result (IsOpened C.Named.is_true key.now (C.honest cache.new)) }
    ensures told { (fs : Files) (file : Seq ℕ) → C.files cache.old ≡ Some fs → file_at name.now fs ≡ Some file → size ≡ length file → head.now ≡ take 56 file
        → IfOk result (IsOpenedFrom (Rose (C.faults cache.old) (C.faults cache.new)) key.now (Some file)) }
    ensures unreadable { IfOk result (λ o. o ≡ Opened.Not Reason.Unreadable → Rose (C.faults cache.old) (C.faults cache.new)) }
    ensures later { C.faults cache.old ≤ C.faults cache.new }
    ensures kept { C.files cache.new ≡ C.files cache.old }
    ensures back { C.honest cache.new → C.honest cache.old }
    ensures stays { IsSome (C.files cache.old) → C.honest cache.old → C.honest cache.new }
{
    let len = match index_len(head, size) {
        Ok(len) => len,
        Err(FileFault::OtherVersion(_)) => return Ok(Opened::Not(Reason::OtherVersion)),
        Err(FileFault::Damaged) => return Ok(Opened::Not(Reason::Damaged)),
        Err(FileFault::NoMemory) => return Err(NoMemory),
    };
    match cache.read_at(name, HEAD, len) {
        Ok(Some(index)) if index.len() as u64 == len => decoded(alloc, key, size, head, &index),
        Ok(Some(_)) => Ok(Opened::Not(Reason::Damaged)),
        Ok(None) => Ok(Opened::Not(Reason::Missing)),
        Err(CacheFault::Failed) => Ok(Opened::Not(Reason::Unreadable)),
        Err(CacheFault::NoMemory) => Err(NoMemory),
    }
}

/// What a file of a size is.
fn open_head<C: Cache>(
    alloc: Global,
    cache: &mut C,
    key: &Key,
    name: &str,
    size: u64,
) -> Result<Opened, NoMemory>
    ensures opened { C.given cache.old (record { call = SizeOf name.now; answer = SizeIs (Some size) })
        → NamesSealed C.Named.is_sealed → IfOk result (IsOpened C.Named.is_true key.now (C.honest cache.new)) }
    ensures told { (fs : Files) (file : Seq ℕ) → C.files cache.old ≡ Some fs → file_at name.now fs ≡ Some file → size ≡ length file
        → IfOk result (IsOpenedFrom (Rose (C.faults cache.old) (C.faults cache.new)) key.now (Some file)) }
    ensures unreadable { IfOk result (λ o. o ≡ Opened.Not Reason.Unreadable → Rose (C.faults cache.old) (C.faults cache.new)) }
    ensures later { C.faults cache.old ≤ C.faults cache.new }
    ensures kept { C.files cache.new ≡ C.files cache.old }
    ensures back { C.honest cache.new → C.honest cache.old }
    ensures stays { IsSome (C.files cache.old) → C.honest cache.old → C.honest cache.new }
{
    if size < HEAD {
        return Ok(Opened::Not(Reason::Damaged));
    }
    match cache.read_at(name, 0, HEAD) {
        Ok(Some(head)) => open_index(alloc, cache, key, name, size, &head),
        Ok(None) => Ok(Opened::Not(Reason::Missing)),
        Err(CacheFault::Failed) => Ok(Opened::Not(Reason::Unreadable)),
        Err(CacheFault::NoMemory) => Err(NoMemory),
    }
}

/// Reads the file of a key, and tells what it is: a sealed file of this key, or why there is none that can
/// be used. It isn't `Outdated`, which the records decide.
pub fn open<C: Cache>(alloc: Global, cache: &mut C, key: &Key) -> Result<Opened, NoMemory>
    ensures opened { NamesSealed C.Named.is_sealed → IfOk result (IsOpened C.Named.is_true key.now (C.honest cache.new)) }
    ensures told { (fs : Files) → C.files cache.old ≡ Some fs → IfOk result (IsOpenedFrom (Rose (C.faults cache.old) (C.faults cache.new)) key.now (file_at (file_name_of key.now) fs)) }
    ensures unreadable { IfOk result (λ o. o ≡ Opened.Not Reason.Unreadable → Rose (C.faults cache.old) (C.faults cache.new)) }
    ensures later { C.faults cache.old ≤ C.faults cache.new }
    ensures kept { C.files cache.new ≡ C.files cache.old }
    ensures back { C.honest cache.new → C.honest cache.old }
    ensures stays { IsSome (C.files cache.old) → C.honest cache.old → C.honest cache.new }
{
    let name = file_name(alloc, key)?;
    match cache.size(name.as_str()) {
        Ok(Some(size)) => open_head(alloc, cache, key, name.as_str(), size),
        Ok(None) => Ok(Opened::Not(Reason::Missing)),
        Err(CacheFault::Failed) => Ok(Opened::Not(Reason::Unreadable)),
        Err(CacheFault::NoMemory) => Err(NoMemory),
    }
}
