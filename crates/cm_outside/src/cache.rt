ghost use Rattle.std.specs.Prelude.{◌≡◌, ◌≢◌, ℕ, List as Seq, ◌++◌, length, take, drop, IfOk, OnOk, OnErr, IsSome, IsNone, Some, Option as Maybe};
ghost use Rattle.std.specs.Option.{option_map};
ghost use Rattle.cm_outside.specs.Trees.{Files, Path};
ghost use Rattle.cm_outside.specs.Faults.{HasCause};
ghost use Rattle.cm_outside.specs.Caches.{size_in, part_in, names_in, InByteOrder, Replaced, Removed, Tells, HasParts, adding, taking, given_len, name_asked};
ghost use Rattle.cm_outside.specs.declared.cache.CallKind.TheVariants.{Size as SizeOf, ReadAt as ReadOf, Replace as ReplaceOf, Remove as RemoveOf, Names as NamesOf};
ghost use Rattle.cm_outside.specs.declared.cache.CallAnswer.TheVariants.{Size as SizeIs, Read as PartIs, Done, Names as NamesAre};
ghost use Rattle.cm_outside.specs.declared.cache.CacheEntry.{CacheEntry as Entry};

use crate::Images;
use cm_core::{List, NoMemory, Str, TryCopy};
use std::alloc::{AllocError, Global};
use thiserror::Error;

/// Why a cache gave no answer.
#[derive(Clone, Copy, Debug, Error, PartialEq, Eq)]
pub enum CacheFault {
    #[error("the cache could not be used")]
    Failed,
    #[error("out of memory")]
    NoMemory,
}

impl From<NoMemory> for CacheFault {
    ghost use Rattle.cm_outside.specs.declared.cache.CacheFault.TheVariants.{NoMemory as NoRoom};

    ghost from_gives = { λ _ e. e ≡ NoRoom };

    fn from(_error: NoMemory) -> CacheFault {
        CacheFault::NoMemory
    }
}

impl From<AllocError> for CacheFault {
    ghost use Rattle.cm_outside.specs.declared.cache.CacheFault.TheVariants.{NoMemory as NoRoom};

    ghost from_gives = { λ _ e. e ≡ NoRoom };

    fn from(_error: AllocError) -> CacheFault {
        CacheFault::NoMemory
    }
}

/// A call on a cache.
#[derive(Debug, Drop)]
pub enum CallKind {
    Size(Str),
    ReadAt(Str, u64, u64),
    Replace(Str, List<u8>),
    Remove(Str),
    Names,
}

impl CallKind {
    pub fn copy(&self, alloc: Global) -> Result<CallKind, NoMemory>
        ensures { IfOk result (λ copied. copied ≡ self.now) }
    {
        match self {
            CallKind::Size(name) => Ok(CallKind::Size(name.copy(alloc)?)),
            CallKind::ReadAt(name, at, len) => Ok(CallKind::ReadAt(name.copy(alloc)?, *at, *len)),
            CallKind::Replace(name, bytes) => {
                let name = name.copy(alloc)?;
                Ok(CallKind::Replace(name, bytes.copy(alloc)?))
            }
            CallKind::Remove(name) => Ok(CallKind::Remove(name.copy(alloc)?)),
            CallKind::Names => Ok(CallKind::Names),
        }
    }
}

/// The answer of a call on a cache that was not refused.
#[derive(Debug, Drop)]
pub enum CallAnswer {
    Size(Option<u64>),
    Read(Option<List<u8>>),
    Done,
    Names(List<Str>),
}

impl CallAnswer {
    pub fn copy(&self, alloc: Global) -> Result<CallAnswer, NoMemory>
        ensures { IfOk result (λ copied. copied ≡ self.now) }
    {
        match self {
            CallAnswer::Size(size) => Ok(CallAnswer::Size(*size)),
            CallAnswer::Read(part) => Ok(CallAnswer::Read(part.try_copy(alloc)?)),
            CallAnswer::Done => Ok(CallAnswer::Done),
            CallAnswer::Names(names) => Ok(CallAnswer::Names(names.copy(alloc)?)),
        }
    }
}

/// A call that was answered.
#[derive(Debug, Drop)]
pub struct CacheEntry {
    pub call: CallKind,
    pub answer: CallAnswer,
}

impl CacheEntry {
    pub fn copy(&self, alloc: Global) -> Result<CacheEntry, NoMemory>
        ensures { IfOk result (λ copied. copied ≡ self.now) }
    {
        Ok(CacheEntry {
            call: self.call.copy(alloc)?,
            answer: self.answer.copy(alloc)?,
        })
    }
}

/// A folder of kept module files. Others may change the files between two calls; such a cache does not
/// tell them.
pub trait Cache {
    type Named: Images;

    // The files, where the cache tells them.
    ghost files: { Self → Maybe Files };

    // What it gives is what true files give.
    ghost honest: { Self → Type 0 };

    // How often it failed.
    ghost faults: { Self → ℕ };

    // How many bytes `read_at` has given, where the cache tells it; it stays at its last value.
    ghost taken: { Self → Maybe ℕ };

    // The calls that were answered, where the cache tells them.
    ghost trail: { Self → Maybe (Seq Entry) };

    // This answer of `size` or `read_at` stands as given.
    ghost given: { Self → Entry → Type 0 };

    /// The size of a file in bytes, if it is there.
    fn size(&mut self, name: &str) -> Result<Option<u64>, CacheFault>
        ensures told { (fs : Files) → files self.old ≡ Some fs → IfOk result (λ n. n ≡ size_in name.now fs) }
        ensures kept { files self.new ≡ files self.old }
        ensures back { honest self.new → honest self.old }
        ensures stays { IsSome (files self.old) → honest self.old → honest self.new }
        ensures gives { IfOk result (λ n. given self.new (record { call = SizeOf name.now; answer = SizeIs n })) }
        ensures still { (e : Entry) → given self.old e → given self.new e }
        ensures taken { taken self.new ≡ taken self.old }
        ensures answered { IfOk result (λ n. trail self.new ≡ adding (SizeOf name.now) (SizeIs n) (trail self.old)) }
        ensures refused { OnErr result (trail self.new ≡ trail self.old) }
        ensures cause { HasCause (faults self.old) (faults self.new) result CacheFault.Failed };

    /// The bytes of a file from `at` on, `len` of them or as many as there are, if it is there.
    fn read_at(&mut self, name: &str, at: u64, len: u64) -> Result<Option<Vec<u8>>, CacheFault>
        ensures told { (fs : Files) → files self.old ≡ Some fs → IfOk result (λ part. option_map (λ bytes. bytes.items) part ≡ part_in name.now at len fs) }
        ensures kept { files self.new ≡ files self.old }
        ensures back { honest self.new → honest self.old }
        ensures stays { IsSome (files self.old) → honest self.old → honest self.new }
        ensures gives { IfOk result (λ part. given self.new (record { call = ReadOf name.now at len; answer = PartIs (option_map (λ bytes. bytes.items) part) })) }
        ensures still { (e : Entry) → given self.old e → given self.new e }
        ensures taken { IfOk result (λ part. taken self.new ≡ taking (given_len (option_map (λ bytes. bytes.items) part)) (taken self.old)) }
        ensures untaken { OnErr result (taken self.new ≡ taken self.old) }
        ensures answered { IfOk result (λ part. trail self.new ≡ adding (ReadOf name.now at len) (PartIs (option_map (λ bytes. bytes.items) part)) (trail self.old)) }
        ensures refused { OnErr result (trail self.new ≡ trail self.old) }
        ensures cause { HasCause (faults self.old) (faults self.new) result CacheFault.Failed };

    /// Puts a file there, in the place of one of that name. A refused call leaves the old file, no file
    /// or a front of the new bytes, and every other file as it was.
    fn replace(&mut self, name: &str, bytes: &[u8]) -> Result<(), CacheFault>
        ensures told { Tells (λ old new. Replaced name.now bytes.now old new result) (files self.old) (files self.new) }
        ensures back { IsNone (files self.old) → honest self.new → honest self.old }
        ensures stays { IsSome (files self.old) → honest self.old → Self.Named.is_image bytes.now → honest self.new }
        ensures still { (e : Entry) → given self.old e → name_asked e.call ≢ Some name.now → given self.new e }
        ensures taken { taken self.new ≡ taken self.old }
        ensures answered { OnOk result (trail self.new ≡ adding (ReplaceOf name.now bytes.now) Done (trail self.old)) }
        ensures refused { OnErr result (trail self.new ≡ trail self.old) }
        ensures cause { HasCause (faults self.old) (faults self.new) result CacheFault.Failed };

    /// Removes a file, if it is there. A refused call leaves the file or none, and every other file as it
    /// was.
    fn remove(&mut self, name: &str) -> Result<(), CacheFault>
        ensures told { Tells (λ old new. Removed name.now old new result) (files self.old) (files self.new) }
        ensures back { IsNone (files self.old) → honest self.new → honest self.old }
        ensures stays { IsSome (files self.old) → honest self.old → honest self.new }
        ensures still { (e : Entry) → given self.old e → name_asked e.call ≢ Some name.now → given self.new e }
        ensures taken { taken self.new ≡ taken self.old }
        ensures answered { OnOk result (trail self.new ≡ adding (RemoveOf name.now) Done (trail self.old)) }
        ensures refused { OnErr result (trail self.new ≡ trail self.old) }
        ensures cause { HasCause (faults self.old) (faults self.new) result CacheFault.Failed };

    /// The names of the files, in byte order.
    fn names(&mut self) -> Result<Vec<Str>, CacheFault>
        ensures told { (fs : Files) → files self.old ≡ Some fs → IfOk result (λ names. names.items ≡ names_in fs) }
        ensures ordered { IfOk result (λ names. InByteOrder names.items) }
        ensures kept { files self.new ≡ files self.old }
        ensures back { honest self.new → honest self.old }
        ensures stays { IsSome (files self.old) → honest self.old → honest self.new }
        ensures still { (e : Entry) → given self.old e → given self.new e }
        ensures taken { taken self.new ≡ taken self.old }
        ensures answered { IfOk result (λ names. trail self.new ≡ adding NamesOf (NamesAre names.items) (trail self.old)) }
        ensures refused { OnErr result (trail self.new ≡ trail self.old) }
        ensures cause { HasCause (faults self.old) (faults self.new) result CacheFault.Failed };

    // Where the size, the front and the bytes behind it that an honest cache gave are those of some
    // sealed file, they are those of a true file.
    ghost honest_gives: { (c : Self) → honest c → (name : Path) (n at len : ℕ) (front rest file : Seq ℕ)
        → given c (record { call = SizeOf name; answer = SizeIs (Some n) })
        → given c (record { call = ReadOf name 0 at; answer = PartIs (Some front) })
        → given c (record { call = ReadOf name at len; answer = PartIs (Some rest) })
        → HasParts n at len front rest file → Self.Named.is_sealed file
        → (true_file : Seq ℕ) × HasParts n at len front rest true_file × Self.Named.is_true true_file };

    // Bytes that it gave at a place of such a file are then the piece of that place, where they have its
    // digest. Others may have replaced the file between two calls.
    ghost honest_piece: { (c : Self) → honest c → (name : Path) (n at len : ℕ) (front rest file : Seq ℕ)
        → given c (record { call = SizeOf name; answer = SizeIs (Some n) })
        → given c (record { call = ReadOf name 0 at; answer = PartIs (Some front) })
        → given c (record { call = ReadOf name at len; answer = PartIs (Some rest) })
        → HasParts n at len front rest file → Self.Named.is_sealed file
        → (place size : ℕ) (bytes : Seq ℕ) → given c (record { call = ReadOf name place size; answer = PartIs (Some bytes) })
        → Self.Named.is_piece (front ++ rest) place bytes };
}
