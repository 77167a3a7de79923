ghost use Rattle.std.specs.Prelude.{◌≡◌, ◌≢◌, true, ◌+◌, ◌-◌, ◌^◌, ℕ, min, [], IfOk, OnOk, OnErr, IfSome, Some, None, IsErrOf};
ghost use Rattle.std.specs.Option.{option_copied, option_map};
ghost use Rattle.cm_outside.specs.Trees.{file_at as bytes_of, without_path};
ghost use Rattle.cm_outside.specs.Faults.{HasCause};
ghost use Rattle.cm_outside.specs.Caches.{size_in, part_in, names_in, InByteOrder, with_file, with_set, given_len, WouldAnswer, name_asked};
ghost use Rattle.cm_outside.specs.CachesInMemory.{FailingCache, called, fails_next, FailsExactly, AllTrue};
ghost use Rattle.cm_outside.specs.declared.cache.CacheEntry.{CacheEntry as Entry};
ghost use Rattle.cm_outside.specs.HonestFiles.{true_file_gives, true_piece_gives};

use crate::cached_files::{
    file_at, file_names, file_part, file_size, part_len, put_file, remove_file, set_file,
};
use crate::{Cache, CacheFault, Images};
use cm_core::{List, NoMemory, Str};
use std::alloc::Global;
use std::marker::{Model, PhantomData};

/// A cache in memory, whose calls fail where they are told to.
#[derive(Drop)]
pub struct MemCache<I: Images> {
    alloc: Global,
    files: Vec<(Str, List<u8>)>,
    fails: List<u64>,
    calls: u64,
    faults: u64,
    taken: u64,
    images: PhantomData<I>,
}

impl<I: Images> Model for MemCache<I> {
    ghost Value = { FailingCache };

    ghost view = { λ c. record { files = c.files.items; fails = c.fails; calls = c.calls; faults = c.faults; taken = c.taken } };
}

impl<I: Images> MemCache<I> {
    /// An empty cache. The calls whose numbers stand in `fails`, from 1, fail.
    pub fn new(alloc: Global, fails: List<u64>) -> MemCache<I>
        ensures { result ≡ record { files = []; fails = fails; calls = 0; faults = 0; taken = 0 } }
    {
        MemCache {
            alloc,
            files: Vec::new(alloc),
            fails,
            calls: 0,
            faults: 0,
            taken: 0,
            images: PhantomData,
        }
    }

    /// How many bytes `read_at` has given; it stays at its last value.
    pub fn taken(&self) -> u64
        ensures { result ≡ self.now.taken }
    {
        self.taken
    }

    /// The bytes of a file, if it is there.
    pub fn file(&self, name: &str) -> Option<&[u8]>
        ensures { option_copied result ≡ bytes_of name.now self.now.files }
    {
        let bytes = file_at(&self.files, name)?;
        Some(bytes.items())
    }

    /// Puts a file of these bytes there, or removes the file. A refused call changes nothing.
    pub fn set(&mut self, name: &str, bytes: Option<&[u8]>) -> Result<(), NoMemory>
        ensures ok { OnOk result (self.new ≡ record self.old { files = with_set name.now (option_copied bytes.entry) self.old.files }) }
        ensures err { OnErr result (self.new ≡ self.old) }
        ensures stays { AllTrue I.is_true self.old.files → IfSome (option_copied bytes.entry) I.is_true → AllTrue I.is_true self.new.files }
        ensures still { (e : Entry) → WouldAnswer self.old.files e → name_asked e.call ≢ Some name.now → WouldAnswer self.new.files e }
    {
        set_file(self.alloc, &mut self.files, name, bytes)
    }

    /// How many calls of the trait there were; it stays at its last value.
    pub fn calls(&self) -> u64
        ensures { result ≡ self.now.calls }
    {
        self.calls
    }

    /// Counts a call, and fails where it is to fail.
    fn call(&mut self) -> Result<(), CacheFault>
        ensures state { self.new ≡ called self.old }
        ensures fails { FailsExactly (fails_next self.old) result }
        ensures sure { OnErr result (fails_next self.old ≡ true) }
        ensures cause { HasCause self.old.faults self.new.faults result CacheFault.Failed }
    {
        self.calls = self.calls.saturating_add(1);
        if self.fails.items().contains(&self.calls) {
            self.faults = self.faults.saturating_add(1);
            return Err(CacheFault::Failed);
        }
        Ok(())
    }
}

impl<I: Images> Cache for MemCache<I> {
    type Named = I;

    ghost files = { λ c. Some c.files };

    ghost honest = { λ c. AllTrue I.is_true c.files };

    ghost faults = { λ c. c.faults };

    ghost taken = { λ c. Some c.taken };

    ghost trail = { λ _. None };

    ghost given = { λ c e. WouldAnswer c.files e };

    ghost honest_gives = { λ c all name n at len front rest _ size head tail _ _. true_file_gives I.is_true c.files all name n at len front rest size head tail };

    ghost honest_piece = { λ c all name n at len front rest sealed size head tail parts seal place count bytes is. true_piece_gives I.is_true I.is_sealed I.is_piece I.piece_is_true c.files all name n at len front rest sealed size head tail parts seal place count bytes is };

    fn size(&mut self, name: &str) -> Result<Option<u64>, CacheFault>
        ensures told { IfOk result (λ n. n ≡ size_in name.now self.old.files) }
        ensures state { self.new ≡ called self.old }
        ensures fails { FailsExactly (fails_next self.old) result }
        ensures sure { OnErr result (fails_next self.old ≡ true) }
        ensures cause { HasCause self.old.faults self.new.faults result CacheFault.Failed }
    {
        self.call()?;
        Ok(file_size(&self.files, name))
    }

    fn read_at(&mut self, name: &str, at: u64, len: u64) -> Result<Option<Vec<u8>>, CacheFault>
        ensures told { IfOk result (λ part. option_map (λ bytes. bytes.items) part ≡ part_in name.now at len self.old.files) }
        ensures state { self.new ≡ record (called self.old) { taken = self.new.taken } }
        ensures taken { IfOk result (λ part. self.new.taken ≡ min (self.old.taken + given_len (option_map (λ bytes. bytes.items) part)) (2 ^ 64 - 1)) }
        ensures untaken { OnErr result (self.new.taken ≡ self.old.taken) }
        ensures fails { FailsExactly (fails_next self.old) result }
        ensures cause { HasCause self.old.faults self.new.faults result CacheFault.Failed }
    {
        self.call()?;
        let part = file_part(self.alloc, &self.files, name, at, len)?;
        self.taken = self.taken.saturating_add(part_len(&part));
        Ok(part)
    }

    fn replace(&mut self, name: &str, bytes: &[u8]) -> Result<(), CacheFault>
        ensures ok { OnOk result (self.new ≡ record (called self.old) { files = with_file name.now bytes.now self.old.files }) }
        ensures err { OnErr result (self.new ≡ called self.old) }
        ensures stays { AllTrue I.is_true self.old.files → I.is_image bytes.now → AllTrue I.is_true self.new.files }
        ensures still { (e : Entry) → WouldAnswer self.old.files e → name_asked e.call ≢ Some name.now → WouldAnswer self.new.files e }
        ensures fails { FailsExactly (fails_next self.old) result }
        ensures cause { HasCause self.old.faults self.new.faults result CacheFault.Failed }
    {
        self.call()?;
        put_file(self.alloc, &mut self.files, name, bytes)?;
        Ok(())
    }

    fn remove(&mut self, name: &str) -> Result<(), CacheFault>
        ensures ok { OnOk result (self.new ≡ record (called self.old) { files = without_path name.now self.old.files }) }
        ensures err { OnErr result (self.new ≡ called self.old) }
        ensures stays { AllTrue I.is_true self.old.files → AllTrue I.is_true self.new.files }
        ensures still { (e : Entry) → WouldAnswer self.old.files e → name_asked e.call ≢ Some name.now → WouldAnswer self.new.files e }
        ensures sure { OnErr result (fails_next self.old ≡ true) }
        ensures fails { FailsExactly (fails_next self.old) result }
        ensures cause { HasCause self.old.faults self.new.faults result CacheFault.Failed }
    {
        self.call()?;
        remove_file(&mut self.files, name);
        Ok(())
    }

    fn names(&mut self) -> Result<Vec<Str>, CacheFault>
        ensures told { IfOk result (λ names. names.items ≡ names_in self.old.files) }
        ensures ordered { IfOk result (λ names. InByteOrder names.items) }
        ensures state { self.new ≡ called self.old }
        ensures fails { FailsExactly (fails_next self.old) result }
        ensures cause { HasCause self.old.faults self.new.faults result CacheFault.Failed }
    {
        self.call()?;
        Ok(file_names(self.alloc, &self.files)?)
    }
}
