ghost use Rattle.std.specs.Prelude.{◌≡◌, ◌≢◌, ◌+◌, ◌-◌, ◌^◌, min, [], IfOk, IfErr, IsOk, OnOk, OnErr, IfSome, Some, None};
ghost use Rattle.std.specs.Option.{option_copied, option_map};
ghost use Rattle.cm_outside.specs.Trees.{file_at as bytes_of, without_path};
ghost use Rattle.cm_outside.specs.Caches.{size_in, part_in, names_in, with_file, with_set, given_len, WouldAnswer, name_asked};
ghost use Rattle.cm_outside.specs.CachesInMemory.{PlainCache, AllTrue};
ghost use Rattle.cm_outside.specs.declared.cache.CacheEntry.{CacheEntry as Entry};
ghost use Rattle.cm_outside.specs.HonestFiles.{true_file_gives, true_piece_gives};

use crate::cached_files::{
    file_at, file_names, file_part, file_size, part_len, put_file, remove_file, set_file,
};
use crate::{Cache, CacheFault, Images};
use cm_core::{List, NoMemory, Str};
use std::alloc::Global;
use std::marker::{Model, PhantomData};

/// A cache in memory that never fails but for want of memory.
#[derive(Drop)]
pub struct SureCache<I: Images> {
    alloc: Global,
    files: Vec<(Str, List<u8>)>,
    taken: u64,
    images: PhantomData<I>,
}

impl<I: Images> Model for SureCache<I> {
    ghost Value = { PlainCache };

    ghost view = { λ c. record { files = c.files.items; taken = c.taken } };
}

impl<I: Images> SureCache<I> {
    /// An empty cache.
    pub fn new(alloc: Global) -> SureCache<I>
        ensures { result ≡ record { files = []; taken = 0 } }
    {
        SureCache {
            alloc,
            files: Vec::new(alloc),
            taken: 0,
            images: PhantomData,
        }
    }

    /// How many bytes `read_at` has given; it stays at its last value.
    pub fn taken(&self) -> u64
        ensures { result ≡ self.now.taken }
    {
        self.taken
    }

    /// The bytes of a file, if it is there.
    pub fn file(&self, name: &str) -> Option<&[u8]>
        ensures { option_copied result ≡ bytes_of name.now self.now.files }
    {
        let bytes = file_at(&self.files, name)?;
        Some(bytes.items())
    }

    /// Puts a file of these bytes there, or removes the file. A refused call changes nothing.
    pub fn set(&mut self, name: &str, bytes: Option<&[u8]>) -> Result<(), NoMemory>
        ensures ok { OnOk result (self.new ≡ record self.old { files = with_set name.now (option_copied bytes.entry) self.old.files }) }
        ensures err { OnErr result (self.new ≡ self.old) }
        ensures stays { AllTrue I.is_true self.old.files → IfSome (option_copied bytes.entry) I.is_true → AllTrue I.is_true self.new.files }
        ensures still { (e : Entry) → WouldAnswer self.old.files e → name_asked e.call ≢ Some name.now → WouldAnswer self.new.files e }
    {
        set_file(self.alloc, &mut self.files, name, bytes)
    }
}

impl<I: Images> Cache for SureCache<I> {
    type Named = I;

    ghost files = { λ c. Some c.files };

    ghost honest = { λ c. AllTrue I.is_true c.files };

    ghost faults = { λ _. 0 };

    ghost taken = { λ c. Some c.taken };

    ghost trail = { λ _. None };

    ghost given = { λ c e. WouldAnswer c.files e };

    ghost honest_gives = { λ c all name n at len front rest _ size head tail _ _. true_file_gives I.is_true c.files all name n at len front rest size head tail };

    ghost honest_piece = { λ c all name n at len front rest sealed size head tail parts seal place count bytes is. true_piece_gives I.is_true I.is_sealed I.is_piece I.piece_is_true c.files all name n at len front rest sealed size head tail parts seal place count bytes is };

    fn size(&mut self, name: &str) -> Result<Option<u64>, CacheFault>
        ensures told { result ≡ Ok (size_in name.now self.old.files) }
        ensures kept { self.new ≡ self.old }
    {
        Ok(file_size(&self.files, name))
    }

    fn read_at(&mut self, name: &str, at: u64, len: u64) -> Result<Option<Vec<u8>>, CacheFault> {
        let part = file_part(self.alloc, &self.files, name, at, len)?;
        self.taken = self.taken.saturating_add(part_len(&part));
        Ok(part)
    }

    fn replace(&mut self, name: &str, bytes: &[u8]) -> Result<(), CacheFault>
        ensures ok { OnOk result (self.new ≡ record self.old { files = with_file name.now bytes.now self.old.files }) }
        ensures err { OnErr result (self.new ≡ self.old) }
        ensures cause { IfErr result (λ e. e ≡ CacheFault.NoMemory) }
        ensures stays { AllTrue I.is_true self.old.files → I.is_image bytes.now → AllTrue I.is_true self.new.files }
        ensures still { (e : Entry) → WouldAnswer self.old.files e → name_asked e.call ≢ Some name.now → WouldAnswer self.new.files e }
    {
        put_file(self.alloc, &mut self.files, name, bytes)?;
        Ok(())
    }

    fn remove(&mut self, name: &str) -> Result<(), CacheFault>
        ensures ok { IsOk result }
        ensures removed { self.new ≡ record self.old { files = without_path name.now self.old.files } }
        ensures stays { AllTrue I.is_true self.old.files → AllTrue I.is_true self.new.files }
        ensures still { (e : Entry) → WouldAnswer self.old.files e → name_asked e.call ≢ Some name.now → WouldAnswer self.new.files e }
    {
        remove_file(&mut self.files, name);
        Ok(())
    }

    fn names(&mut self) -> Result<Vec<Str>, CacheFault> {
        Ok(file_names(self.alloc, &self.files)?)
    }
}
