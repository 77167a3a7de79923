ghost use Rattle.std.specs.Prelude.{◌≡◌, IfOk, OnOk};
ghost use Rattle.build_store.specs.NameIndexes.{IsIndexOf, number_in, with_name};

use crate::table::Table;
use cm_core::NoMemory;
use indexmap::IndexMap;
use std::alloc::Global;
use std::marker::Model;

/// The numbers of a table's modules, found by name in constant expected time; a clause sees the names, each once, with their
/// numbers.
#[derive(Debug, Drop)]
pub struct NameIndex {
    map: IndexMap<String, usize>,
}

impl Model for NameIndex {
    ghost use Rattle.std.specs.Prelude.{map as mapped, string_bytes};
    ghost use Rattle.build_store.specs.NameIndexes.{NameNumbers};

    ghost Value = { NameNumbers };

    ghost view = { λ i. mapped (λ entry. (string_bytes entry.0, entry.1)) i.map.entries };
}

impl NameIndex {
    /// The index of a table. A name that more modules have is found at the first of them, as in the table.
    pub fn new(alloc: Global, table: &Table) -> Result<NameIndex, NoMemory>
        ensures { IfOk result (λ names. IsIndexOf table.now names) }
    {
        let mut names = NameIndex {
            map: IndexMap::new(alloc),
        };
        let targets = table.targets.items();
        for number in 0..targets.len() {
            names.push(targets[number].name.text(), number)?;
        }
        Ok(names)
    }

    /// Adds a name with its number; one that is there keeps the number that it has.
    fn push(&mut self, name: &str, number: usize) -> Result<(), NoMemory>
        ensures { OnOk result (self.new ≡ with_name self.old name.now number) }
    {
        if self.map.contains_key(name) {
            return Ok(());
        }
        let alloc = *self.map.allocator();
        self.map.insert(String::from_str(alloc, name)?, number)?;
        Ok(())
    }

    /// The number of the module of this name.
    pub fn number(&self, name: &str) -> Option<usize>
        ensures { result ≡ number_in self.now name.now }
    {
        self.map.get(name).copied()
    }
}
