ghost use Rattle.std.specs.Prelude.{◌≡◌, ◌<◌, [], length, slice_get, position, IfOk, IfSome, OnErr};
ghost use Rattle.std.specs.List.{IsDistinct};
ghost use Rattle.std.specs.Str.{bytes_eq};
ghost use Rattle.cm_core.specs.Tables.{numbered, number_of, Extends};

use crate::no_memory::NoMemory;
use indexmap::IndexSet;
use std::alloc::Global;
use std::marker::Model;

/// Texts with numbers from 0, found in constant expected time by text and by number.
#[derive(Drop)]
pub struct Texts {
    set: IndexSet<String>,
}

impl Model for Texts {
    ghost use Rattle.std.specs.Prelude.{List, ℕ, map, string_bytes};
    ghost use Rattle.std.specs.List.{IsDistinct};
    ghost use Rattle.std.specs.String.{string_eq};

    ghost Value = { List (List ℕ) };

    ghost view = { λ t. map string_bytes t.set.keys };

    ghost invariant = { λ t. IsDistinct string_eq t.set.keys };
}

impl Texts {
    pub fn new(alloc: Global) -> Texts
        ensures { result ≡ [] }
    {
        Texts {
            set: IndexSet::new(alloc),
        }
    }

    /// The number of `text`, which is numbered if it is new.
    pub fn number(&mut self, text: &str) -> Result<u64, NoMemory>
        ensures number { IfOk result (λ at. (at ≡ number_of self.old text.now) × (self.new ≡ numbered self.old text.now)) }
        ensures err { OnErr result (self.new ≡ self.old) }
        ensures given { IfOk result (λ at. slice_get self.new at ≡ Some text.now) }
        ensures kept { Extends self.old self.new }
        ensures distinct { IsDistinct bytes_eq self.new }
    {
        if let Some(at) = self.set.get_index_of(text) {
            return Ok(at as u64);
        }
        let owned = String::from_str(*self.set.allocator(), text)?;
        let (at, _) = self.set.insert_full(owned)?;
        Ok(at as u64)
    }

    /// The number of `text`, where it has one.
    pub fn find(&self, text: &str) -> Option<u64>
        ensures number { result ≡ position (bytes_eq text.now) self.now }
        ensures given { IfSome result (λ at. slice_get self.now at ≡ Some text.now) }
    {
        let at = self.set.get_index_of(text)?;
        Some(at as u64)
    }

    pub fn text(&self, at: u64) -> &str
        requires { at < length self.now }
        ensures text { slice_get self.now at ≡ Some result.now }
        ensures distinct { IsDistinct bytes_eq self.now }
    {
        self.set.get_index(at as usize).unwrap().as_str()
    }

    pub fn len(&self) -> u64
        ensures len { result ≡ length self.now }
        ensures distinct { IsDistinct bytes_eq self.now }
    {
        self.set.len() as u64
    }
}
