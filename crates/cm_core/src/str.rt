ghost use Rattle.std.specs.Prelude.{◌≡◌, ◌↔◌, IsTrue, IfOk, string_bytes};
ghost use Rattle.std.specs.Cmp.{partial_equiv_from_equiv};
ghost use Rattle.std.specs.Str.{bytes_eq};
ghost use Rattle.std.proofs.lemmas.Cmp.{nat_list_eq_equiv};

use crate::no_memory::NoMemory;
use crate::try_copy::TryCopy;
use std::alloc::Global;
use std::marker::Model;

/// An owned text that contracts see as its UTF-8 bytes.
#[derive(Debug, Drop)]
pub struct Str {
    text: String,
}

impl Model for Str {
    ghost use Rattle.std.specs.Prelude.{List, ℕ, string_bytes};

    ghost Value = { List ℕ };

    ghost view = { λ s. string_bytes s.text };
}

impl Str {
    pub fn read(alloc: Global, text: &str) -> Result<Str, NoMemory>
        ensures { IfOk result (λ s. s ≡ text.now) }
    {
        Ok(Str {
            text: String::from_str(alloc, text)?,
        })
    }

    pub(crate) fn from_string(text: String) -> Str
        ensures { result ≡ string_bytes text }
    {
        Str { text }
    }

    pub fn text(&self) -> &str
        ensures { result.now ≡ self.now }
    {
        self.text.as_str()
    }

    /// Tells whether this is `text`, byte by byte.
    pub fn is(&self, text: &str) -> bool
        ensures { IsTrue result ↔ (self.now ≡ text.now) }
    {
        self.text() == text
    }

    pub fn copy(&self, alloc: Global) -> Result<Str, NoMemory>
        ensures { IfOk result (λ copied. copied ≡ self.now) }
    {
        Str::read(alloc, self.text())
    }
}

impl PartialEq for Str {
    ghost eq = { bytes_eq };

    ghost laws = { partial_equiv_from_equiv nat_list_eq_equiv };

    fn eq(&self, other: &Str) -> bool {
        self.text() == other.text()
    }
}

impl Eq for Str {
    ghost laws = { nat_list_eq_equiv };
}

impl TryCopy for Str {
    fn try_copy(&self, alloc: Global) -> Result<Str, NoMemory> {
        self.copy(alloc)
    }
}
