ghost use Rattle.std.specs.Prelude.{◌≡◌, ◌<◌, [], length, slice_get, IfOk, OnOk, OnErr};
ghost use Rattle.std.specs.List.{IsDistinct};
ghost use Rattle.std.specs.Str.{bytes_eq};
ghost use Rattle.cm_core.specs.Tables.{numbered, number_of, Extends};

use crate::no_memory::NoMemory;
use crate::numbers::NameNo;
use crate::texts::Texts;
use std::alloc::Global;
use std::marker::Model;

/// The names of identifiers and other spellings by number; a clause sees the texts that have
/// numbers. A number names one text for good.
#[derive(Drop)]
pub struct Names {
    texts: Texts,
}

impl Model for Names {
    ghost use Rattle.std.specs.Prelude.{List, ℕ};

    ghost Value = { List (List ℕ) };

    ghost view = { λ n. n.texts };
}

impl Names {
    pub fn new(alloc: Global) -> Names
        ensures { result ≡ [] }
    {
        Names {
            texts: Texts::new(alloc),
        }
    }

    /// The number of `text`, which is the next one where the text is new.
    pub fn number(&mut self, text: &str) -> Result<NameNo, NoMemory>
        ensures number { IfOk result (λ no. no.index ≡ number_of self.old text.now) }
        ensures names { OnOk result (self.new ≡ numbered self.old text.now) }
        ensures err { OnErr result (self.new ≡ self.old) }

        // What follows from these: the number gives the text, and no number changes its text.
        ensures given { IfOk result (λ no. slice_get self.new no.index ≡ Some text.now) }
        ensures kept { Extends self.old self.new }
        ensures distinct { IsDistinct bytes_eq self.new }
    {
        let index = self.texts.number(text)?;
        Ok(NameNo { index })
    }

    /// The text of a number that this table gave.
    pub fn text(&self, no: NameNo) -> &str
        requires { no.index < length self.now }
        ensures text { slice_get self.now no.index ≡ Some result.now }
        ensures distinct { IsDistinct bytes_eq self.now }
    {
        self.texts.text(no.index)
    }
}
