ghost use Rattle.std.specs.Prelude.{◌≡◌, ◌<◌, ◌↔◌, [], length, slice_get, position, IsTrue, IfOk, IfSome};
ghost use Rattle.std.specs.List.{IsDistinct};
ghost use Rattle.std.specs.Option.{option_map};
ghost use Rattle.std.specs.Str.{bytes_eq};

use crate::list::List;
use crate::no_memory::NoMemory;
use crate::numbers::SubNo;
use crate::str::Str;
use crate::texts::Texts;
use std::alloc::Global;
use std::marker::Model;

/// The submodules of a build by number; a clause sees their names.
#[derive(Drop)]
pub struct SubList {
    texts: Texts,
}

impl Model for SubList {
    ghost use Rattle.std.specs.Prelude.{List, ℕ};

    ghost Value = { List (List ℕ) };

    ghost view = { λ s. s.texts };
}

impl SubList {
    /// Numbers the names in their order; they differ.
    pub fn new(alloc: Global, names: List<Str>) -> Result<SubList, NoMemory>
        requires { IsDistinct bytes_eq names }
        ensures { IfOk result (λ subs. subs ≡ names) }
    {
        let mut texts = Texts::new(alloc);
        for name in names.items() {
            texts.number(name.text())?;
        }
        Ok(SubList { texts })
    }

    /// The name of a submodule of this list.
    pub fn text(&self, no: SubNo) -> &str
        requires { no.index < length self.now }
        ensures text { slice_get self.now no.index ≡ Some result.now }
        ensures distinct { IsDistinct bytes_eq self.now }
    {
        self.texts.text(no.index)
    }

    /// The submodule of this name, or `None` where no submodule has it.
    pub fn number(&self, name: &str) -> Option<SubNo>
        ensures number { option_map (λ no. no.index) result ≡ position (bytes_eq name.now) self.now }
        ensures named { IfSome result (λ no. slice_get self.now no.index ≡ Some name.now) }
    {
        let index = self.texts.find(name)?;
        Some(SubNo { index })
    }

    pub fn len(&self) -> u64
        ensures len { result ≡ length self.now }
        ensures distinct { IsDistinct bytes_eq self.now }
    {
        self.texts.len()
    }

    pub fn is_empty(&self) -> bool
        ensures { IsTrue result ↔ (self.now ≡ []) }
    {
        self.texts.len() == 0
    }
}
