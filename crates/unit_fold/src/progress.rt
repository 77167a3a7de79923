ghost use Rattle.std.specs.Prelude.{◌≡◌, [], ◌∷◌, OnOk};
ghost use Rattle.std.specs.List.{list_any};
ghost use Rattle.unit_fold.specs.Owners.{is_object_of, is_among as is_among_of, is_pointer as is_pointer_of, is_int as is_int_of, has_pointer as has_pointer_of, nothing_read, add as with_items, add_fault as with_fault, ended};
ghost use Rattle.unit_fold.specs.Told.{told};

use crate::at::At;
use crate::item::{FaultAt, FaultKind, Item};
use crate::open_piece::OpenPiece;
use cm_core::{List, NoMemory, PathText, Str};
use std::alloc::Global;

/// How far the fold of an owner has come.
#[derive(Drop)]
pub(crate) struct Progress {
    /// What its pieces and directives have come to, in order.
    pub items: List<Item>,
    /// The names of the pointers among them.
    pub pointers: List<Str>,
    /// The names of the objects that its imports have made visible.
    pub brought: List<Str>,
    /// The files whose texts it was given.
    pub entered: List<PathText>,
    /// The piece that is open.
    pub piece: OpenPiece,
}

fn is_among(name: &str, names: &[Str]) -> bool
    ensures { result ≡ is_among_of name.now names.now }
{
    names.iter().any(|other| other.text() == name)
}

fn has_object(name: &str, items: &[Item]) -> bool
    ensures { result ≡ list_any (is_object_of name.now) items.now }
{
    items.iter().any(|item| item.is_object(name))
}

impl Progress {
    pub(crate) fn new(alloc: Global) -> Progress
        ensures { told result ≡ nothing_read }
    {
        Progress {
            items: List::new(alloc),
            pointers: List::new(alloc),
            brought: List::new(alloc),
            entered: List::new(alloc),
            piece: OpenPiece::new(alloc),
        }
    }

    /// Whether the owner has declared a pointer of this name.
    pub(crate) fn is_pointer(&self, name: &str) -> bool
        ensures { result ≡ is_pointer_of (told self.now) name.now }
    {
        is_among(name, self.pointers.items())
    }

    /// Whether an object of type `int` of this name is visible.
    pub(crate) fn is_int(&self, name: &str) -> bool
        ensures { result ≡ is_int_of (told self.now) name.now }
    {
        has_object(name, self.items.items()) || is_among(name, self.brought.items())
    }

    /// Whether one of these is the name of a pointer that the owner has declared.
    pub(crate) fn has_pointer(&self, names: &[Str]) -> bool
        ensures { result ≡ has_pointer_of (told self.now) names.now }
    {
        names.iter().any(|name| self.is_pointer(name.text()))
    }

    /// Adds an item.
    pub(crate) fn add(&mut self, item: Item) -> Result<(), NoMemory>
        ensures told { OnOk result (told self.new ≡ with_items (told self.old) (item ∷ [])) }
        ensures piece { self.new.piece ≡ self.old.piece }
    {
        self.items.push(item)
    }

    pub(crate) fn add_fault(&mut self, at: At, kind: FaultKind) -> Result<(), NoMemory>
        ensures told { OnOk result (told self.new ≡ with_fault (told self.old) at kind) }
        ensures piece { self.new.piece ≡ self.old.piece }
    {
        self.add(Item::Fault(FaultAt { at, kind }))
    }

    /// Ends the owner early, with a fault.
    pub(crate) fn end(&mut self, alloc: Global, at: At, kind: FaultKind) -> Result<(), NoMemory>
        ensures { OnOk result (told self.new ≡ ended (told self.old) at kind) }
    {
        let _ = self.piece.close(alloc);
        self.add_fault(at, kind)
    }
}
