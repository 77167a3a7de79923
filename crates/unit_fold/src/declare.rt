ghost use Rattle.std.specs.Prelude.{◌≡◌, ◌<◌, [], ◌∷◌, ◌++◌, length, IfOk, OnOk};
ghost use Rattle.unit_fold.specs.Owners.{Reading, SoFar, clashes as clashes_of, closed, included as included_of, named, with_form, with_object, with_piece, with_pointer, with_token};
ghost use Rattle.unit_fold.specs.Opened.{AreNumbered, IsNumbered, token_in, tokens_in};
ghost use Rattle.unit_fold.specs.Reads.{form_as, FormIsNumbered, goes_or_ends};
ghost use Rattle.unit_fold.specs.Told.{told};
ghost use Rattle.unit_fold.specs.declared.given.Given.TheVariants.{Imported as ImportOf};
ghost use Rattle.unit_fold.specs.declared.item.Item.TheVariants.{Pointer as PointerOf};

use crate::at::At;
use crate::forms::Form;
use crate::item::{FaultKind, Imported, Item, Named};
use crate::progress::Progress;
use cm_core::{List, NoMemory, Owner, Str, Token};
use std::alloc::Global;

/// Adds texts at the end of others.
fn push_all(texts: &mut List<Str>, more: List<Str>) -> Result<(), NoMemory>
    ensures { OnOk result (texts.new ≡ texts.old ++ more) }
{
    for text in more.into_vec() {
        texts.push(text)?;
    }
    Ok(())
}

impl Progress {
    /// Goes on by an import at this place; tells whether the owner goes on after it.
    pub(crate) fn import(
        &mut self,
        alloc: Global,
        at: At,
        imported: Imported,
        names: List<Str>,
    ) -> Result<bool, NoMemory>
        ensures { IfOk result (λ goes. (more : SoFar → Reading) → included_of (told self.old) at (ImportOf imported names) more ≡ goes_or_ends goes (told self.new) more) }
    {
        if self.has_pointer(names.items()) {
            self.end(alloc, at, FaultKind::NotBuilt)?;
            return Ok(false);
        }
        self.add(Item::Import(imported, at))?;
        push_all(&mut self.brought, names)?;
        Ok(true)
    }

    /// A declared name, by its token.
    fn named(&self, alloc: Global, token: &Token) -> Result<Named, NoMemory>
        requires { IsNumbered self.now.piece.names token.now }
        ensures { IfOk result (λ name. name ≡ named (token_in self.now.piece.names token.now)) }
    {
        Ok(Named {
            name: Str::read(alloc, self.piece.text(token))?,
            at: At::of(token.place),
        })
    }

    /// Goes on by `int NAME ;`, a piece that begins at `first`.
    fn object(&mut self, alloc: Global, first: At, name: &Token) -> Result<(), NoMemory>
        requires { IsNumbered self.old.piece.names name.now }
        ensures { OnOk result (told self.new ≡ with_object (told self.old) first (token_in self.old.piece.names name.now)) }
    {
        if self.is_pointer(self.piece.text(name)) {
            return self.add_fault(first, FaultKind::NotBuilt);
        }
        let named = self.named(alloc, name)?;
        self.add(Item::Object(named))
    }

    /// Whether the first name is visible, or the second is a pointer or the first.
    fn clashes(&self, name: &str, target: &str) -> bool
        ensures { result ≡ clashes_of (told self.now) name.now target.now }
    {
        let is_visible = self.is_int(name) || self.is_pointer(name);
        is_visible || (self.is_pointer(target) || target == name)
    }

    fn add_pointer(&mut self, alloc: Global, name: &Token) -> Result<(), NoMemory>
        requires { IsNumbered self.old.piece.names name.now }
        ensures told { OnOk result (told self.new ≡ record (told self.old) {
          items = self.old.items ++ PointerOf (named (token_in self.old.piece.names name.now)) ∷ [];
          pointers = self.old.pointers ++ (token_in self.old.piece.names name.now).text ∷ [];
        }) }
        ensures piece { self.new.piece ≡ self.old.piece }
    {
        let named = self.named(alloc, name)?;
        self.pointers.push(named.name.copy(alloc)?)?;
        self.add(Item::Pointer(named))
    }

    /// Goes on by `int * NAME = & NAME ;`, a piece that begins at `first`.
    fn pointer(
        &mut self,
        alloc: Global,
        first: At,
        name: &Token,
        target: &Token,
    ) -> Result<(), NoMemory>
        requires name { IsNumbered self.old.piece.names name.now }
        requires target { IsNumbered self.old.piece.names target.now }
        ensures { OnOk result (told self.new ≡ with_pointer (told self.old) first (token_in self.old.piece.names name.now) (token_in self.old.piece.names target.now)) }
    {
        if self.clashes(self.piece.text(name), self.piece.text(target)) {
            return self.add_fault(first, FaultKind::NotBuilt);
        }
        let is_declared = self.is_int(self.piece.text(target));
        self.add_pointer(alloc, name)?;
        if is_declared {
            return Ok(());
        }
        let operand = Str::read(alloc, self.piece.text(target))?;
        self.add_fault(At::of(target.place), FaultKind::NotDeclared(operand))
    }

    /// Goes on by a piece of this form, which begins at `first`.
    fn formed(&mut self, alloc: Global, first: At, form: Form) -> Result<(), NoMemory>
        requires { FormIsNumbered self.old.piece.names form }
        ensures { OnOk result (told self.new ≡ with_form (told self.old) first (form_as self.old.piece.names form)) }
    {
        match form {
            Form::Empty => Ok(()),
            Form::Object(name) => self.object(alloc, first, &name),
            Form::Pointer(name, target) => self.pointer(alloc, first, &name, &target),
            Form::Other => self.add_fault(first, FaultKind::NotBuilt),
        }
    }

    /// Goes on by a piece of these tokens.
    fn read_piece(&mut self, alloc: Global, owner: Owner, tokens: &[Token]) -> Result<(), NoMemory>
        requires { AreNumbered self.old.piece.names tokens.now }
        ensures { OnOk result (told self.new ≡ with_piece owner (told self.old) (tokens_in self.old.piece.names tokens.now)) }
    {
        match tokens.first() {
            Some(first) => {
                let form = self.piece.form(owner, tokens);
                self.formed(alloc, At::of(first.place), form)
            }
            None => Ok(()),
        }
    }

    /// Takes a token into the open piece, and goes on by that where it ends there.
    pub(crate) fn take(&mut self, alloc: Global, owner: Owner, token: Token) -> Result<(), NoMemory>
        requires numbered { IsNumbered self.old.piece.names token }
        requires counted { length self.old.piece.tokens < self.old.piece.taken }
        ensures { OnOk result (told self.new ≡ with_token owner (told self.old) (token_in self.old.piece.names token)) }
    {
        match self.piece.take(alloc, token)? {
            Some(tokens) => self.read_piece(alloc, owner, tokens.items()),
            None => Ok(()),
        }
    }

    /// Goes on by what is left at the owner's end.
    pub(crate) fn close(&mut self, alloc: Global, owner: Owner) -> Result<(), NoMemory>
        ensures { OnOk result (told self.new ≡ closed owner (told self.old)) }
    {
        let tokens = self.piece.close(alloc);
        self.read_piece(alloc, owner, tokens.items())
    }
}
