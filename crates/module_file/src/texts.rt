//! Texts and paths in module files.

ghost use Rattle.std.specs.Prelude.{◌≡◌, ◌++◌, Some, None, IfOk, IfErr, OnOk};
ghost use Rattle.cm_wire.specs.Spelling.{spell_text};
ghost use Rattle.module_file.specs.declared.fault.PartFault.TheVariants.{Damaged as IsDamaged};
ghost use Rattle.module_file.specs.ModuleFile.{IsText, IsPathSpelling};
ghost use Rattle.module_file.specs.Reading.{read_str, read_path};

use crate::fault::PartFault;
use crate::form::Form;
use cm_core::{NoMemory, PathFault, PathText, Str};
use cm_wire::{Reader, put_text};
use std::alloc::Global;

impl Form for Str {
    ghost spell = { spell_text };

    ghost fits = { IsText };

    ghost read_of = { read_str };

    fn put(&self, out: &mut Vec<u8>) -> Result<(), NoMemory> {
        put_text(out, self.text())
    }

    #[tactic(auto, unfolding(crate::specs::Reading::read_str))]
    fn read_next(alloc: Global, reader: &mut Reader) -> Result<Str, PartFault> {
        Ok(Str::read(alloc, reader.text()?)?)
    }
}

impl Form for PathText {
    ghost spell = { spell_text };

    ghost fits = { IsPathSpelling };

    ghost read_of = { read_path };

    fn put(&self, out: &mut Vec<u8>) -> Result<(), NoMemory> {
        put_text(out, self.text())
    }

    #[tactic(auto, unfolding(crate::specs::Reading::read_path, crate::specs::Reading::read_str))]
    fn read_next(alloc: Global, reader: &mut Reader) -> Result<PathText, PartFault> {
        let text = reader.text()?;
        match PathText::read(alloc, text) {
            Ok(path) if path.is(text) => Ok(path),
            Err(PathFault::NoMemory) => Err(PartFault::NoMemory),
            _ => Err(PartFault::Damaged),
        }
    }
}
