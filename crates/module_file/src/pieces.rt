//! Declarations, their rows and diagnostics in module files.

ghost use Rattle.std.specs.Prelude.{◌≡◌, ◌++◌, ◌<◌, ◌^◌, Some, None, IfOk, IfErr, OnOk};
ghost use Rattle.module_file.specs.declared.fault.PartFault.TheVariants.{Damaged as IsDamaged};
ghost use Rattle.module_file.specs.ModuleFile.{spell_diag, spell_declaration, spell_piece, spell_row, IsDiag, IsDeclaration, IsRow, IsText, IsPathSpelling};
ghost use Rattle.module_file.specs.Reading.{read_diag, read_declaration, read_piece, read_row};

use crate::fault::PartFault;
use crate::form::{Form, pass_bytes, pass_u8, put_list, read_list_of};
use crate::index::{Declaration, KeptDiag};
use crate::row::Row;
use cm_core::{NoMemory, PathText, Str};
use cm_wire::{Reader, put_bytes, put_u8, put_u32, put_u64};
use std::alloc::Global;

/// In the space of ordinary names (0), without a storage-class specifier (0): an object (0) whose type
/// is unqualified (0), an integer type (1), `int` (6); without initialiser (0).
const PLAIN_INT_OBJECT: [u8; 7] = [0, 0, 0, 0, 1, 6, 0];

impl Form for KeptDiag {
    ghost spell = { spell_diag };

    ghost fits = { IsDiag };

    ghost read_of = { read_diag };

    #[tactic(auto, unfolding(crate::specs::ModuleFile::spell_diag))]
    fn put(&self, out: &mut Vec<u8>) -> Result<(), NoMemory> {
        put_u32(out, self.number)?;
        self.path.put(out)?;
        put_u32(out, self.line)?;
        put_u32(out, self.column)?;
        put_list(out, self.texts.items())
    }

    #[tactic(auto, unfolding(crate::specs::Reading::read_diag))]
    fn read_next(alloc: Global, reader: &mut Reader) -> Result<KeptDiag, PartFault> {
        let number = reader.u32()?;
        let path = PathText::read_next(alloc, reader)?;
        let line = reader.u32()?;
        let column = reader.u32()?;
        let texts = read_list_of(alloc, reader)?;
        Ok(KeptDiag {
            number,
            path,
            line,
            column,
            texts,
        })
    }
}

impl Form for Declaration {
    ghost spell = { spell_piece };

    ghost fits = { IsDeclaration };

    ghost read_of = { read_piece };

    #[tactic(auto, unfolding(crate::specs::ModuleFile::spell_piece))]
    fn put(&self, out: &mut Vec<u8>) -> Result<(), NoMemory> {
        let mut piece = Vec::new(*out.allocator());
        put_declaration(&mut piece, self)?;
        put_bytes(out, &piece)
    }

    #[tactic(auto, unfolding(crate::specs::Reading::read_piece, crate::specs::Reading::read_inside, cm_wire::specs::Reading::read_end))]
    fn read_next(alloc: Global, reader: &mut Reader) -> Result<Declaration, PartFault> {
        let mut piece = Reader::new(reader.bytes()?);
        let declaration = read_declaration_of(alloc, &mut piece)?;
        piece.end()?;
        Ok(declaration)
    }
}

/// Puts the bytes of a piece.
fn put_declaration(out: &mut Vec<u8>, declaration: &Declaration) -> Result<(), NoMemory>
    ensures put { OnOk result (out.new.items ≡ out.old.items ++ spell_declaration declaration.now) }
    ensures name { OnOk result (IsText declaration.now.name) }
    ensures path { OnOk result (IsPathSpelling declaration.now.path) }
    ensures line { OnOk result (declaration.now.line < 2 ^ 32) }
    ensures column { OnOk result (declaration.now.column < 2 ^ 32) }
{
    put_u8(out, 0)?;
    declaration.name.put(out)?;
    declaration.path.put(out)?;
    put_u32(out, declaration.line)?;
    put_u32(out, declaration.column)?;
    out.extend_from_slice(&PLAIN_INT_OBJECT)?;
    Ok(())
}

/// Reads the bytes of a piece.
#[tactic(auto, unfolding(crate::specs::Reading::read_declaration))]
fn read_declaration_of(alloc: Global, reader: &mut Reader) -> Result<Declaration, PartFault>
    ensures read { IfOk result (λ d. read_declaration reader.old ≡ Some (d, reader.new)) }
    ensures refused { IfErr result (λ fault. fault ≡ IsDamaged → read_declaration reader.old ≡ None) }
{
    pass_u8(reader, 0)?;
    let name = Str::read_next(alloc, reader)?;
    let path = PathText::read_next(alloc, reader)?;
    let line = reader.u32()?;
    let column = reader.u32()?;
    pass_bytes(reader, &PLAIN_INT_OBJECT)?;
    Ok(Declaration {
        name,
        path,
        line,
        column,
    })
}

impl Form for Row {
    ghost spell = { spell_row };

    ghost fits = { IsRow };

    ghost read_of = { read_row };

    fn put(&self, out: &mut Vec<u8>) -> Result<(), NoMemory> {
        put_row(out, &self.name, self.number)
    }

    #[tactic(auto, unfolding(crate::specs::Reading::read_row))]
    fn read_next(alloc: Global, reader: &mut Reader) -> Result<Row, PartFault> {
        let name = Str::read_next(alloc, reader)?;
        pass_u8(reader, 0)?;
        let number = reader.u64()?;
        Ok(Row { name, number })
    }
}

/// Puts a row.
#[tactic(auto, unfolding(crate::specs::ModuleFile::spell_row))]
pub fn put_row(out: &mut Vec<u8>, name: &Str, number: u64) -> Result<(), NoMemory>
    ensures put { OnOk result (out.new.items ≡ out.old.items ++ spell_row (record { name = name.now; number = number })) }
    ensures fits { OnOk result (IsRow (record { name = name.now; number = number })) }
{
    name.put(out)?;
    put_u8(out, 0)?;
    put_u64(out, number)
}
