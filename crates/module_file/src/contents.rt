//! The key and the index in module files.

ghost use Rattle.std.specs.Prelude.{◌≡◌, ◌++◌, Some, None, IfOk, IfErr, OnOk};
ghost use Rattle.std.specs.List.{AllByRecursion};
ghost use Rattle.module_file.specs.declared.fault.PartFault.TheVariants.{Damaged as IsDamaged};
ghost use Rattle.module_file.specs.ModuleFile.{spell_key, spell_row, spell_list, spell_sub, spell_index, IsKey, IsText, IsListOf, IsAnswered, HasParts, rows_from};
ghost use Rattle.module_file.specs.Reading.{read_key, read_sub, read_contents, agree, is_row};

use crate::fault::PartFault;
use crate::form::{Form, pass_u8, pass_u64, put_list, read_list_of};
use crate::index::{Declaration, Index, Key};
use crate::pieces::put_row;
use crate::row::Row;
use cm_core::{List, NoMemory, Str};
use cm_wire::{Reader, put_u8, put_u64};
use std::alloc::Global;

/// An index with the rows that stand beside its declarations.
#[derive(Debug, Drop)]
pub struct Contents {
    pub index: Index,
    pub rows: List<Row>,
}

impl Form for Key {
    ghost spell = { spell_key };

    ghost fits = { IsKey };

    ghost read_of = { read_key };

    #[tactic(auto, unfolding(crate::specs::ModuleFile::spell_key))]
    fn put(&self, out: &mut Vec<u8>) -> Result<(), NoMemory> {
        self.name.put(out)?;
        put_list(out, self.includes.items())?;
        put_list(out, self.maps.items())?;
        put_u64(out, 0)?;
        put_u8(out, 0)
    }

    #[tactic(auto, unfolding(crate::specs::Reading::read_key))]
    fn read_next(alloc: Global, reader: &mut Reader) -> Result<Key, PartFault> {
        let name = Str::read_next(alloc, reader)?;
        let includes = read_list_of(alloc, reader)?;
        let maps = read_list_of(alloc, reader)?;
        pass_u64(reader, 0)?;
        pass_u8(reader, 0)?;
        Ok(Key {
            name,
            includes,
            maps,
        })
    }
}

/// Puts an index.
#[tactic(auto, unfolding(crate::specs::ModuleFile::spell_index, crate::specs::ModuleFile::spell_with_rows))]
pub fn put_index(out: &mut Vec<u8>, index: &Index) -> Result<(), NoMemory>
    ensures put { OnOk result (out.new.items ≡ out.old.items ++ spell_index index.now) }
    ensures fits { OnOk result (AllByRecursion IsAnswered index.now.records → HasParts index.now) }
{
    index.key.put(out)?;
    put_list(out, index.records.items())?;
    put_list(out, index.needs.items())?;
    put_sub(
        out,
        &index.sub,
        index.imports.items(),
        index.declarations.items(),
    )?;
    put_list(out, index.diags.items())?;
    put_list(out, index.declarations.items())
}

/// Puts the list of the one submodule.
#[tactic(auto, unfolding(crate::specs::ModuleFile::spell_sub))]
fn put_sub(
    out: &mut Vec<u8>,
    name: &Str,
    imports: &[Str],
    declarations: &[Declaration],
) -> Result<(), NoMemory>
    ensures put { OnOk result (out.new.items ≡ out.old.items ++ spell_sub name.now imports.now (rows_from 1 declarations.now)) }
    ensures name { OnOk result (IsText name.now) }
    ensures imports { OnOk result (IsListOf IsText imports.now) }
{
    put_u64(out, 1)?;
    name.put(out)?;
    put_u8(out, 1)?;
    put_list(out, imports)?;
    put_rows(out, declarations)?;
    put_u64(out, 0)
}

/// Puts the rows of declarations, numbered from 1.
#[tactic(auto, using(crate::specs::Rows::rows_step, crate::specs::Rows::rows_done, crate::specs::Rows::rows_len))]
fn put_rows(out: &mut Vec<u8>, declarations: &[Declaration]) -> Result<(), NoMemory>
    ensures put { OnOk result (out.new.items ≡ out.old.items ++ spell_list spell_row (rows_from 1 declarations.now)) }
{
    put_u64(out, declarations.len() as u64)?;
    for (at, declaration) in declarations.iter().enumerate() {
        put_row(out, &declaration.name, at as u64 + 1)?;
    }
    Ok(())
}

/// Reads an index and its rows.
#[tactic(auto, unfolding(crate::specs::Reading::read_contents))]
pub fn read_contents_of(alloc: Global, reader: &mut Reader) -> Result<Contents, PartFault>
    ensures read { IfOk result (λ c. read_contents reader.old ≡ Some (c, reader.new)) }
    ensures refused { IfErr result (λ fault. fault ≡ IsDamaged → read_contents reader.old ≡ None) }
{
    let key = Key::read_next(alloc, reader)?;
    let records = read_list_of(alloc, reader)?;
    let needs = read_list_of(alloc, reader)?;
    let (sub, imports, rows) = read_sub_of(alloc, reader)?;
    let diags = read_list_of(alloc, reader)?;
    let declarations = read_list_of(alloc, reader)?;
    let index = Index {
        key,
        records,
        needs,
        sub,
        imports,
        declarations,
        diags,
    };
    Ok(Contents { index, rows })
}

/// Reads the list of the one submodule: its name, its imports and its rows.
#[tactic(auto, unfolding(crate::specs::Reading::read_sub))]
fn read_sub_of(alloc: Global, reader: &mut Reader) -> Result<(Str, List<Str>, List<Row>), PartFault>
    ensures read { IfOk result (λ s. read_sub reader.old ≡ Some ((s.0, (s.1, (s.2, tt))), reader.new)) }
    ensures refused { IfErr result (λ fault. fault ≡ IsDamaged → read_sub reader.old ≡ None) }
{
    pass_u64(reader, 1)?;
    let name = Str::read_next(alloc, reader)?;
    pass_u8(reader, 1)?;
    let imports = read_list_of(alloc, reader)?;
    let rows = read_list_of(alloc, reader)?;
    pass_u64(reader, 0)?;
    Ok((name, imports, rows))
}

/// Whether the rows are those of the declarations, numbered from 1.
#[tactic(auto, using(crate::specs::Rows::agree_step, crate::specs::Rows::agree_lengths))]
pub fn are_rows_of(rows: &[Row], declarations: &[Declaration]) -> bool
    ensures { result ≡ agree 1 rows.now declarations.now }
{
    if rows.len() != declarations.len() {
        return false;
    }
    for (at, declaration) in declarations.iter().enumerate() {
        if !is_row_of(&rows[at], at as u64 + 1, declaration) {
            return false;
        }
    }
    true
}

fn is_row_of(row: &Row, number: u64, declaration: &Declaration) -> bool
    ensures { result ≡ is_row number row.now declaration.now }
{
    row.name.text() == declaration.name.text() && row.number == number
}
