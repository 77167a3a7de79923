//! The index of a module file as a whole.

ghost use Rattle.std.specs.Prelude.{◌≡◌, Some, None, Err, IfOk, IfErr};
ghost use Rattle.module_file.specs.declared.fault.PartFault.TheVariants.{Damaged as IsDamaged};
ghost use Rattle.module_file.specs.ModuleFile.{index_len_of};
ghost use Rattle.module_file.specs.Reading.{index_in, file_in, IsFileAnswerOf};

use crate::contents::{are_rows_of, read_contents_of};
use crate::fault::{FileFault, PartFault};
use crate::head::{index_len_in, is_sealed};
use crate::index::Index;
use cm_wire::Reader;
use std::alloc::Global;

/// What a file says, after the checks of its head and its seal.
#[tactic(auto, unfolding(crate::specs::Reading::file_in))]
pub fn read_sealed(alloc: Global, size: u64, head: &[u8], index: &[u8]) -> Result<Index, FileFault>
    ensures said { IsFileAnswerOf (file_in size head.now index.now) result }
    ensures head { IfErr (index_len_of head.now size) (λ fault. result ≡ Err fault) }
{
    let len = index_len_in(head, size)?;
    if index.len() as u64 != len || !is_sealed(head, index) {
        return Err(FileFault::Damaged);
    }
    match read_index(alloc, index) {
        Ok(index) => Ok(index),
        Err(PartFault::Damaged) => Err(FileFault::Damaged),
        Err(PartFault::NoMemory) => Err(FileFault::NoMemory),
    }
}

/// What the bytes of an index say.
#[tactic(auto, unfolding(crate::specs::Reading::index_in, cm_wire::specs::Reading::read_end))]
fn read_index(alloc: Global, bytes: &[u8]) -> Result<Index, PartFault>
    ensures read { IfOk result (λ i. index_in bytes.now ≡ Some i) }
    ensures refused { IfErr result (λ fault. fault ≡ IsDamaged → index_in bytes.now ≡ None) }
{
    let mut reader = Reader::new(bytes);
    let contents = read_contents_of(alloc, &mut reader)?;
    reader.end()?;
    if !are_rows_of(contents.rows.items(), contents.index.declarations.items()) {
        return Err(PartFault::Damaged);
    }
    Ok(contents.index)
}
