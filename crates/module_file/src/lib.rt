//! The module file of version 0: what a module's file says, as bytes and back.
#![tactic(auto)]

ghost use Rattle.std.specs.Prelude.{◌≡◌, ◌++◌, ◌<◌, ℕ, length, take, IfOk, IfErr, MatchResult, string_bytes, Err};
ghost use Rattle.std.specs.List.{AllByRecursion};
ghost use Rattle.module_file.specs.declared.index.Index.{Index as Contained};
ghost use Rattle.module_file.specs.declared.fault.FileFault.TheVariants.{OtherVersion as IsOtherVersion, NoMemory as NoRoom};
ghost use Rattle.module_file.specs.ModuleFile.{spelling, IsWellFormed, IsAnswered, index_len_of, file_name_of};

mod contents;
mod fault;
mod form;
mod head;
mod index;
mod pieces;
mod records;
mod row;
mod sealed;
#[cfg(test)]
mod tests;
mod texts;

use crate::contents::put_index;
use crate::form::Form;
use crate::head::{index_len_in, put_head};
use crate::sealed::read_sealed;
use cm_core::NoMemory;
use cm_wire::seal;
pub use fault::FileFault;
pub use index::{Declaration, Index, KeptDiag, Key};
use std::alloc::Global;

/// The bytes of the file for an index. They can be read again where each recorded answer is of the
/// kind of its question.
#[tactic(auto, unfolding(crate::specs::ModuleFile::spelling, crate::specs::ModuleFile::file_around))]
pub fn encode(alloc: Global, index: &Index) -> Result<Vec<u8>, NoMemory>
    ensures spelled { IfOk result (λ bytes. bytes.items ≡ spelling index.now) }
    ensures formed { IfOk result (λ bytes. AllByRecursion IsAnswered index.now.records → IsWellFormed index.now) }
{
    let mut contents = Vec::new(alloc);
    put_index(&mut contents, index)?;
    let mut file = Vec::new(alloc);
    put_head(&mut file, &contents)?;
    file.extend_from_slice(&contents)?;
    Ok(file)
}

/// The length of the index of a file of this size, in bytes, that begins with this head, which is the
/// first 56 bytes of the file.
///
/// OtherVersion comes where the file is long enough and its head is that of a module file of another
/// version, Damaged where another check of the head fails; NoMemory doesn't come.
pub fn index_len(head: &[u8], size: u64) -> Result<u64, FileFault>
    ensures { result ≡ index_len_of head.now size }
{
    index_len_in(head, size)
}

/// What a file of this size says, by its head and the bytes behind it.
///
/// A head that [`index_len`] refuses is refused for the same reason. Damaged comes too where these are
/// not the bytes of [`encode`] for any index.
pub fn read_file(alloc: Global, size: u64, head: &[u8], index: &[u8]) -> Result<Index, FileFault>
    ensures read { IfOk result (λ i. (head.now ++ index.now ≡ spelling i) × (size ≡ length (spelling i)) × IsWellFormed i) }
    ensures given_back { (i : Contained) → IsWellFormed i → head.now ++ index.now ≡ spelling i → length head.now ≡ 56 → size ≡ length (spelling i) → MatchResult result (λ j. j ≡ i) (λ fault. fault ≡ NoRoom) }
    ensures head { IfErr (index_len_of head.now size) (λ fault. result ≡ Err fault) }
    ensures other_version { (n : ℕ) → result ≡ Err (IsOtherVersion n) → index_len_of head.now size ≡ Err (IsOtherVersion n) }
{
    read_sealed(alloc, size, head, index)
}

/// The name of the file for a key in a cache: 64 lower-case hexadecimal digits and `.cmod`.
#[tactic(auto, unfolding(crate::specs::ModuleFile::file_name_of))]
pub fn file_name(alloc: Global, key: &Key) -> Result<String, NoMemory>
    ensures { IfOk result (λ name. string_bytes name ≡ file_name_of key.now) }
{
    let mut bytes = Vec::new(alloc);
    key.put(&mut bytes)?;
    let digest = seal(&bytes);
    let mut name = hex::encode(alloc, digest.as_slice())?;
    name.push_str(".cmod")?;
    Ok(name)
}

/// The bytes of a file give the index, and a strict front of a file is no file: this call does nothing,
/// and what it ensures are laws of the definitions.
pub fn a_file_says_one_thing()
    ensures injective { (i j : Contained) → IsWellFormed i → IsWellFormed j → spelling i ≡ spelling j → i ≡ j }
    ensures front { (i j : Contained) (n : ℕ) → IsWellFormed i → IsWellFormed j → n < length (spelling i) → take n (spelling i) ≡ spelling j → ⊥ }
{}
