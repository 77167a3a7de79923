//! What has a form in module files, and lists of it.

ghost use Rattle.std.specs.Prelude.{◌≡◌, ◌++◌, ℕ, List as Seq, Option as Maybe, Some, None, IfOk, IfErr, OnOk};
ghost use Rattle.std.specs.List.{AllByRecursion};
ghost use Rattle.cm_wire.specs.Unread.{Unread};
ghost use Rattle.module_file.specs.declared.fault.PartFault.TheVariants.{Damaged as IsDamaged};
ghost use Rattle.module_file.specs.ModuleFile.{spell_list, IsListOf};
ghost use Rattle.module_file.specs.Reading.{read_list, pass_u8 as passed_u8, pass_u64 as passed_u64, pass_bytes as passed_bytes};

use crate::fault::PartFault;
use cm_core::{List, NoMemory};
use cm_wire::{Reader, put_u64};
use std::alloc::Global;

/// A value that module files have a spelling for.
pub trait Form: Drop {
    // Its bytes.
    ghost spell: { Self → Seq ℕ };

    // It can be spelled so that reading gives it back.
    ghost fits: { Self → Type 0 };

    // What a value needs beyond its type to fit.
    ghost sure: { Self → Type 0 } = { λ _. Unit {0} };

    // How it is read.
    ghost read_of: { Unread → Maybe (Self × Unread) };

    /// Puts the spelling at the end of a buffer.
    fn put(&self, out: &mut Vec<u8>) -> Result<(), NoMemory>
        ensures put { OnOk result (out.new.items ≡ out.old.items ++ spell self.now) }
        ensures fits { OnOk result (sure self.now → fits self.now) };

    /// Reads the value that is spelled next.
    fn read_next(alloc: Global, reader: &mut Reader) -> Result<Self, PartFault>
        ensures read { IfOk result (λ value. read_of reader.old ≡ Some (value, reader.new)) }
        ensures refused { IfErr result (λ fault. fault ≡ IsDamaged → read_of reader.old ≡ None) };
}

/// Puts a list: its count, and its items.
pub fn put_list<T: Form>(out: &mut Vec<u8>, items: &[T]) -> Result<(), NoMemory>
    ensures put { OnOk result (out.new.items ≡ out.old.items ++ spell_list T.spell items.now) }
    ensures fits { OnOk result (AllByRecursion T.sure items.now → IsListOf T.fits items.now) }
{
    put_u64(out, items.len() as u64)?;
    for item in items {
        item.put(out)?;
    }
    Ok(())
}

/// Reads the list that is spelled next.
#[tactic(auto, using(crate::proofs::Lists::front_first, crate::proofs::Lists::front_step, crate::proofs::Lists::front_none), unfolding(crate::specs::Reading::read_list))]
pub fn read_list_of<T: Form>(alloc: Global, reader: &mut Reader) -> Result<List<T>, PartFault>
    ensures read { IfOk result (λ items. read_list T.read_of reader.old ≡ Some (items, reader.new)) }
    ensures refused { IfErr result (λ fault. fault ≡ IsDamaged → read_list T.read_of reader.old ≡ None) }
{
    let count = reader.u64()?;
    let mut items = List::new(alloc);
    for _at in 0..count {
        items.push(T::read_next(alloc, reader)?)?;
    }
    Ok(items)
}

/// Reads a byte that must be `wanted`.
#[tactic(auto, unfolding(crate::specs::Reading::pass_u8))]
pub fn pass_u8(reader: &mut Reader, wanted: u8) -> Result<(), PartFault>
    ensures read { OnOk result (passed_u8 wanted reader.old ≡ Some reader.new) }
    ensures refused { IfErr result (λ fault. fault ≡ IsDamaged → passed_u8 wanted reader.old ≡ None) }
{
    if reader.u8()? != wanted {
        return Err(PartFault::Damaged);
    }
    Ok(())
}

/// Reads a number of eight bytes that must be `wanted`.
#[tactic(auto, unfolding(crate::specs::Reading::pass_u64))]
pub fn pass_u64(reader: &mut Reader, wanted: u64) -> Result<(), PartFault>
    ensures read { OnOk result (passed_u64 wanted reader.old ≡ Some reader.new) }
    ensures refused { IfErr result (λ fault. fault ≡ IsDamaged → passed_u64 wanted reader.old ≡ None) }
{
    if reader.u64()? != wanted {
        return Err(PartFault::Damaged);
    }
    Ok(())
}

/// Reads these bytes.
pub fn pass_bytes(reader: &mut Reader, wanted: &[u8]) -> Result<(), PartFault>
    ensures read { OnOk result (passed_bytes wanted.now reader.old ≡ Some reader.new) }
    ensures refused { IfErr result (λ fault. fault ≡ IsDamaged → passed_bytes wanted.now reader.old ≡ None) }
{
    for byte in wanted {
        pass_u8(reader, *byte)?;
    }
    Ok(())
}
