//! Recorded questions in module files.

ghost use Rattle.std.specs.Prelude.{◌≡◌, ◌++◌, Some, None, IfOk, IfErr, OnOk};
ghost use Rattle.module_file.specs.declared.fault.PartFault.TheVariants.{Damaged as IsDamaged};
ghost use Rattle.module_file.specs.ModuleFile.{spell_record, spell_file_answer, spell_listing, IsRecord, IsAnswered, IsFileAnswer, IsListing, IsForFile, IsForFolder};
ghost use Rattle.module_file.specs.Reading.{read_record, read_file_answer, read_path, read_list, both, seen_as, file_record_of, listing_of};

use crate::fault::PartFault;
use crate::form::{Form, put_list, read_list_of};
use cm_core::{List, NoMemory, PathText};
use cm_outside::{Answer, Question, Record};
use cm_wire::{Reader, put_bytes, put_u8, put_u64};
use std::alloc::Global;

impl Form for Record {
    ghost spell = { spell_record };

    ghost fits = { IsRecord };

    ghost sure = { IsAnswered };

    ghost read_of = { read_record };

    #[tactic(auto, unfolding(crate::specs::ModuleFile::spell_record))]
    fn put(&self, out: &mut Vec<u8>) -> Result<(), NoMemory> {
        match &self.question {
            Question::Read(path) => {
                put_u8(out, 0)?;
                path.put(out)?;
                put_file_answer(out, &self.answer)
            }
            Question::List(folder) => {
                put_u8(out, 1)?;
                folder.put(out)?;
                put_listing(out, &self.answer)
            }
        }
    }

    #[tactic(auto, unfolding(crate::specs::Reading::read_record))]
    fn read_next(alloc: Global, reader: &mut Reader) -> Result<Record, PartFault> {
        match reader.u8()? {
            0 => read_file_record(alloc, reader),
            1 => read_listing(alloc, reader),
            _ => Err(PartFault::Damaged),
        }
    }
}

/// Puts an answer to a question for a file; for another answer there is nothing to put.
fn put_file_answer(out: &mut Vec<u8>, answer: &Answer) -> Result<(), NoMemory>
    ensures put { OnOk result (out.new.items ≡ out.old.items ++ spell_file_answer answer.now) }
    ensures fits { OnOk result (IsForFile answer.now → IsFileAnswer answer.now) }
{
    match answer {
        Answer::Absent => put_u8(out, 0),
        Answer::Bytes(bytes) => {
            put_u8(out, 1)?;
            put_bytes(out, bytes.items())
        }
        Answer::TooLarge(size) => {
            put_u8(out, 2)?;
            put_u64(out, *size)
        }
        Answer::Paths(_) => Ok(()),
    }
}

/// Puts an answer to a question for the headers of a folder; for another answer there is nothing to put.
fn put_listing(out: &mut Vec<u8>, answer: &Answer) -> Result<(), NoMemory>
    ensures put { OnOk result (out.new.items ≡ out.old.items ++ spell_listing answer.now) }
    ensures fits { OnOk result (IsForFolder answer.now → IsListing answer.now) }
{
    match answer {
        Answer::Paths(paths) => put_list(out, paths.items()),
        Answer::Absent | Answer::Bytes(_) | Answer::TooLarge(_) => Ok(()),
    }
}

/// Reads what follows the first byte of a question for a file.
fn read_file_record(alloc: Global, reader: &mut Reader) -> Result<Record, PartFault>
    ensures read { IfOk result (λ r. seen_as file_record_of (both read_path read_file_answer) reader.old ≡ Some (r, reader.new)) }
    ensures refused { IfErr result (λ fault. fault ≡ IsDamaged → seen_as file_record_of (both read_path read_file_answer) reader.old ≡ None) }
{
    let path = PathText::read_next(alloc, reader)?;
    let answer = file_answer(alloc, reader)?;
    Ok(Record {
        question: Question::Read(path),
        answer,
    })
}

/// Reads an answer to a question for a file.
#[tactic(auto, unfolding(crate::specs::Reading::read_file_answer))]
fn file_answer(alloc: Global, reader: &mut Reader) -> Result<Answer, PartFault>
    ensures read { IfOk result (λ a. read_file_answer reader.old ≡ Some (a, reader.new)) }
    ensures refused { IfErr result (λ fault. fault ≡ IsDamaged → read_file_answer reader.old ≡ None) }
{
    match reader.u8()? {
        0 => Ok(Answer::Absent),
        1 => Ok(Answer::Bytes(List::from_vec(reader.bytes()?.to_vec(alloc)?))),
        2 => Ok(Answer::TooLarge(reader.u64()?)),
        _ => Err(PartFault::Damaged),
    }
}

/// Reads what follows the first byte of a question for the headers of a folder.
fn read_listing(alloc: Global, reader: &mut Reader) -> Result<Record, PartFault>
    ensures read { IfOk result (λ r. seen_as listing_of (both read_path (read_list read_path)) reader.old ≡ Some (r, reader.new)) }
    ensures refused { IfErr result (λ fault. fault ≡ IsDamaged → seen_as listing_of (both read_path (read_list read_path)) reader.old ≡ None) }
{
    let folder = PathText::read_next(alloc, reader)?;
    let paths = read_list_of(alloc, reader)?;
    Ok(Record {
        question: Question::List(folder),
        answer: Answer::Paths(paths),
    })
}
