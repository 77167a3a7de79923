use crate::{Answer, CacheEntry, CallAnswer, CallKind, FileAnswer, Question, Record};
use cm_core::{List, NoMemory, PathFault, PathText, Str};
use std::alloc::Global;
use std::test::Fail;

fn bytes(alloc: Global) -> Result<List<u8>, NoMemory> {
    Ok(List::from_vec(Vec::from_slice(alloc, b"bytes")?))
}

fn record(alloc: Global) -> Result<Record, PathFault> {
    let question = Question::Read(PathText::read(alloc, "a.h")?);
    let answer = Answer::Bytes(bytes(alloc)?);
    let record = Record { question, answer };
    Ok(record.copy(alloc)?)
}

fn file_answer(alloc: Global) -> Result<FileAnswer, NoMemory> {
    FileAnswer::Bytes(bytes(alloc)?).copy(alloc)
}

fn put(alloc: Global) -> Result<CacheEntry, NoMemory> {
    let name = Str::read(alloc, "name")?;
    let entry = CacheEntry {
        call: CallKind::Replace(name, bytes(alloc)?),
        answer: CallAnswer::Done,
    };
    entry.copy(alloc)
}

fn part(alloc: Global) -> Result<CacheEntry, NoMemory> {
    let name = Str::read(alloc, "name")?;
    let entry = CacheEntry {
        call: CallKind::ReadAt(name, 1, 2),
        answer: CallAnswer::Read(Some(bytes(alloc)?)),
    };
    entry.copy(alloc)
}

fn is_read(record: &Record) -> bool {
    match (&record.question, &record.answer) {
        (Question::Read(path), Answer::Bytes(bytes)) => path.is("a.h") && bytes.len() == 5,
        _ => false,
    }
}

fn has_bytes(answer: &FileAnswer) -> bool {
    match answer {
        FileAnswer::Bytes(bytes) => bytes.len() == 5,
        _ => false,
    }
}

fn is_put(entry: &CacheEntry) -> bool {
    match &entry.call {
        CallKind::Replace(name, bytes) => name.is("name") && bytes.len() == 5,
        _ => false,
    }
}

fn has_part(entry: &CacheEntry) -> bool {
    match &entry.answer {
        CallAnswer::Read(part) => part.is_some(),
        _ => false,
    }
}

/// Each of these copies what it is made of.
#[test]
fn copies(rt: HostRuntime) -> Result<(), Fail> {
    let alloc = rt.alloc();
    assert!(rt; is_read(&record(alloc)?));
    assert!(rt; has_bytes(&file_answer(alloc)?));
    assert!(rt; is_put(&put(alloc)?));
    assert!(rt; has_part(&part(alloc)?));
    Ok(())
}
