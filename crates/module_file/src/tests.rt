use super::*;
use cm_core::{List, PathText, Str};
use cm_outside::{Answer, Question, Record};
use std::test::Fail;

// `CMOD`, version 0, the length of the file (164) and that of the index (108).
const FRONT: [u8; 24] = [
    b'C', b'M', b'O', b'D', 0, 0, 0, 0, 0, 0, 0, 0, 0, 0, 0, 164, 0, 0, 0, 0, 0, 0, 0, 108,
];

// Of `sha256sum`, over the front and the index.
const SEAL: [u8; 32] = [
    0xc8, 0xfe, 0x97, 0xf0, 0x4c, 0x28, 0x61, 0x22, 0xca, 0x11, 0xe8, 0xe1, 0x28, 0x98, 0xaf, 0x2a,
    0xc1, 0x7d, 0xc3, 0x1f, 0x1b, 0x16, 0x23, 0xe3, 0x25, 0xff, 0xf2, 0xa2, 0x7a, 0xc7, 0x36, 0xf2,
];

// The name of the key, its two lists, no definitions, no use check; no records, no needs; one
// submodule with its name, available, without imports, rows and macros; no diagnostics, no pieces.
const INDEX: [u8; 108] = [
    0, 0, 0, 0, 0, 0, 0, 1, b'M', 0, 0, 0, 0, 0, 0, 0, 0, 0, 0, 0, 0, 0, 0, 0, 0, 0, 0, 0, 0, 0, 0,
    0, 0, 0, 0, 0, 0, 0, 0, 0, 0, 0, 0, 0, 0, 0, 0, 0, 0, 0, 0, 0, 0, 0, 0, 0, 0, 1, 0, 0, 0, 0, 0,
    0, 0, 1, b'M', 1, 0, 0, 0, 0, 0, 0, 0, 0, 0, 0, 0, 0, 0, 0, 0, 0, 0, 0, 0, 0, 0, 0, 0, 0, 0, 0,
    0, 0, 0, 0, 0, 0, 0, 0, 0, 0, 0, 0, 0, 0,
];

fn key(alloc: Global) -> Result<Key, Fail> {
    Ok(Key {
        name: Str::read(alloc, "M")?,
        includes: List::new(alloc),
        maps: List::new(alloc),
    })
}

// Of `sha256sum`, over the front and the index of the file for `full_index`, made by another program.
const SEAL_OF_FULL: [u8; 32] = [
    0x44, 0x7f, 0xbc, 0x39, 0x5a, 0x0e, 0x5e, 0x3b, 0x94, 0xda, 0x60, 0xcd, 0xd4, 0xf6, 0xcc, 0xd5,
    0xee, 0xe3, 0x6b, 0x57, 0xec, 0xdf, 0x01, 0x70, 0x67, 0xdb, 0x3d, 0x23, 0x5d, 0x0f, 0xe2, 0x9d,
];

fn paths_of(alloc: Global, path: &str) -> Result<List<PathText>, Fail> {
    let mut paths = List::new(alloc);
    paths.push(PathText::read(alloc, path)?)?;
    Ok(paths)
}

fn file_record(alloc: Global, path: &str, answer: Answer) -> Result<Record, Fail> {
    Ok(Record {
        question: Question::Read(PathText::read(alloc, path)?),
        answer,
    })
}

// One record for each kind of answer.
fn records_of(alloc: Global) -> Result<List<Record>, Fail> {
    let mut bytes = List::new(alloc);
    bytes.push(b'x')?;
    let mut records = List::new(alloc);
    records.push(file_record(alloc, "a/m.map", Answer::Bytes(bytes))?)?;
    records.push(file_record(alloc, "inc/m.h", Answer::Absent)?)?;
    records.push(file_record(alloc, "a/m.h", Answer::TooLarge(20_000_000))?)?;
    records.push(Record {
        question: Question::List(PathText::read(alloc, "a")?),
        answer: Answer::Paths(paths_of(alloc, "a/m.h")?),
    })?;
    Ok(records)
}

fn declaration(alloc: Global, name: &str, column: u32) -> Result<Declaration, Fail> {
    Ok(Declaration {
        name: Str::read(alloc, name)?,
        path: PathText::read(alloc, "a/m.h")?,
        line: 3,
        column,
    })
}

// One with texts, of the header, and one without texts, of another file.
fn diags_of(alloc: Global) -> Result<List<KeptDiag>, Fail> {
    let mut diags = List::new(alloc);
    diags.push(KeptDiag {
        number: 3,
        path: PathText::read(alloc, "a/m.h")?,
        line: 1,
        column: 1,
        texts: texts_of(alloc, "a/m.h", "17")?,
    })?;
    diags.push(KeptDiag {
        number: 10,
        path: PathText::read(alloc, "a/n.h")?,
        line: 70_000,
        column: 300,
        texts: List::new(alloc),
    })?;
    Ok(diags)
}

fn texts_of(alloc: Global, first: &str, second: &str) -> Result<List<Str>, Fail> {
    let mut texts = List::new(alloc);
    texts.push(Str::read(alloc, first)?)?;
    texts.push(Str::read(alloc, second)?)?;
    Ok(texts)
}

fn full_index(alloc: Global) -> Result<Index, Fail> {
    let mut declarations = List::new(alloc);
    declarations.push(declaration(alloc, "x", 5)?)?;
    declarations.push(declaration(alloc, "y", u32::MAX)?)?;
    Ok(Index {
        key: Key {
            name: Str::read(alloc, "M")?,
            includes: paths_of(alloc, "inc")?,
            maps: paths_of(alloc, "a/m.map")?,
        },
        records: records_of(alloc)?,
        needs: texts_of(alloc, "M", "N")?,
        sub: Str::read(alloc, "M")?,
        imports: texts_of(alloc, "N", "N.A")?,
        declarations,
        diags: diags_of(alloc)?,
    })
}

fn read_whole(alloc: Global, file: &[u8]) -> Result<Index, FileFault> {
    let end = if file.len() < 56 { file.len() } else { 56 };
    read_file(alloc, file.len() as u64, &file[..end], &file[end..])
}

#[test]
fn a_file_by_hand_is_read(rt: HostRuntime) -> Result<(), Fail> {
    let mut file = Vec::new(rt.alloc());
    file.extend_from_slice(&FRONT)?;
    file.extend_from_slice(&SEAL)?;
    assert_eq!(rt; index_len(&file, 164), Ok(108));
    file.extend_from_slice(&INDEX)?;
    let index = read_whole(rt.alloc(), &file)?;
    assert!(rt; index.key.is(&key(rt.alloc())?));
    assert_eq!(rt; encode(rt.alloc(), &index)?.as_slice(), file.as_slice());
    assert_eq!(rt;
        file_name(rt.alloc(), &index.key)?.as_str(),
        "32d41eb09f8e17b808da05955ba289c22c53a310b9b05d9105fcc48a7b056fc0.cmod"
    );
    Ok(())
}

#[test]
fn each_part_is_spelled(rt: HostRuntime) -> Result<(), Fail> {
    let index = full_index(rt.alloc())?;
    let file = encode(rt.alloc(), &index)?;
    assert_eq!(rt; file.len(), 542);
    assert_eq!(rt; &file[24..56], SEAL_OF_FULL.as_slice());
    assert_eq!(rt;
        file_name(rt.alloc(), &index.key)?.as_str(),
        "d31c07fa3646d1fd2191b1f47242e6d846e1efb1ba64790d4ccb2da11a5a064a.cmod"
    );
    Ok(())
}

fn are_texts(texts: &List<Str>, first: &str, second: &str) -> bool {
    match texts.items() {
        [one, other] => one.is(first) && other.is(second),
        _ => false,
    }
}

#[test]
fn needs_and_imports_are_read_back(rt: HostRuntime) -> Result<(), Fail> {
    let file = encode(rt.alloc(), &full_index(rt.alloc())?)?;
    let index = read_whole(rt.alloc(), &file)?;
    assert!(rt; are_texts(&index.needs, "M", "N"));
    assert!(rt; are_texts(&index.imports, "N", "N.A"));
    Ok(())
}

#[test]
fn diagnostics_and_columns_are_read_back(rt: HostRuntime) -> Result<(), Fail> {
    let file = encode(rt.alloc(), &full_index(rt.alloc())?)?;
    let index = read_whole(rt.alloc(), &file)?;
    let columns = match index.declarations.items() {
        [x, y] => x.column == 5 && y.column == u32::MAX,
        _ => false,
    };
    assert!(rt; columns);
    let diags = match index.diags.items() {
        [first, second] => {
            first.number == 3
                && is_at(first, "a/m.h", 1, 1)
                && are_texts(&first.texts, "a/m.h", "17")
                && second.number == 10
                && is_at(second, "a/n.h", 70_000, 300)
                && second.texts.is_empty()
        }
        _ => false,
    };
    assert!(rt; diags);
    Ok(())
}

fn is_at(diag: &KeptDiag, path: &str, line: u32, column: u32) -> bool {
    diag.path.is(path) && diag.line == line && diag.column == column
}

#[test]
fn the_first_check_that_fails_is_told(rt: HostRuntime) -> Result<(), Fail> {
    let mut head = Vec::new(rt.alloc());
    head.extend_from_slice(&FRONT)?;
    head.extend_from_slice(&SEAL)?;
    assert!(rt; head.len() == 56);
    head[7] = 1;
    assert_eq!(rt; index_len(&head, 164), Err(FileFault::OtherVersion(1)));
    assert_eq!(rt; index_len(&head, 55), Err(FileFault::Damaged));
    assert_eq!(rt; index_len(&head[..55], 164), Err(FileFault::Damaged));
    head[0] = b'c';
    assert_eq!(rt; index_len(&head, 164), Err(FileFault::Damaged));
    Ok(())
}

#[test]
fn a_changed_file_is_refused(rt: HostRuntime) -> Result<(), Fail> {
    let mut file = encode(rt.alloc(), &full_index(rt.alloc())?)?;
    let again = encode(rt.alloc(), &read_whole(rt.alloc(), &file)?)?;
    assert_eq!(rt; again.as_slice(), file.as_slice());
    for len in 0..file.len() {
        assert!(rt; read_whole(rt.alloc(), &file[..len]).is_err());
    }
    for at in 0..again.len() {
        for bit in [1, 2, 4, 8, 16, 32, 64, 128] {
            assert!(rt; at < file.len());
            file[at] ^= bit;
            assert!(rt; read_whole(rt.alloc(), &file).is_err());
            assert!(rt; at < file.len());
            file[at] ^= bit;
        }
    }
    Ok(())
}
