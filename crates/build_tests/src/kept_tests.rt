use build_store::{Changes, Opened, Origin, Reason, first_changed, keep_file, open, push_line};
use cm_core::{List, PathText, Str};
use cm_outside::{Answer, Cache, Images, MemCache, MemTree, Question, Record, Snapshot};
use module_file::{Index, Key, encode, file_name};
use std::alloc::Global;
use std::process::Abort;
use std::test::Fail;

/// Takes any file for an image.
struct AnyFile;

impl Images for AnyFile {
    ghost is_image = { λ _. Unit {0} };

    ghost is_true = { λ _. Unit {0} };

    ghost is_sealed = { λ _. Unit {0} };

    ghost is_piece = { λ _ _ _. Unit {0} };

    ghost image_is_true = { λ _ _. tt };

    ghost front_is_true = { λ _ _ _ _. tt };

    ghost piece_is_true = { λ _ _ _ _ _ _ _ _ _ _ _ _ _. tt };
}

type Kept = MemCache<AnyFile>;

fn key_of(alloc: Global, name: &str) -> Result<Key, Fail> {
    Ok(Key {
        name: Str::read(alloc, name)?,
        includes: List::new(alloc),
        maps: List::new(alloc),
    })
}

fn file_record(alloc: Global, path: &str, bytes: &[u8]) -> Result<Record, Fail> {
    let bytes = List::from_vec(Vec::from_slice(alloc, bytes)?);
    Ok(Record {
        question: Question::Read(PathText::read(alloc, path)?),
        answer: Answer::Bytes(bytes),
    })
}

/// One record for each kind of answer.
fn records_of(alloc: Global) -> Result<List<Record>, Fail> {
    let mut headers = List::new(alloc);
    headers.push(PathText::read(alloc, "a/m.h")?)?;
    let mut records = List::new(alloc);
    records.push(file_record(alloc, "m.map", b"x")?)?;
    records.push(Record {
        question: Question::List(PathText::read(alloc, "a")?),
        answer: Answer::Paths(headers),
    })?;
    records.push(Record {
        question: Question::Read(PathText::read(alloc, "m.h")?),
        answer: Answer::Absent,
    })?;
    records.push(file_record(alloc, "a/m.h", b"y")?)?;
    Ok(records)
}

fn index_of(alloc: Global, name: &str) -> Result<Index, Fail> {
    Ok(Index {
        key: key_of(alloc, name)?,
        records: records_of(alloc)?,
        needs: List::new(alloc),
        sub: Str::read(alloc, name)?,
        imports: List::new(alloc),
        declarations: List::new(alloc),
        diags: List::new(alloc),
    })
}

/// The numbers of the calls that fail: none where this is 0.
fn failing(alloc: Global, call: u64) -> Result<List<u64>, Fail> {
    let mut fails = List::new(alloc);
    if call > 0 {
        fails.push(call)?;
    }
    Ok(fails)
}

/// What is done to the file of the key M.
#[derive(Clone, Copy)]
enum Change {
    Nothing,
    Removed,
    Shortened,
    Turned(usize),
    OfOtherKey,
}

/// What is done to the file, the call of the cache that fails, and the line of what is then opened.
const CAUSES: &[(Change, u64, &str)] = &[
    (Change::Nothing, 0, "loaded M\n"),
    (Change::Removed, 0, "built M missing\n"),
    (Change::Nothing, 1, "built M unreadable\n"),
    (Change::Nothing, 2, "built M unreadable\n"),
    (Change::Nothing, 3, "built M unreadable\n"),
    (Change::Turned(7), 0, "built M other version\n"),
    (Change::Turned(0), 0, "built M damaged\n"),
    (Change::Turned(60), 0, "built M damaged\n"),
    (Change::Shortened, 0, "built M damaged\n"),
    (Change::OfOtherKey, 0, "built M other key\n"),
];

/// The bytes of the changed file, if it is there.
fn changed_file(alloc: Global, change: Change) -> Result<Option<Vec<u8>>, Fail> {
    let mut file = encode(alloc, &index_of(alloc, "M")?)?;
    match change {
        Change::Nothing => Ok(Some(file)),
        Change::Removed => Ok(None),
        Change::Shortened => {
            file.truncate(50);
            Ok(Some(file))
        }
        Change::Turned(at) => {
            if let Some(byte) = file.get_mut(at) {
                *byte ^= 1;
            }
            Ok(Some(file))
        }
        Change::OfOtherKey => Ok(Some(encode(alloc, &index_of(alloc, "N")?)?)),
    }
}

fn line_of(alloc: Global, opened: Opened) -> Result<String, Fail> {
    let origin = match opened {
        Opened::Sealed(_) => Origin::Loaded,
        Opened::Not(reason) => Origin::Built(reason),
    };
    let mut line = String::new(alloc);
    push_line(&mut line, "M", &origin)?;
    Ok(line)
}

#[test]
fn each_reason_has_its_cause(rt: HostRuntime) -> Result<(), Fail> {
    let alloc = rt.alloc();
    let key = key_of(alloc, "M")?;
    let name = file_name(alloc, &key)?;
    for (change, fails, wanted) in CAUSES.iter().copied() {
        let mut cache = Kept::new(alloc, failing(alloc, fails)?);
        if let Some(file) = changed_file(alloc, change)? {
            cache.set(name.as_str(), Some(&file))?;
        }
        let line = line_of(alloc, open(alloc, &mut cache, &key)?)?;
        assert_eq!(rt; line.as_str(), wanted);
    }
    Ok(())
}

#[test]
fn kept_unless_the_put_is_refused(rt: HostRuntime) -> Result<(), Fail> {
    let alloc = rt.alloc();
    let index = index_of(alloc, "M")?;
    for (fails, wanted) in [(0, "loaded M\n"), (1, "built M missing\n")] {
        let mut cache = Kept::new(alloc, failing(alloc, fails)?);
        keep_file(alloc, &mut cache, &index)?;
        let line = line_of(alloc, open(alloc, &mut cache, &index.key)?)?;
        assert_eq!(rt; line.as_str(), wanted);
    }
    Ok(())
}

/// A file that is set, the path of the first question that has another answer then, and how many
/// questions were put.
const SET: &[(&str, &[u8], &str, u64)] = &[
    ("other.h", b"x", "", 4),
    ("a/m.h", b"y", "", 4),
    ("m.map", b"z", "m.map", 1),
    ("m.map", b"", "m.map", 1),
    ("a/n.h", b"", "a", 2),
    ("m.h", b"", "m.h", 3),
    ("a/m.h", b"z", "a/m.h", 4),
];

/// The path of the first change, or an empty text where there is none and the numbers are right.
fn change_text(alloc: Global, changes: &Changes) -> Result<String, Fail> {
    match changes {
        Changes::At(path) => Ok(String::from_str(alloc, path.text())?),
        Changes::Same(numbers) if numbers.items() == [0, 1, 2, 3].as_slice() => {
            Ok(String::new(alloc))
        }
        Changes::Same(_) => Err(Fail::new("numbers")),
    }
}

/// What has changed, looked for twice in one snapshot.
fn changes_twice(alloc: Global, tree: &mut MemTree, records: &[Record]) -> Result<Changes, Fail> {
    let mut snapshot = Snapshot::new(alloc, tree);
    first_changed(alloc, &mut snapshot, records)?;
    Ok(first_changed(alloc, &mut snapshot, records)?)
}

#[test]
fn first_changed_record(rt: HostRuntime) -> Result<(), Fail> {
    let alloc = rt.alloc();
    let records = records_of(alloc)?;
    for (path, bytes, wanted, calls) in SET.iter().copied() {
        let mut tree = MemTree::new(alloc, List::new(alloc), List::new(alloc));
        tree.set(&PathText::read(alloc, "m.map")?, b"x")?;
        tree.set(&PathText::read(alloc, "a/m.h")?, b"y")?;
        tree.set(&PathText::read(alloc, path)?, bytes)?;
        let changes = changes_twice(alloc, &mut tree, records.items())?;
        assert_eq!(rt; change_text(alloc, &changes)?.as_str(), wanted);
        assert_eq!(rt; tree.calls(), calls);
    }
    Ok(())
}
