use crate::{FileAnswer, MemSink, MemTree, Sink, SureSink, SureTree, Tree, TreeFault, write_all};
use cm_core::{List, PathText};
use std::alloc::Global;
use std::process::Abort;
use std::test::Fail;

/// The files that the trees hold. A path stands twice, and the last bytes count.
const FILES: &[(&str, &[u8])] = &[
    ("b.h", b"first"),
    ("a/z.h", b""),
    ("a/b/c.h", b"c"),
    ("ab/d.h", b"d"),
    ("a/note.txt", b"\xff\n"),
    ("a.h", b"a"),
    ("b.h", b"last"),
];

/// Paths with their bytes, where there is a file.
const READS: &[(&str, Option<&[u8]>)] = &[
    ("b.h", Some(b"last")),
    ("a/z.h", Some(b"")),
    ("a/note.txt", Some(b"\xff\n")),
    ("./a//b/../z.h", Some(b"")),
    ("a", None),
    ("z.h", None),
    ("a/b/c.hh", None),
];

/// Folders with the headers in them, in byte order.
const LISTS: &[(&str, &[&str])] = &[
    (".", &["a.h", "a/b/c.h", "a/z.h", "ab/d.h", "b.h"]),
    ("a", &["a/b/c.h", "a/z.h"]),
    ("a/b", &["a/b/c.h"]),
    ("b.h", &[]),
    ("c", &[]),
];

fn files_of(alloc: Global, files: &[(&str, &[u8])]) -> Result<List<(PathText, List<u8>)>, Fail> {
    let mut list = List::new(alloc);
    for (path, bytes) in files.iter().copied() {
        let bytes = List::from_vec(Vec::from_slice(alloc, bytes)?);
        list.push((PathText::read(alloc, path)?, bytes))?;
    }
    Ok(list)
}

fn numbers(alloc: Global, numbers: &[u64]) -> Result<List<u64>, Fail> {
    Ok(List::from_vec(Vec::from_slice(alloc, numbers)?))
}

/// The bytes of an answer, where there is a file.
fn bytes_of(answer: &FileAnswer) -> Option<&[u8]> {
    match answer {
        FileAnswer::Bytes(bytes) => Some(bytes.items()),
        FileAnswer::Absent | FileAnswer::TooLarge(_) => None,
    }
}

fn check_reads<T: Tree, A: Abort>(rt: &A, alloc: Global, tree: &mut T) -> Result<(), Fail> {
    for (path, wanted) in READS.iter().copied() {
        let answer = tree.read(&PathText::read(alloc, path)?)?;
        assert!(rt; bytes_of(&answer) == wanted, "{path}");
    }
    Ok(())
}

fn check_lists<T: Tree, A: Abort>(rt: &A, alloc: Global, tree: &mut T) -> Result<(), Fail> {
    for (folder, wanted) in LISTS.iter().copied() {
        let paths = tree.list(&PathText::read(alloc, folder)?)?;
        let right = paths
            .iter()
            .map(|path| path.text())
            .eq(wanted.iter().copied());
        assert!(rt; right, "{folder}");
    }
    Ok(())
}

#[test]
fn failing_tree_answers(rt: HostRuntime) -> Result<(), Fail> {
    let alloc = rt.alloc();
    let mut tree = MemTree::new(alloc, files_of(alloc, FILES)?, List::new(alloc));
    check_reads(&rt, alloc, &mut tree)?;
    check_lists(&rt, alloc, &mut tree)
}

#[test]
fn sure_tree_answers(rt: HostRuntime) -> Result<(), Fail> {
    let alloc = rt.alloc();
    let mut tree = SureTree::new(alloc, files_of(alloc, FILES)?);
    check_reads(&rt, alloc, &mut tree)?;
    check_lists(&rt, alloc, &mut tree)
}

/// A file of 16,777,216 bytes is read, and one of a byte more is not.
const SIZES: &[(usize, bool)] = &[(16_777_216, false), (16_777_217, true)];

#[test]
fn largest_file(rt: HostRuntime) -> Result<(), Fail> {
    let alloc = rt.alloc();
    let path = PathText::read(alloc, "big")?;
    for (size, too_large) in SIZES.iter().copied() {
        let mut bytes = Vec::new(alloc);
        bytes.resize(size, b' ')?;
        let mut tree = MemTree::new(alloc, List::new(alloc), List::new(alloc));
        tree.set(&path, &bytes)?;
        assert_eq!(rt;
            matches!(tree.read(&path)?, FileAnswer::TooLarge(_)),
            too_large
        );
    }
    Ok(())
}

#[test]
fn file_is_set_and_removed(rt: HostRuntime) -> Result<(), Fail> {
    let alloc = rt.alloc();
    let path = PathText::read(alloc, "b.h")?;
    let mut tree = MemTree::new(alloc, files_of(alloc, FILES)?, List::new(alloc));
    tree.set(&path, b"new")?;
    assert!(rt; bytes_of(&tree.read(&path)?) == Some(b"new".as_slice()));
    tree.unset(&path);
    assert!(rt; bytes_of(&tree.read(&path)?).is_none());
    Ok(())
}

/// The calls of a tree by number, and whether they fail.
const CALLS: &[(u64, bool)] = &[(1, false), (2, true), (3, true), (4, false)];

#[test]
fn calls_fail_where_told(rt: HostRuntime) -> Result<(), Fail> {
    let alloc = rt.alloc();
    let path = PathText::read(alloc, "a.h")?;
    let mut tree = MemTree::new(alloc, List::new(alloc), numbers(alloc, &[2, 3, 0])?);
    for (call, fails) in CALLS.iter().copied() {
        assert_eq!(rt; matches!(tree.read(&path), Err(TreeFault::Failed)), fails);
        assert_eq!(rt; tree.calls(), call);
    }
    Ok(())
}

/// What is written, and how much of it is taken, where it is not refused.
const WRITES: &[(&[u8], Option<usize>)] = &[
    (b"abc", Some(2)),
    (b"x", None),
    (b"", Some(0)),
    (b"cd", Some(2)),
];

#[test]
fn failing_sink(rt: HostRuntime) -> Result<(), Fail> {
    let alloc = rt.alloc();
    let mut sink = MemSink::new(alloc, numbers(alloc, &[2])?, 2);
    for (bytes, taken) in WRITES.iter().copied() {
        assert_eq!(rt; sink.write(bytes).ok(), taken);
    }
    assert_eq!(rt; sink.bytes(), b"abcd".as_slice());
    assert_eq!(rt; sink.calls(), 4);
    Ok(())
}

#[test]
fn sure_sink(rt: HostRuntime) -> Result<(), Fail> {
    let mut sink = SureSink::new(rt.alloc());
    write_all(&mut sink, b"abc")?;
    assert_eq!(rt; sink.bytes(), b"abc".as_slice());
    Ok(())
}
