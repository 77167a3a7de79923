use crate::{Cache, CacheFault, Images, MemCache, SureCache};
use cm_core::List;
use std::process::Abort;
use std::test::Fail;

/// Takes any file for an image.
struct AnyFile;

impl Images for AnyFile {
    ghost is_image = { λ _. Unit {0} };

    ghost is_true = { λ _. Unit {0} };

    ghost is_sealed = { λ _. Unit {0} };

    ghost is_piece = { λ _ _ _. Unit {0} };

    ghost image_is_true = { λ _ _. tt };

    ghost front_is_true = { λ _ _ _ _. tt };

    ghost piece_is_true = { λ _ _ _ _ _ _ _ _ _ _ _ _ _. tt };
}

/// The files, in the order in which they are put there.
const PUT: &[(&str, &[u8])] = &[
    ("b", b"first"),
    ("a.mod", b"0123456789"),
    ("", b""),
    ("ab", b"\xff\n"),
    ("b", b"last"),
];

/// Names with the sizes of their files, where there is one.
const SIZES: &[(&str, Option<u64>)] = &[
    ("b", Some(4)),
    ("a.mod", Some(10)),
    ("", Some(0)),
    ("a", None),
    ("B", None),
];

/// Names, where a part begins and its length, with its bytes, where there is a file.
const PARTS: &[(&str, u64, u64, Option<&[u8]>)] = &[
    ("a.mod", 0, 10, Some(b"0123456789")),
    ("a.mod", 3, 4, Some(b"3456")),
    ("a.mod", 8, 4, Some(b"89")),
    ("a.mod", 10, 1, Some(b"")),
    ("a.mod", 11, u64::MAX, Some(b"")),
    ("a.mod", u64::MAX, 1, Some(b"")),
    ("a.mod", 0, u64::MAX, Some(b"0123456789")),
    ("a.mod", 4, 0, Some(b"")),
    ("b", 1, 2, Some(b"as")),
    ("a", 0, 1, None),
];

/// How many bytes these parts have.
const TAKEN: u64 = 28;

fn put_files<C: Cache>(cache: &mut C) -> Result<(), Fail> {
    for (name, bytes) in PUT.iter().copied() {
        cache.replace(name, bytes)?;
    }
    Ok(())
}

fn check_sizes<C: Cache, A: Abort>(rt: &A, cache: &mut C) -> Result<(), Fail> {
    for (name, size) in SIZES.iter().copied() {
        assert_eq!(rt; cache.size(name)?, size, "{name}");
    }
    Ok(())
}

fn bytes_of(part: &Option<Vec<u8>>) -> Option<&[u8]> {
    match part {
        None => None,
        Some(bytes) => Some(bytes.as_slice()),
    }
}

fn check_parts<C: Cache, A: Abort>(rt: &A, cache: &mut C) -> Result<(), Fail> {
    for (name, at, len, wanted) in PARTS.iter().copied() {
        let part = cache.read_at(name, at, len)?;
        assert!(rt; bytes_of(&part) == wanted, "{name}");
    }
    Ok(())
}

fn check_names<C: Cache, A: Abort>(rt: &A, cache: &mut C, wanted: &[&str]) -> Result<(), Fail> {
    let names = cache.names()?;
    assert_eq!(rt; names.len(), wanted.len());
    for (name, text) in names.iter().zip(wanted) {
        assert_eq!(rt; name.text(), *text);
    }
    Ok(())
}

fn check_files<C: Cache, A: Abort>(rt: &A, cache: &mut C) -> Result<(), Fail> {
    put_files(cache)?;
    check_sizes(rt, cache)?;
    check_parts(rt, cache)?;
    check_names(rt, cache, &["", "a.mod", "ab", "b"])?;
    cache.remove("absent")?;
    cache.remove("ab")?;
    check_names(rt, cache, &["", "a.mod", "b"])
}

#[test]
fn sure_cache_keeps_files(rt: HostRuntime) -> Result<(), Fail> {
    let mut cache = SureCache::<AnyFile>::new(rt.alloc());
    check_files(&rt, &mut cache)?;
    assert_eq!(rt; cache.taken(), TAKEN);
    Ok(())
}

#[test]
fn mem_cache_keeps_files(rt: HostRuntime) -> Result<(), Fail> {
    let mut cache = MemCache::<AnyFile>::new(rt.alloc(), List::new(rt.alloc()));
    check_files(&rt, &mut cache)?;
    assert_eq!(rt; cache.taken(), TAKEN);
    assert_eq!(rt; cache.calls(), 24);
    Ok(())
}

#[test]
fn file_is_set_in_sure_cache(rt: HostRuntime) -> Result<(), Fail> {
    let mut cache = SureCache::<AnyFile>::new(rt.alloc());
    cache.set("a", Some(b"set".as_slice()))?;
    assert!(rt; cache.file("a") == Some(b"set".as_slice()));
    cache.set("a", None)?;
    assert!(rt; cache.file("a").is_none());
    Ok(())
}

#[test]
fn file_is_set_in_mem_cache(rt: HostRuntime) -> Result<(), Fail> {
    let mut cache = MemCache::<AnyFile>::new(rt.alloc(), List::new(rt.alloc()));
    cache.set("a", Some(b"set".as_slice()))?;
    assert!(rt; cache.file("a") == Some(b"set".as_slice()));
    cache.set("a", None)?;
    assert!(rt; cache.file("a").is_none());
    Ok(())
}

/// The calls of a cache by number, and whether they fail.
const CALLS: &[(u64, bool)] = &[(1, false), (2, true), (3, true), (4, false)];

#[test]
fn cache_calls_fail_where_told(rt: HostRuntime) -> Result<(), Fail> {
    let fails = List::from_vec(Vec::from_slice(rt.alloc(), &[2, 3, 0])?);
    let mut cache = MemCache::<AnyFile>::new(rt.alloc(), fails);
    for (call, fails) in CALLS.iter().copied() {
        assert_eq!(rt; matches!(cache.size("a"), Err(CacheFault::Failed)), fails);
        assert_eq!(rt; cache.calls(), call);
    }
    Ok(())
}
