use crate::builds::{
    BUILT, ELSEWHERE, Kept, LOADED, MISSING, MODULE_FAULT, ONE_MODULE, build, empty_cache, numbers,
    set, tree_of,
};
use cm_core::{List, PathText, Str};
use cm_outside::{Cache, MemCache, MemTree};
use module_file::{Index, KeptDiag, encode, read_file};
use std::alloc::Global;
use std::process::Abort;
use std::test::Fail;

const OUTDATED: &str = "built M outdated inc/m.h\n";

const DAMAGED: &str = "built M damaged\n";

const OTHER_KEY: &str = "built M other key\n";

const OTHER_VERSION: &str = "built M other version\n";

const UNREADABLE: &str = "built M unreadable\n";

/// The name and the bytes of the one file of a cache.
fn kept_file<A: Abort>(rt: &A, alloc: Global, cache: &mut Kept) -> Result<(Str, Vec<u8>), Fail> {
    let mut names = cache.names()?;
    assert_eq!(rt; names.len(), 1);
    let Some(name) = names.pop() else {
        return Err(Fail::new("no file"));
    };
    let Some(bytes) = cache.file(name.text()) else {
        return Err(Fail::new("no bytes"));
    };
    let bytes = Vec::from_slice(alloc, bytes)?;
    Ok((name, bytes))
}

/// The kept file with the lowest bit of a byte turned.
fn turned(alloc: Global, file: &[u8], at: usize) -> Result<Vec<u8>, Fail> {
    let mut turned = Vec::from_slice(alloc, file)?;
    if let Some(byte) = turned.get_mut(at) {
        *byte ^= 1;
    }
    Ok(turned)
}

#[test]
fn every_cut_and_a_turned_bit(rt: HostRuntime) -> Result<(), Fail> {
    let alloc = rt.alloc();
    let mut tree = tree_of(alloc, ONE_MODULE)?;
    let mut cache = empty_cache(alloc);
    build(&rt, alloc, "job.txt", &mut tree, &mut cache, BUILT, MISSING)?;
    let (name, whole) = kept_file(&rt, alloc, &mut cache)?;
    for at in 0..whole.len() {
        cache.set(name.text(), Some(&whole[..at]))?;
        build(&rt, alloc, "job.txt", &mut tree, &mut cache, BUILT, DAMAGED)?;
        assert!(rt; cache.file(name.text()) == Some(whole.as_slice()));
        cache.set(name.text(), Some(&turned(alloc, &whole, at)?))?;
        // bytes 4 to 7 are the version
        let reported = if (4..8).contains(&at) {
            OTHER_VERSION
        } else {
            DAMAGED
        };
        build(
            &rt, alloc, "job.txt", &mut tree, &mut cache, BUILT, reported,
        )?;
    }
    Ok(())
}

/// What the file of a kept module says.
fn decoded(alloc: Global, file: &[u8]) -> Result<Index, Fail> {
    let (Some(head), Some(rest)) = (file.get(..56), file.get(56..)) else {
        return Err(Fail::new("no head"));
    };
    match read_file(alloc, file.len() as u64, head, rest) {
        Ok(index) => Ok(index),
        Err(_) => Err(Fail::new("no index")),
    }
}

/// The file of a kept module with a diagnostic of this number and these texts at the first place of its header, which no build
/// gives.
fn planted(alloc: Global, file: &[u8], number: u32, texts: &[&str]) -> Result<Vec<u8>, Fail> {
    let mut index = decoded(alloc, file)?;
    let mut list = List::new(alloc);
    for text in texts.iter().copied() {
        list.push(Str::read(alloc, text)?)?;
    }
    index.diags.push(KeptDiag {
        number,
        path: PathText::read(alloc, "inc/m.h")?,
        line: 1,
        column: 1,
        texts: list,
    })?;
    Ok(encode(alloc, &index)?)
}

/// The file of a kept module with another name of its submodule.
fn of_another_submodule(alloc: Global, file: &[u8]) -> Result<Vec<u8>, Fail> {
    let mut index = decoded(alloc, file)?;
    index.sub = Str::read(alloc, "N")?;
    Ok(encode(alloc, &index)?)
}

/// The file of a kept module with an import of a module that no map declares.
fn of_another_table(alloc: Global, file: &[u8]) -> Result<Vec<u8>, Fail> {
    let mut index = decoded(alloc, file)?;
    index.imports.push(Str::read(alloc, "N")?)?;
    Ok(encode(alloc, &index)?)
}

/// The file of the same module with another key.
fn of_another_key<A: Abort>(rt: &A, alloc: Global, tree: &mut MemTree) -> Result<Vec<u8>, Fail> {
    let mut other = empty_cache(alloc);
    build(rt, alloc, "third.txt", tree, &mut other, ELSEWHERE, MISSING)?;
    let (_, bytes) = kept_file(rt, alloc, &mut other)?;
    Ok(bytes)
}

/// Puts bytes in the place of the kept file, and checks the build that follows, and the next one.
fn check_put<A: Abort>(
    rt: &A,
    alloc: Global,
    tree: &mut MemTree,
    cache: &mut Kept,
    name: &str,
    bytes: &[u8],
    wanted: &str,
    reported: &str,
) -> Result<(), Fail> {
    cache.set(name, Some(bytes))?;
    build(rt, alloc, "job.txt", tree, cache, wanted, reported)?;
    build(rt, alloc, "job.txt", tree, cache, wanted, LOADED)
}

#[test]
fn files_of_other_origin(rt: HostRuntime) -> Result<(), Fail> {
    let alloc = rt.alloc();
    let mut tree = tree_of(alloc, ONE_MODULE)?;
    let mut cache = empty_cache(alloc);
    build(&rt, alloc, "job.txt", &mut tree, &mut cache, BUILT, MISSING)?;
    let (name, whole) = kept_file(&rt, alloc, &mut cache)?;
    let name = name.text();
    let other = of_another_key(&rt, alloc, &mut tree)?;
    check_put(
        &rt, alloc, &mut tree, &mut cache, name, &other, BUILT, OTHER_KEY,
    )?;
    let other = of_another_submodule(alloc, &whole)?;
    check_put(
        &rt, alloc, &mut tree, &mut cache, name, &other, BUILT, DAMAGED,
    )?;
    let other = of_another_table(alloc, &whole)?;
    check_put(
        &rt, alloc, &mut tree, &mut cache, name, &other, BUILT, DAMAGED,
    )?;
    // a file that no build gives, and that is current, is followed
    let other = planted(alloc, &whole, 5, &[])?;
    check_put(
        &rt,
        alloc,
        &mut tree,
        &mut cache,
        name,
        &other,
        MODULE_FAULT,
        LOADED,
    )?;
    // an older true file
    set(alloc, &mut tree, "inc/m.h", b"long m;\n")?;
    check_put(
        &rt,
        alloc,
        &mut tree,
        &mut cache,
        name,
        &whole,
        MODULE_FAULT,
        OUTDATED,
    )?;
    set(alloc, &mut tree, "inc/m.h", b"int m;\n")?;
    check_put(
        &rt, alloc, &mut tree, &mut cache, name, &whole, BUILT, LOADED,
    )?;
    // the same folder in other words has the same key, another folder has another
    build(
        &rt,
        alloc,
        "other.txt",
        &mut tree,
        &mut cache,
        BUILT,
        LOADED,
    )?;
    build(
        &rt,
        alloc,
        "third.txt",
        &mut tree,
        &mut cache,
        ELSEWHERE,
        MISSING,
    )?;
    assert_eq!(rt; cache.names()?.len(), 2);
    Ok(())
}

/// The number and the texts of a diagnostic that no header can have.
const OF_NO_HEADER: &[(u32, &[&str])] = &[
    (0, &[]),
    (1, &[]),
    (1, &["inc/n.h"]),
    (1, &["inc/m.h", "1"]),
    (2, &["inc/m.h"]),
    (2, &["inc/m.h", ""]),
    (2, &["inc/m.h", "+16777217"]),
    (2, &["inc/m.h", "016777217"]),
    (2, &["inc/m.h", "18446744073709551616"]),
    (2, &["inc/m.h", "16777217", ""]),
    (3, &["m.h", "0"]),
    (5, &[""]),
    (52, &["M"]),
    (110, &["m"]),
    (1_005, &[]),
];

#[test]
fn diagnostics_of_no_header(rt: HostRuntime) -> Result<(), Fail> {
    let alloc = rt.alloc();
    let mut tree = tree_of(alloc, ONE_MODULE)?;
    let mut cache = empty_cache(alloc);
    build(&rt, alloc, "job.txt", &mut tree, &mut cache, BUILT, MISSING)?;
    let (name, whole) = kept_file(&rt, alloc, &mut cache)?;
    for (number, texts) in OF_NO_HEADER.iter().copied() {
        let other = planted(alloc, &whole, number, texts)?;
        check_put(
            &rt,
            alloc,
            &mut tree,
            &mut cache,
            name.text(),
            &other,
            BUILT,
            DAMAGED,
        )?;
    }
    Ok(())
}

/// The text of a header, and the lines of its diagnostics.
const FAULTY_HEADERS: &[(&[u8], &str)] = &[
    (b"long m;\n", "error inc/m.h:1:1 E005 not built yet\n"),
    (
        b"int m;\n int /* n;\n",
        "error inc/m.h:2:6 E010 comment is not closed\nerror inc/m.h:2:2 E005 not built yet\n",
    ),
    (b"int m;\0", "error inc/m.h:1:7 E011 zero byte\n"),
    (
        b"\xff",
        "error inc/m.h:1:1 E003 file 'inc/m.h' is not UTF-8 at byte 0\n",
    ),
    (
        b"int m; long n;\n#define n\n",
        "error inc/m.h:1:8 E005 not built yet\nerror inc/m.h:2:1 E005 not built yet\n",
    ),
];

/// A module is kept with its diagnostics, which are printed alike where it is loaded.
#[test]
fn diagnostics_are_kept(rt: HostRuntime) -> Result<(), Fail> {
    let alloc = rt.alloc();
    for (header, lines) in FAULTY_HEADERS.iter().copied() {
        let mut tree = tree_of(alloc, ONE_MODULE)?;
        set(alloc, &mut tree, "inc/m.h", header)?;
        let mut cache = empty_cache(alloc);
        let wanted = format!(in alloc; "module M\n{lines}end M failed\n{BUILT}")?;
        let wanted = wanted.as_str();
        build(
            &rt, alloc, "job.txt", &mut tree, &mut cache, wanted, MISSING,
        )?;
        build(&rt, alloc, "job.txt", &mut tree, &mut cache, wanted, LOADED)?;
    }
    Ok(())
}

/// Which calls of the cache fail, and the reports of two builds. A first build asks for the size and
/// then puts the file; a second one reads the size, the head and the index.
const FAILING: &[(u64, u64, &str, &str)] = &[
    (1, 1, UNREADABLE, LOADED),
    (2, 2, MISSING, MISSING),
    (3, 3, MISSING, UNREADABLE),
    (4, 4, MISSING, UNREADABLE),
    (5, 5, MISSING, UNREADABLE),
    (1, 9, UNREADABLE, UNREADABLE),
    (2, 9, MISSING, UNREADABLE),
    (3, 9, MISSING, UNREADABLE),
    (4, 9, MISSING, UNREADABLE),
    (5, 9, MISSING, UNREADABLE),
];

#[test]
fn a_cache_that_fails(rt: HostRuntime) -> Result<(), Fail> {
    let alloc = rt.alloc();
    let mut tree = tree_of(alloc, ONE_MODULE)?;
    for (first, last, reported, again) in FAILING.iter().copied() {
        let mut cache = MemCache::new(alloc, numbers(alloc, first, last)?);
        build(
            &rt, alloc, "job.txt", &mut tree, &mut cache, BUILT, reported,
        )?;
        build(&rt, alloc, "job.txt", &mut tree, &mut cache, BUILT, again)?;
    }
    Ok(())
}

/// A tree whose module file has more than 67,108,864 bytes: each declaration of the header has the
/// header's long path in it.
fn large_tree(alloc: Global) -> Result<MemTree, Fail> {
    let mut name = String::new(alloc);
    for _ in 0..1_000 {
        name.push_str("abcdefghijklmnopqrstuvwxyz_0123456789_ABCDEFGHIJKLMNOPQRSTUVWXYZ")?;
    }
    let name = name.as_str();
    let mut header = Vec::new(alloc);
    for _ in 0..1_100 {
        header.extend_from_slice(b"int m;\n")?;
    }
    let mut tree = tree_of(alloc, ONE_MODULE)?;
    let path = format!(in alloc; "inc/{name}")?;
    set(alloc, &mut tree, path.as_str(), &header)?;
    let map = format!(in alloc; "module M {{ header \"inc/{name}\" }}\n")?;
    set(alloc, &mut tree, "m.map", map.as_str().as_bytes())?;
    let unit = format!(in alloc; "#include \"{name}\"\nint x;\n")?;
    set(alloc, &mut tree, "u.c", unit.as_str().as_bytes())?;
    Ok(tree)
}

/// A tree of so many modules, each of which imports the next one and exports it; the unit takes the address
/// of the last one's object.
fn chain_of(alloc: Global, modules: u32) -> Result<MemTree, Fail> {
    let mut tree = tree_of(alloc, ONE_MODULE)?;
    let mut map = String::new(alloc);
    for number in 0..modules {
        let next = number.saturating_add(1);
        write!(
            map,
            "module M{number} {{ header \"inc/m{number}.h\" export * }}\n"
        )?;
        let path = format!(in alloc; "inc/m{number}.h")?;
        let header = format!(in alloc; "#include \"m{next}.h\"\n")?;
        set(alloc, &mut tree, path.as_str(), header.as_str().as_bytes())?;
    }
    map.push_str("module LAST { header \"inc/last.h\" }\n")?;
    let last = modules.saturating_sub(1);
    let path = format!(in alloc; "inc/m{last}.h")?;
    set(alloc, &mut tree, path.as_str(), b"#include \"last.h\"\n")?;
    set(alloc, &mut tree, "inc/last.h", b"int last;\n")?;
    set(alloc, &mut tree, "m.map", map.as_str().as_bytes())?;
    set(
        alloc,
        &mut tree,
        "u.c",
        b"#include \"m0.h\"\nint *p = &last;\n",
    )?;
    Ok(tree)
}

/// A line for each module of a chain.
fn chain_report(alloc: Global, modules: u32, front: &str, back: &str) -> Result<String, Fail> {
    let mut report = String::new(alloc);
    for number in 0..modules {
        write!(report, "{front} M{number}{back}\n")?;
    }
    write!(report, "{front} LAST{back}\n")?;
    Ok(report)
}

const CHAINED: &str =
    "unit u.c\nimport u.c:1:1 M0\ndecl u.c:2:6 none object p : pointer to int\nend u.c clean\n";

#[test]
fn large_trees(rt: HostRuntime) -> Result<(), Fail> {
    let alloc = rt.alloc();
    // a module file that is too large is not kept
    let mut tree = large_tree(alloc)?;
    let mut cache = empty_cache(alloc);
    build(&rt, alloc, "job.txt", &mut tree, &mut cache, BUILT, MISSING)?;
    assert_eq!(rt; cache.names()?.len(), 0);
    // 64 modules that follow each other
    let mut tree = chain_of(alloc, 63)?;
    let built = chain_report(alloc, 63, "built", " missing")?;
    let loaded = chain_report(alloc, 63, "loaded", "")?;
    for reported in [built.as_str(), loaded.as_str()].iter().copied() {
        build(
            &rt, alloc, "job.txt", &mut tree, &mut cache, CHAINED, reported,
        )?;
    }
    assert_eq!(rt; cache.names()?.len(), 64);
    Ok(())
}
