//! Builds over trees and caches in memory, for the tests.

use cm_core::{List, PathText, Status, Steps};
use cm_outside::{MemCache, MemSink, MemTree};
use driver::{BuildImages, run};
use std::alloc::Global;
use std::process::Abort;
use std::test::Fail;

/// A path with its bytes.
pub type File = (&'static str, &'static [u8]);

/// One module and a unit that imports it, with two other jobs over them.
pub const ONE_MODULE: &[File] = &[
    ("job.txt", b"map m.map\ninclude inc\nunit u.c\n"),
    ("other.txt", b"map m.map\ninclude ./inc/.\nunit u.c\n"),
    ("third.txt", b"map m.map\ninclude .\nunit v.c\n"),
    ("m.map", b"module M { header \"inc/m.h\" }\n"),
    ("inc/m.h", b"int m;\n"),
    ("u.c", b"#include \"m.h\"\nint x;\n"),
    ("v.c", b"#include \"inc/m.h\"\n"),
];

pub const BUILT: &str =
    "unit u.c\nimport u.c:1:1 M\ndecl u.c:2:5 none object x : int\nend u.c clean\n";

pub const ELSEWHERE: &str = "unit v.c\nimport v.c:1:1 M\nend v.c clean\n";

pub const MODULE_FAULT: &str =
    "module M\nerror inc/m.h:1:1 E005 not built yet\nend M failed\nunit u.c\nimport u.c:1:1 M\ndecl u.c:2:5 none object x : int\nend u.c clean\n";

pub const MAP_FAULT: &str =
    "error m.map:1:1 E005 not built yet\nunit u.c\nerror u.c:1:1 E005 not built yet\nend u.c failed\n";

pub const JOB_FAULT: &str = "error job.txt:1:1 E005 not built yet\n";

pub const UNIT_FAULT: &str = "unit u.c\nerror u.c:1:1 E005 not built yet\nend u.c failed\n";

pub const MISSING: &str = "built M missing\n";

pub const LOADED: &str = "loaded M\n";

pub type Kept = MemCache<BuildImages>;

/// The numbers from one to another.
pub fn numbers(alloc: Global, first: u64, last: u64) -> Result<List<u64>, Fail> {
    let mut numbers = List::new(alloc);
    for number in first..=last {
        numbers.push(number)?;
    }
    Ok(numbers)
}

/// A tree of these files, whose calls of these numbers fail.
pub fn failing_tree(alloc: Global, files: &[File], fails: List<u64>) -> Result<MemTree, Fail> {
    let mut tree = MemTree::new(alloc, List::new(alloc), fails);
    for (path, bytes) in files.iter().copied() {
        set(alloc, &mut tree, path, bytes)?;
    }
    Ok(tree)
}

pub fn tree_of(alloc: Global, files: &[File]) -> Result<MemTree, Fail> {
    failing_tree(alloc, files, List::new(alloc))
}

pub fn set(alloc: Global, tree: &mut MemTree, path: &str, bytes: &[u8]) -> Result<(), Fail> {
    tree.set(&PathText::read(alloc, path)?, bytes)?;
    Ok(())
}

pub fn empty_cache(alloc: Global) -> Kept {
    MemCache::new(alloc, List::new(alloc))
}

/// A sink that takes all that it is given.
pub fn sink(alloc: Global) -> MemSink {
    MemSink::new(alloc, List::new(alloc), usize::MAX)
}

/// Runs words over a tree and a cache; gives the status and the count of interpretations, and puts what was
/// written into the sinks.
pub fn run_words(
    alloc: Global,
    words: &[&str],
    tree: &mut MemTree,
    cache: &mut Kept,
    out: &mut MemSink,
    report: &mut MemSink,
) -> Result<(Status, u64), Fail> {
    let mut list = Vec::new(alloc);
    for word in words.iter().copied() {
        list.push(String::from_str(alloc, word)?)?;
    }
    let mut steps = Steps::new();
    let status = run(alloc, &list, tree, cache, out, report, &mut steps);
    Ok((status, steps.compiles))
}

/// How many modules are told as built.
fn built_in(reported: &str) -> u64 {
    let mut built = 0u64;
    for line in reported.split('\n') {
        if line.starts_with("built ") {
            built = built.saturating_add(1);
        }
    }
    built
}

/// Builds a job with a report, and checks the whole output, the report, and the status and the count that
/// go with them.
pub fn build<A: Abort>(
    rt: &A,
    alloc: Global,
    job: &str,
    tree: &mut MemTree,
    cache: &mut Kept,
    wanted: &str,
    reported: &str,
) -> Result<(), Fail> {
    let mut out = sink(alloc);
    let mut report = sink(alloc);
    let words = ["build", job, "--report"];
    let (status, compiles) = run_words(alloc, &words, tree, cache, &mut out, &mut report)?;
    assert_eq!(rt; out.bytes(), wanted.as_bytes(), "{wanted}");
    assert_eq!(rt; report.bytes(), reported.as_bytes(), "{wanted}{reported}");
    let is_failed = wanted.contains("error ");
    assert_eq!(rt;
        status,
        if is_failed {
            Status::Diagnosed
        } else {
            Status::Clean
        },
        "{wanted}"
    );
    assert_eq!(rt; compiles, built_in(reported), "{reported}");
    Ok(())
}
