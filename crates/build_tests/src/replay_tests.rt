use crate::builds::{
    BUILT, JOB_FAULT, MAP_FAULT, MODULE_FAULT, UNIT_FAULT, empty_cache, numbers, run_words, sink,
};
use cm_core::{List, PathText, Status};
use cm_outside::{MemSink, MemTree};
use std::alloc::Global;
use std::process::Abort;
use std::test::Fail;

/// The lines that set the tree with one module.
const ONE_MODULE: &str =
    "# one module\n\nwrite job.txt map m.map\\ninclude inc\\nunit u.c\\n\nwrite m.map module M { header \"inc/m.h\" }\\n\nwrite inc/m.h int m;\\n\nwrite u.c #include \"m.h\"\\nint x;\\n\n";

const OTHER_UNIT: &str = "unit u.c\ndecl u.c:1:5 none object y : int\nend u.c clean\n";

const OTHER_NAME: &str =
    "unit u.c\nimport u.c:1:1 N\ndecl u.c:2:5 none object x : int\nend u.c clean\n";

/// A line of a script, and what it writes.
type Line = (&'static str, &'static str);

/// What a replay came to.
#[derive(Drop)]
struct Replayed {
    status: Status,
    out: MemSink,
    compiles: u64,
}

/// Replays the script of a tree. Neither the report nor the cache is touched.
fn replay_in<A: Abort>(
    rt: &A,
    alloc: Global,
    tree: &mut MemTree,
    fails: List<u64>,
) -> Result<Replayed, Fail> {
    let mut cache = empty_cache(alloc);
    let mut out = MemSink::new(alloc, fails, 100);
    let mut report = sink(alloc);
    let words = ["replay", "s.txt"];
    let (status, compiles) = run_words(alloc, &words, tree, &mut cache, &mut out, &mut report)?;
    assert_eq!(rt; report.calls(), 0);
    assert_eq!(rt; cache.calls(), 0);
    Ok(Replayed {
        status,
        out,
        compiles,
    })
}

/// Checks the whole output of a script, its status and its count.
fn check_script<A: Abort>(
    rt: &A,
    alloc: Global,
    script: Option<&[u8]>,
    wanted: &str,
    compiles: u64,
) -> Result<(), Fail> {
    let mut tree = MemTree::new(alloc, List::new(alloc), List::new(alloc));
    if let Some(script) = script {
        tree.set(&PathText::read(alloc, "s.txt")?, script)?;
    }
    let replayed = replay_in(rt, alloc, &mut tree, List::new(alloc))?;
    assert_eq!(rt; replayed.out.bytes(), wanted.as_bytes(), "{wanted}");
    let failed = wanted.contains("error ");
    assert_eq!(rt;
        replayed.status,
        if failed {
            Status::Diagnosed
        } else {
            Status::Clean
        }
    );
    assert_eq!(rt; replayed.compiles, compiles);
    assert_eq!(rt; tree.calls(), 1);
    Ok(())
}

/// Checks a script of these lines.
fn check_lines<A: Abort>(
    rt: &A,
    alloc: Global,
    before: &str,
    lines: &[Line],
    compiles: u64,
) -> Result<(), Fail> {
    let mut script = Vec::from_slice(alloc, before.as_bytes())?;
    let mut wanted = String::new(alloc);
    for (line, output) in lines.iter().copied() {
        script.extend_from_slice(line.as_bytes())?;
        script.push(b'\n')?;
        wanted.push_str(output)?;
    }
    check_script(rt, alloc, Some(&script), wanted.as_str(), compiles)
}

const WITHOUT_MODULES: &[Line] = &[
    ("write job.txt unit u.c\\n", ""),
    ("write u.c int x;\\n", ""),
    (
        "build job.txt",
        "unit u.c\ndecl u.c:1:5 none object x : int\nend u.c clean\n",
    ),
    ("write u.c int y;\\n", ""),
    ("build job.txt", OTHER_UNIT),
];

const DAMAGE: &[Line] = &[
    // there is no file yet
    ("drop 0", ""),
    ("tear 0 0", ""),
    ("build job.txt", BUILT),
    ("drop 0", ""),
    ("build job.txt", BUILT),
    ("tear 0 60", ""),
    ("build job.txt", BUILT),
    ("tear 0 0", ""),
    ("build job.txt", BUILT),
    // no file has this number, and the file is not so long
    ("drop 1", ""),
    ("tear 0 18446744073709551615", ""),
    ("build job.txt", BUILT),
];

/// Edits, cuts and drops, with the outputs of the clean builds between them.
const HISTORY: &[Line] = &[
    ("build job.txt", BUILT),
    ("write u.c int y;\\n", ""),
    ("build job.txt", OTHER_UNIT),
    ("tear 0 40", ""),
    ("write u.c #include \"m.h\"\\nint x;\\n", ""),
    ("build job.txt", BUILT),
    ("write inc/m.h long m;\\n", ""),
    ("build job.txt", MODULE_FAULT),
    ("drop 0", ""),
    ("build job.txt", MODULE_FAULT),
    ("remove inc/m.h", ""),
    ("remove inc/m.h", ""),
    ("build job.txt", UNIT_FAULT),
    ("write inc/m.h int m;\\nint n;\\n", ""),
    ("tear 0 0", ""),
    ("build job.txt", BUILT),
    ("remove m.map", ""),
    ("build job.txt", MAP_FAULT),
    ("write m.map module N { header \"inc/m.h\" }\\n", ""),
    ("build job.txt", OTHER_NAME),
    ("tear 0 56", ""),
    ("tear 1 56", ""),
    ("build ./job.txt", OTHER_NAME),
    ("write u.c \\x69nt\\x20y;\\n", ""),
    ("drop 1", ""),
    ("build job.txt", OTHER_UNIT),
    ("remove job.txt", ""),
    ("build job.txt", JOB_FAULT),
];

/// Two modules, one of which imports the other.
const IMPORTS: &[Line] = &[
    (
        "write m.map module M { header \"inc/m.h\" }\\nmodule B { header \"inc/b.h\" }\\n",
        "",
    ),
    ("write inc/m.h #include \"b.h\"\\n", ""),
    ("write inc/b.h int b;\\n", ""),
    ("build job.txt", BUILT),
    // both files are damaged; then the imported module is edited
    ("tear 0 70", ""),
    ("drop 1", ""),
    ("build job.txt", BUILT),
    ("write inc/b.h int c;\\n", ""),
    ("build job.txt", BUILT),
    ("build job.txt", BUILT),
    // the two import each other, and no more
    ("write inc/b.h #include \"m.h\"\\n", ""),
    (
        "build job.txt",
        "unit u.c\nerror u.c:1:1 E052 module 'M' is cyclic\ndecl u.c:2:5 none object x : int\nend u.c failed\n",
    ),
    ("write inc/b.h int b;\\n", ""),
    ("build job.txt", BUILT),
];

/// The lines before, further lines with what they write, and how often modules are interpreted.
const SCRIPTS: &[(&str, &[Line], u64)] = &[
    ("", WITHOUT_MODULES, 0),
    (ONE_MODULE, DAMAGE, 4),
    (ONE_MODULE, HISTORY, 7),
    (ONE_MODULE, IMPORTS, 10),
];

#[test]
fn scripts_that_are_played(rt: HostRuntime) -> Result<(), Fail> {
    for (before, lines, compiles) in SCRIPTS.iter().copied() {
        check_lines(&rt, rt.alloc(), before, lines, compiles)?;
    }
    Ok(())
}

/// Scripts that are not played, and the place and text of their error.
const BAD: &[(Option<&[u8]>, &str)] = &[
    (None, "1:1 E001 file 's.txt' is absent"),
    (
        Some(b"build job.txt\n\xff"),
        "1:1 E003 file 's.txt' is not UTF-8 at byte 14",
    ),
    // bad lines after empty ones, comments and good ones, without a line feed, and before other bad ones
    (
        Some(b"\n# x\nwrite a b\nbuild\n"),
        "4:1 E004 not a line of this file's form",
    ),
    (
        Some(b"write a \\q"),
        "1:1 E004 not a line of this file's form",
    ),
    (
        Some(b"drop 0\nremove ../a\ndrop 01\n"),
        "2:1 E004 not a line of this file's form",
    ),
    (Some(b"tear 0\n"), "1:1 E004 not a line of this file's form"),
    (
        Some(b"drop 18446744073709551616\n"),
        "1:1 E004 not a line of this file's form",
    ),
    (
        Some(b"build job.txt\nbuild job.txt --uses\nbuild\n"),
        "2:1 E004 not a line of this file's form",
    ),
];

#[test]
fn scripts_that_are_not_played(rt: HostRuntime) -> Result<(), Fail> {
    let alloc = rt.alloc();
    for (script, text) in BAD.iter().copied() {
        let wanted = format!(in alloc; "error s.txt:{text}\n")?;
        check_script(&rt, alloc, script, wanted.as_str(), 0)?;
    }
    let mut large = Vec::new(alloc);
    large.resize(16_777_217, b'\n')?;
    let wanted = "error s.txt:1:1 E002 file 's.txt' has 16777217 bytes, more than 16777216\n";
    check_script(&rt, alloc, Some(&large), wanted, 0)?;
    check_script(&rt, alloc, Some(b""), "", 0)
}

#[test]
fn faults_end_a_replay(rt: HostRuntime) -> Result<(), Fail> {
    let alloc = rt.alloc();
    let path = PathText::read(alloc, "s.txt")?;
    let mut tree = MemTree::new(alloc, List::new(alloc), numbers(alloc, 1, 1)?);
    let replayed = replay_in(&rt, alloc, &mut tree, List::new(alloc))?;
    assert_eq!(rt; replayed.status, Status::ReadFault);
    assert_eq!(rt; replayed.out.calls(), 0);
    let mut tree = MemTree::new(alloc, List::new(alloc), List::new(alloc));
    tree.set(&path, b"build job.txt\n")?;
    let replayed = replay_in(&rt, alloc, &mut tree, numbers(alloc, 1, 1)?)?;
    assert_eq!(rt; replayed.status, Status::WriteFault);
    assert_eq!(rt; replayed.out.bytes(), b"".as_slice());
    Ok(())
}
