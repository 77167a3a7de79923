use crate::builds::{
    BUILT, File, JOB_FAULT, MAP_FAULT, MODULE_FAULT, ONE_MODULE, UNIT_FAULT, build, empty_cache,
    failing_tree, numbers, run_words, set, sink, tree_of,
};
use cm_core::{PathText, Status};
use cm_outside::{Cache, MemSink, MemTree};
use std::alloc::Global;
use std::process::Abort;
use std::test::Fail;

/// What the file of a path becomes, if it does not go.
type Edit = (&'static str, Option<&'static [u8]>);

/// Edits, and the whole output and the report of the build that follows them.
type Step = (&'static [Edit], &'static str, &'static str);

/// A tree, what is done over it with one cache, and how many files the cache has at the end.
type Story = (&'static [File], &'static [Step], usize);

/// Three modules, of which A imports B.
const EXPORTS: &[File] = &[
    ("job.txt", b"map m.map\ninclude inc\nunit u.c\n"),
    (
        "m.map",
        b"module A { header \"inc/a.h\" export * }\nmodule B { header \"inc/b.h\" }\n",
    ),
    ("inc/a.h", b"#include \"b.h\"\n"),
    ("inc/b.h", b"int b;\n"),
    ("u.c", b"#include \"a.h\"\nint *p = &b;\n"),
];

const POINTER: &str =
    "unit u.c\nimport u.c:1:1 A\ndecl u.c:2:6 none object p : pointer to int\nend u.c clean\n";

const HIDDEN: &str =
    "unit u.c\nimport u.c:1:1 A\ndecl u.c:2:6 none object p : pointer to int\nerror u.c:2:11 E110 'b' is not declared\nend u.c failed\n";

/// A names B alone of what it imports, and B all: C is seen through both, and D is not.
const CHAINED_EXPORTS: &[File] = &[
    ("job.txt", b"unit u.c\ninclude inc\nmap m.map\n"),
    (
        "m.map",
        b"module D { header \"inc/d.h\" }\nmodule A { header \"inc/a.h\" export B }\nmodule B { header \"inc/b.h\" export * }\nmodule C { header \"inc/c.h\" }",
    ),
    ("inc/a.h", b"#include \"d.h\"\n#include \"b.h\"\n"),
    ("inc/b.h", b"#include \"c.h\"\nint b;\n"),
    ("inc/c.h", b"int c;\n"),
    ("inc/d.h", b"int d;\n"),
    (
        "u.c",
        b"#include \"a.h\"\nint *p = &b;\nint *q = &c;\nint *r = &d;\n",
    ),
];

const SEEN_THROUGH: &str =
    "unit u.c\nimport u.c:1:1 A\ndecl u.c:2:6 none object p : pointer to int\ndecl u.c:3:6 none object q : pointer to int\ndecl u.c:4:6 none object r : pointer to int\nerror u.c:4:11 E110 'd' is not declared\nend u.c failed\n";

/// A imports B and C, which import D.
const DIAMOND: &[File] = &[
    ("job.txt", b"map m.map\ninclude inc\nunit u.c\n"),
    (
        "m.map",
        b"module A { header \"inc/a.h\" export * }\nmodule B { header \"inc/b.h\" export * }\nmodule C { header \"inc/c.h\" }\nmodule D { header \"inc/d.h\" }\n",
    ),
    ("inc/a.h", b"#include \"b.h\"\n#include \"c.h\"\n"),
    ("inc/b.h", b"#include \"d.h\"\n"),
    ("inc/c.h", b"#include \"d.h\"\n"),
    ("inc/d.h", b"int b;\n"),
    ("u.c", b"#include \"a.h\"\nint *p = &b;\n"),
];

/// A and B import each other; G is imported by A before that; M imports A; E imports nothing.
const CYCLE: &[File] = &[
    ("job.txt", b"map m.map\ninclude inc\nunit u.c\n"),
    (
        "m.map",
        b"module A { header \"inc/a.h\" }\nmodule B { header \"inc/b.h\" }\nmodule E { header \"inc/e.h\" }\nmodule G { header \"inc/g.h\" }\nmodule M { header \"inc/m.h\" }\n",
    ),
    ("inc/a.h", b"#include \"b.h\"\nint a;\n"),
    ("inc/b.h", b"#include \"a.h\"\n"),
    ("inc/e.h", b"int e;\n"),
    ("inc/g.h", b"long g;\n"),
    ("inc/m.h", b"#include \"a.h\"\n"),
    ("u.c", b"#include \"a.h\"\n"),
];

const CYCLIC: &str = "unit u.c\nerror u.c:1:1 E052 module 'A' is cyclic\nend u.c failed\n";

const GOES_ON: &str =
    "unit u.c\nerror u.c:1:1 E052 module 'A' is cyclic\nimport u.c:2:1 E\ndecl u.c:3:6 none object p : pointer to int\nerror u.c:4:1 E052 module 'B' is cyclic\nend u.c failed\n";

const GOOD_IN_CYCLE: &str =
    "module G\nerror inc/g.h:1:1 E005 not built yet\nend G failed\nunit u.c\nerror u.c:1:1 E052 module 'A' is cyclic\nend u.c failed\n";

const OF_CYCLIC: &str = "unit u.c\nerror u.c:1:1 E052 module 'M' is cyclic\nend u.c failed\n";

/// Two units that share modules, some of which have diagnostics.
const TWO_UNITS: &[File] = &[
    (
        "job.txt",
        b"map m.map\ninclude inc\nunit u.c\nunit src/v.c\nunit u.c\n",
    ),
    (
        "m.map",
        b"module A { header \"inc/a.h\" }\nmodule B { header \"inc/b.h\" }\nmodule C { header \"inc/c.h\" }\n",
    ),
    ("inc/a.h", b"#include \"b.h\"\nlong a;\n"),
    ("inc/b.h", b"long b;\n"),
    ("inc/c.h", b"int c;\nlong c;\n"),
    ("u.c", b"#include \"a.h\"\n"),
    ("src/v.c", b"#include \"b.h\"\n#include \"c.h\"\n"),
];

const BLOCKS: &str =
    "module A\nerror inc/a.h:2:1 E005 not built yet\nend A failed\nmodule B\nerror inc/b.h:1:1 E005 not built yet\nend B failed\nunit u.c\nimport u.c:1:1 A\nend u.c clean\nmodule C\nerror inc/c.h:2:1 E005 not built yet\nend C failed\nunit src/v.c\nimport src/v.c:1:1 B\nimport src/v.c:2:1 C\nend src/v.c clean\nunit u.c\nimport u.c:1:1 A\nend u.c clean\n";

/// A's header is in a folder of its own; what it includes is found in the last folder that is searched.
const SEARCHED: &[File] = &[
    ("job.txt", b"include p\ninclude inc\nmap m.map\nunit u.c\n"),
    (
        "m.map",
        b"module A { header \"inc/x/a.h\" export * }\nmodule B { header \"inc/b.h\" }\n",
    ),
    ("inc/x/a.h", b"#include \"b.h\"\n"),
    ("inc/b.h", b"int b;\n"),
    ("u.c", b"#include \"x/a.h\"\nint *p = &b;\n"),
];

const FOUND_BEFORE: &str =
    "module A\nerror inc/x/a.h:1:1 E005 not built yet\nend A failed\nunit u.c\nimport u.c:1:1 A\ndecl u.c:2:6 none object p : pointer to int\nerror u.c:2:11 E110 'b' is not declared\nend u.c failed\n";

const MAP_TWICE: &str =
    "error m.map:2:1 E005 not built yet\nunit u.c\nerror u.c:1:1 E005 not built yet\nend u.c failed\n";

const SECOND_MAP: &str =
    "error n.map:1:1 E005 not built yet\nunit u.c\nimport u.c:1:1 M\ndecl u.c:2:5 none object x : int\nend u.c clean\n";

/// Builds of one module, one after another.
const OF_ONE_MODULE: &[Story] = &[
    // one module, and a second build; a piece that is not built; an empty job
    (
        ONE_MODULE,
        &[
            (&[], BUILT, "built M missing\n"),
            (&[], BUILT, "loaded M\n"),
            (
                &[("u.c", Some(b"#include \"m.h\"\nlong x;\nint y;\n"))],
                "unit u.c\nimport u.c:1:1 M\nerror u.c:2:1 E005 not built yet\ndecl u.c:3:5 none object y : int\nend u.c failed\n",
                "loaded M\n",
            ),
            (
                &[("u.c", Some(b"int x;\n"))],
                "unit u.c\ndecl u.c:1:5 none object x : int\nend u.c clean\n",
                "",
            ),
            (&[("job.txt", Some(b""))], "", ""),
        ],
        1,
    ),
    // the header is edited and put back, with a diagnostic in between
    (
        ONE_MODULE,
        &[
            (&[], BUILT, "built M missing\n"),
            (
                &[("inc/m.h", Some(b"int n;\n"))],
                BUILT,
                "built M outdated inc/m.h\n",
            ),
            (
                &[("inc/m.h", Some(b"int m;\n"))],
                BUILT,
                "built M outdated inc/m.h\n",
            ),
            (
                &[("inc/m.h", Some(b"long m;\n"))],
                MODULE_FAULT,
                "built M outdated inc/m.h\n",
            ),
            (&[], MODULE_FAULT, "loaded M\n"),
            (
                &[("inc/m.h", Some(b"#include \"m.h\"\nint m;"))],
                BUILT,
                "built M outdated inc/m.h\n",
            ),
            // the map is asked for first
            (
                &[
                    ("m.map", Some(b"module M { header \"inc/m.h\" export * }\n")),
                    ("inc/m.h", Some(b"")),
                ],
                BUILT,
                "built M outdated m.map\n",
            ),
        ],
        1,
    ),
];

/// What an import of a module makes visible of what that one imports.
const OF_EXPORTS: &[Story] = &[
    // an exported import, and one that is not
    (
        EXPORTS,
        &[
            (&[], POINTER, "built A missing\nbuilt B missing\n"),
            (&[], POINTER, "loaded A\nloaded B\n"),
            (
                &[(
                    "m.map",
                    Some(b"module A { header \"inc/a.h\" }\nmodule B { header \"inc/b.h\" }\n"),
                )],
                HIDDEN,
                "built A outdated m.map\nbuilt B outdated m.map\n",
            ),
            (&[], HIDDEN, "loaded A\nloaded B\n"),
        ],
        2,
    ),
    (
        CHAINED_EXPORTS,
        &[
            (
                &[],
                SEEN_THROUGH,
                "built A missing\nbuilt D missing\nbuilt B missing\nbuilt C missing\n",
            ),
            (
                &[],
                SEEN_THROUGH,
                "loaded A\nloaded D\nloaded B\nloaded C\n",
            ),
            // what A imports no more is not needed
            (
                &[("inc/a.h", Some(b"#include \"b.h\"\n"))],
                SEEN_THROUGH,
                "built A outdated inc/a.h\nloaded B\nloaded C\n",
            ),
        ],
        4,
    ),
    (
        DIAMOND,
        &[
            (
                &[],
                POINTER,
                "built A missing\nbuilt B missing\nbuilt D missing\nbuilt C missing\n",
            ),
            (
                &[("inc/c.h", Some(b"int c;\n#include \"d.h\"\n"))],
                POINTER,
                "built A outdated inc/c.h\nloaded B\nloaded D\nbuilt C outdated inc/c.h\n",
            ),
            (
                &[("inc/d.h", Some(b"int b;\nint d;\n"))],
                POINTER,
                "built A outdated inc/d.h\nbuilt B outdated inc/d.h\nbuilt D outdated inc/d.h\nbuilt C outdated inc/d.h\n",
            ),
            (&[], POINTER, "loaded A\nloaded B\nloaded D\nloaded C\n"),
        ],
        4,
    ),
];

/// Modules that import each other, and what is kept beside them.
const OF_TWO_IN_A_CYCLE: &[Story] = &[
    // two modules that import each other are not kept; the unit goes on
    (
        CYCLE,
        &[
            (&[], CYCLIC, "built A missing\nbuilt B missing\n"),
            (&[], CYCLIC, "built A missing\nbuilt B missing\n"),
        ],
        0,
    ),
    (
        CYCLE,
        &[(
            &[(
                "u.c",
                Some(b"#include \"a.h\"\n#include \"e.h\"\nint *p = &e;\n#include \"b.h\"\n"),
            )],
            GOES_ON,
            "built A missing\nbuilt B missing\nbuilt E missing\n",
        )],
        1,
    ),
    // a module that is begun inside them is kept, and has its block
    (
        CYCLE,
        &[
            (
                &[("inc/a.h", Some(b"#include \"g.h\"\n#include \"b.h\"\n"))],
                GOOD_IN_CYCLE,
                "built A missing\nbuilt G missing\nbuilt B missing\n",
            ),
            (
                &[],
                GOOD_IN_CYCLE,
                "built A missing\nloaded G\nbuilt B missing\n",
            ),
        ],
        1,
    ),
];

/// Longer ways around a cycle and into one.
const OF_LARGER_CYCLES: &[Story] = &[
    // three in a cycle; one that imports a Cyclic one
    (
        CYCLE,
        &[
            (
                &[("inc/b.h", Some(b"#include \"m.h\"\n"))],
                CYCLIC,
                "built A missing\nbuilt B missing\nbuilt M missing\n",
            ),
            (
                &[
                    ("inc/b.h", Some(b"#include \"a.h\"\n")),
                    ("u.c", Some(b"#include \"m.h\"\n")),
                ],
                OF_CYCLIC,
                "built M missing\nbuilt A missing\nbuilt B missing\n",
            ),
        ],
        0,
    ),
    (
        TWO_UNITS,
        &[
            (
                &[],
                BLOCKS,
                "built A missing\nbuilt B missing\nbuilt C missing\n",
            ),
            (&[], BLOCKS, "loaded A\nloaded B\nloaded C\n"),
        ],
        3,
    ),
];

/// Builds after which another file is found, or a map says something else.
const OF_OTHER_FILES: &[Story] = &[
    // a file that comes before the one that was found
    (
        SEARCHED,
        &[
            (&[], POINTER, "built A missing\nbuilt B missing\n"),
            (
                &[("p/b.h", Some(b"int b;\n"))],
                FOUND_BEFORE,
                "built A outdated p/b.h\n",
            ),
            (
                &[("p/b.h", None)],
                POINTER,
                "built A outdated p/b.h\nloaded B\n",
            ),
            (
                &[("inc/x/b.h", Some(b""))],
                FOUND_BEFORE,
                "built A outdated inc/x/b.h\n",
            ),
        ],
        2,
    ),
    // a module that is declared twice, a header that is claimed twice, and a name that no module has
    (
        ONE_MODULE,
        &[
            (
                &[(
                    "m.map",
                    Some(b"module M { header \"inc/m.h\" }\nmodule M { header \"inc/n.h\" }\n"),
                )],
                MAP_TWICE,
                "",
            ),
            (
                &[(
                    "m.map",
                    Some(b"module M { header \"inc/m.h\" }\nmodule N { header \"inc/m.h\" }\n"),
                )],
                MAP_TWICE,
                "",
            ),
            (
                &[(
                    "m.map",
                    Some(
                        b"module M { header \"inc/m.h\" }\nmodule N { header \"inc/n.h\" export O }\n",
                    ),
                )],
                MAP_TWICE,
                "",
            ),
            // in a second map, which declares nothing then
            (
                &[
                    (
                        "job.txt",
                        Some(b"map m.map\nmap n.map\ninclude inc\nunit u.c\n"),
                    ),
                    ("m.map", Some(b"module M { header \"inc/m.h\" }\n")),
                    ("n.map", Some(b"module M { header \"inc/n.h\" }\n")),
                ],
                SECOND_MAP,
                "built M missing\n",
            ),
        ],
        1,
    ),
];

/// Plays a story.
fn play<A: Abort>(rt: &A, alloc: Global, story: Story) -> Result<(), Fail> {
    let (files, steps, kept) = story;
    let mut tree = tree_of(alloc, files)?;
    let mut cache = empty_cache(alloc);
    for (edits, wanted, reported) in steps.iter().copied() {
        for (path, bytes) in edits.iter().copied() {
            match bytes {
                Some(bytes) => set(alloc, &mut tree, path, bytes)?,
                None => tree.unset(&PathText::read(alloc, path)?),
            }
        }
        build(
            rt, alloc, "job.txt", &mut tree, &mut cache, wanted, reported,
        )?;
    }
    assert_eq!(rt; cache.names()?.len(), kept);
    Ok(())
}

/// Plays stories, each with a cache of its own.
fn play_all<A: Abort>(rt: &A, alloc: Global, stories: &[Story]) -> Result<(), Fail> {
    for story in stories.iter().copied() {
        play(rt, alloc, story)?;
    }
    Ok(())
}

#[test]
fn builds_of_one_module(rt: HostRuntime) -> Result<(), Fail> {
    play_all(&rt, rt.alloc(), OF_ONE_MODULE)
}

#[test]
fn builds_with_exports(rt: HostRuntime) -> Result<(), Fail> {
    play_all(&rt, rt.alloc(), OF_EXPORTS)
}

#[test]
fn builds_with_two_in_a_cycle(rt: HostRuntime) -> Result<(), Fail> {
    play_all(&rt, rt.alloc(), OF_TWO_IN_A_CYCLE)
}

#[test]
fn builds_with_larger_cycles(rt: HostRuntime) -> Result<(), Fail> {
    play_all(&rt, rt.alloc(), OF_LARGER_CYCLES)
}

#[test]
fn builds_after_other_files(rt: HostRuntime) -> Result<(), Fail> {
    play_all(&rt, rt.alloc(), OF_OTHER_FILES)
}

/// What a file of the tree with one module becomes, and the whole output then.
const EDGES: &[(File, &str)] = &[
    // the last line lacks its end
    (("job.txt", b"map m.map\ninclude inc\nunit u.c"), BUILT),
    (("m.map", b"module M { header \"inc/m.h\" }"), BUILT),
    (("inc/m.h", b"int m;"), BUILT),
    (("u.c", b"#include \"m.h\"\nint x;"), BUILT),
    // empty files
    (("m.map", b""), UNIT_FAULT),
    (("inc/m.h", b""), BUILT),
    (("u.c", b""), "unit u.c\nend u.c clean\n"),
    // a job without units, one without its lines' order, one with a map that stands twice, and lines at fault
    (("job.txt", b"map m.map\ninclude inc\n"), ""),
    (
        (
            "job.txt",
            b"unit u.c\nmap m.map\nmap ./m.map\ninclude inc\n",
        ),
        BUILT,
    ),
    (
        ("job.txt", b"map m.map\ninclude inc\nunit u.c\n\n"),
        "error job.txt:4:1 E005 not built yet\n",
    ),
    (
        ("job.txt", b"map m.map\nunits u.c\ninclude inc\n"),
        "error job.txt:2:1 E005 not built yet\n",
    ),
    (
        ("job.txt", b"map /m.map\ninclude inc\nunit u.c\n"),
        JOB_FAULT,
    ),
    // a map with other spaces
    (("m.map", b"module M {  header \"inc/m.h\" }\n"), MAP_FAULT),
    (
        ("m.map", b"module M { header \"inc/m.h\" export M.* }\n"),
        MAP_FAULT,
    ),
    // names
    (("u.c", b"int while;\n"), UNIT_FAULT),
    (("u.c", b"int _Thread_local;\n"), UNIT_FAULT),
    (("u.c", b"int umbrella;\n"), UNIT_FAULT),
    (("u.c", b"int __STDC__;\n"), UNIT_FAULT),
    (("u.c", b"int 9x;\n"), UNIT_FAULT),
    (
        ("u.c", b"int __STDC;\n"),
        "unit u.c\ndecl u.c:1:5 none object __STDC : int\nend u.c clean\n",
    ),
    (("inc/m.h", b"int int;\n"), MODULE_FAULT),
    (("m.map", b"module use { header \"inc/m.h\" }\n"), MAP_FAULT),
    // bytes that are no UTF-8
    (
        ("job.txt", b"map m\xff\ninclude inc\nunit u.c\n"),
        JOB_FAULT,
    ),
    (("m.map", b"\xff\n"), MAP_FAULT),
    (
        ("inc/m.h", b"int \xff;\n"),
        "module M\nerror inc/m.h:1:1 E003 file 'inc/m.h' is not UTF-8 at byte 4\nend M failed\nunit u.c\nimport u.c:1:1 M\ndecl u.c:2:5 none object x : int\nend u.c clean\n",
    ),
    (
        ("u.c", b"int \xff;\n"),
        "unit u.c\nerror u.c:1:1 E003 file 'u.c' is not UTF-8 at byte 4\nend u.c failed\n",
    ),
    // two lines that a trigraph joins in a name, behind a comment over two lines
    (
        ("u.c", b"int /* a\nb */ x??/\ny;\n"),
        "unit u.c\ndecl u.c:2:6 none object xy : int\nend u.c clean\n",
    ),
    // a comment that the file doesn't close, and the piece that is open there
    (
        ("u.c", b"int x; int /* y;\n"),
        "unit u.c\ndecl u.c:1:5 none object x : int\nerror u.c:1:12 E010 comment is not closed\nerror u.c:1:8 E005 not built yet\nend u.c failed\n",
    ),
    // includes
    (
        ("u.c", b"#include \"m.h\"\n#include \"./m.h\"\n"),
        "unit u.c\nimport u.c:1:1 M\nimport u.c:2:1 M\nend u.c clean\n",
    ),
    (("u.c", b"#include \"../m.h\"\n"), UNIT_FAULT),
    (("u.c", b"#include \"job.txt\"\n"), UNIT_FAULT),
    // the file in the including file's folder is found first, and is no module's header
    (("m.h", b"int m;\n"), UNIT_FAULT),
    // a path with a `..` that stays below the root
    (
        ("m.map", b"module M { header \"inc/../inc/m.h\" }\n"),
        BUILT,
    ),
    // pointers: a header has none; a name of its own, and one that is visible before it
    (("inc/m.h", b"int *m = &m;\n"), MODULE_FAULT),
    (("u.c", b"int *x = &x;\n"), UNIT_FAULT),
    (
        ("u.c", b"int x;\nint *x = &x;\n"),
        "unit u.c\ndecl u.c:1:5 none object x : int\nerror u.c:2:1 E005 not built yet\nend u.c failed\n",
    ),
];

/// Builds the job of a tree without a report, and checks the whole output and the status that it has.
fn check_build<A: Abort>(
    rt: &A,
    alloc: Global,
    tree: &mut MemTree,
    wanted: &str,
) -> Result<(), Fail> {
    let mut out = sink(alloc);
    let mut report = sink(alloc);
    let words = ["build", "job.txt"];
    let mut cache = empty_cache(alloc);
    let (status, _) = run_words(alloc, &words, tree, &mut cache, &mut out, &mut report)?;
    assert_eq!(rt; out.bytes(), wanted.as_bytes(), "{wanted}");
    let is_failed = wanted.contains("error ");
    assert_eq!(rt;
        status,
        if is_failed {
            Status::Diagnosed
        } else {
            Status::Clean
        },
        "{wanted}"
    );
    assert_eq!(rt; report.calls(), 0);
    Ok(())
}

/// A file, and the whole output where it is absent and where it is one byte too large.
const NO_BYTES: &[(&str, &str, &str)] = &[
    ("job.txt", JOB_FAULT, JOB_FAULT),
    ("m.map", MAP_FAULT, MAP_FAULT),
    (
        "inc/m.h",
        UNIT_FAULT,
        "module M\nerror inc/m.h:1:1 E002 file 'inc/m.h' has 16777217 bytes, more than 16777216\nend M failed\nunit u.c\nimport u.c:1:1 M\ndecl u.c:2:5 none object x : int\nend u.c clean\n",
    ),
    (
        "u.c",
        "unit u.c\nerror u.c:1:1 E001 file 'u.c' is absent\nend u.c failed\n",
        "unit u.c\nerror u.c:1:1 E002 file 'u.c' has 16777217 bytes, more than 16777216\nend u.c failed\n",
    ),
];

#[test]
fn edges(rt: HostRuntime) -> Result<(), Fail> {
    let alloc = rt.alloc();
    for ((path, bytes), wanted) in EDGES.iter().copied() {
        let mut tree = tree_of(alloc, ONE_MODULE)?;
        set(alloc, &mut tree, path, bytes)?;
        check_build(&rt, alloc, &mut tree, wanted)?;
    }
    let mut large = Vec::new(alloc);
    large.resize(16_777_217, b'\n')?;
    for (path, absent, too_large) in NO_BYTES.iter().copied() {
        let mut tree = tree_of(alloc, ONE_MODULE)?;
        tree.unset(&PathText::read(alloc, path)?);
        check_build(&rt, alloc, &mut tree, absent)?;
        set(alloc, &mut tree, path, &large)?;
        check_build(&rt, alloc, &mut tree, too_large)?;
    }
    Ok(())
}

/// A front, as many times a byte, and a back.
type Repeated = (&'static str, usize, u8, &'static str);

fn repeated(alloc: Global, text: Repeated) -> Result<Vec<u8>, Fail> {
    let (front, count, byte, back) = text;
    let mut bytes = Vec::from_slice(alloc, front.as_bytes())?;
    bytes.resize(front.len().saturating_add(count), byte)?;
    bytes.extend_from_slice(back.as_bytes())?;
    Ok(bytes)
}

/// The letters of a name, how the output over a unit that declares it ends, and what stands before the unit's block where the
/// header declares it.
const LONG_NAMES: &[(usize, &str, &str)] = &[
    (4_096, " : int\nend u.c clean\n", ""),
    (
        4_097,
        "unit u.c\nerror u.c:1:5 E012 identifier is longer than 4096 bytes\nerror u.c:1:1 E005 not built yet\nend u.c failed\n",
        "module M\nerror inc/m.h:1:5 E012 identifier is longer than 4096 bytes\nerror inc/m.h:1:1 E005 not built yet\nend M failed\n",
    ),
];

/// The text of a unit, and the whole output.
const LARGE_UNITS: &[(Repeated, &str)] = &[
    // tokens; a line end is none
    (("", 2_000_000, b';', "\n"), "unit u.c\nend u.c clean\n"),
    (
        ("", 2_000_001, b';', "\n"),
        "unit u.c\nerror u.c:1:2000001 E068 more than 2000000 tokens\nend u.c failed\n",
    ),
    // a file that is one byte too large, whatever it is
    (
        ("int x;\n", 16_777_210, b' ', ""),
        "unit u.c\nerror u.c:1:1 E002 file 'u.c' has 16777217 bytes, more than 16777216\nend u.c failed\n",
    ),
];

/// The output over the tree with one module, with this text in the place of a file.
fn output_with(alloc: Global, path: &str, text: &[u8]) -> Result<MemSink, Fail> {
    let mut tree = tree_of(alloc, ONE_MODULE)?;
    set(alloc, &mut tree, path, text)?;
    let mut out = sink(alloc);
    let words = ["build", "job.txt"];
    let mut cache = empty_cache(alloc);
    run_words(
        alloc,
        &words,
        &mut tree,
        &mut cache,
        &mut out,
        &mut sink(alloc),
    )?;
    Ok(out)
}

#[test]
fn limits(rt: HostRuntime) -> Result<(), Fail> {
    let alloc = rt.alloc();
    for (letters, of_unit, of_header) in LONG_NAMES.iter().copied() {
        let text = repeated(alloc, ("int ", letters, b'x', ";\n"))?;
        let out = output_with(alloc, "u.c", &text)?;
        assert!(rt; out.bytes().ends_with(of_unit.as_bytes()), "{of_unit}");
        let out = output_with(alloc, "inc/m.h", &text)?;
        assert!(rt;
            out.bytes().strip_prefix(of_header.as_bytes()) == Some(BUILT.as_bytes()),
            "{of_header}"
        );
    }
    for (text, wanted) in LARGE_UNITS.iter().copied() {
        let text = repeated(alloc, text)?;
        let out = output_with(alloc, "u.c", &text)?;
        assert_eq!(rt; out.bytes(), wanted.as_bytes(), "{wanted}");
    }
    Ok(())
}

const USAGE: &str = "usage: modc build JOB [--uses] [--report] | modc replay SCRIPT | modc gen N\n";

const REFUSED: &[&[&str]] = &[
    &[],
    &["build"],
    &["build", "../job.txt"],
    &["build", "/job.txt"],
    &["build", ""],
    &["build", "-x"],
    &["build", "--report", "job.txt"],
    &["build", "job.txt", "--uses"],
    &["build", "job.txt", "--report", "--report"],
    &["build", "job.txt", "job.txt"],
    &["job.txt", "build"],
    &["replay"],
    &["replay", "../job.txt"],
    &["replay", "-x"],
    &["replay", "job.txt", "--report"],
    &["gen", "0"],
    &["gen", "65"],
    &["--help"],
];

#[test]
fn refused_words(rt: HostRuntime) -> Result<(), Fail> {
    let alloc = rt.alloc();
    let mut tree = tree_of(alloc, ONE_MODULE)?;
    let mut out = sink(alloc);
    let mut cache = empty_cache(alloc);
    for words in REFUSED.iter().copied() {
        let mut report = sink(alloc);
        let (status, compiles) = run_words(
            alloc,
            words,
            &mut tree,
            &mut cache,
            &mut out,
            &mut report,
        )?;
        assert_eq!(rt; status, Status::Usage);
        assert_eq!(rt; report.bytes(), USAGE.as_bytes());
        assert_eq!(rt; compiles, 0);
    }
    assert_eq!(rt; out.calls(), 0);
    assert_eq!(rt; tree.calls(), 0);
    assert_eq!(rt; cache.calls(), 0);
    // a sink that takes nothing
    let mut report = MemSink::new(alloc, numbers(alloc, 1, 1)?, 1);
    let words = ["build"];
    let (status, _) = run_words(alloc, &words, &mut tree, &mut cache, &mut out, &mut report)?;
    assert_eq!(rt; status, Status::WriteFault);
    Ok(())
}

/// The numbers of the calls of the tree, of `out` and of the report that fail, the status, and what the
/// two sinks take, which is a byte a call.
const FAULTS: &[(u64, u64, u64, Status, &str, &str)] = &[
    (1, 0, 0, Status::ReadFault, "", ""),
    (3, 0, 0, Status::ReadFault, "", ""),
    (0, 1, 0, Status::WriteFault, "", ""),
    (0, 6, 0, Status::WriteFault, "unit ", ""),
    (0, 0, 7, Status::WriteFault, BUILT, "built "),
    (0, 0, 0, Status::Clean, BUILT, "built M missing\n"),
];

#[test]
fn faults_end_a_run(rt: HostRuntime) -> Result<(), Fail> {
    let alloc = rt.alloc();
    for (tree_call, out_call, report_call, wanted, taken, reported) in FAULTS.iter().copied() {
        let fails = numbers(alloc, tree_call, tree_call)?;
        let mut tree = failing_tree(alloc, ONE_MODULE, fails)?;
        let mut out = MemSink::new(alloc, numbers(alloc, out_call, out_call)?, 1);
        let mut report = MemSink::new(alloc, numbers(alloc, report_call, report_call)?, 1);
        let words = ["build", "job.txt", "--report"];
        let mut cache = empty_cache(alloc);
        let (status, _) = run_words(alloc, &words, &mut tree, &mut cache, &mut out, &mut report)?;
        assert_eq!(rt; status, wanted);
        assert_eq!(rt; out.bytes(), taken.as_bytes());
        assert_eq!(rt; report.bytes(), reported.as_bytes());
    }
    Ok(())
}
