//! How a unit is cut into pieces, from its bytes to the lines that are written.

use crate::builds::{ONE_MODULE, empty_cache, run_words, set, sink, tree_of};
use cm_core::{List, Status};
use cm_outside::MemSink;
use std::alloc::Global;
use std::process::Abort;
use std::test::Fail;

/// The text of a unit, and the lines of its block between the first and the last.
type Case = (&'static [u8], &'static str);

/// Brackets, and what ends a piece.
const OF_BRACKETS: &[Case] = &[
    (b"", ""),
    (b";", ""),
    (b"; ;;int x;;", "decl u.c:1:9 none object x : int\n"),
    (
        b"int\nx\n;int y;",
        "decl u.c:2:1 none object x : int\ndecl u.c:3:6 none object y : int\n",
    ),
    // a `;` in brackets of each form ends no piece
    (
        b"f(;); int x;",
        "error u.c:1:1 E005 not built yet\ndecl u.c:1:11 none object x : int\n",
    ),
    (
        b"a[;]; int x;",
        "error u.c:1:1 E005 not built yet\ndecl u.c:1:11 none object x : int\n",
    ),
    (
        b"s{;}; int x;",
        "error u.c:1:1 E005 not built yet\ndecl u.c:1:11 none object x : int\n",
    ),
    (
        b"a<:;:>; int x;",
        "error u.c:1:1 E005 not built yet\ndecl u.c:1:13 none object x : int\n",
    ),
    (
        b"s<%;%>; int x;",
        "error u.c:1:1 E005 not built yet\ndecl u.c:1:13 none object x : int\n",
    ),
    (
        b"??<;??>; int x;",
        "error u.c:1:1 E005 not built yet\ndecl u.c:1:14 none object x : int\n",
    ),
    // a closing bracket of another kind closes as well, and one too many closes nothing
    (
        b"a[;); int x;",
        "error u.c:1:1 E005 not built yet\ndecl u.c:1:11 none object x : int\n",
    ),
    (
        b")]}; int x;",
        "error u.c:1:1 E005 not built yet\ndecl u.c:1:10 none object x : int\n",
    ),
    // a function ends at the brace that closes its body
    (
        b"int f(void) { { ; } } int x;",
        "error u.c:1:1 E005 not built yet\ndecl u.c:1:27 none object x : int\n",
    ),
    // and a list of initialisers or of members doesn't
    (
        b"int a[2] = { 1, 2 } ; int x;",
        "error u.c:1:1 E005 not built yet\ndecl u.c:1:27 none object x : int\n",
    ),
    (
        b"int b = f() { } ; int x;",
        "error u.c:1:1 E005 not built yet\ndecl u.c:1:23 none object x : int\n",
    ),
    (
        b"struct s { int a; } ; int x;",
        "error u.c:1:1 E005 not built yet\ndecl u.c:1:27 none object x : int\n",
    ),
    // what is left at the end is a piece
    (
        b"int x; int y",
        "decl u.c:1:5 none object x : int\nerror u.c:1:8 E005 not built yet\n",
    ),
    (b"int x = (;;;\n;\n", "error u.c:1:1 E005 not built yet\n"),
];

/// Quotes, comments and directives.
const OF_DIRECTIVES: &[Case] = &[
    // texts of quotes and comments
    (
        b"s = \";\"; c = ';'; int /* ; */ x; // ;\n",
        "error u.c:1:1 E005 not built yet\nerror u.c:1:10 E005 not built yet\ndecl u.c:1:31 none object x : int\n",
    ),
    // a directive inside a piece ends the unit, and the open piece is dropped
    (
        b"int x; int\n#include \"m.h\"\ny; int z;\n",
        "decl u.c:1:5 none object x : int\nerror u.c:2:1 E005 not built yet\n",
    ),
    // as one of another form does, and an include of another form
    (
        b"int x;\n  #pragma once\nint y;\n",
        "decl u.c:1:5 none object x : int\nerror u.c:2:3 E005 not built yet\n",
    ),
    (
        b"#include <m.h>\nint x;\n",
        "error u.c:1:1 E005 not built yet\n",
    ),
    (
        b"#include \"m.h\" x\n",
        "error u.c:1:1 E005 not built yet\n",
    ),
    // an include that finds nothing, whatever its text
    (
        b"#include \"a b.h\"\n",
        "error u.c:1:1 E005 not built yet\n",
    ),
    // a directive in other words
    (
        b" %:\\\ninclude/**/\"m.h\" // M\nint *p = &m;\n",
        "import u.c:1:2 M\ndecl u.c:3:6 none object p : pointer to int\n",
    ),
];

/// The block of the unit with these lines.
fn block(alloc: Global, lines: &str) -> Result<String, Fail> {
    let state = if lines.contains("error ") {
        "failed"
    } else {
        "clean"
    };
    Ok(format!(in alloc; "unit u.c\n{lines}end u.c {state}\n")?)
}

/// Builds over units of these texts.
fn check_units<A: Abort>(rt: &A, alloc: Global, cases: &[Case]) -> Result<(), Fail> {
    for (text, lines) in cases.iter().copied() {
        let mut tree = tree_of(alloc, ONE_MODULE)?;
        set(alloc, &mut tree, "u.c", text)?;
        let mut out = sink(alloc);
        let words = ["build", "job.txt"];
        run_words(
            alloc,
            &words,
            &mut tree,
            &mut empty_cache(alloc),
            &mut out,
            &mut sink(alloc),
        )?;
        assert_eq!(rt;
            out.bytes(),
            block(alloc, lines)?.as_str().as_bytes(),
            "{lines}"
        );
    }
    Ok(())
}

#[test]
fn units_are_cut_into_pieces(rt: HostRuntime) -> Result<(), Fail> {
    check_units(&rt, rt.alloc(), OF_BRACKETS)
}

#[test]
fn directives_and_pieces(rt: HostRuntime) -> Result<(), Fail> {
    check_units(&rt, rt.alloc(), OF_DIRECTIVES)
}

const FAULTY_UNIT: &[u8] = b"#include \"m.h\"\nint x;\nlong y;\n int /* z;\n";

const FAULTY_OUTPUT: &str =
    "module M\nerror inc/m.h:1:8 E010 comment is not closed\nend M failed\nunit u.c\nimport u.c:1:1 M\ndecl u.c:2:5 none object x : int\nerror u.c:3:1 E005 not built yet\nerror u.c:4:6 E010 comment is not closed\nerror u.c:4:2 E005 not built yet\nend u.c failed\n";

/// Each byte of an output with diagnostics is written by a call of its own.
#[test]
fn a_sink_that_takes_one_byte_a_call(rt: HostRuntime) -> Result<(), Fail> {
    let alloc = rt.alloc();
    let mut tree = tree_of(alloc, ONE_MODULE)?;
    set(alloc, &mut tree, "inc/m.h", b"int m; /*")?;
    set(alloc, &mut tree, "u.c", FAULTY_UNIT)?;
    let mut cache = empty_cache(alloc);
    for reported in ["built M missing\n", "loaded M\n"] {
        let mut out = MemSink::new(alloc, List::new(alloc), 1);
        let mut report = MemSink::new(alloc, List::new(alloc), 1);
        let words = ["build", "job.txt", "--report"];
        let (status, _) = run_words(alloc, &words, &mut tree, &mut cache, &mut out, &mut report)?;
        assert_eq!(rt; status, Status::Diagnosed);
        assert_eq!(rt; out.bytes(), FAULTY_OUTPUT.as_bytes());
        assert_eq!(rt; report.bytes(), reported.as_bytes());
        assert_eq!(rt; out.calls(), FAULTY_OUTPUT.len() as u64);
    }
    Ok(())
}
