ghost use Rattle.std.specs.Prelude.{IfOk};
ghost use Rattle.unit_fold.specs.Steps.{AnswersText, AnswersInclude, WaitsFor};
ghost use Rattle.unit_fold.specs.declared.fold.Event.TheVariants.{Done};

use crate::{
    At, Event, FaultAt, FaultKind, Fold, FoldFault, Given, Imported, Item, Named, Owned, has_fault,
    push_fault, push_unit,
};
use cm_core::{List, Owner, PathText, Str, SubNo};
use std::alloc::Global;
use std::process::Abort;
use std::test::Fail;

/// The most needs of a fold of these tests.
const MOST_NEEDS: u32 = 1000;

const PLACE: At = At { line: 3, column: 5 };

/// A text, and the block of a unit that has it.
type Case = (&'static str, &'static str);

const FORMS: &[Case] = &[
    ("", "unit u.c\nend u.c clean\n"),
    (";;\n", "unit u.c\nend u.c clean\n"),
    (
        "int x;",
        "unit u.c\ndecl u.c:1:5 none object x : int\nend u.c clean\n",
    ),
    (
        "int x; int\n  x\n;",
        "unit u.c\ndecl u.c:1:5 none object x : int\ndecl u.c:2:3 none object x : int\nend u.c clean\n",
    ),
    // a trigraph that joins two lines in a name, behind a comment over two lines
    (
        "int /* a\nb */ x??/\ny;",
        "unit u.c\ndecl u.c:2:6 none object xy : int\nend u.c clean\n",
    ),
    (
        "#include \"m.h\"\nint x;\nint*p=&x;\nint *q = & m;\n",
        "unit u.c\nimport u.c:1:1 M\ndecl u.c:2:5 none object x : int\ndecl u.c:3:5 none object p : pointer to int\ndecl u.c:4:6 none object q : pointer to int\nend u.c clean\n",
    ),
    // a digraph and a comment in a directive, which ends with the file
    (
        "int x;\n /**/ %:/**/include \"m.h\" // M",
        "unit u.c\ndecl u.c:1:5 none object x : int\nimport u.c:2:7 M\nend u.c clean\n",
    ),
    (
        "#include \"skip.h\"\nint x;\n",
        "unit u.c\ndecl u.c:2:5 none object x : int\nend u.c clean\n",
    ),
    (
        "#include \"cyclic.h\"\nint x;\n",
        "unit u.c\nerror u.c:1:1 E052 module 'C' is cyclic\ndecl u.c:2:5 none object x : int\nend u.c failed\n",
    ),
    // an operand that no declaration makes visible, with its place
    (
        "int *p = &b;\nint *ptr = &b;\nint b;\nint *q = &b;\n",
        "unit u.c\ndecl u.c:1:6 none object p : pointer to int\nerror u.c:1:11 E110 'b' is not declared\ndecl u.c:2:6 none object ptr : pointer to int\nerror u.c:2:13 E110 'b' is not declared\ndecl u.c:3:5 none object b : int\ndecl u.c:4:6 none object q : pointer to int\nend u.c failed\n",
    ),
];

/// Pieces that declare nothing, after which the unit goes on.
const PIECES: &[Case] = &[
    (
        " long x;\nint y;\n",
        "unit u.c\nerror u.c:1:2 E005 not built yet\ndecl u.c:2:5 none object y : int\nend u.c failed\n",
    ),
    // a `;` in brackets ends no piece, nor does a `}` behind an `=`
    (
        "struct { int x; } y; int a[1] = { 1 }; int f(void) { ; } int z;",
        "unit u.c\nerror u.c:1:1 E005 not built yet\nerror u.c:1:22 E005 not built yet\nerror u.c:1:40 E005 not built yet\ndecl u.c:1:62 none object z : int\nend u.c failed\n",
    ),
    (
        "int *if = &x; int *p = &if; int int; in x;\n",
        "unit u.c\nerror u.c:1:1 E005 not built yet\nerror u.c:1:15 E005 not built yet\nerror u.c:1:29 E005 not built yet\nerror u.c:1:38 E005 not built yet\nend u.c failed\n",
    ),
    // a `#` that isn't the first token of its line
    (
        "int #x;\nint y;\n",
        "unit u.c\nerror u.c:1:1 E005 not built yet\ndecl u.c:2:5 none object y : int\nend u.c failed\n",
    ),
    // an open piece at the end
    (
        "int x;\nint y = { 1;\n",
        "unit u.c\ndecl u.c:1:5 none object x : int\nerror u.c:2:1 E005 not built yet\nend u.c failed\n",
    ),
    // what the lexer refuses, and the piece that is open there
    (
        "int x; int /* y;\n",
        "unit u.c\ndecl u.c:1:5 none object x : int\nerror u.c:1:12 E010 comment is not closed\nerror u.c:1:8 E005 not built yet\nend u.c failed\n",
    ),
    (
        "int x;\0int y;\n",
        "unit u.c\ndecl u.c:1:5 none object x : int\nerror u.c:1:7 E011 zero byte\nend u.c failed\n",
    ),
    (
        "#include \"m.h\" /*\n",
        "unit u.c\nerror u.c:1:16 E010 comment is not closed\nend u.c failed\n",
    ),
    // the pointer's name is visible, or is its own operand
    (
        "int x;\nint *x = &y;\nint y;\n",
        "unit u.c\ndecl u.c:1:5 none object x : int\nerror u.c:2:1 E005 not built yet\ndecl u.c:3:5 none object y : int\nend u.c failed\n",
    ),
    (
        "#include \"m.h\"\nint *n = &m;\n",
        "unit u.c\nimport u.c:1:1 M\nerror u.c:2:1 E005 not built yet\nend u.c failed\n",
    ),
    (
        "int *p = &p;\n",
        "unit u.c\nerror u.c:1:1 E005 not built yet\nend u.c failed\n",
    ),
    (
        "int x;\nint *p = &x;\nint *p = &x;\n",
        "unit u.c\ndecl u.c:1:5 none object x : int\ndecl u.c:2:6 none object p : pointer to int\nerror u.c:3:1 E005 not built yet\nend u.c failed\n",
    ),
    // the operand is a pointer
    (
        "int x;\nint *p = &x;\nint *q = &p;\n",
        "unit u.c\ndecl u.c:1:5 none object x : int\ndecl u.c:2:6 none object p : pointer to int\nerror u.c:3:1 E005 not built yet\nend u.c failed\n",
    ),
    // an object of a pointer's name
    (
        "int x;\nint *p = &x;\nint p;\n",
        "unit u.c\ndecl u.c:1:5 none object x : int\ndecl u.c:2:6 none object p : pointer to int\nerror u.c:3:1 E005 not built yet\nend u.c failed\n",
    ),
];

/// Directives that end a unit at their `#`.
const ENDS: &[Case] = &[
    (
        "#include \"no.h\"\nint y;\n",
        "unit u.c\nerror u.c:1:1 E005 not built yet\nend u.c failed\n",
    ),
    (
        "#\nint y;\n",
        "unit u.c\nerror u.c:1:1 E005 not built yet\nend u.c failed\n",
    ),
    (
        "  #define X\nint y;\n",
        "unit u.c\nerror u.c:1:3 E005 not built yet\nend u.c failed\n",
    ),
    (
        "#include <m.h>\nint y;\n",
        "unit u.c\nerror u.c:1:1 E005 not built yet\nend u.c failed\n",
    ),
    (
        "#include \"\"\nint y;\n",
        "unit u.c\nerror u.c:1:1 E005 not built yet\nend u.c failed\n",
    ),
    (
        "#include \"m.h\" x\nint y;\n",
        "unit u.c\nerror u.c:1:1 E005 not built yet\nend u.c failed\n",
    ),
    // a directive inside a piece, which is dropped
    (
        "int\n#include \"m.h\"\nx;\n",
        "unit u.c\nerror u.c:2:1 E005 not built yet\nend u.c failed\n",
    ),
    // an import that brings a name that a pointer has
    (
        "int x;\nint *n = &x;\n#include \"m.h\"\nint y;\n",
        "unit u.c\ndecl u.c:1:5 none object x : int\ndecl u.c:2:6 none object n : pointer to int\nerror u.c:3:1 E005 not built yet\nend u.c failed\n",
    ),
];

fn import_of(alloc: Global) -> Result<Imported, Fail> {
    Ok(Imported {
        sub: SubNo { index: 7 },
        name: Str::read(alloc, "M")?,
    })
}

fn two_names(alloc: Global) -> Result<List<Str>, Fail> {
    let mut names = List::new(alloc);
    names.push(Str::read(alloc, "m")?)?;
    names.push(Str::read(alloc, "n")?)?;
    Ok(names)
}

/// What is given for the include of a text.
fn include_answer(alloc: Global, text: &str) -> Result<Given, Fail>
    ensures { IfOk result AnswersInclude }
{
    match text {
        "m.h" => Ok(Given::Imported(import_of(alloc)?, two_names(alloc)?)),
        "cyclic.h" => Ok(Given::Refused(FaultKind::CyclicModule(Str::read(alloc, "C")?))),
        "skip.h" => Ok(Given::Skip),
        _ => Ok(Given::NotBuilt),
    }
}

/// A file that an owner has next.
#[derive(Clone, Copy)]
enum File<'a> {
    Absent,
    Bytes(&'a [u8]),
}

/// What is given for the next file, or for none.
fn next_text(alloc: Global, file: Option<File>) -> Result<Given, Fail>
    ensures { IfOk result AnswersText }
{
    match file {
        None => Ok(Given::Skip),
        Some(File::Absent) => Ok(Given::Refused(FaultKind::Absent)),
        Some(File::Bytes(bytes)) => {
            let bytes = bytes.to_vec(alloc)?;
            Ok(Given::Text(List::from_vec(bytes), PathText::read(alloc, "u.c")?))
        }
    }
}

/// Gives a fold what it needs, where that is the next file this one.
fn feed(alloc: Global, fold: &mut Fold, event: &Event, file: Option<File>) -> Result<Event, Fail>
    requires { WaitsFor event.now fold.old.stage }
    ensures { IfOk result (λ event. WaitsFor event fold.new.stage) }
{
    match event {
        Event::NeedText => {
            let given = next_text(alloc, file)?;
            Ok(fold.advance(alloc, given)?)
        }
        Event::NeedInclude(text, _) => {
            let given = include_answer(alloc, text.text())?;
            Ok(fold.advance(alloc, given)?)
        }
        Event::Done => Ok(Event::Done),
    }
}

/// A fold of an owner of these files that has come to its end.
fn ended(alloc: Global, owner: Owner, files: &[File]) -> Result<Fold, Fail>
    ensures { IfOk result (λ fold. WaitsFor Done fold.stage) }
{
    let mut fold = Fold::begin(alloc, owner);
    let mut event = fold.advance(alloc, Given::Again)?;
    let mut taken: usize = 0;
    for _ in 0..MOST_NEEDS {
        if let Event::Done = event {
            return Ok(fold);
        }
        let file = files.get(taken).copied();
        if let Event::NeedText = event {
            taken = taken.saturating_add(1);
        }
        event = feed(alloc, &mut fold, &event, file)?;
    }
    Err("too many needs")?
}

/// What an owner of these files comes to.
fn folded(alloc: Global, owner: Owner, files: &[File]) -> Result<Owned, Fail> {
    Ok(ended(alloc, owner, files)?.close())
}

fn block(alloc: Global, items: &[Item]) -> Result<Vec<u8>, Fail> {
    let mut out = Vec::new(alloc);
    push_unit(&mut out, &PathText::read(alloc, "u.c")?, items)?;
    Ok(out)
}

fn check_cases<A: Abort>(rt: &A, alloc: Global, cases: &[Case]) -> Result<(), Fail> {
    for (text, wanted) in cases.iter().copied() {
        let owned = folded(alloc, Owner::Unit, &[File::Bytes(text.as_bytes())])?;
        let out = block(alloc, owned.items.items())?;
        assert_eq!(rt; str::from_utf8(&out)?, wanted, "of {text:?}");
    }
    Ok(())
}

#[test]
fn forms_of_piece(rt: HostRuntime) -> Result<(), Fail> {
    check_cases(&rt, rt.alloc(), FORMS)
}

#[test]
fn pieces_that_are_not_built(rt: HostRuntime) -> Result<(), Fail> {
    check_cases(&rt, rt.alloc(), PIECES)
}

#[test]
fn what_ends_a_unit(rt: HostRuntime) -> Result<(), Fail> {
    check_cases(&rt, rt.alloc(), ENDS)
}

#[test]
fn a_header_has_no_pointers(rt: HostRuntime) -> Result<(), Fail> {
    let alloc = rt.alloc();
    let owner = Owner::Sub(SubNo { index: 1 });
    let files = [
        File::Bytes(b"int x;\n"),
        File::Bytes(b"#include \"m.h\"\nint *p = &x;\nint y;\n"),
    ];
    let owned = folded(alloc, owner, &files)?;
    let out = block(alloc, owned.items.items())?;
    assert_eq!(rt;
        str::from_utf8(&out)?,
        "unit u.c\ndecl u.c:1:5 none object x : int\nimport u.c:1:1 M\nerror u.c:2:1 E005 not built yet\ndecl u.c:3:5 none object y : int\nend u.c failed\n"
    );
    assert_eq!(rt; owned.brought.len(), 2);
    assert!(rt; has_fault(owned.items.items()));
    Ok(())
}

#[test]
fn a_piece_in_two_files(rt: HostRuntime) -> Result<(), Fail> {
    let alloc = rt.alloc();
    let owner = Owner::Sub(SubNo { index: 1 });
    let owned = folded(
        alloc,
        owner,
        &[File::Bytes(b"int x; int\n"), File::Bytes(b"y; int")],
    )?;
    let out = block(alloc, owned.items.items())?;
    assert_eq!(rt;
        str::from_utf8(&out)?,
        "unit u.c\ndecl u.c:1:5 none object x : int\ndecl u.c:1:1 none object y : int\nerror u.c:1:4 E005 not built yet\nend u.c failed\n"
    );
    Ok(())
}

#[test]
fn a_text_that_is_refused(rt: HostRuntime) -> Result<(), Fail> {
    let alloc = rt.alloc();
    let mut fold = ended(alloc, Owner::Unit, &[File::Absent])?;
    assert_eq!(rt; fold.entered().len(), 0);
    assert!(rt; !fold.pending());
    assert_eq!(rt; fold.once().len(), 0);
    let again = fold.advance(alloc, Given::Again);
    assert!(rt; matches!(again, Err(FoldFault::Spent)));
    let owned = fold.close();
    let out = block(alloc, owned.items.items())?;
    assert_eq!(rt;
        str::from_utf8(&out)?,
        "unit u.c\nerror u.c:1:1 E001 file 'u.c' is absent\nend u.c failed\n"
    );
    Ok(())
}

#[test]
fn a_text_that_is_not_utf8(rt: HostRuntime) -> Result<(), Fail> {
    let alloc = rt.alloc();
    let files = [File::Bytes(b"int \xff;"), File::Bytes(b"int")];
    let fold = ended(alloc, Owner::Unit, &files)?;
    assert_eq!(rt; fold.entered().len(), 1);
    assert!(rt; !fold.pending());
    let owned = fold.close();
    let out = block(alloc, owned.items.items())?;
    assert_eq!(rt;
        str::from_utf8(&out)?,
        "unit u.c\nerror u.c:1:1 E003 file 'u.c' is not UTF-8 at byte 4\nerror u.c:1:1 E005 not built yet\nend u.c failed\n"
    );
    Ok(())
}

#[test]
fn a_diagnostic_at_a_place(rt: HostRuntime) -> Result<(), Fail> {
    let alloc = rt.alloc();
    let path = PathText::read(alloc, "m.map")?;
    let at = At {
        line: 3,
        column: 14,
    };
    let kinds = [
        FaultKind::TooLarge(16_777_217),
        FaultKind::LongName,
        FaultKind::ManyTokens,
    ];
    let mut out = Vec::new(alloc);
    for kind in &kinds {
        push_fault(&mut out, &path, at, kind)?;
    }
    assert_eq!(rt;
        str::from_utf8(&out)?,
        "error m.map:3:14 E002 file 'm.map' has 16777217 bytes, more than 16777216\nerror m.map:3:14 E012 identifier is longer than 4096 bytes\nerror m.map:3:14 E068 more than 2000000 tokens\n"
    );
    Ok(())
}

#[test]
fn copies_of_names(rt: HostRuntime) -> Result<(), Fail> {
    let alloc = rt.alloc();
    let named = Named {
        name: Str::read(alloc, "x")?,
        at: PLACE,
    };
    assert_eq!(rt; named.copy(alloc)?.at, PLACE);
    assert_eq!(rt; import_of(alloc)?.copy(alloc)?.sub.index, 7);
    Ok(())
}

#[test]
fn copies_of_diagnostics(rt: HostRuntime) -> Result<(), Fail> {
    let alloc = rt.alloc();
    let fault = FaultAt {
        at: PLACE,
        kind: FaultKind::NotBuilt.copy(alloc)?,
    };
    assert_eq!(rt; fault.copy(alloc)?.at, PLACE);
    let item = Item::Fault(fault).copy(alloc)?;
    assert!(rt; matches!(item, Item::Fault(_)));
    Ok(())
}

#[test]
fn copies_of_steps(rt: HostRuntime) -> Result<(), Fail> {
    let alloc = rt.alloc();
    let given = Given::Imported(import_of(alloc)?, two_names(alloc)?).copy(alloc)?;
    assert!(rt; matches!(given, Given::Imported(_, _)));
    let event = Event::NeedInclude(Str::read(alloc, "m.h")?, PLACE).copy(alloc)?;
    assert!(rt; matches!(event, Event::NeedInclude(_, PLACE)));
    Ok(())
}
