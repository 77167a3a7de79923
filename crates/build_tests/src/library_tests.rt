ghost use Rattle.std.specs.Prelude.{IfOk, OnOk};
ghost use Rattle.build_store.specs.Libraries.{IsOf};

use build_store::{Export, Library, Part, Table, Target};
use cm_core::{List, PathText, Str};
use std::alloc::Global;
use std::test::Fail;
use unit_fold::{At, Named};

/// A module as a test writes it: what it exports (nothing, `*` or a name), the object that it declares, and the names that it
/// imports.
struct Line {
    name: &'static str,
    export: &'static str,
    object: &'static str,
    imports: &'static [&'static str],
}

/// A exports all that it imports, B exports C, and C exports nothing; D exports B but imports A.
static LINES: [Line; 5] = [
    Line {
        name: "A",
        export: "*",
        object: "a",
        imports: &["B", "E"],
    },
    Line {
        name: "B",
        export: "C",
        object: "b",
        imports: &["D", "C"],
    },
    Line {
        name: "C",
        export: "",
        object: "c",
        imports: &["D"],
    },
    Line {
        name: "D",
        export: "B",
        object: "d",
        imports: &["A"],
    },
    Line {
        name: "E",
        export: "*",
        object: "e",
        imports: &["gone"],
    },
];

fn export_of(alloc: Global, text: &str) -> Result<Export, Fail> {
    if text == "" {
        return Ok(Export::Nothing);
    }
    if text == "*" {
        return Ok(Export::All);
    }
    Ok(Export::Module(Str::read(alloc, text)?))
}

fn table_of(alloc: Global, lines: &[Line]) -> Result<Table, Fail> {
    let mut targets = List::new(alloc);
    for line in lines {
        targets.push(Target {
            name: Str::read(alloc, line.name)?,
            header: PathText::read(alloc, line.name)?,
            export: export_of(alloc, line.export)?,
        })?;
    }
    let faults = List::new(alloc);
    Ok(Table { targets, faults })
}

fn part_of(alloc: Global, line: &Line) -> Result<Part, Fail> {
    let mut objects = List::new(alloc);
    let name = Str::read(alloc, line.object)?;
    let at = At { line: 1, column: 5 };
    objects.push(Named { name, at })?;
    let mut imports = List::new(alloc);
    for name in line.imports {
        imports.push(Str::read(alloc, name)?)?;
    }
    let faults = List::new(alloc);
    Ok(Part {
        objects,
        imports,
        faults,
    })
}

fn joined(alloc: Global, names: &[Str]) -> Result<String, Fail> {
    let mut text = String::new(alloc);
    for name in names {
        text.push_str(name.text())?;
        text.push_str(" ")?;
    }
    Ok(text)
}

/// Makes the part of the module at a place known, if the table has one there.
fn put(
    alloc: Global,
    table: &Table,
    library: &mut Library,
    at: usize,
    line: &Line,
) -> Result<(), Fail>
    requires { IsOf table.now library.old }
    ensures { OnOk result (IsOf table.now library.new) }
{
    if at >= table.targets.len() {
        return Ok(());
    }
    let part = part_of(alloc, line)?;
    library.set(alloc, table, at, part)?;
    Ok(())
}

/// The library of a table where these parts are known.
fn library_of(alloc: Global, table: &Table, lines: &[Line]) -> Result<Library, Fail>
    ensures { IfOk result (IsOf table.now) }
{
    let mut library = Library::new(alloc, table)?;
    for (at, line) in lines.iter().enumerate() {
        put(alloc, table, &mut library, at, line)?;
    }
    Ok(library)
}

/// The names that an import of module `x` makes visible, or none where the table has no such module.
fn brought(alloc: Global, table: &Table, library: &Library, x: usize) -> Result<List<Str>, Fail>
    requires { IsOf table.now library.now }
{
    if x >= table.targets.len() {
        return Ok(List::new(alloc));
    }
    Ok(library.brought(alloc, x)?)
}

/// The names that an import of module `x` makes visible, where the parts of these modules are known.
fn shown(alloc: Global, known: &[Line], x: usize) -> Result<String, Fail> {
    let table = table_of(alloc, &LINES)?;
    let library = library_of(alloc, &table, known)?;
    let names = brought(alloc, &table, &library, x)?;
    joined(alloc, names.items())
}

#[test]
fn brings_what_is_exported(rt: HostRuntime) -> Result<(), Fail> {
    assert_eq!(rt; shown(rt.alloc(), &LINES, 0)?.as_str(), "a b c e ");
    assert_eq!(rt; shown(rt.alloc(), &LINES, 1)?.as_str(), "b c ");
    assert_eq!(rt; shown(rt.alloc(), &LINES, 2)?.as_str(), "c ");
    assert_eq!(rt; shown(rt.alloc(), &LINES, 3)?.as_str(), "d ");
    assert_eq!(rt; shown(rt.alloc(), &LINES, 4)?.as_str(), "e ");
    Ok(())
}

#[test]
fn brings_what_is_known(rt: HostRuntime) -> Result<(), Fail> {
    assert_eq!(rt; shown(rt.alloc(), &LINES[..0], 0)?.as_str(), "");
    assert_eq!(rt; shown(rt.alloc(), &LINES[..2], 0)?.as_str(), "a b ");
    assert_eq!(rt; shown(rt.alloc(), &LINES[..2], 2)?.as_str(), "");
    let table = table_of(rt.alloc(), &LINES)?;
    let library = Library::new(rt.alloc(), &table)?;
    assert!(rt; library.part(0).is_none() && library.part(9).is_none());
    Ok(())
}
