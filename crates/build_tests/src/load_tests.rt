use build_store::{Export, Find, Loaded, Table, find, load};
use cm_core::{List, PathText};
use cm_outside::{MemTree, Snapshot};
use std::alloc::Global;
use std::test::Fail;

/// A tree of files, each with its text.
fn tree_of(alloc: Global, files: &[(&str, &str)]) -> Result<MemTree, Fail> {
    let mut present = List::new(alloc);
    for (path, text) in files {
        let bytes = List::from_vec(Vec::from_slice(alloc, text.as_bytes())?);
        present.push((PathText::read(alloc, path)?, bytes))?;
    }
    Ok(MemTree::new(alloc, present, List::new(alloc)))
}

fn push_paths(text: &mut String, word: &str, paths: &[PathText]) -> Result<(), Fail> {
    for path in paths {
        text.push_str(word)?;
        text.push_str(path.text())?;
        text.push_str(" ")?;
    }
    Ok(())
}

/// Each module as `NAME:HEADER:EXPORT`, and each fault as `MAP:LINE`.
fn push_table(text: &mut String, table: &Table) -> Result<(), Fail> {
    for target in table.targets.items() {
        let export = match &target.export {
            Export::Nothing => "",
            Export::All => "*",
            Export::Module(name) => name.text(),
        };
        write!(
            text,
            "{}:{}:{} ",
            target.name.text(),
            target.header.text(),
            export
        )?;
    }
    for fault in table.faults.items() {
        write!(text, "{}:{} ", fault.map.text(), fault.line)?;
    }
    Ok(())
}

/// What the job `job.txt` of these files comes to.
fn loaded(alloc: Global, files: &[(&str, &str)]) -> Result<Loaded, Fail> {
    let mut tree = tree_of(alloc, files)?;
    let mut snapshot = Snapshot::new(alloc, &mut tree);
    let job = PathText::read(alloc, "job.txt")?;
    let mut numbers = List::new(alloc);
    Ok(load(alloc, &job, &mut snapshot, &mut numbers)?)
}

/// The job as a text, or `bad LINE`.
fn job_text(alloc: Global, files: &[(&str, &str)]) -> Result<String, Fail> {
    let mut text = String::new(alloc);
    let loaded = loaded(alloc, files)?;
    match &loaded {
        Loaded::Bad(line) => write!(text, "bad {line}")?,
        Loaded::Ready(job, _) => {
            push_paths(&mut text, "m:", job.maps.items())?;
            push_paths(&mut text, "i:", job.includes.items())?;
            push_paths(&mut text, "u:", job.units.items())?;
        }
    }
    Ok(text)
}

/// The table of a job as a text.
fn table_text(alloc: Global, files: &[(&str, &str)]) -> Result<String, Fail> {
    let mut text = String::new(alloc);
    let loaded = loaded(alloc, files)?;
    match &loaded {
        Loaded::Bad(line) => write!(text, "bad {line}")?,
        Loaded::Ready(_, table) => push_table(&mut text, table)?,
    }
    Ok(text)
}

#[test]
fn jobs_are_read(rt: HostRuntime) -> Result<(), Fail> {
    let alloc = rt.alloc();
    let rows = [
        ("", ""),
        (
            "unit u.c\nmap a/m.map\nunit ./v.c\ninclude inc\nmap n.map",
            "m:a/m.map m:n.map i:inc u:u.c u:v.c ",
        ),
        ("include .\ninclude a/../b\n", "i:. i:b "),
        ("unit u.c\nunits v.c\n", "bad 2"),
        ("unit u.c\n\nunit v.c\n", "bad 2"),
        ("unit  u.c\n", "bad 1"),
        ("unit u.c \n", "bad 1"),
        ("map m.map\nunit ../u.c\nmap\n", "bad 2"),
        ("map \n", "bad 1"),
    ];
    for (text, wanted) in &rows {
        let got = job_text(alloc, &[("job.txt", *text)])?;
        assert_eq!(rt; got.as_str(), *wanted);
    }
    let got = job_text(alloc, &[("other.txt", "unit u.c\n")])?;
    assert_eq!(rt; got.as_str(), "bad 1");
    Ok(())
}

#[test]
fn map_lines_are_read(rt: HostRuntime) -> Result<(), Fail> {
    let alloc = rt.alloc();
    let rows = [
        ("module A { header \"a.h\" }\n", "A:d/a.h: "),
        ("module A { header \"a.h\" export * }", "A:d/a.h:* "),
        (
            "module _a9 { header \"../b//a.h\" export _a9 }\n",
            "_a9:b/a.h:_a9 ",
        ),
        ("", ""),
        ("module A { header \"a.h\"}\n", "d/m.map:1 "),
        ("module A { header \"a.h\" export }\n", "d/m.map:1 "),
        ("module A { header \"a.h\" export A B }\n", "d/m.map:1 "),
        ("module A { header \"a.h\" export int }\n", "d/m.map:1 "),
        ("module int { header \"a.h\" }\n", "d/m.map:1 "),
        ("module A.B { header \"a.h\" }\n", "d/m.map:1 "),
        ("module A { header \"\" }\n", "d/m.map:1 "),
        ("module A { header \"/a.h\" }\n", "d/m.map:1 "),
        ("module A { header \"../../a.h\" }\n", "d/m.map:1 "),
        ("module A { header \"a b.h\" }\n", "d/m.map:1 "),
        ("module A { header \"a.h\" } \n", "d/m.map:1 "),
        ("\n", "d/m.map:1 "),
    ];
    for (text, wanted) in &rows {
        let got = table_text(alloc, &[("job.txt", "map d/m.map\n"), ("d/m.map", *text)])?;
        assert_eq!(rt; got.as_str(), *wanted);
    }
    Ok(())
}

#[test]
fn maps_make_a_table(rt: HostRuntime) -> Result<(), Fail> {
    let alloc = rt.alloc();
    let a = "module A { header \"a.h\" }\n";
    let rows = [
        // A name and a header are declared once, within a map and across maps.
        (
            "module A { header \"a.h\" }\nmodule A { header \"b.h\" }\nint",
            a,
            "A:a.h: 1.map:2 ",
        ),
        (
            "module A { header \"a.h\" }\nmodule B { header \"./a.h\" }\n",
            a,
            "A:a.h: 1.map:2 ",
        ),
        (
            a,
            "module B { header \"b.h\" }\nmodule A { header \"c.h\" }\n",
            "A:a.h: 2.map:2 ",
        ),
        (a, "module B { header \"a.h\" }\n", "A:a.h: 2.map:1 "),
        // An export may name a module of a later map, but not one that no map declares.
        (
            "module B { header \"b.h\" export A }\n",
            a,
            "B:b.h:A A:a.h: ",
        ),
        (
            a,
            "module B { header \"b.h\" export C }\nint\n",
            "A:a.h: 2.map:1 ",
        ),
        (
            a,
            "int\nmodule B { header \"b.h\" export C }\n",
            "A:a.h: 2.map:1 ",
        ),
        (
            "module B { header \"b.h\" export C }\nmodule C { header \"c.h\" }\nint",
            a,
            "A:a.h: 1.map:1 ",
        ),
        (
            "module B { header \"b.h\" export C }\n",
            "module D { header \"d.h\" export B }\n",
            "D:d.h:B 1.map:1 ",
        ),
        ("int\n", "int\n", "1.map:1 2.map:1 "),
    ];
    for (first, second, wanted) in &rows {
        let job = ("job.txt", "map 1.map\nmap 2.map\nmap ./1.map\n");
        let got = table_text(alloc, &[job, ("1.map", *first), ("2.map", *second)])?;
        assert_eq!(rt; got.as_str(), *wanted);
    }
    let got = table_text(
        alloc,
        &[("job.txt", "map 1.map\nmap 2.map\n"), ("2.map", a)],
    )?;
    assert_eq!(rt; got.as_str(), "A:a.h: 1.map:1 ");
    Ok(())
}

/// What an include of `text` in `file` finds, and how many files were asked for, by these include folders.
fn found(alloc: Global, folders: &[&str], file: &str, text: &str) -> Result<(Find, usize), Fail> {
    let files = [
        ("job.txt", "map m.map\n"),
        (
            "m.map",
            "module A { header \"i/a.h\" }\nmodule B { header \"j/a.h\" }\n",
        ),
        ("i/a.h", ""),
        ("j/a.h", ""),
        ("j/b.h", ""),
    ];
    let mut tree = tree_of(alloc, &files)?;
    let mut snapshot = Snapshot::new(alloc, &mut tree);
    let job = PathText::read(alloc, "job.txt")?;
    let mut numbers = List::new(alloc);
    let loaded = load(alloc, &job, &mut snapshot, &mut numbers)?;
    let Loaded::Ready(_, table) = loaded else {
        return Err("no job")?;
    };
    let mut includes = List::new(alloc);
    for folder in folders {
        includes.push(PathText::read(alloc, folder)?)?;
    }
    let file = PathText::read(alloc, file)?;
    let mut numbers = List::new(alloc);
    let found = find(
        alloc,
        &mut snapshot,
        includes.items(),
        &table,
        &file,
        text,
        &mut numbers,
    )?;
    Ok((found, numbers.len()))
}

#[test]
fn includes_are_found(rt: HostRuntime) -> Result<(), Fail> {
    let alloc = rt.alloc();
    let folders = ["i", "j"];
    let rows = [
        ("u.c", "a.h", Find::Header(0), 2),
        ("j/u.h", "a.h", Find::Header(1), 1),
        ("u.c", "b.h", Find::Plain, 3),
        ("u.c", "c.h", Find::Nothing, 3),
        ("j/u.h", "../i/a.h", Find::Header(0), 1),
        ("u.c", "../j/b.h", Find::Plain, 1),
        ("u.c", "../../b.h", Find::Nothing, 0),
        ("u.c", "", Find::Nothing, 0),
    ];
    for (file, text, wanted, asked) in &rows {
        let (got, count) = found(alloc, &folders, file, text)?;
        assert!(rt; got == *wanted);
        assert_eq!(rt; count, *asked);
    }
    let (got, _) = found(alloc, &["j", "i"], "u.c", "a.h")?;
    assert!(rt; got == Find::Header(1));
    Ok(())
}
