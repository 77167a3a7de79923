//! Job files and scripts, each with what it is read as: its parts in the order of the types, or its fault.

use crate::{Job, JobFault, JobKind, ScriptLine, parse_job, parse_script};
use cm_core::{Define, List, PathText};
use std::alloc::Global;
use std::test::Fail;

/// The bytes of a file, and what it is read as.
type Case = (&'static [u8], &'static str);

static FORMS: &[Case] = &[
    (b"", ""),
    (b"\n\r\n \t \n# map /\n\t# x\n", ""),
    (
        b"map m.map\ninclude inc\nunit u.c",
        "map m.map, include inc, unit u.c, ",
    ),
    (
        b"unit b.c\nmap b\nunit a.c\nmap a\n",
        "map b, map a, unit b.c, unit a.c, ",
    ),
    (b" \tmap \t m.map\t \r\n", "map m.map, "),
    (b"unit\tu.c\r\n", "unit u.c, "),
    (b"\tinclude \t inc \r\n", "include inc, "),
    (b"unit u.c\r", "unit u.c\r, "),
    (b"unit u.c\r\r\n", "unit u.c\r, "),
    (b"unit a b.c\n", "unit a b.c, "),
    (b"unit ./x//../u.c\n", "unit u.c, "),
    (b"unit #.c\n", "unit #.c, "),
    (b"unit check-use\n", "unit check-use, "),
    (b"check-use\n", "check-use, "),
    (b" check-use \t\r\ncheck-use\n", "check-use, "),
    (b"unit \xc3\xa9.c\n", "unit \u{e9}.c, "),
];

static DEFINITIONS: &[Case] = &[
    (b"define A\n", "define A [1], "),
    (b"define A=\n", "define A , "),
    (b"define A=1 2\n", "define A [1][ 2], "),
    (b" define \tA=1 \r\n", "define A [1], "),
    (b"define A= \t1/**/+  2 // x\n", "define A [1][ +][ 2], "),
    (b"define A=b=c\n", "define A [b][=][c], "),
    (b"define A=x ## y\n", "define A [x][ ##][ y], "),
    (b"define A=\"##\"\n", "define A [\"##\"], "),
    (b"define A=# ###\n", "define A [#][ ##][#], "),
    (b"define A=(x) \"a b\n", "define A [(][x][)][ \"][a][ b], "),
    (b"define A=??(\\\n", "define A [[][\\], "),
    (b"define A=//\n", "define A , "),
    (
        b"define\t_b2\ndefine _B2=0\n",
        "define _b2 [1], define _B2 [0], ",
    ),
    (b"define defined=int\n", "define defined [int], "),
];

static BAD_LINES: &[Case] = &[
    (b"map\n", "1 Form"),
    (b"include\n", "1 Form"),
    (b"unit \n", "1 Form"),
    (b"define\n", "1 Form"),
    (b"mapm.map\n", "1 Form"),
    (b"Map m.map\n", "1 Form"),
    (b"module m.map\n", "1 Form"),
    (b"check-use x\n", "1 Form"),
    (b"check-usex\n", "1 Form"),
    (b"check\n", "1 Form"),
    (b"x\n", "1 Form"),
    (b"// x\n", "1 Form"),
    (b"map\x0cm.map\n", "1 Form"),
    (b"map /m.map\n", "1 Path"),
    (b"include ../inc\n", "1 Path"),
    (b"unit a/../../u.c\n", "1 Path"),
    (b"unit a\0\n", "1 Path"),
    (b"\n# x\nmap m\n\nunit /\nx\n", "5 Path"),
    (b"x\nunit /\n", "1 Form"),
    (b"define =1\n", "1 Macro"),
    (b"define 1A\n", "1 Macro"),
    (b"define A =1\n", "1 Macro"),
    (b"define A B\n", "1 Macro"),
    (b"define A(x)=x\n", "1 Macro"),
    (b"define \xc3\xa9\n", "1 Macro"),
    (b"define A\ndefine B\ndefine A=2\n", "3 Macro"),
    (b"define __FILE__\n", "1 Macro"),
    (b"define __STDC__=1\n", "1 Macro"),
    (b"define __STDC_HOSTED__=1\n", "1 Macro"),
    (b"define __STDC_VERSION__=1\n", "1 Macro"),
    (b"define __LINE__\n", "1 Macro"),
    (b"define __DATE__\n", "1 Macro"),
    (b"define __TIME__\n", "1 Macro"),
    (b"define A=/*\n", "1 Macro"),
    (b"define A=\0\n", "1 Macro"),
    (b"define A=##\n", "1 Macro"),
    (b"define A=## x\n", "1 Macro"),
    (b"define A=x ##/**/\n", "1 Macro"),
    (b"define A=%:%:x\n", "1 Macro"),
    (b"define A=x%:%:\n", "1 Macro"),
    (b"define A=??=??=x\n", "1 Macro"),
    (b"x\n\xff", "text 2"),
];

static SCRIPTS: &[Case] = &[
    (b"", ""),
    (b"\n# write\n\n", ""),
    (b"write u.c int x;\\n\n", "write u.c [int x;\n], "),
    (b"write u.c \nwrite u.c  ", "write u.c [], write u.c [ ], "),
    (
        b"write u.c \\n\\t\\\\\\x41\\x7a\\x7A \\x0a\\\\n",
        "write u.c [\n\t\\Azz \n\\n], ",
    ),
    (b"write ./a/../b #\\x23", "write b [##], "),
    (b"write u.c \\x6f\\x4F\\x00\n", "write u.c [oO\0], "),
    (
        b"remove u.c\ndrop 0\ntear 3 10\n",
        "remove u.c, drop 0, tear 3 10, ",
    ),
    (b"drop 18446744073709551615", "drop 18446744073709551615, "),
    (
        b"tear 18446744073709551615 0",
        "tear 18446744073709551615 0, ",
    ),
    (
        b"build job.txt\nbuild job.txt --uses\n",
        "build job.txt, build job.txt with uses, ",
    ),
    (b"build --uses\n", "build --uses, "),
    (b"remove u.c\r\n", "remove u.c\r, "),
];

static BAD_SCRIPTS: &[Case] = &[
    (b"write\n", "1 Form"),
    (b"write u.c\n", "1 Form"),
    (b"write u.c \\\n", "1 Form"),
    (b"write u.c \\r\n", "1 Form"),
    (b"write u.c a\\N\n", "1 Form"),
    (b"write u.c \\x4\n", "1 Form"),
    (b"write u.c \\x4g\n", "1 Form"),
    (b"write u.c \\xg4\n", "1 Form"),
    (b"write u.c \\X41\n", "1 Form"),
    (b"write  u.c x\n", "1 Path"),
    (b"write /u.c \\q\n", "1 Path"),
    (b"write /u.c\n", "1 Path"),
    (b"remove \n", "1 Path"),
    (b"remove ..\n", "1 Path"),
    (b"remove a b\n", "1 Form"),
    (b"remove a \n", "1 Form"),
    (b"remove\n", "1 Form"),
    (b"build /j --uses\n", "1 Path"),
    (b"build j --use\n", "1 Form"),
    (b"build j  --uses\n", "1 Form"),
    (b"build j --uses \n", "1 Form"),
    (b"build j --uses --uses\n", "1 Form"),
    (b" # x\n", "1 Form"),
    (b" \n", "1 Form"),
    (b"\r\n", "1 Form"),
    (b"remove /a b\n", "1 Path"),
    (b"build\n", "1 Form"),
    (b"build \n", "1 Path"),
    (b"build a b\n", "1 Form"),
    (b"tear\n", "1 Form"),
    (b"drop\n", "1 Form"),
    (b"drop \n", "1 Form"),
    (b"drop 00\n", "1 Form"),
    (b"drop 01\n", "1 Form"),
    (b"drop +1\n", "1 Form"),
    (b"drop -1\n", "1 Form"),
    (b"drop 1 \n", "1 Form"),
    (b"drop 1\r\n", "1 Form"),
    (b"drop 1a\n", "1 Form"),
    (b"drop 18446744073709551616\n", "1 Form"),
    (b"drop 99999999999999999999\n", "1 Form"),
    (b"tear 1\n", "1 Form"),
    (b"tear 1 2 3\n", "1 Form"),
    (b"tear 1 18446744073709551616\n", "1 Form"),
    (b"tear  1 2\n", "1 Form"),
    (b" drop 1\n", "1 Form"),
    (b"Drop 1\n", "1 Form"),
    (b"play x\n", "1 Form"),
    (b"drop 1\n\n# x\nremove /\nplay x\n", "4 Path"),
    (b"drop 1\nplay x\nremove /\n", "2 Form"),
    (b"play\n\x80", "text 5"),
];

#[test]
fn job_lines_of_each_form(rt: HostRuntime) -> Result<(), Fail> {
    for (bytes, wanted) in FORMS {
        assert_eq!(rt; job_text(rt.alloc(), bytes)?.as_str(), *wanted, "{bytes:?}");
    }
    Ok(())
}

#[test]
fn definitions_of_each_form(rt: HostRuntime) -> Result<(), Fail> {
    for (bytes, wanted) in DEFINITIONS {
        assert_eq!(rt; job_text(rt.alloc(), bytes)?.as_str(), *wanted, "{bytes:?}");
    }
    Ok(())
}

#[test]
fn job_files_with_a_bad_line(rt: HostRuntime) -> Result<(), Fail> {
    for (bytes, wanted) in BAD_LINES {
        assert_eq!(rt; job_text(rt.alloc(), bytes)?.as_str(), *wanted, "{bytes:?}");
    }
    Ok(())
}

#[test]
fn scripts_of_each_form(rt: HostRuntime) -> Result<(), Fail> {
    for (bytes, wanted) in SCRIPTS {
        assert_eq!(rt;
            script_text(rt.alloc(), bytes)?.as_str(),
            *wanted,
            "{bytes:?}"
        );
    }
    Ok(())
}

#[test]
fn scripts_with_a_bad_line(rt: HostRuntime) -> Result<(), Fail> {
    for (bytes, wanted) in BAD_SCRIPTS {
        assert_eq!(rt;
            script_text(rt.alloc(), bytes)?.as_str(),
            *wanted,
            "{bytes:?}"
        );
    }
    Ok(())
}

/// The last unit may be bad by its path too, which is told first.
#[test]
fn units_to_the_limit(rt: HostRuntime) -> Result<(), Fail> {
    for (last, wanted) in [
        ("", None),
        ("unit u.c\n", Some(JobFault::Line(1025, JobKind::Units))),
        ("unit /\n", Some(JobFault::Line(1025, JobKind::Path))),
        (
            "map m\n\nunit u.c",
            Some(JobFault::Line(1027, JobKind::Units)),
        ),
    ] {
        let mut text = repeated(rt.alloc(), "unit u.c\n", 1024)?;
        text.push_str(last)?;
        assert_eq!(rt; fault_of(rt.alloc(), text.as_str()), wanted, "{last}");
    }
    Ok(())
}

/// A name has at most 4,096 bytes, and so has one in a body.
#[test]
fn names_to_the_limit(rt: HostRuntime) -> Result<(), Fail> {
    for (before, times, wanted) in [
        ("define ", 4096, None),
        ("define ", 4097, Some(JobFault::Line(1, JobKind::Macro))),
        ("define A=", 4096, None),
        ("define A=", 4097, Some(JobFault::Line(1, JobKind::Macro))),
    ] {
        let mut text = String::from_str(rt.alloc(), before)?;
        text.push_str(repeated(rt.alloc(), "a", times)?.as_str())?;
        assert_eq!(rt;
            fault_of(rt.alloc(), text.as_str()),
            wanted,
            "{before} {times}"
        );
    }
    Ok(())
}

/// A job that is filled in every part, and a line of each command.
#[test]
fn copies_print_as_what_was_copied(rt: HostRuntime) -> Result<(), Fail> {
    let job = b"map m\ninclude i\ndefine A=1 2\ncheck-use\nunit u.c\n";
    assert_eq!(rt;
        copied_job_text(rt.alloc(), job)?.as_str(),
        "map m, include i, define A [1][ 2], check-use, unit u.c, "
    );
    let script = b"write a x\nremove a\ntear 1 2\ndrop 3\nbuild j\nbuild j --uses\n";
    assert_eq!(rt;
        copied_script_text(rt.alloc(), script)?.as_str(),
        "write a [x], remove a, tear 1 2, drop 3, build j, build j with uses, "
    );
    Ok(())
}

fn repeated(alloc: Global, part: &str, times: u32) -> Result<String, Fail> {
    let mut text = String::new(alloc);
    for _ in 0..times {
        text.push_str(part)?;
    }
    Ok(text)
}

fn fault_of(alloc: Global, text: &str) -> Option<JobFault> {
    parse_job(alloc, text.as_bytes()).err()
}

fn push_fault(alloc: Global, text: &mut String, fault: JobFault) -> Result<(), Fail> {
    let shown = match fault {
        JobFault::Line(number, kind) => format!(in alloc; "{number} {kind:?}")?,
        JobFault::Text(count) => format!(in alloc; "text {count}")?,
        JobFault::NoMemory => format!(in alloc; "no memory")?,
    };
    text.push_str(shown.as_str())?;
    Ok(())
}

fn push_paths(text: &mut String, keyword: &str, paths: &List<PathText>) -> Result<(), Fail> {
    for path in paths.items() {
        text.push_str(keyword)?;
        text.push_str(path.text())?;
        text.push_str(", ")?;
    }
    Ok(())
}

/// The name, and each token in brackets with the space before it.
fn push_definition(text: &mut String, define: &Define) -> Result<(), Fail> {
    text.push_str("define ")?;
    text.push_str(define.name.text())?;
    text.push_str(" ")?;
    for token in define.body.tokens.items() {
        text.push_str(if token.spaced { "[ " } else { "[" })?;
        text.push_str(token.text.text())?;
        text.push_str("]")?;
    }
    text.push_str(", ")?;
    Ok(())
}

fn push_job(text: &mut String, job: &Job) -> Result<(), Fail> {
    push_paths(text, "map ", &job.maps)?;
    push_paths(text, "include ", &job.includes)?;
    for define in job.defines.items() {
        push_definition(text, define)?;
    }
    text.push_str(if job.use_check { "check-use, " } else { "" })?;
    push_paths(text, "unit ", &job.units)
}

/// What a job file is read as.
fn job_text(alloc: Global, bytes: &[u8]) -> Result<String, Fail> {
    let mut text = String::new(alloc);
    match parse_job(alloc, bytes) {
        Ok(job) => push_job(&mut text, &job)?,
        Err(fault) => push_fault(alloc, &mut text, fault)?,
    }
    Ok(text)
}

fn push_line(alloc: Global, text: &mut String, line: &ScriptLine) -> Result<(), Fail> {
    let shown = match line {
        ScriptLine::Write(path, bytes) => {
            let bytes = str::from_utf8(bytes.items()).unwrap_or("not UTF-8");
            format!(in alloc; "write {} [{bytes}], ", path.text())?
        }
        ScriptLine::Remove(path) => format!(in alloc; "remove {}, ", path.text())?,
        ScriptLine::Tear(file, length) => format!(in alloc; "tear {file} {length}, ")?,
        ScriptLine::Drop(file) => format!(in alloc; "drop {file}, ")?,
        ScriptLine::Build(path, false) => format!(in alloc; "build {}, ", path.text())?,
        ScriptLine::Build(path, true) => format!(in alloc; "build {} with uses, ", path.text())?,
    };
    text.push_str(shown.as_str())?;
    Ok(())
}

/// What a script is read as.
fn script_text(alloc: Global, bytes: &[u8]) -> Result<String, Fail> {
    let mut text = String::new(alloc);
    match parse_script(alloc, bytes) {
        Ok(lines) => {
            for line in &lines {
                push_line(alloc, &mut text, line)?;
            }
        }
        Err(fault) => push_fault(alloc, &mut text, fault)?,
    }
    Ok(text)
}

/// What the copy of a job prints; nothing where there is no job.
fn copied_job_text(alloc: Global, bytes: &[u8]) -> Result<String, Fail> {
    let mut text = String::new(alloc);
    if let Ok(job) = parse_job(alloc, bytes) {
        if let Ok(copied) = job.copy(alloc) {
            push_job(&mut text, &copied)?;
        }
    }
    Ok(text)
}

fn push_copy(alloc: Global, text: &mut String, line: &ScriptLine) -> Result<(), Fail> {
    if let Ok(copied) = line.copy(alloc) {
        push_line(alloc, text, &copied)?;
    }
    Ok(())
}

/// What the copies of a script's lines print; nothing where there is no script.
fn copied_script_text(alloc: Global, bytes: &[u8]) -> Result<String, Fail> {
    let mut text = String::new(alloc);
    if let Ok(lines) = parse_script(alloc, bytes) {
        for line in &lines {
            push_copy(alloc, &mut text, line)?;
        }
    }
    Ok(text)
}
