//! Trees of modules. What is visible was worked out by hand after Clang's documentation, Modules.

ghost use Rattle.std.specs.Prelude.{◌<◌, All, IfSome, IsTrue};
ghost use Rattle.export_closure.specs.Closure.{AreRows, IsRow, IsPattern};

use crate::rows::{ExportRow, Pattern};
use crate::visible_set::VisibleSet;
use crate::work_list::closure;
use cm_core::{List, NoMemory, Owner, Sees, SubNo};
use std::alloc::Global;
use std::test::Fail;

/// A submodule as a test writes it.
struct Line {
    parent: Option<SubNo>,
    explicit: bool,
    exports: &'static [Pattern],
    imports: &'static [SubNo],
}

const A: SubNo = SubNo { index: 0 };

const B: SubNo = SubNo { index: 1 };

const C: SubNo = SubNo { index: 2 };

const D: SubNo = SubNo { index: 3 };

/// Modules A, B, C and D, of which A exports all that it imports, and B nothing.
static IMPORTERS: [Line; 4] = [
    Line {
        parent: None,
        explicit: false,
        exports: &[Pattern::All],
        imports: &[B],
    },
    Line {
        parent: None,
        explicit: false,
        exports: &[],
        imports: &[C],
    },
    Line {
        parent: None,
        explicit: false,
        exports: &[Pattern::All],
        imports: &[D],
    },
    Line {
        parent: None,
        explicit: false,
        exports: &[],
        imports: &[],
    },
];

/// A exports B and C, and both export D.
static DIAMOND: [Line; 4] = [
    Line {
        parent: None,
        explicit: false,
        exports: &[Pattern::All],
        imports: &[B, C],
    },
    Line {
        parent: None,
        explicit: false,
        exports: &[Pattern::All],
        imports: &[D],
    },
    Line {
        parent: None,
        explicit: false,
        exports: &[Pattern::Under(D)],
        imports: &[D],
    },
    Line {
        parent: None,
        explicit: false,
        exports: &[],
        imports: &[],
    },
];

/// A, B and C export one another around a circle.
static CIRCLE: [Line; 4] = [
    Line {
        parent: None,
        explicit: false,
        exports: &[Pattern::All],
        imports: &[B],
    },
    Line {
        parent: None,
        explicit: false,
        exports: &[Pattern::All],
        imports: &[C],
    },
    Line {
        parent: None,
        explicit: false,
        exports: &[Pattern::All],
        imports: &[A],
    },
    Line {
        parent: None,
        explicit: false,
        exports: &[Pattern::All],
        imports: &[A, B, C],
    },
];

/// A has the submodule B, and D imports B and C but exports only what lies inside A.
static PATTERNS: [Line; 4] = [
    Line {
        parent: None,
        explicit: false,
        exports: &[],
        imports: &[],
    },
    Line {
        parent: Some(A),
        explicit: false,
        exports: &[],
        imports: &[],
    },
    Line {
        parent: None,
        explicit: false,
        exports: &[],
        imports: &[],
    },
    Line {
        parent: None,
        explicit: false,
        exports: &[Pattern::Under(A)],
        imports: &[B, C],
    },
];

/// A has the submodule B and the explicit submodule C, and C has the submodule D.
static NESTED: [Line; 4] = [
    Line {
        parent: None,
        explicit: false,
        exports: &[],
        imports: &[],
    },
    Line {
        parent: Some(A),
        explicit: false,
        exports: &[],
        imports: &[],
    },
    Line {
        parent: Some(A),
        explicit: true,
        exports: &[],
        imports: &[],
    },
    Line {
        parent: Some(C),
        explicit: false,
        exports: &[],
        imports: &[],
    },
];

/// A has the submodule B, which exports C.
static PASSED_ON: [Line; 4] = [
    Line {
        parent: None,
        explicit: false,
        exports: &[],
        imports: &[D],
    },
    Line {
        parent: Some(A),
        explicit: false,
        exports: &[Pattern::All],
        imports: &[C],
    },
    Line {
        parent: None,
        explicit: false,
        exports: &[],
        imports: &[D],
    },
    Line {
        parent: None,
        explicit: false,
        exports: &[],
        imports: &[],
    },
];

fn rows_of(alloc: Global, lines: &[Line]) -> Result<Vec<ExportRow>, NoMemory> {
    let mut rows = Vec::new(alloc);
    for line in lines {
        let mut exports = List::new(alloc);
        for pattern in line.exports {
            exports.push(*pattern)?;
        }
        let mut imports = List::new(alloc);
        for import in line.imports {
            imports.push(*import)?;
        }
        rows.push(ExportRow {
            parent: line.parent,
            explicit: line.explicit,
            exports,
            imports,
        })?;
    }
    Ok(rows)
}

/// Modules of which each exports the next.
fn chain(alloc: Global, n: u64) -> Result<Vec<ExportRow>, NoMemory> {
    let mut rows = Vec::new(alloc);
    for at in 1..n {
        let mut exports = List::new(alloc);
        exports.push(Pattern::All)?;
        let mut imports = List::new(alloc);
        imports.push(SubNo { index: at })?;
        rows.push(ExportRow {
            parent: None,
            explicit: false,
            exports,
            imports,
        })?;
    }
    rows.push(ExportRow {
        parent: None,
        explicit: false,
        exports: List::new(alloc),
        imports: List::new(alloc),
    })?;
    Ok(rows)
}

/// A module and its submodules, `n` rows, of which those with an odd number are explicit.
fn family(alloc: Global, n: u64) -> Result<Vec<ExportRow>, NoMemory> {
    let mut rows = Vec::new(alloc);
    for at in 0..n {
        rows.push(ExportRow {
            parent: if at == 0 { None } else { Some(A) },
            explicit: at % 2 == 1,
            exports: List::new(alloc),
            imports: List::new(alloc),
        })?;
    }
    Ok(rows)
}

fn is_pattern(pattern: Pattern, n: usize) -> bool
    ensures { IsTrue result → IsPattern n pattern }
{
    match pattern {
        Pattern::All => true,
        Pattern::Under(outer) => outer.index < n as u64,
    }
}

fn are_patterns(patterns: &[Pattern], n: usize) -> bool
    ensures { IsTrue result → All (IsPattern n) patterns.now }
{
    for pattern in patterns {
        if !is_pattern(*pattern, n) {
            return false;
        }
    }
    true
}

fn are_numbers(subs: &[SubNo], n: usize) -> bool
    ensures { IsTrue result → All (λ s. s.index < n) subs.now }
{
    for sub in subs {
        if sub.index >= n as u64 {
            return false;
        }
    }
    true
}

fn is_parent(parent: Option<SubNo>, at: usize) -> bool
    ensures { IsTrue result → IfSome parent (λ p. p.index < at) }
{
    match parent {
        Some(parent) => parent.index < at as u64,
        None => true,
    }
}

fn is_row(row: &ExportRow, at: usize, n: usize) -> bool
    ensures { IsTrue result → IsRow n at row.now }
{
    is_parent(row.parent, at)
        && are_patterns(row.exports.items(), n)
        && are_numbers(row.imports.items(), n)
}

fn are_rows(rows: &[ExportRow]) -> bool
    ensures { IsTrue result → AreRows rows.now }
{
    for (at, row) in rows.iter().enumerate() {
        if !is_row(row, at, rows.len()) {
            return false;
        }
    }
    true
}

/// What an import of `from` makes visible, or an empty set where the rows are none.
fn visible(alloc: Global, rows: &[ExportRow], from: SubNo) -> Result<VisibleSet, NoMemory> {
    if from.index < rows.len() as u64 && are_rows(rows) {
        closure(alloc, rows, from)
    } else {
        VisibleSet::empty(alloc, 0)
    }
}

/// Whether of A, B, C and D exactly these are visible after an import of `from`.
fn shows(
    alloc: Global,
    lines: &[Line],
    from: SubNo,
    expected: [bool; 4],
) -> Result<bool, NoMemory> {
    let rows = rows_of(alloc, lines)?;
    let set = visible(alloc, &rows, from)?;
    let [a, b, c, d] = expected;
    Ok(set.has(A) == a && set.has(B) == b && set.has(C) == c && set.has(D) == d)
}

/// Whether the set has each submodule from `first` on, of `n`.
fn has_from(set: &VisibleSet, first: u64, n: u64) -> bool {
    for index in first..n {
        if !set.has(SubNo { index }) {
            return false;
        }
    }
    true
}

#[test]
fn exports_all_or_nothing(rt: HostRuntime) -> Result<(), Fail> {
    assert!(rt; shows(rt.alloc(), &IMPORTERS, A, [true, true, false, false])?);
    assert!(rt; shows(rt.alloc(), &IMPORTERS, B, [false, true, false, false])?);
    assert!(rt; shows(rt.alloc(), &IMPORTERS, C, [false, false, true, true])?);
    assert!(rt; shows(rt.alloc(), &IMPORTERS, D, [false, false, false, true])?);
    Ok(())
}

#[test]
fn exports_along_two_ways(rt: HostRuntime) -> Result<(), Fail> {
    assert!(rt; shows(rt.alloc(), &DIAMOND, A, [true, true, true, true])?);
    assert!(rt; shows(rt.alloc(), &DIAMOND, C, [false, false, true, true])?);
    Ok(())
}

#[test]
fn exports_around_a_circle(rt: HostRuntime) -> Result<(), Fail> {
    assert!(rt; shows(rt.alloc(), &CIRCLE, B, [true, true, true, false])?);
    assert!(rt; shows(rt.alloc(), &CIRCLE, D, [true, true, true, true])?);
    Ok(())
}

#[test]
fn exports_what_lies_inside(rt: HostRuntime) -> Result<(), Fail> {
    assert!(rt; shows(rt.alloc(), &PATTERNS, D, [false, true, false, true])?);
    assert!(rt; shows(rt.alloc(), &PATTERNS, A, [true, true, false, false])?);
    Ok(())
}

#[test]
fn hides_explicit_submodules(rt: HostRuntime) -> Result<(), Fail> {
    assert!(rt; shows(rt.alloc(), &NESTED, A, [true, true, false, false])?);
    assert!(rt; shows(rt.alloc(), &NESTED, C, [false, false, true, true])?);
    assert!(rt; shows(rt.alloc(), &NESTED, D, [false, false, false, true])?);
    Ok(())
}

#[test]
fn passes_on_what_a_submodule_exports(rt: HostRuntime) -> Result<(), Fail> {
    assert!(rt; shows(rt.alloc(), &PASSED_ON, A, [true, true, true, false])?);
    assert!(rt; shows(rt.alloc(), &PASSED_ON, B, [false, true, true, false])?);
    Ok(())
}

#[test]
fn follows_long_chains(rt: HostRuntime) -> Result<(), Fail> {
    let short = chain(rt.alloc(), 64)?;
    let all = visible(rt.alloc(), &short, A)?;
    assert!(rt; has_from(&all, 0, 64));
    let long = chain(rt.alloc(), 256)?;
    let most = visible(rt.alloc(), &long, C)?;
    assert!(rt; has_from(&most, 2, 256));
    assert!(rt; !most.has(B));
    Ok(())
}

#[test]
fn joins_sets(rt: HostRuntime) -> Result<(), Fail> {
    let rows = rows_of(rt.alloc(), &NESTED)?;
    let mut set = VisibleSet::empty(rt.alloc(), 4)?;
    assert!(rt; !set.has(A) && !set.has(D));
    let other = joined(rt.alloc(), &rows, B, C)?;
    assert!(rt; other.has(B) && other.has(C) && other.has(D) && !other.has(A));
    let copied = other.copy(rt.alloc())?;
    assert!(rt; copied.has(D) && !copied.has(A) && !copied.has(SubNo { index: 4 }));
    set.put(A);
    assert!(rt; set.sees(Owner::Sub(A)) && !set.sees(Owner::Sub(B)));
    assert!(rt; set.sees(Owner::Unit) && set.sees(Owner::Job) && set.sees(Owner::Builtin));
    Ok(())
}

/// A set has 64 submodules in a word, so that of the family has three words, and the submodules that
/// are joined stand in two of them, at the same bit.
#[test]
fn tells_words_apart(rt: HostRuntime) -> Result<(), Fail> {
    let rows = family(rt.alloc(), 130)?;
    let open = visible(rt.alloc(), &rows, A)?;
    assert!(rt; open.has(A) && open.has(sub(62)) && open.has(sub(64)) && open.has(sub(128)));
    assert!(rt; !open.has(B) && !open.has(sub(63)) && !open.has(sub(65)) && !open.has(sub(129)));
    let two = joined(rt.alloc(), &rows, B, sub(65))?;
    assert!(rt; two.has(B) && two.has(sub(65)));
    assert!(rt; !two.has(A) && !two.has(sub(64)) && !two.has(sub(66)) && !two.has(sub(129)));
    Ok(())
}

fn sub(index: u64) -> SubNo {
    SubNo { index }
}

/// What imports of two submodules make visible together.
fn joined(
    alloc: Global,
    rows: &[ExportRow],
    one: SubNo,
    other: SubNo,
) -> Result<VisibleSet, NoMemory> {
    let mut set = VisibleSet::empty(alloc, rows.len() as u64)?;
    if one.index < rows.len() as u64 && other.index < rows.len() as u64 && are_rows(rows) {
        set.join(&closure(alloc, rows, one)?);
        set.join(&closure(alloc, rows, other)?);
    }
    Ok(set)
}

fn copies(alloc: Global, rows: &[ExportRow]) -> Result<Vec<ExportRow>, NoMemory> {
    let mut copied = Vec::new(alloc);
    for row in rows {
        copied.push(row.copy(alloc)?)?;
    }
    Ok(copied)
}

#[test]
fn copies_rows(rt: HostRuntime) -> Result<(), Fail> {
    let rows = rows_of(rt.alloc(), &PATTERNS)?;
    let copied = copies(rt.alloc(), &rows)?;
    let set = visible(rt.alloc(), &copied, D)?;
    assert!(rt; set.has(B) && set.has(D) && !set.has(A) && !set.has(C));
    Ok(())
}
