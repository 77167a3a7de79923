ghost use Rattle.std.specs.Prelude.{◌≡◌, ℕ, ◌<◌, true, false, [], ◌∷◌, ◌++◌, List as Seq, None as Nil, map, length, replicate, option_copied, IfOk, OnOk, OnErr, IsTrue};
ghost use Rattle.std.specs.List.{range_with_len};
ghost use Rattle.export_closure.specs.Closure.{exports as exports_in};
ghost use Rattle.export_closure.specs.declared.rows.ExportRow.{ExportRow as AnyRow};
ghost use Rattle.build_store.specs.Libraries.{part_at, parts_at, with_part, IsWhole, IsOf};
ghost use Rattle.build_store.specs.Parts.{patterns_of as patterns_in, under as patterns_under, numbers_of as numbers_in, sub_numbers, no_part, row_of as row_in, rows_of, names_if, declared_in as declared_by, brought as brought_in};
ghost use Rattle.build_store.specs.Targets.{number_of as number_in};
ghost use Rattle.build_store.specs.declared.table.Table.{Table as Modules};
ghost use Rattle.unit_fold.specs.declared.item.Named.{Named as Name};

use crate::part::Part;
use crate::table::{Export, Table};
use cm_core::{List, NoMemory, Str, SubNo};
use export_closure::{ExportRow, Pattern, VisibleSet, closure};
use std::alloc::Global;
use unit_fold::Named;

/// What is known of the modules of a table, by their numbers.
#[derive(Debug, Drop)]
pub struct Library {
    /// What decides which modules become visible with each; nothing more does with one that is not known.
    rows: List<ExportRow>,
    parts: List<Option<Part>>,
}

/// The number of the module of this name.
fn number_of(table: &Table, name: &Str) -> Option<usize>
    ensures { result ≡ number_in table.now name.now }
{
    table
        .targets
        .items()
        .iter()
        .position(|target| target.name == *name)
}

fn sub_no(x: usize) -> SubNo
    ensures { result ≡ record { index = x } }
{
    SubNo { index: x as u64 }
}

fn push_number(numbers: &mut List<SubNo>, x: Option<usize>) -> Result<(), NoMemory>
    ensures { OnOk result (numbers.new ≡ numbers.old ++ sub_numbers x) }
{
    match x {
        Some(x) => numbers.push(sub_no(x)),
        None => Ok(()),
    }
}

/// The numbers of the modules of these names, of those that a map declares.
fn numbers_of(alloc: Global, table: &Table, names: &[Str]) -> Result<List<SubNo>, NoMemory>
    ensures { IfOk result (λ numbers. numbers ≡ numbers_in table.now names.now) }
{
    let mut numbers = List::new(alloc);
    for name in names {
        push_number(&mut numbers, number_of(table, name))?;
    }
    Ok(numbers)
}

fn one_pattern(alloc: Global, pattern: Pattern) -> Result<List<Pattern>, NoMemory>
    ensures { IfOk result (λ patterns. patterns ≡ pattern ∷ []) }
{
    let mut patterns = List::new(alloc);
    patterns.push(pattern)?;
    Ok(patterns)
}

fn under(alloc: Global, x: Option<usize>) -> Result<List<Pattern>, NoMemory>
    ensures { IfOk result (λ patterns. patterns ≡ patterns_under x) }
{
    match x {
        Some(x) => one_pattern(alloc, Pattern::Under(sub_no(x))),
        None => Ok(List::new(alloc)),
    }
}

/// The patterns of `export *` and `export NAME`.
fn patterns_of(alloc: Global, table: &Table, export: &Export) -> Result<List<Pattern>, NoMemory>
    ensures { IfOk result (λ patterns. patterns ≡ patterns_in table.now export.now) }
{
    match export {
        Export::Nothing => Ok(List::new(alloc)),
        Export::All => one_pattern(alloc, Pattern::All),
        Export::Module(name) => under(alloc, number_of(table, name)),
    }
}

/// The row of a module that imports the modules of these names.
fn row_of(
    alloc: Global,
    table: &Table,
    export: &Export,
    imports: &[Str],
) -> Result<ExportRow, NoMemory>
    ensures { IfOk result (λ row. row ≡ row_in table.now export.now (record no_part { imports = imports.now })) }
{
    Ok(ExportRow {
        parent: None,
        explicit: false,
        exports: patterns_of(alloc, table, export)?,
        imports: numbers_of(alloc, table, imports)?,
    })
}

/// The rows of a table's modules, of which nothing is known.
fn empty_rows(alloc: Global, table: &Table) -> Result<List<ExportRow>, NoMemory>
    ensures { IfOk result (λ rows. rows ≡ rows_of table.now (λ _. Nil)) }
{
    let mut rows = List::new(alloc);
    for target in table.targets.items() {
        rows.push(row_of(alloc, table, &target.export, &[])?)?;
    }
    Ok(rows)
}

fn no_parts(alloc: Global, n: usize) -> Result<List<Option<Part>>, NoMemory>
    ensures { IfOk result (λ parts. parts ≡ replicate n Nil) }
{
    let mut parts = List::new(alloc);
    for _ in 0..n {
        parts.push(None)?;
    }
    Ok(parts)
}

/// Whether the module of this row exports none of what it imports.
fn exports_nothing(row: &ExportRow) -> bool
    ensures { IsTrue result → (rows : Seq AnyRow) (other : ℕ) → exports_in rows row.now other ≡ false }
{
    row.exports.is_empty() || row.imports.is_empty()
}

/// Adds copies of the names of these objects.
fn push_objects(alloc: Global, names: &mut List<Str>, objects: &[Named]) -> Result<(), NoMemory>
    ensures { OnOk result (names.new ≡ names.old ++ map (λ (n : Name). n.name) objects.now) }
{
    for object in objects {
        names.push(object.name.copy(alloc)?)?;
    }
    Ok(())
}

/// Adds the names of what a module declares, if it is in the set.
fn push_names(
    alloc: Global,
    names: &mut List<Str>,
    is_in_set: bool,
    part: &Option<Part>,
) -> Result<(), NoMemory>
    ensures { OnOk result (names.new ≡ names.old ++ names_if is_in_set part.now) }
{
    if !is_in_set {
        return Ok(());
    }
    match part {
        Some(part) => push_objects(alloc, names, part.objects.items()),
        None => Ok(()),
    }
}

/// The names of what the modules of a set declare, in the order of their numbers.
fn declared_in(
    alloc: Global,
    parts: &[Option<Part>],
    set: &VisibleSet,
) -> Result<List<Str>, NoMemory>
    ensures { IfOk result (λ names. names ≡ declared_by (part_at parts.now) set.now (range_with_len 0 (length parts.now))) }
{
    let mut names = List::new(alloc);
    for (x, part) in parts.iter().enumerate() {
        push_names(alloc, &mut names, set.has(sub_no(x)), part)?;
    }
    Ok(names)
}

impl Library {
    /// A library that has a place for each module of the table, and knows nothing yet.
    pub fn new(alloc: Global, table: &Table) -> Result<Library, NoMemory>
        ensures of { IfOk result (IsOf table.now) }
        ensures nothing { IfOk result (λ library. (x : ℕ) → parts_at library x ≡ Nil) }
    {
        let rows = empty_rows(alloc, table)?;
        let parts = no_parts(alloc, table.targets.len())?;
        Ok(Library { rows, parts })
    }

    /// The part of module `x`, where it is known.
    pub fn part(&self, x: usize) -> Option<&Part>
        ensures { option_copied result ≡ parts_at self.now x }
    {
        match self.parts.get(x) {
            Some(part) => part.as_ref(),
            None => None,
        }
    }

    /// Makes the part of module `x` known; without memory for it the library stays as it was.
    pub fn set(
        &mut self,
        alloc: Global,
        table: &Table,
        x: usize,
        part: Part,
    ) -> Result<(), NoMemory>
        requires of { IsOf table.now self.old }
        requires within { x < length table.now.targets }
        ensures of { OnOk result (IsOf table.now self.new) }
        ensures parts { OnOk result ((y : ℕ) → parts_at self.new y ≡ with_part (parts_at self.old) x part y) }
        ensures err { OnErr result (self.new ≡ self.old) }
    {
        let target = &table.targets.items()[x];
        let row = row_of(alloc, table, &target.export, part.imports.items())?;
        let _ = self.rows.replace(x, row);
        let _ = self.parts.replace(x, Some(part));
        Ok(())
    }

    /// The names of the objects that module `x` itself declares.
    fn names_of(&self, alloc: Global, x: usize) -> Result<List<Str>, NoMemory>
        requires { x < length self.now.parts }
        ensures { IfOk result (λ names. names ≡ names_if true (parts_at self.now x)) }
    {
        let mut names = List::new(alloc);
        push_names(alloc, &mut names, true, &self.parts.items()[x])?;
        Ok(names)
    }

    /// The names of the objects that an import of module `x` makes visible.
    pub fn brought(&self, alloc: Global, x: usize) -> Result<List<Str>, NoMemory>
        requires whole { IsWhole self.now }
        requires within { x < length self.now.parts }
        ensures { (table : Modules) → IsOf table self.now → IfOk result (λ names. names ≡ brought_in table (parts_at self.now) x) }
    {
        if exports_nothing(&self.rows.items()[x]) {
            return self.names_of(alloc, x);
        }
        let set = closure(alloc, self.rows.items(), sub_no(x))?;
        declared_in(alloc, self.parts.items(), &set)
    }
}
