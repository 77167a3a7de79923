ghost use Rattle.std.specs.Prelude.{◌≡◌, ◌≤◌, ◌∷◌, ◌++◌, [], true, codes, drop, length, IfOk, OnOk, string_bytes};
ghost use Rattle.std.specs.List.{flat_map};
ghost use Rattle.unit_fold.specs.Blocks.{end_line, joined, unit_block};
ghost use Rattle.build_store.specs.CleanBuild.{block_lines, fault_lines, module_block, not_built};
ghost use Rattle.build_store.specs.Errors.{has_error as has_error_line};
ghost use Rattle.build_store.specs.Libraries.{parts_at};
ghost use Rattle.build_store.specs.Report.{report_lines};
ghost use Rattle.build_store.specs.Targets.{name_of};
ghost use Rattle.build_store.specs.Telling.{numbers_of_noted, origins_of_noted};

use crate::errors::has_error;
use crate::held::{Held, Noted};
use crate::origin::push_line;
use crate::table::Table;
use cm_core::{NoMemory, PathText};
use std::alloc::Global;
use unit_fold::{At, FaultAt, FaultKind, Item, push_fault, push_unit};

/// What is printed of a unit.
#[derive(Drop)]
pub struct UnitText {
    /// The blocks of the modules that it needed first, and then its own.
    pub out: Vec<u8>,
    /// The report lines of these modules.
    pub report: String,
    /// Whether a line of `out` tells of an error.
    pub failed: bool,
}

/// Adds the line of what is not built yet, at the first column of a line.
pub fn push_not_built(out: &mut Vec<u8>, path: &PathText, line: u32) -> Result<(), NoMemory>
    ensures { OnOk result (out.new.items ≡ out.old.items ++ not_built path.now line) }
{
    push_fault(out, path, At { line, column: 1 }, &FaultKind::NotBuilt)
}

fn push_begin(out: &mut Vec<u8>, name: &str) -> Result<(), NoMemory>
    ensures { OnOk result (out.new.items ≡ out.old.items ++ joined (codes "module " ∷ name.now ∷ [])) }
{
    let alloc = *out.allocator();
    let text = format!(in alloc; "module {name}\n")?;
    out.extend_from_slice(text.as_bytes())?;
    Ok(())
}

fn push_end(out: &mut Vec<u8>, name: &str) -> Result<(), NoMemory>
    ensures { OnOk result (out.new.items ≡ out.old.items ++ end_line name.now true) }
{
    let alloc = *out.allocator();
    let text = format!(in alloc; "end {name} failed\n")?;
    out.extend_from_slice(text.as_bytes())?;
    Ok(())
}

/// Adds the lines of the diagnostics of a header.
fn push_faults(out: &mut Vec<u8>, header: &PathText, faults: &[FaultAt]) -> Result<(), NoMemory>
    ensures { OnOk result (out.new.items ≡ out.old.items ++ fault_lines header.now faults.now) }
{
    for fault in faults {
        push_fault(out, header, fault.at, &fault.kind)?;
    }
    Ok(())
}

/// Adds the block of a module that has these diagnostics, if it has any.
fn push_block(
    out: &mut Vec<u8>,
    name: &str,
    header: &PathText,
    faults: &[FaultAt],
) -> Result<(), NoMemory>
    ensures { OnOk result (out.new.items ≡ out.old.items ++ block_lines name.now header.now faults.now) }
{
    if faults.is_empty() {
        return Ok(());
    }
    push_begin(out, name)?;
    push_faults(out, header, faults)?;
    push_end(out, name)
}

/// The name of a module of the table; none where the table has no such module.
fn name_at(table: &Table, number: usize) -> &str
    ensures { result.now ≡ name_of table.now number }
{
    match table.targets.items().get(number) {
        Some(target) => target.name.text(),
        None => "",
    }
}

/// Adds the block of a held module.
fn push_module(out: &mut Vec<u8>, held: &Held, number: usize) -> Result<(), NoMemory>
    ensures { OnOk result (out.new.items ≡ out.old.items ++ module_block held.now.table number (parts_at held.now.library number)) }
{
    let Some(part) = held.library.part(number) else {
        return Ok(());
    };
    let Some(target) = held.table.targets.items().get(number) else {
        return Ok(());
    };
    push_block(out, target.name.text(), &target.header, part.faults.items())
}

/// Adds the blocks of modules.
fn push_modules(out: &mut Vec<u8>, held: &Held, noted: &[Noted]) -> Result<(), NoMemory>
    ensures { OnOk result (out.new.items ≡ out.old.items ++ flat_map (λ x. module_block held.now.table x (parts_at held.now.library x)) (numbers_of_noted noted.now)) }
{
    for begun in noted {
        push_module(out, held, begun.number)?;
    }
    Ok(())
}

/// Adds the report lines of modules.
fn push_lines(out: &mut String, table: &Table, noted: &[Noted]) -> Result<(), NoMemory>
    ensures { OnOk result (string_bytes out.new ≡ string_bytes out.old ++ report_lines table.now (numbers_of_noted noted.now) (origins_of_noted noted.now)) }
{
    for begun in noted {
        push_line(out, name_at(table, begun.number), &begun.origin)?;
    }
    Ok(())
}

/// What is printed of a unit that came to these items, where so many modules were begun before it.
pub fn unit_text(
    alloc: Global,
    held: &Held,
    begun_before: usize,
    path: &PathText,
    items: &[Item],
) -> Result<UnitText, NoMemory>
    requires begun { begun_before ≤ length held.now.noted }
    ensures out { IfOk result (λ text. text.out.items ≡ flat_map (λ x. module_block held.now.table x (parts_at held.now.library x)) (numbers_of_noted (drop begun_before held.now.noted)) ++ unit_block path.now items.now) }
    ensures failed { IfOk result (λ text. text.failed ≡ has_error_line text.out.items) }
    ensures report { IfOk result (λ text. string_bytes text.report ≡ report_lines held.now.table (numbers_of_noted (drop begun_before held.now.noted)) (origins_of_noted (drop begun_before held.now.noted))) }
{
    let noted = &held.noted.items()[begun_before..];
    let mut out = Vec::new(alloc);
    push_modules(&mut out, held, noted)?;
    push_unit(&mut out, path, items)?;
    let mut report = String::new(alloc);
    push_lines(&mut report, &held.table, noted)?;
    let failed = has_error(&out);
    Ok(UnitText {
        out,
        report,
        failed,
    })
}
