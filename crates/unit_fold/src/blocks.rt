ghost use Rattle.std.specs.Prelude.{◌≡◌, [], ◌∷◌, ◌++◌, IfOk, OnOk};
ghost use Rattle.std.specs.List.{list_any};
ghost use Rattle.std.specs.Fmt.{decimal};
ghost use Rattle.unit_fold.specs.Blocks.{fault_number, fault_args, fault_line, object_line, pointer_line, import_line, item_line, item_lines, is_fault as is_fault_of, begin_line, state_of, end_line, unit_block};

use crate::at::At;
use crate::item::{FaultKind, Item};
use cm_core::{Diag, Files, List, NoMemory, PathText, Place, Str};
use diag_texts::render;
use std::alloc::Global;

/// The number of what a diagnostic says.
pub fn fault_number(kind: &FaultKind) -> u32
    ensures { result ≡ fault_number kind.now }
{
    match kind {
        FaultKind::Absent => 1,
        FaultKind::TooLarge(_) => 2,
        FaultKind::NotUtf8(_) => 3,
        FaultKind::NotBuilt => 5,
        FaultKind::Unclosed => 10,
        FaultKind::BadByte => 11,
        FaultKind::LongName => 12,
        FaultKind::CyclicModule(_) => 52,
        FaultKind::ManyTokens => 68,
        FaultKind::NotDeclared(_) => 110,
    }
}

fn one_text(alloc: Global, text: &str) -> Result<List<Str>, NoMemory>
    ensures { IfOk result (λ texts. texts ≡ text.now ∷ []) }
{
    let mut texts = List::new(alloc);
    texts.push(Str::read(alloc, text)?)?;
    Ok(texts)
}

/// A path, and a number in its digits.
fn path_and_number(alloc: Global, path: &str, number: u64) -> Result<List<Str>, NoMemory>
    ensures { IfOk result (λ texts. texts ≡ path.now ∷ decimal number ∷ []) }
{
    let mut texts = one_text(alloc, path)?;
    let digits = format!(in alloc; "{number}")?;
    texts.push(Str::read(alloc, digits.as_str())?)?;
    Ok(texts)
}

/// What the text of a diagnostic leaves open, in a file of this path.
pub fn fault_args(alloc: Global, path: &str, kind: &FaultKind) -> Result<List<Str>, NoMemory>
    ensures { IfOk result (λ texts. texts ≡ fault_args path.now kind.now) }
{
    match kind {
        FaultKind::Absent => one_text(alloc, path),
        FaultKind::TooLarge(size) => path_and_number(alloc, path, *size),
        FaultKind::NotUtf8(at) => path_and_number(alloc, path, *at),
        FaultKind::CyclicModule(name) | FaultKind::NotDeclared(name) => {
            one_text(alloc, name.text())
        }
        FaultKind::NotBuilt
        | FaultKind::Unclosed
        | FaultKind::BadByte
        | FaultKind::LongName
        | FaultKind::ManyTokens => Ok(List::new(alloc)),
    }
}

/// Adds the line of a diagnostic at a place of a file.
pub fn push_fault(
    out: &mut Vec<u8>,
    path: &PathText,
    at: At,
    kind: &FaultKind,
) -> Result<(), NoMemory>
    ensures { OnOk result (out.new.items ≡ out.old.items ++ fault_line path.now at kind.now) }
{
    let alloc = *out.allocator();
    let mut files = Files::new(alloc);
    let file = files.number(path)?;
    let place = Place {
        file,
        line: at.line,
        col: at.column,
    };
    let diag = Diag {
        number: fault_number(kind),
        place,
        args: fault_args(alloc, path.text(), kind)?,
    };
    render(&diag, &files, out)
}

fn push_object(out: &mut Vec<u8>, path: &str, at: At, name: &str) -> Result<(), NoMemory>
    ensures { OnOk result (out.new.items ≡ out.old.items ++ object_line path.now at name.now) }
{
    let alloc = *out.allocator();
    let At { line, column } = at;
    let text = format!(in alloc; "decl {path}:{line}:{column} none object {name} : int\n")?;
    out.extend_from_slice(text.as_bytes())?;
    Ok(())
}

fn push_pointer(out: &mut Vec<u8>, path: &str, at: At, name: &str) -> Result<(), NoMemory>
    ensures { OnOk result (out.new.items ≡ out.old.items ++ pointer_line path.now at name.now) }
{
    let alloc = *out.allocator();
    let At { line, column } = at;
    let text = format!(in alloc;
        "decl {path}:{line}:{column} none object {name} : pointer to int\n"
    )?;
    out.extend_from_slice(text.as_bytes())?;
    Ok(())
}

fn push_import(out: &mut Vec<u8>, path: &str, at: At, name: &str) -> Result<(), NoMemory>
    ensures { OnOk result (out.new.items ≡ out.old.items ++ import_line path.now at name.now) }
{
    let alloc = *out.allocator();
    let At { line, column } = at;
    let text = format!(in alloc; "import {path}:{line}:{column} {name}\n")?;
    out.extend_from_slice(text.as_bytes())?;
    Ok(())
}

/// Adds the line of an item.
fn push_item(out: &mut Vec<u8>, path: &PathText, item: &Item) -> Result<(), NoMemory>
    ensures { OnOk result (out.new.items ≡ out.old.items ++ item_line path.now item.now) }
{
    match item {
        Item::Object(named) => push_object(out, path.text(), named.at, named.name.text()),
        Item::Pointer(named) => push_pointer(out, path.text(), named.at, named.name.text()),
        Item::Import(imported, at) => push_import(out, path.text(), *at, imported.name.text()),
        Item::Fault(fault) => push_fault(out, path, fault.at, &fault.kind),
    }
}

/// Adds the lines of items, in order.
fn push_items(out: &mut Vec<u8>, path: &PathText, items: &[Item]) -> Result<(), NoMemory>
    ensures { OnOk result (out.new.items ≡ out.old.items ++ item_lines path.now items.now) }
{
    for item in items {
        push_item(out, path, item)?;
    }
    Ok(())
}

fn push_begin(out: &mut Vec<u8>, path: &str) -> Result<(), NoMemory>
    ensures { OnOk result (out.new.items ≡ out.old.items ++ begin_line path.now) }
{
    let alloc = *out.allocator();
    let text = format!(in alloc; "unit {path}\n")?;
    out.extend_from_slice(text.as_bytes())?;
    Ok(())
}

/// The word for an owner that has a diagnostic or none.
fn state(failed: bool) -> &'static str
    ensures { result.now ≡ state_of failed }
{
    if failed { "failed" } else { "clean" }
}

/// Adds the last line of the block of an owner of this name.
fn push_end(out: &mut Vec<u8>, name: &str, failed: bool) -> Result<(), NoMemory>
    ensures { OnOk result (out.new.items ≡ out.old.items ++ end_line name.now failed) }
{
    let alloc = *out.allocator();
    let state = state(failed);
    let text = format!(in alloc; "end {name} {state}\n")?;
    out.extend_from_slice(text.as_bytes())?;
    Ok(())
}

fn is_fault(item: &Item) -> bool
    ensures { result ≡ is_fault_of item.now }
{
    matches!(item, Item::Fault(_))
}

/// Whether one of the items is a diagnostic.
pub fn has_fault(items: &[Item]) -> bool
    ensures { result ≡ list_any is_fault_of items.now }
{
    items.iter().any(is_fault)
}

/// Adds the block of the unit of this path.
pub fn push_unit(out: &mut Vec<u8>, path: &PathText, items: &[Item]) -> Result<(), NoMemory>
    ensures { OnOk result (out.new.items ≡ out.old.items ++ unit_block path.now items.now) }
{
    push_begin(out, path.text())?;
    push_items(out, path, items)?;
    push_end(out, path.text(), has_fault(items))
}
