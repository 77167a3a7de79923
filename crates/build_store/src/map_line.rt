ghost use Rattle.std.specs.Prelude.{◌≡◌, IfOk};
ghost use Rattle.build_store.specs.Tables.{export_of, exported_module as exported_module_of, map_line as map_line_of, target_after as target_after_of, target_with as target_with_of};

use crate::names::{beside, quoted_len};
use crate::table::{Export, Target};
use cm_core::{NoMemory, PathText, Str};
use std::alloc::Global;
use unit_fold::lines::{after_front, between, first_word_len, name_text};

/// Reads `" export NAME }`.
fn exported_module(alloc: Global, text: &[u8]) -> Result<Option<Export>, NoMemory>
    ensures { IfOk result (λ e. e ≡ exported_module_of text.now) }
{
    let Some(name) = between(text, b"\" export ", b" }") else {
        return Ok(None);
    };
    let Some(name) = name_text(name) else {
        return Ok(None);
    };
    Ok(Some(Export::Module(Str::read(alloc, name)?)))
}

/// Reads what stands behind the path of a line: `" }`, `" export * }` or `" export NAME }`.
fn export_after(alloc: Global, text: &[u8]) -> Result<Option<Export>, NoMemory>
    ensures { IfOk result (λ e. e ≡ export_of text.now) }
{
    if text == b"\" }".as_slice() {
        return Ok(Some(Export::Nothing));
    }
    if text == b"\" export * }".as_slice() {
        return Ok(Some(Export::All));
    }
    exported_module(alloc, text)
}

/// The module of a name, with the path and what follows it.
fn target_with(
    alloc: Global,
    map: &PathText,
    name: &str,
    text: &[u8],
) -> Result<Option<Target>, NoMemory>
    ensures { IfOk result (λ t. t ≡ target_with_of map.now name.now text.now) }
{
    let (path, rest) = text.split_at(quoted_len(text));
    let Some(header) = beside(alloc, map, path)? else {
        return Ok(None);
    };
    let Some(export) = export_after(alloc, rest)? else {
        return Ok(None);
    };
    let name = Str::read(alloc, name)?;
    Ok(Some(Target {
        name,
        header,
        export,
    }))
}

/// The module of `NAME { header "PATH` and what follows it.
fn target_after(alloc: Global, map: &PathText, text: &[u8]) -> Result<Option<Target>, NoMemory>
    ensures { IfOk result (λ t. t ≡ target_after_of map.now text.now) }
{
    let (word, rest) = text.split_at(first_word_len(text));
    let Some(name) = name_text(word) else {
        return Ok(None);
    };
    match after_front(rest, b" { header \"") {
        Some(text) => target_with(alloc, map, name, text),
        None => Ok(None),
    }
}

/// The module that a line of a map declares.
pub(crate) fn read_target(
    alloc: Global,
    map: &PathText,
    line: &[u8],
) -> Result<Option<Target>, NoMemory>
    ensures { IfOk result (λ t. t ≡ map_line_of map.now line.now) }
{
    match after_front(line, b"module ") {
        Some(text) => target_after(alloc, map, text),
        None => Ok(None),
    }
}
