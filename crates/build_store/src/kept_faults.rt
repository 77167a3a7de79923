ghost use Rattle.std.specs.Prelude.{◌≡◌, true, Some, IfOk};
ghost use Rattle.cm_outside.specs.Trees.{Path};
ghost use Rattle.unit_fold.specs.declared.item.FaultAt.{FaultAt as AnyFault};
ghost use Rattle.unit_fold.specs.declared.item.FaultKind.{FaultKind as AnyKind};
ghost use Rattle.build_store.specs.KeptFaults.{fault_of_kept, is_of_header, is_padded as is_padded_of, is_path_alone as is_path_alone_of, kept_fault, kind_without as kind_without_of, number_behind as number_behind_of, plain_kind as plain_kind_of, spelled as spelled_in};

use cm_core::{NoMemory, PathText, Str};
use module_file::KeptDiag;
use std::alloc::Global;
use unit_fold::{FaultAt, FaultKind, fault_args, fault_number};

/// What is kept of a fault of a header.
pub(crate) fn diag_of(
    alloc: Global,
    header: &PathText,
    fault: &FaultAt,
) -> Result<KeptDiag, NoMemory>
    ensures { IfOk result (λ diag. diag ≡ kept_fault header.now fault.now) }
{
    Ok(KeptDiag {
        number: fault_number(&fault.kind),
        path: header.copy(alloc)?,
        line: fault.at.line,
        column: fault.at.column,
        texts: fault_args(alloc, header.text(), &fault.kind)?,
    })
}

/// Whether a plus stands first, or a zero before other bytes.
fn is_padded(text: &[u8]) -> bool
    ensures { result ≡ is_padded_of text.now }
{
    text.starts_with(b"+") || (text.starts_with(b"0") && text.len() > 1)
}

/// The number that a text spells, as it is printed.
fn spelled(text: &str) -> Option<u64>
    ensures { result ≡ spelled_in text.now }
{
    if is_padded(text.as_bytes()) {
        return None;
    }
    text.parse::<u64>().ok()
}

/// Whether the texts are the path alone.
fn is_path_alone(path: &str, texts: &[Str]) -> bool
    ensures { result ≡ is_path_alone_of path.now texts.now }
{
    match texts {
        [first] => first.is(path),
        _ => false,
    }
}

/// The number of texts that are the path and a number.
fn number_behind(path: &str, texts: &[Str]) -> Option<u64>
    ensures { result ≡ number_behind_of path.now texts.now }
{
    match texts {
        [first, second] if first.is(path) => spelled(second.text()),
        _ => None,
    }
}

/// The kind of this number whose text leaves nothing open.
fn plain_kind(number: u32) -> Option<FaultKind>
    ensures { result ≡ plain_kind_of number }
{
    match number {
        5 => Some(FaultKind::NotBuilt),
        10 => Some(FaultKind::Unclosed),
        11 => Some(FaultKind::BadByte),
        12 => Some(FaultKind::LongName),
        68 => Some(FaultKind::ManyTokens),
        _ => None,
    }
}

fn kind_without(texts: &[Str], number: u32) -> Option<FaultKind>
    ensures { result ≡ kind_without_of texts.now number }
{
    if texts.is_empty() {
        plain_kind(number)
    } else {
        None
    }
}

/// The kind of a kept diagnostic, where it is one that a header can have.
pub(crate) fn kind_of(diag: &KeptDiag) -> Option<FaultKind>
    ensures { result ≡ fault_of_kept diag.now }
{
    let path = diag.path.text();
    let texts = diag.texts.items();
    match diag.number {
        1 if is_path_alone(path, texts) => Some(FaultKind::Absent),
        1 => None,
        2 => number_behind(path, texts).map(FaultKind::TooLarge),
        3 => number_behind(path, texts).map(FaultKind::NotUtf8),
        number => kind_without(texts, number),
    }
}

/// Laws of the diagnostics that files keep: this call does nothing, and what it ensures holds of the definitions. A fault that a
/// header can have comes back as it was, and what comes back of any fault is its kind.
pub fn faults_come_back()
    ensures back { (path : Path) (fault : AnyFault) → is_of_header fault.kind ≡ true → fault_of_kept (kept_fault path fault) ≡ Some fault.kind }
    ensures same { (path : Path) (fault : AnyFault) (kind : AnyKind) → fault_of_kept (kept_fault path fault) ≡ Some kind → kind ≡ fault.kind }
{}
