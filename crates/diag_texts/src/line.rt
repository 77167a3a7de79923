ghost use Rattle.std.specs.Prelude.{◌≡◌, ◌<◌, ◌++◌, length, string_bytes, IfOk, OnOk, OnErr};
ghost use Rattle.diag_texts.specs.Lines.{filled, head_of, line_of, line_at};

use crate::rows::{PLACE, text_of};
use crate::severity::Severity;
use cm_core::{Diag, Files, NoMemory, Place, Str};
use std::alloc::Global;

/// Appends the line of a diagnostic: `error` or `warning`, its place, its number in at least three
/// digits after `E` or `W`, and its text with the arguments in its places, in their order. A missing
/// argument is empty, and further ones are left aside.
///
/// A number below 1000 is an error's, and another that of a warning, 1000 more than is shown. A
/// number without a text has an empty one. Without memory `out` stays as it was.
#[tactic(auto, unfolding(crate::specs::Lines::line_of))]
pub fn render(diag: &Diag, files: &Files, out: &mut Vec<u8>) -> Result<(), NoMemory>
    requires { diag.now.place.file.index < length files.now }
    ensures line { OnOk result (out.new.items ≡ out.old.items ++ line_of diag.now files.now) }
    ensures err { OnErr result (out.new.items ≡ out.old.items) }
{
    let alloc = *out.allocator();
    let path = files.path(diag.place.file).text();
    let line = line(alloc, diag, path)?;
    out.extend_from_slice(&line)?;
    Ok(())
}

/// The line of a diagnostic in the file with the path.
fn line(alloc: Global, diag: &Diag, path: &str) -> Result<Vec<u8>, NoMemory>
    ensures { IfOk result (λ line. line.items ≡ line_at path.now diag.now) }
{
    let head = head(alloc, diag.number, path, diag.place)?;
    let mut line = Vec::from_slice(alloc, head.as_bytes())?;
    push_filled(&mut line, text_of(diag.number), diag.args.items())?;
    line.push(b'\n')?;
    Ok(line)
}

/// What stands before the text.
fn head(alloc: Global, number: u32, path: &str, place: Place) -> Result<String, NoMemory>
    ensures { IfOk result (λ head. string_bytes head ≡ head_of number path.now place) }
{
    let severity = Severity::of(number);
    let word = severity.word();
    let letter = severity.letter();
    let shown = number - severity.offset();
    let Place { line, col, .. } = place;
    let head = format!(in alloc; "{word} {path}:{line}:{col} {letter}{shown:03} ")?;
    Ok(head)
}

/// Adds a text with the arguments in its places.
fn push_filled(line: &mut Vec<u8>, text: &str, args: &[Str]) -> Result<(), NoMemory>
    ensures { OnOk result (line.new.items ≡ line.old.items ++ filled text.now args.now) }
{
    let mut rest = args.iter();
    for byte in text.as_bytes() {
        if *byte != PLACE {
            line.push(*byte)?;
        } else if let Some(arg) = rest.next() {
            line.extend_from_slice(arg.text().as_bytes())?;
        }
    }
    Ok(())
}
