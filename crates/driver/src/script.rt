ghost use Rattle.std.specs.Prelude.{◌≡◌, ◌==◌, ◌++◌, true, false, [], map, IfOk, IfErr, OnOk};
ghost use Rattle.std.specs.List.{list_any, slice_split};
ghost use Rattle.std.specs.Str.{is_utf8};
ghost use Rattle.std.specs.Str.Lossy.{utf8_valid_len};
ghost use Rattle.job_text.specs.Scripts.{script_of};
ghost use Rattle.unit_fold.specs.Lines.{Gives};
ghost use Rattle.driver.specs.Replay.{asks_for_uses as asks, checked, line_after, lines_of_script, with_lines};

use cm_core::{List, NoMemory};
use job_text::{JobFault, ScriptLine, parse_script};
use std::alloc::{AllocError, Global};
use unit_fold::line_fault::LineFault;

/// The bytes as a text, or the length of their longest front that is one.
pub fn text_of(bytes: &[u8]) -> Result<&str, u64>
    ensures text { IfOk result (λ text. (text.now ≡ bytes.now) × (is_utf8 bytes.now ≡ true)) }
    ensures fault { IfErr result (λ n. (n ≡ utf8_valid_len bytes.now) × (is_utf8 bytes.now ≡ false)) }
{
    match str::from_utf8(bytes) {
        Ok(text) => Ok(text),
        Err(error) => Err(error.valid_up_to() as u64),
    }
}

/// The number, from 1, of a line that so many are before; it stands still at its last value.
#[tactic(auto, unfolding(crate::specs::Replay::line_after))]
fn line_number(before: usize) -> u32
    ensures { result ≡ line_after before }
{
    before.min(u32::MAX as usize - 1) as u32 + 1
}

/// Whether a line asks for uses, which are not built yet.
fn asks_for_uses(line: &ScriptLine) -> bool
    ensures { result ≡ asks line.now }
{
    match line {
        ScriptLine::Build(_, uses) => *uses,
        _ => false,
    }
}

fn any_asks_for_uses(lines: &[ScriptLine]) -> bool
    ensures { result ≡ list_any asks lines.now }
{
    lines.iter().any(asks_for_uses)
}

/// A line that so many are before, as a script of its own.
fn read_line(alloc: Global, before: usize, line: &str) -> Result<List<ScriptLine>, LineFault>
    ensures { Gives (checked before (script_of line.now)) result }
{
    match parse_script(alloc, line.as_bytes()) {
        Ok(lines) => {
            if any_asks_for_uses(&lines) {
                return Err(LineFault::At(line_number(before)));
            }
            Ok(List::from_vec(lines))
        }
        Err(JobFault::NoMemory) => Err(LineFault::NoMemory),
        Err(JobFault::Line(_, _)) => Err(LineFault::At(line_number(before))),
        // A part of a text is a text.
        Err(JobFault::Text(_)) => Err(LineFault::At(line_number(before))),
    }
}

/// Adds further lines.
fn add_lines(script: &mut Vec<ScriptLine>, lines: List<ScriptLine>) -> Result<(), NoMemory>
    ensures { OnOk result (script.new.items ≡ script.old.items ++ lines) }
{
    for line in lines.into_vec() {
        script.push(line)?;
    }
    Ok(())
}

/// The lines of a script, from line 1 on.
fn read_lines(alloc: Global, lines: &[&str]) -> Result<List<ScriptLine>, LineFault>
    ensures { Gives (with_lines [] 0 (map (λ line. line.now) lines.now)) result }
{
    let mut script = Vec::new(alloc);
    for (index, line) in lines.iter().enumerate() {
        let more = read_line(alloc, index, line)?;
        add_lines(&mut script, more)?;
    }
    Ok(List::from_vec(script))
}

/// The texts between the line feeds.
fn split(alloc: Global, text: &str) -> Result<Vec<&str>, AllocError>
    ensures { IfOk result (λ lines. map (λ line. line.now) lines.items ≡ slice_split (λ b. b == 10) text.now) }
{
    text.split('\n').collect(alloc)
}

/// The lines of a script that are not passed over, or the number of its first bad line.
pub fn read_script(alloc: Global, text: &str) -> Result<List<ScriptLine>, LineFault>
    ensures { Gives (lines_of_script text.now) result }
{
    match split(alloc, text) {
        Ok(lines) => read_lines(alloc, &lines),
        Err(_) => Err(LineFault::NoMemory),
    }
}
