ghost use Rattle.std.specs.Prelude.{◌≡◌, ◌==◌, [], map, IfOk, IfErr};
ghost use Rattle.std.specs.List.{slice_split};
ghost use Rattle.std.specs.Str.{IsUtf8};
ghost use Rattle.job_text.specs.Answers.{IsLineFault, IsRefusal, Leaves};
ghost use Rattle.job_text.specs.Drafts.{after_script, script_with};
ghost use Rattle.job_text.specs.Scripts.{script_of};

use crate::bytes::text_of;
use crate::fault::{JobFault, LineFault};
use crate::fields::is_passed_over;
use crate::script_line::{ScriptLine, script_line};
use std::alloc::{AllocError, Global};

/// The texts between the line feeds.
fn split(alloc: Global, text: &str) -> Result<Vec<&str>, AllocError>
    ensures { IfOk result (λ lines. map (λ line. line.now) lines.items ≡ slice_split (λ b. b == 10) text.now) }
{
    text.split('\n').collect(alloc)
}

/// Adds a line of the script, unless it is passed over.
fn add_line(alloc: Global, script: &mut Vec<ScriptLine>, line: &str) -> Result<(), LineFault>
    ensures { Leaves (script_with script.old.items line.now) script.new.items result }
{
    if !is_passed_over(line) {
        script.push(script_line(alloc, line)?)?;
    }
    Ok(())
}

/// The lines of a script, from 1 on.
fn read_lines(alloc: Global, lines: &[&str]) -> Result<Vec<ScriptLine>, JobFault>
    ensures lines { IfOk result (λ script. after_script [] 1 (map (λ line. line.now) lines.now) ≡ Ok script.items) }
    ensures fault { IfErr result (IsLineFault (after_script [] 1 (map (λ line. line.now) lines.now))) }
{
    let mut script = Vec::new(alloc);
    for (index, line) in lines.iter().enumerate() {
        if let Err(fault) = add_line(alloc, &mut script, line) {
            return Err(fault.at(index as u64 + 1));
        }
    }
    Ok(script)
}

/// Reads a replay script.
///
/// A script that isn't UTF-8 is refused as a text, and any other at its first bad line: for its path, where it has one that
/// is none below the root, and else for its form.
pub fn parse_script(alloc: Global, bytes: &[u8]) -> Result<Vec<ScriptLine>, JobFault>
    ensures script { IfOk result (λ lines. IsUtf8 bytes.now × (script_of bytes.now ≡ Ok lines.items)) }
    ensures refused { IfErr result (IsRefusal bytes.now (script_of bytes.now)) }
{
    let text = text_of(bytes)?;
    let lines = split(alloc, text)?;
    read_lines(alloc, &lines)
}
