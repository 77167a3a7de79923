ghost use Rattle.std.specs.Prelude.{◌≡◌, map, IfOk, IfErr};
ghost use Rattle.std.specs.Str.{IsUtf8};
ghost use Rattle.std.specs.Str.Lines.{lines as lines_of};
ghost use Rattle.job_text.specs.Answers.{IsLineFault, IsRefusal};
ghost use Rattle.job_text.specs.Drafts.{after_lines, empty_job};
ghost use Rattle.job_text.specs.Jobs.{job_of};

use crate::bytes::text_of;
use crate::draft::Draft;
use crate::fault::JobFault;
use cm_core::{Define, List, NoMemory, PathText};
use std::alloc::{AllocError, Global};

/// What a job file asks for, each list in the order of the file.
#[derive(Debug, Drop)]
pub struct Job {
    /// The module maps.
    pub maps: List<PathText>,
    /// The folders that includes are looked for in.
    pub includes: List<PathText>,
    /// The macros that each unit begins with. No name is given twice.
    pub defines: List<Define>,
    /// Whether modules are held to the modules that their maps say they use.
    pub use_check: bool,
    /// The units, at most 1,024.
    pub units: List<PathText>,
}

impl Job {
    pub fn copy(&self, alloc: Global) -> Result<Job, NoMemory>
        ensures { IfOk result (λ copied. copied ≡ self.now) }
    {
        Ok(Job {
            maps: self.maps.copy(alloc)?,
            includes: self.includes.copy(alloc)?,
            defines: self.defines.copy(alloc)?,
            use_check: self.use_check,
            units: self.units.copy(alloc)?,
        })
    }
}

/// The lines of a text, without their line ends.
fn split(alloc: Global, text: &str) -> Result<Vec<&str>, AllocError>
    ensures { IfOk result (λ lines. map (λ line. line.now) lines.items ≡ lines_of text.now) }
{
    text.lines().collect(alloc)
}

/// The job of lines, from 1 on.
fn read_lines(alloc: Global, lines: &[&str]) -> Result<Job, JobFault>
    ensures job { IfOk result (λ job. after_lines empty_job 1 (map (λ line. line.now) lines.now) ≡ Ok job) }
    ensures fault { IfErr result (IsLineFault (after_lines empty_job 1 (map (λ line. line.now) lines.now))) }
{
    let mut draft = Draft::new(alloc);
    for (index, line) in lines.iter().enumerate() {
        if let Err(fault) = draft.add_line(alloc, line) {
            return Err(fault.at(index as u64 + 1));
        }
    }
    Ok(draft.job)
}

/// Reads a job file.
///
/// A file that isn't UTF-8 is refused as a text, and any other at its first bad line: for its form, its path or its macro, or
/// since it is a unit too many.
pub fn parse_job(alloc: Global, bytes: &[u8]) -> Result<Job, JobFault>
    ensures job { IfOk result (λ job. IsUtf8 bytes.now × (job_of bytes.now ≡ Ok job)) }
    ensures refused { IfErr result (IsRefusal bytes.now (job_of bytes.now)) }
{
    let text = text_of(bytes)?;
    let lines = split(alloc, text)?;
    read_lines(alloc, &lines)
}
