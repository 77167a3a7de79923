ghost use Rattle.std.specs.Prelude.{◌≡◌, IfOk, OnOk};
ghost use Rattle.unit_fold.specs.Lines.{Gives, lines};
ghost use Rattle.build_store.specs.Jobs.{empty_job, job_line, job_lines, job_of, with_line};

use crate::names::next_line;
use cm_core::{List, NoMemory, PathText};
use cm_outside::Answer;
use std::alloc::Global;
use unit_fold::line_fault::LineFault;
use unit_fold::lines::{path_after, take_line};

/// What a job file asks for.
#[derive(Debug, Drop)]
pub struct Job {
    /// The module maps.
    pub maps: List<PathText>,
    /// The folders that are searched for headers.
    pub includes: List<PathText>,
    /// The units that are interpreted.
    pub units: List<PathText>,
}

/// A line of a job.
#[derive(Debug, Drop)]
pub(crate) enum JobLine {
    Map(PathText),
    Include(PathText),
    Unit(PathText),
}

impl Job {
    fn new(alloc: Global) -> Job
        ensures { result ≡ empty_job }
    {
        Job {
            maps: List::new(alloc),
            includes: List::new(alloc),
            units: List::new(alloc),
        }
    }

    /// Adds what a line says.
    fn add(&mut self, line: JobLine) -> Result<(), NoMemory>
        ensures { OnOk result (self.new ≡ with_line self.old line) }
    {
        match line {
            JobLine::Map(path) => self.maps.push(path),
            JobLine::Include(folder) => self.includes.push(folder),
            JobLine::Unit(path) => self.units.push(path),
        }
    }

    pub fn copy(&self, alloc: Global) -> Result<Job, NoMemory>
        ensures { IfOk result (λ copied. copied ≡ self.now) }
    {
        Ok(Job {
            maps: self.maps.copy(alloc)?,
            includes: self.includes.copy(alloc)?,
            units: self.units.copy(alloc)?,
        })
    }
}

/// Reads `map PATH`, `include DIR` or `unit PATH`.
fn read_line(alloc: Global, line: &[u8]) -> Result<Option<JobLine>, NoMemory>
    ensures { IfOk result (λ l. l ≡ job_line line.now) }
{
    if let Some(path) = path_after(alloc, line, b"map ")? {
        return Ok(Some(JobLine::Map(path)));
    }
    if let Some(folder) = path_after(alloc, line, b"include ")? {
        return Ok(Some(JobLine::Include(folder)));
    }
    match path_after(alloc, line, b"unit ")? {
        Some(path) => Ok(Some(JobLine::Unit(path))),
        None => Ok(None),
    }
}

fn read_lines(alloc: Global, text: &[u8]) -> Result<Job, LineFault>
    ensures { Gives (job_lines empty_job 1 (lines text.now)) result }
{
    let mut job = Job::new(alloc);
    let mut number = 1;
    let mut rest = text;
    while let Some((line, after)) = take_line(rest) {
        let Some(line) = read_line(alloc, line)? else {
            return Err(LineFault::At(number));
        };
        job.add(line)?;
        number = next_line(number);
        rest = after;
    }
    Ok(job)
}

/// The job that the answer to the job file's path gives, or its first line at fault.
pub(crate) fn read_job(alloc: Global, answer: &Answer) -> Result<Job, LineFault>
    ensures { Gives (job_of answer.now) result }
{
    match answer {
        Answer::Bytes(bytes) => read_lines(alloc, bytes.items()),
        Answer::Absent | Answer::TooLarge(_) | Answer::Paths(_) => Err(LineFault::At(1)),
    }
}
