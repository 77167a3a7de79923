ghost use Rattle.std.specs.Prelude.{◌≡◌, OnOk};
ghost use Rattle.job_text.specs.Answers.{Leaves};
ghost use Rattle.job_text.specs.Drafts.{added, after_line, empty_job, HasNames};
ghost use Rattle.job_text.specs.Fields.{trimmed};
ghost use Rattle.job_text.specs.declared.job_line.JobLine.TheVariants.{Definition, Unit as UnitLine};

use crate::fault::{JobKind, LineFault};
use crate::fields::{is_passed_over, trim};
use crate::job::Job;
use crate::job_line::{JobLine, read_line};
use cm_core::{Define, List, Names, PathText};
use std::alloc::Global;

/// The most units of a job.
const UNIT_LIMIT: usize = 1024;

/// A job on its way, with the names that it defines so far.
#[derive(Drop)]
pub(crate) struct Draft {
    pub(crate) job: Job,
    names: Names,
}

impl Draft {
    pub(crate) fn new(alloc: Global) -> Draft
        ensures job { result.job ≡ empty_job }
        ensures names { HasNames result }
    {
        Draft {
            job: Job {
                maps: List::new(alloc),
                includes: List::new(alloc),
                defines: List::new(alloc),
                use_check: false,
                units: List::new(alloc),
            },
            names: Names::new(alloc),
        }
    }

    /// Adds a definition, unless its name is defined already.
    fn add_definition(&mut self, define: Define) -> Result<(), LineFault>
        requires { HasNames self.old }
        ensures job { Leaves (added (self.old).job (Definition define)) (self.new).job result }
        ensures names { OnOk result (HasNames self.new) }
    {
        let defined = self.job.defines.len() as u64;
        let number = self.names.number(define.name.text())?.index;
        if number < defined {
            return Err(LineFault::Bad(JobKind::Macro));
        }
        self.job.defines.push(define)?;
        Ok(())
    }

    /// Adds a unit, unless there are as many as a job may have.
    #[tactic(auto, unfolding(crate::specs::Jobs::unit_limit))]
    fn add_unit(&mut self, path: PathText) -> Result<(), LineFault>
        requires { HasNames self.old }
        ensures job { Leaves (added (self.old).job (UnitLine path)) (self.new).job result }
        ensures names { OnOk result (HasNames self.new) }
    {
        if self.job.units.len() >= UNIT_LIMIT {
            return Err(LineFault::Bad(JobKind::Units));
        }
        self.job.units.push(path)?;
        Ok(())
    }

    fn add(&mut self, line: JobLine) -> Result<(), LineFault>
        requires { HasNames self.old }
        ensures job { Leaves (added (self.old).job line) (self.new).job result }
        ensures names { OnOk result (HasNames self.new) }
    {
        match line {
            JobLine::Map(path) => self.job.maps.push(path)?,
            JobLine::Include(path) => self.job.includes.push(path)?,
            JobLine::Definition(define) => return self.add_definition(define),
            JobLine::CheckUse => self.job.use_check = true,
            JobLine::Unit(path) => return self.add_unit(path),
        }
        Ok(())
    }

    /// Adds a line of the file, unless it is passed over.
    pub(crate) fn add_line(&mut self, alloc: Global, line: &str) -> Result<(), LineFault>
        requires { HasNames self.old }
        ensures job { Leaves (after_line (self.old).job (trimmed line.now)) (self.new).job result }
        ensures names { OnOk result (HasNames self.new) }
    {
        let line = trim(line);
        if is_passed_over(line) {
            return Ok(());
        }
        self.add(read_line(alloc, line)?)
    }
}
