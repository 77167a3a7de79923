ghost use Rattle.std.specs.Prelude.{◌≡◌};
ghost use Rattle.job_text.specs.Answers.{Gives};
ghost use Rattle.job_text.specs.Jobs.{bare_line as bare_line_of, definition_line as definition_line_of, fielded_line as fielded_line_of, job_line as job_line_of};

use crate::definition::read_definition;
use crate::fault::{JobKind, LineFault};
use crate::fields::{cut_keyword, path_field};
use cm_core::{Define, PathText};
use std::alloc::Global;

/// A line of a job file, on its own.
#[derive(Drop)]
pub(crate) enum JobLine {
    Map(PathText),
    Include(PathText),
    Definition(Define),
    CheckUse,
    Unit(PathText),
}

/// A keyword alone.
fn bare_line(keyword: &str) -> Result<JobLine, LineFault>
    ensures { Gives (bare_line_of keyword.now) result }
{
    match keyword {
        "check-use" => Ok(JobLine::CheckUse),
        _ => Err(LineFault::Bad(JobKind::Form)),
    }
}

fn definition_line(alloc: Global, field: &str) -> Result<JobLine, LineFault>
    ensures { Gives (definition_line_of field.now) result }
{
    Ok(JobLine::Definition(read_definition(alloc, field)?))
}

/// A keyword and the field behind it.
fn fielded_line(alloc: Global, keyword: &str, field: &str) -> Result<JobLine, LineFault>
    ensures { Gives (fielded_line_of keyword.now field.now) result }
{
    match keyword {
        "map" => Ok(JobLine::Map(path_field(alloc, field)?)),
        "include" => Ok(JobLine::Include(path_field(alloc, field)?)),
        "define" => definition_line(alloc, field),
        "unit" => Ok(JobLine::Unit(path_field(alloc, field)?)),
        _ => Err(LineFault::Bad(JobKind::Form)),
    }
}

/// A line without the blanks at its ends, that isn't passed over.
pub(crate) fn read_line(alloc: Global, line: &str) -> Result<JobLine, LineFault>
    ensures { Gives (job_line_of line.now) result }
{
    let (keyword, field) = cut_keyword(line);
    if field.is_empty() {
        bare_line(keyword)
    } else {
        fielded_line(alloc, keyword, field)
    }
}
