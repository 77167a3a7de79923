ghost use Rattle.std.specs.Prelude.{◌≡◌, IfOk};
ghost use Rattle.std.specs.Option.{option_copied};
ghost use Rattle.job_text.specs.Answers.{Gives};
ghost use Rattle.job_text.specs.Scripts.{build_line as build_line_of, command_line as command_line_of, drop_line as drop_line_of, remove_line as remove_line_of, script_line as script_line_of, tear_line as tear_line_of, uses_flag as uses_flag_of, write_line as write_line_of};

use crate::escapes::unescape;
use crate::fault::{JobKind, LineFault};
use crate::fields::{cut_at, number, path_field};
use cm_core::{List, NoMemory, PathText};
use std::alloc::Global;

/// A line of a replay script.
#[derive(Debug, Drop)]
pub enum ScriptLine {
    /// The file becomes these bytes.
    Write(PathText, List<u8>),
    /// The file is removed, if it is there.
    Remove(PathText),
    /// The cache file of the first number, from 0 in byte order of names, is cut to so many bytes, if it is there and longer.
    Tear(u64, u64),
    /// The cache file of this number, from 0 in byte order of names, is removed, if it is there.
    Drop(u64),
    /// The job is built; the flag says whether its uses are written too.
    Build(PathText, bool),
}

impl ScriptLine {
    pub fn copy(&self, alloc: Global) -> Result<ScriptLine, NoMemory>
        ensures { IfOk result (λ copied. copied ≡ self.now) }
    {
        match self {
            ScriptLine::Write(path, bytes) => {
                let path = path.copy(alloc)?;
                Ok(ScriptLine::Write(path, bytes.copy(alloc)?))
            }
            ScriptLine::Remove(path) => Ok(ScriptLine::Remove(path.copy(alloc)?)),
            ScriptLine::Tear(file, length) => Ok(ScriptLine::Tear(*file, *length)),
            ScriptLine::Drop(file) => Ok(ScriptLine::Drop(*file)),
            ScriptLine::Build(job, uses) => Ok(ScriptLine::Build(job.copy(alloc)?, *uses)),
        }
    }
}

const BAD_FORM: LineFault = LineFault::Bad(JobKind::Form);

/// `PATH TEXT`
fn write_line(alloc: Global, fields: &str) -> Result<ScriptLine, LineFault>
    ensures { Gives (write_line_of fields.now) result }
{
    let (path, text) = cut_at(fields, ' ');
    let path = path_field(alloc, path)?;
    let Some(text) = text else {
        return Err(BAD_FORM);
    };
    match unescape(alloc, text.as_bytes())? {
        Some(bytes) => Ok(ScriptLine::Write(path, bytes)),
        None => Err(BAD_FORM),
    }
}

/// `PATH`
fn remove_line(alloc: Global, fields: &str) -> Result<ScriptLine, LineFault>
    ensures { Gives (remove_line_of fields.now) result }
{
    let (path, more) = cut_at(fields, ' ');
    let path = path_field(alloc, path)?;
    match more {
        None => Ok(ScriptLine::Remove(path)),
        Some(_) => Err(BAD_FORM),
    }
}

/// Whether a job is built with its uses: `--uses` or nothing follows it.
fn uses_flag(flag: Option<&str>) -> Option<bool>
    ensures { result ≡ uses_flag_of (option_copied flag.entry) }
{
    match flag {
        None => Some(false),
        Some("--uses") => Some(true),
        Some(_) => None,
    }
}

/// `JOB` or `JOB --uses`
fn build_line(alloc: Global, fields: &str) -> Result<ScriptLine, LineFault>
    ensures { Gives (build_line_of fields.now) result }
{
    let (job, flag) = cut_at(fields, ' ');
    let job = path_field(alloc, job)?;
    match uses_flag(flag) {
        Some(uses) => Ok(ScriptLine::Build(job, uses)),
        None => Err(BAD_FORM),
    }
}

/// `N K`
fn tear_line(fields: &str) -> Option<ScriptLine>
    ensures { result ≡ tear_line_of fields.now }
{
    let (file, length) = cut_at(fields, ' ');
    let file = number(file)?;
    let length = number(length?)?;
    Some(ScriptLine::Tear(file, length))
}

/// `N`
fn drop_line(fields: &str) -> Option<ScriptLine>
    ensures { result ≡ drop_line_of fields.now }
{
    let file = number(fields)?;
    Some(ScriptLine::Drop(file))
}

fn command_line(alloc: Global, command: &str, fields: &str) -> Result<ScriptLine, LineFault>
    ensures { Gives (command_line_of command.now fields.now) result }
{
    match command {
        "write" => write_line(alloc, fields),
        "remove" => remove_line(alloc, fields),
        "tear" => tear_line(fields).ok_or(BAD_FORM),
        "drop" => drop_line(fields).ok_or(BAD_FORM),
        "build" => build_line(alloc, fields),
        _ => Err(BAD_FORM),
    }
}

/// A line that isn't passed over.
pub(crate) fn script_line(alloc: Global, line: &str) -> Result<ScriptLine, LineFault>
    ensures { Gives (script_line_of line.now) result }
{
    match cut_at(line, ' ') {
        (command, Some(fields)) => command_line(alloc, command, fields),
        (_, None) => Err(BAD_FORM),
    }
}
