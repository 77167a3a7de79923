ghost use Rattle.std.specs.Prelude.{◌≡◌, map, IfOk, string_bytes};
ghost use Rattle.driver.specs.Words.{form as form_of, build_of, build_or_replay, path_for, replay_of, request_of, is_positional};

use cm_core::{NoMemory, PathText};
use std::alloc::Global;
use unit_fold::lines::path_or_none;

/// Whether a word is no flag: it does not begin with `-`, or is that byte alone.
fn is_positional_word(word: &str) -> bool
    ensures { result ≡ is_positional word.now }
{
    let begins_as_flag = word.as_bytes().starts_with(b"-");
    !(begins_as_flag && word.len() > 1)
}

/// A build that words ask for.
#[derive(Drop)]
pub struct Request {
    /// The job file.
    pub job: PathText,
    /// Whether the report is asked for.
    pub report: bool,
}

/// What words ask for.
#[derive(Drop)]
pub enum Command {
    Build(Request),
    /// The script is replayed.
    Replay(PathText),
}

/// The path of the second of two words, of which the first is this mode.
fn word_path(
    alloc: Global,
    wanted: &[u8],
    mode: &str,
    path: &str,
) -> Result<Option<PathText>, NoMemory>
    ensures { IfOk result (λ p. p ≡ path_for wanted.now mode.now path.now) }
{
    if mode.as_bytes() == wanted && is_positional_word(path) {
        path_or_none(PathText::read(alloc, path))
    } else {
        Ok(None)
    }
}

/// A build, where the words name a job file.
fn build_form(
    alloc: Global,
    mode: &str,
    job: &str,
    report: bool,
) -> Result<Option<Command>, NoMemory>
    ensures { IfOk result (λ r. r ≡ request_of report (build_of mode.now job.now)) }
{
    match word_path(alloc, b"build", mode, job)? {
        Some(job) => Ok(Some(Command::Build(Request { job, report }))),
        None => Ok(None),
    }
}

/// A build or a replay, where the two words name a job file or a script.
fn two_words(alloc: Global, mode: &str, path: &str) -> Result<Option<Command>, NoMemory>
    ensures { IfOk result (λ r. r ≡ build_or_replay (build_of mode.now path.now) (replay_of mode.now path.now)) }
{
    if let Some(job) = word_path(alloc, b"build", mode, path)? {
        return Ok(Some(Command::Build(Request { job, report: false })));
    }
    match word_path(alloc, b"replay", mode, path)? {
        Some(script) => Ok(Some(Command::Replay(script))),
        None => Ok(None),
    }
}

/// What the words ask for, where they have a form.
pub fn form(alloc: Global, words: &[String]) -> Result<Option<Command>, NoMemory>
    ensures { IfOk result (λ r. r ≡ form_of (map string_bytes words.now)) }
{
    match words {
        [mode, path] => two_words(alloc, mode.as_str(), path.as_str()),
        [mode, job, flag] if flag.as_str().as_bytes() == b"--report".as_slice() => {
            build_form(alloc, mode.as_str(), job.as_str(), true)
        }
        _ => Ok(None),
    }
}
