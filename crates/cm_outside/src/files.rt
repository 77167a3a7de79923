ghost use Rattle.std.specs.Prelude.{◌≡◌, ◌≤◌, IfOk, OnOk, IfSome, MatchOption, length, insert};
ghost use Rattle.std.specs.Option.{option_copied};
ghost use Rattle.cm_outside.specs.declared.question.Question.TheVariants.{Read};
ghost use Rattle.cm_outside.specs.Trees.{file_at, files_answer, file_answer as answer_of, headers_in as headers_of, read_answer, is_in_folder as is_in, is_header_in, with_path, same_text};

use crate::FileAnswer;
use cm_core::{List, NoMemory, PathText};
use std::alloc::Global;
use std::cmp::Ordering;

/// The most bytes that are read of a file.
const LARGEST_FILE: usize = 16_777_216;

/// The bytes of a path, of which the last that were given count.
fn file_at<'a>(files: &'a [(PathText, List<u8>)], path: &PathText) -> Option<&'a List<u8>>
    ensures { option_copied result ≡ file_at path.now files.now }
{
    let file = files
        .iter()
        .rev()
        .find(|file| file.0.text() == path.text())?;
    Some(&file.1)
}

/// What `read` answers over these files.
#[tactic(auto, unfolding(crate::specs::Trees::largest_file))]
pub fn file_answer(
    alloc: Global,
    files: &[(PathText, List<u8>)],
    path: &PathText,
) -> Result<FileAnswer, NoMemory>
    ensures { IfOk result (λ a. read_answer a ≡ files_answer files.now (Read path.now)) }
{
    match file_at(files, path) {
        None => Ok(FileAnswer::Absent),
        Some(bytes) if bytes.len() > LARGEST_FILE => Ok(FileAnswer::TooLarge(bytes.len() as u64)),
        Some(bytes) => Ok(FileAnswer::Bytes(List::from_vec(Vec::from_slice(
            alloc,
            bytes.items(),
        )?))),
    }
}

fn is_in_folder(folder: &[u8], path: &[u8]) -> bool
    ensures { result ≡ is_in folder.now path.now }
{
    if folder == b".".as_slice() {
        return true;
    }
    path.starts_with(folder) && path[folder.len()..].starts_with(b"/")
}

fn is_header_in(folder: &str, path: &str) -> bool
    ensures { result ≡ is_header_in folder.now path.now }
{
    let folder = folder.as_bytes();
    let path = path.as_bytes();
    is_in_folder(folder, path) && path.ends_with(b".h")
}

/// Where a path belongs in a list in byte order, and nowhere where it stands there.
fn place_of(paths: &[PathText], path: &PathText) -> Option<usize>
    ensures within { IfSome result (λ at. at ≤ length paths.now) }
    ensures place { MatchOption result (with_path path.now paths.now ≡ paths.now) (λ at. with_path path.now paths.now ≡ insert paths.now at path.now) }
{
    for (at, other) in paths.iter().enumerate() {
        match path.text().cmp(other.text()) {
            Ordering::Less => return Some(at),
            Ordering::Equal => return None,
            Ordering::Greater => {}
        }
    }
    Some(paths.len())
}

/// Puts a path into a list in byte order, unless it stands there.
fn insert_path(alloc: Global, paths: &mut Vec<PathText>, path: &PathText) -> Result<(), NoMemory>
    ensures { OnOk result (paths.new.items ≡ with_path path.now paths.old.items) }
{
    if let Some(at) = place_of(paths, path) {
        paths.insert(at, path.copy(alloc)?)?;
    }
    Ok(())
}

/// What `list` answers over these files.
pub fn headers_in(
    alloc: Global,
    files: &[(PathText, List<u8>)],
    folder: &PathText,
) -> Result<Vec<PathText>, NoMemory>
    ensures { IfOk result (λ ps. ps.items ≡ headers_of folder.now files.now) }
{
    let mut paths = Vec::new(alloc);
    for (path, _) in files {
        if is_header_in(folder.text(), path.text()) {
            insert_path(alloc, &mut paths, path)?;
        }
    }
    Ok(paths)
}
