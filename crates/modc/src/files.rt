ghost use Rattle.std.specs.Prelude.{IfOk};
ghost use Rattle.modc.specs.Limits.{FitsLimit};

use cm_core::{List, PathFault, PathText};
use cm_outside::FileAnswer;
use std::alloc::Global;
use std::fs::{self, DirEntry, File};
use std::io::{self, ErrorKind, Read};
use std::rt::Files;

/// The most bytes that are read of a file.
const LARGEST_FILE: u64 = 16_777_216;

/// What a call gave, where its path leads somewhere.
fn if_there<T: Drop>(answer: io::Result<T>) -> io::Result<Option<T>> {
    match answer {
        Ok(found) => Ok(Some(found)),
        Err(error) if is_absent(error.kind()) => Ok(None),
        Err(error) => Err(error),
    }
}

/// Whether a failure says that a path leads nowhere.
fn is_absent(kind: ErrorKind) -> bool {
    matches!(kind, ErrorKind::NotFound | ErrorKind::NotADirectory)
}

/// The bytes of a regular file, the size of one that is too large, or that none has the path.
#[tactic(auto, unfolding(cm_outside::specs::Trees::largest_file))]
pub fn read_file<R: Files + AllocGlobal>(rt: &R, path: &str) -> io::Result<FileAnswer>
    ensures { IfOk result FitsLimit }
{
    match if_there(fs::metadata(rt, path))? {
        Some(metadata) if !metadata.is_file() => Ok(FileAnswer::Absent),
        Some(metadata) if metadata.len() > LARGEST_FILE => Ok(FileAnswer::TooLarge(metadata.len())),
        Some(_) => read_bytes(rt, path),
        None => Ok(FileAnswer::Absent),
    }
}

/// The bytes of a file, which may have grown too large since its size was asked for.
#[tactic(auto, unfolding(cm_outside::specs::Trees::largest_file))]
fn read_bytes<R: Files + AllocGlobal>(rt: &R, path: &str) -> io::Result<FileAnswer>
    ensures { IfOk result FitsLimit }
{
    let Some(file) = if_there(File::open(rt, path))? else {
        return Ok(FileAnswer::Absent);
    };
    let mut bytes = Vec::new(rt.alloc());
    file.take(LARGEST_FILE + 1).read_to_end(&mut bytes)?;
    let size = bytes.len() as u64;
    if size > LARGEST_FILE {
        Ok(FileAnswer::TooLarge(size))
    } else {
        Ok(FileAnswer::Bytes(List::from_vec(bytes)))
    }
}

/// The paths of the headers in a folder and in all folders below it, in byte order. Links are passed
/// over.
pub fn headers_below<R: Files + AllocGlobal + Clone + Drop>(
    rt: &R,
    folder: &str,
) -> io::Result<Vec<PathText>> {
    let mut found = Found::new(rt.alloc());
    found.folders.push(String::from_str(rt.alloc(), folder)?)?;
    // A bound for the proof: the walk ends where no folder is left.
    for _ in 0..usize::MAX {
        let Some(folder) = found.folders.pop() else {
            break;
        };
        visit(rt, folder.as_str(), &mut found)?;
    }
    found.headers.sort()?;
    path_texts(rt.alloc(), &found.headers)
}

/// What a walk has met.
#[derive(Drop)]
struct Found {
    /// The folders that it has not been in.
    folders: Vec<String>,
    headers: Vec<String>,
}

impl Found {
    fn new(alloc: Global) -> Found {
        Found {
            folders: Vec::new(alloc),
            headers: Vec::new(alloc),
        }
    }
}

/// Notes the headers and the folders in a folder, where it is there.
fn visit<R: Files + AllocGlobal + Clone + Drop>(
    rt: &R,
    folder: &str,
    found: &mut Found,
) -> io::Result<()> {
    let Some(entries) = if_there(fs::read_dir(rt, folder))? else {
        return Ok(());
    };
    for entry in entries {
        note(rt.alloc(), &entry?, found)?;
    }
    Ok(())
}

/// Notes an entry of a folder, where it is a folder or a header.
fn note<R: Files>(alloc: Global, entry: &DirEntry<R, Global>, found: &mut Found) -> io::Result<()> {
    let file_type = entry.file_type()?;
    let path = entry.path().to_string_lossy();
    if file_type.is_dir() {
        found.folders.push(String::from_str(alloc, path)?)?;
    } else if file_type.is_file() && path.ends_with(".h") {
        found.headers.push(String::from_str(alloc, path)?)?;
    }
    Ok(())
}

/// The paths that these texts are.
fn path_texts(alloc: Global, texts: &[String]) -> io::Result<Vec<PathText>> {
    let mut paths = Vec::new(alloc);
    for text in texts {
        match PathText::read(alloc, text.as_str()) {
            Ok(path) => paths.push(path)?,
            Err(PathFault::NoMemory) => return Err(io::Error::from(ErrorKind::OutOfMemory)),
            Err(_) => return Err(io::Error::from(ErrorKind::InvalidFilename)),
        }
    }
    Ok(paths)
}
