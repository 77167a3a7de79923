ghost use Rattle.std.specs.Prelude.{◌≡◌, true, IfOk, map, string_bytes};
ghost use Rattle.cm_outside.specs.Caches.{InByteOrder};
ghost use Rattle.modc.specs.FileNames.{is_file_name, path_in_cache};

use cm_core::{NoMemory, Str};
use std::alloc::Global;
use std::fs::{self, DirEntry, File, OpenFile};
use std::io::{self, ErrorKind, Read, Seek, SeekFrom, Write};
use std::rt::Files;

/// The folder of the kept files, below the working folder.
const FOLDER: &str = ".modc-cache";

/// What the names of module files end in, behind a digest.
const ENDING: &str = ".cmod";

/// How many hexadecimal digits a digest has.
const DIGEST: usize = 64;

/// What a call gave, where the file is there. A file in the way of the folder is a failure.
fn if_found<T: Drop>(answer: io::Result<T>) -> io::Result<Option<T>> {
    match answer {
        Ok(found) => Ok(Some(found)),
        Err(error) if error.kind() == ErrorKind::NotFound => Ok(None),
        Err(error) => Err(error),
    }
}

/// Whether a text is one name on a path.
fn is_file_name(name: &str) -> bool
    ensures { result ≡ is_file_name name.now }
{
    !(name.is_empty() || name == "." || name == ".." || name.as_bytes().contains(&b'/'))
}

/// The path of a file in the folder; `InvalidFilename` for a text that leads elsewhere.
fn path_in_cache(alloc: Global, name: &str) -> io::Result<String>
    ensures path { IfOk result (λ path. string_bytes path ≡ path_in_cache name.now) }
    ensures inside { IfOk result (λ _. is_file_name name.now ≡ true) }
{
    if !is_file_name(name) {
        return Err(io::Error::from(ErrorKind::InvalidFilename));
    }
    let mut path = String::from_str(alloc, FOLDER)?;
    path.push_str("/")?;
    path.push_str(name)?;
    Ok(path)
}

/// The size of the regular file at a path, if it is there. A link is none.
fn size_at<R: Files>(rt: &R, path: &str) -> io::Result<Option<u64>> {
    match if_found(fs::symlink_metadata(rt, path))? {
        Some(metadata) if metadata.is_file() => Ok(Some(metadata.len())),
        _ => Ok(None),
    }
}

/// The size of a kept file in bytes, if it is there.
pub fn file_size<R: Files + AllocGlobal>(rt: &R, name: &str) -> io::Result<Option<u64>> {
    let path = path_in_cache(rt.alloc(), name)?;
    size_at(rt, path.as_str())
}

/// The bytes of a kept file from `at` on, `len` of them or as many as there are, if it is there.
pub fn file_part<R: Files + AllocGlobal>(
    rt: &R,
    name: &str,
    at: u64,
    len: u64,
) -> io::Result<Option<Vec<u8>>> {
    let path = path_in_cache(rt.alloc(), name)?;
    let Some(size) = size_at(rt, path.as_str())? else {
        return Ok(None);
    };
    let Some(file) = if_found(File::open(rt, path.as_str()))? else {
        return Ok(None);
    };
    let part = read_part(rt.alloc(), file, at, len.min(size.saturating_sub(at)))?;
    Ok(Some(part))
}

/// At most `len` bytes from `at` on. A place past the end is not sought: it may be none that a file
/// can have.
fn read_part<F: Read + Seek + Drop>(
    alloc: Global,
    mut file: F,
    at: u64,
    len: u64,
) -> io::Result<Vec<u8>> {
    let mut bytes = Vec::new(alloc);
    if len > 0 {
        file.seek(SeekFrom::Start(at))?;
        file.take(len).read_to_end(&mut bytes)?;
    }
    Ok(bytes)
}

/// Puts a file into the folder, in the place of one of that name. It is written beside first, under a
/// name of the writer's own, so that a file under `name` is whole whenever a build is killed.
pub fn replace_file<R: Files + AllocGlobal>(
    rt: &R,
    writer: u32,
    name: &str,
    bytes: &[u8],
) -> io::Result<()> {
    let path = path_in_cache(rt.alloc(), name)?;
    let beside = format!(in rt.alloc(); "{path}.{writer}.tmp")?;
    fs::create_dir_all(rt, FOLDER)?;
    let replaced = write_and_rename(rt, beside.as_str(), path.as_str(), bytes);
    if replaced.is_err() {
        // The first failure is the one to tell.
        let _ = fs::remove_file(rt, beside.as_str());
    }
    replaced
}

/// Writes a file, sees it on the disk and gives it the name.
fn write_and_rename<R: Files>(rt: &R, beside: &str, path: &str, bytes: &[u8]) -> io::Result<()> {
    let mut file = File::create(rt, beside)?;
    file.write_all(bytes)?;
    file.sync_all()?;
    fs::rename(rt, beside, path)
}

/// Removes a kept file, if it is there.
pub fn remove_file<R: Files + AllocGlobal>(rt: &R, name: &str) -> io::Result<()> {
    let path = path_in_cache(rt.alloc(), name)?;
    if_found(fs::remove_file(rt, path.as_str()))?;
    Ok(())
}

/// The names of the module files in the folder, in byte order.
pub fn file_names<R: Files + AllocGlobal + Clone + Drop>(rt: &R) -> io::Result<Vec<Str>>
    ensures { IfOk result (λ names. InByteOrder names.items) }
{
    let mut names = Vec::new(rt.alloc());
    if let Some(entries) = if_found(fs::read_dir(rt, FOLDER))? {
        for entry in entries {
            note(rt.alloc(), &entry?, &mut names)?;
        }
    }
    names.sort()?;
    texts(rt.alloc(), &names)
}

/// Notes an entry of the folder, where it is a module file.
fn note<R: Files>(
    alloc: Global,
    entry: &DirEntry<R, Global>,
    names: &mut Vec<String>,
) -> io::Result<()> {
    let name = entry.file_name();
    if is_given_by_builds(name) && entry.file_type()?.is_file() {
        names.push(String::from_str(alloc, name)?)?;
    }
    Ok(())
}

/// Whether a build gives a file such a name. Files of other names are the user's.
fn is_given_by_builds(name: &str) -> bool {
    match name.strip_suffix(ENDING) {
        Some(digest) => digest.len() == DIGEST && digest.as_bytes().iter().all(is_hex_digit),
        None => false,
    }
}

fn is_hex_digit(byte: &u8) -> bool {
    matches!(*byte, b'0'..=b'9' | b'a'..=b'f')
}

/// Copies of these texts, in their order.
fn texts(alloc: Global, names: &[String]) -> io::Result<Vec<Str>>
    ensures { IfOk result (λ texts. texts.items ≡ map string_bytes names.now) }
{
    let mut texts = Vec::new(alloc);
    for name in names {
        texts.push(text(alloc, name.as_str())?)?;
    }
    Ok(texts)
}

fn text(alloc: Global, name: &str) -> io::Result<Str>
    ensures { IfOk result (λ text. text ≡ name.now) }
{
    match Str::read(alloc, name) {
        Ok(text) => Ok(text),
        Err(NoMemory) => Err(io::Error::from(ErrorKind::OutOfMemory)),
    }
}
