ghost use Rattle.std.specs.Prelude.{◌≡◌, ◌≤◌, IfOk, OnOk, OnErr, IfSome, MatchOption, length, insert, take, drop, vec_len, vec_capacity};
ghost use Rattle.std.specs.Option.{option_copied, option_map};
ghost use Rattle.cm_outside.specs.Trees.{file_at as bytes_of, without_path, with_path};
ghost use Rattle.cm_outside.specs.Caches.{size_in, part_in, names_in, names_onto, InByteOrder, with_file, with_set, given_len};

use cm_core::{List, NoMemory, Str};
use std::alloc::{AllocError, Global};
use std::cmp::Ordering;

/// The bytes of the file of a name.
pub fn file_at<'a>(files: &'a [(Str, List<u8>)], name: &str) -> Option<&'a List<u8>>
    ensures { option_copied result ≡ bytes_of name.now files.now }
{
    let file = files.iter().rev().find(|file| file.0.text() == name)?;
    Some(&file.1)
}

/// The size of the file of a name.
pub fn file_size(files: &[(Str, List<u8>)], name: &str) -> Option<u64>
    ensures { result ≡ size_in name.now files.now }
{
    match file_at(files, name) {
        None => None,
        Some(bytes) => Some(bytes.len() as u64),
    }
}

/// The bytes from `at` on, `len` of them or as many as there are.
fn part_at(bytes: &[u8], at: u64, len: u64) -> &[u8]
    ensures { result.now ≡ take len (drop at bytes.now) }
{
    let from = (at as usize).min(bytes.len());
    let rest = &bytes[from..];
    let end = (len as usize).min(rest.len());
    &rest[..end]
}

/// A copy of a part of the file of a name.
pub fn file_part(
    alloc: Global,
    files: &[(Str, List<u8>)],
    name: &str,
    at: u64,
    len: u64,
) -> Result<Option<Vec<u8>>, AllocError>
    ensures { IfOk result (λ part. option_map (λ bytes. bytes.items) part ≡ part_in name.now at len files.now) }
{
    match file_at(files, name) {
        None => Ok(None),
        Some(bytes) => Ok(Some(Vec::from_slice(alloc, part_at(bytes.items(), at, len))?)),
    }
}

/// How many bytes were given.
pub fn part_len(part: &Option<Vec<u8>>) -> u64
    ensures { result ≡ given_len (option_map (λ bytes. bytes.items) part.now) }
{
    match part {
        None => 0,
        Some(bytes) => bytes.len() as u64,
    }
}

/// Removes the file of a name, if it is there, and keeps the room for it.
pub fn remove_file(files: &mut Vec<(Str, List<u8>)>, name: &str)
    ensures removed { files.new.items ≡ without_path name.now files.old.items }
    ensures fewer { vec_len files.new ≤ vec_len files.old }
    ensures room { vec_capacity files.new ≡ vec_capacity files.old }
{
    files.retain(|file| file.0.text() != name);
}

/// Puts a file there, in the place of one of that name. A refused call changes nothing.
pub fn put_file(
    alloc: Global,
    files: &mut Vec<(Str, List<u8>)>,
    name: &str,
    bytes: &[u8],
) -> Result<(), NoMemory>
    ensures ok { OnOk result (files.new.items ≡ with_file name.now bytes.now files.old.items) }
    ensures err { OnErr result (files.new.items ≡ files.old.items) }
{
    let bytes = List::from_vec(Vec::from_slice(alloc, bytes)?);
    let file = (Str::read(alloc, name)?, bytes);
    // The room is taken first, so that the old file goes only where the new one comes.
    files.reserve(1)?;
    remove_file(files, name);
    files.push(file)?;
    Ok(())
}

/// Puts a file of these bytes there, or removes the file. A refused call changes nothing.
pub fn set_file(
    alloc: Global,
    files: &mut Vec<(Str, List<u8>)>,
    name: &str,
    bytes: Option<&[u8]>,
) -> Result<(), NoMemory>
    ensures ok { OnOk result (files.new.items ≡ with_set name.now (option_copied bytes.entry) files.old.items) }
    ensures err { OnErr result (files.new.items ≡ files.old.items) }
{
    match bytes {
        None => {
            remove_file(files, name);
            Ok(())
        }
        Some(bytes) => put_file(alloc, files, name, bytes),
    }
}

/// Where a name belongs in a list in byte order, and nowhere where it stands there.
fn place_of(names: &[Str], name: &Str) -> Option<usize>
    ensures within { IfSome result (λ at. at ≤ length names.now) }
    ensures place { MatchOption result (with_path name.now names.now ≡ names.now) (λ at. with_path name.now names.now ≡ insert names.now at name.now) }
{
    for (at, other) in names.iter().enumerate() {
        match name.text().cmp(other.text()) {
            Ordering::Less => return Some(at),
            Ordering::Equal => return None,
            Ordering::Greater => {}
        }
    }
    Some(names.len())
}

/// Puts a name into a list in byte order, unless it stands there.
fn insert_name(alloc: Global, names: &mut Vec<Str>, name: &Str) -> Result<(), NoMemory>
    ensures { OnOk result (names.new.items ≡ with_path name.now names.old.items) }
{
    if let Some(at) = place_of(names, name) {
        names.insert(at, name.copy(alloc)?)?;
    }
    Ok(())
}

/// The names of the files, in byte order.
pub fn file_names(alloc: Global, files: &[(Str, List<u8>)]) -> Result<Vec<Str>, NoMemory>
    ensures names { IfOk result (λ names. names.items ≡ names_in files.now) }
    ensures ordered { IfOk result (λ names. InByteOrder names.items) }
{
    let mut names = Vec::new(alloc);
    for (name, _) in files {
        insert_name(alloc, &mut names, name)?;
    }
    Ok(names)
}
