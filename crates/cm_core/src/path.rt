ghost use Rattle.std.specs.Prelude.{◌≡◌, ◌∷◌, ◌++◌, [], ◌↔◌, IsTrue, IfOk, OnOk, map, false, if◌then◌else◌, string_bytes};
ghost use Rattle.std.specs.Option.{option_map};
ghost use Rattle.cm_core.specs.Paths.{parts_of, stepped, walked, slashed, spelled, spelled_or_climbs, folded, has_nul, refusal_of, path_of, join_of, folder_of, IsPath, IsUnlessMemory};
ghost use Rattle.cm_core.specs.declared.path.PathFault.TheVariants.{NoMemory as OutOfMemory};
ghost use Rattle.std.specs.Cmp.{partial_equiv_from_equiv};
ghost use Rattle.std.specs.Hash as fed;
ghost use Rattle.std.specs.Str.{bytes_eq};
ghost use Rattle.std.proofs.Common.{rules};
ghost use Rattle.std.proofs.lemmas.Cmp.{nat_list_eq_equiv};

use crate::no_memory::NoMemory;
use crate::str::Str;
use crate::try_copy::TryCopy;
use std::alloc::{AllocError, AllocFailed, Global};
use std::hash::{Hash, Hasher};
use std::marker::Model;

/// Why a text is no path below the root, in the order of the tests.
#[derive(Clone, Copy, Debug, PartialEq, Eq)]
pub enum PathFault {
    /// The text is empty.
    Empty,
    /// The text has a zero byte.
    HasNul,
    /// The text begins with a slash.
    Absolute,
    /// A `..` leaves the root.
    Climbs,
    NoMemory,
}

impl From<NoMemory> for PathFault {
    ghost from_gives = { λ _ fault. fault ≡ OutOfMemory };

    fn from(_error: NoMemory) -> PathFault {
        PathFault::NoMemory
    }
}

impl From<AllocError> for PathFault {
    ghost from_gives = { λ _ fault. fault ≡ OutOfMemory };

    fn from(_error: AllocError) -> PathFault {
        PathFault::NoMemory
    }
}

impl<T: Drop> From<AllocFailed<T>> for PathFault {
    ghost from_gives = { λ _ fault. fault ≡ OutOfMemory };

    fn from(_error: AllocFailed<T>) -> PathFault {
        PathFault::NoMemory
    }
}

/// A path below the root, with no empty part, no `.` and no `..`; the root itself is `.`.
#[derive(Debug, Drop)]
pub struct PathText {
    text: Str,
}

impl Model for PathText {
    ghost use Rattle.std.specs.Prelude.{List, ℕ};
    ghost use Rattle.cm_core.specs.Paths.{IsPath};

    ghost Value = { List ℕ };

    ghost view = { λ p. p.text };

    ghost invariant = { λ p. IsPath p.text };
}

impl PathText {
    /// Reads a relative path, without its empty and `.` parts and with each `..` taken.
    pub fn read(alloc: Global, text: &str) -> Result<PathText, PathFault>
        ensures { IsUnlessMemory result (path_of text.now) }
    {
        if let Some(fault) = refusal(text) {
            return Err(fault);
        }
        fold(alloc, text)
    }

    /// Reads a relative path that starts at this folder. A `..` may leave this folder, but not the
    /// root.
    pub fn join(&self, alloc: Global, tail: &str) -> Result<PathText, PathFault>
        ensures { IsUnlessMemory result (join_of self.now tail.now) }
    {
        if let Some(fault) = refusal(tail) {
            return Err(fault);
        }
        let mut whole = String::from_str(alloc, self.text())?;
        whole.push_str("/")?;
        whole.push_str(tail)?;
        fold(alloc, whole.as_str())
    }

    /// The folder that the path stands in; the root is its own folder.
    pub fn folder(&self, alloc: Global) -> Result<PathText, NoMemory>
        ensures { IfOk result (λ folder. folder ≡ folder_of self.now) }
    {
        match self.join(alloc, "..") {
            Ok(folder) => Ok(folder),
            Err(PathFault::NoMemory) => Err(NoMemory),
            Err(_) => PathText::root(alloc),
        }
    }

    pub fn text(&self) -> &str
        ensures value { result.now ≡ self.now }
        ensures path { IsPath self.now }
    {
        self.text.text()
    }

    /// Tells whether this is spelled `text`.
    pub fn is(&self, text: &str) -> bool
        ensures { IsTrue result ↔ (self.now ≡ text.now) }
    {
        self.text.is(text)
    }

    pub fn copy(&self, alloc: Global) -> Result<PathText, NoMemory>
        ensures { IfOk result (λ copied. copied ≡ self.now) }
    {
        Ok(PathText {
            text: self.text.copy(alloc)?,
        })
    }

    fn root(alloc: Global) -> Result<PathText, NoMemory>
        ensures { IfOk result (λ root. root ≡ spelled []) }
    {
        Ok(PathText {
            text: Str::read(alloc, ".")?,
        })
    }
}

impl PartialEq for PathText {
    ghost eq = { bytes_eq };

    ghost laws = { partial_equiv_from_equiv nat_list_eq_equiv };

    fn eq(&self, other: &PathText) -> bool {
        self.text() == other.text()
    }
}

impl Eq for PathText {
    ghost laws = { nat_list_eq_equiv };
}

impl Hash for PathText {
    ghost hash_input = { fed.str };

    ghost respects_eq = { Prim.search rules };

    fn hash<H: Hasher>(&self, state: &mut H) {
        self.text().hash(state);
    }
}

impl TryCopy for PathText {
    fn try_copy(&self, alloc: Global) -> Result<PathText, NoMemory> {
        self.copy(alloc)
    }
}

/// The first reason not to read `text` as a relative path, apart from where it leads.
fn refusal(text: &str) -> Option<PathFault>
    ensures { result ≡ refusal_of text.now }
{
    let bytes = text.as_bytes();
    if bytes.is_empty() {
        Some(PathFault::Empty)
    } else if bytes.contains(&0) {
        Some(PathFault::HasNul)
    } else if bytes[0] == b'/' {
        Some(PathFault::Absolute)
    } else {
        None
    }
}

/// The path that `text` leads to, which has no reason for a refusal but that it may climb.
fn fold(alloc: Global, text: &str) -> Result<PathText, PathFault>
    requires { has_nul text.now ≡ false }
    ensures { IsUnlessMemory result (folded text.now) }
{
    let parts = split(alloc, text)?;
    let names = walk(alloc, &parts)?.ok_or(PathFault::Climbs)?;
    let text = spell(alloc, &names)?;
    Ok(PathText { text })
}

/// The parts between the slashes of `text`.
fn split(alloc: Global, text: &str) -> Result<Vec<&str>, NoMemory>
    ensures { IfOk result (λ parts. map (λ part. part.now) parts.items ≡ parts_of text.now) }
{
    let parts = text.split('/').collect(alloc)?;
    Ok(parts)
}

/// The names that `parts` lead to from the root, or `None` where they leave it.
fn walk<'a>(alloc: Global, parts: &[&'a str]) -> Result<Option<Vec<&'a str>>, NoMemory>
    ensures { IfOk result (λ names. option_map (λ n. map (λ name. name.now) n.items) names ≡ walked [] (map (λ part. part.now) parts.now)) }
{
    let mut names = Vec::new(alloc);
    for part in parts {
        if !step(&mut names, part)? {
            return Ok(None);
        }
    }
    Ok(Some(names))
}

/// Goes on from `names` by one part, and tells whether it leads somewhere.
fn step<'a>(names: &mut Vec<&'a str>, part: &'a str) -> Result<bool, NoMemory>
    ensures { IfOk result (λ leads. stepped (map (λ name. name.now) names.old.items) part.now ≡ (if leads then Some (map (λ name. name.now) names.new.items) else None)) }
{
    match part {
        "" | "." => Ok(true),
        ".." => Ok(names.pop().is_some()),
        name => {
            names.push(name)?;
            Ok(true)
        }
    }
}

/// The names with slashes between, and `.` for none.
fn spell(alloc: Global, names: &[&str]) -> Result<Str, NoMemory>
    ensures { IfOk result (λ text. text ≡ spelled (map (λ name. name.now) names.now)) }
{
    let [first, rest @ ..] = names else {
        return Str::read(alloc, ".");
    };
    let mut text = String::from_str(alloc, first)?;
    push_slashed(&mut text, rest)?;
    Ok(Str::from_string(text))
}

/// Adds each name with a slash before it.
fn push_slashed(text: &mut String, names: &[&str]) -> Result<(), NoMemory>
    ensures { OnOk result (string_bytes text.new ≡ string_bytes text.old ++ slashed (map (λ name. name.now) names.now)) }
{
    for name in names {
        text.push_str("/")?;
        text.push_str(name)?;
    }
    Ok(())
}
