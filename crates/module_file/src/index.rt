ghost use Rattle.std.specs.Prelude.{◌≡◌, ◌↔◌, IsTrue};

use cm_core::{List, PathText, Str};
use cm_outside::Record;

/// What the answer of a kept module depends on besides the tree: the file name is made of it.
#[derive(Debug, Drop)]
pub struct Key {
    /// The top-level module.
    pub name: Str,
    /// The include folders of the job.
    pub includes: List<PathText>,
    /// The module maps of the job.
    pub maps: List<PathText>,
}

/// An object of type `int` that a module declares.
#[derive(Debug, Drop)]
pub struct Declaration {
    pub name: Str,
    /// The header, and the place of the name in it.
    pub path: PathText,
    pub line: u32,
    pub column: u32,
}

/// A diagnostic of a module, with its place spelled out: no table of files stands beside it.
#[derive(Debug, Drop)]
pub struct KeptDiag {
    /// The number of an error, or 1000 more than that of a warning.
    pub number: u32,
    /// The file, and the place in it.
    pub path: PathText,
    pub line: u32,
    pub column: u32,
    /// The parts that the text of the number leaves open, in their order.
    pub texts: List<Str>,
}

/// What a module file says.
#[derive(Debug, Drop)]
pub struct Index {
    pub key: Key,
    /// Each question that interpreting the module asks, with its whole answer, in order.
    pub records: List<Record>,
    /// The names of the other top-level modules that interpreting the module begins, in order of first
    /// need.
    pub needs: List<Str>,
    /// The name of the one submodule, which is the module itself.
    pub sub: Str,
    /// The names of the modules that the one submodule imports, in order; of a submodule its full name.
    pub imports: List<Str>,
    pub declarations: List<Declaration>,
    pub diags: List<KeptDiag>,
}

impl Key {
    /// Whether the other key is the same.
    pub fn is(&self, other: &Key) -> bool
        ensures { IsTrue result ↔ (self.now ≡ other.now) }
    {
        self.name.is(other.name.text())
            && are_same(self.includes.items(), other.includes.items())
            && are_same(self.maps.items(), other.maps.items())
    }
}

/// Whether two lists have the same paths in the same order.
fn are_same(paths: &[PathText], others: &[PathText]) -> bool
    ensures { IsTrue result ↔ (paths.now ≡ others.now) }
{
    paths == others
}
