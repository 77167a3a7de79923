ghost use Rattle.std.specs.Prelude.{◌≡◌, ◌<◌, length, slice_set, IfOk, true, false};
ghost use Rattle.export_closure.specs.Flags.{has, none, union};

use cm_core::{NoMemory, Owner, Sees, SubNo, TryCopy};
use std::alloc::Global;
use std::marker::Model;

/// How many submodules a word of a set tells of.
const WORD_BITS: u64 = 64;

/// A set of the submodules of a build, made for a number of them; a clause sees a flag for each.
///
/// A submodule has a bit, the first one the lowest bit of the first word.
#[derive(Debug, Drop)]
pub struct VisibleSet {
    words: Vec<u64>,
    size: u64,
}

impl Model for VisibleSet {
    ghost use Rattle.std.specs.Prelude.{◌≡◌, List, Bool, length};
    ghost use Rattle.std.specs.Int.{div_ceil};
    ghost use Rattle.export_closure.specs.Bits.{flags_of};

    ghost Value = { List Bool };

    ghost view = { λ s. flags_of s.words.items s.size };

    ghost invariant = { λ s. length s.words.items ≡ div_ceil s.size 64 };
}

impl VisibleSet {
    /// The set of none of `n` submodules.
    pub fn empty(alloc: Global, n: u64) -> Result<VisibleSet, NoMemory>
        ensures { IfOk result (λ set. set ≡ none n) }
    {
        Ok(VisibleSet {
            words: Vec::from_elem(alloc, 0, n.div_ceil(WORD_BITS) as usize)?,
            size: n,
        })
    }

    /// Whether the submodule is in the set; a number past the set's submodules is not.
    pub fn has(&self, sub: SubNo) -> bool
        ensures { result ≡ has self.now sub.index }
    {
        if sub.index >= self.size {
            return false;
        }
        let word = self.words[(sub.index / WORD_BITS) as usize];
        word >> (sub.index % WORD_BITS) & 1 == 1
    }

    /// Adds the submodules of `other`, which was made for the same number of submodules.
    pub fn join(&mut self, other: &VisibleSet)
        requires { length other.now ≡ length self.old }
        ensures { self.new ≡ union self.old other.now }
    {
        for (at, word) in other.words.iter().enumerate() {
            self.words[at] |= *word;
        }
    }

    pub fn copy(&self, alloc: Global) -> Result<VisibleSet, NoMemory>
        ensures { IfOk result (λ copied. copied ≡ self.now) }
    {
        let mut words = Vec::new(alloc);
        words.extend_from_slice(self.words.as_slice())?;
        Ok(VisibleSet {
            words,
            size: self.size,
        })
    }

    pub(crate) fn put(&mut self, sub: SubNo)
        requires { sub.index < length self.old }
        ensures { self.new ≡ slice_set self.old sub.index true }
    {
        self.words[(sub.index / WORD_BITS) as usize] |= 1 << (sub.index % WORD_BITS);
    }
}

impl TryCopy for VisibleSet {
    fn try_copy(&self, alloc: Global) -> Result<VisibleSet, NoMemory> {
        self.copy(alloc)
    }
}

/// The unit's own declarations and macros, the job's macros and the predefined ones are seen always,
/// and those of a submodule where it is in the set.
impl Sees for VisibleSet {
    ghost use Rattle.export_closure.specs.Seen.{sees};

    ghost seen = { sees };

    fn sees(&self, owner: Owner) -> bool {
        match owner {
            Owner::Sub(sub) => self.has(sub),
            Owner::Unit | Owner::Job | Owner::Builtin => true,
        }
    }
}
