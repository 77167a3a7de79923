ghost use Rattle.std.specs.Prelude.{◌≡◌, ℕ, ◌≤◌, Bool, List, Some, Err, IfOk, OnErr};
ghost use Rattle.std.specs.Borrow.{sem, Lends};
ghost use Rattle.std.specs.Io.BufRead.{Rests};
ghost use Rattle.cm_core.specs.Tables.{Extends};
ghost use Rattle.cm_core.specs.Views.{Graph, Keeps};
ghost use Rattle.cm_core.specs.Views as spec;
ghost use Rattle.cm_core.specs.contracts.files.Files.{the_row as files_row};
ghost use Rattle.cm_core.specs.declared.numbers.Owner.{Owner};
ghost use Rattle.cm_core.specs.declared.numbers.SubNo.{SubNo};
ghost use Rattle.cm_core.specs.declared.view.ViewFault.TheVariants.{NoMemory as OutOfMemory};

use crate::declarations::{DeclNode, NameRow, Space};
use crate::files::Files;
use crate::macros::MacroNode;
use crate::no_memory::NoMemory;
use crate::numbers::{DeclRef, Owner, SubNo};
use crate::sub_list::SubList;
use std::alloc::{AllocError, AllocFailed, Global};

/// Why a view gives no answer.
#[derive(Clone, Copy, Debug, PartialEq, Eq)]
pub enum ViewFault {
    /// A piece of a top-level module's file was damaged or unreadable in this call: the module and
    /// the number of the piece.
    Lost(SubNo, u64),
    NoMemory,
}

impl From<NoMemory> for ViewFault {
    ghost from_gives = { λ _ fault. fault ≡ OutOfMemory };

    fn from(_error: NoMemory) -> ViewFault {
        ViewFault::NoMemory
    }
}

impl From<AllocError> for ViewFault {
    ghost from_gives = { λ _ fault. fault ≡ OutOfMemory };

    fn from(_error: AllocError) -> ViewFault {
        ViewFault::NoMemory
    }
}

impl<T: Drop> From<AllocFailed<T>> for ViewFault {
    ghost from_gives = { λ _ fault. fault ≡ OutOfMemory };

    fn from(_error: AllocFailed<T>) -> ViewFault {
        ViewFault::NoMemory
    }
}

/// Tells which owners' declarations and macros are seen.
pub trait Sees {
    ghost seen: { Self → Owner → Bool };

    fn sees(&self, owner: Owner) -> bool
        ensures { result ≡ seen self.now owner };
}

/// The declarations and macros that are visible at a place of a build.
///
/// A clause sees a view as its graph, which no call changes. Calls may read further pieces of
/// module files, and give numbers to further files.
pub trait Visible {
    /// What the view gives.
    ghost graph: { Self → Graph };

    /// How many calls were answered `Lost`; it never falls.
    ghost losses: { Self → ℕ };

    /// What was lost last.
    ghost last: { Self → SubNo × ℕ };

    /// What a later state of a view is to an earlier one.
    ghost same: { Self → Self → Type 0 };

    ghost files_of: { Self → List (List ℕ) };

    ghost with_files: { Self → List (List ℕ) → Self };

    ghost subs_of: { Self → List (List ℕ) };

    /// The declarations of a name: those of the innermost block that has one, and at file scope
    /// all visible ones in order.
    fn find(&mut self, alloc: Global, name: &str, space: Space) -> Result<Vec<DeclRef>, ViewFault>
        ensures found { IfOk result (λ refs. refs.items ≡ spec.find (graph self.old) name.now space) }
        ensures keeps { Keeps same losses last self.old self.new result };

    /// The declaration of a reference that this view gave.
    fn decl(&mut self, at: DeclRef) -> Result<&DeclNode, ViewFault>
        ensures node { IfOk result (λ node. spec.decl (graph self.old) at ≡ Some node.now) }
        ensures* after_borrow { sem 𝓛 (Rests Self.row self.entry (λ new. Keeps same losses last self.old new result)) };

    /// The macro definitions and `#undef`s of a name, in order.
    fn macros(&mut self, alloc: Global, name: &str) -> Result<Vec<MacroNode>, ViewFault>
        ensures nodes { IfOk result (λ nodes. nodes.items ≡ spec.macros (graph self.old) name.now) }
        ensures keeps { Keeps same losses last self.old self.new result };

    /// The names of a submodule's declarations in order of number, which is never `Lost`; none for
    /// a submodule that is not there.
    fn names(&mut self, alloc: Global, sub: SubNo) -> Result<Vec<NameRow>, ViewFault>
        ensures rows { IfOk result (λ rows. rows.items ≡ spec.names (graph self.old) sub) }
        ensures never_lost { OnErr result (result ≡ Err ViewFault.NoMemory) }
        ensures keeps { Keeps same losses last self.old self.new result };

    /// The table of files that the places of this view's declarations and macros stand in.
    fn files(&mut self) -> &mut Files
        ensures* writes_back { sem 𝓛 (Lends Self.row files_row self.entry result (with_files self.old)) }
        ensures value { result.now ≡ files_of self.old };

    /// The submodules of the build.
    fn subs(&self) -> &SubList
        ensures { result.now ≡ subs_of self.now };

    ghost same_start: { (s : Self) → same s s };

    ghost same_after: { (s t u : Self) → same s t → same t u → same s u };

    ghost same_graph: { (s t : Self) → same s t → graph t ≡ graph s };

    ghost same_losses: { (s t : Self) → same s t → losses s ≤ losses t };

    ghost same_subs: { (s t : Self) → same s t → subs_of t ≡ subs_of s };

    ghost keeps_files: { (s t : Self) → same s t → Extends (files_of s) (files_of t) };

    ghost same_files: { (s : Self) (files : List (List ℕ)) → Extends (files_of s) files → same s (with_files s files) };
}
