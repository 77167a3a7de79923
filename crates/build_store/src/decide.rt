ghost use Rattle.std.specs.Prelude.{◌≡◌, ◌≢◌, ◌≤◌, List as Seq, IsSome, IfOk, Some};
ghost use Rattle.cm_outside.specs.Asks.{Agrees};
ghost use Rattle.cm_outside.specs.Faults.{Rose};
ghost use Rattle.cm_outside.specs.Trees.{Files, file_at};
ghost use Rattle.cm_outside.specs.declared.question.Question.{Question};
ghost use Rattle.cm_outside.specs.declared.question.Answer.{Answer};
ghost use Rattle.module_file.specs.ModuleFile.{file_name_of};
ghost use Rattle.build_store.specs.Changes.{Went, fault_of};
ghost use Rattle.std.specs.List.{list_all};
ghost use Rattle.build_store.specs.Decisions.{IsChoice, IsJudged, IsNumberedChoice};
ghost use Rattle.build_store.specs.declared.decide.Choice.TheVariants.{Sources as BySources};
ghost use Rattle.build_store.specs.declared.origin.Origin.TheVariants.{Built as IsBuilt};
ghost use Rattle.build_store.specs.declared.origin.Reason.TheVariants.{Unreadable as IsUnreadable};
ghost use Rattle.build_store.specs.Images.{key_of as the_key_of};
ghost use Rattle.build_store.specs.NameIndexes.{IsIndexOf, is_named};
ghost use Rattle.build_store.specs.Origins.{IsOrigin};
ghost use Rattle.build_store.specs.Report.{fits as fits_in, is_fault_kept};
ghost use Rattle.build_store.specs.Telling.{is_built, is_sources};

use crate::changes::{Changes, first_changed};
use crate::images::BuildImages;
use crate::job::Job;
use crate::kept::{Opened, open};
use crate::kept_faults::kind_of;
use crate::name_index::NameIndex;
use crate::origin::{Origin, Reason};
use crate::table::Table;
use cm_core::{List, NoMemory, Str};
use cm_outside::{Cache, Keeper, Snapshot, Tree, TreeFault};
use module_file::{Index, KeptDiag, Key};
use std::alloc::Global;

/// How a module that was begun is interpreted.
#[derive(Debug, Drop)]
pub enum Choice {
    /// From its header.
    Sources,
    /// From its kept file, with the numbers of the answers that the file records, in order.
    File(Index, List<usize>),
}

/// What is decided of a module when it is begun.
#[derive(Debug, Drop)]
pub struct Decision {
    pub choice: Choice,
    pub origin: Origin,
}

/// The key of a module of a job.
pub fn key_of(alloc: Global, job: &Job, name: &Str) -> Result<Key, NoMemory>
    ensures { IfOk result (λ key. key ≡ the_key_of job.now name.now) }
{
    Ok(Key {
        name: name.copy(alloc)?,
        includes: job.includes.copy(alloc)?,
        maps: job.maps.copy(alloc)?,
    })
}

/// Whether a module has this name.
fn is_declared(names: &NameIndex, name: &Str) -> bool
    ensures { result ≡ is_named names.now name.now }
{
    names.number(name.text()).is_some()
}

fn are_declared(names: &NameIndex, declared: &[Str]) -> bool
    ensures { result ≡ list_all (is_named names.now) declared.now }
{
    declared.iter().all(|name| is_declared(names, name))
}

/// Whether a diagnostic is one that a header can have.
fn is_of_header(diag: &KeptDiag) -> bool
    ensures { result ≡ is_fault_kept diag.now }
{
    kind_of(diag).is_some()
}

fn are_of_header(diags: &[KeptDiag]) -> bool
    ensures { result ≡ list_all is_fault_kept diags.now }
{
    diags.iter().all(is_of_header)
}

/// Whether a file says that its module is its one submodule, names modules of the table alone, and has diagnostics of headers
/// alone.
fn fits(table: &Table, names: &NameIndex, index: &Index) -> bool
    requires names { IsIndexOf table.now names.now }
    ensures { result ≡ fits_in table.now index.now }
{
    index.sub.is(index.key.name.text())
        && are_declared(names, index.imports.items())
        && are_declared(names, index.needs.items())
        && are_of_header(index.diags.items())
}

/// What is decided of a module that is built.
fn built(reason: Reason) -> Decision
    ensures { result ≡ record { choice = BySources; origin = IsBuilt reason } }
{
    Decision {
        choice: Choice::Sources,
        origin: Origin::Built(reason),
    }
}

/// A sealed file of the module's key is taken where the tree gives each recorded answer as then.
fn judge<T: Tree, K: Keeper>(
    alloc: Global,
    table: &Table,
    names: &NameIndex,
    tree: &mut Snapshot<T, K>,
    index: Index,
) -> Result<Decision, TreeFault>
    requires names { IsIndexOf table.now names.now }
    ensures went { Went T.Tree K.Keeper tree.old tree.new (fault_of result) }
    ensures choice { IfOk result (λ d. (f : Question → Answer) → Agrees f (K.records tree.new.kept) → IsJudged table.now index f d) }
    ensures readable { IfOk result (λ d. d.origin ≢ IsBuilt IsUnreadable) }
    ensures numbered { IfOk result (λ d. IsNumberedChoice (K.records tree.new.kept) d.choice) }
    ensures chosen { IfOk result (λ d. is_sources d.choice ≡ is_built d.origin) }
{
    match first_changed(alloc, tree, index.records.items())? {
        Changes::At(path) => Ok(built(Reason::Outdated(path))),
        Changes::Same(numbers) => {
            if fits(table, names, &index) {
                Ok(Decision {
                    choice: Choice::File(index, numbers),
                    origin: Origin::Loaded,
                })
            } else {
                Ok(built(Reason::Damaged))
            }
        }
    }
}

/// Decides whether the module of a key is loaded from its kept file or built, and why. `names` is the index of the table.
pub fn decide<T: Tree, K: Keeper, C: Cache<Named = BuildImages>>(
    alloc: Global,
    table: &Table,
    names: &NameIndex,
    tree: &mut Snapshot<T, K>,
    cache: &mut C,
    key: &Key,
) -> Result<Decision, TreeFault>
    requires names { IsIndexOf table.now names.now }
    ensures went { Went T.Tree K.Keeper tree.old tree.new (fault_of result) }
    ensures choice { IfOk result (λ d. (f : Question → Answer) → Agrees f (K.records tree.new.kept) → IsChoice table.now key.now (C.honest cache.new) f d.choice) }
    ensures numbered { IfOk result (λ d. IsNumberedChoice (K.records tree.new.kept) d.choice) }
    ensures chosen { IfOk result (λ d. is_sources d.choice ≡ is_built d.origin) }
    ensures origin { (fs : Files) → C.files cache.old ≡ Some fs → IfOk result (λ d. (f : Question → Answer) → Agrees f (K.records tree.new.kept)
        → IsOrigin (fits_in table.now) (Rose (C.faults cache.old) (C.faults cache.new)) key.now f (file_at (file_name_of key.now) fs) d.origin) }
    ensures unreadable { IfOk result (λ d. d.origin ≡ IsBuilt IsUnreadable → Rose (C.faults cache.old) (C.faults cache.new)) }
    ensures later { C.faults cache.old ≤ C.faults cache.new }
    ensures files { C.files cache.new ≡ C.files cache.old }
    ensures back { C.honest cache.new → C.honest cache.old }
    ensures stays { IsSome (C.files cache.old) → C.honest cache.old → C.honest cache.new }
{
    match open(alloc, cache, key)? {
        Opened::Not(reason) => Ok(built(reason)),
        Opened::Sealed(index) => judge(alloc, table, names, tree, index),
    }
}
