ghost use Rattle.std.specs.Prelude.{◌≡◌, ◌≤◌, ◌++◌, [], ℕ, false, List as Seq, IfOk, OnOk, IsSome, IsNone, Some, is_some, string_bytes};
ghost use Rattle.cm_outside.specs.Asks.{Agrees, value};
ghost use Rattle.cm_outside.specs.Faults.{HasCause};
ghost use Rattle.cm_outside.specs.Keeping.{AreKept};
ghost use Rattle.cm_outside.specs.Trees.{Contents, Files, answer as answer_of};
ghost use Rattle.cm_outside.specs.declared.question.Question.{Question};
ghost use Rattle.cm_outside.specs.declared.question.Answer.{Answer};
ghost use Rattle.build_store.specs.Changes.{Went, fault_of};
ghost use Rattle.build_store.specs.CleanBuild.{clean_build, loaded_text, map_lines, not_built, unit_texts};
ghost use Rattle.build_store.specs.Held.{numbers_noted, setting_of_held};
ghost use Rattle.build_store.specs.Left.{Leaves};
ghost use Rattle.build_store.specs.LeftBehind.{Behind, IsBuild, IsBuildOf};
ghost use Rattle.build_store.specs.Report.{HasOwnFiles, HaveOwnFiles, IsReport, IsReportOf, needed_by};
ghost use Rattle.build_store.specs.Stores.{AreOfMaps, IsStore, PutsEachOnce, RestsOver, tree_fault};
ghost use Rattle.build_store.specs.Targets.{HasOwnNames};
ghost use Rattle.build_store.specs.Telling.{Tells, report_since};
ghost use Rattle.build_store.specs.Turning.{Trusts};
ghost use Rattle.build_store.specs.declared.loading.Loaded.TheVariants.{Ready};

use crate::images::BuildImages;
use crate::job::Job;
use crate::loading::{Loaded, load};
use crate::store::{Store, StoreFault};
use crate::table::{MapFault, Table};
use crate::units::{UnitText, push_not_built};
use cm_core::{List, NoMemory, PathText, Steps};
use cm_outside::{Cache, Keeper, Snapshot, Tree, TreeFault};
use std::alloc::Global;

/// What a build writes.
#[derive(Drop)]
pub struct Built {
    /// The whole output.
    pub text: Vec<u8>,
    /// The whole report.
    pub report: String,
}

impl Built {
    /// Adds what is printed of a unit.
    fn add(&mut self, text: &UnitText) -> Result<(), NoMemory>
        ensures text { OnOk result (self.new.text.items ≡ self.old.text.items ++ text.now.out.items) }
        ensures report { OnOk result (string_bytes self.new.report ≡ string_bytes self.old.report ++ string_bytes text.now.report) }
    {
        self.text.extend_from_slice(&text.out)?;
        self.report.push_str(text.report.as_str())?;
        Ok(())
    }

    fn nothing(alloc: Global) -> Built
        ensures text { result.text.items ≡ [] }
        ensures report { string_bytes result.report ≡ [] }
    {
        Built {
            text: Vec::new(alloc),
            report: String::new(alloc),
        }
    }
}

/// Adds the lines of the maps at fault.
fn push_maps(out: &mut Vec<u8>, faults: &[MapFault]) -> Result<(), NoMemory>
    ensures { OnOk result (out.new.items ≡ out.old.items ++ map_lines faults.now) }
{
    for fault in faults {
        push_not_built(out, &fault.map, fault.line)?;
    }
    Ok(())
}

/// Adds what is printed of units.
fn push_units<T: Tree, K: Keeper, C: Cache<Named = BuildImages>>(
    alloc: Global,
    tree: &mut Snapshot<T, K>,
    cache: &mut C,
    steps: &mut Steps,
    store: &mut Store,
    units: &[PathText],
    built: &mut Built,
) -> Result<(), StoreFault>
    requires store { IsStore (K.records tree.old.kept) store.old.held }
    requires unspent { store.old.is_spent ≡ false }
    ensures went { Went T.Tree K.Keeper tree.old tree.new (tree_fault result) }
    ensures text { OnOk result ((t : Question → Answer) → Agrees t (K.records tree.new.kept) → Trusts (is_some (C.files cache.old)) (C.honest cache.old) (C.honest cache.new) → RestsOver (K.records tree.old.kept) store.old.held
        → built.new.text.items ≡ built.old.text.items ++ unit_texts (setting_of_held store.old.held) t (numbers_noted store.old.held) units.now) }
    ensures noted { OnOk result ((t : Question → Answer) → Agrees t (K.records tree.new.kept) → Trusts (is_some (C.files cache.old)) (C.honest cache.old) (C.honest cache.new) → RestsOver (K.records tree.old.kept) store.old.held
        → numbers_noted store.new.held ≡ numbers_noted store.old.held ++ needed_by (setting_of_held store.old.held) t (numbers_noted store.old.held) units.now) }
    ensures report { OnOk result ((t : Question → Answer) → Agrees t (K.records tree.new.kept) → IsSome (C.files cache.old) → HasOwnFiles store.old.held.job store.old.held.table → HasOwnNames store.old.held.table
        → string_bytes built.new.report ≡ string_bytes built.old.report ++ report_since store.old.held store.new.held) }
    ensures tells { OnOk result ((t : Question → Answer) → Agrees t (K.records tree.new.kept) → Tells (C.files cache.old) (C.files cache.new) store.old.held store.new.held t steps.old.compiles steps.new.compiles (C.faults cache.old) (C.faults cache.new)) }
    ensures later { C.faults cache.old ≤ C.faults cache.new }
    ensures back { IsNone (C.files cache.old) → C.honest cache.new → C.honest cache.old }
    ensures stays { IsSome (C.files cache.old) → C.honest cache.old → RestsOver (K.records tree.old.kept) store.old.held → C.honest cache.new }
    ensures left { Trusts (is_some (C.files cache.old)) (C.honest cache.old) (C.honest cache.new) → RestsOver (K.records tree.old.kept) store.old.held → Leaves (C.files cache.old) (C.files cache.new) }
    ensures store { OnOk result (IsStore (K.records tree.new.kept) store.new.held) }
    ensures rests { OnOk result (Trusts (is_some (C.files cache.old)) (C.honest cache.old) (C.honest cache.new) → RestsOver (K.records tree.old.kept) store.old.held → RestsOver (K.records tree.new.kept) store.new.held) }
    ensures behind { OnOk result ((t : Question → Answer) → Agrees t (K.records tree.new.kept) → Trusts (is_some (C.files cache.old)) (C.honest cache.old) (C.honest cache.new) → RestsOver (K.records tree.old.kept) store.old.held
        → Behind (C.files cache.old) (C.files cache.new) store.old.held store.new.held t (C.faults cache.old) (C.faults cache.new)) }
{
    for unit in units {
        let text = store.unit(alloc, tree, cache, steps, unit)?;
        built.add(&text)?;
    }
    Ok(())
}

/// What the job of a table comes to. `maps` are the numbers of the answers that the table was read from.
fn build_job<T: Tree, K: Keeper, C: Cache<Named = BuildImages>>(
    alloc: Global,
    tree: &mut Snapshot<T, K>,
    cache: &mut C,
    steps: &mut Steps,
    job: Job,
    table: Table,
    maps: List<usize>,
) -> Result<Built, TreeFault>
    requires table { AreOfMaps (K.records tree.old.kept) job table maps }
    requires once { AreKept (K.records tree.old.kept) }
    ensures went { Went T.Tree K.Keeper tree.old tree.new (fault_of result) }
    ensures text { IfOk result (λ b. (t : Question → Answer) → Agrees t (K.records tree.new.kept) → Trusts (is_some (C.files cache.old)) (C.honest cache.old) (C.honest cache.new)
        → (path : Seq ℕ) → b.text.items ≡ loaded_text path t (Ready job table)) }
    ensures report { (files : Files) → C.files cache.old ≡ Some files → C.honest cache.old → IfOk result (λ b. (t : Question → Answer) → Agrees t (K.records tree.new.kept) → HasOwnFiles job table
        → IsReportOf files job table t steps.old.compiles steps.new.compiles (C.faults cache.old) (C.faults cache.new) (string_bytes b.report)) }
    ensures later { C.faults cache.old ≤ C.faults cache.new }
    ensures back { IsNone (C.files cache.old) → C.honest cache.new → C.honest cache.old }
    ensures stays { IsSome (C.files cache.old) → C.honest cache.old → C.honest cache.new }
    ensures left { Trusts (is_some (C.files cache.old)) (C.honest cache.old) (C.honest cache.new) → Leaves (C.files cache.old) (C.files cache.new) }
    ensures behind { (files : Files) → C.files cache.old ≡ Some files → C.honest cache.old → IfOk result (λ b. (t : Question → Answer) → Agrees t (K.records tree.new.kept) → HasOwnFiles job table
        → IsBuildOf files (C.files cache.new) job table t steps.old.compiles steps.new.compiles (C.faults cache.old) (C.faults cache.new) (string_bytes b.report)) }
{
    // A count that was read is known to be a `u64`, as the report's count needs.
    let _compiles = steps.compiles;
    let mut built = Built::nothing(alloc);
    push_maps(&mut built.text, table.faults.items())?;
    let units = job.units.copy(alloc)?;
    let mut store = Store::new(alloc, job, table, maps)?;
    match push_units(
        alloc,
        tree,
        cache,
        steps,
        &mut store,
        units.items(),
        &mut built,
    ) {
        Ok(()) => Ok(built),
        Err(StoreFault::Failed) => Err(TreeFault::Failed),
        // A store that no call was refused on is not spent.
        Err(StoreFault::Spent) => Err(TreeFault::NoMemory),
        Err(StoreFault::NoMemory) => Err(TreeFault::NoMemory),
    }
}

/// What a job file at fault comes to.
fn built_of_fault(alloc: Global, path: &PathText, line: u32) -> Result<Built, NoMemory>
    ensures text { IfOk result (λ b. b.text.items ≡ not_built path.now line) }
    ensures report { IfOk result (λ b. string_bytes b.report ≡ []) }
{
    let mut built = Built::nothing(alloc);
    push_not_built(&mut built.text, path, line)?;
    Ok(built)
}

/// What a job file comes to over a tree with its answers.
fn build_over<T: Tree, K: Keeper, C: Cache<Named = BuildImages>>(
    alloc: Global,
    tree: &mut Snapshot<T, K>,
    cache: &mut C,
    steps: &mut Steps,
    path: &PathText,
) -> Result<Built, TreeFault>
    requires once { AreKept (K.records tree.old.kept) }
    ensures went { Went T.Tree K.Keeper tree.old tree.new (fault_of result) }
    ensures text { IfOk result (λ b. (t : Question → Answer) → Agrees t (K.records tree.new.kept) → Trusts (is_some (C.files cache.old)) (C.honest cache.old) (C.honest cache.new) → b.text.items ≡ clean_build path.now t) }
    ensures report { (files : Files) → C.files cache.old ≡ Some files → C.honest cache.old → IfOk result (λ b. (t : Question → Answer) → Agrees t (K.records tree.new.kept) → HaveOwnFiles path.now t
        → IsReport files path.now t steps.old.compiles steps.new.compiles (C.faults cache.old) (C.faults cache.new) (string_bytes b.report)) }
    ensures later { C.faults cache.old ≤ C.faults cache.new }
    ensures back { IsNone (C.files cache.old) → C.honest cache.new → C.honest cache.old }
    ensures stays { IsSome (C.files cache.old) → C.honest cache.old → C.honest cache.new }
    ensures left { Trusts (is_some (C.files cache.old)) (C.honest cache.old) (C.honest cache.new) → Leaves (C.files cache.old) (C.files cache.new) }
    ensures behind { (files : Files) → C.files cache.old ≡ Some files → C.honest cache.old → IfOk result (λ b. (t : Question → Answer) → Agrees t (K.records tree.new.kept) → HaveOwnFiles path.now t
        → IsBuild files (C.files cache.new) path.now t steps.old.compiles steps.new.compiles (C.faults cache.old) (C.faults cache.new) (string_bytes b.report)) }
{
    let mut maps = List::new(alloc);
    match load(alloc, path, tree, &mut maps)? {
        Loaded::Bad(line) => Ok(built_of_fault(alloc, path, line)?),
        Loaded::Ready(job, table) => build_job(alloc, tree, cache, steps, job, table, maps),
    }
}

/// What `build JOB` comes to: the lines of the maps at fault, and for each unit the blocks of the modules that it needed first
/// and then its own; and the report. A fault of the tree ends the build; those of the cache never do.
pub fn build<T: Tree, C: Cache<Named = BuildImages>>(
    alloc: Global,
    tree: &mut T,
    cache: &mut C,
    steps: &mut Steps,
    path: &PathText,
) -> Result<Built, TreeFault>
    // Over an honest cache the whole output is that of the clean build over the present files.
    ensures headline { (t : Contents) → T.contents tree.old ≡ Some t → IfOk result (λ b. Trusts (is_some (C.files cache.old)) (C.honest cache.old) (C.honest cache.new) → b.text.items ≡ clean_build path.now (answer_of t)) }

    // The exact report, and the count of interpretations that goes with it.
    ensures report { (t : Contents) (files : Files) → T.contents tree.old ≡ Some t → C.files cache.old ≡ Some files → C.honest cache.old → HaveOwnFiles path.now (answer_of t)
        → IfOk result (λ b. IsReport files path.now (answer_of t) steps.old.compiles steps.new.compiles (C.faults cache.old) (C.faults cache.new) (string_bytes b.report)) }

    // No question is put to the tree twice.
    ensures asked { PutsEachOnce (T.reads tree.old) (T.reads tree.new) }

    ensures later { C.faults cache.old ≤ C.faults cache.new }
    ensures kept { T.contents tree.new ≡ T.contents tree.old }
    ensures cause { HasCause (T.faults tree.old) (T.faults tree.new) result TreeFault.Failed }
    ensures left { Trusts (is_some (C.files cache.old)) (C.honest cache.old) (C.honest cache.new) → Leaves (C.files cache.old) (C.files cache.new) }

    // The file of each needed module that was built is its image, and every other file is as it was.
    ensures behind { (t : Contents) (files : Files) → T.contents tree.old ≡ Some t → C.files cache.old ≡ Some files → C.honest cache.old → HaveOwnFiles path.now (answer_of t)
        → IfOk result (λ b. IsBuild files (C.files cache.new) path.now (answer_of t) steps.old.compiles steps.new.compiles (C.faults cache.old) (C.faults cache.new) (string_bytes b.report)) }

    ensures stays { IsSome (C.files cache.old) → C.honest cache.old → C.honest cache.new }
    ensures back { IsNone (C.files cache.old) → C.honest cache.new → C.honest cache.old }
{
    let mut snapshot = Snapshot::new(alloc, tree);
    build_over(alloc, &mut snapshot, cache, steps, path)
}
