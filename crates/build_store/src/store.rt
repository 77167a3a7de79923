ghost use Rattle.std.specs.Prelude.{◌≡◌, ◌≤◌, ◌<◌, ◌↔◌, true, false, [], length, drop, is_some, List as Seq, IfOk, OnOk, Err, MatchResult, IsSome, IsNone, string_bytes};
ghost use Rattle.cm_outside.specs.Asks.{Agrees, begun, value};
ghost use Rattle.cm_outside.specs.Keeping.{AreKept};
ghost use Rattle.cm_outside.specs.declared.question.Question.{Question};
ghost use Rattle.cm_outside.specs.declared.question.Answer.{Answer};
ghost use Rattle.cm_outside.specs.declared.question.Record.{Record as ARecord};
ghost use Rattle.build_store.specs.Changes.{Went, fault_of};
ghost use Rattle.build_store.specs.CleanBuild.{first_needs, fresh_part, unit_run, unit_text as unit_text_of};
ghost use Rattle.build_store.specs.Errors.{has_error};
ghost use Rattle.build_store.specs.Held.{HasPlaces, HeldRests, numbers_noted, plan_held, setting_of_held};
ghost use Rattle.build_store.specs.Left.{Leaves};
ghost use Rattle.build_store.specs.LeftBehind.{Behind};
ghost use Rattle.build_store.specs.Libraries.{parts_at};
ghost use Rattle.build_store.specs.Modules.{mod_of};
ghost use Rattle.build_store.specs.Stores.{AreOfMaps, GoesOn, IsStore, RestsOver, told_as, tree_fault};
ghost use Rattle.build_store.specs.Telling.{AreBegun, Tells, report_since};
ghost use Rattle.build_store.specs.Turning.{IsView, Trusts};

use crate::held::Held;
use crate::images::BuildImages;
use crate::job::Job;
use crate::memo;
use crate::slot::ModuleView;
use crate::table::Table;
use crate::units::{UnitText, unit_text};
use cm_core::{List, NoMemory, PathText, Steps};
use cm_outside::{Cache, Keeper, Snapshot, Tree, TreeFault};
use std::alloc::Global;
use unit_fold::Item;

/// Why a store gave nothing.
#[derive(Clone, Copy, Debug, PartialEq, Eq)]
pub enum StoreFault {
    /// The tree failed.
    Failed,
    /// An earlier call on the store was refused.
    Spent,
    NoMemory,
}

impl From<NoMemory> for StoreFault {
    ghost use Rattle.build_store.specs.declared.store.StoreFault.TheVariants.{NoMemory as NoRoom};

    ghost from_gives = { λ _ told. told ≡ NoRoom };

    fn from(_error: NoMemory) -> StoreFault {
        StoreFault::NoMemory
    }
}

impl From<TreeFault> for StoreFault {
    ghost from_gives = { λ fault told. told ≡ told_as fault };

    fn from(fault: TreeFault) -> StoreFault {
        match fault {
            TreeFault::Failed => StoreFault::Failed,
            TreeFault::NoMemory => StoreFault::NoMemory,
        }
    }
}

/// A needed module, over a tree with its answers and a cache.
fn need_over<T: Tree, K: Keeper, C: Cache<Named = BuildImages>>(
    alloc: Global,
    tree: &mut Snapshot<T, K>,
    cache: &mut C,
    steps: &mut Steps,
    held: &mut Held,
    number: usize,
) -> Result<ModuleView, TreeFault>
    requires store { IsStore (K.records tree.old.kept) held.old }
    requires number { number < length held.old.table.targets }
    ensures store { OnOk result (IsStore (K.records tree.new.kept) held.new) }
    ensures went { Went T.Tree K.Keeper tree.old tree.new (fault_of result) }
    ensures view { IfOk result (λ view. (t : Question → Answer) → Agrees t (K.records tree.new.kept) → Trusts (is_some (C.files cache.old)) (C.honest cache.old) (C.honest cache.new) → HeldRests (K.records tree.old.kept) held.old t
        → IsView (value (mod_of (plan_held held.old) [] number) t) view) }
    ensures rests { OnOk result (GoesOn (K.records tree.old.kept) (K.records tree.new.kept) held.old held.new (Trusts (is_some (C.files cache.old)) (C.honest cache.old) (C.honest cache.new)) (λ t. begun (mod_of (plan_held held.old) [] number) t)) }
    ensures tells { OnOk result ((t : Question → Answer) → Agrees t (K.records tree.new.kept) → Tells (C.files cache.old) (C.files cache.new) held.old held.new t steps.old.compiles steps.new.compiles (C.faults cache.old) (C.faults cache.new)) }
    ensures job { (held.new.job ≡ held.old.job) × (held.new.table ≡ held.old.table) }
    ensures told { is_some (C.files cache.new) ≡ is_some (C.files cache.old) }
    ensures later { C.faults cache.old ≤ C.faults cache.new }
    ensures back { IsNone (C.files cache.old) → C.honest cache.new → C.honest cache.old }
    ensures stays { IsSome (C.files cache.old) → C.honest cache.old → RestsOver (K.records tree.old.kept) held.old → C.honest cache.new }
    ensures left { Trusts (is_some (C.files cache.old)) (C.honest cache.old) (C.honest cache.new) → RestsOver (K.records tree.old.kept) held.old → Leaves (C.files cache.old) (C.files cache.new) }
    ensures behind { OnOk result ((t : Question → Answer) → Agrees t (K.records tree.new.kept) → Trusts (is_some (C.files cache.old)) (C.honest cache.old) (C.honest cache.new) → HeldRests (K.records tree.old.kept) held.old t
        → Behind (C.files cache.old) (C.files cache.new) held.old held.new t (C.faults cache.old) (C.faults cache.new)) }
{
    memo::need(alloc, held, tree, cache, steps, number)
}

/// A unit with all that it needs, over a tree with its answers and a cache.
fn unit_over<T: Tree, K: Keeper, C: Cache<Named = BuildImages>>(
    alloc: Global,
    tree: &mut Snapshot<T, K>,
    cache: &mut C,
    steps: &mut Steps,
    held: &mut Held,
    path: &PathText,
) -> Result<List<Item>, TreeFault>
    requires store { IsStore (K.records tree.old.kept) held.old }
    ensures store { OnOk result (IsStore (K.records tree.new.kept) held.new) }
    ensures went { Went T.Tree K.Keeper tree.old tree.new (fault_of result) }
    ensures items { IfOk result (λ items. (t : Question → Answer) → Agrees t (K.records tree.new.kept) → Trusts (is_some (C.files cache.old)) (C.honest cache.old) (C.honest cache.new) → HeldRests (K.records tree.old.kept) held.old t
        → items ≡ value (unit_run (setting_of_held held.old) path.now) t) }
    ensures rests { OnOk result (GoesOn (K.records tree.old.kept) (K.records tree.new.kept) held.old held.new (Trusts (is_some (C.files cache.old)) (C.honest cache.old) (C.honest cache.new)) (λ t. begun (unit_run (setting_of_held held.old) path.now) t)) }
    ensures tells { OnOk result ((t : Question → Answer) → Agrees t (K.records tree.new.kept) → Tells (C.files cache.old) (C.files cache.new) held.old held.new t steps.old.compiles steps.new.compiles (C.faults cache.old) (C.faults cache.new)) }
    ensures longer { length held.old.noted ≤ length held.new.noted }
    ensures job { (held.new.job ≡ held.old.job) × (held.new.table ≡ held.old.table) }
    ensures told { is_some (C.files cache.new) ≡ is_some (C.files cache.old) }
    ensures later { C.faults cache.old ≤ C.faults cache.new }
    ensures back { IsNone (C.files cache.old) → C.honest cache.new → C.honest cache.old }
    ensures stays { IsSome (C.files cache.old) → C.honest cache.old → RestsOver (K.records tree.old.kept) held.old → C.honest cache.new }
    ensures left { Trusts (is_some (C.files cache.old)) (C.honest cache.old) (C.honest cache.new) → RestsOver (K.records tree.old.kept) held.old → Leaves (C.files cache.old) (C.files cache.new) }
    ensures behind { OnOk result ((t : Question → Answer) → Agrees t (K.records tree.new.kept) → Trusts (is_some (C.files cache.old)) (C.honest cache.old) (C.honest cache.new) → HeldRests (K.records tree.old.kept) held.old t
        → Behind (C.files cache.old) (C.files cache.new) held.old held.new t (C.faults cache.old) (C.faults cache.new)) }
{
    memo::unit(alloc, held, tree, cache, steps, path)
}

/// The modules of a job, as far as its units have needed them. The tree with its answers, the cache and the count of work are
/// handed to each call: they are the same in all calls on a store. A store whose call was refused is spent.
#[derive(Debug, Drop)]
pub struct Store {
    held: Held,
    is_spent: bool,
}

impl Store {
    /// A store of a job of which no module was needed. `maps` are the numbers of the answers that the table was read from.
    pub fn new(alloc: Global, job: Job, table: Table, maps: List<usize>) -> Result<Store, NoMemory>
        ensures job { IfOk result (λ store. (store.held.job ≡ job) × (store.held.table ≡ table) × (store.held.maps ≡ maps)) }
        ensures store { IfOk result (λ store. (kept : Seq ARecord) → AreOfMaps kept job table maps → AreKept kept → IsStore kept store.held) }
        ensures places { IfOk result (λ store. HasPlaces store.held) }
        ensures noted { IfOk result (λ store. store.held.noted ≡ []) }
        ensures begun { IfOk result (λ store. AreBegun store.held) }
        ensures rests { IfOk result (λ store. (kept : Seq ARecord) (t : Question → Answer) → HeldRests kept store.held t) }
        ensures spent { IfOk result (λ store. store.is_spent ≡ false) }
    {
        let held = Held::new(alloc, job, table, maps)?;
        Ok(Store {
            held,
            is_spent: false,
        })
    }

    /// What a module comes to.
    pub fn need<T: Tree, K: Keeper, C: Cache<Named = BuildImages>>(
        &mut self,
        alloc: Global,
        tree: &mut Snapshot<T, K>,
        cache: &mut C,
        steps: &mut Steps,
        number: usize,
    ) -> Result<ModuleView, StoreFault>
        requires number { number < length self.old.held.table.targets }
        requires store { self.old.is_spent ≡ false → IsStore (K.records tree.old.kept) self.old.held }
        ensures store { OnOk result (IsStore (K.records tree.new.kept) self.new.held) }
        ensures spent { (result ≡ Err StoreFault.Spent) ↔ (self.old.is_spent ≡ true) }
        ensures unchanged { result ≡ Err StoreFault.Spent → (self.new ≡ self.old) × (tree.new ≡ tree.old) × (cache.new ≡ cache.old) × (steps.new ≡ steps.old) }
        ensures spends { MatchResult result (λ _. self.new.is_spent ≡ false) (λ _. self.new.is_spent ≡ true) }
        ensures went { Went T.Tree K.Keeper tree.old tree.new (tree_fault result) }
        ensures view { IfOk result (λ view. (t : Question → Answer) → Agrees t (K.records tree.new.kept) → Trusts (is_some (C.files cache.old)) (C.honest cache.old) (C.honest cache.new) → HeldRests (K.records tree.old.kept) self.old.held t
            → IsView (value (mod_of (plan_held self.old.held) [] number) t) view) }
        ensures part { IfOk result (λ _. (t : Question → Answer) → Agrees t (K.records tree.new.kept) → Trusts (is_some (C.files cache.old)) (C.honest cache.old) (C.honest cache.new) → HeldRests (K.records tree.old.kept) self.old.held t
            → parts_at self.new.held.library number ≡ fresh_part (setting_of_held self.old.held) t number) }
        ensures rests { OnOk result (GoesOn (K.records tree.old.kept) (K.records tree.new.kept) self.old.held self.new.held (Trusts (is_some (C.files cache.old)) (C.honest cache.old) (C.honest cache.new)) (λ t. begun (mod_of (plan_held self.old.held) [] number) t)) }
        ensures tells { OnOk result ((t : Question → Answer) → Agrees t (K.records tree.new.kept) → Tells (C.files cache.old) (C.files cache.new) self.old.held self.new.held t steps.old.compiles steps.new.compiles (C.faults cache.old) (C.faults cache.new)) }
        ensures job { (self.new.held.job ≡ self.old.held.job) × (self.new.held.table ≡ self.old.held.table) }
        ensures told { is_some (C.files cache.new) ≡ is_some (C.files cache.old) }
        ensures later { C.faults cache.old ≤ C.faults cache.new }
        ensures back { IsNone (C.files cache.old) → C.honest cache.new → C.honest cache.old }
        ensures stays { IsSome (C.files cache.old) → C.honest cache.old → RestsOver (K.records tree.old.kept) self.old.held → C.honest cache.new }
        ensures left { Trusts (is_some (C.files cache.old)) (C.honest cache.old) (C.honest cache.new) → RestsOver (K.records tree.old.kept) self.old.held → Leaves (C.files cache.old) (C.files cache.new) }
        ensures behind { OnOk result ((t : Question → Answer) → Agrees t (K.records tree.new.kept) → Trusts (is_some (C.files cache.old)) (C.honest cache.old) (C.honest cache.new) → HeldRests (K.records tree.old.kept) self.old.held t
            → Behind (C.files cache.old) (C.files cache.new) self.old.held self.new.held t (C.faults cache.old) (C.faults cache.new)) }
    {
        if self.is_spent {
            return Err(StoreFault::Spent);
        }
        self.is_spent = true;
        let view = need_over(alloc, tree, cache, steps, &mut self.held, number)?;
        self.is_spent = false;
        Ok(view)
    }

    /// What is printed of a unit.
    pub fn unit<T: Tree, K: Keeper, C: Cache<Named = BuildImages>>(
        &mut self,
        alloc: Global,
        tree: &mut Snapshot<T, K>,
        cache: &mut C,
        steps: &mut Steps,
        path: &PathText,
    ) -> Result<UnitText, StoreFault>
        requires store { self.old.is_spent ≡ false → IsStore (K.records tree.old.kept) self.old.held }
        ensures store { OnOk result (IsStore (K.records tree.new.kept) self.new.held) }
        ensures spent { (result ≡ Err StoreFault.Spent) ↔ (self.old.is_spent ≡ true) }
        ensures unchanged { result ≡ Err StoreFault.Spent → (self.new ≡ self.old) × (tree.new ≡ tree.old) × (cache.new ≡ cache.old) × (steps.new ≡ steps.old) }
        ensures spends { MatchResult result (λ _. self.new.is_spent ≡ false) (λ _. self.new.is_spent ≡ true) }
        ensures went { Went T.Tree K.Keeper tree.old tree.new (tree_fault result) }
        ensures out { IfOk result (λ text. (t : Question → Answer) → Agrees t (K.records tree.new.kept) → Trusts (is_some (C.files cache.old)) (C.honest cache.old) (C.honest cache.new) → HeldRests (K.records tree.old.kept) self.old.held t
            → text.out.items ≡ unit_text_of (setting_of_held self.old.held) t (first_needs (setting_of_held self.old.held) t (numbers_noted self.old.held) path.now) path.now) }
        ensures report { IfOk result (λ text. string_bytes text.report ≡ report_since self.old.held self.new.held) }
        ensures failed { IfOk result (λ text. text.failed ≡ has_error text.out.items) }
        ensures rests { OnOk result (GoesOn (K.records tree.old.kept) (K.records tree.new.kept) self.old.held self.new.held (Trusts (is_some (C.files cache.old)) (C.honest cache.old) (C.honest cache.new)) (λ t. begun (unit_run (setting_of_held self.old.held) path.now) t)) }
        ensures tells { OnOk result ((t : Question → Answer) → Agrees t (K.records tree.new.kept) → Tells (C.files cache.old) (C.files cache.new) self.old.held self.new.held t steps.old.compiles steps.new.compiles (C.faults cache.old) (C.faults cache.new)) }
        ensures job { (self.new.held.job ≡ self.old.held.job) × (self.new.held.table ≡ self.old.held.table) }
        ensures told { is_some (C.files cache.new) ≡ is_some (C.files cache.old) }
        ensures later { C.faults cache.old ≤ C.faults cache.new }
        ensures back { IsNone (C.files cache.old) → C.honest cache.new → C.honest cache.old }
        ensures stays { IsSome (C.files cache.old) → C.honest cache.old → RestsOver (K.records tree.old.kept) self.old.held → C.honest cache.new }
        ensures left { Trusts (is_some (C.files cache.old)) (C.honest cache.old) (C.honest cache.new) → RestsOver (K.records tree.old.kept) self.old.held → Leaves (C.files cache.old) (C.files cache.new) }
        ensures behind { OnOk result ((t : Question → Answer) → Agrees t (K.records tree.new.kept) → Trusts (is_some (C.files cache.old)) (C.honest cache.old) (C.honest cache.new) → HeldRests (K.records tree.old.kept) self.old.held t
            → Behind (C.files cache.old) (C.files cache.new) self.old.held self.new.held t (C.faults cache.old) (C.faults cache.new)) }
    {
        if self.is_spent {
            return Err(StoreFault::Spent);
        }
        self.is_spent = true;
        let begun_before = self.held.noted.len();
        let items = unit_over(alloc, tree, cache, steps, &mut self.held, path)?;
        let text = unit_text(alloc, &self.held, begun_before, path, items.items())?;
        self.is_spent = false;
        Ok(text)
    }
}
