ghost use Rattle.std.specs.Prelude.{◌≡◌, ◌≤◌, ◌<◌, ◌∷◌, ◌++◌, [], false, true, ℕ, length, map, replicate, slice_get, List as Seq, IfOk, OnOk, IsSome, IsNone, Some};
ghost use Rattle.std.specs.List.{AllByRecursion, flat_map};
ghost use Rattle.cm_outside.specs.Asks.{Agrees};
ghost use Rattle.cm_outside.specs.Faults.{Rose};
ghost use Rattle.cm_outside.specs.declared.question.Question.{Question};
ghost use Rattle.cm_outside.specs.declared.question.Answer.{Answer};
ghost use Rattle.cm_outside.specs.declared.question.Record.{Record as ARecord};
ghost use Rattle.module_file.specs.ModuleFile.{IsAnswered, file_name_of};
ghost use Rattle.build_store.specs.Changes.{Went, fault_of};
ghost use Rattle.build_store.specs.Headers.{HasWalked, IsFresh, MarksEach, needs_found, needs_of_found};
ghost use Rattle.build_store.specs.Held.{AreNumbersOf, HasPlaces, HeldOn, HeldRuns, IsHeldTurn, IsTableOf, key_held, state_held};
ghost use Rattle.build_store.specs.Images.{declarations_of, diags_of, index_with};
ghost use Rattle.build_store.specs.Left.{Leaves, LeavesOthers};
ghost use Rattle.build_store.specs.LeftBehind.{ModuleBehind, has_ended};
ghost use Rattle.build_store.specs.Order.{new_of, with_new};
ghost use Rattle.build_store.specs.Targets.{name_of};
ghost use Rattle.build_store.specs.Turning.{NeedsNew, slot_at, slots_after};
ghost use Rattle.build_store.specs.Walks.{OpensUnknown};
ghost use Rattle.build_store.specs.declared.slot.Slot.TheVariants.{Busy as IsBusy};

use crate::decide::key_of;
use crate::held::{Found, Held};
use crate::images::BuildImages;
use crate::keep::keep_file;
use crate::kept_faults::diag_of;
use crate::part::Part;
use crate::slot::Turn;
use crate::table::Table;
use crate::walk::{Walk, walk_header};
use cm_core::{List, NoMemory, PathText, Str};
use cm_outside::{Cache, Keeper, Record, Snapshot, Tree, TreeFault};
use module_file::{Declaration, Index, KeptDiag};
use std::alloc::Global;
use unit_fold::{FaultAt, Named};

/// Adds a copy of the record of an answer.
fn push_record<T: Tree, K: Keeper>(
    alloc: Global,
    tree: &Snapshot<T, K>,
    records: &mut List<Record>,
    number: usize,
) -> Result<(), NoMemory>
    ensures numbered { OnOk result (number < length (K.records tree.now.kept) → map Some records.new ≡ map Some records.old ++ slice_get (K.records tree.now.kept) number ∷ []) }
    ensures answered { OnOk result (AllByRecursion IsAnswered records.old → AllByRecursion IsAnswered records.new) }
{
    if number >= tree.len() {
        return Ok(());
    }
    records.push(tree.record(number).copy(alloc)?)
}

/// Copies of the records of these answers.
fn records_of<T: Tree, K: Keeper>(
    alloc: Global,
    tree: &Snapshot<T, K>,
    numbers: &[usize],
) -> Result<List<Record>, NoMemory>
    ensures numbered { IfOk result (λ copies. AllByRecursion (λ n. n < length (K.records tree.now.kept)) numbers.now → AreNumbersOf (K.records tree.now.kept) numbers.now copies) }
    ensures answered { IfOk result (AllByRecursion IsAnswered) }
{
    let mut records = List::new(alloc);
    for number in numbers {
        push_record(alloc, tree, &mut records, *number)?;
    }
    Ok(records)
}

fn no_flags(alloc: Global, size: usize) -> Result<Vec<bool>, NoMemory>
    ensures { IfOk result (λ flags. flags.items ≡ replicate size false) }
{
    let mut flags = Vec::new(alloc);
    for _ in 0..size {
        flags.push(false)?;
    }
    Ok(flags)
}

/// Adds a number that is not among these yet. `seen` says of each number whether it is.
fn push_new(seen: &mut Vec<bool>, once: &mut List<usize>, number: usize) -> Result<(), NoMemory>
    ensures len { length seen.new.items ≡ length seen.old.items }
    ensures marks { MarksEach seen.old.items once.old → OnOk result (MarksEach seen.new.items once.new) }
    ensures once { MarksEach seen.old.items once.old → number < length seen.old.items → OnOk result (once.new ≡ with_new once.old (number ∷ [])) }
{
    if number >= seen.len() || seen[number] {
        return Ok(());
    }
    once.push(number)?;
    seen[number] = true;
    Ok(())
}

/// Each of these numbers, which are all below `size`, at its first.
fn each_once(alloc: Global, numbers: &[usize], size: usize) -> Result<List<usize>, NoMemory>
    ensures { IfOk result (λ once. AllByRecursion (λ n. n < size) numbers.now → once ≡ new_of [] numbers.now) }
{
    let mut seen = no_flags(alloc, size)?;
    let mut once = List::new(alloc);
    for number in numbers {
        push_new(&mut seen, &mut once, *number)?;
    }
    Ok(once)
}

fn push_numbers(numbers: &mut List<usize>, more: &[usize]) -> Result<(), NoMemory>
    ensures { OnOk result (numbers.new ≡ numbers.old ++ more.now) }
{
    for number in more {
        numbers.push(*number)?;
    }
    Ok(())
}

fn push_needs(needs: &mut List<usize>, found: &Option<Found>) -> Result<(), NoMemory>
    ensures { OnOk result (needs.new ≡ needs.old ++ needs_of_found found.now) }
{
    match found {
        Some(found) => push_numbers(needs, found.needs.items()),
        None => Ok(()),
    }
}

/// A copy of these numbers.
fn copy_of(alloc: Global, numbers: &[usize]) -> Result<List<usize>, NoMemory>
    ensures { IfOk result (λ copied. copied ≡ numbers.now) }
{
    let mut copied = List::new(alloc);
    for number in numbers {
        copied.push(*number)?;
    }
    Ok(copied)
}

/// Adds the module of this name with all that it needs.
fn push_module(needs: &mut List<usize>, held: &Held, name: &Str) -> Result<(), NoMemory>
    requires places { HasPlaces held.now }
    ensures { OnOk result (needs.new ≡ needs.old ++ needs_found held.now name.now) }
{
    match held.names.number(name.text()) {
        Some(number) => {
            needs.push(number)?;
            push_needs(needs, &held.found.items()[number])
        }
        None => Ok(()),
    }
}

/// The modules of these names with all that they need, as they come.
fn all_needs(alloc: Global, held: &Held, names: &[Str]) -> Result<List<usize>, NoMemory>
    requires places { HasPlaces held.now }
    ensures { IfOk result (λ needs. needs ≡ flat_map (needs_found held.now) names.now) }
{
    let mut needs = List::new(alloc);
    for name in names {
        push_module(&mut needs, held, name)?;
    }
    Ok(needs)
}

fn declarations(
    alloc: Global,
    header: &PathText,
    objects: &[Named],
) -> Result<List<Declaration>, NoMemory>
    ensures { IfOk result (λ ds. ds ≡ declarations_of header.now objects.now) }
{
    let mut declarations = List::new(alloc);
    for object in objects {
        declarations.push(Declaration {
            name: object.name.copy(alloc)?,
            path: header.copy(alloc)?,
            line: object.at.line,
            column: object.at.column,
        })?;
    }
    Ok(declarations)
}

fn diags(alloc: Global, header: &PathText, faults: &[FaultAt]) -> Result<List<KeptDiag>, NoMemory>
    ensures { IfOk result (λ ds. ds ≡ diags_of header.now faults.now) }
{
    let mut diags = List::new(alloc);
    for fault in faults {
        diags.push(diag_of(alloc, header, fault)?)?;
    }
    Ok(diags)
}

/// The name of the module of this number.
fn name_at(alloc: Global, table: &Table, number: usize) -> Result<Str, NoMemory>
    ensures { IfOk result (λ name. name ≡ name_of table.now number) }
{
    match table.targets.get(number) {
        Some(target) => target.name.copy(alloc),
        None => Str::read(alloc, ""),
    }
}

fn names_of(alloc: Global, table: &Table, numbers: &[usize]) -> Result<List<Str>, NoMemory>
    ensures { IfOk result (λ names. names ≡ map (name_of table.now) numbers.now) }
{
    let mut names = List::new(alloc);
    for number in numbers {
        names.push(name_at(alloc, table, *number)?)?;
    }
    Ok(names)
}

/// What the file of a module says that came to this.
fn fresh_index(
    alloc: Global,
    held: &Held,
    number: usize,
    records: List<Record>,
    part: &Part,
    needs: &[usize],
) -> Result<Index, NoMemory>
    requires number { number < length held.now.table.targets }
    ensures { IfOk result (λ i. i ≡ index_with (key_held held.now number) held.now.table number records needs.now part.now) }
{
    let target = &held.table.targets.items()[number];
    Ok(Index {
        key: key_of(alloc, &held.job, &target.name)?,
        records,
        needs: names_of(alloc, &held.table, needs)?,
        sub: target.name.copy(alloc)?,
        imports: part.imports.copy(alloc)?,
        declarations: declarations(alloc, &target.header, part.objects.items())?,
        diags: diags(alloc, &target.header, part.faults.items())?,
    })
}

/// What is found of a module whose header was read to its end, and what its file says. `numbers` are those of the maps and of
/// all that interpreting it asks.
fn fresh<T: Tree, K: Keeper>(
    alloc: Global,
    tree: &Snapshot<T, K>,
    held: &Held,
    number: usize,
    part: &Part,
    numbers: &[usize],
) -> Result<(Index, Found), NoMemory>
    requires places { HasPlaces held.now }
    requires number { number < length held.now.table.targets }
    ensures key { IfOk result (λ made. made.0.key ≡ key_held held.now number) }
    ensures answered { IfOk result (λ made. AllByRecursion IsAnswered made.0.records) }
    ensures built { IfOk result (λ made. (t : Question → Answer) (chain end : Seq ℕ) → HasWalked (K.records tree.now.kept) held.now t chain end number (Walk.Done part.now) numbers.now
        → IsFresh (K.records tree.now.kept) held.now t chain number part.now made.0 made.1) }
{
    let asked = each_once(alloc, numbers, tree.len())?;
    let all = all_needs(alloc, held, part.imports.items())?;
    let needs = each_once(alloc, all.items(), held.table.targets.len())?;
    let records = records_of(alloc, tree, asked.items())?;
    let index = fresh_index(alloc, held, number, records, part, needs.items())?;
    Ok((index, Found { asked, needs }))
}

/// The header of a module was read to its end: the module is kept, in the cache too.
fn end_built<T: Tree, K: Keeper, C: Cache<Named = BuildImages>>(
    alloc: Global,
    tree: &Snapshot<T, K>,
    cache: &mut C,
    held: &mut Held,
    number: usize,
    part: Part,
    numbers: &[usize],
) -> Result<(), NoMemory>
    requires places { HasPlaces held.old }
    requires number { number < length held.old.table.targets }
    requires busy { slot_at held.old.slots number ≡ IsBusy }
    ensures places { HasPlaces held.new }
    ensures on { HeldOn (K.records tree.now.kept) (K.records tree.now.kept) held.old held.new }
    ensures noted { held.new.noted ≡ held.old.noted }
    ensures choices { held.new.choices ≡ held.old.choices }
    ensures slots { OnOk result (held.new.slots ≡ slots_after Turn.Good number held.old.slots) }
    ensures turn { OnOk result ((t : Question → Answer) (chain end : Seq ℕ) → HasWalked (K.records tree.now.kept) held.old t chain end number (Walk.Done part) numbers.now
        → IsHeldTurn (K.records tree.now.kept) held.old held.new t chain number Turn.Good) }
    ensures later { C.faults cache.old ≤ C.faults cache.new }
    ensures back { IsNone (C.files cache.old) → C.honest cache.new → C.honest cache.old }
    ensures stays { IsSome (C.files cache.old) → C.honest cache.old → (t : Question → Answer) (chain end : Seq ℕ)
        → HasWalked (K.records tree.now.kept) held.old t chain end number (Walk.Done part) numbers.now → C.honest cache.new }
    ensures left { (t : Question → Answer) (chain end : Seq ℕ) → HasWalked (K.records tree.now.kept) held.old t chain end number (Walk.Done part) numbers.now
        → Leaves (C.files cache.old) (C.files cache.new) }
    ensures others { LeavesOthers (file_name_of (key_held held.old number)) (C.files cache.old) (C.files cache.new) }
    ensures behind { OnOk result ((t : Question → Answer) (chain end : Seq ℕ) → HasWalked (K.records tree.now.kept) held.old t chain end number (Walk.Done part) numbers.now
        → ModuleBehind held.old number true t (C.files cache.old) (C.files cache.new) (Rose (C.faults cache.old) (C.faults cache.new))) }
{
    let (index, found) = fresh(alloc, tree, held, number, &part, numbers)?;
    keep_file(alloc, cache, &index)?;
    held.end(alloc, number, part, found)
}

/// Ends a turn whose walk over the header came to this.
fn end_walk<T: Tree, K: Keeper, C: Cache<Named = BuildImages>>(
    alloc: Global,
    tree: &Snapshot<T, K>,
    cache: &mut C,
    held: &mut Held,
    number: usize,
    walk: Walk,
    numbers: &[usize],
) -> Result<Turn, NoMemory>
    requires places { HasPlaces held.old }
    requires number { number < length held.old.table.targets }
    requires busy { slot_at held.old.slots number ≡ IsBusy }
    requires unknown { OpensUnknown held.old walk }
    ensures places { HasPlaces held.new }
    ensures on { HeldOn (K.records tree.now.kept) (K.records tree.now.kept) held.old held.new }
    ensures noted { held.new.noted ≡ held.old.noted }
    ensures choices { held.new.choices ≡ held.old.choices }
    ensures slots { IfOk result (λ turn. held.new.slots ≡ slots_after turn number held.old.slots) }
    ensures unknown { IfOk result (λ turn. (kept : Seq ARecord) → NeedsNew (state_held kept held.old) turn) }
    ensures turn { IfOk result (λ turn. (t : Question → Answer) (chain end : Seq ℕ) → HasWalked (K.records tree.now.kept) held.old t chain end number walk numbers.now
        → IsHeldTurn (K.records tree.now.kept) held.old held.new t chain number turn) }
    ensures later { C.faults cache.old ≤ C.faults cache.new }
    ensures back { IsNone (C.files cache.old) → C.honest cache.new → C.honest cache.old }
    ensures stays { IsSome (C.files cache.old) → C.honest cache.old → (t : Question → Answer) (chain end : Seq ℕ)
        → HasWalked (K.records tree.now.kept) held.old t chain end number walk numbers.now → C.honest cache.new }
    ensures left { (t : Question → Answer) (chain end : Seq ℕ) → HasWalked (K.records tree.now.kept) held.old t chain end number walk numbers.now
        → Leaves (C.files cache.old) (C.files cache.new) }
    ensures others { LeavesOthers (file_name_of (key_held held.old number)) (C.files cache.old) (C.files cache.new) }
    ensures behind { IfOk result (λ turn. (t : Question → Answer) (chain end : Seq ℕ) → HasWalked (K.records tree.now.kept) held.old t chain end number walk numbers.now
        → ModuleBehind held.old number (has_ended turn) t (C.files cache.old) (C.files cache.new) (Rose (C.faults cache.old) (C.faults cache.new))) }
{
    match walk {
        Walk::Needs(first) => Ok(Turn::Needs(first)),
        Walk::Cyclic => {
            held.end_as_cyclic(number);
            Ok(Turn::Cyclic)
        }
        Walk::Done(part) => {
            end_built(alloc, tree, cache, held, number, part, numbers)?;
            Ok(Turn::Good)
        }
    }
}

/// One turn of a module in progress that is interpreted from its header. One that ends is kept in the cache.
pub fn header_turn<T: Tree, K: Keeper, C: Cache<Named = BuildImages>>(
    alloc: Global,
    tree: &mut Snapshot<T, K>,
    cache: &mut C,
    held: &mut Held,
    number: usize,
) -> Result<Turn, TreeFault>
    requires places { HasPlaces held.old }
    requires number { number < length held.old.table.targets }
    requires busy { slot_at held.old.slots number ≡ IsBusy }
    ensures places { OnOk result (HasPlaces held.new) }
    ensures went { Went T.Tree K.Keeper tree.old tree.new (fault_of result) }
    ensures on { HeldOn (K.records tree.old.kept) (K.records tree.new.kept) held.old held.new }
    ensures noted { held.new.noted ≡ held.old.noted }
    ensures choices { held.new.choices ≡ held.old.choices }
    ensures slots { IfOk result (λ turn. held.new.slots ≡ slots_after turn number held.old.slots) }
    ensures unknown { IfOk result (λ turn. (kept : Seq ARecord) → NeedsNew (state_held kept held.old) turn) }
    ensures turn { IfOk result (λ turn. (t : Question → Answer) (chain end : Seq ℕ) → Agrees t (K.records tree.new.kept) → IsTableOf (K.records tree.old.kept) held.old → HeldRuns (K.records tree.old.kept) held.old t (number ∷ chain) end
        → IsHeldTurn (K.records tree.new.kept) held.old held.new t chain number turn) }
    ensures later { C.faults cache.old ≤ C.faults cache.new }
    ensures back { IsNone (C.files cache.old) → C.honest cache.new → C.honest cache.old }
    ensures stays { IsSome (C.files cache.old) → C.honest cache.old → (t : Question → Answer) (chain end : Seq ℕ) → Agrees t (K.records tree.new.kept) → IsTableOf (K.records tree.old.kept) held.old
        → HeldRuns (K.records tree.old.kept) held.old t (number ∷ chain) end → C.honest cache.new }
    ensures left { (t : Question → Answer) (chain end : Seq ℕ) → Agrees t (K.records tree.new.kept) → IsTableOf (K.records tree.old.kept) held.old
        → HeldRuns (K.records tree.old.kept) held.old t (number ∷ chain) end → Leaves (C.files cache.old) (C.files cache.new) }
    ensures others { LeavesOthers (file_name_of (key_held held.old number)) (C.files cache.old) (C.files cache.new) }
    ensures behind { IfOk result (λ turn. (t : Question → Answer) (chain end : Seq ℕ) → Agrees t (K.records tree.new.kept) → IsTableOf (K.records tree.old.kept) held.old → HeldRuns (K.records tree.old.kept) held.old t (number ∷ chain) end
        → ModuleBehind held.old number (has_ended turn) t (C.files cache.old) (C.files cache.new) (Rose (C.faults cache.old) (C.faults cache.new))) }
{
    let mut numbers = copy_of(alloc, held.maps.items())?;
    let walk = walk_header(alloc, tree, held, number, &mut numbers)?;
    Ok(end_walk(alloc, tree, cache, held, number, walk, numbers.items())?)
}
