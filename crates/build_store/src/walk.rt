ghost use Rattle.std.specs.Prelude.{◌≡◌, ◌<◌, ◌++◌, length, slice_get, IfOk, OnOk, None};
ghost use Rattle.cm_outside.specs.Asks.{Agrees};
ghost use Rattle.cm_outside.specs.declared.question.Question.{Question as AnyQuestion};
ghost use Rattle.cm_outside.specs.declared.question.Answer.{Answer as AnyAnswer};
ghost use Rattle.unit_fold.specs.Owners.{Reading, Includes, nothing_read};
ghost use Rattle.unit_fold.specs.Steps.{AnswersText, Fits, FoldState, HasEnded, IsHead, StandsAt, WaitsFor, after, after_stage};
ghost use Rattle.unit_fold.specs.declared.at.At.{At as AnyAt};
ghost use Rattle.unit_fold.specs.declared.fold.Stage.{Stage as AnyStage};
ghost use Rattle.unit_fold.specs.declared.fold.Stage.TheVariants.{WaitsForText};
ghost use Rattle.unit_fold.specs.declared.given.Given.{Given as AnyGiven};
ghost use Rattle.build_store.specs.declared.finding.Find.{Find as AnyFind};
ghost use Rattle.build_store.specs.Changes.{Went, fault_of};
ghost use Rattle.build_store.specs.Held.{HasPlaces, IsTableOf};
ghost use Rattle.build_store.specs.Owners.{owner_with as owner_in, text_given};
ghost use Rattle.build_store.specs.Parts.{Fragment, part_of as part_of_items, brought as brought_in};
ghost use Rattle.build_store.specs.Libraries.{parts_at};
ghost use Rattle.build_store.specs.Turning.{slot_at};
ghost use Rattle.build_store.specs.Walks.{AreTrue, EndsWith, GoesDown, IsIncludeStep, IsPaused, IsReady, IsStep, IsUnitWalk, IsUnitWay, IsWalk, IsWay, OpensUnknown, StepFits, StepIsFor, StepOpens, UnitOpensUnknown, WayIsFor, WayOpens, WayIsReady, asked_or, cyclic_step as cyclic_step_of, far_of, find_numbers, find_step as find_step_of, owner_far, slot_numbers, slot_step as slot_step_of, stage_left, target_numbers, target_step as target_step_of, with_item};

use crate::finding::Find;
use crate::held::{Found, Held};
use crate::part::Part;
use crate::search::{ask_path, find};
use crate::slot::{Slot, UnitTurn};
use cm_core::{List, NoMemory, Owner, PathText, Str, SubNo};
use cm_outside::{Answer, Keeper, Snapshot, Tree, TreeFault};
use std::alloc::Global;
use unit_fold::{Event, FaultKind, Fold, FoldFault, Given, Imported, Item};

/// How far the fold of a header comes.
#[derive(Debug, Drop)]
pub enum Walk {
    /// It stands at an import of the module of this number, of which nothing is known.
    Needs(usize),
    /// It came to an import of a module that is in progress or Cyclic.
    Cyclic,
    Done(Part),
}

/// What an event of a fold comes to.
#[derive(Debug, Drop)]
pub(crate) enum Step {
    /// The fold goes on with this.
    Goes(Given),
    /// It stands at an import of the module of this number, of which nothing is known.
    Needs(usize),
    /// It is a header's, and comes to an import of a module that is in progress or Cyclic.
    Cyclic,
    /// It has ended.
    Ends,
}

/// A fold that waits at an import of a module of which nothing is known.
#[derive(Drop)]
pub struct Paused {
    pub fold: Fold,
    /// The include that it stands at.
    pub event: Event,
}

/// How far an owner comes.
#[derive(Drop)]
pub(crate) enum Way {
    /// To an import of the module of this number, of which nothing is known.
    Needs(usize, Paused),
    Cyclic,
    /// To its end, with what its pieces and includes came to.
    Done(List<Item>),
}

fn push_numbers(numbers: &mut List<usize>, more: &[usize]) -> Result<(), NoMemory>
    ensures { OnOk result (numbers.new ≡ numbers.old ++ more.now) }
{
    for number in more {
        numbers.push(*number)?;
    }
    Ok(())
}

fn cyclic_step(alloc: Global, strict: bool, name: &Str) -> Result<Step, NoMemory>
    ensures { IfOk result (λ step. step ≡ cyclic_step_of strict name.now) }
{
    if strict {
        Ok(Step::Cyclic)
    } else {
        let kind = FaultKind::CyclicModule(name.copy(alloc)?);
        Ok(Step::Goes(Given::Refused(kind)))
    }
}

/// Adds the numbers of what a module asks, where it has ended.
fn push_asked(numbers: &mut List<usize>, found: &Option<Found>) -> Result<(), NoMemory>
    ensures { OnOk result (numbers.new ≡ numbers.old ++ asked_or found.now) }
{
    match found {
        Some(found) => push_numbers(numbers, found.asked.items()),
        None => Ok(()),
    }
}

fn imported_step(alloc: Global, held: &Held, number: usize, name: &Str) -> Result<Step, NoMemory>
    requires places { HasPlaces held.now }
    requires number { number < length held.now.table.targets }
    ensures { IfOk result (λ step. step ≡ Step.Goes (Given.Imported (record { sub = record { index = number }; name = name.now }) (brought_in held.now.table (parts_at held.now.library) number))) }
{
    let imported = Imported {
        sub: SubNo {
            index: number as u64,
        },
        name: name.copy(alloc)?,
    };
    let names = held.library.brought(alloc, number)?;
    Ok(Step::Goes(Given::Imported(imported, names)))
}

/// An import of a module, by what is known of it.
fn slot_step(
    alloc: Global,
    held: &Held,
    strict: bool,
    number: usize,
    name: &Str,
    numbers: &mut List<usize>,
) -> Result<Step, NoMemory>
    requires places { HasPlaces held.now }
    requires number { number < length held.now.table.targets }
    ensures step { IfOk result (λ step. step ≡ slot_step_of held.now strict number name.now (slot_at held.now.slots number)) }
    ensures numbers { OnOk result (numbers.new ≡ numbers.old ++ slot_numbers held.now number (slot_at held.now.slots number)) }
    ensures opens { IfOk result (StepOpens held.now) }
{
    match held.slots.items()[number] {
        Slot::Unknown => Ok(Step::Needs(number)),
        Slot::Busy | Slot::Cyclic => cyclic_step(alloc, strict, name),
        Slot::Good => {
            push_asked(numbers, &held.found.items()[number])?;
            imported_step(alloc, held, number, name)
        }
    }
}

fn target_step(
    alloc: Global,
    held: &Held,
    strict: bool,
    number: usize,
    numbers: &mut List<usize>,
) -> Result<Step, NoMemory>
    requires places { HasPlaces held.now }
    ensures step { IfOk result (λ step. step ≡ target_step_of held.now strict number (slice_get held.now.table.targets number)) }
    ensures numbers { OnOk result (numbers.new ≡ numbers.old ++ target_numbers held.now number (slice_get held.now.table.targets number)) }
    ensures opens { IfOk result (StepOpens held.now) }
{
    let Some(target) = held.table.targets.get(number) else {
        return Ok(Step::Goes(Given::NotBuilt));
    };
    slot_step(alloc, held, strict, number, &target.name, numbers)
}

/// What an include comes to by what it found: the header of another module is imported, the owner's own header is skipped, and
/// no other file is entered yet.
fn find_step(
    alloc: Global,
    held: &Held,
    own: Option<usize>,
    found: Find,
    numbers: &mut List<usize>,
) -> Result<Step, NoMemory>
    requires places { HasPlaces held.now }
    ensures step { IfOk result (λ step. step ≡ find_step_of held.now own found) }
    ensures numbers { OnOk result (numbers.new ≡ numbers.old ++ find_numbers held.now own found) }
    ensures opens { IfOk result (StepOpens held.now) }
{
    let Find::Header(number) = found else {
        return Ok(Step::Goes(Given::NotBuilt));
    };
    if own == Some(number) {
        return Ok(Step::Goes(Given::Skip));
    }
    target_step(alloc, held, own.is_some(), number, numbers)
}

/// An include of a text in an owner's file. The numbers of the answers that it asks for are put behind the others.
fn include<T: Tree, K: Keeper>(
    alloc: Global,
    tree: &mut Snapshot<'_, T, K>,
    held: &Held,
    own: Option<usize>,
    file: &PathText,
    text: &Str,
    numbers: &mut List<usize>,
) -> Result<Step, TreeFault>
    requires places { HasPlaces held.now }
    ensures went { Went T.Tree K.Keeper tree.old tree.new (fault_of result) }
    ensures opens { IfOk result (StepOpens held.now) }
    ensures found { IfOk result (λ step. (found : AnyFind) × (step ≡ find_step_of held.now own found)) }
    ensures step { IfOk result (λ step. (t : AnyQuestion → AnyAnswer) (parts : Fragment) (at : AnyAt) (next : AnyGiven → Reading) → Agrees t (K.records tree.new.kept) → AreTrue (K.records tree.new.kept) held.now t
        → IsIncludeStep (K.records tree.new.kept) held.now t own file.now next numbers.old numbers.new (far_of held.now t own file.now parts (Includes at text.now next)) step) }
{
    let found = find(
        alloc,
        tree,
        held.job.includes.items(),
        &held.table,
        file,
        text.text(),
        numbers,
    )?;
    Ok(find_step(alloc, held, own, found, numbers)?)
}

/// What an event of an owner's fold comes to.
fn event_step<T: Tree, K: Keeper>(
    alloc: Global,
    tree: &mut Snapshot<'_, T, K>,
    held: &Held,
    own: Option<usize>,
    file: &PathText,
    event: &Event,
    numbers: &mut List<usize>,
) -> Result<Step, TreeFault>
    requires places { HasPlaces held.now }
    ensures went { Went T.Tree K.Keeper tree.old tree.new (fault_of result) }
    ensures opens { IfOk result (StepOpens held.now) }
    ensures is_for { IfOk result (StepIsFor own) }
    ensures ends { IfOk result (EndsWith event.now) }
    ensures fits { IfOk result (λ step. (stage : AnyStage) → WaitsFor event.now stage → StepFits stage step) }
    ensures step { IfOk result (λ step. (t : AnyQuestion → AnyAnswer) (parts : Fragment) (reading : Reading) (fold : FoldState) → Agrees t (K.records tree.new.kept) → AreTrue (K.records tree.new.kept) held.now t
        → fold.owner ≡ owner_in own → IsHead reading event.now fold → IsStep (K.records tree.new.kept) held.now t own file.now fold numbers.old numbers.new (far_of held.now t own file.now parts reading) step) }
{
    match event {
        Event::NeedText => Ok(Step::Goes(Given::Skip)),
        Event::NeedInclude(text, _) => include(alloc, tree, held, own, file, text, numbers),
        Event::Done => Ok(Step::Ends),
    }
}

/// Goes on with a fold that has not ended.
fn go_on(alloc: Global, fold: &mut Fold, given: Given) -> Result<Event, NoMemory>
    requires fits { Fits fold.old.stage given }
    requires live { ¬ HasEnded fold.old.stage }
    ensures head { IfOk result (λ event. IsHead (after fold.old given) event fold.new) }
    ensures waits { IfOk result (λ event. WaitsFor event fold.new.stage) }
    ensures stands { IfOk result (λ event. StandsAt event fold.new.stage) }
    ensures shorter { IfOk result (λ _. GoesDown fold.old.stage given → stage_left fold.new.stage < stage_left fold.old.stage) }
    ensures owner { fold.new.owner ≡ fold.old.owner }
{
    match fold.advance(alloc, given) {
        Ok(event) => Ok(event),
        Err(FoldFault::NoMemory) => Err(NoMemory),
        Err(FoldFault::Spent) => unreachable!(),
    }
}

/// A unit, or the header of this module.
fn owner_with(own: Option<usize>) -> Owner
    ensures { result ≡ owner_in own }
{
    match own {
        None => Owner::Unit,
        Some(number) => Owner::Sub(SubNo {
            index: number as u64,
        }),
    }
}

/// The fold of an owner that is given this for its file, and what it needs first.
fn begin(alloc: Global, own: Option<usize>, given: Given) -> Result<(Fold, Event), NoMemory>
    requires fits { AnswersText given }
    ensures head { IfOk result (λ begun. IsHead (after_stage (owner_in own) nothing_read WaitsForText given) begun.1 begun.0) }
    ensures waits { IfOk result (λ begun. WaitsFor begun.1 begun.0.stage) }
    ensures stands { IfOk result (λ begun. StandsAt begun.1 begun.0.stage) }
    ensures owner { IfOk result (λ begun. begun.0.owner ≡ owner_in own) }
{
    let mut fold = Fold::begin(alloc, owner_with(own));
    let _ = go_on(alloc, &mut fold, Given::Again)?;
    let event = go_on(alloc, &mut fold, given)?;
    Ok((fold, event))
}

/// Walks over an owner from an event of its fold on.
fn walk_on<T: Tree, K: Keeper>(
    alloc: Global,
    tree: &mut Snapshot<'_, T, K>,
    held: &Held,
    own: Option<usize>,
    file: &PathText,
    mut fold: Fold,
    mut event: Event,
    numbers: &mut List<usize>,
) -> Result<Way, TreeFault>
    requires places { HasPlaces held.now }
    requires waits { WaitsFor event fold.stage }
    requires stands { StandsAt event fold.stage }
    requires owner { fold.owner ≡ owner_in own }
    ensures went { Went T.Tree K.Keeper tree.old tree.new (fault_of result) }
    ensures opens { IfOk result (WayOpens held.now) }
    ensures is_for { IfOk result (WayIsFor own) }
    ensures ready { IfOk result (WayIsReady own) }
    ensures way { IfOk result (λ way. (t : AnyQuestion → AnyAnswer) (parts : Fragment) (reading : Reading) → Agrees t (K.records tree.new.kept) → AreTrue (K.records tree.old.kept) held.now t
        → IsHead reading event fold → IsWay (K.records tree.new.kept) held.now t own file.now numbers.old numbers.new (far_of held.now t own file.now parts reading) way) }
{
    loop {
        match event_step(alloc, tree, held, own, file, &event, numbers)? {
            Step::Goes(given) => event = go_on(alloc, &mut fold, given)?,
            Step::Needs(number) => return Ok(Way::Needs(number, Paused { fold, event })),
            Step::Cyclic => return Ok(Way::Cyclic),
            Step::Ends => return Ok(Way::Done(fold.close().items)),
        }
    }
}

/// What an owner is given for its file: its text, or the diagnostic of one that is absent or too large.
fn text_of(alloc: Global, path: &PathText, answer: &Answer) -> Result<Given, NoMemory>
    ensures given { IfOk result (λ given. given ≡ text_given path.now answer.now) }
    ensures fits { IfOk result AnswersText }
{
    match answer {
        Answer::Bytes(bytes) => Ok(Given::Text(bytes.copy(alloc)?, path.copy(alloc)?)),
        Answer::Absent | Answer::Paths(_) => Ok(Given::Refused(FaultKind::Absent)),
        Answer::TooLarge(size) => Ok(Given::Refused(FaultKind::TooLarge(*size))),
    }
}

/// Walks over the owner whose text is the file of `path`; `own` is its module, where it is a header.
fn walk_owner<T: Tree, K: Keeper>(
    alloc: Global,
    tree: &mut Snapshot<'_, T, K>,
    held: &Held,
    own: Option<usize>,
    path: &PathText,
    numbers: &mut List<usize>,
) -> Result<Way, TreeFault>
    requires places { HasPlaces held.now }
    ensures went { Went T.Tree K.Keeper tree.old tree.new (fault_of result) }
    ensures opens { IfOk result (WayOpens held.now) }
    ensures is_for { IfOk result (WayIsFor own) }
    ensures ready { IfOk result (WayIsReady own) }
    ensures way { IfOk result (λ way. (t : AnyQuestion → AnyAnswer) → Agrees t (K.records tree.new.kept) → AreTrue (K.records tree.old.kept) held.now t
        → IsWay (K.records tree.new.kept) held.now t own path.now numbers.old numbers.new (owner_far held.now t own path.now) way) }
{
    let at = ask_path(tree, path)?;
    numbers.push(at)?;
    let given = text_of(alloc, path, &tree.record(at).answer)?;
    let (fold, event) = begin(alloc, own, given)?;
    walk_on(alloc, tree, held, own, path, fold, event, numbers)
}

/// Adds what an item of a header is to the part of its module.
fn push_item(alloc: Global, part: &mut Part, item: &Item) -> Result<(), NoMemory>
    ensures { OnOk result (part.new ≡ with_item part.old item.now) }
{
    match item {
        Item::Object(named) => part.objects.push(named.copy(alloc)?),
        Item::Pointer(_) => Ok(()),
        Item::Import(imported, _) => part.imports.push(imported.name.copy(alloc)?),
        Item::Fault(fault) => part.faults.push(fault.copy(alloc)?),
    }
}

/// The part of a module whose header came to these items.
fn part_of(alloc: Global, items: &[Item]) -> Result<Part, NoMemory>
    ensures { IfOk result (λ part. part ≡ part_of_items items.now) }
{
    let mut part = Part {
        objects: List::new(alloc),
        imports: List::new(alloc),
        faults: List::new(alloc),
    };
    for item in items {
        push_item(alloc, &mut part, item)?;
    }
    Ok(part)
}

/// Reads the header of a module as far as what it imports is known, and adds the numbers of the answers that it asks for, with
/// those of the modules that it imports.
pub fn walk_header<T: Tree, K: Keeper>(
    alloc: Global,
    tree: &mut Snapshot<'_, T, K>,
    held: &Held,
    number: usize,
    numbers: &mut List<usize>,
) -> Result<Walk, TreeFault>
    requires places { HasPlaces held.now }
    requires number { number < length held.now.table.targets }
    ensures went { Went T.Tree K.Keeper tree.old tree.new (fault_of result) }
    ensures unknown { IfOk result (OpensUnknown held.now) }
    ensures walk { IfOk result (λ walk. (t : AnyQuestion → AnyAnswer) → Agrees t (K.records tree.new.kept) → IsTableOf (K.records tree.old.kept) held.now → AreTrue (K.records tree.old.kept) held.now t
        → IsWalk (K.records tree.new.kept) held.now t number numbers.old numbers.new walk) }
{
    let header = &held.table.targets.items()[number].header;
    match walk_owner(alloc, tree, held, Some(number), header, numbers)? {
        Way::Needs(number, _) => Ok(Walk::Needs(number)),
        Way::Cyclic => Ok(Walk::Cyclic),
        Way::Done(items) => Ok(Walk::Done(part_of(alloc, items.items())?)),
    }
}

/// Walks over a unit, from where its fold waits or else from its start.
fn unit_way<T: Tree, K: Keeper>(
    alloc: Global,
    tree: &mut Snapshot<'_, T, K>,
    held: &Held,
    unit: &PathText,
    paused: Option<Paused>,
) -> Result<Way, TreeFault>
    requires places { HasPlaces held.now }
    requires ready { IsReady paused }
    ensures went { Went T.Tree K.Keeper tree.old tree.new (fault_of result) }
    ensures opens { IfOk result (WayOpens held.now) }
    ensures is_for { IfOk result (WayIsFor None) }
    ensures ready { IfOk result (WayIsReady None) }
    ensures way { IfOk result (λ way. (t : AnyQuestion → AnyAnswer) → Agrees t (K.records tree.new.kept) → AreTrue (K.records tree.old.kept) held.now t → IsPaused held.now t unit.now paused
        → IsUnitWay held.now t unit.now (owner_far held.now t None unit.now) way) }
{
    let mut numbers = List::new(alloc);
    match paused {
        Some(Paused { fold, event }) => {
            walk_on(alloc, tree, held, None, unit, fold, event, &mut numbers)
        }
        None => walk_owner(alloc, tree, held, None, unit, &mut numbers),
    }
}

/// Reads a unit as far as what it imports is known, from where its fold waits or else from its start. Where it needs a module
/// first, its fold waits there.
pub fn walk_unit<T: Tree, K: Keeper>(
    alloc: Global,
    tree: &mut Snapshot<'_, T, K>,
    held: &Held,
    unit: &PathText,
    paused: &mut Option<Paused>,
) -> Result<UnitTurn, TreeFault>
    requires places { HasPlaces held.now }
    requires ready { IsReady paused.old }
    ensures went { Went T.Tree K.Keeper tree.old tree.new (fault_of result) }
    ensures unknown { IfOk result (UnitOpensUnknown held.now) }
    ensures ready { IsReady paused.new }
    ensures walk { IfOk result (λ turn. (t : AnyQuestion → AnyAnswer) → Agrees t (K.records tree.new.kept) → AreTrue (K.records tree.old.kept) held.now t → IsPaused held.now t unit.now paused.old
        → IsUnitWalk held.now t unit.now turn) }
    ensures paused { OnOk result ((t : AnyQuestion → AnyAnswer) → Agrees t (K.records tree.new.kept) → AreTrue (K.records tree.old.kept) held.now t → IsPaused held.now t unit.now paused.old
        → IsPaused held.now t unit.now paused.new) }
{
    match unit_way(alloc, tree, held, unit, paused.take())? {
        Way::Needs(number, at) => {
            *paused = Some(at);
            Ok(UnitTurn::Needs(number))
        }
        Way::Cyclic => unreachable!(),
        Way::Done(items) => Ok(UnitTurn::Done(items)),
    }
}
