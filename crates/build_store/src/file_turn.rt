ghost use Rattle.std.specs.Prelude.{◌≡◌, ◌<◌, ◌∷◌, ◌++◌, ℕ, length, slice_get, List as Seq, IfOk, OnOk};
ghost use Rattle.cm_outside.specs.Asks.{Agrees};
ghost use Rattle.cm_outside.specs.declared.question.Question.{Question};
ghost use Rattle.cm_outside.specs.declared.question.Answer.{Answer};
ghost use Rattle.cm_outside.specs.declared.question.Record.{Record};
ghost use Rattle.build_store.specs.Held.{HasPlaces, HeldOn, HeldRuns, IsHeldTurn, IsTableOf, choice_at, state_held};
ghost use Rattle.build_store.specs.KeptFaults.{fault_of_kept};
ghost use Rattle.build_store.specs.Loads.{IsFile, IsLoaded, fault_as, faults_by, first_new, is_new, needs_by, needs_of_choice, objects_by, or_nothing, part_by};
ghost use Rattle.build_store.specs.Turning.{NeedsNew, slot_at, slots_after};
ghost use Rattle.build_store.specs.declared.slot.Slot.TheVariants.{Busy as IsBusy};

use crate::decide::Choice;
use crate::held::{Found, Held};
use crate::kept_faults::kind_of;
use crate::part::Part;
use crate::slot::{Slot, Turn};
use cm_core::{List, NoMemory, Str};
use module_file::{Declaration, Index, KeptDiag};
use std::alloc::Global;
use unit_fold::{At, FaultAt, Named};

fn push_number(numbers: &mut List<usize>, number: Option<usize>) -> Result<(), NoMemory>
    ensures { OnOk result (numbers.new ≡ numbers.old ++ or_nothing number) }
{
    match number {
        Some(number) => numbers.push(number),
        None => Ok(()),
    }
}

/// The numbers of the modules of these names, of those that the table has.
fn numbers_of(alloc: Global, held: &Held, names: &[Str]) -> Result<List<usize>, NoMemory>
    requires places { HasPlaces held.now }
    ensures { IfOk result (λ numbers. numbers ≡ needs_by held.now.table names.now) }
{
    let mut numbers = List::new(alloc);
    for name in names {
        push_number(&mut numbers, held.names.number(name.text()))?;
    }
    Ok(numbers)
}

/// Whether there is a slot of this number, of a module of which nothing is known.
fn is_unknown(slots: &[Slot], number: usize) -> bool
    ensures { result ≡ is_new (slice_get slots.now number) }
{
    match slots.get(number) {
        Some(Slot::Unknown) => true,
        Some(Slot::Busy | Slot::Cyclic | Slot::Good) | None => false,
    }
}

/// The first of these modules of which nothing is known.
pub(crate) fn next_need(slots: &[Slot], needs: &[usize]) -> Option<usize>
    ensures { result ≡ first_new slots.now needs.now }
{
    for number in needs {
        if is_unknown(slots, *number) {
            return Some(*number);
        }
    }
    None
}

/// The objects that a file says.
fn objects(alloc: Global, declarations: &[Declaration]) -> Result<List<Named>, NoMemory>
    ensures { IfOk result (λ objects. objects ≡ objects_by declarations.now) }
{
    let mut objects = List::new(alloc);
    for declaration in declarations {
        objects.push(Named {
            name: declaration.name.copy(alloc)?,
            at: At {
                line: declaration.line,
                column: declaration.column,
            },
        })?;
    }
    Ok(objects)
}

/// Adds the fault that was kept so, where a header can have it.
fn push_fault(faults: &mut List<FaultAt>, diag: &KeptDiag) -> Result<(), NoMemory>
    ensures { OnOk result (faults.new ≡ faults.old ++ fault_as diag.now (fault_of_kept diag.now)) }
{
    match kind_of(diag) {
        Some(kind) => faults.push(FaultAt {
            at: At {
                line: diag.line,
                column: diag.column,
            },
            kind,
        }),
        None => Ok(()),
    }
}

/// The faults that a file says.
fn faults(alloc: Global, diags: &[KeptDiag]) -> Result<List<FaultAt>, NoMemory>
    ensures { IfOk result (λ faults. faults ≡ faults_by diags.now) }
{
    let mut faults = List::new(alloc);
    for diag in diags {
        push_fault(&mut faults, diag)?;
    }
    Ok(faults)
}

/// The part of its module that a file says.
fn part_of(alloc: Global, index: &Index) -> Result<Part, NoMemory>
    ensures { IfOk result (λ part. part ≡ part_by index.now) }
{
    Ok(Part {
        objects: objects(alloc, index.declarations.items())?,
        imports: index.imports.copy(alloc)?,
        faults: faults(alloc, index.diags.items())?,
    })
}

/// The numbers of the modules that the file of a module says it needs.
fn needs_of(alloc: Global, held: &Held, choice: &Choice) -> Result<List<usize>, NoMemory>
    requires places { HasPlaces held.now }
    ensures { IfOk result (λ needs. needs ≡ needs_of_choice held.now.table choice.now) }
{
    match choice {
        Choice::Sources => Ok(List::new(alloc)),
        Choice::File(index, _) => numbers_of(alloc, held, index.needs.items()),
    }
}

/// A module that is loaded has ended: what its file says is kept of it.
fn end_loaded(
    alloc: Global,
    held: &mut Held,
    number: usize,
    needs: List<usize>,
) -> Result<(), NoMemory>
    requires places { HasPlaces held.old }
    requires within { number < length held.old.table.targets }
    requires busy { slot_at held.old.slots number ≡ IsBusy }
    requires file { IsFile (choice_at held.old number) }
    ensures places { HasPlaces held.new }
    ensures on { (kept : Seq Record) → HeldOn kept kept held.old held.new }
    ensures noted { held.new.noted ≡ held.old.noted }
    ensures ended { OnOk result (IsLoaded held.old held.new number needs (choice_at held.old number)) }
{
    let Choice::File(index, asked) = held.take_choice(number) else {
        return Ok(());
    };
    let part = part_of(alloc, &index)?;
    held.end(alloc, number, part, Found { asked, needs })
}

/// One turn of a module in progress that is loaded from its kept file: once all that it needs is known, what the file says is
/// kept of it.
pub fn file_turn(alloc: Global, held: &mut Held, number: usize) -> Result<Turn, NoMemory>
    requires places { HasPlaces held.old }
    requires within { number < length held.old.table.targets }
    requires busy { slot_at held.old.slots number ≡ IsBusy }
    requires file { IsFile (choice_at held.old number) }
    ensures places { HasPlaces held.new }
    ensures on { (kept : Seq Record) → HeldOn kept kept held.old held.new }
    ensures noted { held.new.noted ≡ held.old.noted }
    ensures slots { IfOk result (λ turn. held.new.slots ≡ slots_after turn number held.old.slots) }
    ensures chosen { OnOk result ((m : ℕ) → slot_at held.new.slots m ≡ IsBusy → choice_at held.new m ≡ choice_at held.old m) }
    ensures unknown { IfOk result (λ turn. (kept : Seq Record) → NeedsNew (state_held kept held.old) turn) }
    ensures turn { IfOk result (λ turn. (kept : Seq Record) (t : Question → Answer) (chain end : Seq ℕ) → IsTableOf kept held.old → Agrees t kept → HeldRuns kept held.old t (number ∷ chain) end
        → IsHeldTurn kept held.old held.new t chain number turn) }
{
    let needs = needs_of(alloc, held, &held.choices.items()[number])?;
    match next_need(held.slots.items(), needs.items()) {
        Some(other) => Ok(Turn::Needs(other)),
        None => {
            end_loaded(alloc, held, number, needs)?;
            Ok(Turn::Good)
        }
    }
}
