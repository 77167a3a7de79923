ghost use Rattle.std.specs.Prelude.{◌≡◌, ◌∷◌, ◌++◌, ◌*◌, ◌+◌, ◌<◌, ◌≤◌, ℕ, true, [], IfOk, OnOk, length, reverse, vec_len, List as Seq};
ghost use Rattle.cm_outside.specs.Asks.{Agrees, begun, value};
ghost use Rattle.cm_outside.specs.Faults.{HasCause};
ghost use Rattle.cm_outside.specs.declared.question.Question.{Question};
ghost use Rattle.cm_outside.specs.declared.question.Answer.{Answer};
ghost use Rattle.build_store.specs.Changes.{fault_of};
ghost use Rattle.build_store.specs.Memo.{NeedsNext};
ghost use Rattle.build_store.specs.Modules.{is_in, mod_of, unit_of};
ghost use Rattle.build_store.specs.Turning.{AreInProgress, IsNew, IsTrusted, IsView, Moved, Rests, RestsAfter, Runs, known_of, unknowns, view_as};
ghost use Rattle.build_store.specs.declared.slot.Slot.TheVariants.{Busy as IsBusy};

use crate::slot::{ModuleView, Slot, Turn, UnitTurn};
use crate::turns::Turns;
use cm_core::{List, PathText, Steps};
use cm_outside::TreeFault;
use std::alloc::Global;
use unit_fold::Item;

/// Begins a module that the topmost one needs: it stands above that one then.
fn start<S, C, H: Turns<S, C>>(
    alloc: Global,
    held: &mut H,
    tree: &mut S,
    cache: &mut C,
    steps: &mut Steps,
    importers: &mut Vec<usize>,
    top: usize,
    number: usize,
) -> Result<(), TreeFault>
    requires well { H.well (held.old, tree.old, cache.old, steps.old) }
    requires new { IsNew (H.state (held.old, tree.old, cache.old, steps.old)) number }
    requires progress { AreInProgress (H.state (held.old, tree.old, cache.old, steps.old)) (top ∷ reverse importers.old.items) }
    ensures well { OnOk result (H.well (held.new, tree.new, cache.new, steps.new)) }
    ensures same { H.same (held.old, tree.old, cache.old, steps.old) (held.new, tree.new, cache.new, steps.new) }
    ensures went { H.went (fault_of result) (held.old, tree.old, cache.old, steps.old) (held.new, tree.new, cache.new, steps.new) }
    ensures tells { OnOk result ((t : Question → Answer) → Agrees t (H.state (held.new, tree.new, cache.new, steps.new)).records → H.tells t (held.old, tree.old, cache.old, steps.old) (held.new, tree.new, cache.new, steps.new)) }
    ensures moved { Moved (H.state (held.old, tree.old, cache.old, steps.old)) (H.state (held.new, tree.new, cache.new, steps.new)) }
    ensures progress { OnOk result (AreInProgress (H.state (held.new, tree.new, cache.new, steps.new)) (reverse importers.new.items)) }
    ensures fewer { OnOk result (2 * unknowns (H.state (held.new, tree.new, cache.new, steps.new)).slots + vec_len importers.new ≤ 2 * unknowns (H.state (held.old, tree.old, cache.old, steps.old)).slots + vec_len importers.old) }
    ensures runs { OnOk result ((t : Question → Answer) (end : Seq ℕ) → Agrees t (H.state (held.new, tree.new, cache.new, steps.new)).records → IsTrusted (H.state (held.old, tree.old, cache.old, steps.old)) (H.state (held.new, tree.new, cache.new, steps.new)) → Runs (H.state (held.old, tree.old, cache.old, steps.old)) t (top ∷ reverse importers.old.items) end
        → NeedsNext (H.state (held.old, tree.old, cache.old, steps.old)).plan t (known_of (H.state (held.old, tree.old, cache.old, steps.old)).plan t (H.state (held.old, tree.old, cache.old, steps.old)).slots) (H.state (held.old, tree.old, cache.old, steps.old)).noted (reverse importers.old.items) top number
        → Runs (H.state (held.new, tree.new, cache.new, steps.new)) t (reverse importers.new.items) end) }
    ensures stays { (H.state (held.old, tree.old, cache.old, steps.old)).told ≡ true → (H.state (held.old, tree.old, cache.old, steps.old)).honest → (H.state (held.new, tree.new, cache.new, steps.new)).honest }
    ensures left { H.leaves (held.old, tree.old, cache.old, steps.old) (held.new, tree.new, cache.new, steps.new) }
    ensures behind { OnOk result ((t : Question → Answer) → Agrees t (H.state (held.new, tree.new, cache.new, steps.new)).records → H.behind t (held.old, tree.old, cache.old, steps.old) (held.new, tree.new, cache.new, steps.new)) }
    ensures cause { HasCause (H.state (held.old, tree.old, cache.old, steps.old)).faults (H.state (held.new, tree.new, cache.new, steps.new)).faults result TreeFault.Failed }
{
    held.begin(alloc, tree, cache, steps, number)?;
    importers.push(top)?;
    importers.push(number)?;
    Ok(())
}

/// One turn of the topmost module of those in progress, each of which imports the one above it.
fn step<S, C, H: Turns<S, C>>(
    alloc: Global,
    held: &mut H,
    tree: &mut S,
    cache: &mut C,
    steps: &mut Steps,
    importers: &mut Vec<usize>,
    top: usize,
) -> Result<(), TreeFault>
    requires well { H.well (held.old, tree.old, cache.old, steps.old) }
    requires progress { AreInProgress (H.state (held.old, tree.old, cache.old, steps.old)) (top ∷ reverse importers.old.items) }
    ensures well { OnOk result (H.well (held.new, tree.new, cache.new, steps.new)) }
    ensures same { H.same (held.old, tree.old, cache.old, steps.old) (held.new, tree.new, cache.new, steps.new) }
    ensures went { H.went (fault_of result) (held.old, tree.old, cache.old, steps.old) (held.new, tree.new, cache.new, steps.new) }
    ensures tells { OnOk result ((t : Question → Answer) → Agrees t (H.state (held.new, tree.new, cache.new, steps.new)).records → H.tells t (held.old, tree.old, cache.old, steps.old) (held.new, tree.new, cache.new, steps.new)) }
    ensures moved { Moved (H.state (held.old, tree.old, cache.old, steps.old)) (H.state (held.new, tree.new, cache.new, steps.new)) }
    ensures progress { OnOk result (AreInProgress (H.state (held.new, tree.new, cache.new, steps.new)) (reverse importers.new.items)) }
    ensures fewer { OnOk result (2 * unknowns (H.state (held.new, tree.new, cache.new, steps.new)).slots + vec_len importers.new ≤ 2 * unknowns (H.state (held.old, tree.old, cache.old, steps.old)).slots + vec_len importers.old) }
    ensures runs { OnOk result ((t : Question → Answer) (end : Seq ℕ) → Agrees t (H.state (held.new, tree.new, cache.new, steps.new)).records → IsTrusted (H.state (held.old, tree.old, cache.old, steps.old)) (H.state (held.new, tree.new, cache.new, steps.new)) → Runs (H.state (held.old, tree.old, cache.old, steps.old)) t (top ∷ reverse importers.old.items) end
        → Runs (H.state (held.new, tree.new, cache.new, steps.new)) t (reverse importers.new.items) end) }
    ensures stays { (H.state (held.old, tree.old, cache.old, steps.old)).told ≡ true → (H.state (held.old, tree.old, cache.old, steps.old)).honest → (t : Question → Answer) (end : Seq ℕ) → Agrees t (H.state (held.new, tree.new, cache.new, steps.new)).records → Runs (H.state (held.old, tree.old, cache.old, steps.old)) t (top ∷ reverse importers.old.items) end → (H.state (held.new, tree.new, cache.new, steps.new)).honest }
    ensures left { (t : Question → Answer) (end : Seq ℕ) → Agrees t (H.state (held.new, tree.new, cache.new, steps.new)).records → IsTrusted (H.state (held.old, tree.old, cache.old, steps.old)) (H.state (held.new, tree.new, cache.new, steps.new)) → Runs (H.state (held.old, tree.old, cache.old, steps.old)) t (top ∷ reverse importers.old.items) end → H.leaves (held.old, tree.old, cache.old, steps.old) (held.new, tree.new, cache.new, steps.new) }
    ensures behind { OnOk result ((t : Question → Answer) (end : Seq ℕ) → Agrees t (H.state (held.new, tree.new, cache.new, steps.new)).records → IsTrusted (H.state (held.old, tree.old, cache.old, steps.old)) (H.state (held.new, tree.new, cache.new, steps.new)) → Runs (H.state (held.old, tree.old, cache.old, steps.old)) t (top ∷ reverse importers.old.items) end → H.behind t (held.old, tree.old, cache.old, steps.old) (held.new, tree.new, cache.new, steps.new)) }
    ensures cause { HasCause (H.state (held.old, tree.old, cache.old, steps.old)).faults (H.state (held.new, tree.new, cache.new, steps.new)).faults result TreeFault.Failed }
{
    match held.turn(alloc, tree, cache, steps, top)? {
        Turn::Needs(number) => start(alloc, held, tree, cache, steps, importers, top, number),
        Turn::Cyclic => Ok(()),
        Turn::Good => Ok(()),
    }
}

/// Interprets a module of which nothing is known, with all that it needs.
fn interpret<S, C, H: Turns<S, C>>(
    alloc: Global,
    held: &mut H,
    tree: &mut S,
    cache: &mut C,
    steps: &mut Steps,
    number: usize,
) -> Result<(), TreeFault>
    requires well { H.well (held.old, tree.old, cache.old, steps.old) }
    requires new { IsNew (H.state (held.old, tree.old, cache.old, steps.old)) number }
    ensures well { OnOk result (H.well (held.new, tree.new, cache.new, steps.new)) }
    ensures same { H.same (held.old, tree.old, cache.old, steps.old) (held.new, tree.new, cache.new, steps.new) }
    ensures went { H.went (fault_of result) (held.old, tree.old, cache.old, steps.old) (held.new, tree.new, cache.new, steps.new) }
    ensures tells { OnOk result ((t : Question → Answer) → Agrees t (H.state (held.new, tree.new, cache.new, steps.new)).records → H.tells t (held.old, tree.old, cache.old, steps.old) (held.new, tree.new, cache.new, steps.new)) }
    ensures moved { Moved (H.state (held.old, tree.old, cache.old, steps.old)) (H.state (held.new, tree.new, cache.new, steps.new)) }
    ensures fewer { OnOk result (unknowns (H.state (held.new, tree.new, cache.new, steps.new)).slots < unknowns (H.state (held.old, tree.old, cache.old, steps.old)).slots) }
    ensures rests { OnOk result (RestsAfter (H.state (held.old, tree.old, cache.old, steps.old)) (H.state (held.new, tree.new, cache.new, steps.new)) (λ t. begun (mod_of (H.state (held.old, tree.old, cache.old, steps.old)).plan [] number) t)) }
    ensures stays { (H.state (held.old, tree.old, cache.old, steps.old)).told ≡ true → (H.state (held.old, tree.old, cache.old, steps.old)).honest → (t : Question → Answer) → Agrees t (H.state (held.new, tree.new, cache.new, steps.new)).records → Rests (H.state (held.old, tree.old, cache.old, steps.old)) t → (H.state (held.new, tree.new, cache.new, steps.new)).honest }
    ensures left { (t : Question → Answer) → Agrees t (H.state (held.new, tree.new, cache.new, steps.new)).records → IsTrusted (H.state (held.old, tree.old, cache.old, steps.old)) (H.state (held.new, tree.new, cache.new, steps.new)) → Rests (H.state (held.old, tree.old, cache.old, steps.old)) t → H.leaves (held.old, tree.old, cache.old, steps.old) (held.new, tree.new, cache.new, steps.new) }
    ensures behind { OnOk result ((t : Question → Answer) → Agrees t (H.state (held.new, tree.new, cache.new, steps.new)).records → IsTrusted (H.state (held.old, tree.old, cache.old, steps.old)) (H.state (held.new, tree.new, cache.new, steps.new)) → Rests (H.state (held.old, tree.old, cache.old, steps.old)) t → H.behind t (held.old, tree.old, cache.old, steps.old) (held.new, tree.new, cache.new, steps.new)) }
    ensures cause { HasCause (H.state (held.old, tree.old, cache.old, steps.old)).faults (H.state (held.new, tree.new, cache.new, steps.new)).faults result TreeFault.Failed }
{
    held.begin(alloc, tree, cache, steps, number)?;
    let mut importers = Vec::new(alloc);
    importers.push(number)?;
    while let Some(top) = importers.pop() {
        step(alloc, held, tree, cache, steps, &mut importers, top)?;
    }
    Ok(())
}

/// What is found of a module, by its slot.
fn view_of(slot: Slot) -> ModuleView
    ensures { result ≡ view_as slot }
{
    match slot {
        Slot::Unknown => ModuleView::Cyclic,
        Slot::Busy => ModuleView::Cyclic,
        Slot::Cyclic => ModuleView::Cyclic,
        Slot::Good => ModuleView::Ready,
    }
}

/// What a module of which nothing is known comes to.
fn view_first<S, C, H: Turns<S, C>>(
    alloc: Global,
    held: &mut H,
    tree: &mut S,
    cache: &mut C,
    steps: &mut Steps,
    number: usize,
) -> Result<ModuleView, TreeFault>
    requires well { H.well (held.old, tree.old, cache.old, steps.old) }
    requires new { IsNew (H.state (held.old, tree.old, cache.old, steps.old)) number }
    ensures well { OnOk result (H.well (held.new, tree.new, cache.new, steps.new)) }
    ensures same { H.same (held.old, tree.old, cache.old, steps.old) (held.new, tree.new, cache.new, steps.new) }
    ensures went { H.went (fault_of result) (held.old, tree.old, cache.old, steps.old) (held.new, tree.new, cache.new, steps.new) }
    ensures tells { OnOk result ((t : Question → Answer) → Agrees t (H.state (held.new, tree.new, cache.new, steps.new)).records → H.tells t (held.old, tree.old, cache.old, steps.old) (held.new, tree.new, cache.new, steps.new)) }
    ensures moved { Moved (H.state (held.old, tree.old, cache.old, steps.old)) (H.state (held.new, tree.new, cache.new, steps.new)) }
    ensures view { IfOk result (λ view. (t : Question → Answer) → Agrees t (H.state (held.new, tree.new, cache.new, steps.new)).records → IsTrusted (H.state (held.old, tree.old, cache.old, steps.old)) (H.state (held.new, tree.new, cache.new, steps.new)) → Rests (H.state (held.old, tree.old, cache.old, steps.old)) t
        → IsView (value (mod_of (H.state (held.old, tree.old, cache.old, steps.old)).plan [] number) t) view) }
    ensures rests { OnOk result (RestsAfter (H.state (held.old, tree.old, cache.old, steps.old)) (H.state (held.new, tree.new, cache.new, steps.new)) (λ t. begun (mod_of (H.state (held.old, tree.old, cache.old, steps.old)).plan [] number) t)) }
    ensures stays { (H.state (held.old, tree.old, cache.old, steps.old)).told ≡ true → (H.state (held.old, tree.old, cache.old, steps.old)).honest → (t : Question → Answer) → Agrees t (H.state (held.new, tree.new, cache.new, steps.new)).records → Rests (H.state (held.old, tree.old, cache.old, steps.old)) t → (H.state (held.new, tree.new, cache.new, steps.new)).honest }
    ensures left { (t : Question → Answer) → Agrees t (H.state (held.new, tree.new, cache.new, steps.new)).records → IsTrusted (H.state (held.old, tree.old, cache.old, steps.old)) (H.state (held.new, tree.new, cache.new, steps.new)) → Rests (H.state (held.old, tree.old, cache.old, steps.old)) t → H.leaves (held.old, tree.old, cache.old, steps.old) (held.new, tree.new, cache.new, steps.new) }
    ensures behind { OnOk result ((t : Question → Answer) → Agrees t (H.state (held.new, tree.new, cache.new, steps.new)).records → IsTrusted (H.state (held.old, tree.old, cache.old, steps.old)) (H.state (held.new, tree.new, cache.new, steps.new)) → Rests (H.state (held.old, tree.old, cache.old, steps.old)) t → H.behind t (held.old, tree.old, cache.old, steps.old) (held.new, tree.new, cache.new, steps.new)) }
    ensures cause { HasCause (H.state (held.old, tree.old, cache.old, steps.old)).faults (H.state (held.new, tree.new, cache.new, steps.new)).faults result TreeFault.Failed }
{
    interpret(alloc, held, tree, cache, steps, number)?;
    Ok(view_of(held.slot(number)))
}

/// What a module comes to, which is interpreted or loaded where nothing is known of it.
pub fn need<S, C, H: Turns<S, C>>(
    alloc: Global,
    held: &mut H,
    tree: &mut S,
    cache: &mut C,
    steps: &mut Steps,
    number: usize,
) -> Result<ModuleView, TreeFault>
    requires well { H.well (held.old, tree.old, cache.old, steps.old) }
    requires top { is_in number (H.state (held.old, tree.old, cache.old, steps.old)).plan.tops ≡ true }
    ensures well { OnOk result (H.well (held.new, tree.new, cache.new, steps.new)) }
    ensures same { H.same (held.old, tree.old, cache.old, steps.old) (held.new, tree.new, cache.new, steps.new) }
    ensures went { H.went (fault_of result) (held.old, tree.old, cache.old, steps.old) (held.new, tree.new, cache.new, steps.new) }
    ensures tells { OnOk result ((t : Question → Answer) → Agrees t (H.state (held.new, tree.new, cache.new, steps.new)).records → H.tells t (held.old, tree.old, cache.old, steps.old) (held.new, tree.new, cache.new, steps.new)) }
    ensures moved { Moved (H.state (held.old, tree.old, cache.old, steps.old)) (H.state (held.new, tree.new, cache.new, steps.new)) }
    ensures view { IfOk result (λ view. (t : Question → Answer) → Agrees t (H.state (held.new, tree.new, cache.new, steps.new)).records → IsTrusted (H.state (held.old, tree.old, cache.old, steps.old)) (H.state (held.new, tree.new, cache.new, steps.new)) → Rests (H.state (held.old, tree.old, cache.old, steps.old)) t
        → IsView (value (mod_of (H.state (held.old, tree.old, cache.old, steps.old)).plan [] number) t) view) }
    ensures rests { OnOk result (RestsAfter (H.state (held.old, tree.old, cache.old, steps.old)) (H.state (held.new, tree.new, cache.new, steps.new)) (λ t. begun (mod_of (H.state (held.old, tree.old, cache.old, steps.old)).plan [] number) t)) }
    ensures stays { (H.state (held.old, tree.old, cache.old, steps.old)).told ≡ true → (H.state (held.old, tree.old, cache.old, steps.old)).honest → (t : Question → Answer) → Agrees t (H.state (held.new, tree.new, cache.new, steps.new)).records → Rests (H.state (held.old, tree.old, cache.old, steps.old)) t → (H.state (held.new, tree.new, cache.new, steps.new)).honest }
    ensures left { (t : Question → Answer) → Agrees t (H.state (held.new, tree.new, cache.new, steps.new)).records → IsTrusted (H.state (held.old, tree.old, cache.old, steps.old)) (H.state (held.new, tree.new, cache.new, steps.new)) → Rests (H.state (held.old, tree.old, cache.old, steps.old)) t → H.leaves (held.old, tree.old, cache.old, steps.old) (held.new, tree.new, cache.new, steps.new) }
    ensures behind { OnOk result ((t : Question → Answer) → Agrees t (H.state (held.new, tree.new, cache.new, steps.new)).records → IsTrusted (H.state (held.old, tree.old, cache.old, steps.old)) (H.state (held.new, tree.new, cache.new, steps.new)) → Rests (H.state (held.old, tree.old, cache.old, steps.old)) t → H.behind t (held.old, tree.old, cache.old, steps.old) (held.new, tree.new, cache.new, steps.new)) }
    ensures cause { HasCause (H.state (held.old, tree.old, cache.old, steps.old)).faults (H.state (held.new, tree.new, cache.new, steps.new)).faults result TreeFault.Failed }
{
    match held.slot(number) {
        Slot::Unknown => view_first(alloc, held, tree, cache, steps, number),
        Slot::Busy => Ok(ModuleView::Cyclic),
        Slot::Cyclic => Ok(ModuleView::Cyclic),
        Slot::Good => Ok(ModuleView::Ready),
    }
}

/// What a unit comes to, with all modules that it needs.
pub fn unit<S, C, H: Turns<S, C>>(
    alloc: Global,
    held: &mut H,
    tree: &mut S,
    cache: &mut C,
    steps: &mut Steps,
    path: &PathText,
) -> Result<List<Item>, TreeFault>
    requires well { H.well (held.old, tree.old, cache.old, steps.old) }
    ensures well { OnOk result (H.well (held.new, tree.new, cache.new, steps.new)) }
    ensures same { H.same (held.old, tree.old, cache.old, steps.old) (held.new, tree.new, cache.new, steps.new) }
    ensures went { H.went (fault_of result) (held.old, tree.old, cache.old, steps.old) (held.new, tree.new, cache.new, steps.new) }
    ensures tells { OnOk result ((t : Question → Answer) → Agrees t (H.state (held.new, tree.new, cache.new, steps.new)).records → H.tells t (held.old, tree.old, cache.old, steps.old) (held.new, tree.new, cache.new, steps.new)) }
    ensures moved { Moved (H.state (held.old, tree.old, cache.old, steps.old)) (H.state (held.new, tree.new, cache.new, steps.new)) }
    ensures items { IfOk result (λ items. (t : Question → Answer) → Agrees t (H.state (held.new, tree.new, cache.new, steps.new)).records → IsTrusted (H.state (held.old, tree.old, cache.old, steps.old)) (H.state (held.new, tree.new, cache.new, steps.new)) → Rests (H.state (held.old, tree.old, cache.old, steps.old)) t
        → items ≡ value (unit_of (H.state (held.old, tree.old, cache.old, steps.old)).plan ((H.state (held.old, tree.old, cache.old, steps.old)).unit_fold path.now)) t) }
    ensures rests { OnOk result (RestsAfter (H.state (held.old, tree.old, cache.old, steps.old)) (H.state (held.new, tree.new, cache.new, steps.new)) (λ t. begun (unit_of (H.state (held.old, tree.old, cache.old, steps.old)).plan ((H.state (held.old, tree.old, cache.old, steps.old)).unit_fold path.now)) t)) }
    ensures stays { (H.state (held.old, tree.old, cache.old, steps.old)).told ≡ true → (H.state (held.old, tree.old, cache.old, steps.old)).honest → (t : Question → Answer) → Agrees t (H.state (held.new, tree.new, cache.new, steps.new)).records → Rests (H.state (held.old, tree.old, cache.old, steps.old)) t → (H.state (held.new, tree.new, cache.new, steps.new)).honest }
    ensures left { (t : Question → Answer) → Agrees t (H.state (held.new, tree.new, cache.new, steps.new)).records → IsTrusted (H.state (held.old, tree.old, cache.old, steps.old)) (H.state (held.new, tree.new, cache.new, steps.new)) → Rests (H.state (held.old, tree.old, cache.old, steps.old)) t → H.leaves (held.old, tree.old, cache.old, steps.old) (held.new, tree.new, cache.new, steps.new) }
    ensures behind { OnOk result ((t : Question → Answer) → Agrees t (H.state (held.new, tree.new, cache.new, steps.new)).records → IsTrusted (H.state (held.old, tree.old, cache.old, steps.old)) (H.state (held.new, tree.new, cache.new, steps.new)) → Rests (H.state (held.old, tree.old, cache.old, steps.old)) t → H.behind t (held.old, tree.old, cache.old, steps.old) (held.new, tree.new, cache.new, steps.new)) }
    ensures cause { HasCause (H.state (held.old, tree.old, cache.old, steps.old)).faults (H.state (held.new, tree.new, cache.new, steps.new)).faults result TreeFault.Failed }
{
    let mut paused = None;
    loop {
        match held.unit_turn(alloc, tree, cache, steps, path, &mut paused)? {
            UnitTurn::Done(items) => return Ok(items),
            UnitTurn::Needs(number) => interpret(alloc, held, tree, cache, steps, number)?,
        }
    }
}
