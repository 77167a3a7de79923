ghost use Rattle.std.specs.Prelude.{◌≡◌, ◌++◌, ◌∷◌, ◌<◌, true, [], IfOk, OnOk, ℕ, length, List as Seq, Option, None, Some};
ghost use Rattle.cm_outside.specs.Asks.{Agrees};
ghost use Rattle.cm_outside.specs.Faults.{HasCause};
ghost use Rattle.cm_outside.specs.declared.question.Question.{Question};
ghost use Rattle.cm_outside.specs.declared.question.Answer.{Answer};
ghost use Rattle.cm_outside.specs.declared.tree.TreeFault.{TreeFault as AFault};
ghost use Rattle.cm_outside.specs.declared.tree.TreeFault.TheVariants.{NoMemory as NoRoom};
ghost use Rattle.build_store.specs.Changes.{fault_of};
ghost use Rattle.build_store.specs.Memo.{Grows};
ghost use Rattle.build_store.specs.Modules.{is_in};
ghost use Rattle.build_store.specs.Turning.{IsNew, IsTrusted, IsTurn, IsUnitTurn, Moved, NeedsNew, Rests, Runs, State, UnitNeedsNew, known_of, slot_at, slots_after, with_slot};
ghost use Rattle.build_store.specs.Walks.{IsReady};
ghost use Rattle.cm_core.specs.declared.steps.Steps.{Steps as Counts};
ghost use Rattle.build_store.specs.declared.slot.Slot.{Slot as ASlot};
ghost use Rattle.build_store.specs.declared.slot.Slot.TheVariants.{Busy as IsBusy};
ghost use Rattle.build_store.specs.declared.walk.Paused.{Paused as APaused};

use crate::slot::{Slot, Turn, UnitTurn};
use crate::walk::Paused;
use cm_core::{PathText, Steps};
use cm_outside::TreeFault;
use std::alloc::Global;

/// What interprets modules and units as far as the modules that they need are known: a module again from its start in every
/// turn, a unit from where its fold waits.
pub trait Turns<S, C> {
    // What it has found so far.
    ghost state: { Self × S × C × Counts → State };

    // The slots alone, of which the state has the same.
    ghost held_slots: { Self → Seq ASlot };

    // It is as its calls leave it, its references are the same, and what calls may leave of it.
    ghost well: { Self × S × C × Counts → Type 0 };

    ghost same: { Self × S × C × Counts → Self × S × C × Counts → Type 0 };

    ghost leaves: { Self × S × C × Counts → Self × S × C × Counts → Type 0 };

    // What calls that were all answered leave of the files of modules, over these answers.
    ghost behind: { (Question → Answer) → Self × S × C × Counts → Self × S × C × Counts → Type 0 };

    // What calls leave of the outside, which ended with this fault or were all answered, and what they report of the modules
    // that they began, over these answers.
    ghost went: { Option AFault → Self × S × C × Counts → Self × S × C × Counts → Type 0 };

    ghost tells: { (Question → Answer) → Self × S × C × Counts → Self × S × C × Counts → Type 0 };

    // The fold of the unit of this path waits there, over these answers.
    ghost paused_at: { (Question → Answer) → Self × S × C × Counts → Seq ℕ → Option APaused → Type 0 };

    /// The slot of a module.
    fn slot(&self, number: usize) -> Slot
        requires { number < length (held_slots self.now) }
        ensures { result ≡ slot_at (held_slots self.now) number };

    /// Begins a module: whether it is loaded or built is decided here, once.
    fn begin(
        &mut self,
        alloc: Global,
        tree: &mut S,
        cache: &mut C,
        steps: &mut Steps,
        number: usize,
    ) -> Result<(), TreeFault>
        requires well { well (self.old, tree.old, cache.old, steps.old) }
        requires new { IsNew (state (self.old, tree.old, cache.old, steps.old)) number }
        ensures well { OnOk result (well (self.new, tree.new, cache.new, steps.new)) }
        ensures same { same (self.old, tree.old, cache.old, steps.old) (self.new, tree.new, cache.new, steps.new) }
        ensures went { went (fault_of result) (self.old, tree.old, cache.old, steps.old) (self.new, tree.new, cache.new, steps.new) }
        ensures tells { OnOk result ((t : Question → Answer) → Agrees t (state (self.new, tree.new, cache.new, steps.new)).records → tells t (self.old, tree.old, cache.old, steps.old) (self.new, tree.new, cache.new, steps.new)) }
        ensures moved { Moved (state (self.old, tree.old, cache.old, steps.old)) (state (self.new, tree.new, cache.new, steps.new)) }
        ensures slots { OnOk result ((state (self.new, tree.new, cache.new, steps.new)).slots ≡ with_slot (state (self.old, tree.old, cache.old, steps.old)).slots number IsBusy) }
        ensures noted { OnOk result ((state (self.new, tree.new, cache.new, steps.new)).noted ≡ (state (self.old, tree.old, cache.old, steps.old)).noted ++ number ∷ []) }
        ensures decided { OnOk result ((t : Question → Answer) → Agrees t (state (self.new, tree.new, cache.new, steps.new)).records → IsTrusted (state (self.old, tree.old, cache.old, steps.old)) (state (self.new, tree.new, cache.new, steps.new)) → (state (self.new, tree.new, cache.new, steps.new)).decided t number) }
        ensures stays { (state (self.old, tree.old, cache.old, steps.old)).told ≡ true → (state (self.old, tree.old, cache.old, steps.old)).honest → (state (self.new, tree.new, cache.new, steps.new)).honest }
        ensures left { leaves (self.old, tree.old, cache.old, steps.old) (self.new, tree.new, cache.new, steps.new) }
        ensures behind { OnOk result ((t : Question → Answer) → Agrees t (state (self.new, tree.new, cache.new, steps.new)).records → behind t (self.old, tree.old, cache.old, steps.old) (self.new, tree.new, cache.new, steps.new)) }
        ensures cause { HasCause (state (self.old, tree.old, cache.old, steps.old)).faults (state (self.new, tree.new, cache.new, steps.new)).faults result TreeFault.Failed };

    /// One turn of a module in progress. The slot of one that has ended says so.
    fn turn(
        &mut self,
        alloc: Global,
        tree: &mut S,
        cache: &mut C,
        steps: &mut Steps,
        number: usize,
    ) -> Result<Turn, TreeFault>
        requires well { well (self.old, tree.old, cache.old, steps.old) }
        requires top { is_in number (state (self.old, tree.old, cache.old, steps.old)).plan.tops ≡ true }
        requires busy { slot_at (state (self.old, tree.old, cache.old, steps.old)).slots number ≡ IsBusy }
        ensures well { OnOk result (well (self.new, tree.new, cache.new, steps.new)) }
        ensures same { same (self.old, tree.old, cache.old, steps.old) (self.new, tree.new, cache.new, steps.new) }
        ensures went { went (fault_of result) (self.old, tree.old, cache.old, steps.old) (self.new, tree.new, cache.new, steps.new) }
        ensures tells { OnOk result ((t : Question → Answer) → Agrees t (state (self.new, tree.new, cache.new, steps.new)).records → tells t (self.old, tree.old, cache.old, steps.old) (self.new, tree.new, cache.new, steps.new)) }
        ensures moved { Moved (state (self.old, tree.old, cache.old, steps.old)) (state (self.new, tree.new, cache.new, steps.new)) }
        ensures noted { OnOk result ((state (self.new, tree.new, cache.new, steps.new)).noted ≡ (state (self.old, tree.old, cache.old, steps.old)).noted) }
        ensures slots { IfOk result (λ turn. (state (self.new, tree.new, cache.new, steps.new)).slots ≡ slots_after turn number (state (self.old, tree.old, cache.old, steps.old)).slots) }
        ensures unknown { IfOk result (NeedsNew (state (self.old, tree.old, cache.old, steps.old))) }
        ensures turn { IfOk result (λ turn. (t : Question → Answer) (chain end : Seq ℕ) → Agrees t (state (self.new, tree.new, cache.new, steps.new)).records → IsTrusted (state (self.old, tree.old, cache.old, steps.old)) (state (self.new, tree.new, cache.new, steps.new))
            → Runs (state (self.old, tree.old, cache.old, steps.old)) t (number ∷ chain) end → IsTurn (state (self.old, tree.old, cache.old, steps.old)) t chain number ((state (self.new, tree.new, cache.new, steps.new)).holds t number) turn) }
        ensures stays { (state (self.old, tree.old, cache.old, steps.old)).told ≡ true → (state (self.old, tree.old, cache.old, steps.old)).honest → (t : Question → Answer) (chain end : Seq ℕ) → Agrees t (state (self.new, tree.new, cache.new, steps.new)).records → Runs (state (self.old, tree.old, cache.old, steps.old)) t (number ∷ chain) end → (state (self.new, tree.new, cache.new, steps.new)).honest }
        ensures left { (t : Question → Answer) (chain end : Seq ℕ) → Agrees t (state (self.new, tree.new, cache.new, steps.new)).records → IsTrusted (state (self.old, tree.old, cache.old, steps.old)) (state (self.new, tree.new, cache.new, steps.new)) → Runs (state (self.old, tree.old, cache.old, steps.old)) t (number ∷ chain) end → leaves (self.old, tree.old, cache.old, steps.old) (self.new, tree.new, cache.new, steps.new) }
        ensures behind { OnOk result ((t : Question → Answer) (chain end : Seq ℕ) → Agrees t (state (self.new, tree.new, cache.new, steps.new)).records → IsTrusted (state (self.old, tree.old, cache.old, steps.old)) (state (self.new, tree.new, cache.new, steps.new)) → Runs (state (self.old, tree.old, cache.old, steps.old)) t (number ∷ chain) end → behind t (self.old, tree.old, cache.old, steps.old) (self.new, tree.new, cache.new, steps.new)) }
        ensures cause { HasCause (state (self.old, tree.old, cache.old, steps.old)).faults (state (self.new, tree.new, cache.new, steps.new)).faults result TreeFault.Failed };

    /// One turn of a unit, from where its fold waits or else from its start. Where it needs a module first, its fold waits there.
    fn unit_turn(
        &mut self,
        alloc: Global,
        tree: &mut S,
        cache: &mut C,
        steps: &mut Steps,
        unit: &PathText,
        paused: &mut Option<Paused>,
    ) -> Result<UnitTurn, TreeFault>
        requires well { well (self.old, tree.old, cache.old, steps.old) }
        requires ready { IsReady paused.old }
        ensures ready { IsReady paused.new }
        ensures paused { OnOk result ((t : Question → Answer) → Agrees t (state (self.new, tree.new, cache.new, steps.new)).records → Rests (state (self.old, tree.old, cache.old, steps.old)) t → paused_at t (self.old, tree.old, cache.old, steps.old) unit.now paused.old → paused_at t (self.new, tree.new, cache.new, steps.new) unit.now paused.new) }
        ensures well { OnOk result (well (self.new, tree.new, cache.new, steps.new)) }
        ensures same { same (self.old, tree.old, cache.old, steps.old) (self.new, tree.new, cache.new, steps.new) }
        ensures went { went (fault_of result) (self.old, tree.old, cache.old, steps.old) (self.new, tree.new, cache.new, steps.new) }
        ensures tells { OnOk result ((t : Question → Answer) → Agrees t (state (self.new, tree.new, cache.new, steps.new)).records → tells t (self.old, tree.old, cache.old, steps.old) (self.new, tree.new, cache.new, steps.new)) }
        ensures moved { Moved (state (self.old, tree.old, cache.old, steps.old)) (state (self.new, tree.new, cache.new, steps.new)) }
        ensures noted { OnOk result ((state (self.new, tree.new, cache.new, steps.new)).noted ≡ (state (self.old, tree.old, cache.old, steps.old)).noted) }
        ensures slots { OnOk result ((state (self.new, tree.new, cache.new, steps.new)).slots ≡ (state (self.old, tree.old, cache.old, steps.old)).slots) }
        ensures unknown { IfOk result (UnitNeedsNew (state (self.old, tree.old, cache.old, steps.old))) }
        ensures turn { IfOk result (λ turn. (t : Question → Answer) → Agrees t (state (self.new, tree.new, cache.new, steps.new)).records → Rests (state (self.old, tree.old, cache.old, steps.old)) t → paused_at t (self.old, tree.old, cache.old, steps.old) unit.now paused.old → IsUnitTurn (state (self.old, tree.old, cache.old, steps.old)) t ((state (self.old, tree.old, cache.old, steps.old)).unit_fold unit.now) turn) }
        ensures stays { (state (self.old, tree.old, cache.old, steps.old)).told ≡ true → (state (self.old, tree.old, cache.old, steps.old)).honest → (state (self.new, tree.new, cache.new, steps.new)).honest }
        ensures left { leaves (self.old, tree.old, cache.old, steps.old) (self.new, tree.new, cache.new, steps.new) }
        ensures behind { OnOk result ((t : Question → Answer) → Agrees t (state (self.new, tree.new, cache.new, steps.new)).records → behind t (self.old, tree.old, cache.old, steps.old) (self.new, tree.new, cache.new, steps.new)) }
        ensures cause { HasCause (state (self.old, tree.old, cache.old, steps.old)).faults (state (self.new, tree.new, cache.new, steps.new)).faults result TreeFault.Failed };

    // Each module of the plan has a slot, and every import names a module of the plan.
    ghost room: { (s : Self × S × C × Counts) → well s → (m : ℕ) → is_in m (state s).plan.tops ≡ true → m < length (state s).slots };

    ghost slots_are: { (s : Self × S × C × Counts) → (state s).slots ≡ held_slots s.0 };

    ghost same_start: { (s : Self × S × C × Counts) → same s s };

    ghost same_after: { (a b c : Self × S × C × Counts) → same a b → same b c → same a c };

    ghost went_start: { (s : Self × S × C × Counts) → went None s s };

    ghost went_short: { (s : Self × S × C × Counts) → went (Some NoRoom) s s };

    ghost went_after: { (a b c : Self × S × C × Counts) (fault : Option AFault) → went None a b → went fault b c → went fault a c };

    ghost tells_start: { (t : Question → Answer) (s : Self × S × C × Counts) → tells t s s };

    ghost tells_after: { (t : Question → Answer) (a b c : Self × S × C × Counts) → tells t a b → tells t b c → tells t a c };

    ghost leaves_start: { (s : Self × S × C × Counts) → leaves s s };

    ghost leaves_after: { (a b c : Self × S × C × Counts) → leaves a b → leaves b c → leaves a c };

    // A unit begins at its start, and its fold waits where it did while more becomes known.
    ghost paused_start: { (t : Question → Answer) (s : Self × S × C × Counts) (unit : Seq ℕ) → paused_at t s unit None };

    ghost paused_after: { (t : Question → Answer) (a b : Self × S × C × Counts) (unit : Seq ℕ) (paused : Option APaused) → same a b → Grows (known_of (state a).plan t (state a).slots) (known_of (state b).plan t (state b).slots) → paused_at t a unit paused → paused_at t b unit paused };

    ghost behind_start: { (t : Question → Answer) (s : Self × S × C × Counts) → behind t s s };

    ghost behind_after: { (t : Question → Answer) (a b c : Self × S × C × Counts) → behind t a b → behind t b c → behind t a c };
}
