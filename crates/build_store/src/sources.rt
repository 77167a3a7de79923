ghost use Rattle.std.specs.Prelude.{◌≡◌, ◌+◌, ◌^◌, ◌≤◌, ◌<◌, ◌&&◌, min, ◌∷◌, ℕ, length, List as Seq, IfOk, OnOk, OnErr, IsSome, IsNone};
ghost use Rattle.cm_outside.specs.Asks.{Agrees};
ghost use Rattle.cm_outside.specs.Faults.{Rose};
ghost use Rattle.cm_outside.specs.declared.question.Question.{Question as AnyQuestion};
ghost use Rattle.cm_outside.specs.declared.question.Answer.{Answer as AnyAnswer};
ghost use Rattle.build_store.specs.Changes.{Went as WentTo, fault_of};
ghost use Rattle.build_store.specs.Held.{HasPlaces as HavePlaces, HeldOn, HeldRuns, IsHeldTurn, IsTableOf as IsOwnTable, choice_at, key_held};
ghost use Rattle.build_store.specs.Left.{Leaves as LeavesFiles, LeavesOthers};
ghost use Rattle.build_store.specs.LeftBehind.{ModuleBehind, has_ended};
ghost use Rattle.build_store.specs.Report.{one_if_built};
ghost use Rattle.build_store.specs.Telling.{HasBegun, is_sources};
ghost use Rattle.build_store.specs.Turning.{NeedsNew, slot_at, slots_after};
ghost use Rattle.build_store.specs.Held.{state_held};
ghost use Rattle.module_file.specs.ModuleFile.{file_name_of};
ghost use Rattle.build_store.specs.declared.slot.Slot.TheVariants.{Busy as IsBusy, Unknown as IsUnknown};

use crate::decide::{Choice, decide, key_of};
use crate::file_turn::file_turn;
use crate::header_turn::header_turn;
use crate::held::Held;
use crate::images::BuildImages;
use crate::origin::Origin;
use crate::slot::{Slot, Turn, UnitTurn};
use crate::turns::Turns;
use crate::walk::{Paused, walk_unit};
use cm_core::{NoMemory, PathText, Steps};
use cm_outside::{Cache, Keeper, Snapshot, Tree, TreeFault};
use module_file::Key;
use std::alloc::Global;

/// The key of a module that is held.
fn key_at(alloc: Global, held: &Held, number: usize) -> Result<Key, NoMemory>
    requires number { number < length held.now.table.targets }
    ensures { IfOk result (λ key. key ≡ key_held held.now number) }
{
    let target = &held.table.targets.items()[number];
    key_of(alloc, &held.job, &target.name)
}

/// Counts a module that is built.
fn count_built(steps: &mut Steps, origin: &Origin)
    ensures { steps.old.compiles < 2 ^ 64 → steps.new.compiles ≡ min (steps.old.compiles + one_if_built origin.now) u64.MAX }
{
    match origin {
        Origin::Loaded => (),
        Origin::Built(_) => steps.tick_compile(),
    }
}

/// Begins a module: whether it is loaded or built is decided here.
fn begin_module<T: Tree, K: Keeper, C: Cache<Named = BuildImages>>(
    alloc: Global,
    tree: &mut Snapshot<T, K>,
    cache: &mut C,
    steps: &mut Steps,
    held: &mut Held,
    number: usize,
) -> Result<(), TreeFault>
    requires places { HavePlaces held.old }
    requires number { number < length held.old.table.targets }
    requires unknown { slot_at held.old.slots number ≡ IsUnknown }
    ensures places { HavePlaces held.new }
    ensures went { WentTo T.Tree K.Keeper tree.old tree.new (fault_of result) }
    ensures begun { OnOk result (HasBegun (K.records tree.new.kept) held.old held.new number (C.files cache.old) (C.honest cache.new) (Rose (C.faults cache.old) (C.faults cache.new)) steps.old.compiles steps.new.compiles) }
    ensures err { OnErr result (held.new ≡ held.old) }
    ensures later { C.faults cache.old ≤ C.faults cache.new }
    ensures files { C.files cache.new ≡ C.files cache.old }
    ensures back { C.honest cache.new → C.honest cache.old }
    ensures stays { IsSome (C.files cache.old) → C.honest cache.old → C.honest cache.new }
{
    let key = key_at(alloc, held, number)?;
    let decision = decide(alloc, &held.table, &held.names, tree, cache, &key)?;
    count_built(steps, &decision.origin);
    Ok(held.note(number, decision)?)
}

/// One turn of a module in progress.
fn turn_module<T: Tree, K: Keeper, C: Cache<Named = BuildImages>>(
    alloc: Global,
    tree: &mut Snapshot<T, K>,
    cache: &mut C,
    held: &mut Held,
    number: usize,
) -> Result<Turn, TreeFault>
    requires places { HavePlaces held.old }
    requires number { number < length held.old.table.targets }
    requires busy { slot_at held.old.slots number ≡ IsBusy }
    ensures places { OnOk result (HavePlaces held.new) }
    ensures went { WentTo T.Tree K.Keeper tree.old tree.new (fault_of result) }
    ensures on { HeldOn (K.records tree.old.kept) (K.records tree.new.kept) held.old held.new }
    ensures noted { held.new.noted ≡ held.old.noted }
    ensures slots { IfOk result (λ turn. held.new.slots ≡ slots_after turn number held.old.slots) }
    ensures chosen { OnOk result ((m : ℕ) → slot_at held.new.slots m ≡ IsBusy → choice_at held.new m ≡ choice_at held.old m) }
    ensures unknown { IfOk result (NeedsNew (state_held (K.records tree.old.kept) held.old)) }
    ensures turn { IfOk result (λ turn. (t : AnyQuestion → AnyAnswer) (chain end : Seq ℕ) → Agrees t (K.records tree.new.kept) → IsOwnTable (K.records tree.old.kept) held.old → HeldRuns (K.records tree.old.kept) held.old t (number ∷ chain) end
        → IsHeldTurn (K.records tree.new.kept) held.old held.new t chain number turn) }
    ensures later { C.faults cache.old ≤ C.faults cache.new }
    ensures back { IsNone (C.files cache.old) → C.honest cache.new → C.honest cache.old }
    ensures stays { IsSome (C.files cache.old) → C.honest cache.old → (t : AnyQuestion → AnyAnswer) (chain end : Seq ℕ) → Agrees t (K.records tree.new.kept) → IsOwnTable (K.records tree.old.kept) held.old
        → HeldRuns (K.records tree.old.kept) held.old t (number ∷ chain) end → C.honest cache.new }
    ensures left { (t : AnyQuestion → AnyAnswer) (chain end : Seq ℕ) → Agrees t (K.records tree.new.kept) → IsOwnTable (K.records tree.old.kept) held.old
        → HeldRuns (K.records tree.old.kept) held.old t (number ∷ chain) end → LeavesFiles (C.files cache.old) (C.files cache.new) }
    ensures others { LeavesOthers (file_name_of (key_held held.old number)) (C.files cache.old) (C.files cache.new) }
    ensures behind { IfOk result (λ turn. (t : AnyQuestion → AnyAnswer) (chain end : Seq ℕ) → Agrees t (K.records tree.new.kept) → IsOwnTable (K.records tree.old.kept) held.old → HeldRuns (K.records tree.old.kept) held.old t (number ∷ chain) end
        → ModuleBehind held.old number (is_sources (choice_at held.old number) && has_ended turn) t (C.files cache.old) (C.files cache.new) (Rose (C.faults cache.old) (C.faults cache.new))) }
{
    match &held.choices.items()[number] {
        Choice::File(..) => Ok(file_turn(alloc, held, number)?),
        Choice::Sources => header_turn(alloc, tree, cache, held, number),
    }
}

impl<T: Tree, K: Keeper, C: Cache<Named = BuildImages>> Turns<Snapshot<'_, T, K>, C> for Held {
    ghost use Rattle.std.specs.Prelude.{◌≡◌, ◌≤◌, is_some, length};
    ghost use Rattle.std.proofs.Common.{◌∙◌, refl};
    ghost use Rattle.build_store.specs.Changes.{Went};
    ghost use Rattle.build_store.specs.Left.{Leaves};
    ghost use Rattle.build_store.specs.LeftLaws.{leaves_same, leaves_then};
    ghost use Rattle.build_store.specs.LeftBehind.{Behind};
    ghost use Rattle.build_store.specs.LeftBehindLaws.{behind_same, behind_then};
    ghost use Rattle.build_store.specs.PausedLaws.{paused_on};
    ghost use Rattle.build_store.specs.Stores.{HasSlots, IsStore};
    ghost use Rattle.build_store.specs.Telling.{Tells, state_of};
    ghost use Rattle.build_store.specs.TellingLaws.{no_less, no_less_then, tells_same, tells_then};
    ghost use Rattle.build_store.specs.Walks.{IsPaused};
    ghost use Rattle.build_store.specs.WentLaws.{went_nowhere, went_refused, went_then};

    ghost state = { λ s. state_of (K.records s.1.kept) s.0 (is_some (C.files s.2)) (C.honest s.2) (T.faults s.1.tree.now) };

    ghost held_slots = { λ h. h.slots };

    ghost well = { λ s. IsStore (K.records s.1.kept) s.0 × HasSlots s.0 };

    ghost same = { λ a b. (b.0.job ≡ a.0.job) × (b.0.table ≡ a.0.table) × (C.faults a.2 ≤ C.faults b.2) × (length a.0.noted ≤ length b.0.noted) };

    ghost leaves = { λ a b. Leaves (C.files a.2) (C.files b.2) };

    ghost behind = { λ t a b. Behind (C.files a.2) (C.files b.2) a.0 b.0 t (C.faults a.2) (C.faults b.2) };

    ghost went = { λ fault a b. Went T.Tree K.Keeper a.1 b.1 fault };

    ghost paused_at = { λ t s unit paused. IsPaused s.0 t unit paused };

    ghost tells = { λ t a b. Tells (C.files a.2) (C.files b.2) a.0 b.0 t a.3.compiles b.3.compiles (C.faults a.2) (C.faults b.2) };

    fn slot(&self, number: usize) -> Slot {
        self.slots.items()[number]
    }

    fn begin(
        &mut self,
        alloc: Global,
        tree: &mut Snapshot<'_, T, K>,
        cache: &mut C,
        steps: &mut Steps,
        number: usize,
    ) -> Result<(), TreeFault> {
        begin_module(alloc, tree, cache, steps, self, number)
    }

    fn turn(
        &mut self,
        alloc: Global,
        tree: &mut Snapshot<'_, T, K>,
        cache: &mut C,
        steps: &mut Steps,
        number: usize,
    ) -> Result<Turn, TreeFault> {
        turn_module(alloc, tree, cache, self, number)
    }

    fn unit_turn(
        &mut self,
        alloc: Global,
        tree: &mut Snapshot<'_, T, K>,
        cache: &mut C,
        steps: &mut Steps,
        unit: &PathText,
        paused: &mut Option<Paused>,
    ) -> Result<UnitTurn, TreeFault> {
        walk_unit(alloc, tree, self, unit, paused)
    }

    ghost room = { λ s well m top. well.1 m top };

    ghost slots_are = { λ s. refl };

    ghost same_start = { λ s. (refl, refl, no_less (C.faults s.2), no_less (length s.0.noted)) };

    ghost same_after = { λ a b c h k. (k.0 ∙ h.0, k.1 ∙ h.1, no_less_then (C.faults a.2) (C.faults b.2) (C.faults c.2) h.2 k.2, no_less_then (length a.0.noted) (length b.0.noted) (length c.0.noted) h.3 k.3) };

    ghost went_start = { λ s. went_nowhere T.Tree K.Keeper s.1 };

    ghost went_short = { λ s. went_refused T.Tree K.Keeper s.1 };

    ghost went_after = { λ a b c fault h k. went_then T.Tree K.Keeper a.1 b.1 c.1 fault h k };

    ghost tells_start = { λ t s. tells_same (C.files s.2) s.0 t s.3.compiles (C.faults s.2) };

    ghost tells_after = { λ t a b c h k. tells_then (C.files a.2) (C.files b.2) (C.files c.2) a.0 b.0 c.0 t a.3.compiles b.3.compiles c.3.compiles (C.faults a.2) (C.faults b.2) (C.faults c.2) h k };

    ghost leaves_start = { λ s. leaves_same (C.files s.2) };

    ghost leaves_after = { λ a b c h k. leaves_then (C.files a.2) (C.files b.2) (C.files c.2) h k };

    ghost paused_start = { λ t s unit. tt };

    ghost paused_after = { λ t a b unit paused same grows is. paused_on a.0 b.0 t unit same.0 same.1 grows paused is };

    ghost behind_start = { λ t s. behind_same (C.files s.2) s.0 t (C.faults s.2) };

    ghost behind_after = { λ t a b c h k. behind_then (C.files a.2) (C.files b.2) (C.files c.2) a.0 b.0 c.0 t (C.faults a.2) (C.faults b.2) (C.faults c.2) h k };
}
