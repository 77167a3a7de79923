ghost use Rattle.std.specs.Prelude.{◌≡◌, ◌<◌, [], ℕ, replicate, length, IfOk, OnOk, OnErr, None as Nil};
ghost use Rattle.build_store.specs.Held.{HasPlaces, IsEnded, choice_at, ended_as_cyclic, noted_as, without_choice};
ghost use Rattle.build_store.specs.Libraries.{IsOf, parts_at};
ghost use Rattle.build_store.specs.Turning.{slot_at};
ghost use Rattle.build_store.specs.declared.decide.Choice.TheVariants.{Sources as BySources};
ghost use Rattle.build_store.specs.declared.slot.Slot.TheVariants.{Unknown as IsUnknown, Busy as IsBusy};

use crate::decide::{Choice, Decision};
use crate::job::Job;
use crate::library::Library;
use crate::name_index::NameIndex;
use crate::origin::Origin;
use crate::part::Part;
use crate::slot::Slot;
use crate::table::Table;
use cm_core::{List, NoMemory};
use std::alloc::Global;

/// What is kept of a module that has ended, besides its part.
#[derive(Debug, Drop)]
pub struct Found {
    /// The numbers of the answers that interpreting it asks for, with those of the maps, each at its first.
    pub asked: List<usize>,
    /// The numbers of the other modules that interpreting it begins, in order of first need.
    pub needs: List<usize>,
}

/// A module that was begun.
#[derive(Debug, Drop)]
pub struct Noted {
    pub number: usize,
    pub origin: Origin,
}

/// What a build holds of its job's modules. What has one place for each module has it by the module's number.
#[derive(Debug, Drop)]
pub struct Held {
    pub job: Job,
    pub table: Table,
    /// The numbers of the table's modules by their names.
    pub names: NameIndex,
    /// The numbers of the answers that the table was read from, in order.
    pub maps: List<usize>,
    pub library: Library,
    pub slots: List<Slot>,
    pub found: List<Option<Found>>,
    /// How each module that was begun is interpreted.
    pub choices: List<Choice>,
    /// The modules that were begun, in order of first need.
    pub noted: List<Noted>,
}

fn unknown_slots(alloc: Global, size: usize) -> Result<List<Slot>, NoMemory>
    ensures { IfOk result (λ slots. slots ≡ replicate size IsUnknown) }
{
    let mut slots = List::new(alloc);
    for _ in 0..size {
        slots.push(Slot::Unknown)?;
    }
    Ok(slots)
}

fn nothing_found(alloc: Global, size: usize) -> Result<List<Option<Found>>, NoMemory>
    ensures { IfOk result (λ found. found ≡ replicate size Nil) }
{
    let mut found = List::new(alloc);
    for _ in 0..size {
        found.push(None)?;
    }
    Ok(found)
}

fn no_choices(alloc: Global, size: usize) -> Result<List<Choice>, NoMemory>
    ensures { IfOk result (λ choices. choices ≡ replicate size BySources) }
{
    let mut choices = List::new(alloc);
    for _ in 0..size {
        choices.push(Choice::Sources)?;
    }
    Ok(choices)
}

impl Held {
    /// What is held of a job of which no module was begun.
    pub fn new(alloc: Global, job: Job, table: Table, maps: List<usize>) -> Result<Held, NoMemory>
        ensures job { IfOk result (λ held. held.job ≡ job) }
        ensures table { IfOk result (λ held. held.table ≡ table) }
        ensures maps { IfOk result (λ held. held.maps ≡ maps) }
        ensures places { IfOk result HasPlaces }
        ensures parts { IfOk result (λ held. (x : ℕ) → parts_at held.library x ≡ Nil) }
        ensures slots { IfOk result (λ held. held.slots ≡ replicate (length table.targets) IsUnknown) }
        ensures found { IfOk result (λ held. held.found ≡ replicate (length table.targets) Nil) }
        ensures choices { IfOk result (λ held. held.choices ≡ replicate (length table.targets) BySources) }
        ensures noted { IfOk result (λ held. held.noted ≡ []) }
    {
        let size = table.targets.len();
        let names = NameIndex::new(alloc, &table)?;
        let library = Library::new(alloc, &table)?;
        let slots = unknown_slots(alloc, size)?;
        let found = nothing_found(alloc, size)?;
        let choices = no_choices(alloc, size)?;
        Ok(Held {
            job,
            table,
            names,
            maps,
            library,
            slots,
            found,
            choices,
            noted: List::new(alloc),
        })
    }

    /// Notes that a module was begun, and how it is interpreted.
    pub fn note(&mut self, number: usize, decision: Decision) -> Result<(), NoMemory>
        requires places { HasPlaces self.old }
        requires within { number < length self.old.table.targets }
        requires unknown { slot_at self.old.slots number ≡ IsUnknown }
        ensures places { HasPlaces self.new }
        ensures done { OnOk result (self.new ≡ noted_as self.old number decision) }
        ensures err { OnErr result (self.new ≡ self.old) }
    {
        self.noted.push(Noted {
            number,
            origin: decision.origin,
        })?;
        let _ = self.slots.replace(number, Slot::Busy);
        let _ = self.choices.replace(number, decision.choice);
        Ok(())
    }

    /// Keeps what a module came to, which is Good then; without memory for it all stays as it was.
    pub fn end(
        &mut self,
        alloc: Global,
        number: usize,
        part: Part,
        found: Found,
    ) -> Result<(), NoMemory>
        requires places { HasPlaces self.old }
        requires within { number < length self.old.table.targets }
        ensures places { HasPlaces self.new }
        ensures ended { OnOk result (IsEnded self.old self.new number part found) }
        ensures err { OnErr result (self.new ≡ self.old) }
    {
        self.library.set(alloc, &self.table, number, part)?;
        let _ = self.found.replace(number, Some(found));
        let _ = self.slots.replace(number, Slot::Good);
        Ok(())
    }

    /// The module is Cyclic: nothing is kept of it.
    pub fn end_as_cyclic(&mut self, number: usize)
        requires places { HasPlaces self.old }
        requires within { number < length self.old.table.targets }
        requires busy { slot_at self.old.slots number ≡ IsBusy }
        ensures places { HasPlaces self.new }
        ensures ended { self.new ≡ ended_as_cyclic self.old number }
    {
        let _ = self.slots.replace(number, Slot::Cyclic);
    }

    /// How the module is interpreted. What was decided is taken, and a later turn interprets it from its header.
    pub fn take_choice(&mut self, number: usize) -> Choice
        requires places { HasPlaces self.old }
        requires within { number < length self.old.table.targets }
        ensures places { HasPlaces self.new }
        ensures choice { result ≡ choice_at self.old number }
        ensures taken { self.new ≡ without_choice self.old number }
    {
        self.choices.replace(number, Choice::Sources)
    }
}
