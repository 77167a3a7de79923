ghost use Rattle.std.specs.Prelude.{◌≡◌, [], ◌∷◌, IfOk, OnOk, List as Seq};
ghost use Rattle.cm_outside.specs.Asks.{Agrees, Done, value};
ghost use Rattle.cm_outside.specs.Trees.{Path};
ghost use Rattle.cm_outside.specs.declared.question.Question.{Question as AnyQuestion};
ghost use Rattle.cm_outside.specs.declared.question.Answer.{Answer as AnyAnswer};
ghost use Rattle.build_store.specs.Changes.{Went, fault_of};
ghost use Rattle.build_store.specs.Steps.{Comes, HasPushed};
ghost use Rattle.build_store.specs.Stores.{IsLoadedFrom};
ghost use Rattle.build_store.specs.Tables.{asked_for, load_of, read_maps as maps_read, table_of as asked_table};

use crate::job::{Job, read_job};
use crate::map_read::{MapRead, is_read, read_map};
use crate::search::ask_path;
use crate::settle::settle;
use crate::table::Table;
use cm_core::{List, NoMemory, PathText};
use cm_outside::{Keeper, Snapshot, Tree, TreeFault};
use std::alloc::Global;
use unit_fold::line_fault::LineFault;

/// What a job file comes to.
#[derive(Debug, Drop)]
pub enum Loaded {
    /// The first line of the job file that is at fault, from 1.
    Bad(u32),
    /// A job, with the table of its maps.
    Ready(Job, Table),
}

impl Loaded {
    pub fn copy(&self, alloc: Global) -> Result<Loaded, NoMemory>
        ensures { IfOk result (λ copied. copied ≡ self.now) }
    {
        match self {
            Loaded::Bad(line) => Ok(Loaded::Bad(*line)),
            Loaded::Ready(job, table) => Ok(Loaded::Ready(job.copy(alloc)?, table.copy(alloc)?)),
        }
    }
}

/// Reads a map after others, unless it is among them.
fn read_next<T: Tree, K: Keeper>(
    alloc: Global,
    tree: &mut Snapshot<'_, T, K>,
    read: &mut List<MapRead>,
    map: &PathText,
    numbers: &mut List<usize>,
) -> Result<(), TreeFault>
    ensures went { Went T.Tree K.Keeper tree.old tree.new (fault_of result) }
    ensures came { OnOk result ((maps : Seq Path) → Comes (K.records tree.new.kept) numbers.old numbers.new (maps_read read.old (map.now ∷ maps)) (maps_read read.new maps)) }
{
    if is_read(read.items(), map) {
        return Ok(());
    }
    let at = ask_path(tree, map)?;
    numbers.push(at)?;
    let next = read_map(alloc, read.items(), map, &tree.record(at).answer)?;
    read.push(next)?;
    Ok(())
}

/// Reads the maps of a job, each file once.
fn read_maps<T: Tree, K: Keeper>(
    alloc: Global,
    tree: &mut Snapshot<'_, T, K>,
    maps: &[PathText],
    numbers: &mut List<usize>,
) -> Result<List<MapRead>, TreeFault>
    ensures went { Went T.Tree K.Keeper tree.old tree.new (fault_of result) }
    ensures came { IfOk result (λ read. Comes (K.records tree.new.kept) numbers.old numbers.new (maps_read [] maps.now) (Done read)) }
{
    let mut read = List::new(alloc);
    for map in maps {
        read_next(alloc, tree, &mut read, map, numbers)?;
    }
    Ok(read)
}

/// The table of these maps. The numbers of the answers that it comes from are put behind the others.
fn table_of<T: Tree, K: Keeper>(
    alloc: Global,
    tree: &mut Snapshot<'_, T, K>,
    maps: &[PathText],
    numbers: &mut List<usize>,
) -> Result<Table, TreeFault>
    ensures went { Went T.Tree K.Keeper tree.old tree.new (fault_of result) }
    ensures came { IfOk result (λ table. Comes (K.records tree.new.kept) numbers.old numbers.new (asked_table maps.now) (Done table)) }
{
    let read = read_maps(alloc, tree, maps, numbers)?;
    Ok(settle(alloc, read.items())?)
}

/// The job of a path, with its table, or its first line at fault. The numbers of the answers that the
/// table comes from are put behind the others; after an error some of them may be.
pub fn load<T: Tree, K: Keeper>(
    alloc: Global,
    path: &PathText,
    tree: &mut Snapshot<'_, T, K>,
    numbers: &mut List<usize>,
) -> Result<Loaded, TreeFault>
    ensures went { Went T.Tree K.Keeper tree.old tree.new (fault_of result) }
    ensures told { IfOk result (λ loaded. (f : AnyQuestion → AnyAnswer) → Agrees f (K.records tree.new.kept) → loaded ≡ value (load_of path.now) f) }
    ensures pushed { IfOk result (λ loaded. HasPushed (K.records tree.new.kept) numbers.old numbers.new (asked_for loaded)) }
    ensures maps { numbers.old ≡ [] → IfOk result (IsLoadedFrom (K.records tree.new.kept) numbers.new) }
{
    let at = ask_path(tree, path)?;
    match read_job(alloc, &tree.record(at).answer) {
        Ok(job) => {
            let table = table_of(alloc, tree, job.maps.items(), numbers)?;
            Ok(Loaded::Ready(job, table))
        }
        Err(LineFault::At(number)) => Ok(Loaded::Bad(number)),
        Err(LineFault::NoMemory) => Err(TreeFault::NoMemory),
    }
}
