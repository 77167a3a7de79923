ghost use Rattle.std.specs.Prelude.{◌≡◌, IfOk, Some, slice_get, List as Seq};
ghost use Rattle.std.specs.Result.{result_ok};
ghost use Rattle.cm_core.specs.Paths.{join_of};
ghost use Rattle.cm_outside.specs.Asks.{Agrees, Done, value};
ghost use Rattle.cm_outside.specs.Keeping.{Asked, answered};
ghost use Rattle.cm_outside.specs.Trees.{Path};
ghost use Rattle.cm_outside.specs.declared.question.Question.{Question as AnyQuestion};
ghost use Rattle.cm_outside.specs.declared.question.Question.TheVariants.{Read};
ghost use Rattle.cm_outside.specs.declared.question.Answer.{Answer as AnyAnswer};
ghost use Rattle.build_store.specs.Changes.{Went, fault_of};
ghost use Rattle.build_store.specs.Search.{IsIn, candidates, find_of, found, header_or_plain, in_folders, is_absent as is_absent_answer, owner_of, with_candidate};
ghost use Rattle.build_store.specs.Steps.{Comes, HasPushed, done_or};

use crate::finding::Find;
use crate::table::Table;
use cm_core::{List, PathText};
use cm_outside::{Answer, Keeper, Snapshot, Tree, TreeFault};
use std::alloc::Global;
use unit_fold::lines::path_or_none;

/// The number of the answer to the file of `path`.
pub(crate) fn ask_path<T: Tree, K: Keeper>(
    tree: &mut Snapshot<'_, T, K>,
    path: &PathText,
) -> Result<usize, TreeFault>
    ensures went { Went T.Tree K.Keeper tree.old tree.new (fault_of result) }
    ensures asked { IfOk result (λ at. Asked (Read path.now) (K.records tree.old.kept) (K.records tree.new.kept) at) }
    ensures fixed { IfOk result (λ at. (f : AnyQuestion → AnyAnswer) → Agrees f (K.records tree.new.kept) → slice_get (K.records tree.new.kept) at ≡ Some (answered (Read path.now) (f (Read path.now)))) }
{
    tree.ask_file(path)
}

fn is_absent(answer: &Answer) -> bool
    ensures { result ≡ is_absent_answer answer.now }
{
    match answer {
        Answer::Absent => true,
        Answer::Bytes(_) | Answer::TooLarge(_) | Answer::Paths(_) => false,
    }
}

/// The path, if its file is there. The number of the answer is put behind the others.
fn if_there<T: Tree, K: Keeper>(
    tree: &mut Snapshot<'_, T, K>,
    path: PathText,
    numbers: &mut List<usize>,
) -> Result<Option<PathText>, TreeFault>
    ensures went { Went T.Tree K.Keeper tree.old tree.new (fault_of result) }
    ensures came { IfOk result (λ p. (more : Seq Path) →
        Comes (K.records tree.new.kept) numbers.old numbers.new (found (with_candidate (Some path) more)) (done_or p (found more))) }
{
    let at = ask_path(tree, &path)?;
    numbers.push(at)?;
    if is_absent(&tree.record(at).answer) {
        return Ok(None);
    }
    Ok(Some(path))
}

/// The file of an include in one folder, if it is there. What is no path below the root is passed over.
fn candidate<T: Tree, K: Keeper>(
    alloc: Global,
    tree: &mut Snapshot<'_, T, K>,
    folder: &PathText,
    text: &str,
    numbers: &mut List<usize>,
) -> Result<Option<PathText>, TreeFault>
    ensures went { Went T.Tree K.Keeper tree.old tree.new (fault_of result) }
    ensures came { IfOk result (λ p. (more : Seq Path) →
        Comes (K.records tree.new.kept) numbers.old numbers.new (found (with_candidate (result_ok (join_of folder.now text.now)) more)) (done_or p (found more))) }
{
    let Some(path) = path_or_none(folder.join(alloc, text))? else {
        return Ok(None);
    };
    if_there(tree, path, numbers)
}

/// The first file of an include in these folders.
fn find_in_folders<T: Tree, K: Keeper>(
    alloc: Global,
    tree: &mut Snapshot<'_, T, K>,
    folders: &[PathText],
    text: &str,
    numbers: &mut List<usize>,
) -> Result<Option<PathText>, TreeFault>
    ensures went { Went T.Tree K.Keeper tree.old tree.new (fault_of result) }
    ensures came { IfOk result (λ p. Comes (K.records tree.new.kept) numbers.old numbers.new (found (in_folders folders.now text.now)) (Done p)) }
{
    for folder in folders {
        if let Some(path) = candidate(alloc, tree, folder, text, numbers)? {
            return Ok(Some(path));
        }
    }
    Ok(None)
}

/// The file of an include: in the folder of the including file, or else in the include folders in order.
fn find_path<T: Tree, K: Keeper>(
    alloc: Global,
    tree: &mut Snapshot<'_, T, K>,
    includes: &[PathText],
    file: &PathText,
    text: &str,
    numbers: &mut List<usize>,
) -> Result<Option<PathText>, TreeFault>
    ensures went { Went T.Tree K.Keeper tree.old tree.new (fault_of result) }
    ensures came { IfOk result (λ p. Comes (K.records tree.new.kept) numbers.old numbers.new (found (candidates file.now includes.now text.now)) (Done p)) }
{
    let folder = file.folder(alloc)?;
    if let Some(path) = candidate(alloc, tree, &folder, text, numbers)? {
        return Ok(Some(path));
    }
    find_in_folders(alloc, tree, includes, text, numbers)
}

/// What an include finds that finds this file.
fn find_at(table: &Table, path: &PathText) -> Find
    ensures found { result ≡ header_or_plain (owner_of table.now path.now) }
    ensures within { IsIn table.now result }
{
    match table.owner_of(path) {
        Some(number) => Find::Header(number),
        None => Find::Plain,
    }
}

/// What `#include "TEXT"` in a file finds. The numbers of the answers that it comes from are put behind
/// the others; after an error some of them may be.
pub fn find<T: Tree, K: Keeper>(
    alloc: Global,
    tree: &mut Snapshot<'_, T, K>,
    includes: &[PathText],
    table: &Table,
    file: &PathText,
    text: &str,
    numbers: &mut List<usize>,
) -> Result<Find, TreeFault>
    ensures went { Went T.Tree K.Keeper tree.old tree.new (fault_of result) }
    ensures told { IfOk result (λ found. (f : AnyQuestion → AnyAnswer) → Agrees f (K.records tree.new.kept) → found ≡ value (find_of includes.now table.now file.now text.now) f) }
    ensures within { IfOk result (λ found. IsIn table.now found) }
    ensures pushed { IfOk result (λ found. HasPushed (K.records tree.new.kept) numbers.old numbers.new (find_of includes.now table.now file.now text.now)) }
{
    match find_path(alloc, tree, includes, file, text, numbers)? {
        Some(path) => Ok(find_at(table, &path)),
        None => Ok(Find::Nothing),
    }
}
