ghost use Rattle.std.specs.Prelude.{◌≡◌, [], ◌∷◌, IfOk, OnOk};
ghost use Rattle.cm_outside.specs.Asks.{Agrees};
ghost use Rattle.cm_outside.specs.Keeping.{noting_all};
ghost use Rattle.cm_outside.specs.declared.question.Question.{Question as AnyQuestion};
ghost use Rattle.cm_outside.specs.declared.question.Answer.{Answer as AnyAnswer};

use crate::{Answer, MemTree, Question, Snapshot, Tree, TreeFault};
use cm_core::{List, PathText};
use std::alloc::Global;
use std::process::Abort;
use std::test::Fail;

/// Asks for a file twice.
fn ask_twice<T: Tree>(
    snapshot: &mut Snapshot<'_, T>,
    path: &PathText,
) -> Result<(usize, usize), TreeFault>
    ensures same_reference { snapshot.new.tree.ghost_name ≡ snapshot.old.tree.ghost_name }
    ensures contents { T.contents snapshot.new.tree.now ≡ T.contents snapshot.old.tree.now }
    ensures once { IfOk result (λ numbers. numbers.0 ≡ numbers.1) }
{
    let first = snapshot.ask_file(path)?;
    let second = snapshot.ask_file(path)?;
    Ok((first, second))
}

/// Asks a tree through a snapshot that it makes.
fn ask_through<T: Tree>(alloc: Global, tree: &mut T, path: &PathText) -> Result<bool, TreeFault>
    ensures contents { T.contents tree.new ≡ T.contents tree.old }
{
    let mut snapshot = Snapshot::new(alloc, tree);
    let (first, second) = ask_twice(&mut snapshot, path)?;
    Ok(first == second)
}

/// Asks a tree once.
fn ask_once<T: Tree>(alloc: Global, tree: &mut T, path: &PathText) -> Result<(), TreeFault>
    ensures { OnOk result (T.reads tree.new ≡ noting_all (Question.Read path.now ∷ []) (T.reads tree.old)) }
{
    let mut snapshot = Snapshot::new(alloc, tree);
    snapshot.ask_file(path)?;
    Ok(())
}

/// How many bytes a file has, which is read twice.
fn read_twice<T: Tree>(
    snapshot: &mut Snapshot<'_, T>,
    path: &PathText,
) -> Result<Option<usize>, TreeFault>
    ensures same_reference { snapshot.new.tree.ghost_name ≡ snapshot.old.tree.ghost_name }
    ensures contents { T.contents snapshot.new.tree.now ≡ T.contents snapshot.old.tree.now }
    ensures back { (f : AnyQuestion → AnyAnswer) → Agrees f snapshot.new.kept → Agrees f snapshot.old.kept }
{
    snapshot.read(path)?;
    match snapshot.read(path)? {
        Answer::Bytes(bytes) => Ok(Some(bytes.len())),
        Answer::Absent | Answer::TooLarge(_) | Answer::Paths(_) => Ok(None),
    }
}

/// A tree of one file, whose first call fails where `fails` says so.
fn one_file(alloc: Global, fails: bool) -> Result<MemTree, Fail> {
    let mut files = List::new(alloc);
    let bytes = List::from_vec(Vec::from_slice(alloc, b"text")?);
    files.push((PathText::read(alloc, "a/b.h")?, bytes))?;
    let mut failing = List::new(alloc);
    if fails {
        failing.push(1)?;
    }
    Ok(MemTree::new(alloc, files, failing))
}

#[test]
fn question_is_put_once(rt: HostRuntime) -> Result<(), Fail> {
    let alloc = rt.alloc();
    let path = PathText::read(alloc, "a/b.h")?;
    let mut tree = one_file(alloc, false)?;
    assert!(rt; ask_through(alloc, &mut tree, &path)?);
    assert_eq!(rt; tree.calls(), 1);
    ask_once(alloc, &mut tree, &path)?;
    assert_eq!(rt; tree.calls(), 2);
    Ok(())
}

#[test]
fn refused_question_is_not_kept(rt: HostRuntime) -> Result<(), Fail> {
    let alloc = rt.alloc();
    let path = PathText::read(alloc, "a/b.h")?;
    let mut tree = one_file(alloc, true)?;
    let mut snapshot = Snapshot::new(alloc, &mut tree);
    assert!(rt; matches!(snapshot.read(&path), Err(TreeFault::Failed)));
    assert_eq!(rt; snapshot.len(), 0);
    assert_eq!(rt; read_twice(&mut snapshot, &path)?, Some(4));
    assert_eq!(rt; snapshot.len(), 1);
    Ok(())
}

/// Lists a folder, and gives how many headers it has.
fn list_folder<T: Tree>(
    snapshot: &mut Snapshot<'_, T>,
    folder: &PathText,
) -> Result<usize, TreeFault> {
    Ok(snapshot.list(folder)?.len())
}

fn check_kept<T: Tree, A: Abort>(rt: &A, snapshot: &Snapshot<'_, T>) {
    assert_eq!(rt; snapshot.len(), 3);
    assert!(rt; matches!(snapshot.record(0).question, Question::Read(_)));
    assert!(rt; matches!(snapshot.record(1).question, Question::List(_)));
    assert!(rt; matches!(snapshot.record(2).answer, Answer::Absent));
}

#[test]
fn answers_stand_in_order(rt: HostRuntime) -> Result<(), Fail> {
    let alloc = rt.alloc();
    let path = PathText::read(alloc, "a/b.h")?;
    let folder = PathText::read(alloc, "a")?;
    let mut tree = one_file(alloc, false)?;
    let mut snapshot = Snapshot::new(alloc, &mut tree);
    assert_eq!(rt; read_twice(&mut snapshot, &path)?, Some(4));
    assert_eq!(rt; list_folder(&mut snapshot, &folder)?, 1);
    assert_eq!(rt; read_twice(&mut snapshot, &folder)?, None);
    assert_eq!(rt; list_folder(&mut snapshot, &folder)?, 1);
    check_kept(&rt, &snapshot);
    Ok(())
}
