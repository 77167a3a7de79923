ghost use Rattle.std.specs.Prelude.{◌≡◌, ◌++◌, Some, IfOk, OnErr, slice_get, List as Seq};
ghost use Rattle.std.specs.Cmp.Lexicographic.{pointwise};
ghost use Rattle.std.specs.Str.{bytes_eq};
ghost use Rattle.cm_outside.specs.Asks.{Agrees};
ghost use Rattle.cm_outside.specs.Keeping.{Asked, answered};
ghost use Rattle.cm_outside.specs.declared.question.Question.{Question as AnyQuestion};
ghost use Rattle.cm_outside.specs.declared.question.Answer.{Answer as AnyAnswer};
ghost use Rattle.build_store.specs.Changes.{Went, fault_of, same_answer};
ghost use Rattle.build_store.specs.Kept.{AreChanges, AreNumbered};

use cm_core::{List, PathText};
use cm_outside::{Answer, Keeper, Question, Record, Snapshot, Tree, TreeFault};
use std::alloc::Global;

/// What a tree answers now to recorded questions.
#[derive(Drop)]
pub enum Changes {
    /// What is recorded. These are the numbers of the answers, in the order of the records.
    Same(List<usize>),
    /// Something else. This is the path of the first question that has another answer.
    At(PathText),
}

/// The number of the answer to a question.
pub fn ask<T: Tree, K: Keeper>(
    tree: &mut Snapshot<'_, T, K>,
    question: &Question,
) -> Result<usize, TreeFault>
    ensures went { Went T.Tree K.Keeper tree.old tree.new (fault_of result) }
    ensures err { OnErr result (K.records tree.new.kept ≡ K.records tree.old.kept) }
    ensures asked { IfOk result (λ at. Asked question.now (K.records tree.old.kept) (K.records tree.new.kept) at) }
    ensures fixed { IfOk result (λ at. (f : AnyQuestion → AnyAnswer) → Agrees f (K.records tree.new.kept) → slice_get (K.records tree.new.kept) at ≡ Some (answered question.now (f question.now))) }
{
    match question {
        Question::Read(path) => tree.ask_file(path),
        Question::List(folder) => tree.ask_folder(folder),
    }
}

fn is_same(now: &Answer, then: &Answer) -> bool
    ensures { result ≡ same_answer now.now then.now }
{
    match (now, then) {
        (Answer::Absent, Answer::Absent) => true,
        (Answer::Bytes(now), Answer::Bytes(then)) => now.items() == then.items(),
        (Answer::TooLarge(now), Answer::TooLarge(then)) => *now == *then,
        (Answer::Paths(now), Answer::Paths(then)) => now.items() == then.items(),
        _ => false,
    }
}

/// The first recorded question that has another answer now. The questions are put to the tree up to
/// that one, each only where its answer isn't kept.
pub fn first_changed<T: Tree, K: Keeper>(
    alloc: Global,
    tree: &mut Snapshot<'_, T, K>,
    records: &[Record],
) -> Result<Changes, TreeFault>
    ensures went { Went T.Tree K.Keeper tree.old tree.new (fault_of result) }
    ensures told { IfOk result (λ changes. (f : AnyQuestion → AnyAnswer) → Agrees f (K.records tree.new.kept) → AreChanges f records.now changes) }
    ensures numbered { IfOk result (λ changes. AreNumbered (K.records tree.new.kept) records.now changes) }
{
    let mut numbers = List::new(alloc);
    for kept in records {
        let number = ask(tree, &kept.question)?;
        if !is_same(&tree.record(number).answer, &kept.answer) {
            return Ok(Changes::At(kept.question.path().copy(alloc)?));
        }
        numbers.push(number)?;
    }
    Ok(Changes::Same(numbers))
}
