ghost use Rattle.std.specs.Prelude.{◌≡◌, true, false, [], position, is_some, IfOk, OnErr, Some};
ghost use Rattle.cm_outside.specs.Faults.{HasCause};
ghost use Rattle.cm_outside.specs.Keeping.{AreKept, Asked, is_kept, is_of_kind, keeping, same_asked};
ghost use Rattle.cm_outside.specs.Reads.{Notes};
ghost use Rattle.cm_outside.specs.Trees.{Contents, answer};

use crate::kept::Kept;
use crate::{Answer, Keeper, Question, Record, Tree, TreeFault};
use cm_core::{List, NoMemory};
use indexmap::IndexSet;
use std::alloc::Global;
use std::marker::Model;

/// The answers of a tree, each kept under a number, from 0 in the order in which their questions were
/// first put. A clause sees the list of their records.
#[derive(Drop)]
pub struct Answers {
    set: IndexSet<Kept>,
}

impl Model for Answers {
    ghost use Rattle.std.specs.Prelude.{List as Seq};
    ghost use Rattle.cm_outside.specs.Keeping.{AreKept};
    ghost use Rattle.cm_outside.specs.declared.question.Record.{Record};

    ghost Value = { Seq Record };

    ghost view = { λ a. a.set.keys };

    ghost invariant = { λ a. AreKept a.set.keys };
}

impl Answers {
    pub fn new(alloc: Global) -> Answers
        ensures { result ≡ [] }
    {
        Answers {
            set: IndexSet::new(alloc),
        }
    }

    /// The number of the kept answer to the same question.
    fn number_of(&self, question: &Kept) -> Option<usize>
        ensures number { result ≡ position (same_asked question.now) self.now }
        ensures found { is_some result ≡ is_kept question.now.question self.now }
        ensures kept { AreKept self.now }
    {
        self.set.get_index_of(question)
    }

    fn reserve(&mut self) -> Result<(), NoMemory>
        ensures { self.new ≡ self.old }
    {
        self.set.reserve(1)?;
        Ok(())
    }

    /// Keeps the answer to a question that has none, and gives its number.
    fn add(&mut self, kept: Kept) -> Result<usize, NoMemory>
        requires { is_of_kind kept.question kept.answer ≡ true }
        ensures asked { is_kept kept.question self.old ≡ false → IfOk result (λ at. Asked kept.question self.old self.new at) }
        ensures grows { IfOk result (λ _. self.new ≡ keeping kept self.old) }
        ensures err { OnErr result (self.new ≡ self.old) }
        ensures kept { AreKept self.new }
    {
        let (at, _) = self.set.insert_full(kept)?;
        Ok(at)
    }
}

impl Keeper for Answers {
    ghost records = { λ a. a };

    fn allocator(&self) -> Global {
        *self.set.allocator()
    }

    fn len(&self) -> usize {
        self.set.len()
    }

    fn record(&self, at: usize) -> &Record {
        self.set.get_index(at).unwrap().record()
    }

    fn ask<T: Tree>(&mut self, tree: &mut T, question: Question) -> Result<usize, TreeFault> {
        let mut kept = Kept::new(question, Answer::Absent);
        if let Some(at) = self.number_of(&kept) {
            return Ok(at);
        }
        // Room is made first, so that what the tree answers is kept.
        self.reserve()?;
        kept.set_answer(put(tree, &kept.record().question)?);
        Ok(self.add(kept)?)
    }
}

/// Puts a question to a tree.
fn put<T: Tree>(tree: &mut T, question: &Question) -> Result<Answer, TreeFault>
    ensures told { (t : Contents) → T.contents tree.old ≡ Some t → IfOk result (λ a. a ≡ answer t question.now) }
    ensures kind { IfOk result (λ a. is_of_kind question.now a ≡ true) }
    ensures contents { T.contents tree.new ≡ T.contents tree.old }
    ensures cause { HasCause (T.faults tree.old) (T.faults tree.new) result TreeFault.Failed }
    ensures noted { Notes question.now (T.reads tree.old) (T.reads tree.new) result }
{
    match question {
        Question::Read(path) => Ok(tree.read(path)?.into_answer()),
        Question::List(folder) => Ok(Answer::Paths(List::from_vec(tree.list(folder)?))),
    }
}
