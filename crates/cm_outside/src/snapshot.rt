ghost use Rattle.std.specs.Prelude.{◌≡◌, true, [], ◌<◌, length, slice_get, IfOk, OnErr, Some};
ghost use Rattle.cm_outside.specs.Asks.{Agrees};
ghost use Rattle.cm_outside.specs.Faults.{HasCause};
ghost use Rattle.cm_outside.specs.Keeping.{AreKept, Asked, Grew, NotesNew, answered, is_kept, is_of_kind};
ghost use Rattle.cm_outside.specs.Trees.{Contents, answer};
ghost use Rattle.cm_outside.specs.declared.question.Question.{Question as AnyQuestion};
ghost use Rattle.cm_outside.specs.declared.question.Answer.{Answer as AnyAnswer};
ghost use Rattle.cm_outside.specs.declared.question.Answer.TheVariants.{Paths};

use crate::{Answer, Answers, Keeper, Question, Record, Tree, TreeFault};
use cm_core::PathText;
use std::alloc::Global;

/// A tree with the answers that it gave: each question is put to it at most once, so that all that read
/// it see the same files. What the tree refuses isn't kept.
// The answers stand behind a type parameter, so that contracts know the tree once a snapshot is let go.
pub struct Snapshot<'a, T: Tree, K: Keeper = Answers> {
    tree: &'a mut T,
    kept: K,
}

impl<T: Tree, K: Keeper> Drop for Snapshot<'_, T, K> {
    fn drop(self)
        ensures { self.exit.0.now ≡ self.entry.tree.now }
    {
        let Snapshot { tree: _, kept: _ } = self;
    }
}

impl<'a, T: Tree> Snapshot<'a, T> {
    /// A snapshot of a tree, with no answer kept.
    pub fn new(alloc: Global, tree: &'a mut T) -> Snapshot<'a, T>
        ensures same_reference { result.tree.ghost_name ≡ tree.entry.ghost_name }
        ensures same { result.tree.now ≡ tree.old }
        ensures empty { result.kept ≡ [] }
    {
        Snapshot {
            tree,
            kept: Answers::new(alloc),
        }
    }
}

impl<T: Tree, K: Keeper> Snapshot<'_, T, K> {
    ghost use Rattle.std.specs.Borrow.{sem};
    ghost use Rattle.std.specs.Io.BufRead.{Rests};
    ghost use Rattle.cm_outside.specs.Lending.{HasLent, as_answer, snapshot_row};

    /// How many answers are kept.
    pub fn len(&self) -> usize
        ensures len { result ≡ length (K.records self.now.kept) }
        ensures kept { AreKept (K.records self.now.kept) }
    {
        self.kept.len()
    }

    /// The record of a number that this gave.
    pub fn record(&self, at: usize) -> &Record
        requires { at < length (K.records self.now.kept) }
        ensures record { slice_get (K.records self.now.kept) at ≡ Some result.now }
        ensures kind { is_of_kind result.now.question result.now.answer ≡ true }
    {
        self.kept.record(at)
    }

    /// The number of the answer to the file of `path`.
    pub fn ask_file(&mut self, path: &PathText) -> Result<usize, TreeFault>
        ensures same_reference { self.new.tree.ghost_name ≡ self.old.tree.ghost_name }
        ensures asked { IfOk result (λ at. Asked (Question.Read path.now) (K.records self.old.kept) (K.records self.new.kept) at) }
        ensures err { OnErr result (K.records self.new.kept ≡ K.records self.old.kept) }
        ensures kept { AreKept (K.records self.new.kept) }
        ensures grew { Grew (K.records self.old.kept) (K.records self.new.kept) }

        // What agrees with the answers after it agrees with those before it, and gives this answer.
        ensures back { (f : AnyQuestion → AnyAnswer) → Agrees f (K.records self.new.kept) → Agrees f (K.records self.old.kept) }
        ensures fixed { IfOk result (λ at. (f : AnyQuestion → AnyAnswer) → Agrees f (K.records self.new.kept) → slice_get (K.records self.new.kept) at ≡ Some (answered (Question.Read path.now) (f (Question.Read path.now)))) }

        ensures told { (t : Contents) → T.contents self.old.tree.now ≡ Some t → Agrees (answer t) (K.records self.old.kept) → Agrees (answer t) (K.records self.new.kept) }
        ensures contents { T.contents self.new.tree.now ≡ T.contents self.old.tree.now }
        ensures untouched { is_kept (Question.Read path.now) (K.records self.old.kept) ≡ true → self.new.tree.now ≡ self.old.tree.now }
        ensures noted { NotesNew (Question.Read path.now) (K.records self.old.kept) (K.records self.new.kept) (T.reads self.old.tree.now) (T.reads self.new.tree.now) result }
        ensures cause { HasCause (T.faults self.old.tree.now) (T.faults self.new.tree.now) result TreeFault.Failed }
    {
        let question = Question::Read(path.copy(self.kept.allocator())?);
        self.kept.ask(self.tree, question)
    }

    /// The number of the answer to the headers in `folder`.
    pub fn ask_folder(&mut self, folder: &PathText) -> Result<usize, TreeFault>
        ensures same_reference { self.new.tree.ghost_name ≡ self.old.tree.ghost_name }
        ensures asked { IfOk result (λ at. Asked (Question.List folder.now) (K.records self.old.kept) (K.records self.new.kept) at) }
        ensures err { OnErr result (K.records self.new.kept ≡ K.records self.old.kept) }
        ensures kept { AreKept (K.records self.new.kept) }
        ensures grew { Grew (K.records self.old.kept) (K.records self.new.kept) }

        // What agrees with the answers after it agrees with those before it, and gives this answer.
        ensures back { (f : AnyQuestion → AnyAnswer) → Agrees f (K.records self.new.kept) → Agrees f (K.records self.old.kept) }
        ensures fixed { IfOk result (λ at. (f : AnyQuestion → AnyAnswer) → Agrees f (K.records self.new.kept) → slice_get (K.records self.new.kept) at ≡ Some (answered (Question.List folder.now) (f (Question.List folder.now)))) }

        ensures told { (t : Contents) → T.contents self.old.tree.now ≡ Some t → Agrees (answer t) (K.records self.old.kept) → Agrees (answer t) (K.records self.new.kept) }
        ensures contents { T.contents self.new.tree.now ≡ T.contents self.old.tree.now }
        ensures untouched { is_kept (Question.List folder.now) (K.records self.old.kept) ≡ true → self.new.tree.now ≡ self.old.tree.now }
        ensures noted { NotesNew (Question.List folder.now) (K.records self.old.kept) (K.records self.new.kept) (T.reads self.old.tree.now) (T.reads self.new.tree.now) result }
        ensures cause { HasCause (T.faults self.old.tree.now) (T.faults self.new.tree.now) result TreeFault.Failed }
    {
        let question = Question::List(folder.copy(self.kept.allocator())?);
        self.kept.ask(self.tree, question)
    }

    /// The answer to the file of `path`.
    pub fn read(&mut self, path: &PathText) -> Result<&Answer, TreeFault>
        ensures* ends { sem 𝓛 (Rests (snapshot_row T.row K.row) self.entry (λ new. HasLent T.Tree K.Keeper (Question.Read path.now) self.old new (as_answer (λ a. a.now) result))) }
        ensures kind { IfOk result (λ a. is_of_kind (Question.Read path.now) a.now ≡ true) }
    {
        let at = self.ask_file(path)?;
        Ok(&self.record(at).answer)
    }

    /// The headers in `folder` and below it.
    pub fn list(&mut self, folder: &PathText) -> Result<&[PathText], TreeFault>
        ensures* ends { sem 𝓛 (Rests (snapshot_row T.row K.row) self.entry (λ new. HasLent T.Tree K.Keeper (Question.List folder.now) self.old new (as_answer (λ ps. Paths ps.now) result))) }
    {
        let at = self.ask_folder(folder)?;
        Ok(paths_of(&self.record(at).answer))
    }
}

/// The paths of a folder's headers.
fn paths_of(answer: &Answer) -> &[PathText]
    requires { is_of_kind (Question.List []) answer.now ≡ true }
    ensures { Paths result.now ≡ answer.now }
{
    match answer {
        Answer::Paths(paths) => paths.items(),
        Answer::Absent | Answer::Bytes(_) | Answer::TooLarge(_) => unreachable!(),
    }
}
