ghost use Rattle.std.specs.Prelude.{◌≡◌, true, ◌<◌, length, slice_get, IfOk, OnErr, Some, List as Seq};
ghost use Rattle.cm_outside.specs.Asks.{Agrees};
ghost use Rattle.cm_outside.specs.Faults.{HasCause};
ghost use Rattle.cm_outside.specs.Keeping.{AreKept, Asked, Grew, NotesNew, answered, is_kept, is_of_kind};
ghost use Rattle.cm_outside.specs.Trees.{Contents, answer};
ghost use Rattle.cm_outside.specs.declared.question.Question.{Question as AnyQuestion};
ghost use Rattle.cm_outside.specs.declared.question.Answer.{Answer as AnyAnswer};
ghost use Rattle.cm_outside.specs.declared.question.Record.{Record as AnyRecord};

use crate::{Question, Record, Tree, TreeFault};
use std::alloc::Global;

/// What keeps the answers of a tree, each under a number, from 0 in the order in which their questions
/// were first put.
pub trait Keeper: Drop {
    // The records of the answers, by number.
    ghost records: { Self → Seq AnyRecord };

    fn allocator(&self) -> Global
        ensures kept { AreKept (records self.now) };

    /// How many answers are kept.
    fn len(&self) -> usize
        ensures len { result ≡ length (records self.now) }
        ensures kept { AreKept (records self.now) };

    /// The record of a number that `ask` gave.
    fn record(&self, at: usize) -> &Record
        requires { at < length (records self.now) }
        ensures record { slice_get (records self.now) at ≡ Some result.now }
        ensures kind { is_of_kind result.now.question result.now.answer ≡ true };

    /// The number of the answer to `question`, which is put to the tree only where no answer is kept.
    /// What the tree refuses isn't kept.
    fn ask<T: Tree>(&mut self, tree: &mut T, question: Question) -> Result<usize, TreeFault>
        ensures asked { IfOk result (λ at. Asked question (records self.old) (records self.new) at) }
        ensures err { OnErr result (records self.new ≡ records self.old) }
        ensures kept { AreKept (records self.new) }
        ensures grew { Grew (records self.old) (records self.new) }

        // What agrees with the answers after it agrees with those before it, and gives this answer.
        ensures back { (f : AnyQuestion → AnyAnswer) → Agrees f (records self.new) → Agrees f (records self.old) }
        ensures fixed { IfOk result (λ at. (f : AnyQuestion → AnyAnswer) → Agrees f (records self.new) → slice_get (records self.new) at ≡ Some (answered question (f question))) }

        ensures told { (t : Contents) → T.contents tree.old ≡ Some t → Agrees (answer t) (records self.old) → Agrees (answer t) (records self.new) }
        ensures contents { T.contents tree.new ≡ T.contents tree.old }
        ensures untouched { is_kept question (records self.old) ≡ true → tree.new ≡ tree.old }
        ensures noted { NotesNew question (records self.old) (records self.new) (T.reads tree.old) (T.reads tree.new) result }
        ensures cause { HasCause (T.faults tree.old) (T.faults tree.new) result TreeFault.Failed };
}
