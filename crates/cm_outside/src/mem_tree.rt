ghost use Rattle.std.specs.Prelude.{◌≡◌, ◌+◌, ◌-◌, ◌^◌, ◌≢◌, true, false, ℕ, min, [], ◌∷◌, ◌++◌, IfOk, OnOk, OnErr, Some, IsErrOf, IsErr, ◌==◌};
ghost use Rattle.cm_outside.specs.Trees.{files_answer, read_answer, without_path};
ghost use Rattle.cm_outside.specs.Reads.{Notes};
ghost use Rattle.cm_outside.specs.Faults.{HasCause};
ghost use Rattle.cm_outside.specs.InMemory.{FailingTree, CountsFaults, FailsWhereTold, is_to_fail, one_more};
ghost use Rattle.cm_outside.specs.declared.question.Answer.TheVariants.{Paths};

use crate::files::{file_answer, headers_in};
use crate::{FileAnswer, Question, Tree, TreeFault};
use cm_core::{List, NoMemory, PathText};
use std::alloc::Global;
use std::marker::Model;

/// A tree in memory, whose calls fail where they are told to.
#[derive(Drop)]
pub struct MemTree {
    alloc: Global,
    files: Vec<(PathText, List<u8>)>,
    fails: List<u64>,
    calls: u64,
    faults: u64,
    reads: List<Question>,
}

impl Model for MemTree {
    ghost Value = { FailingTree };

    ghost view = { λ t. record { files = t.files.items; fails = t.fails; calls = t.calls; faults = t.faults; reads = t.reads } };
}

impl MemTree {
    /// A tree of these files; of a path that stands more than once the last counts. The calls whose
    /// numbers stand in `fails`, from 1, fail.
    pub fn new(alloc: Global, files: List<(PathText, List<u8>)>, fails: List<u64>) -> MemTree
        ensures { result ≡ record { files = files; fails = fails; calls = 0; faults = 0; reads = [] } }
    {
        MemTree {
            alloc,
            files: files.into_vec(),
            fails,
            calls: 0,
            faults: 0,
            reads: List::new(alloc),
        }
    }

    /// Gives a path these bytes. A refused call changes nothing.
    pub fn set(&mut self, path: &PathText, bytes: &[u8]) -> Result<(), NoMemory>
        ensures ok { OnOk result (self.new ≡ record self.old { files = self.old.files ++ (path.now, bytes.now) ∷ [] }) }
        ensures err { OnErr result (self.new ≡ self.old) }
    {
        let bytes = List::from_vec(Vec::from_slice(self.alloc, bytes)?);
        self.files.push((path.copy(self.alloc)?, bytes))?;
        Ok(())
    }

    /// Removes the file of a path, if there is one.
    pub fn unset(&mut self, path: &PathText)
        ensures { self.new ≡ record self.old { files = without_path path.now self.old.files } }
    {
        remove_path(&mut self.files, path);
    }

    /// How many calls of the trait there were; it stays at its last value.
    pub fn calls(&self) -> u64
        ensures { result ≡ self.now.calls }
    {
        self.calls
    }

    /// Counts a call.
    fn count(&mut self)
        ensures { self.new ≡ record self.old { calls = one_more self.old.calls } }
    {
        self.calls = self.calls.saturating_add(1);
    }

    /// Notes a question, and fails where this call is to fail.
    fn note(&mut self, question: Question) -> Result<(), TreeFault>
        ensures noted { Notes question (Some self.old.reads) (Some self.new.reads) result }
        ensures cause { HasCause self.old.faults self.new.faults result TreeFault.Failed }
        ensures fails { FailsWhereTold self.old.fails self.old.calls result TreeFault.Failed }
        ensures faults { CountsFaults self.old.faults self.new.faults result TreeFault.Failed }
        ensures others { self.new ≡ record self.old { faults = self.new.faults; reads = self.new.reads } }
    {
        self.reads.push(question)?;
        if self.fails.items().contains(&self.calls) {
            self.faults = self.faults.saturating_add(1);
            return Err(TreeFault::Failed);
        }
        Ok(())
    }
}

/// Removes each file of a path.
fn remove_path(files: &mut Vec<(PathText, List<u8>)>, path: &PathText)
    ensures { files.new.items ≡ without_path path.now files.old.items }
{
    files.retain(|file| file.0.text() != path.text());
}

impl Tree for MemTree {
    ghost contents = { λ t. Some (record { files = t.files; kept = [] }) };

    ghost faults = { λ t. t.faults };

    ghost reads = { λ t. Some t.reads };

    fn read(&mut self, path: &PathText) -> Result<FileAnswer, TreeFault>
        ensures told { IfOk result (λ a. read_answer a ≡ files_answer self.old.files (Question.Read path.now)) }
        ensures cause { HasCause self.old.faults self.new.faults result TreeFault.Failed }
        ensures noted { Notes (Question.Read path.now) (Some self.old.reads) (Some self.new.reads) result }
        ensures fails { FailsWhereTold self.old.fails (one_more self.old.calls) result TreeFault.Failed }
        ensures faults { CountsFaults self.old.faults self.new.faults result TreeFault.Failed }
        ensures others { self.new ≡ record self.old { calls = one_more self.old.calls; faults = self.new.faults; reads = self.new.reads } }
    {
        self.count();
        let question = Question::Read(path.copy(self.alloc)?);
        self.note(question)?;
        Ok(file_answer(self.alloc, &self.files, path)?)
    }

    fn list(&mut self, folder: &PathText) -> Result<Vec<PathText>, TreeFault>
        ensures told { IfOk result (λ ps. Paths ps.items ≡ files_answer self.old.files (Question.List folder.now)) }
        ensures cause { HasCause self.old.faults self.new.faults result TreeFault.Failed }
        ensures noted { Notes (Question.List folder.now) (Some self.old.reads) (Some self.new.reads) result }
        ensures fails { FailsWhereTold self.old.fails (one_more self.old.calls) result TreeFault.Failed }
        ensures faults { CountsFaults self.old.faults self.new.faults result TreeFault.Failed }
        ensures others { self.new ≡ record self.old { calls = one_more self.old.calls; faults = self.new.faults; reads = self.new.reads } }
    {
        self.count();
        let question = Question::List(folder.copy(self.alloc)?);
        self.note(question)?;
        Ok(headers_in(self.alloc, &self.files, folder)?)
    }
}
