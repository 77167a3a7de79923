ghost use Rattle.std.specs.Prelude.{◌≡◌, ◌⊎◌, ℕ, List as Seq, [], ◌∷◌, ◌++◌, IfOk, Option as Maybe};
ghost use Rattle.cm_outside.specs.Trees.{Contents, answer, read_answer};
ghost use Rattle.cm_outside.specs.Reads.{Notes};
ghost use Rattle.cm_outside.specs.Faults.{HasCause};
ghost use Rattle.cm_outside.specs.declared.question.Question.{Question as Asked};
ghost use Rattle.cm_outside.specs.declared.question.Answer.TheVariants.{Paths};

use crate::{FileAnswer, Question};
use cm_core::{NoMemory, PathText};
use std::alloc::{AllocError, AllocFailed};
use thiserror::Error;

/// Why a tree gave no answer.
#[derive(Clone, Copy, Debug, Error, PartialEq, Eq)]
pub enum TreeFault {
    #[error("the tree could not be read")]
    Failed,
    #[error("out of memory")]
    NoMemory,
}

impl From<NoMemory> for TreeFault {
    ghost use Rattle.cm_outside.specs.declared.tree.TreeFault.TheVariants.{NoMemory as NoRoom};

    ghost from_gives = { λ _ e. e ≡ NoRoom };

    fn from(_error: NoMemory) -> TreeFault {
        TreeFault::NoMemory
    }
}

impl From<AllocError> for TreeFault {
    ghost use Rattle.cm_outside.specs.declared.tree.TreeFault.TheVariants.{NoMemory as NoRoom};

    ghost from_gives = { λ _ e. e ≡ NoRoom };

    fn from(_error: AllocError) -> TreeFault {
        TreeFault::NoMemory
    }
}

impl<T: Drop> From<AllocFailed<T>> for TreeFault {
    ghost use Rattle.cm_outside.specs.declared.tree.TreeFault.TheVariants.{NoMemory as NoRoom};

    ghost from_gives = { λ _ e. e ≡ NoRoom };

    fn from(_error: AllocFailed<T>) -> TreeFault {
        TreeFault::NoMemory
    }
}

/// A tree of files. No call changes its files.
pub trait Tree {
    // The files, where the tree tells them.
    ghost contents: { Self → Maybe Contents };

    // How often it failed.
    ghost faults: { Self → ℕ };

    // The questions put to it so far, where it tells them.
    ghost reads: { Self → Maybe (Seq Asked) };

    /// The file of a path: its bytes, its size where it has more than 16,777,216 bytes, or that no
    /// regular file has the path.
    fn read(&mut self, path: &PathText) -> Result<FileAnswer, TreeFault>
        ensures told { (t : Contents) → contents self.old ≡ Some t → IfOk result (λ a. read_answer a ≡ answer t (Question.Read path.now)) }
        ensures kept { contents self.new ≡ contents self.old }
        ensures cause { HasCause (faults self.old) (faults self.new) result TreeFault.Failed }
        ensures noted { Notes (Question.Read path.now) (reads self.old) (reads self.new) result };

    /// The paths that end in `.h` in a folder and in all folders below it, in byte order. An absent
    /// folder has none.
    fn list(&mut self, folder: &PathText) -> Result<Vec<PathText>, TreeFault>
        ensures told { (t : Contents) → contents self.old ≡ Some t → IfOk result (λ ps. Paths ps.items ≡ answer t (Question.List folder.now)) }
        ensures kept { contents self.new ≡ contents self.old }
        ensures cause { HasCause (faults self.old) (faults self.new) result TreeFault.Failed }
        ensures noted { Notes (Question.List folder.now) (reads self.old) (reads self.new) result };
}
