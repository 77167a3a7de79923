ghost use Rattle.std.specs.Prelude.{◌≡◌, [], Some};
ghost use Rattle.cm_outside.specs.InMemory.{PlainTree};

use crate::files::{file_answer, headers_in};
use crate::{FileAnswer, Question, Tree, TreeFault};
use cm_core::{List, PathText};
use std::alloc::Global;
use std::marker::Model;

/// A tree in memory that never fails but for want of memory.
#[derive(Drop)]
pub struct SureTree {
    alloc: Global,
    files: Vec<(PathText, List<u8>)>,
    reads: List<Question>,
}

impl Model for SureTree {
    ghost Value = { PlainTree };

    ghost view = { λ t. record { files = t.files.items; reads = t.reads } };
}

impl SureTree {
    /// A tree of these files; of a path that stands more than once the last counts.
    pub fn new(alloc: Global, files: List<(PathText, List<u8>)>) -> SureTree
        ensures { result ≡ record { files = files; reads = [] } }
    {
        SureTree {
            alloc,
            files: files.into_vec(),
            reads: List::new(alloc),
        }
    }
}

impl Tree for SureTree {
    ghost contents = { λ t. Some (record { files = t.files; kept = [] }) };

    ghost faults = { λ _. 0 };

    ghost reads = { λ t. Some t.reads };

    fn read(&mut self, path: &PathText) -> Result<FileAnswer, TreeFault> {
        self.reads.push(Question::Read(path.copy(self.alloc)?))?;
        Ok(file_answer(self.alloc, &self.files, path)?)
    }

    fn list(&mut self, folder: &PathText) -> Result<Vec<PathText>, TreeFault> {
        self.reads.push(Question::List(folder.copy(self.alloc)?))?;
        Ok(headers_in(self.alloc, &self.files, folder)?)
    }
}
