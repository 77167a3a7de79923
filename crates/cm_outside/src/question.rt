ghost use Rattle.std.specs.Prelude.{◌≡◌, IfOk};
ghost use Rattle.cm_outside.specs.Trees.{read_answer, same_question};
ghost use Rattle.cm_outside.specs.Keeping.{path_asked};

use cm_core::{List, NoMemory, PathText};
use std::alloc::Global;

/// A question to a tree of files.
#[derive(Debug, Drop)]
pub enum Question {
    /// The file of a path.
    Read(PathText),
    /// The headers in a folder and in all folders below it.
    List(PathText),
}

impl Question {
    /// The path of the file or the folder.
    pub fn path(&self) -> &PathText
        ensures { result.now ≡ path_asked self.now }
    {
        match self {
            Question::Read(path) | Question::List(path) => path,
        }
    }

    pub fn is(&self, other: &Question) -> bool
        ensures { result ≡ same_question self.now other.now }
    {
        match (self, other) {
            (Question::Read(path), Question::Read(other)) => path == other,
            (Question::List(folder), Question::List(other)) => folder == other,
            _ => false,
        }
    }

    pub fn copy(&self, alloc: Global) -> Result<Question, NoMemory>
        ensures { IfOk result (λ copied. copied ≡ self.now) }
    {
        match self {
            Question::Read(path) => Ok(Question::Read(path.copy(alloc)?)),
            Question::List(folder) => Ok(Question::List(folder.copy(alloc)?)),
        }
    }
}

/// The answer to a [`Question`].
#[derive(Debug, Drop)]
pub enum Answer {
    /// No regular file has the path.
    Absent,
    /// The bytes of the file.
    Bytes(List<u8>),
    /// The size, in bytes, of a file that is too large to be read.
    TooLarge(u64),
    /// The paths of the headers, in byte order.
    Paths(List<PathText>),
}

impl Answer {
    pub fn copy(&self, alloc: Global) -> Result<Answer, NoMemory>
        ensures { IfOk result (λ copied. copied ≡ self.now) }
    {
        match self {
            Answer::Absent => Ok(Answer::Absent),
            Answer::Bytes(bytes) => Ok(Answer::Bytes(bytes.copy(alloc)?)),
            Answer::TooLarge(size) => Ok(Answer::TooLarge(*size)),
            Answer::Paths(paths) => Ok(Answer::Paths(paths.copy(alloc)?)),
        }
    }
}

/// A question with the answer that was given.
#[derive(Debug, Drop)]
pub struct Record {
    pub question: Question,
    pub answer: Answer,
}

impl Record {
    pub fn copy(&self, alloc: Global) -> Result<Record, NoMemory>
        ensures { IfOk result (λ copied. copied ≡ self.now) }
    {
        Ok(Record {
            question: self.question.copy(alloc)?,
            answer: self.answer.copy(alloc)?,
        })
    }
}

/// What a tree answers to a path.
#[derive(Debug, Drop)]
pub enum FileAnswer {
    /// The bytes of the file, at most 16,777,216.
    Bytes(List<u8>),
    /// No regular file has the path.
    Absent,
    /// The size, in bytes, of a file that is too large to be read.
    TooLarge(u64),
}

impl FileAnswer {
    pub fn into_answer(self) -> Answer
        ensures { result ≡ read_answer self }
    {
        match self {
            FileAnswer::Bytes(bytes) => Answer::Bytes(bytes),
            FileAnswer::Absent => Answer::Absent,
            FileAnswer::TooLarge(size) => Answer::TooLarge(size),
        }
    }

    pub fn copy(&self, alloc: Global) -> Result<FileAnswer, NoMemory>
        ensures { IfOk result (λ copied. copied ≡ self.now) }
    {
        match self {
            FileAnswer::Bytes(bytes) => Ok(FileAnswer::Bytes(bytes.copy(alloc)?)),
            FileAnswer::Absent => Ok(FileAnswer::Absent),
            FileAnswer::TooLarge(size) => Ok(FileAnswer::TooLarge(*size)),
        }
    }
}
