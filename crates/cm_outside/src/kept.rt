ghost use Rattle.std.specs.Prelude.{◌≡◌};
ghost use Rattle.std.specs.Cmp.{partial_equiv_from_equiv};
ghost use Rattle.std.specs.Hash as fed;
ghost use Rattle.cm_outside.specs.Keeping.{answered, path_asked, same_asked};
ghost use Rattle.cm_outside.specs.QuestionLaws.{same_asked_equiv, same_asked_fed};

use crate::{Answer, Question, Record};
use std::hash::{Hash, Hasher};
use std::marker::Model;

/// A record that is told from others by its question alone, so that it is found by it.
#[derive(Debug, Drop)]
pub(crate) struct Kept {
    record: Record,
}

impl Model for Kept {
    ghost use Rattle.cm_outside.specs.declared.question.Record.{Record};

    ghost Value = { Record };

    ghost view = { λ k. k.record };
}

impl Kept {
    pub(crate) fn new(question: Question, answer: Answer) -> Kept
        ensures { result ≡ answered question answer }
    {
        Kept {
            record: Record { question, answer },
        }
    }

    pub(crate) fn record(&self) -> &Record
        ensures { result.now ≡ self.now }
    {
        &self.record
    }

    pub(crate) fn set_answer(&mut self, answer: Answer)
        ensures { self.new ≡ answered self.old.question answer }
    {
        self.record.answer = answer;
    }
}

impl PartialEq for Kept {
    ghost eq = { same_asked };

    ghost laws = { partial_equiv_from_equiv same_asked_equiv };

    fn eq(&self, other: &Kept) -> bool {
        self.record.question.is(&other.record.question)
    }
}

impl Eq for Kept {
    ghost laws = { same_asked_equiv };
}

impl Hash for Kept {
    ghost hash_input = { λ k. fed.str (path_asked k.question) };

    ghost respects_eq = { same_asked_fed };

    fn hash<H: Hasher>(&self, state: &mut H) {
        self.record.question.path().hash(state);
    }
}
