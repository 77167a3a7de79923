ghost use Rattle.std.specs.Prelude.{◌≡◌, ℕ, ◌-◌, Bool, true, false, length, IfOk};
ghost use Rattle.c_lex.specs.Readings.{IsPlace};
ghost use Rattle.unit_fold.specs.Owners.{Reading, SoFar, included as included_of, read_on as reading_of, read_text, token_step};
ghost use Rattle.unit_fold.specs.Steps.{after_stage, LeavesLess};
ghost use Rattle.unit_fold.specs.Reads.{goes_or_ends, step_as, text_as, IsFresh, StepMoves, TextMoves, Pauses};
ghost use Rattle.unit_fold.specs.Told.{told};
ghost use Rattle.unit_fold.specs.declared.fold.Stage.TheVariants.{WaitsForText, WaitsAtInclude};
ghost use Rattle.unit_fold.specs.declared.include_at.IncludeAt.{IncludeAt as AnInclude};

use crate::at::At;
use crate::fold::{Event, Pause, Stage};
use crate::given::Given;
use crate::include_at::IncludeAt;
use crate::item::FaultKind;
use crate::lexed::{Step, Taken, TextEnd};
use crate::progress::Progress;
use c_lex::Lexer;
use cm_core::{FileNo, NoMemory, Owner, PathText};
use cm_source::{Text, TextFault};
use std::alloc::Global;

/// The number of an owner's file, the only one that its places are in.
const FILE: FileNo = FileNo { index: 0 };

impl Progress {
    /// Goes on by what an include at this place is translated to; tells whether the owner goes on after it.
    fn included(&mut self, alloc: Global, at: At, given: Given) -> Result<bool, NoMemory>
        ensures { IfOk result (λ goes. (more : SoFar → Reading) → included_of (told self.old) at given more ≡ goes_or_ends goes (told self.new) more) }
    {
        match given {
            Given::Imported(imported, names) => self.import(alloc, at, imported, names),
            Given::Refused(kind) => {
                self.add_fault(at, kind)?;
                Ok(true)
            }
            Given::Skip => Ok(true),
            Given::NotBuilt | Given::Again | Given::Text(..) => {
                self.end(alloc, at, FaultKind::NotBuilt)?;
                Ok(false)
            }
        }
    }

    /// Goes on by the next token of a text, which may be the first of its line.
    fn token(
        &mut self,
        alloc: Global,
        owner: Owner,
        lexer: &mut Lexer,
        is_first: bool,
    ) -> Result<Step, NoMemory>
        requires { IsFresh lexer.old }
        ensures step { IfOk result (λ step. (more : Bool → SoFar → ℕ → Reading) → token_step owner lexer.old.text is_first (told self.old) lexer.old.at more ≡ step_as (told self.new) lexer.new.at step more) }
        ensures moves { IfOk result (StepMoves lexer.old lexer.new) }
    {
        match self.next(alloc, lexer, false)? {
            Taken::End => Ok(Step::Ends),
            Taken::FileEnds => Ok(Step::Ends),
            Taken::OwnerEnds => Ok(Step::Stops),
            Taken::LineEnd => Ok(Step::Goes(true)),
            Taken::Token(token) => {
                if self.piece.begins_directive(&token, is_first) {
                    return self.directive(alloc, At::of(token.place), lexer);
                }
                self.take(alloc, owner, token)?;
                Ok(Step::Goes(false))
            }
        }
    }

    /// Goes on by the tokens of a text from byte `next` on, where a line begins.
    fn read_tokens(
        &mut self,
        alloc: Global,
        owner: Owner,
        text: &Text,
        next: usize,
    ) -> Result<TextEnd, NoMemory>
        requires { IsPlace text.now next }
        ensures end { IfOk result (λ end. reading_of owner text.now true (told self.old) next ≡ text_as owner text.now (told self.new) end) }
        ensures moves { IfOk result (TextMoves text.now next) }
    {
        let mut lexer = Lexer::resume(text, FILE, next);
        let mut is_first = true;
        loop {
            match self.token(alloc, owner, &mut lexer, is_first)? {
                Step::Goes(begins_line) => is_first = begins_line,
                Step::Ends => return Ok(TextEnd::Ends),
                Step::Stops => return Ok(TextEnd::Stops),
                Step::Includes(include) => return Ok(TextEnd::Includes(include)),
            }
        }
    }

    /// Goes on in a text from byte `next` on, up to the next need or the end.
    fn read_on(
        &mut self,
        alloc: Global,
        owner: Owner,
        text: Text,
        next: usize,
    ) -> Result<Pause, NoMemory>
        requires { IsPlace text next }
        ensures pauses { IfOk result (Pauses (reading_of owner text true (told self.old) next) owner (told self.new)) }
        ensures shorter { IfOk result (λ pause. LeavesLess (length text.bytes - next) pause.stage) }
    {
        match self.read_tokens(alloc, owner, &text, next)? {
            TextEnd::Ends => Ok(Pause::for_text()),
            TextEnd::Stops => Ok(Pause::at_end()),
            TextEnd::Includes(include) => {
                let stage = Stage::WaitsAtInclude(IncludeAt {
                    at: include.at,
                    text,
                    next: include.next,
                });
                let event = Event::NeedInclude(include.name, include.at);
                Ok(Pause { event, stage })
            }
        }
    }

    /// Goes on by a file.
    fn enter(
        &mut self,
        alloc: Global,
        owner: Owner,
        bytes: &[u8],
        path: PathText,
    ) -> Result<Pause, NoMemory>
        ensures { IfOk result (Pauses (read_text owner (told self.old) path bytes.now) owner (told self.new)) }
    {
        match Text::read(alloc, bytes) {
            Ok(text) => {
                self.entered.push(path)?;
                self.read_on(alloc, owner, text, 0)
            }
            Err(TextFault::NotUtf8(at)) => {
                self.add_fault(At::start(), FaultKind::NotUtf8(at))?;
                Ok(Pause::for_text())
            }
            Err(TextFault::NoMemory) => Err(NoMemory),
        }
    }

    /// Goes on by what the owner's next file is.
    fn begin_text(&mut self, alloc: Global, owner: Owner, given: Given) -> Result<Pause, NoMemory>
        ensures { IfOk result (Pauses (after_stage owner (told self.old) WaitsForText given) owner (told self.new)) }
    {
        match given {
            Given::Text(bytes, path) => self.enter(alloc, owner, bytes.items(), path),
            Given::Refused(kind) => {
                self.add_fault(At::start(), kind)?;
                Ok(Pause::for_text())
            }
            _ => {
                self.close(alloc, owner)?;
                Ok(Pause::at_end())
            }
        }
    }

    /// Goes on behind an include by what it is translated to.
    fn go_on(
        &mut self,
        alloc: Global,
        owner: Owner,
        at: IncludeAt,
        given: Given,
    ) -> Result<Pause, NoMemory>
        ensures pauses { IfOk result (Pauses (after_stage owner (told self.old) (WaitsAtInclude at) given) owner (told self.new)) }
        ensures shorter { IfOk result (λ pause. LeavesLess (length at.text.bytes - at.next) pause.stage) }
    {
        if self.included(alloc, at.at, given)? {
            self.read_on(alloc, owner, at.text, at.next)
        } else {
            Ok(Pause::at_end())
        }
    }

    /// Goes on from where a fold stands, up to the next need or the end.
    pub(crate) fn step(
        &mut self,
        alloc: Global,
        owner: Owner,
        stage: Stage,
        given: Given,
    ) -> Result<Pause, NoMemory>
        ensures pauses { IfOk result (Pauses (after_stage owner (told self.old) stage given) owner (told self.new)) }
        ensures shorter { IfOk result (λ pause. (at : AnInclude) → stage ≡ WaitsAtInclude at → LeavesLess (length at.text.bytes - at.next) pause.stage) }
    {
        match stage {
            Stage::Begins => Ok(Pause::for_text()),
            Stage::WaitsForText => self.begin_text(alloc, owner, given),
            Stage::WaitsAtInclude(at) => self.go_on(alloc, owner, at, given),
            Stage::IsDone | Stage::IsSpent => Ok(Pause::at_end()),
        }
    }
}
