ghost use Rattle.std.specs.Prelude.{◌≡◌, ◌≤◌, length, ℕ, Bool, true, false, List as Seq, IfOk};
ghost use Rattle.unit_fold.specs.Tokens.{TokenAt, Gives};
ghost use Rattle.unit_fold.specs.Owners.{Reading, SoFar, directive as directive_of, include_end as include_end_of, include_line as include_line_of, reads, stops};
ghost use Rattle.unit_fold.specs.Opened.{IsNumbered, token_in};
ghost use Rattle.unit_fold.specs.Reads.{next_by, step_as, taken_as, TakenFits, TakenMoves, DirectiveMoves, GoesOn, IsFresh};
ghost use Rattle.unit_fold.specs.Told.{told};
ghost use Rattle.c_lex.specs.Readings.{LexerState};

use crate::at::At;
use crate::item::{FaultKind, Item};
use crate::lexed::{Include, Lexed, Step, Taken};
use crate::progress::Progress;
use c_lex::Lexer;
use cm_core::{NoMemory, Str, Token};
use std::alloc::Global;

impl Progress {
    /// Counts a token; before the one past the most the owner ends.
    fn count(&mut self, alloc: Global, token: Token) -> Result<Taken, NoMemory>
        requires numbered { IsNumbered self.old.piece.names token }
        requires few { length self.old.piece.tokens ≤ self.old.piece.taken }
        ensures taken { IfOk result (λ taken. (at : ℕ) (none : SoFar → Reading) (line : SoFar → ℕ → Reading) (more : SoFar → TokenAt → ℕ → Reading) → reads (told self.old) (Gives (token_in self.old.piece.names token) at) none line more ≡ taken_as self.new.piece.names (told self.new) at taken none line more) }
        ensures fits { IfOk result (TakenFits self.new.piece) }
        ensures moves { IfOk result (λ taken. (old new : LexerState) → GoesOn old new → TakenMoves old new taken) }
    {
        if self.piece.count() {
            return Ok(Taken::Token(token));
        }
        self.end(alloc, At::of(token.place), FaultKind::ManyTokens)?;
        Ok(Taken::OwnerEnds)
    }

    /// Reads the next token of a text, with a header name first where that is wanted.
    pub(crate) fn next(
        &mut self,
        alloc: Global,
        lexer: &mut Lexer,
        is_header: bool,
    ) -> Result<Taken, NoMemory>
        requires { IsFresh lexer.old }
        ensures taken { IfOk result (λ taken. (none : SoFar → Reading) (line : SoFar → ℕ → Reading) (more : SoFar → TokenAt → ℕ → Reading) → reads (told self.old) (next_by is_header lexer.old.text lexer.old.at) none line more ≡ taken_as self.new.piece.names (told self.new) lexer.new.at taken none line more) }
        ensures fits { IfOk result (TakenFits self.new.piece) }
        ensures moves { IfOk result (TakenMoves lexer.old lexer.new) }
    {
        match self.piece.read(lexer, is_header)? {
            Lexed::End => Ok(Taken::End),
            Lexed::Fault(fault) => {
                self.add(Item::Fault(fault))?;
                Ok(Taken::FileEnds)
            }
            Lexed::LineEnd => Ok(Taken::LineEnd),
            Lexed::Token(token) => self.count(alloc, token),
        }
    }

    /// Ends the owner at a directive that isn't built.
    fn stop(&mut self, alloc: Global, hash: At) -> Result<Step, NoMemory>
        ensures step { IfOk result (λ step. (at : ℕ) (more : Bool → SoFar → ℕ → Reading) → stops (told self.old) hash ≡ step_as (told self.new) at step more) }
        ensures moves { IfOk result (λ step. (old : LexerState) → DirectiveMoves old step) }
    {
        self.end(alloc, hash, FaultKind::NotBuilt)?;
        Ok(Step::Stops)
    }

    /// Goes on where a directive has something else than what it needs next.
    fn otherwise(&mut self, alloc: Global, hash: At, taken: Taken) -> Result<Step, NoMemory>
        ensures step { IfOk result (λ step. (at to : ℕ) (names : Seq (Seq ℕ)) (more : Bool → SoFar → ℕ → Reading) → taken_as names (told self.old) at taken (λ p. stops p hash) (λ p next. stops p hash) (λ p t next. stops p hash) ≡ step_as (told self.new) to step more) }
        ensures moves { IfOk result (λ step. (old : LexerState) → DirectiveMoves old step) }
    {
        match taken {
            Taken::FileEnds => Ok(Step::Ends),
            Taken::OwnerEnds => Ok(Step::Stops),
            Taken::End | Taken::LineEnd | Taken::Token(_) => self.stop(alloc, hash),
        }
    }

    /// Goes on behind the name of an include, where the line has to end.
    fn include_end(
        &mut self,
        alloc: Global,
        hash: At,
        name: Str,
        lexer: &mut Lexer,
    ) -> Result<Step, NoMemory>
        requires { IsFresh lexer.old }
        ensures step { IfOk result (λ step. (more : Bool → SoFar → ℕ → Reading) → include_end_of lexer.old.text (told self.old) hash name lexer.old.at (more true) ≡ step_as (told self.new) lexer.new.at step more) }
        ensures moves { IfOk result (DirectiveMoves lexer.old) }
    {
        match self.next(alloc, lexer, false)? {
            Taken::End => Ok(Step::Includes(Include {
                name,
                at: hash,
                next: lexer.at(),
            })),
            Taken::LineEnd => Ok(Step::Includes(Include {
                name,
                at: hash,
                next: lexer.at(),
            })),
            taken => self.otherwise(alloc, hash, taken),
        }
    }

    /// Goes on behind `#include`, where a header name has to stand.
    fn include_line(&mut self, alloc: Global, hash: At, lexer: &mut Lexer) -> Result<Step, NoMemory>
        requires { IsFresh lexer.old }
        ensures step { IfOk result (λ step. (more : Bool → SoFar → ℕ → Reading) → include_line_of lexer.old.text (told self.old) hash lexer.old.at (more true) ≡ step_as (told self.new) lexer.new.at step more) }
        ensures moves { IfOk result (DirectiveMoves lexer.old) }
    {
        match self.next(alloc, lexer, true)? {
            Taken::Token(token) => match self.piece.quoted(&token) {
                Some(name) => {
                    let name = Str::read(alloc, name)?;
                    self.include_end(alloc, hash, name, lexer)
                }
                None => self.stop(alloc, hash),
            },
            taken => self.otherwise(alloc, hash, taken),
        }
    }

    /// Goes on behind a `#` that begins a directive.
    pub(crate) fn directive(
        &mut self,
        alloc: Global,
        hash: At,
        lexer: &mut Lexer,
    ) -> Result<Step, NoMemory>
        requires { IsFresh lexer.old }
        ensures step { IfOk result (λ step. (more : Bool → SoFar → ℕ → Reading) → directive_of lexer.old.text (told self.old) hash lexer.old.at (more true) ≡ step_as (told self.new) lexer.new.at step more) }
        ensures moves { IfOk result (DirectiveMoves lexer.old) }
    {
        if self.piece.has_tokens() {
            return self.stop(alloc, hash);
        }
        match self.next(alloc, lexer, false)? {
            Taken::Token(word) => {
                if self.piece.is_word(&word, "include") {
                    self.include_line(alloc, hash, lexer)
                } else {
                    self.stop(alloc, hash)
                }
            }
            taken => self.otherwise(alloc, hash, taken),
        }
    }
}
