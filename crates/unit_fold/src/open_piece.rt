ghost use Rattle.std.specs.Prelude.{◌≡◌, ◌<◌, ◌≤◌, ◌+◌, nat_lt, if◌then◌else◌, [], ◌∷◌, ◌++◌, length, ℕ, Some, None, List as Seq, MatchResult, IfOk};
ghost use Rattle.cm_core.specs.Tables.{Extends};
ghost use Rattle.c_lex.specs.Nexts.{GivesNext};
ghost use Rattle.c_lex.specs.Readings.{LexerState};
ghost use Rattle.unit_fold.specs.Owners.{has_tokens as has_tokens_of, most_tokens};
ghost use Rattle.unit_fold.specs.Opened.{IsNumbered, AreNumbered, token_in, tokens_in};
ghost use Rattle.unit_fold.specs.Reads.{fault_in, lexeme_by, next_as, next_by, token_next, GoesOn, IsFresh, LexedIsNumbered, LexedMoves, Takes};

use crate::at::At;
use crate::item::{FaultAt, FaultKind};
use crate::lexed::Lexed;
use c_lex::{LexFault, Lexer};
use c_parse::Cut;
use cm_core::{List, Names, NoMemory, Token, TokenKind};
use std::alloc::Global;
use std::marker::Model;
use std::mem;

/// The most tokens of an owner.
const MOST_TOKENS: u32 = 2_000_000;

/// The tokens of the piece that is open, and the names and the count of all tokens of the owner so far.
#[derive(Drop)]
pub(crate) struct OpenPiece {
    names: Names,
    tokens: List<Token>,
    cut: Cut,
    /// Line ends are not counted.
    taken: u32,
}

impl Model for OpenPiece {
    ghost use Rattle.unit_fold.specs.Opened.{Opened, IsSound};

    ghost Value = { Opened };

    ghost view = { λ o. record { names = o.names; tokens = o.tokens; taken = o.taken } };

    ghost invariant = { λ o. IsSound o.names o.tokens o.cut o.taken };
}

/// Reads a token, with a header name first where that is wanted.
fn lex(lexer: &mut Lexer, names: &mut Names, is_header: bool) -> Result<Option<Token>, LexFault>
    requires { IsFresh lexer.old }
    ensures gives { GivesNext (lexeme_by is_header lexer.old.text lexer.old.at) lexer.old lexer.new names.new result }
    ensures names { Extends names.old names.new }
{
    if is_header {
        lexer.next_header(names)
    } else {
        lexer.next(names)
    }
}

/// A lexer's fault as a diagnostic.
fn fault(error: LexFault) -> Result<FaultAt, NoMemory>
    ensures { MatchResult result (λ told. fault_in error ≡ Some told) (λ _. fault_in error ≡ None) }
{
    let (place, kind) = match error {
        LexFault::Unclosed(place) => (place, FaultKind::Unclosed),
        LexFault::BadByte(place) => (place, FaultKind::BadByte),
        LexFault::LongName(place) => (place, FaultKind::LongName),
        LexFault::NoMemory => return Err(NoMemory),
    };
    Ok(FaultAt {
        at: At::of(place),
        kind,
    })
}

fn lexed(token: Token) -> Lexed
    ensures next { (names : Seq (Seq ℕ)) (to : ℕ) → next_as names to result ≡ token_next names to token }
    ensures numbered { (names : Seq (Seq ℕ)) → IsNumbered names token → LexedIsNumbered names result }
    ensures moves { (old new : LexerState) → GoesOn old new → LexedMoves old new result }
{
    match token.kind {
        TokenKind::LineEnd => Lexed::LineEnd,
        _ => Lexed::Token(token),
    }
}

impl OpenPiece {
    pub(crate) fn new(alloc: Global) -> OpenPiece
        ensures { result ≡ record { names = []; tokens = []; taken = 0 } }
    {
        OpenPiece {
            names: Names::new(alloc),
            tokens: List::new(alloc),
            cut: Cut::new(),
            taken: 0,
        }
    }

    pub(crate) fn has_tokens(&self) -> bool
        ensures { result ≡ has_tokens_of (tokens_in self.now.names self.now.tokens) }
    {
        !self.tokens.items().is_empty()
    }

    /// The spelling of a token.
    pub(crate) fn text(&self, token: &Token) -> &str
        requires { IsNumbered self.now.names token.now }
        ensures { result.now ≡ (token_in self.now.names token.now).text }
    {
        self.names.text(token.name)
    }

    /// Reads the next token of a text, with a header name first where that is wanted.
    pub(crate) fn read(&mut self, lexer: &mut Lexer, is_header: bool) -> Result<Lexed, NoMemory>
        requires { IsFresh lexer.old }
        ensures read { IfOk result (λ lexed. next_by is_header lexer.old.text lexer.old.at ≡ next_as self.new.names lexer.new.at lexed) }
        ensures numbered { IfOk result (LexedIsNumbered self.new.names) }
        ensures piece { tokens_in self.new.names self.new.tokens ≡ tokens_in self.old.names self.old.tokens }
        ensures taken { self.new.taken ≡ self.old.taken }
        ensures few { length self.new.tokens ≤ self.new.taken }
        ensures moves { IfOk result (LexedMoves lexer.old lexer.new) }
    {
        match lex(lexer, &mut self.names, is_header) {
            Ok(None) => Ok(Lexed::End),
            Ok(Some(token)) => Ok(lexed(token)),
            Err(error) => Ok(Lexed::Fault(fault(error)?)),
        }
    }

    /// Counts a token, unless it is past the most; tells whether it isn't.
    #[tactic(auto, unfolding(crate::specs::Owners::most_tokens))]
    pub(crate) fn count(&mut self) -> bool
        ensures counted { result ≡ nat_lt self.old.taken most_tokens }
        ensures piece { self.new ≡ (if result then record self.old { taken = self.old.taken + 1 } else self.old) }
    {
        if self.taken >= MOST_TOKENS {
            return false;
        }
        self.taken += 1;
        true
    }

    /// Takes a token; gives the whole piece where it ends there.
    pub(crate) fn take(
        &mut self,
        alloc: Global,
        token: Token,
    ) -> Result<Option<List<Token>>, NoMemory>
        requires numbered { IsNumbered self.old.names token }
        requires counted { length self.old.tokens < self.old.taken }
        ensures piece { IfOk result (Takes (tokens_in self.old.names self.old.tokens ++ token_in self.old.names token ∷ []) self.new) }
        ensures names { self.new.names ≡ self.old.names }
        ensures taken { self.new.taken ≡ self.old.taken }
    {
        self.tokens.push(token)?;
        if !self.cut.take(&token, &self.names) {
            return Ok(None);
        }
        Ok(Some(mem::replace(&mut self.tokens, List::new(alloc))))
    }

    /// Ends the open piece, and gives its tokens.
    pub(crate) fn close(&mut self, alloc: Global) -> List<Token>
        ensures tokens { result ≡ self.old.tokens }
        ensures numbered { AreNumbered self.old.names result }
        ensures piece { self.new ≡ record self.old { tokens = [] } }
    {
        self.cut = Cut::new();
        mem::replace(&mut self.tokens, List::new(alloc))
    }
}
