ghost use Rattle.std.specs.Prelude.{◌≡◌, ◌≤◌, false, MatchResult, slice_range};
ghost use Rattle.std.specs.Str.{IsCharBoundary};
ghost use Rattle.cm_core.specs.Tables.{number_of, numbered};
ghost use Rattle.c_lex.specs.Tokens.{next_at};
ghost use Rattle.c_lex.specs.Readings.{fault_of, IsPlace, IsReading, place_in, LexerState, next_of, spelling_of, token_of};

use crate::find::{Found, Mode, Spelled, next_at};
use crate::refusal::{Cause, Refusal};
use cm_core::{FileNo, Names, NoMemory, Place, Token};
use cm_source::Text;
use std::marker::Model;

/// Why a lexer gives no further token.
#[derive(Clone, Copy, Debug, PartialEq, Eq)]
pub enum LexFault {
    /// The block comment that begins at the place isn't closed.
    Unclosed(Place),
    /// At the place stands a zero byte, maybe within a comment or a literal.
    BadByte(Place),
    /// The identifier that begins at the place has more than 4096 bytes.
    LongName(Place),
    NoMemory,
}

/// Gives the preprocessing tokens of a text, one after another, line ends among them. Comments and
/// other white space only make the next token spaced, as a line end does.
///
/// After a fault, and after want of memory, it is spent and gives nothing.
#[derive(Drop)]
pub struct Lexer<'a> {
    text: &'a Text,
    file: FileNo,
    at: usize,
    spent: bool,
}

impl<'a> Model for Lexer<'a> {
    ghost use Rattle.c_lex.specs.Readings.{IsPlace, LexerState};

    ghost Value = { LexerState };

    ghost view = { λ l. record { text = l.text.now; file = l.file; at = l.at; spent = l.spent } };

    ghost invariant = { λ l. IsPlace l.text.now l.at };
}

fn place_in(text: &Text, file: FileNo, at: usize) -> Place
    ensures { result ≡ place_in text.now file at }
{
    let (line, col) = text.place(at);
    Place { file, line, col }
}

fn fault_of(text: &Text, file: FileNo, refusal: Refusal) -> LexFault
    ensures { result ≡ fault_of text.now file refusal }
{
    let place = place_in(text, file, refusal.at);
    match refusal.cause {
        Cause::Unclosed => LexFault::Unclosed(place),
        Cause::BadByte => LexFault::BadByte(place),
        Cause::LongName => LexFault::LongName(place),
    }
}

/// The bytes of the text from number `from` up to `to`.
fn spelling_of(text: &Text, from: usize, to: usize) -> &str
    requires order { from ≤ to }
    requires from { IsCharBoundary (text.now).bytes from }
    requires to { IsCharBoundary (text.now).bytes to }
    ensures { result.now ≡ slice_range (text.now).bytes from to }
{
    &text.as_str()[from..to]
}

fn token_of(
    text: &Text,
    file: FileNo,
    spelled: Spelled,
    names: &mut Names,
) -> Result<Token, NoMemory>
    requires order { spelled.from ≤ spelled.to }
    requires from { IsCharBoundary (text.now).bytes spelled.from }
    requires to { IsCharBoundary (text.now).bytes spelled.to }
    ensures { MatchResult result
        (λ token. (token ≡ token_of text.now file spelled (number_of names.old (spelling_of text.now spelled)))
        × (names.new ≡ numbered names.old (spelling_of text.now spelled)))
        (λ _. names.new ≡ names.old) }
{
    let spelling = spelling_of(text, spelled.from, spelled.to);
    let place = place_in(text, file, spelled.from);
    let name = names.number(spelling)?;
    Ok(Token {
        kind: spelled.kind,
        name,
        place,
        spaced: spelled.spaced,
    })
}

impl<'a> Lexer<'a> {
    /// A lexer at the start of the text, which is that of the file.
    pub fn new(text: &'a Text, file: FileNo) -> Lexer<'a>
        ensures { result ≡ record { text = text.now; file = file; at = 0; spent = false } }
    {
        Lexer {
            text,
            file,
            at: 0,
            spent: false,
        }
    }

    /// A lexer that stands at `at` and goes on as the one that gave it by its `at`.
    pub fn resume(text: &'a Text, file: FileNo, at: usize) -> Lexer<'a>
        requires { IsPlace text.now at }
        ensures { result ≡ record { text = text.now; file = file; at = at; spent = false } }
    {
        Lexer {
            text,
            file,
            at,
            spent: false,
        }
    }

    /// The number of the text's byte that the lexer stands at, from 0: after the last token it gave.
    pub fn at(&self) -> usize
        ensures at { result ≡ (self.now).at }
        ensures place { IsPlace (self.now).text result }
    {
        self.at
    }

    /// The next token, or None at the end of the text.
    pub fn next(&mut self, names: &mut Names) -> Result<Option<Token>, LexFault>
        ensures read { IsReading (next_of Mode.Plain self.old) self.old self.new names.old names.new result }
        ensures text { (self.new).text ≡ (self.old).text }
    {
        self.read(names, Mode::Plain)
    }

    /// As `next`, but `<..>` and `".."` are read as a header name.
    pub fn next_header(&mut self, names: &mut Names) -> Result<Option<Token>, LexFault>
        ensures read { IsReading (next_of Mode.Header self.old) self.old self.new names.old names.new result }
        ensures text { (self.new).text ≡ (self.old).text }
    {
        self.read(names, Mode::Header)
    }

    fn read(&mut self, names: &mut Names, mode: Mode) -> Result<Option<Token>, LexFault>
        ensures read { IsReading (next_of mode self.old) self.old self.new names.old names.new result }
        ensures text { (self.new).text ≡ (self.old).text }
    {
        if self.spent {
            return Ok(None);
        }
        match next_at(self.text.bytes(), self.at, mode) {
            Found::End => Ok(None),
            Found::Refused(refusal) => {
                self.spent = true;
                Err(fault_of(self.text, self.file, refusal))
            }
            Found::Named(spelled) => match token_of(self.text, self.file, spelled, names) {
                Ok(token) => {
                    self.at = spelled.to;
                    Ok(Some(token))
                }
                Err(NoMemory) => {
                    self.spent = true;
                    Err(LexFault::NoMemory)
                }
            },
        }
    }
}
