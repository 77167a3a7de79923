ghost use Rattle.std.specs.Prelude.{◌≡◌, ◌<◌, length, OnOk};
ghost use Rattle.map_grammar.specs.Readers.{Took, begins, made, token};
ghost use Rattle.map_grammar.specs.Grammar.{is, is_name};
ghost use Rattle.map_grammar.specs.MapReaders.{is_dotted, is_end, is_inside, name, sees, star, string};

use crate::names::Named;
use crate::refusal::Refusal;
use crate::word::Word;
use cm_core::Place;
use std::alloc::Global;
use std::marker::Model;

/// The words that are still to be read.
#[derive(Drop)]
pub(crate) struct Cursor<'a> {
    words: &'a [Word],
}

impl<'a> Model for Cursor<'a> {
    ghost use Rattle.std.specs.Prelude.{List};
    ghost use Rattle.map_grammar.specs.declared.word.Word.{Word};

    ghost Value = { List Word };

    ghost view = { λ c. c.words.now };
}

impl<'a> Cursor<'a> {
    pub(crate) fn new(words: &'a [Word]) -> Cursor<'a>
        ensures { result ≡ words.now }
    {
        Cursor { words }
    }

    pub(crate) fn is_empty(&self) -> bool
        ensures { result ≡ is_end self.now }
    {
        self.words.is_empty()
    }

    /// Whether the next word is spelled `text`.
    pub(crate) fn sees(&self, text: &str) -> bool
        ensures { result ≡ sees text.now self.now }
    {
        match self.words {
            [word, ..] => word.is(text),
            [] => false,
        }
    }

    /// Whether a name comes next.
    pub(crate) fn sees_name(&self) -> bool
        ensures { result ≡ begins is_name self.now }
    {
        match self.words {
            [word, ..] => word.is_name(),
            [] => false,
        }
    }

    /// Whether a dot and a name come next.
    pub(crate) fn sees_dotted(&self) -> bool
        ensures { result ≡ is_dotted self.now }
    {
        match self.words {
            [dot, name, ..] => dot.is(".") && name.is_name(),
            _ => false,
        }
    }

    /// Whether a word comes next that closes no brace.
    pub(crate) fn is_inside(&self) -> bool
        ensures { result ≡ is_inside self.now }
    {
        match self.words {
            [word, ..] => !word.is("}"),
            [] => false,
        }
    }

    /// Passes over the next word, which has to be spelled `text`, and gives its place.
    pub(crate) fn pass(&mut self, text: &str) -> Result<Place, Refusal>
        ensures read { Took (made (λ w. w.place) (token (is text.now)) self.old) result self.new }
        ensures shorter { OnOk result (length self.new < length self.old) }
    {
        match self.words {
            [word, rest @ ..] if word.is(text) => {
                self.words = rest;
                Ok(word.place)
            }
            _ => Err(Refusal::NotInGrammar),
        }
    }

    /// Reads a name.
    #[tactic(auto, unfolding(crate::specs::MapReaders::name))]
    pub(crate) fn name(&mut self, alloc: Global) -> Result<Named, Refusal>
        ensures read { Took (name self.old) result self.new }
        ensures shorter { OnOk result (length self.new < length self.old) }
    {
        match self.words {
            [word, rest @ ..] if word.is_name() => {
                let named = word.named(alloc)?;
                self.words = rest;
                Ok(named)
            }
            _ => Err(Refusal::NotInGrammar),
        }
    }

    /// Reads a string, without its quotes.
    #[tactic(auto, unfolding(crate::specs::MapReaders::string))]
    pub(crate) fn string(&mut self, alloc: Global) -> Result<Named, Refusal>
        ensures read { Took (string self.old) result self.new }
        ensures shorter { OnOk result (length self.new < length self.old) }
    {
        match self.words {
            [word, rest @ ..] if word.is_string() => {
                let string = word.unquoted(alloc)?;
                self.words = rest;
                Ok(string)
            }
            _ => Err(Refusal::NotInGrammar),
        }
    }

    /// Reads `*` as a name.
    #[tactic(auto, unfolding(crate::specs::MapReaders::star))]
    pub(crate) fn star(&mut self, alloc: Global) -> Result<Named, Refusal>
        ensures read { Took (star self.old) result self.new }
        ensures shorter { OnOk result (length self.new < length self.old) }
    {
        match self.words {
            [word, rest @ ..] if word.is("*") => {
                let named = word.named(alloc)?;
                self.words = rest;
                Ok(named)
            }
            _ => Err(Refusal::NotInGrammar),
        }
    }
}
