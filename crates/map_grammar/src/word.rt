ghost use Rattle.std.specs.Prelude.{◌≡◌, ◌+◌, ◌-◌, ◌<◌, ◌≤◌, true, IfOk, length, slice_index, slice_range};
ghost use Rattle.std.specs.List.{list_all};
ghost use Rattle.c_lex.specs.Pieces.{is_nondigit, is_word};
ghost use Rattle.map_grammar.specs.Grammar.{is, is_identifier, is_reserved, has_string_form, is_name, is_string, named, unquoted};

use crate::names::Named;
use cm_core::{NoMemory, Place, Str};
use std::alloc::Global;

/// A token of a map, with its spelling and its place.
#[derive(Debug, Drop)]
pub(crate) struct Word {
    pub(crate) text: Str,
    pub(crate) place: Place,
}

fn is_nondigit(byte: u8) -> bool
    ensures { result ≡ is_nondigit byte }
{
    byte == b'_' || byte.is_ascii_alphabetic()
}

fn is_word(byte: u8) -> bool
    ensures { result ≡ is_word byte }
{
    is_nondigit(byte) || byte.is_ascii_digit()
}

fn are_words(bytes: &[u8]) -> bool
    ensures { result ≡ list_all is_word bytes.now }
{
    bytes.iter().all(|byte| is_word(*byte))
}

/// Whether the bytes are an identifier.
#[tactic(auto, unfolding(crate::specs::Grammar::is_identifier))]
fn is_identifier(bytes: &[u8]) -> bool
    ensures { result ≡ is_identifier bytes.now }
{
    match bytes {
        [first, rest @ ..] => is_nondigit(*first) && are_words(rest),
        [] => false,
    }
}

/// Whether a map has a meaning of its own for the identifier.
#[tactic(auto, unfolding(crate::specs::Grammar::is_reserved))]
fn is_reserved(text: &str) -> bool
    ensures { result ≡ is_reserved text.now }
{
    matches!(
        text,
        "config_macros"
            | "conflict"
            | "exclude"
            | "explicit"
            | "export"
            | "export_as"
            | "extern"
            | "framework"
            | "header"
            | "link"
            | "module"
            | "private"
            | "requires"
            | "textual"
            | "umbrella"
            | "use"
    )
}

/// Whether the bytes are a string literal without a backslash.
#[tactic(auto, unfolding(crate::specs::Grammar::has_string_form))]
fn has_string_form(bytes: &[u8]) -> bool
    ensures { result ≡ has_string_form bytes.now }
{
    bytes.len() >= 2
        && bytes[0] == b'"'
        && bytes[bytes.len() - 1] == b'"'
        && !bytes.contains(&b'\\')
}

/// What stands between the quotes.
fn between_quotes(text: &str) -> &str
    requires { has_string_form text.now ≡ true }
    ensures { result.now ≡ slice_range text.now 1 (length text.now - 1) }
{
    &text[1..text.len() - 1]
}

impl Word {
    /// Whether it is spelled `text`.
    pub(crate) fn is(&self, text: &str) -> bool
        ensures { result ≡ is text.now self.now }
    {
        self.text.text() == text
    }

    pub(crate) fn is_name(&self) -> bool
        ensures { result ≡ is_name self.now }
    {
        let text = self.text.text();
        is_identifier(text.as_bytes()) && !is_reserved(text)
    }

    pub(crate) fn is_string(&self) -> bool
        ensures { result ≡ is_string self.now }
    {
        has_string_form(self.text.text().as_bytes())
    }

    pub(crate) fn named(&self, alloc: Global) -> Result<Named, NoMemory>
        ensures { IfOk result (λ n. n ≡ named self.now) }
    {
        Ok(Named {
            text: self.text.copy(alloc)?,
            place: self.place,
        })
    }

    pub(crate) fn unquoted(&self, alloc: Global) -> Result<Named, NoMemory>
        requires { is_string self.now ≡ true }
        ensures { IfOk result (λ n. n ≡ unquoted self.now) }
    {
        Ok(Named {
            text: Str::read(alloc, between_quotes(self.text.text()))?,
            place: self.place,
        })
    }
}
