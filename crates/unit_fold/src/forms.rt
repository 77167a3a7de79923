ghost use Rattle.std.specs.Prelude.{◌≡◌, ◌&&◌, codes};
ghost use Rattle.std.specs.Option.{option_copied};
ghost use Rattle.unit_fold.specs.Lines.{between};
ghost use Rattle.unit_fold.specs.Tokens.{is_hash, is_punctuator, is_word, quoted};
ghost use Rattle.unit_fold.specs.Forms.{begins_pointer, form_of, has_target, is_named, is_object, is_unit};
ghost use Rattle.unit_fold.specs.Opened.{AreNumbered, IsNumbered, token_in, tokens_in};
ghost use Rattle.unit_fold.specs.Reads.{form_as, FormIsNumbered};

use crate::names::is_name;
use crate::open_piece::OpenPiece;
use cm_core::{Owner, Token, TokenKind};

/// The forms of piece that are read so far.
#[derive(Clone, Copy)]
pub(crate) enum Form {
    /// A `;` alone.
    Empty,
    /// An object of type `int` of this name.
    Object(Token),
    /// A pointer of the first name to the object of the second.
    Pointer(Token, Token),
    Other,
}

fn is_unit(owner: Owner) -> bool
    ensures { result ≡ is_unit owner }
{
    matches!(owner, Owner::Unit)
}

/// What stands between double quotes.
fn unquoted(text: &str) -> Option<&str>
    ensures { option_copied result ≡ between (codes "\"") (codes "\"") text.now }
{
    text.strip_prefix('"')?.strip_suffix('"')
}

impl OpenPiece {
    fn is_punctuator(&self, token: &Token, text: &str) -> bool
        requires { IsNumbered self.now.names token.now }
        ensures { result ≡ is_punctuator text.now (token_in self.now.names token.now) }
    {
        matches!(token.kind, TokenKind::Punct) && self.text(token) == text
    }

    /// Whether a token is the identifier of this spelling.
    pub(crate) fn is_word(&self, token: &Token, text: &str) -> bool
        requires { IsNumbered self.now.names token.now }
        ensures { result ≡ is_word text.now (token_in self.now.names token.now) }
    {
        matches!(token.kind, TokenKind::Ident) && self.text(token) == text
    }

    fn is_hash(&self, token: &Token) -> bool
        requires { IsNumbered self.now.names token.now }
        ensures { result ≡ is_hash (token_in self.now.names token.now) }
    {
        self.is_punctuator(token, "#") || self.is_punctuator(token, "%:")
    }

    /// Whether a token begins a directive, by whether it is the first of its line.
    pub(crate) fn begins_directive(&self, token: &Token, is_first: bool) -> bool
        requires { IsNumbered self.now.names token.now }
        ensures { result ≡ (is_first && is_hash (token_in self.now.names token.now)) }
    {
        is_first && self.is_hash(token)
    }

    /// The name in a header name that stands between double quotes.
    pub(crate) fn quoted(&self, token: &Token) -> Option<&str>
        requires { IsNumbered self.now.names token.now }
        ensures { option_copied result ≡ quoted (token_in self.now.names token.now) }
    {
        match token.kind {
            TokenKind::HeaderName => unquoted(self.text(token)),
            _ => None,
        }
    }

    /// Whether a token is an identifier that may be declared.
    fn is_named(&self, token: &Token) -> bool
        requires { IsNumbered self.now.names token.now }
        ensures { result ≡ is_named (token_in self.now.names token.now) }
    {
        matches!(token.kind, TokenKind::Ident) && is_name(self.text(token).as_bytes())
    }

    /// Whether the tokens are `int NAME ;`.
    fn is_object(&self, int: &Token, name: &Token, end: &Token) -> bool
        requires int { IsNumbered self.now.names int.now }
        requires name { IsNumbered self.now.names name.now }
        requires end { IsNumbered self.now.names end.now }
        ensures { result ≡ is_object (token_in self.now.names int.now) (token_in self.now.names name.now) (token_in self.now.names end.now) }
    {
        self.is_word(int, "int") && self.is_named(name) && self.is_punctuator(end, ";")
    }

    /// Whether the tokens are `int * NAME`.
    fn begins_pointer(&self, int: &Token, star: &Token, name: &Token) -> bool
        requires int { IsNumbered self.now.names int.now }
        requires star { IsNumbered self.now.names star.now }
        requires name { IsNumbered self.now.names name.now }
        ensures { result ≡ begins_pointer (token_in self.now.names int.now) (token_in self.now.names star.now) (token_in self.now.names name.now) }
    {
        self.is_word(int, "int") && self.is_punctuator(star, "*") && self.is_named(name)
    }

    /// Whether the tokens are `= & NAME ;`.
    fn has_target(&self, equals: &Token, and: &Token, target: &Token, end: &Token) -> bool
        requires equals { IsNumbered self.now.names equals.now }
        requires and { IsNumbered self.now.names and.now }
        requires target { IsNumbered self.now.names target.now }
        requires end { IsNumbered self.now.names end.now }
        ensures { result ≡ has_target (token_in self.now.names equals.now) (token_in self.now.names and.now) (token_in self.now.names target.now) (token_in self.now.names end.now) }
    {
        self.is_punctuator(equals, "=")
            && self.is_punctuator(and, "&")
            && self.is_named(target)
            && self.is_punctuator(end, ";")
    }

    /// The form of a piece of these tokens.
    pub(crate) fn form(&self, owner: Owner, tokens: &[Token]) -> Form
        requires { AreNumbered self.now.names tokens.now }
        ensures form { form_as self.now.names result ≡ form_of owner (tokens_in self.now.names tokens.now) }
        ensures numbered { FormIsNumbered self.now.names result }
    {
        match tokens {
            [end] => {
                if self.is_punctuator(end, ";") {
                    Form::Empty
                } else {
                    Form::Other
                }
            }
            [int, name, end] => {
                if self.is_object(int, name, end) {
                    Form::Object(*name)
                } else {
                    Form::Other
                }
            }
            [int, star, name, equals, and, target, end] => {
                if is_unit(owner)
                    && self.begins_pointer(int, star, name)
                    && self.has_target(equals, and, target, end)
                {
                    Form::Pointer(*name, *target)
                } else {
                    Form::Other
                }
            }
            _ => Form::Other,
        }
    }
}
