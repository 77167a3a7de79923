ghost use Rattle.std.specs.Prelude.{◌≡◌, min, ◌^◌, ◌-◌};
ghost use Rattle.c_parse.specs.Pieces as spec;

use cm_core::TokenKind;

/// What a token is to the cutting of pieces.
#[derive(Clone, Copy, Debug, PartialEq, Eq)]
pub(crate) enum Role {
    /// `(` or `[`.
    Open,
    OpenBrace,
    CloseParen,
    CloseBrace,
    /// `]`.
    Close,
    Semicolon,
    Equals,
    Other,
}

impl Role {
    /// The role of a token of the kind with the spelling.
    pub fn of(kind: TokenKind, text: &str) -> Role
        ensures { result ≡ spec.role_of kind text.now }
    {
        match kind {
            TokenKind::Punct => Role::of_punctuator(text),
            _ => Role::Other,
        }
    }

    fn of_punctuator(text: &str) -> Role
        ensures { result ≡ spec.role_in spec.spellings text.now }
    {
        match text {
            "(" | "[" | "<:" => Role::Open,
            "{" | "<%" => Role::OpenBrace,
            ")" => Role::CloseParen,
            "}" | "%>" => Role::CloseBrace,
            "]" | ":>" => Role::Close,
            ";" => Role::Semicolon,
            "=" => Role::Equals,
            _ => Role::Other,
        }
    }

    /// The depth of brackets behind a token of the role; the highest one stands still.
    pub fn depth_after(self, before: u64) -> u64
        ensures { result ≡ min (spec.depth_after self before) (2 ^ 64 - 1) }
    {
        match self {
            Role::Open | Role::OpenBrace => before.saturating_add(1),
            Role::CloseParen | Role::CloseBrace | Role::Close => before.saturating_sub(1),
            Role::Semicolon | Role::Equals | Role::Other => before,
        }
    }
}
