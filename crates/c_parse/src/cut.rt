ghost use Rattle.std.specs.Prelude.{◌≡◌, ℕ, ◌<◌, ◌^◌, [], ◌∷◌, ◌++◌, if◌then◌else◌, List, length};
ghost use Rattle.cm_core.specs.declared.token.Token.{Token as Taken};
ghost use Rattle.c_parse.specs.declared.role.Role.{Role as Roled};
ghost use Rattle.c_parse.specs.Pieces.{depth as depth_of, ends, ends_piece, has_equals, is_whole};
ghost use Rattle.c_parse.specs.Cuts.{ending_of, Follows, HasSeen, IsAfter};

use crate::role::Role;
use cm_core::{Names, NoMemory, Token, TryCopy};
use std::alloc::Global;

/// What the tokens outside all brackets end in.
#[derive(Clone, Copy, Debug, PartialEq, Eq)]
pub(crate) enum Ending {
    CloseParen,
    /// The `{` of a body: one directly behind a `)`.
    Body,
    Other,
}

impl Ending {
    /// What they end in with one more.
    fn with(self, role: Role) -> Ending
        ensures { (before : List Roled) → self ≡ ending_of before → result ≡ ending_of (role ∷ before) }
    {
        match (role, self) {
            (Role::CloseParen, _) => Ending::CloseParen,
            (Role::OpenBrace, Ending::CloseParen) => Ending::Body,
            _ => Ending::Other,
        }
    }
}

/// Finds where the pieces of an owner's tokens end. It is handed the tokens in their order, without
/// the ends of lines.
#[derive(Clone, Copy, Debug, PartialEq, Eq)]
pub struct Cut {
    /// How many brackets are open.
    depth: u64,
    ending: Ending,
    /// Whether an `=` stands outside all brackets.
    assigned: bool,
}

impl Cut {
    /// A cut before an owner's first token.
    pub fn new() -> Cut
        ensures { (names : List (List ℕ)) → IsAfter names [] result }
    {
        Cut {
            depth: 0,
            ending: Ending::Other,
            assigned: false,
        }
    }

    /// Whether the token is the last of its piece. The answer is exact for pieces of fewer than 2^64
    /// tokens; the cut then stands before the next piece.
    pub fn take(&mut self, token: &Token, names: &Names) -> bool
        requires { token.now.name.index < length names.now }
        ensures ends { (tokens : List Taken) → length tokens < 2 ^ 64 → IsAfter names.now tokens self.old → result ≡ ends_piece names.now (tokens ++ token.now ∷ []) }
        ensures after { (tokens : List Taken) → IsAfter names.now tokens self.old → IsAfter names.now (if result then [] else tokens ++ token.now ∷ []) self.new }
    {
        self.step(Role::of(token.kind, names.text(token.name)))
    }

    fn step(&mut self, role: Role) -> bool
        ensures ends { (before : List Roled) → HasSeen before self.old → result ≡ is_whole (role ∷ before) }
        ensures after { (before : List Roled) → Follows before self.old → Follows (if result then [] else role ∷ before) self.new }
    {
        let depth = role.depth_after(self.depth);
        if depth == 0 && self.ends_with(role) {
            *self = Cut::new();
            return true;
        }
        self.add(role, depth);
        false
    }

    /// Whether a token outside all brackets, or one that closes the last of them, ends the piece.
    fn ends_with(&self, role: Role) -> bool
        ensures { (before : List Roled) → self.now.ending ≡ ending_of before → self.now.assigned ≡ has_equals before → result ≡ ends (role ∷ before) }
    {
        match role {
            Role::Semicolon => true,
            Role::CloseBrace => self.ending == Ending::Body && !self.assigned,
            _ => false,
        }
    }

    /// Goes behind a token of the role, where `depth` brackets are open.
    fn add(&mut self, role: Role, depth: u64)
        ensures { (before : List Roled) → HasSeen before self.old → depth ≡ depth_of (role ∷ before) → HasSeen (role ∷ before) self.new }
    {
        let is_outside = self.depth == 0 || depth == 0;
        self.depth = depth;
        if is_outside {
            self.ending = self.ending.with(role);
            self.assigned |= role == Role::Equals;
        }
    }
}

impl TryCopy for Cut {
    fn try_copy(&self, _alloc: Global) -> Result<Cut, NoMemory> {
        Ok(*self)
    }
}
