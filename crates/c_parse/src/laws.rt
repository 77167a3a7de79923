//! What the definition of the pieces comes to. These calls do nothing: what they ensure are laws of
//! the definitions that the contracts of `Cut` cite.

ghost use Rattle.std.specs.Prelude.{◌≡◌, ◌⊎◌, ℕ, ◌<◌, All, List, length};
ghost use Rattle.std.specs.Bool.{Decides};
ghost use Rattle.cm_core.specs.Tables.{Extends};
ghost use Rattle.cm_core.specs.declared.token.Token.{Token};
ghost use Rattle.c_parse.specs.declared.cut.Cut.{Cut};
ghost use Rattle.c_parse.specs.declared.role.Role.{Role};
ghost use Rattle.c_parse.specs.Cuts.{IsAfter};
ghost use Rattle.c_parse.specs.Pieces.{ArePieces, EndsBody, EndsStatement, is_whole, pieces};

/// A piece ends exactly at a `;` outside all brackets, and at the `}` that closes a `{` outside all
/// brackets which directly follows a `)`, where each `=` before it stands inside brackets.
pub fn ends_are_as_stated()
    ensures { (roles : List Role) → Decides (is_whole roles) (EndsStatement roles ⊎ EndsBody roles) }
{}

/// The pieces of tokens are all of them in their order, each but the last ends as a piece does, and
/// none of them does before its last token; no other lists of tokens are so.
pub fn pieces_are_as_stated()
    ensures are { (names : List (List ℕ)) (tokens : List Token) → ArePieces names tokens (pieces names tokens) }
    ensures only { (names : List (List ℕ)) (tokens : List Token) (parts : List (List Token)) → ArePieces names tokens parts → parts ≡ pieces names tokens }
{}

/// Names that are numbered later change nothing.
pub fn pieces_keep_with_more_names()
    ensures cut { (names more : List (List ℕ)) (tokens : List Token) (cut : Cut) → Extends names more → All (λ t. t.name.index < length names) tokens → IsAfter names tokens cut → IsAfter more tokens cut }
    ensures pieces { (names more : List (List ℕ)) (tokens : List Token) → Extends names more → All (λ t. t.name.index < length names) tokens → pieces more tokens ≡ pieces names tokens }
{}
