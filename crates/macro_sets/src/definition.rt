ghost use Rattle.std.specs.Prelude.{◌≡◌};
ghost use Rattle.std.specs.Cmp.Lexicographic.{pointwise};
ghost use Rattle.std.specs.List.{list_all, zip};
ghost use Rattle.std.specs.Option.{option_eq};
ghost use Rattle.macro_sets.specs.ActiveMacros as spec;

use cm_core::{BodyToken, MacroBody};

/// Tells whether two definitions of a name are the same by C11 6.10.3p1, p2 and p7: they are of one
/// kind, function-like ones have the same parameters and are both variadic or both not, and the
/// replacement lists have the same tokens with white space between the same ones, however much.
/// White space before a replacement list is no part of it.
pub fn same_definition(a: &MacroBody, b: &MacroBody) -> bool
    ensures { result ≡ spec.same_definition a.now b.now }
{
    same_parameters(a, b) && same_replacement(a.tokens.items(), b.tokens.items())
}

fn same_parameters(a: &MacroBody, b: &MacroBody) -> bool
    ensures { result ≡ option_eq spec.same_parameters (spec.parameters_of a.now) (spec.parameters_of b.now) }
{
    match (&a.params, &b.params) {
        (None, None) => true,
        (Some(own), Some(other)) => own.items() == other.items() && a.variadic == b.variadic,
        (None, Some(_)) | (Some(_), None) => false,
    }
}

/// White space before the first token is no part of a replacement list, C11 6.10.3p7.
fn same_replacement(a: &[BodyToken], b: &[BodyToken]) -> bool
    ensures { result ≡ spec.same_replacement a.now b.now }
{
    match (a, b) {
        ([], []) => true,
        ([own, rest @ ..], [other, others @ ..]) => {
            own.text == other.text && same_tokens(rest, others)
        }
        _ => false,
    }
}

fn same_tokens(a: &[BodyToken], b: &[BodyToken]) -> bool
    ensures { result ≡ pointwise spec.same_token a.now b.now }
{
    a.len() == b.len() && same_pairs(a, b)
}

fn same_pairs(a: &[BodyToken], b: &[BodyToken]) -> bool
    ensures { result ≡ list_all (λ p. spec.same_token p.0 p.1) (zip a.now b.now) }
{
    a.iter().zip(b).all(|(own, other)| same_token(own, other))
}

fn same_token(a: &BodyToken, b: &BodyToken) -> bool
    ensures { result ≡ spec.same_token a.now b.now }
{
    a.text == b.text && a.spaced == b.spaced
}
